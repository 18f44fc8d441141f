//! What the tests of the office share: an office, its first calls and its close.
ghost use Rattle.std.specs.Prelude.{◌≡◌};
ghost use Rattle.sx_book.specs.Passes.{HoldsSession, IsSamePass, KeepsSessions};

use std::alloc::Global;
use std::process::Abort;
use std::sync::Wait;
use sx_base::Items;
use sx_book::{Book, Office, Pass, Receipt, Session, Stop};
use sx_call::{Call, CreateShare, How, NamedPath, Noted, OpenAccess, Reply, SmbOpen, SmbReply};
use sx_guard::{Access, Mode};
use sx_names::{Meta, Part, Path, Quota, ShareName};

pub(crate) const NOW: u64 = 16_409_952_000_000_000;

pub(crate) fn begun(rt: &impl Abort, alloc: Global, limit: u32) -> (Office, Pass)
    ensures { result.1.office ≡ result.0 }
{
    match Office::begin(alloc, limit) {
        Ok(made) => made,
        Err(_) => panic!(rt; "no memory"),
    }
}

pub(crate) fn share_name(rt: &impl Abort, alloc: Global) -> ShareName {
    match ShareName::read(alloc, b"data") {
        Ok(name) => name,
        Err(_) => panic!(rt; "no name"),
    }
}

// Asks Create Share of `data`, with the random number 17.
pub(crate) fn create<R: Abort + Wait>(
    rt: &R,
    alloc: Global,
    office: &Office,
    pass: &mut Pass,
) -> Result<Receipt, Stop>
    requires own { pass.old.office ≡ office.now }
    ensures held { KeepsSessions pass.old pass.new }
    ensures same { IsSamePass pass.old pass.new }
{
    let call = Call::CreateShare(CreateShare {
        share: share_name(rt, alloc),
        quota: Quota::of(5120),
        meta: Meta::new(alloc),
    });
    office.ask(rt, pass, NOW, 17, None, call)
}

pub(crate) fn created<R: Abort + Wait>(
    rt: &R,
    alloc: Global,
    office: &Office,
    pass: &mut Pass,
) -> Receipt
    requires own { pass.old.office ≡ office.now }
    ensures same { IsSamePass pass.old pass.new }
{
    match create(rt, alloc, office, pass) {
        Ok(receipt) => receipt,
        Err(_) => panic!(rt; "no place"),
    }
}

pub(crate) fn started<R: Abort + Wait>(rt: &R, office: &Office, pass: &mut Pass) -> Session
    requires own { pass.old.office ≡ office.now }
    ensures held { HoldsSession pass.new result }
    ensures same { IsSamePass pass.old pass.new }
{
    match office.start(rt, pass, NOW, 7) {
        Ok((session, _)) => session,
        Err(_) => panic!(rt; "no session"),
    }
}

// The noted entries from a place on, at most so many.
pub(crate) fn tail_of<R: Abort + Wait>(
    rt: &R,
    alloc: Global,
    office: &Office,
    pass: &mut Pass,
    from: u64,
    most: u64,
) -> Items<Noted>
    requires own { pass.old.office ≡ office.now }
    ensures held { KeepsSessions pass.old pass.new }
    ensures same { IsSamePass pass.old pass.new }
{
    match office.tail(rt, alloc, pass, from, most) {
        Ok(entries) => entries,
        Err(_) => panic!(rt; "no memory"),
    }
}

pub(crate) fn split<R: Abort + Wait>(rt: &R, office: &Office, pass: &mut Pass) -> Pass
    requires own { pass.old.office ≡ office.now }
    ensures same { IsSamePass pass.old pass.new }
    ensures new { result.office ≡ office.now }
{
    match office.split(rt, pass) {
        Ok(new) => new,
        Err(fault) => panic!(rt; "{fault:?}"),
    }
}

pub(crate) fn closed<R: Abort + Wait>(rt: &R, office: Office, pass: Pass) -> Book
    requires { pass.office ≡ office }
{
    match office.close(rt, pass) {
        Ok(book) => book,
        Err(fault) => panic!(rt; "{} out", Office::abandon(fault)),
    }
}

// The path of a caller's file: the caller's number and the file's.
pub(crate) fn file_path(alloc: Global, who: u32, file: u32) -> Option<Path> {
    let Ok(name) = format!(in alloc; "{who}-{file}") else {
        return None;
    };
    let Ok(part) = Part::read(alloc, name.as_bytes()) else {
        return None;
    };
    let Ok(path) = Path::of_part(alloc, part) else {
        return None;
    };
    Some(path)
}

// The call that makes and opens a caller's file.
fn opening(alloc: Global, who: u32, file: u32) -> Option<SmbOpen> {
    let Some(path) = file_path(alloc, who, file) else {
        return None;
    };
    let Some(path) = NamedPath::of(path) else {
        return None;
    };
    let Ok(share) = ShareName::read(alloc, b"data") else {
        return None;
    };
    let both = Access {
        read: true,
        write: true,
        delete: false,
    };
    let Some(access) = OpenAccess::of(both, false) else {
        return None;
    };
    Some(SmbOpen {
        share,
        path,
        access,
        mode: Mode {
            read: true,
            write: true,
            delete: true,
        },
        how: How::Create,
        dir: false,
    })
}

// Lets go of a value.
pub(crate) fn let_go<T: Drop>(_value: T) {}

// Whether an open was answered with a file that it made.
fn was_made(answer: Result<Receipt, Stop>) -> bool {
    match answer {
        Ok(receipt) => matches!(
            receipt.reply,
            Reply::Smb(SmbReply::Opened { made: true, .. })
        ),
        Err(_) => false,
    }
}

// Makes a file of the pass's in one of its sessions. Answers whether it was made.
pub(crate) fn make_file<R: Wait>(
    rt: &R,
    alloc: Global,
    office: &Office,
    pass: &mut Pass,
    session: &Session,
    file: u32,
) -> bool
    requires own { pass.old.office ≡ office.now }
    requires held { HoldsSession pass.old session.now }
    ensures held { HoldsSession pass.new session.now }
    ensures same { IsSamePass pass.old pass.new }
{
    let Some(open) = opening(alloc, pass.number(), file) else {
        return false;
    };
    was_made(office.ask(rt, pass, NOW, 17, Some(session), Call::SmbOpen(open)))
}
