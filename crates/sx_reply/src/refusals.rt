//! How refusals are told: one table for both doors.
ghost use Rattle.std.specs.Prelude.{◌≡◌, true};
ghost use Rattle.std.specs.List.{flat_map};
ghost use Rattle.sx_base.specs.Sink.{Prints};
ghost use Rattle.sx_reply.specs.Words.{word_text};
ghost use Rattle.sx_reply.specs.Refusals.{row_of, has_code, message_of, words, numbered, with_handle, lock_message};
ghost use Rattle.sx_reply.specs.Refusals.{quota_message};
ghost use Rattle.sx_call.specs.declared.refusals.Refusal.TheVariants.{LeaseOther, NoLease};

use crate::gather::{Word, print_words};
use sx_base::{Failed, Sink};
use sx_call::Refusal;
use sx_guard::{HandleId, Held};

/// A message, as the words of its text; the last of them may be empty.
pub(crate) type Message<'a> = [Word<'a>; 8];

/// A row of the table of refusals.
#[derive(Clone, Copy)]
pub(crate) struct Row {
    /// The status of the REST answer, and 0 where no REST call is refused so.
    pub(crate) status: u16,
    /// The code of the REST answer, and else empty.
    pub(crate) code: &'static str,
    /// The word of the session's answer, and empty where no session's call is refused so.
    pub(crate) word: &'static str,
}

fn told(status: u16, code: &'static str, word: &'static str) -> Row
    ensures status { result.status ≡ status }
    ensures code { result.code.now ≡ code.now }
    ensures word { result.word.now ≡ word.now }
{
    Row { status, code, word }
}

/// The table of refusals.
#[tactic(auto, unfolding(crate::specs::Refusals::row_of))]
pub(crate) fn row_of(refusal: &Refusal) -> Row
    ensures status { result.status ≡ (row_of refusal.now).status }
    ensures code { result.code.now ≡ (row_of refusal.now).code }
    ensures word { result.word.now ≡ (row_of refusal.now).word }
{
    match refusal {
        Refusal::ShareAbsent => told(404, "ShareNotFound", "BAD_NETWORK_NAME"),
        Refusal::ShareThere => told(409, "ShareAlreadyExists", ""),
        Refusal::SnapshotAbsent { .. } => told(404, "ShareSnapshotNotFound", ""),
        Refusal::ParentAbsent { .. } => told(404, "ParentNotFound", "OBJECT_PATH_NOT_FOUND"),
        Refusal::NameAbsent => told(404, "ResourceNotFound", "OBJECT_NAME_NOT_FOUND"),
        Refusal::NameThere { .. } => told(409, "ResourceAlreadyExists", "OBJECT_NAME_COLLISION"),
        Refusal::IsDirectory { .. } => told(409, "ResourceTypeMismatch", "FILE_IS_A_DIRECTORY"),
        Refusal::IsFile { .. } => told(409, "ResourceTypeMismatch", "NOT_A_DIRECTORY"),
        Refusal::Pending { .. } => told(409, "SMBDeletePending", "DELETE_PENDING"),
        Refusal::NotEmpty { .. } => told(409, "DirectoryNotEmpty", ""),
        Refusal::ReadOnly { .. } => told(409, "ReadOnlyAttribute", "ACCESS_DENIED"),
        Refusal::LeaseHeld => told(412, "LeaseIdMissing", "SHARING_VIOLATION"),
        Refusal::LeaseOther { share } => other_lease_row(*share),
        Refusal::NoLease { share } => no_lease_row(*share),
        Refusal::LeaseTaken => told(409, "LeaseAlreadyPresent", ""),
        Refusal::LeaseIdWrong => told(409, "LeaseIdMismatchWithLeaseOperation", ""),
        Refusal::LeaseNotThere => told(409, "LeaseNotPresentWithLeaseOperation", ""),
        Refusal::Shared { .. } => told(409, "SharingViolation", "SHARING_VIOLATION"),
        Refusal::Locked { .. } => told(409, "FileLockConflict", "FILE_LOCK_CONFLICT"),
        Refusal::NotLocked => told(0, "", "RANGE_NOT_LOCKED"),
        Refusal::OutOfFile { .. } => told(416, "InvalidRange", ""),
        Refusal::QuotaMet { .. } => told(409, "ShareQuotaExceeded", "DISK_FULL"),
        Refusal::SnapshotsFull { .. } => told(409, "ShareSnapshotCountExceeded", ""),
        Refusal::SnapshotsStand { .. } => told(409, "ShareHasSnapshots", ""),
        Refusal::OpensFull { .. } => told(0, "", "TOO_MANY_OPENED_FILES"),
        Refusal::NoHandle { .. } => told(0, "", "INVALID_HANDLE"),
        Refusal::LacksAccess { .. } => told(0, "", "ACCESS_DENIED"),
    }
}

/// The row of a lease that is held under another id.
#[tactic(auto, unfolding(crate::specs::Refusals::row_of))]
fn other_lease_row(share: bool) -> Row
    ensures status { result.status ≡ (row_of (LeaseOther share)).status }
    ensures code { result.code.now ≡ (row_of (LeaseOther share)).code }
    ensures word { result.word.now ≡ (row_of (LeaseOther share)).word }
{
    if share {
        told(412, "LeaseIdMismatchWithShareOperation", "")
    } else {
        told(412, "LeaseIdMismatchWithFileOperation", "")
    }
}

/// The row of a lease that isn't held.
#[tactic(auto, unfolding(crate::specs::Refusals::row_of))]
fn no_lease_row(share: bool) -> Row
    ensures status { result.status ≡ (row_of (NoLease share)).status }
    ensures code { result.code.now ≡ (row_of (NoLease share)).code }
    ensures word { result.word.now ≡ (row_of (NoLease share)).word }
{
    if share {
        told(412, "LeaseNotPresentWithShareOperation", "")
    } else {
        told(412, "LeaseNotPresentWithFileOperation", "")
    }
}

/// Whether REST calls are refused so.
pub fn has_code(refusal: &Refusal) -> bool
    ensures { result ≡ has_code refusal.now }
{
    0 < row_of(refusal).status
}

/// The code of the REST answer to a call that is refused, as `ResourceNotFound`.
pub fn code_of(refusal: &Refusal) -> &'static str
    requires { has_code refusal.now ≡ true }
    ensures { result.now ≡ (row_of refusal.now).code }
{
    row_of(refusal).code
}

/// The status of the REST answer to a call that is refused.
pub fn status_of(refusal: &Refusal) -> u16
    requires { has_code refusal.now ≡ true }
    ensures { result ≡ (row_of refusal.now).status }
{
    row_of(refusal).status
}

/// The word of the answer to a session's call that is refused, as `OBJECT_NAME_NOT_FOUND`: the name of its NT status
/// without `STATUS_`. It is empty where no session's call is refused so.
pub fn word_of(refusal: &Refusal) -> &'static str
    ensures { result.now ≡ (row_of refusal.now).word }
{
    row_of(refusal).word
}

/// Writes the message of a refusal, the same in both doors, or a prefix of it where the sink fails. It takes no
/// memory.
pub fn put_message<K: Sink>(sink: &mut K, refusal: &Refusal) -> Result<(), Failed>
    ensures { Prints K.wrote K.write_count K.puts sink.old sink.new (message_of refusal.now) result }
{
    let message = message_of(refusal);
    print_words(sink, &message)
}

/// The message of a refusal.
#[tactic(auto, unfolding(crate::specs::Refusals::message_of))]
pub(crate) fn message_of(refusal: &Refusal) -> Message<'static>
    ensures { flat_map word_text result ≡ message_of refusal.now }
{
    match refusal {
        Refusal::ShareAbsent => words(b"no share"),
        Refusal::ShareThere => words(b"share there"),
        Refusal::SnapshotAbsent { .. } => words(b"no snapshot"),
        Refusal::ParentAbsent { parts } => numbered(b"no parent ", *parts as u64),
        Refusal::NameAbsent => words(b"no name"),
        Refusal::NameThere { id } => numbered(b"there id ", *id),
        Refusal::IsDirectory { id } => numbered(b"directory id ", *id),
        Refusal::IsFile { id } => numbered(b"file id ", *id),
        Refusal::Pending { id } => numbered(b"pending id ", *id),
        Refusal::NotEmpty { id } => numbered(b"not empty id ", *id),
        Refusal::ReadOnly { id } => numbered(b"read-only id ", *id),
        Refusal::LeaseHeld => words(b"lease held"),
        Refusal::LeaseOther { .. } => words(b"lease differs"),
        Refusal::NoLease { .. } => words(b"no lease"),
        Refusal::LeaseTaken => words(b"lease taken"),
        Refusal::LeaseIdWrong => words(b"lease id differs"),
        Refusal::LeaseNotThere => words(b"lease not there"),
        Refusal::Shared { handle } => with_handle(b"sharing handle ", handle),
        Refusal::Locked { held } => lock_message(held),
        Refusal::NotLocked => words(b"not locked"),
        Refusal::OutOfFile { length } => numbered(b"range length ", *length),
        Refusal::QuotaMet { used, more, limit } => quota_message(*used, *more, *limit),
        Refusal::SnapshotsFull { n } => numbered(b"snapshots ", *n),
        Refusal::SnapshotsStand { n } => numbered(b"snapshots ", *n),
        Refusal::OpensFull { n } => numbered(b"opens ", *n),
        Refusal::NoHandle { handle } => with_handle(b"handle ", handle),
        Refusal::LacksAccess { handle } => with_handle(b"access ", handle),
    }
}

/// The message that is these words.
pub(crate) fn words<'a>(text: &'a [u8]) -> Message<'a>
    ensures { flat_map word_text result ≡ words text.now }
{
    [
        Word::Text(text),
        Word::Text(b""),
        Word::Text(b""),
        Word::Text(b""),
        Word::Text(b""),
        Word::Text(b""),
        Word::Text(b""),
        Word::Text(b""),
    ]
}

/// The message that ends in a number.
pub(crate) fn numbered<'a>(text: &'a [u8], number: u64) -> Message<'a>
    ensures { flat_map word_text result ≡ numbered text.now number }
{
    [
        Word::Text(text),
        Word::Number(number),
        Word::Text(b""),
        Word::Text(b""),
        Word::Text(b""),
        Word::Text(b""),
        Word::Text(b""),
        Word::Text(b""),
    ]
}

/// The message that ends in a handle.
fn with_handle<'a>(text: &'a [u8], handle: &HandleId) -> Message<'a>
    ensures { flat_map word_text result ≡ with_handle text.now handle.now }
{
    [
        Word::Text(text),
        Word::Number(handle.session as u64),
        Word::Text(b"."),
        Word::Number(handle.index as u64),
        Word::Text(b""),
        Word::Text(b""),
        Word::Text(b""),
        Word::Text(b""),
    ]
}

/// The message on a lock that is in the way.
fn lock_message(held: &Held) -> Message<'static>
    ensures { flat_map word_text result ≡ lock_message held.now }
{
    [
        Word::Text(b"lock handle "),
        Word::Number(held.handle.session as u64),
        Word::Text(b"."),
        Word::Number(held.handle.index as u64),
        Word::Text(b" from "),
        Word::Number(held.from),
        Word::Text(b" to "),
        Word::Number(held.end - 1),
    ]
}

/// The message on a quota that has no room.
fn quota_message(used: u64, more: u64, limit: u64) -> Message<'static>
    ensures { flat_map word_text result ≡ quota_message used more limit }
{
    [
        Word::Text(b"quota used "),
        Word::Number(used),
        Word::Text(b" more "),
        Word::Number(more),
        Word::Text(b" limit "),
        Word::Number(limit),
        Word::Text(b""),
        Word::Text(b""),
    ]
}
