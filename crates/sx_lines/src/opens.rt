//! The line that opens a file or directory.
ghost use Rattle.std.specs.Prelude.{◌≡◌};
ghost use Rattle.sx_lines.specs.Reading.{Reads};
ghost use Rattle.sx_lines.specs.Words.{judged, next_word};
ghost use Rattle.sx_lines.specs.Fields.{rights_of, mode_of, how_of};
ghost use Rattle.sx_lines.specs.Opens.{unmarked, doc_of, rights_in, open_call};

use crate::fields::choice_in;
use crate::letters::{how_of, mode_of, rights_of};
use crate::names::{path_in, share_in};
use crate::unread::Unread;
use crate::words::{behind_next, end_of, next_word, wrong};
use std::alloc::Global;
use sx_call::{Call, How, OpenAccess, SmbOpen};
use sx_guard::{Access, Mode};

fn access_in(behind: &[u8]) -> Result<Access, Unread>
    ensures { Reads result (judged behind.now (rights_of (next_word behind.now))) }
{
    match rights_of(next_word(behind)) {
        Some(access) => Ok(access),
        None => wrong(behind),
    }
}

fn mode_in(behind: &[u8]) -> Result<Mode, Unread>
    ensures { Reads result (judged behind.now (mode_of (next_word behind.now))) }
{
    match mode_of(next_word(behind)) {
        Some(mode) => Ok(mode),
        None => wrong(behind),
    }
}

fn how_in(behind: &[u8]) -> Result<How, Unread>
    ensures { Reads result (judged behind.now (how_of (next_word behind.now))) }
{
    match how_of(next_word(behind)) {
        Some(how) => Ok(how),
        None => wrong(behind),
    }
}

/// The rights with the mark for delete on close, which the word `doc` stands for.
fn doc_of(access: Access, word: &[u8]) -> Option<OpenAccess>
    ensures { result ≡ doc_of access word.now }
{
    if word == b"doc".as_slice() {
        OpenAccess::of(access, true)
    } else {
        None
    }
}

fn unmarked(access: Access) -> OpenAccess
    ensures { result ≡ unmarked access }
{
    match OpenAccess::of(access, false) {
        Some(rights) => rights,
        None => unreachable!(),
    }
}

/// The rights, with the mark for delete on close if one more word stands there.
#[tactic(auto, unfolding(crate::specs::Opens::rights_in))]
fn rights_in(access: Access, behind: &[u8]) -> Result<OpenAccess, Unread>
    ensures { Reads result (rights_in access behind.now) }
{
    if behind.is_empty() {
        return Ok(unmarked(access));
    }
    match doc_of(access, next_word(behind)) {
        Some(rights) => Ok(rights),
        None => wrong(behind),
    }
}

/// `open SHARE PATH ACCESS MODE existing|create|either file|dir`, and `doc` where ACCESS has `d`.
#[tactic(auto, unfolding(crate::specs::Opens::open_call))]
pub(crate) fn open_call(alloc: Global, share: &[u8]) -> Result<Call, Unread>
    ensures { Reads result (open_call share.now) }
{
    let path = behind_next(share);
    let access = behind_next(path);
    let mode = behind_next(access);
    let how = behind_next(mode);
    let kind = behind_next(how);
    let doc = behind_next(kind);
    let share = share_in(alloc, share)?;
    let path = path_in(alloc, path)?;
    let access = access_in(access)?;
    let mode = mode_in(mode)?;
    let how = how_in(how)?;
    let dir = choice_in(b"dir", b"file", kind)?;
    let access = rights_in(access, doc)?;
    end_of(behind_next(doc))?;
    Ok(Call::SmbOpen(SmbOpen {
        share,
        path,
        access,
        mode,
        how,
        dir,
    }))
}
