//! The names of a page, each as a word.
ghost use Rattle.std.specs.Prelude.{◌≡◌, ◌≤◌, ◌&&◌, ◌==◌, position, length, drop};
ghost use Rattle.std.specs.List.{before_first, position_or_len};
ghost use Rattle.sx_answer_reader.specs.Entries.{is_colon, behind_field, kind_in, length_in, colon_name, of_kind};
ghost use Rattle.sx_answer_reader.specs.Entries.{entry_of, entries_of};
ghost use Rattle.sx_answer_reader.specs.Reading.{Reads};

use crate::answer::{Entry, Unread};
use crate::names::name_of;
use crate::numbers::number_in;
use crate::words::{behind_next, end_of, next_word};
use std::alloc::Global;
use sx_base::Items;
use sx_names::Text;

fn first_colon(text: &[u8]) -> Option<usize>
    ensures { result ≡ position is_colon text.now }
{
    text.iter().position(|b| *b == b':')
}

/// How many bytes the first field of a text has.
fn field_length(text: &[u8]) -> usize
    ensures place { result ≡ position_or_len is_colon text.now }
    ensures within { result ≤ length text.now }
{
    match first_colon(text) {
        None => text.len(),
        Some(at) => at,
    }
}

/// The first field of a text.
fn first_field(text: &[u8]) -> &[u8]
    ensures { result.now ≡ before_first is_colon text.now }
{
    &text[..field_length(text)]
}

/// What stands behind the first field of a text: nothing, or a colon and what follows it.
fn behind_field(text: &[u8]) -> &[u8]
    ensures { result.now ≡ behind_field text.now }
{
    &text[field_length(text)..]
}

/// Whether it is a directory's, by the first field.
fn kind_in(word: &[u8]) -> Result<bool, Unread>
    ensures { Reads result (kind_in word.now) }
{
    let field = first_field(word);
    if field == b"dir".as_slice() {
        Ok(true)
    } else if field == b"file".as_slice() {
        Ok(false)
    } else {
        Err(Unread::NoAnswer)
    }
}

/// The length, behind the kind.
fn length_in(text: &[u8]) -> Result<u64, Unread>
    ensures { Reads result (length_in text.now) }
{
    match number_in(0, 18_446_744_073_709_551_615, first_field(text)) {
        Some(number) => Ok(number),
        None => Err(Unread::NoAnswer),
    }
}

/// The name behind a colon.
fn colon_name(alloc: Global, behind: &[u8]) -> Result<Text, Unread>
    ensures { Reads result (colon_name behind.now) }
{
    match behind {
        [_, word @ ..] => name_of(alloc, word),
        [] => Err(Unread::NoAnswer),
    }
}

/// What stands behind a colon, and nothing where none stands there.
fn behind_colon(behind: &[u8]) -> &[u8]
    ensures { result.now ≡ drop 1 behind.now }
{
    match behind {
        [_, text @ ..] => text,
        [] => behind,
    }
}

/// The entry of a kind, a length and a name. A directory has no length.
fn of_kind(dir: bool, length: u64, name: Text) -> Result<Entry, Unread>
    ensures { Reads result (of_kind dir length name) }
{
    if dir && length != 0 {
        Err(Unread::NoAnswer)
    } else {
        Ok(Entry { dir, length, name })
    }
}

/// `file:LENGTH:NAME` or `dir:0:NAME`
#[tactic(auto, unfolding(crate::specs::Entries::entry_of))]
fn entry_of(alloc: Global, word: &[u8]) -> Result<Entry, Unread>
    ensures { Reads result (entry_of word.now) }
{
    let text = behind_colon(behind_field(word));
    let dir = kind_in(word)?;
    let length = length_in(text)?;
    let name = colon_name(alloc, behind_field(text))?;
    of_kind(dir, length, name)
}

/// So many entries, up to the end of the line.
pub(crate) fn entries_of(alloc: Global, count: u64, first: &[u8]) -> Result<Items<Entry>, Unread>
    ensures { Reads result (entries_of count first.now) }
{
    let mut entries = Items::new(alloc);
    let mut behind = first;
    for _turn in 0..count {
        match entry_of(alloc, next_word(behind)) {
            Ok(entry) => entries.push(entry)?,
            Err(unread) => return Err(unread),
        }
        behind = behind_next(behind);
    }
    match end_of(behind) {
        Ok(()) => Ok(entries),
        Err(unread) => Err(unread),
    }
}
