//! Words of lines that stand for rights and choices.
ghost use Rattle.std.specs.Prelude.{◌≡◌};
ghost use Rattle.sx_lines.specs.Fields.{rights, rights_of, mode_of, how_of, choice_of};

use sx_call::How;
use sx_guard::{Access, Mode};

fn rights(read: bool, write: bool, delete: bool) -> Option<Access>
    ensures { result ≡ Some (rights read write delete) }
{
    Some(Access {
        read,
        write,
        delete,
    })
}

/// The rights that letters of `rwd` in this order stand for, or `-` for none.
#[tactic(auto, unfolding(crate::specs::Fields::rights_of))]
pub(crate) fn rights_of(word: &[u8]) -> Option<Access>
    ensures { result ≡ rights_of word.now }
{
    if word == b"-".as_slice() {
        rights(false, false, false)
    } else if word == b"r".as_slice() {
        rights(true, false, false)
    } else if word == b"w".as_slice() {
        rights(false, true, false)
    } else if word == b"d".as_slice() {
        rights(false, false, true)
    } else if word == b"rw".as_slice() {
        rights(true, true, false)
    } else if word == b"rd".as_slice() {
        rights(true, false, true)
    } else if word == b"wd".as_slice() {
        rights(false, true, true)
    } else if word == b"rwd".as_slice() {
        rights(true, true, true)
    } else {
        None
    }
}

/// The rights that such letters leave to others.
#[tactic(auto, unfolding(crate::specs::Fields::mode_of))]
pub(crate) fn mode_of(word: &[u8]) -> Option<Mode>
    ensures { result ≡ mode_of word.now }
{
    match rights_of(word) {
        Some(rights) => Some(Mode {
            read: rights.read,
            write: rights.write,
            delete: rights.delete,
        }),
        None => None,
    }
}

/// What an open does with a name that is there, and with one that is absent.
#[tactic(auto, unfolding(crate::specs::Fields::how_of))]
pub(crate) fn how_of(word: &[u8]) -> Option<How>
    ensures { result ≡ how_of word.now }
{
    if word == b"existing".as_slice() {
        Some(How::Existing)
    } else if word == b"create".as_slice() {
        Some(How::Create)
    } else if word == b"either".as_slice() {
        Some(How::Either)
    } else {
        None
    }
}

/// Whether a word is the first of two, and not the second.
pub(crate) fn choice_of(first: &[u8], second: &[u8], word: &[u8]) -> Option<bool>
    ensures { result ≡ choice_of first.now second.now word.now }
{
    if word == first {
        Some(true)
    } else if word == second {
        Some(false)
    } else {
        None
    }
}
