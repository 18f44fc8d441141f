//! The words of an answer's line, and the fields that they spell.
ghost use Rattle.std.specs.Prelude.{◌≡◌, ◌≤◌, position, length};
ghost use Rattle.std.specs.List.{position_or_len};
ghost use Rattle.sx_lines.specs.Words.{is_space, first_word, behind_first, next_word, behind_next};
ghost use Rattle.sx_answer_reader.specs.Words.{number, count, index, choice, fate, end_of, literal};
ghost use Rattle.sx_answer_reader.specs.Reading.{Reads};

use crate::answer::Unread;
use crate::numbers::number_in;
use sx_call::Fate;
use sx_guard::HandleIndex;

fn first_space(text: &[u8]) -> Option<usize>
    ensures { result ≡ position is_space text.now }
{
    text.iter().position(|b| *b == b' ')
}

/// How many bytes the first word of a text has.
fn first_length(text: &[u8]) -> usize
    ensures place { result ≡ position_or_len is_space text.now }
    ensures within { result ≤ length text.now }
{
    match first_space(text) {
        None => text.len(),
        Some(at) => at,
    }
}

/// The first word of a text.
pub(crate) fn first_word(text: &[u8]) -> &[u8]
    ensures { result.now ≡ first_word text.now }
{
    &text[..first_length(text)]
}

/// What stands behind the first word of a text: nothing, or a space and what follows it.
pub(crate) fn behind_first(text: &[u8]) -> &[u8]
    ensures { result.now ≡ behind_first text.now }
{
    &text[first_length(text)..]
}

/// The next word, by what stands behind the word before it. It is empty where no word stands there.
#[tactic(auto, unfolding(sx_lines::specs::Words::next_word))]
pub(crate) fn next_word(behind: &[u8]) -> &[u8]
    ensures { result.now ≡ next_word behind.now }
{
    match behind {
        [_, text @ ..] => first_word(text),
        [] => behind,
    }
}

/// What stands behind the next word.
#[tactic(auto, unfolding(sx_lines::specs::Words::behind_next))]
pub(crate) fn behind_next(behind: &[u8]) -> &[u8]
    ensures { result.now ≡ behind_next behind.now }
{
    match behind {
        [_, text @ ..] => behind_first(text),
        [] => behind,
    }
}

/// Sees that no word stands there any more.
#[tactic(auto, unfolding(crate::specs::Words::end_of))]
pub(crate) fn end_of(behind: &[u8]) -> Result<(), Unread>
    ensures { Reads result (end_of behind.now) }
{
    if behind.is_empty() {
        Ok(())
    } else {
        Err(Unread::NoAnswer)
    }
}

/// Sees that this word stands there.
#[tactic(auto, unfolding(crate::specs::Words::literal))]
pub(crate) fn literal(word: &[u8], behind: &[u8]) -> Result<(), Unread>
    ensures { Reads result (literal word.now behind.now) }
{
    if next_word(behind) == word {
        Ok(())
    } else {
        Err(Unread::NoAnswer)
    }
}

/// A number of 64 bits.
#[tactic(auto, unfolding(crate::specs::Words::number))]
pub(crate) fn number(behind: &[u8]) -> Result<u64, Unread>
    ensures { Reads result (number behind.now) }
{
    match number_in(0, 18_446_744_073_709_551_615, next_word(behind)) {
        Some(number) => Ok(number),
        None => Err(Unread::NoAnswer),
    }
}

/// A number of 32 bits.
#[tactic(auto, unfolding(crate::specs::Words::count))]
pub(crate) fn count(behind: &[u8]) -> Result<u32, Unread>
    ensures { Reads result (count behind.now) }
{
    match number_in(0, 4_294_967_295, next_word(behind)) {
        Some(number) => Ok(number as u32),
        None => Err(Unread::NoAnswer),
    }
}

/// The index of a handle.
#[tactic(auto, unfolding(crate::specs::Words::index))]
pub(crate) fn index(behind: &[u8]) -> Result<HandleIndex, Unread>
    ensures { Reads result (index behind.now) }
{
    match number_in(1, 4_294_967_295, next_word(behind)) {
        Some(number) => Ok(HandleIndex::of(number as u32)),
        None => Err(Unread::NoAnswer),
    }
}

/// One of two words: whether it is the first.
#[tactic(auto, unfolding(crate::specs::Words::choice))]
pub(crate) fn choice(first: &[u8], second: &[u8], behind: &[u8]) -> Result<bool, Unread>
    ensures { Reads result (choice first.now second.now behind.now) }
{
    let word = next_word(behind);
    if word == first {
        Ok(true)
    } else if word == second {
        Ok(false)
    } else {
        Err(Unread::NoAnswer)
    }
}

/// What a file or directory is after a close.
#[tactic(auto, unfolding(crate::specs::Words::fate))]
pub(crate) fn fate(behind: &[u8]) -> Result<Fate, Unread>
    ensures { Reads result (fate behind.now) }
{
    let word = next_word(behind);
    if word == b"kept".as_slice() {
        Ok(Fate::Kept)
    } else if word == b"pending".as_slice() {
        Ok(Fate::Pending)
    } else if word == b"gone".as_slice() {
        Ok(Fate::Gone)
    } else {
        Err(Unread::NoAnswer)
    }
}
