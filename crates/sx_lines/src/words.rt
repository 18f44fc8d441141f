//! The words of a line.
ghost use Rattle.std.specs.Prelude.{◌≡◌, ◌≤◌, ◌-◌, position, length, Err};
ghost use Rattle.std.specs.List.{position_or_len};
ghost use Rattle.sx_lines.specs.Reading.{Reads};
ghost use Rattle.sx_lines.specs.Words.{is_space, without_return, first_word, behind_first, next_word, behind_next};
ghost use Rattle.sx_lines.specs.Words.{end_of};

use crate::unread::Unread;

/// The line without one carriage return at its end.
pub(crate) fn without_return(line: &[u8]) -> &[u8]
    ensures { result.now ≡ without_return line.now }
{
    match line {
        [front @ .., b'\r'] => front,
        _ => line,
    }
}

fn first_space(text: &[u8]) -> Option<usize>
    ensures { result ≡ position is_space text.now }
{
    text.iter().position(|b| *b == b' ')
}

/// How many bytes the first word of a text has.
fn first_length(text: &[u8]) -> usize
    ensures place { result ≡ position_or_len is_space text.now }
    ensures within { result ≤ length text.now }
{
    match first_space(text) {
        None => text.len(),
        Some(at) => at,
    }
}

/// The first word of a text.
pub(crate) fn first_word(text: &[u8]) -> &[u8]
    ensures { result.now ≡ first_word text.now }
{
    &text[..first_length(text)]
}

/// What stands behind the first word of a text: nothing, or a space and what follows it.
pub(crate) fn behind_first(text: &[u8]) -> &[u8]
    ensures { result.now ≡ behind_first text.now }
{
    &text[first_length(text)..]
}

/// The next word, by what stands behind the word before it. It is empty where no word stands there.
#[tactic(auto, unfolding(crate::specs::Words::next_word))]
pub(crate) fn next_word(behind: &[u8]) -> &[u8]
    ensures { result.now ≡ next_word behind.now }
{
    match behind {
        [_, text @ ..] => first_word(text),
        [] => behind,
    }
}

/// What stands behind the next word.
#[tactic(auto, unfolding(crate::specs::Words::behind_next))]
pub(crate) fn behind_next(behind: &[u8]) -> &[u8]
    ensures { result.now ≡ behind_next behind.now }
{
    match behind {
        [_, text @ ..] => behind_first(text),
        [] => behind,
    }
}

/// Says that the next word isn't as it must be.
pub(crate) fn wrong<T>(behind: &[u8]) -> Result<T, Unread>
    ensures { Reads result (Err (length behind.now - 1)) }
{
    Err(Unread::Wrong {
        left: behind.len().saturating_sub(1),
    })
}

/// Sees that no word stands there any more.
#[tactic(auto, unfolding(crate::specs::Words::end_of))]
pub(crate) fn end_of(behind: &[u8]) -> Result<(), Unread>
    ensures { Reads result (end_of behind.now) }
{
    if behind.is_empty() {
        Ok(())
    } else {
        wrong(behind)
    }
}
