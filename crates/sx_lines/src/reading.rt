//! Reading a session's line.
ghost use Rattle.std.specs.Prelude.{◌-◌};
ghost use Rattle.sx_lines.specs.Reading.{Reads, ReadsLine};
ghost use Rattle.sx_lines.specs.Lines.{quit_line, call_said, call_by, line_read, line_of};

use crate::calls::{
    close_call, dispose_call, list_call, lock_call, read_call, resize_call, stat_call, unlock_call,
    write_call,
};
use crate::line::{Line, LineFault};
use crate::opens::open_call;
use crate::unread::Unread;
use crate::verb::{Verb, verb_of};
use crate::words::{behind_first, end_of, first_word, without_return};
use std::alloc::Global;
use sx_call::Call;

/// `quit`
#[tactic(auto, unfolding(crate::specs::Lines::quit_line))]
fn quit_line(behind: &[u8]) -> Result<Line, Unread>
    ensures { Reads result (quit_line behind.now) }
{
    end_of(behind)?;
    Ok(Line::Quit)
}

/// The call of a line by its first word, and what stands behind that.
#[tactic(auto, unfolding(crate::specs::Lines::call_said))]
fn call_said(alloc: Global, verb: Verb, behind: &[u8]) -> Result<Call, Unread>
    ensures { Reads result (call_said verb behind.now) }
{
    match verb {
        Verb::Open => open_call(alloc, behind),
        Verb::Close => close_call(behind),
        Verb::Read => read_call(behind),
        Verb::Write => write_call(alloc, behind),
        Verb::Resize => resize_call(behind),
        Verb::Lock => lock_call(behind),
        Verb::Unlock => unlock_call(behind),
        Verb::Stat => stat_call(behind),
        Verb::List => list_call(alloc, behind),
        Verb::Dispose => dispose_call(behind),
    }
}

/// The call of a text, if it begins with such a word.
fn call_by(alloc: Global, text: &[u8], verb: Option<Verb>) -> Result<Call, Unread>
    ensures { Reads result (call_by text.now verb) }
{
    match verb {
        Some(verb) => call_said(alloc, verb, behind_first(text)),
        None => Err(Unread::Wrong { left: text.len() }),
    }
}

/// What a text says, which has no carriage return at its end.
#[tactic(auto, unfolding(crate::specs::Lines::line_read))]
fn line_read(alloc: Global, text: &[u8]) -> Result<Line, Unread>
    ensures { Reads result (line_read text.now) }
{
    if first_word(text) == b"quit".as_slice() {
        return quit_line(behind_first(text));
    }
    let call = call_by(alloc, text, verb_of(first_word(text)))?;
    Ok(Line::Ask(call))
}

/// What a session's line says (this profile's grammar of session lines), its line feed not counted.
///
/// The lines are `open SHARE PATH ACCESS MODE existing|create|either file|dir` and, where ACCESS has `d`, `doc` behind
/// it, `close K`, `read K AT COUNT`, `write K AT HEX`, `resize K LENGTH`, `lock K AT COUNT shared|exclusive`,
/// `unlock K AT COUNT shared|exclusive`, `stat K`, `list K MARKER MAX`, `dispose K on|off` and `quit`, with one space
/// between words and at most one carriage return behind them. Numbers are decimal without leading zeros: K is 1 to
/// 4,294,967,295, a read's COUNT 1 to 1,048,576, LENGTH at most 4 TiB, MAX 1 to 5,000. Reads and locks end at most at
/// 2^63, a write of 1 to 1,048,576 bytes at most at 4 TiB. HEX is an even number of hexadecimal digits in either case.
/// ACCESS and MODE are letters of `rwd` in this order, or `-` for none. PATH is 1 to 250 parts, percent-encoded
/// (RFC 3986) one by one, with `/` between them; MARKER is percent-encoded, or `*` at the beginning.
///
/// `Syntax` has the place of the first word that isn't as it must be: the line's length where a word is missing, and 0
/// where the first word is none of these. An interval is judged at the word that completes it.
#[tactic(auto, unfolding(crate::specs::Lines::line_of))]
pub fn call_of_line(alloc: Global, line: &[u8]) -> Result<Line, LineFault>
    ensures { ReadsLine result (line_of line.now) }
{
    let text = without_return(line);
    match line_read(alloc, text) {
        Ok(line) => Ok(line),
        Err(Unread::Wrong { left }) => Err(LineFault::Syntax {
            at: text.len().saturating_sub(left) as u64,
        }),
        Err(Unread::NoMemory) => Err(LineFault::NoMemory),
    }
}
