//! Reading the line of an answer.
ghost use Rattle.std.specs.Prelude.{bytes_eq, if◌then◌else◌, Some, None};
ghost use Rattle.sx_answer_reader.specs.declared.answer.Answer.TheVariants as variants;
ghost use Rattle.sx_answer_reader.specs.Reading.{Reads, IsRead};
ghost use Rattle.sx_answer_reader.specs.Refusals.{reason_word};
ghost use Rattle.sx_answer_reader.specs.Grammar.{done, syntax, long, full, stopped, refused, failed, answer_of};

use crate::answer::{Answer, Unread};
use crate::messages::message;
use crate::reason::{Reason, reason_word};
use crate::told::told;
use crate::words::{behind_first, behind_next, end_of, first_word, next_word, number};
use std::alloc::Global;
use sx_call::Stop;
use sx_lines::LINE_LIMIT;

/// `OK PLACE` and what the call is told.
#[tactic(auto, unfolding(crate::specs::Grammar::done))]
fn done(alloc: Global, place: &[u8]) -> Result<Answer, Unread>
    ensures { Reads result (done place.now) }
{
    let entry = number(place)?;
    let told = told(alloc, behind_next(place))?;
    Ok(Answer::Done { place: entry, told })
}

/// `SYNTAX AT`
#[tactic(auto, unfolding(crate::specs::Grammar::syntax))]
fn syntax(at: &[u8]) -> Result<Answer, Unread>
    ensures { Reads result (syntax at.now) }
{
    let offset = number(at)?;
    end_of(behind_next(at))?;
    Ok(Answer::Syntax { at: offset })
}

/// `LINE LIMIT`
#[tactic(auto, unfolding(crate::specs::Grammar::long))]
fn long(limit: &[u8]) -> Result<Answer, Unread>
    ensures { Reads result (long limit.now) }
{
    let bytes = number(limit)?;
    end_of(behind_next(limit))?;
    if bytes == LINE_LIMIT {
        Ok(Answer::Long)
    } else {
        Err(Unread::NoAnswer)
    }
}

/// `HISTORY_FULL ENTRIES SESSIONS LIMIT`
#[tactic(auto, unfolding(crate::specs::Grammar::full))]
fn full(entries: &[u8]) -> Result<Answer, Unread>
    ensures { Reads result (full entries.now) }
{
    let sessions = behind_next(entries);
    let limit = behind_next(sessions);
    let come = number(entries)?;
    let live = number(sessions)?;
    let most = number(limit)?;
    end_of(behind_next(limit))?;
    Ok(Answer::Stop(Stop::HistoryFull {
        entries: come,
        sessions: live,
        limit: most,
    }))
}

/// `NO_MEMORY`
#[tactic(auto, unfolding(crate::specs::Grammar::stopped))]
fn stopped(behind: &[u8]) -> Result<Answer, Unread>
    ensures { Reads result (stopped behind.now) }
{
    end_of(behind)?;
    Ok(Answer::Stop(Stop::NoMemory))
}

/// A refusal by its word, where it is the word of this reason.
fn refused_as(word: &[u8], place: u64, reason: Reason) -> Result<Answer, Unread>
    ensures { Reads result
        (if bytes_eq word.now (reason_word reason) then Some (variants.Refused place reason) else None) }
{
    if word == reason_word(&reason) {
        Ok(Answer::Refused { place, reason })
    } else {
        Err(Unread::NoAnswer)
    }
}

/// The word of a refusal, `PLACE` and its message.
#[tactic(auto, unfolding(crate::specs::Grammar::refused))]
fn refused(word: &[u8]) -> Result<Answer, Unread>
    ensures { Reads result (refused word.now) }
{
    let place = behind_next(word);
    let entry = number(place)?;
    let locking = next_word(word) == b"LOCK_NOT_GRANTED".as_slice();
    let reason = message(locking, behind_next(place))?;
    refused_as(next_word(word), entry, reason)
}

/// `ERR` and why nothing was done.
#[tactic(auto, unfolding(crate::specs::Grammar::failed))]
fn failed(behind: &[u8]) -> Result<Answer, Unread>
    ensures { Reads result (failed behind.now) }
{
    let word = next_word(behind);
    if word == b"SYNTAX".as_slice() {
        syntax(behind_next(behind))
    } else if word == b"LINE".as_slice() {
        long(behind_next(behind))
    } else if word == b"HISTORY_FULL".as_slice() {
        full(behind_next(behind))
    } else if word == b"NO_MEMORY".as_slice() {
        stopped(behind_next(behind))
    } else {
        refused(behind)
    }
}

/// What a line tells, word by word.
#[tactic(auto, unfolding(crate::specs::Grammar::answer_of))]
fn answer_of(alloc: Global, line: &[u8]) -> Result<Answer, Unread>
    ensures { Reads result (answer_of line.now) }
{
    let word = first_word(line);
    if word == b"OK".as_slice() {
        done(alloc, behind_first(line))
    } else if word == b"ERR".as_slice() {
        failed(behind_first(line))
    } else {
        Err(Unread::NoAnswer)
    }
}

/// What the line of an answer tells (this profile's grammar of session lines), its line feed not counted: exactly the
/// one answer that has this line.
///
/// `NoAnswer` says that no answer has it: one byte more or less, another space, a leading zero or a digit in the other
/// case suffice. `NoMemory` comes where no memory is left: bytes and names that are told are kept, and these and
/// attributes are written once more to be compared with the line. No other answer takes memory.
pub fn read_line(alloc: Global, line: &[u8]) -> Result<Answer, Unread>
    ensures { IsRead result line.now }
{
    answer_of(alloc, line)
}
