//! The answers to a session's lines, and how they are printed.
ghost use Rattle.std.specs.Prelude.{◌≡◌, ◌++◌, true, codes};
ghost use Rattle.sx_base.specs.Sink.{Prints};
ghost use Rattle.sx_reply.specs.Refusals.{message_of};
ghost use Rattle.sx_lines.specs.Answers.{has_line, is_printed, answer_line, reply_line, refusal_line, refusal_front};
ghost use Rattle.sx_lines.specs.Answers.{refusal_word, error_line, full_line, stop_line};

use crate::gather::{Word, print_words};
use crate::line::LINE_LIMIT;
use crate::smb_answer::print_smb;
use sx_base::{Failed, Sink};
use sx_call::{Refusal, Reply, Stop};
use sx_reply::{put_message, word_of};

/// What a session's line is answered.
#[derive(Debug, Drop)]
pub enum LineAnswer {
    /// The call was appended to the history.
    Core {
        /// The place of its entry, counted from 1.
        place: u64,
        /// Its reply.
        reply: Reply,
        /// Whether the call locks bytes.
        locking: bool,
    },
    /// A word of the line isn't as it must be.
    Syntax {
        /// The offset of the first such word, in bytes.
        at: u64,
    },
    /// The line is over its limit.
    Long,
    /// The call was not appended to the history.
    Stop(Stop),
}

/// Writes a line's answer with a line feed behind it, or a prefix of these bytes where the sink fails. It takes no
/// memory.
///
/// A reply is a session's, or a refusal that has a word for sessions: the name of its NT status without `STATUS_`.
/// Words and messages of refusals are those of `sx_reply`. An answer of at most 4,096 bytes is one put, but for a
/// refusal, whose message is put by itself.
#[tactic(auto, unfolding(crate::specs::Answers::answer_line))]
pub fn print_line<K: Sink>(sink: &mut K, answer: &LineAnswer) -> Result<(), Failed>
    requires { is_printed answer.now ≡ true }
    ensures { Prints K.wrote K.write_count K.puts sink.old sink.new (answer_line answer.now) result }
{
    match answer {
        LineAnswer::Core {
            place,
            reply,
            locking,
        } => print_reply(sink, *place, reply, *locking),
        LineAnswer::Syntax { at } => print_error(sink, b" SYNTAX ", *at),
        LineAnswer::Long => print_error(sink, b" LINE ", LINE_LIMIT),
        LineAnswer::Stop(stop) => print_stop(sink, stop),
    }
}

fn print_error<K: Sink>(sink: &mut K, word: &[u8], number: u64) -> Result<(), Failed>
    ensures { Prints K.wrote K.write_count K.puts sink.old sink.new (error_line word.now number) result }
{
    print_words(
        sink,
        &[
            Word::Text(b"ERR"),
            Word::Text(word),
            Word::Number(number),
            Word::Text(b"\n"),
        ],
    )
}

fn print_stop<K: Sink>(sink: &mut K, stop: &Stop) -> Result<(), Failed>
    ensures { Prints K.wrote K.write_count K.puts sink.old sink.new (stop_line stop.now) result }
{
    match stop {
        Stop::NoMemory => print_words(sink, &[Word::Text(b"ERR NO_MEMORY\n")]),
        Stop::HistoryFull {
            entries,
            sessions,
            limit,
        } => print_full(sink, *entries, *sessions, *limit),
    }
}

fn print_full<K: Sink>(sink: &mut K, entries: u64, sessions: u64, limit: u64) -> Result<(), Failed>
    ensures { Prints K.wrote K.write_count K.puts sink.old sink.new (full_line entries sessions limit) result }
{
    print_words(
        sink,
        &[
            Word::Text(b"ERR HISTORY_FULL "),
            Word::Number(entries),
            Word::Text(b" "),
            Word::Number(sessions),
            Word::Text(b" "),
            Word::Number(limit),
            Word::Text(b"\n"),
        ],
    )
}

#[tactic(auto, unfolding(crate::specs::Answers::reply_line))]
fn print_reply<K: Sink>(
    sink: &mut K,
    place: u64,
    reply: &Reply,
    locking: bool,
) -> Result<(), Failed>
    requires { has_line reply.now ≡ true }
    ensures { Prints K.wrote K.write_count K.puts sink.old sink.new (reply_line place reply.now locking) result }
{
    match reply {
        Reply::Smb(reply) => print_smb(sink, place, reply),
        Reply::Refused(refusal) => print_refusal(sink, place, locking, refusal),
        _ => unreachable!(),
    }
}

/// The word of a refusal, which to a lock line is another where a lock is in the way.
#[tactic(auto, unfolding(crate::specs::Answers::refusal_word))]
fn refusal_word(locking: bool, refusal: &Refusal) -> &'static str
    ensures { result.now ≡ refusal_word locking refusal.now }
{
    match refusal {
        Refusal::Locked { .. } => lock_word(locking, refusal),
        _ => word_of(refusal),
    }
}

#[tactic(auto, unfolding(crate::specs::Answers::refusal_word))]
fn lock_word(locking: bool, refusal: &Refusal) -> &'static str
    requires { refusal_word true refusal.now ≡ codes "LOCK_NOT_GRANTED" }
    ensures { result.now ≡ refusal_word locking refusal.now }
{
    if locking {
        "LOCK_NOT_GRANTED"
    } else {
        word_of(refusal)
    }
}

fn print_refusal_word<K: Sink>(
    sink: &mut K,
    place: u64,
    locking: bool,
    refusal: &Refusal,
) -> Result<(), Failed>
    ensures { Prints K.wrote K.write_count K.puts sink.old sink.new (refusal_front place locking refusal.now) result }
{
    let word = refusal_word(locking, refusal);
    print_words(
        sink,
        &[
            Word::Text(b"ERR "),
            Word::Text(word.as_bytes()),
            Word::Text(b" "),
            Word::Number(place),
            Word::Text(b" "),
        ],
    )
}

/// Prints the front of a refusal's line, and its message.
fn print_message<K: Sink>(
    sink: &mut K,
    place: u64,
    locking: bool,
    refusal: &Refusal,
) -> Result<(), Failed>
    ensures { Prints K.wrote K.write_count K.puts sink.old sink.new
        (refusal_front place locking refusal.now ++ message_of refusal.now) result }
{
    match print_refusal_word(sink, place, locking, refusal) {
        Ok(()) => put_message(sink, refusal),
        Err(failed) => Err(failed),
    }
}

#[tactic(auto, unfolding(crate::specs::Answers::refusal_line))]
fn print_refusal<K: Sink>(
    sink: &mut K,
    place: u64,
    locking: bool,
    refusal: &Refusal,
) -> Result<(), Failed>
    ensures { Prints K.wrote K.write_count K.puts sink.old sink.new (refusal_line place locking refusal.now) result }
{
    match print_message(sink, place, locking, refusal) {
        Ok(()) => print_words(sink, &[Word::Text(b"\n")]),
        Err(failed) => Err(failed),
    }
}
