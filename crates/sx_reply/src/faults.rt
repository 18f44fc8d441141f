//! How all that isn't a reply is told.
ghost use Rattle.std.specs.Prelude.{◌≡◌};
ghost use Rattle.std.specs.List.{flat_map};
ghost use Rattle.sx_base.specs.Sink.{Prints};
ghost use Rattle.sx_reply.specs.Words.{word_text};
ghost use Rattle.sx_reply.specs.Faults.{rule_name, named, uri_message, window_message, auth_message};
ghost use Rattle.sx_reply.specs.Faults.{wire_fault, full_message, stop_fault};

use crate::answer::{AuthText, WireText};
use crate::gather::{Word, print_words};
use crate::refusals::{Message, numbered, words};
use sx_base::{Failed, Sink};
use sx_call::{Stop, Text};
use sx_names::NameRule;

/// The name of a rule of names.
#[tactic(auto, unfolding(crate::specs::Faults::rule_name))]
pub(crate) fn rule_name(rule: NameRule) -> &'static [u8]
    ensures { result.now ≡ rule_name rule }
{
    match rule {
        NameRule::Utf8 => b"utf8",
        NameRule::Empty => b"empty",
        NameRule::Char => b"char",
        NameRule::Dot => b"dot",
        NameRule::Tail => b"tail",
        NameRule::Long => b"long",
        NameRule::Short => b"short",
        NameRule::Edge => b"edge",
        NameRule::Hyphens => b"hyphens",
        NameRule::Deep => b"deep",
        NameRule::PathLong => b"pathlong",
    }
}

/// The message on a name.
pub(crate) fn named<'a>(text: &'a [u8], name: &'a Text) -> Message<'a>
    ensures { flat_map word_text result ≡ named text.now name.now }
{
    [
        Word::Text(text),
        Word::Text(name.bytes()),
        Word::Text(b""),
        Word::Text(b""),
        Word::Text(b""),
        Word::Text(b""),
        Word::Text(b""),
        Word::Text(b""),
    ]
}

/// The message on a target's path.
pub(crate) fn uri_message<'a>(name: &'a [u8], part: u32, at: u64) -> Message<'a>
    ensures { flat_map word_text result ≡ uri_message name.now part at }
{
    [
        Word::Text(b"uri "),
        Word::Text(name),
        Word::Text(b" part "),
        Word::Number(part as u64),
        Word::Text(b" at "),
        Word::Number(at),
        Word::Text(b""),
        Word::Text(b""),
    ]
}

/// The message on a date outside the window.
fn window_message(text: &'static [u8], dated: u64, now: u64) -> Message<'static>
    ensures { flat_map word_text result ≡ window_message text.now dated now }
{
    [
        Word::Text(text),
        Word::Number(dated),
        Word::Text(b" "),
        Word::Number(now),
        Word::Text(b""),
        Word::Text(b""),
        Word::Text(b""),
        Word::Text(b""),
    ]
}

/// The message of a failed signature.
#[tactic(auto, unfolding(crate::specs::Faults::auth_message))]
pub(crate) fn auth_message(fault: &AuthText) -> Message<'static>
    ensures { flat_map word_text result ≡ auth_message fault.now }
{
    match fault {
        AuthText::NoHeader => words(b"auth no-header"),
        AuthText::BadHeader => words(b"auth bad-header"),
        AuthText::OtherAccount => words(b"auth other-account"),
        AuthText::NoDate => words(b"auth no-date"),
        AuthText::BadDate => words(b"auth bad-date"),
        AuthText::TooOld { dated, now } => window_message(b"auth too-old ", *dated, *now),
        AuthText::TooNew { dated, now } => window_message(b"auth too-new ", *dated, *now),
        AuthText::Differs => words(b"auth differs"),
    }
}

/// Writes the message of a failed signature, or a prefix of it where the sink fails. It takes no memory.
pub fn put_auth<K: Sink>(sink: &mut K, fault: &AuthText) -> Result<(), Failed>
    ensures { Prints K.wrote K.write_count K.puts sink.old sink.new (auth_message fault.now) result }
{
    let message = auth_message(fault);
    print_words(sink, &message)
}

/// The status of the answer to a request that can't be read.
#[tactic(auto, unfolding(crate::specs::Faults::wire_fault))]
pub(crate) fn wire_status(wire: &WireText) -> u16
    ensures { result ≡ (wire_fault wire.now).status }
{
    match wire {
        WireText::Head { .. } => 400,
        WireText::BadLength => 400,
        WireText::NoLength => 411,
        WireText::Body { .. } => 413,
        WireText::HeadLong => 400,
    }
}

/// Its code.
#[tactic(auto, unfolding(crate::specs::Faults::wire_fault))]
pub(crate) fn wire_code(wire: &WireText) -> &'static [u8]
    ensures { result.now ≡ (wire_fault wire.now).code }
{
    match wire {
        WireText::Head { .. } => b"InvalidHeaderValue",
        WireText::BadLength => b"InvalidHeaderValue",
        WireText::NoLength => b"MissingContentLengthHeader",
        WireText::Body { .. } => b"RequestBodyTooLarge",
        WireText::HeadLong => b"InvalidHeaderValue",
    }
}

/// Its message.
#[tactic(auto, unfolding(crate::specs::Faults::wire_fault))]
pub(crate) fn wire_message(wire: &WireText) -> Message<'static>
    ensures { flat_map word_text result ≡ (wire_fault wire.now).message }
{
    match wire {
        WireText::Head { at } => numbered(b"head at ", *at),
        WireText::BadLength => words(b"header content-length"),
        WireText::NoLength => words(b"length"),
        WireText::Body { n } => numbered(b"body ", *n),
        WireText::HeadLong => words(b"head too long"),
    }
}

/// The message on a history that is full.
fn full_message(entries: u64, sessions: u64, limit: u64) -> Message<'static>
    ensures { flat_map word_text result ≡ full_message entries sessions limit }
{
    [
        Word::Text(b"history "),
        Word::Number(entries),
        Word::Text(b" "),
        Word::Number(sessions),
        Word::Text(b" "),
        Word::Number(limit),
        Word::Text(b""),
        Word::Text(b""),
    ]
}

/// The code of the answer to a call that was not appended to the history. Its status is 503.
#[tactic(auto, unfolding(crate::specs::Faults::stop_fault))]
pub(crate) fn stop_code(stop: &Stop) -> &'static [u8]
    ensures code { result.now ≡ (stop_fault stop.now).code }
    ensures status { (stop_fault stop.now).status ≡ 503 }
{
    match stop {
        Stop::NoMemory => b"OutOfMemory",
        Stop::HistoryFull { .. } => b"HistoryFull",
    }
}

/// Its message.
#[tactic(auto, unfolding(crate::specs::Faults::stop_fault))]
pub(crate) fn stop_message(stop: &Stop) -> Message<'static>
    ensures { flat_map word_text result ≡ (stop_fault stop.now).message }
{
    match stop {
        Stop::NoMemory => words(b"memory"),
        Stop::HistoryFull {
            entries,
            sessions,
            limit,
        } => full_message(*entries, *sessions, *limit),
    }
}
