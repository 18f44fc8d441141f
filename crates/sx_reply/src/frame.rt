//! Printing a page: the front and end that every head has, around what the page has of its own.
ghost use Rattle.std.specs.Prelude.{◌≡◌, ◌++◌, length};
ghost use Rattle.std.specs.List.{flat_map};
ghost use Rattle.sx_base.specs.Sink.{Prints};
ghost use Rattle.sx_base.specs.Printer.{Gathers};
ghost use Rattle.sx_reply.specs.Fields.{field_text};
ghost use Rattle.sx_reply.specs.Pages.{phrase, front_text, front_words, end_text, end_words};

use crate::field::Field;
use crate::fields::gather_fields;
use crate::gather::{Gathered, Word, gather, put_gathered};
use crate::times::date_text;
use crate::values::{text_if, uuid_digits};
use itoa::Buffer;
use sx_base::{Failed, Sink};
use sx_moment::Moment;

/// What the front and the end of a head tell.
#[derive(Clone, Copy)]
pub(crate) struct Frame {
    /// The status.
    pub(crate) status: u16,
    /// The place of the entry in the history, and 0 for none.
    pub(crate) place: u64,
    /// The moment of the answer.
    pub(crate) at: Moment,
    /// The length that is stated.
    pub(crate) length: u128,
    /// Whether the connection closes.
    pub(crate) close: bool,
}

/// Prints a head with these lines between its front and its end, and a body behind it.
pub(crate) fn print_page<K: Sink>(
    sink: &mut K,
    frame: &Frame,
    headers: &[Field],
    body: &[Field],
) -> Result<(), Failed>
    ensures { Prints K.wrote K.write_count K.puts sink.old sink.new
        (front_text frame.now.status frame.now.place frame.now.at ++ flat_map field_text headers.now
        ++ end_text frame.now.length frame.now.close ++ flat_map field_text body.now) result }
{
    let mut gathered = Gathered::new();
    match gather_page(sink, &mut gathered, frame, headers, body) {
        Ok(()) => put_gathered(sink, &mut gathered),
        Err(failed) => Err(failed),
    }
}

/// Gathers a head with these lines between its front and its end, and a body behind it.
fn gather_page<K: Sink>(
    sink: &mut K,
    gathered: &mut Gathered,
    frame: &Frame,
    headers: &[Field],
    body: &[Field],
) -> Result<(), Failed>
    ensures { Gathers K.wrote K.write_count K.puts sink.old sink.new gathered.old.items gathered.new.items
        (front_text frame.now.status frame.now.place frame.now.at ++ flat_map field_text headers.now
        ++ end_text frame.now.length frame.now.close ++ flat_map field_text body.now) result }
{
    match gather_head(sink, gathered, frame, headers) {
        Ok(()) => gather_fields(sink, gathered, body),
        Err(failed) => Err(failed),
    }
}

/// Gathers a head with these lines between its front and its end.
fn gather_head<K: Sink>(
    sink: &mut K,
    gathered: &mut Gathered,
    frame: &Frame,
    headers: &[Field],
) -> Result<(), Failed>
    ensures { Gathers K.wrote K.write_count K.puts sink.old sink.new gathered.old.items gathered.new.items
        (front_text frame.now.status frame.now.place frame.now.at ++ flat_map field_text headers.now
        ++ end_text frame.now.length frame.now.close) result }
{
    match gather_front(sink, gathered, frame, headers) {
        Ok(()) => gather_end(sink, gathered, frame.length, frame.close),
        Err(failed) => Err(failed),
    }
}

/// Gathers the front of a head, and the lines behind it.
fn gather_front<K: Sink>(
    sink: &mut K,
    gathered: &mut Gathered,
    frame: &Frame,
    headers: &[Field],
) -> Result<(), Failed>
    ensures { Gathers K.wrote K.write_count K.puts sink.old sink.new gathered.old.items gathered.new.items
        (front_text frame.now.status frame.now.place frame.now.at ++ flat_map field_text headers.now) result }
{
    match gather_status(sink, gathered, frame.status, frame.place, frame.at) {
        Ok(()) => gather_fields(sink, gathered, headers),
        Err(failed) => Err(failed),
    }
}

/// Gathers the status line, the request's id, the version and the date.
#[tactic(auto, unfolding(crate::specs::Pages::front_text))]
fn gather_status<K: Sink>(
    sink: &mut K,
    gathered: &mut Gathered,
    status: u16,
    place: u64,
    at: Moment,
) -> Result<(), Failed>
    ensures { Gathers K.wrote K.write_count K.puts sink.old sink.new gathered.old.items gathered.new.items
        (front_text status place at) result }
{
    let mut buffer = [0u8; 36];
    let id = uuid_digits(place as u128, &mut buffer);
    let date = date_text(at);
    gather_front_words(sink, gathered, status, phrase(status), id, &date)
}

/// Gathers the lines of a head's front, by their values.
fn gather_front_words<'a, K: Sink>(
    sink: &mut K,
    gathered: &mut Gathered,
    status: u16,
    phrase: &'a [u8],
    id: &'a [u8],
    date: &'a [u8],
) -> Result<(), Failed>
    ensures { Gathers K.wrote K.write_count K.puts sink.old sink.new gathered.old.items gathered.new.items
        (front_words status phrase.now id.now date.now) result }
{
    gather(
        sink,
        gathered,
        &[
            Word::Text(b"HTTP/1.1 "),
            Word::Number(status as u64),
            Word::Text(b" "),
            Word::Text(phrase),
            Word::Text(b"\r\nx-ms-request-id: "),
            Word::Text(id),
            Word::Text(b"\r\nx-ms-version: 2020-10-02\r\nDate: "),
            Word::Text(date),
            Word::Text(b"\r\n"),
        ],
    )
}

/// Gathers the length, whether the connection closes, and the empty line.
#[tactic(auto, unfolding(crate::specs::Pages::end_text))]
fn gather_end<K: Sink>(
    sink: &mut K,
    gathered: &mut Gathered,
    length: u128,
    close: bool,
) -> Result<(), Failed>
    ensures { Gathers K.wrote K.write_count K.puts sink.old sink.new gathered.old.items gathered.new.items
        (end_text length close) result }
{
    let mut buffer = Buffer::new();
    let digits = buffer.format(length).as_bytes();
    gather_end_words(
        sink,
        gathered,
        digits,
        text_if(close, b"Connection: close\r\n"),
    )
}

/// Gathers the lines of a head's end, by their values.
fn gather_end_words<'a, K: Sink>(
    sink: &mut K,
    gathered: &mut Gathered,
    digits: &'a [u8],
    closing: &'a [u8],
) -> Result<(), Failed>
    ensures { Gathers K.wrote K.write_count K.puts sink.old sink.new gathered.old.items gathered.new.items
        (end_words digits.now closing.now) result }
{
    gather(
        sink,
        gathered,
        &[
            Word::Text(b"Content-Length: "),
            Word::Text(digits),
            Word::Text(b"\r\n"),
            Word::Text(closing),
            Word::Text(b"\r\n"),
        ],
    )
}

/// The phrase of a status (RFC 9110, section 15).
#[tactic(auto, unfolding(crate::specs::Pages::phrase))]
fn phrase(status: u16) -> &'static [u8]
    ensures { result.now ≡ phrase status }
{
    match status {
        200 => b"OK",
        201 => b"Created",
        202 => b"Accepted",
        206 => b"Partial Content",
        400 => b"Bad Request",
        403 => b"Forbidden",
        404 => b"Not Found",
        405 => b"Method Not Allowed",
        409 => b"Conflict",
        411 => b"Length Required",
        412 => b"Precondition Failed",
        413 => b"Payload Too Large",
        416 => b"Range Not Satisfiable",
        503 => b"Service Unavailable",
        _ => b"",
    }
}
