//! Printing pages of each form: with no body, with a text, with a fault, and with the bytes of a file.
ghost use Rattle.std.specs.Prelude.{◌≡◌, ◌+◌, ◌++◌, [], length};
ghost use Rattle.std.specs.List.{flat_map};
ghost use Rattle.sx_base.specs.Sink.{Prints};
ghost use Rattle.sx_reply.specs.Words.{word_text};
ghost use Rattle.sx_reply.specs.Fields.{field_text};
ghost use Rattle.sx_reply.specs.Faults.{fault};
ghost use Rattle.sx_reply.specs.Pages.{front_text, end_text};
ghost use Rattle.sx_reply.specs.PrintedReply.{page, page_text, fault_page, fault_body};

use crate::answer::Shape;
use crate::escapes::{escaped_length, escaped_text_length};
use crate::field::Field;
use crate::frame::{Frame, print_page};
use crate::refusals::Message;
use crate::view::print_view;
use sx_base::{Failed, Sink};
use sx_extent::View;
use sx_moment::Moment;

/// Which answer is printed, and how.
#[derive(Clone, Copy)]
pub(crate) struct Asked {
    /// The place of the entry in the history, and 0 for none.
    pub(crate) place: u64,
    /// The moment of the answer.
    pub(crate) at: Moment,
    /// How it is printed.
    pub(crate) shape: Shape,
}

/// What the front and the end of the head tell.
fn frame(asked: Asked, status: u16, length: u128) -> Frame
    ensures status { result.status ≡ status }
    ensures place { result.place ≡ asked.place }
    ensures at { result.at ≡ asked.at }
    ensures length { result.length ≡ length }
    ensures close { result.close ≡ asked.shape.close }
{
    Frame {
        status,
        place: asked.place,
        at: asked.at,
        length,
        close: asked.shape.close,
    }
}

/// Prints a page that has no body.
pub(crate) fn print_bare<K: Sink>(
    sink: &mut K,
    asked: Asked,
    status: u16,
    headers: &[Field],
) -> Result<(), Failed>
    ensures { Prints K.wrote K.write_count K.puts sink.old sink.new
        (page_text asked.place asked.at (page status (flat_map field_text headers.now) []) asked.shape) result }
{
    let frame = frame(asked, status, 0);
    print_page(sink, &frame, headers, &[])
}

/// Prints a page with a text as its body.
pub(crate) fn print_texted<K: Sink>(
    sink: &mut K,
    asked: Asked,
    headers: &[Field],
    body: &[u8],
) -> Result<(), Failed>
    ensures { Prints K.wrote K.write_count K.puts sink.old sink.new
        (page_text asked.place asked.at (page 200 (flat_map field_text headers.now) body.now) asked.shape) result }
{
    if asked.shape.head_only {
        let head = frame(asked, 200, 0);
        return print_page(sink, &head, headers, &[]);
    }
    let frame = frame(asked, 200, body.len() as u128);
    print_page(sink, &frame, headers, &[Field::Text(body)])
}

/// Prints a fault.
#[tactic(auto, unfolding(sx_listing::specs::Error::error_text))]
pub(crate) fn print_fault<'a, K: Sink>(
    sink: &mut K,
    asked: Asked,
    status: u16,
    code: &'a [u8],
    message: &'a Message<'a>,
) -> Result<(), Failed>
    ensures { Prints K.wrote K.write_count K.puts sink.old sink.new
        (page_text asked.place asked.at (fault_page (fault status code.now (flat_map word_text message.now)))
        asked.shape) result }
{
    let headers = [
        Field::Text(b"x-ms-error-code: "),
        Field::Text(code),
        Field::Text(b"\r\nContent-Type: application/xml\r\n"),
    ];
    if asked.shape.head_only {
        let frame = frame(asked, status, 0);
        return print_page(sink, &frame, &headers, &[]);
    }
    let frame = frame(asked, status, fault_length(code, message));
    let body = [
        Field::Text(b"<?xml version=\"1.0\" encoding=\"utf-8\"?><Error><Code>"),
        Field::Escaped(code),
        Field::Text(b"</Code><Message>"),
        Field::Message(message),
        Field::Text(b"</Message></Error>"),
    ];
    print_page(sink, &frame, &headers, &body)
}

/// The length of a fault's body.
#[tactic(auto, unfolding(sx_listing::specs::Error::error_text))]
fn fault_length(code: &[u8], message: &Message) -> u128
    ensures { result ≡ length (fault_body (fault 0 code.now (flat_map word_text message.now))) }
{
    let code = escaped_text_length(code);
    let message = escaped_length(message);
    51 + code + 16 + message + 18
}

/// Prints a page with the bytes of a file as its body.
pub(crate) fn print_viewed<K: Sink>(
    sink: &mut K,
    asked: Asked,
    status: u16,
    headers: &[Field],
    view: &View,
) -> Result<(), Failed>
    ensures { Prints K.wrote K.write_count K.puts sink.old sink.new
        (page_text asked.place asked.at (page status (flat_map field_text headers.now) view.now) asked.shape) result }
{
    if asked.shape.head_only {
        let frame = frame(asked, status, 0);
        return print_page(sink, &frame, headers, &[]);
    }
    let frame = frame(asked, status, view.length() as u128);
    print_with_view(sink, &frame, headers, view)
}

/// Prints a head, and the bytes of a file behind it.
fn print_with_view<K: Sink>(
    sink: &mut K,
    frame: &Frame,
    headers: &[Field],
    view: &View,
) -> Result<(), Failed>
    ensures { Prints K.wrote K.write_count K.puts sink.old sink.new
        (front_text frame.now.status frame.now.place frame.now.at ++ flat_map field_text headers.now
        ++ end_text frame.now.length frame.now.close ++ view.now) result }
{
    match print_page(sink, frame, headers, &[]) {
        Ok(()) => print_view(sink, view),
        Err(failed) => Err(failed),
    }
}
