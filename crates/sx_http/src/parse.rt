//! Heads read from bytes.

ghost use Rattle.std.specs.Prelude.{◌≡◌, ◌≤◌, ◌&&◌, nat_le, if◌then◌else◌, All, IfOk, OnOk, Some, None, IsUtf8};
ghost use Rattle.std.specs.Prelude.{length, map};
ghost use Rattle.httparse.specs.Grammar.{IsToken, RequestHead};
ghost use Rattle.httparse.specs.Spans.{span_bytes, IsHeaderWithin, IsRequestAt, IsRequestOf, IsRequestWithin};
ghost use Rattle.sx_http.specs.Heads.{lower, head_of, header_at, head_window, HeadFor, IsParsed};

use crate::heads::{Head, Header};
use crate::limits::{HEAD_LIMIT, HEADER_LIMIT, SLOT_COUNT};
use http::Method;
use httparse::Status;
use httparse::spans::{EMPTY_HEADER_SPAN, HeaderSpan, RequestSpans, parse_request};
use std::alloc::Global;
use sx_base::{Items, NoMemory};
use sx_names::Text;

/// What stands at the front of some bytes.
#[derive(Debug, Drop)]
pub(crate) enum Parsed {
    /// A head of `size` bytes.
    Whole { head: Head, size: usize },
    /// No head yet, and more bytes may make one.
    More,
    /// No head, whatever follows.
    Never,
    NoMemory,
}

/// The head that the bytes are, of at most 65,536 bytes and 100 headers, with its names in lower case. None comes
/// exactly where they aren't one.
pub fn read_head(alloc: Global, bytes: &[u8]) -> Result<Option<Head>, NoMemory>
    ensures { IfOk result (HeadFor bytes.now) }
{
    if HEAD_LIMIT < bytes.len() {
        return Ok(None);
    }
    let mut slots = slots(alloc)?;
    match parse_head(alloc, bytes, &mut slots) {
        Parsed::Whole { head, size } => Ok(within_limits(head, size == bytes.len())),
        Parsed::More => Ok(None),
        Parsed::Never => Ok(None),
        Parsed::NoMemory => Err(NoMemory),
    }
}

/// The head, where it is all of the bytes and has few enough headers.
fn within_limits(head: Head, is_all: bool) -> Option<Head>
    ensures { result ≡ (if is_all && nat_le (length head.headers) HEADER_LIMIT then Some head else None) }
{
    if is_all && head.headers.len() <= HEADER_LIMIT {
        Some(head)
    } else {
        None
    }
}

/// Empty slots for the headers of a head.
fn slots(alloc: Global) -> Result<Vec<HeaderSpan>, NoMemory>
    ensures { IfOk result (λ slots. length slots.items ≡ SLOT_COUNT) }
{
    let slots = vec![in alloc; EMPTY_HEADER_SPAN; SLOT_COUNT]?;
    Ok(slots)
}

/// Parses the head at the front of the bytes, of which it looks at 65,536 at most. The slots are made at first use.
pub(crate) fn parse_front(alloc: Global, bytes: &[u8], room: &mut Vec<HeaderSpan>) -> Parsed
    ensures { IsParsed (head_window bytes.now) result }
{
    match make_ready(alloc, room) {
        Ok(()) => {}
        Err(_) => return Parsed::NoMemory,
    }
    parse_head(alloc, &bytes[..bytes.len().min(HEAD_LIMIT)], room)
}

/// Makes the slots, where they are not there yet.
fn make_ready(alloc: Global, room: &mut Vec<HeaderSpan>) -> Result<(), NoMemory>
    ensures { OnOk result (length room.new.items ≡ SLOT_COUNT) }
{
    if room.len() == SLOT_COUNT {
        return Ok(());
    }
    *room = slots(alloc)?;
    Ok(())
}

/// Parses the head at the front of the bytes, over slots that are there for this alone.
fn parse_head(alloc: Global, bytes: &[u8], slots: &mut [HeaderSpan]) -> Parsed
    requires short { length bytes.now ≤ HEAD_LIMIT }
    requires wide { length slots.old ≡ SLOT_COUNT }
    ensures { IsParsed bytes.now result }
{
    match parse_request(bytes, slots) {
        Ok(Status::Complete(spans)) => built(alloc, bytes, &spans, slots),
        Ok(Status::Partial) => Parsed::More,
        Err(_) => Parsed::Never,
    }
}

/// The head that the spans cover.
fn built(alloc: Global, bytes: &[u8], spans: &RequestSpans, slots: &[HeaderSpan]) -> Parsed
    requires within { IsRequestWithin bytes.now slots.now spans.now }
    requires is { IsRequestOf bytes.now slots.now spans.now }
    ensures { IsParsed bytes.now result }
{
    match head_at(alloc, bytes, spans, slots) {
        Ok(head) => Parsed::Whole {
            head,
            size: spans.len,
        },
        Err(_) => Parsed::NoMemory,
    }
}

fn head_at(
    alloc: Global,
    bytes: &[u8],
    spans: &RequestSpans,
    slots: &[HeaderSpan],
) -> Result<Head, NoMemory>
    requires within { IsRequestWithin bytes.now slots.now spans.now }
    requires is { IsRequestOf bytes.now slots.now spans.now }
    ensures { IfOk result (λ head. (tree : RequestHead) → IsRequestAt bytes.now slots.now spans.now tree → head
        ≡ head_of tree) }
{
    let method = method_of(alloc, spans.method.of(bytes))?;
    let target = text_of(Items::copy_of(alloc, spans.path.of(bytes))?);
    let headers = headers_of(alloc, bytes, &slots[..spans.headers])?;
    Ok(Head {
        method,
        target,
        v11: spans.version == 1,
        headers,
    })
}

/// The method of a token.
fn method_of(alloc: Global, token: &[u8]) -> Result<Method, NoMemory>
    requires { IsToken token.now }
    ensures { IfOk result (λ method. method ≡ token.now) }
{
    match Method::from_bytes(alloc, token) {
        Ok(method) => Ok(method),
        Err(_) => Err(NoMemory),
    }
}

/// The text of bytes that are UTF-8.
fn text_of(bytes: Items<u8>) -> Text
    requires { IsUtf8 bytes }
    ensures { result ≡ bytes }
{
    match Text::of(bytes) {
        Some(text) => text,
        None => unreachable!(),
    }
}

fn headers_of(alloc: Global, bytes: &[u8], spans: &[HeaderSpan]) -> Result<Items<Header>, NoMemory>
    requires within { All (IsHeaderWithin (length bytes.now)) spans.now }
    requires names { All (λ span. IsToken (span_bytes bytes.now span.name)) spans.now }
    ensures { IfOk result (λ headers. headers ≡ map (header_at bytes.now) spans.now) }
{
    let mut headers = Items::new(alloc);
    for span in spans {
        headers.push(header_at(alloc, bytes, span)?)?;
    }
    Ok(headers)
}

fn header_at(alloc: Global, bytes: &[u8], span: &HeaderSpan) -> Result<Header, NoMemory>
    requires within { IsHeaderWithin (length bytes.now) span.now }
    requires name { IsToken (span_bytes bytes.now span.now.name) }
    ensures { IfOk result (λ header. header ≡ header_at bytes.now span.now) }
{
    let name = lower_name(alloc, span.name.of(bytes))?;
    let value = Items::copy_of(alloc, span.value.of(bytes))?;
    Ok(Header { name, value })
}

/// A token in lower case.
fn lower_name(alloc: Global, token: &[u8]) -> Result<Text, NoMemory>
    requires { IsToken token.now }
    ensures { IfOk result (λ name. name ≡ lower token.now) }
{
    Ok(text_of(lowered(alloc, token)?))
}

fn lowered(alloc: Global, bytes: &[u8]) -> Result<Items<u8>, NoMemory>
    ensures { IfOk result (λ name. name ≡ lower bytes.now) }
{
    let mut lower = Vec::from_slice(alloc, bytes)?;
    lower.make_ascii_lowercase();
    Ok(Items::of(lower))
}
