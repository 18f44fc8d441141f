//! The body that follows a head, and the refusals of a whole head (RFC 9112, section 6).

ghost use Rattle.std.specs.Prelude.{◌≡◌, true};
ghost use Rattle.std.specs.List.{list_all};
ghost use Rattle.std.specs.Char.{is_ascii_digit};
ghost use Rattle.sx_http.specs.Framing.{number_of, writes, may_state, agreed_length, length_stated, lacks_length};
ghost use Rattle.sx_http.specs.Framing.{framing_by_length, framing_of};

use crate::heads::{Head, Header};
use crate::limits::{BODY_LIMIT, HEADER_LIMIT};
use crate::lookup::{first_named, has_header, is_named};

/// What all Content-Length headers together state.
#[derive(Clone, Copy, Debug, PartialEq, Eq)]
pub enum StatedLength {
    /// There is none.
    Nothing,
    /// Each writes this number in decimal digits.
    Bytes(u64),
    /// They write no number below 2^64, or not the same.
    Unclear,
}

/// The body that follows a whole head, or the first refusal of the head.
#[derive(Clone, Copy, Debug, PartialEq, Eq)]
pub enum Framing {
    /// A body of so many bytes.
    Body(u64),
    /// There are so many headers, more than the limit.
    TooManyHeaders(u64),
    /// It is a PUT without a Content-Length, or has a Transfer-Encoding.
    NoLength,
    /// The Content-Length values aren't one decimal number below 2^64.
    BadLength,
    /// The stated length is over the limit of a body.
    LongBody(u64),
}

/// The body that follows a whole head (RFC 9112, section 6), or the first refusal.
pub(crate) fn framing_of(head: &Head) -> Framing
    ensures { result ≡ framing_of head.now }
{
    let headers = head.headers.as_slice();
    if HEADER_LIMIT < headers.len() {
        return Framing::TooManyHeaders(headers.len() as u64);
    }
    if lacks_length(head) {
        return Framing::NoLength;
    }
    framing_by_length(length_stated(headers))
}

fn lacks_length(head: &Head) -> bool
    ensures { result ≡ lacks_length head.now }
{
    let headers = head.headers.as_slice();
    has_header(headers, b"transfer-encoding")
        || (head.method.as_str() == "PUT" && !has_header(headers, b"content-length"))
}

fn framing_by_length(stated: StatedLength) -> Framing
    ensures { result ≡ framing_by_length stated }
{
    match stated {
        StatedLength::Nothing => Framing::Body(0),
        StatedLength::Unclear => Framing::BadLength,
        StatedLength::Bytes(length) => {
            if BODY_LIMIT < length {
                Framing::LongBody(length)
            } else {
                Framing::Body(length)
            }
        }
    }
}

fn length_stated(headers: &[Header]) -> StatedLength
    ensures { result ≡ length_stated headers.now }
{
    match first_named(headers, b"content-length") {
        None => StatedLength::Nothing,
        Some(header) => agreed_length(number_of(header.value.as_slice()), headers),
    }
}

fn agreed_length(number: Option<u64>, headers: &[Header]) -> StatedLength
    ensures { result ≡ agreed_length number headers.now }
{
    match number {
        None => StatedLength::Unclear,
        Some(number) => {
            if all_may_state(number, headers) {
                StatedLength::Bytes(number)
            } else {
                StatedLength::Unclear
            }
        }
    }
}

fn all_may_state(number: u64, headers: &[Header]) -> bool
    ensures { result ≡ list_all (may_state number) headers.now }
{
    headers.iter().all(|h| may_state(number, h))
}

/// Whether a header is no Content-Length, or states this number.
fn may_state(number: u64, header: &Header) -> bool
    ensures { result ≡ may_state number header.now }
{
    !is_named(header, b"content-length") || writes(number, header.value.as_slice())
}

fn writes(number: u64, value: &[u8]) -> bool
    ensures { result ≡ writes number value.now }
{
    match number_of(value) {
        Some(written) => written == number,
        None => false,
    }
}

/// The number that decimal digits write, leading zeros among them.
fn number_of(value: &[u8]) -> Option<u64>
    ensures { result ≡ number_of value.now }
{
    if !all_digits(value) {
        return None;
    }
    match std::str::from_utf8(value) {
        Ok(digits) => parsed(digits),
        Err(_) => None,
    }
}

fn all_digits(value: &[u8]) -> bool
    ensures { result ≡ list_all is_ascii_digit value.now }
{
    value.iter().all(|b| b.is_ascii_digit())
}

fn parsed(digits: &str) -> Option<u64>
    requires { list_all is_ascii_digit digits.now ≡ true }
    ensures { result ≡ number_of digits.now }
{
    match u64::from_str_radix(digits, 10) {
        Ok(number) => Some(number),
        Err(_) => None,
    }
}
