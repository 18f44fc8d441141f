//! The headers Range and x-ms-range.

ghost use Rattle.std.specs.Prelude.{◌≡◌, ◌<◌, ◌≤◌, ◌-◌, IfOk, true};
ghost use Rattle.std.specs.List.{list_any};
ghost use Rattle.sx_decode.specs.Reading.{Reads};
ghost use Rattle.sx_decode.specs.Ranges.{is_dash, to_last, from_first, bounds_of, bytes_of, range_name};
ghost use Rattle.sx_decode.specs.Ranges.{is_closed_in_order, first_within, first_read, span_of, interval_within};
ghost use Rattle.sx_decode.specs.Ranges.{interval_to, interval_read, interval_of};
ghost use Rattle.sx_call.specs.declared.ranges.TheConstants.{OFFSET_LIMIT};

use crate::lookup::{needed_header, one_header};
use crate::numbers::number_of;
use crate::parameters::{after, before};
use crate::refusals::{refuse_header, refuse_range};
use crate::unread::Unread;
use std::alloc::Global;
use std::marker::Model;
use sx_call::{ByteRange, First, OFFSET_LIMIT};
use sx_http::{Header, has_header};

/// The offsets that a range names, as numbers of up to 20 digits.
#[derive(Clone, Copy)]
struct Bounds {
    /// The first byte.
    from: u128,
    /// The last byte, where it is named.
    last: Option<u128>,
}

impl Model for Bounds {
    ghost use Rattle.sx_call.specs.Ranges.{BytesFrom};

    ghost Value = { BytesFrom };

    ghost view = { λ b. record { from = b.from; last = b.last } };

    ghost inverse = { λ b. record { from = b.from; last = b.last } };
}

/// The bytes of an interval: from an offset to before an end.
#[derive(Clone, Copy)]
pub struct Written {
    /// The first byte.
    pub from: u64,
    /// Past the last byte.
    pub end: u64,
}

impl Model for Written {
    ghost use Rattle.sx_extent.specs.Ranges.{Interval};

    ghost Value = { Interval };

    ghost view = { λ w. record { from = w.from; end = w.end } };

    ghost inverse = { λ i. record { from = i.from; end = i.end } };
}

fn has_dash(text: &[u8]) -> bool
    ensures { result ≡ list_any is_dash text.now }
{
    text.iter().any(|b| *b == b'-')
}

fn to_last(from: u128, last: Option<u128>) -> Option<Bounds>
    ensures { result ≡ to_last from last }
{
    match last {
        None => None,
        Some(last) => Some(Bounds {
            from,
            last: Some(last),
        }),
    }
}

fn from_first(from: Option<u128>, last: &[u8]) -> Option<Bounds>
    ensures { result ≡ from_first from last.now }
{
    match from {
        None => None,
        Some(from) => match last {
            [] => Some(Bounds { from, last: None }),
            _ => to_last(from, number_of(last)),
        },
    }
}

fn bounds_of(text: &[u8]) -> Option<Bounds>
    ensures { result ≡ bounds_of text.now }
{
    if !has_dash(text) {
        return None;
    }
    from_first(number_of(before(text, b'-')), after(text, b'-'))
}

#[tactic(auto, unfolding(crate::specs::Ranges::bytes_of))]
fn bytes_of(text: &[u8]) -> Option<Bounds>
    ensures { result ≡ bytes_of text.now }
{
    if !text.starts_with(b"bytes=") {
        return None;
    }
    bounds_of(&text[6..])
}

#[tactic(auto, unfolding(crate::specs::Ranges::range_name))]
fn range_name(headers: &[Header]) -> &'static str
    ensures { result.now ≡ range_name headers.now }
{
    if has_header(headers, b"x-ms-range") {
        "x-ms-range"
    } else if has_header(headers, b"range") {
        "range"
    } else {
        "x-ms-range"
    }
}

fn is_closed_in_order(from: u128, last: Option<u128>) -> bool
    ensures { result ≡ is_closed_in_order from last }
{
    match last {
        None => true,
        Some(last) => from <= last,
    }
}

fn first_within(alloc: Global, name: &str, bounds: Bounds) -> Result<Option<First>, Unread>
    requires { is_closed_in_order bounds.from bounds.last ≡ true }
    ensures { Reads result (first_within name.now bounds) }
{
    let limit = OFFSET_LIMIT as u128;
    match bounds.last {
        None => {
            if bounds.from < limit {
                Ok(First::of(bounds.from as u64, None))
            } else {
                refuse_range(alloc, name)
            }
        }
        Some(last) => {
            if bounds.from < limit && last < limit {
                Ok(First::of(bounds.from as u64, Some(last as u64)))
            } else {
                refuse_range(alloc, name)
            }
        }
    }
}

fn first_read(alloc: Global, name: &str, bounds: Option<Bounds>) -> Result<Option<First>, Unread>
    ensures { Reads result (first_read name.now bounds) }
{
    match bounds {
        None => refuse_header(alloc, name),
        Some(bounds) => {
            if is_closed_in_order(bounds.from, bounds.last) {
                first_within(alloc, name, bounds)
            } else {
                refuse_header(alloc, name)
            }
        }
    }
}

/// The range of a call that reads, where there is one.
#[tactic(auto, unfolding(crate::specs::Ranges::span_of))]
pub fn span_of(alloc: Global, headers: &[Header]) -> Result<Option<First>, Unread>
    ensures { Reads result (span_of headers.now) }
{
    let name = range_name(headers);
    match one_header(alloc, headers, name)? {
        None => Ok(None),
        Some(text) => first_read(alloc, name, bytes_of(text)),
    }
}

fn interval_within(
    alloc: Global,
    name: &str,
    most: u64,
    from: u128,
    last: u128,
) -> Result<Written, Unread>
    requires { from ≤ last }
    ensures read { Reads result (interval_within name.now most from last) }
    ensures some { IfOk result (λ i. i.from < i.end) }
    ensures limit { IfOk result (λ i. i.end ≤ OFFSET_LIMIT) }
    ensures short { IfOk result (λ i. i.end - i.from ≤ most) }
{
    if last < OFFSET_LIMIT as u128 && last - from < most as u128 {
        Ok(Written {
            from: from as u64,
            end: last as u64 + 1,
        })
    } else {
        refuse_range(alloc, name)
    }
}

fn interval_to(alloc: Global, name: &str, most: u64, bounds: Bounds) -> Result<Written, Unread>
    ensures read { Reads result (interval_to name.now most bounds.from bounds.last) }
    ensures some { IfOk result (λ i. i.from < i.end) }
    ensures limit { IfOk result (λ i. i.end ≤ OFFSET_LIMIT) }
    ensures short { IfOk result (λ i. i.end - i.from ≤ most) }
{
    match bounds.last {
        None => refuse_header(alloc, name),
        Some(last) => {
            if bounds.from <= last {
                interval_within(alloc, name, most, bounds.from, last)
            } else {
                refuse_header(alloc, name)
            }
        }
    }
}

fn interval_read(
    alloc: Global,
    name: &str,
    most: u64,
    bounds: Option<Bounds>,
) -> Result<Written, Unread>
    ensures read { Reads result (interval_read name.now most bounds) }
    ensures some { IfOk result (λ i. i.from < i.end) }
    ensures limit { IfOk result (λ i. i.end ≤ OFFSET_LIMIT) }
    ensures short { IfOk result (λ i. i.end - i.from ≤ most) }
{
    match bounds {
        None => refuse_header(alloc, name),
        Some(bounds) => interval_to(alloc, name, most, bounds),
    }
}

/// The range of a call that writes at most so many bytes.
#[tactic(auto, unfolding(crate::specs::Ranges::interval_of))]
pub fn interval_of(alloc: Global, most: u64, headers: &[Header]) -> Result<Written, Unread>
    ensures read { Reads result (interval_of most headers.now) }
    ensures some { IfOk result (λ i. i.from < i.end) }
    ensures limit { IfOk result (λ i. i.end ≤ OFFSET_LIMIT) }
    ensures short { IfOk result (λ i. i.end - i.from ≤ most) }
{
    let name = range_name(headers);
    let text = needed_header(alloc, headers, name)?;
    interval_read(alloc, name, most, bytes_of(text))
}

/// The range of a call that clears.
pub fn cleared_of(alloc: Global, headers: &[Header]) -> Result<ByteRange, Unread>
    ensures { Reads result (interval_of OFFSET_LIMIT headers.now) }
{
    let interval = interval_of(alloc, OFFSET_LIMIT, headers)?;
    match ByteRange::of(interval.from, interval.end) {
        Some(range) => Ok(range),
        None => unreachable!(),
    }
}
