//! The body that lists ranges.

ghost use Rattle.std.specs.Prelude.{◌≡◌, ◌≤◌, ◌++◌, IfOk, OnOk, List, Result};
ghost use Rattle.sx_text.specs.Numbers.{IsFrom};
ghost use Rattle.sx_listing.specs.declared.ranges.TheConstants.{MAX_OFFSET};
ghost use Rattle.std.specs.List.{flat_map};
ghost use Rattle.sx_extent.specs.Ranges.{Interval};
ghost use Rattle.sx_text.specs.Given.{Reads, Gives};
ghost use Rattle.sx_text.specs.Readers.{all_values_at};
ghost use Rattle.sx_listing.specs.Body.{ReadsBody, IsReadAs};
ghost use Rattle.sx_listing.specs.Ranges.{range_text, ranges_text, AreRanges, last_at, range_at};
ghost use Rattle.sx_listing.specs.Ranges.{range_of, items_at, ranges_at};
ghost use Rattle.sx_listing.specs.declared.body.BodyFault.{BodyFault};

use crate::body::BodyFault;
use std::alloc::Global;
use sx_base::NoMemory;
use sx_extent::{Span, Spans};
use sx_names::Text;
use sx_text::{Fault, Unread, literal, number_behind};

/// The greatest offset of a byte in a range: an end of 64 bits stands one further.
pub const MAX_OFFSET: u64 = 18_446_744_073_709_551_614;

/// The body that lists these ranges ("List Ranges" of Azure Files).
#[tactic(auto, unfolding(crate::specs::Ranges::ranges_text))]
pub fn write_ranges(alloc: Global, spans: &Spans) -> Result<Text, NoMemory>
    ensures { IfOk result (λ text. text ≡ ranges_text spans.now) }
{
    let mut text = Text::copy_of(alloc, "<?xml version=\"1.0\" encoding=\"utf-8\"?><Ranges>")?;
    append_ranges(&mut text, spans.as_slice())?;
    text.append("</Ranges>")?;
    Ok(text)
}

fn append_ranges(text: &mut Text, spans: &[Span]) -> Result<(), NoMemory>
    ensures { OnOk result (text.new ≡ text.old ++ flat_map range_text spans.now) }
{
    for span in spans {
        append_range(text, span)?;
    }
    Ok(())
}

/// Puts a range behind a text.
#[tactic(auto, unfolding(crate::specs::Ranges::range_text))]
fn append_range(text: &mut Text, span: &Span) -> Result<(), NoMemory>
    ensures { OnOk result (text.new ≡ text.old ++ range_text span.now) }
{
    text.append("<Range><Start>")?;
    text.append_decimal(span.from)?;
    text.append("</Start><End>")?;
    text.append_decimal(span.end - 1)?;
    text.append("</End></Range>")?;
    Ok(())
}

#[tactic(auto, unfolding(crate::specs::Ranges::last_at))]
fn last(bytes: &[u8], from: u64) -> Result<(u64, &[u8]), Unread>
    requires { from ≤ MAX_OFFSET }
    ensures reading { Reads (λ x. (x.0, x.1.now)) result (last_at from bytes.now) }
    ensures value { IfOk result (λ x. IsFrom from MAX_OFFSET x.0) }
{
    let (last, rest) = number_behind(bytes, b"/Start><End>", b'<', from, MAX_OFFSET)?;
    let rest = literal(rest, b"/End></Range><")?;
    Ok((last, rest))
}

/// Takes a range, and gives the offsets of its first and its last byte.
#[tactic(auto, unfolding(crate::specs::Ranges::range_at))]
fn range(bytes: &[u8]) -> Result<((u64, u64), &[u8]), Unread>
    ensures reading { Reads (λ x. (range_of x.0, x.1.now)) result (range_at bytes.now) }
    ensures value { IfOk result (λ x. IsFrom x.0.0 MAX_OFFSET x.0.1) }
{
    let (from, rest) = number_behind(bytes, b"Range><Start>", b'<', 0, MAX_OFFSET)?;
    let (last, rest) = last(rest, from)?;
    Ok(((from, last), rest))
}

#[tactic(auto, unfolding(sx_text::specs::Readers::values_at))]
fn ranges(alloc: Global, bytes: &[u8]) -> Result<(Spans, &[u8]), Fault>
    ensures { Gives (λ x. (x.0, x.1.now)) result (all_values_at 47 range_at bytes.now) }
{
    let mut spans = Spans::new(alloc);
    let mut rest = bytes;
    for _ in 0..bytes.len() + 1 {
        if rest.is_empty() {
            return Err(Fault::Unread { left: 0 });
        }
        if rest[0] == b'/' {
            return Ok((spans, &rest[1..]));
        }
        let ((from, last), after) = range(rest)?;
        let span = Span {
            from,
            end: last + 1,
        };
        let Ok(()) = spans.push(span) else {
            return Err(Fault::NoMemory);
        };
        rest = after;
    }
    Err(Fault::Unread { left: rest.len() })
}

#[tactic(auto, unfolding(crate::specs::Ranges::items_at))]
fn items(alloc: Global, bytes: &[u8]) -> Result<(Spans, &[u8]), Fault>
    ensures { Gives (λ x. (x.0, x.1.now)) result (items_at bytes.now) }
{
    let rest = literal(
        bytes,
        b"<?xml version=\"1.0\" encoding=\"utf-8\"?><Ranges><",
    )?;
    ranges(alloc, rest)
}

#[tactic(auto, unfolding(crate::specs::Ranges::ranges_at))]
fn body(alloc: Global, bytes: &[u8]) -> Result<(Spans, &[u8]), Fault>
    ensures { Gives (λ x. (x.0, x.1.now)) result (ranges_at bytes.now) }
{
    match items(alloc, bytes) {
        Ok((spans, rest)) => {
            let rest = literal(rest, b"Ranges>")?;
            Ok((spans, rest))
        }
        Err(fault) => Err(fault),
    }
}

/// The ranges that a body lists. Exactly the texts that `write_ranges` gives are read.
pub fn read_ranges(alloc: Global, bytes: &[u8]) -> Result<Spans, BodyFault>
    ensures { ReadsBody ranges_text AreRanges bytes.now result }
{
    match body(alloc, bytes) {
        Ok((spans, [])) => Ok(spans),
        Ok((_, rest)) => Err(BodyFault::Bad {
            at: (bytes.len() - rest.len()) as u64,
        }),
        Err(Fault::Unread { left }) => Err(BodyFault::Bad {
            at: (bytes.len() - left) as u64,
        }),
        Err(Fault::NoMemory) => Err(BodyFault::NoMemory),
    }
}

/// The law of listed ranges: what was written is read as the ranges that it lists. It does nothing.
pub fn ranges_are_read_back()
    ensures { (spans : List Interval) (read : Result (List Interval) BodyFault) → AreRanges spans
        → ReadsBody ranges_text AreRanges (ranges_text spans) read → IsReadAs spans read }
{}
