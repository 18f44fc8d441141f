//! Markers in bodies, read: percent-encoding of UTF-8, with the place of its fault.

ghost use Rattle.std.specs.Prelude.{◌≡◌, ◌<◌, ℕ, List, Option, IfOk, IfSome};
ghost use Rattle.sx_text.specs.Given.{Gives};
ghost use Rattle.sx_text.specs.Escapes.{IsWhole, spot_after};
ghost use Rattle.sx_listing.specs.PercentReader.{upper_value, kept_at, may_escape, first_digit, second_digit};
ghost use Rattle.sx_listing.specs.PercentReader.{percent_step, shown_mark, percent_at, percent_after};
ghost use Rattle.sx_listing.specs.PercentReader.{IsEscape, PassesEscape};
ghost use Rattle.sx_listing.specs.declared.percent_reader.Escape.TheVariants.{Plain};

use crate::percent::is_unreserved;
use std::alloc::Global;
use sx_text::{Fault, Spot, literal, spot_after};

/// Where in an escape a reader stands.
#[derive(Clone, Copy, Debug, PartialEq, Eq)]
pub enum Escape {
    /// In none.
    Plain,
    /// Behind `%`.
    Percent,
    /// Behind `%` and the first digit, which is `high`.
    Digit { high: u8 },
}

/// What a byte does in a text.
#[derive(Clone, Copy, Debug, PartialEq, Eq)]
pub enum Mark {
    /// It ends the text.
    Done,
    /// It is kept, or one that it stands for.
    Kept { byte: u8, spot: Spot },
    /// It is passed over.
    Passed { escape: Escape },
    /// It can't stand there.
    Wrong,
}

/// The number of a hexadecimal digit, its letters in upper case.
#[tactic(auto, unfolding(crate::specs::PercentReader::upper_value))]
fn upper_value(byte: u8) -> Option<u8>
    ensures value { result ≡ upper_value byte }
    ensures digit { IfSome result (λ number. number < 16) }
{
    match byte {
        b'0'..=b'9' => Some(byte - b'0'),
        b'A'..=b'F' => Some(byte - b'A' + 10),
        _ => None,
    }
}

/// Whether some byte at a spot is written as an escape with this first digit.
#[tactic(auto, unfolding(crate::specs::PercentReader::may_escape))]
fn may_escape(spot: Spot, high: u8) -> bool
    requires { high < 16 }
    ensures { result ≡ may_escape spot high }
{
    match spot {
        Spot::Between => high < 8 || 12 <= high,
        Spot::Tail { low, high: top, .. } => {
            let least = 16 * high as u16;
            least <= top as u16 && (low as u16) < least + 16
        }
        _ => false,
    }
}

/// Keeps a byte, where it can stand at the spot.
fn kept_at(spot: Spot, byte: u8) -> Mark
    ensures digit { PassesEscape result }
    ensures step { (kept : List ℕ) → shown_mark kept spot result ≡ kept_at kept byte (spot_after spot byte) }
{
    match spot_after(spot, byte) {
        Some(spot) => Mark::Kept { byte, spot },
        None => Mark::Wrong,
    }
}

/// What a byte outside an escape does.
fn plain(spot: Spot, byte: u8) -> Mark
    ensures digit { PassesEscape result }
    ensures step { (kept : List ℕ) → shown_mark kept spot result ≡ percent_step (kept, (spot, Plain)) byte }
{
    if byte == b'<' {
        return match spot {
            Spot::Between => Mark::Done,
            _ => Mark::Wrong,
        };
    }
    if byte == b'%' {
        return Mark::Passed {
            escape: Escape::Percent,
        };
    }
    if is_unreserved(byte) {
        return kept_at(spot, byte);
    }
    Mark::Wrong
}

/// What the first digit of an escape does.
fn first_digit(spot: Spot, byte: u8) -> Mark
    ensures digit { PassesEscape result }
    ensures step { (kept : List ℕ) → shown_mark kept spot result ≡ first_digit kept spot (upper_value byte) }
{
    let Some(high) = upper_value(byte) else {
        return Mark::Wrong;
    };
    if may_escape(spot, high) {
        Mark::Passed {
            escape: Escape::Digit { high },
        }
    } else {
        Mark::Wrong
    }
}

/// What the second digit of an escape does.
fn second_digit(spot: Spot, high: u8, byte: u8) -> Mark
    requires { high < 16 }
    ensures digit { PassesEscape result }
    ensures step { (kept : List ℕ) → shown_mark kept spot result ≡ second_digit kept spot high (upper_value byte) }
{
    let Some(low) = upper_value(byte) else {
        return Mark::Wrong;
    };
    let known = 16 * high + low;
    if is_unreserved(known) {
        return Mark::Wrong;
    }
    kept_at(spot, known)
}

/// What a byte does.
fn mark_of(spot: Spot, escape: Escape, byte: u8) -> Mark
    requires { IsEscape escape }
    ensures digit { PassesEscape result }
    ensures step { (kept : List ℕ) → shown_mark kept spot result ≡ percent_step (kept, (spot, escape)) byte }
{
    match escape {
        Escape::Plain => plain(spot, byte),
        Escape::Percent => first_digit(spot, byte),
        Escape::Digit { high } => second_digit(spot, high, byte),
    }
}

/// Takes a text, byte by byte.
#[tactic(auto, unfolding(crate::specs::PercentReader::percent_at))]
fn marks(alloc: Global, bytes: &[u8]) -> Result<(Vec<u8>, &[u8]), Fault>
    ensures { Gives (λ x. (x.0.items, x.1.now)) result (percent_at bytes.now) }
{
    let mut kept = Vec::new(alloc);
    let mut rest = bytes;
    let mut spot = Spot::Between;
    let mut escape = Escape::Plain;
    for byte in bytes {
        rest = &rest[1..];
        match mark_of(spot, escape, *byte) {
            Mark::Done => return Ok((kept, rest)),
            Mark::Kept {
                byte: known,
                spot: next,
            } => {
                kept.push(known)?;
                spot = next;
                escape = Escape::Plain;
            }
            Mark::Passed { escape: next } => escape = next,
            Mark::Wrong => return Err(Fault::Unread {
                left: rest.len() + 1,
            }),
        }
    }
    Err(Fault::Unread { left: 0 })
}

/// Takes a text of UTF-8 in percent-encoding, and the `<` behind it, and gives its bytes and the bytes behind that `<`.
fn percent_text(alloc: Global, bytes: &[u8]) -> Result<(Vec<u8>, &[u8]), Fault>
    ensures reading { Gives (λ x. (x.0.items, x.1.now)) result (percent_at bytes.now) }
    ensures whole { IfOk result (λ x. IsWhole x.0.items) }
{
    marks(alloc, bytes)
}

/// Takes `text`, and the text in percent-encoding behind it as `percent_text` does.
#[tactic(auto, unfolding(crate::specs::PercentReader::percent_after))]
pub(crate) fn percent_text_behind<'a>(
    alloc: Global,
    bytes: &'a [u8],
    text: &[u8],
) -> Result<(Vec<u8>, &'a [u8]), Fault>
    ensures reading { Gives (λ x. (x.0.items, x.1.now)) result (percent_after text.now bytes.now) }
    ensures whole { IfOk result (λ x. IsWhole x.0.items) }
{
    let rest = literal(bytes, text)?;
    percent_text(alloc, rest)
}
