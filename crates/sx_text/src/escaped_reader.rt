//! Reading a text in UTF-8 with the escapes of XML, with the place of its fault.
ghost use Rattle.std.specs.Prelude.{◌≡◌, ℕ, List, Some, IfOk};
ghost use Rattle.sx_text.specs.Given.{Gives};
ghost use Rattle.sx_text.specs.Escapes.{lead_of, behind, spot_after, escaped_step, escaped_at, escaped_after, IsWhole};
ghost use Rattle.sx_text.specs.declared.escaped_reader.Spot.TheVariants.{Between, Tail, Ampersand};
ghost use Rattle.sx_text.specs.Letters.{shown_letter};

use crate::fault::Fault;
use crate::literal_reader::literal;
use std::alloc::Global;

/// Where in a text a reader stands.
#[derive(Clone, Copy, Debug, PartialEq, Eq)]
pub enum Spot {
    /// Between two characters.
    Between,
    /// In a character: the next byte lies in a range, and `more` bytes follow it.
    Tail { low: u8, high: u8, more: u8 },
    /// Behind `&`.
    Ampersand,
    /// Behind `&a`.
    WantsM,
    /// Behind `&am`.
    WantsP,
    /// Before `t;` of an escape of `code`.
    Tee { code: u8 },
    /// Before `;` of an escape of `code`.
    Semi { code: u8 },
}

/// What a byte does in a text.
#[derive(Clone, Copy, Debug, PartialEq, Eq)]
pub enum Letter {
    /// It ends the text.
    Done,
    /// It is kept, or one that it stands for.
    Kept { byte: u8, spot: Spot },
    /// It is passed over.
    Passed { spot: Spot },
    /// It can't stand there.
    Wrong,
}

/// The spot behind a first byte, as an option.
fn tail_spot(low: u8, high: u8, more: u8) -> Option<Spot>
    ensures { result ≡ Some (Tail low high more) }
{
    Some(Spot::Tail { low, high, more })
}

/// What follows a first byte from 128 on (RFC 3629, section 4): the limits of the second byte, and how many follow it.
#[tactic(auto, unfolding(crate::specs::Escapes::lead_of))]
fn lead(byte: u8) -> Option<Spot>
    ensures { result ≡ lead_of byte }
{
    if byte < 194 {
        None
    } else if byte < 224 {
        tail_spot(128, 191, 0)
    } else if byte == 224 {
        tail_spot(160, 191, 1)
    } else if byte == 237 {
        tail_spot(128, 159, 1)
    } else if byte < 240 {
        tail_spot(128, 191, 1)
    } else if byte == 240 {
        tail_spot(144, 191, 2)
    } else if byte < 244 {
        tail_spot(128, 191, 2)
    } else if byte == 244 {
        tail_spot(128, 143, 2)
    } else {
        None
    }
}

/// The spot where so many more bytes of a character stand.
fn behind(more: u8) -> Spot
    ensures { result ≡ behind more }
{
    if more == 0 {
        Spot::Between
    } else {
        Spot::Tail {
            low: 128,
            high: 191,
            more: more - 1,
        }
    }
}

/// The spot behind a byte of UTF-8 (RFC 3629), or none where the byte can't stand at the spot.
pub fn spot_after(spot: Spot, byte: u8) -> Option<Spot>
    ensures { result ≡ spot_after spot byte }
{
    match spot {
        Spot::Between => if byte < 128 {
            Some(Spot::Between)
        } else {
            lead(byte)
        },
        Spot::Tail { low, high, more } => if low <= byte && byte <= high {
            Some(behind(more))
        } else {
            None
        },
        _ => None,
    }
}

/// What a byte between two characters does.
fn between(byte: u8) -> Letter
    ensures { (kept : List ℕ) → shown_letter kept result ≡ escaped_step (kept, Between) byte }
{
    if byte == b'<' {
        return Letter::Done;
    }
    if byte == b'>' {
        return Letter::Wrong;
    }
    if byte == b'&' {
        return Letter::Passed {
            spot: Spot::Ampersand,
        };
    }
    if byte < 128 {
        return Letter::Kept {
            byte,
            spot: Spot::Between,
        };
    }
    match lead(byte) {
        None => Letter::Wrong,
        Some(spot) => Letter::Kept { byte, spot },
    }
}

/// What a byte behind `&` does.
fn ampersand(byte: u8) -> Letter
    ensures { (kept : List ℕ) → shown_letter kept result ≡ escaped_step (kept, Ampersand) byte }
{
    if byte == b'a' {
        return Letter::Passed { spot: Spot::WantsM };
    }
    if byte == b'l' {
        return Letter::Passed {
            spot: Spot::Tee { code: 60 },
        };
    }
    if byte == b'g' {
        return Letter::Passed {
            spot: Spot::Tee { code: 62 },
        };
    }
    Letter::Wrong
}

/// What a byte inside a character does.
fn tail(low: u8, high: u8, more: u8, byte: u8) -> Letter
    ensures { (kept : List ℕ) → shown_letter kept result ≡ escaped_step (kept, Tail low high more) byte }
{
    if low <= byte && byte <= high {
        return Letter::Kept {
            byte,
            spot: behind(more),
        };
    }
    Letter::Wrong
}

/// What a byte does.
fn letter_of(spot: Spot, byte: u8) -> Letter
    ensures { (kept : List ℕ) → shown_letter kept result ≡ escaped_step (kept, spot) byte }
{
    match spot {
        Spot::Between => between(byte),
        Spot::Tail { low, high, more } => tail(low, high, more, byte),
        Spot::Ampersand => ampersand(byte),
        Spot::WantsM => if byte == b'm' {
            Letter::Passed { spot: Spot::WantsP }
        } else {
            Letter::Wrong
        },
        Spot::WantsP => if byte == b'p' {
            Letter::Passed {
                spot: Spot::Semi { code: 38 },
            }
        } else {
            Letter::Wrong
        },
        Spot::Tee { code } => if byte == b't' {
            Letter::Passed {
                spot: Spot::Semi { code },
            }
        } else {
            Letter::Wrong
        },
        Spot::Semi { code } => if byte == b';' {
            Letter::Kept {
                byte: code,
                spot: Spot::Between,
            }
        } else {
            Letter::Wrong
        },
    }
}

/// Takes a text, byte by byte.
#[tactic(auto, unfolding(crate::specs::Escapes::escaped_at))]
fn letters(alloc: Global, bytes: &[u8]) -> Result<(Vec<u8>, &[u8]), Fault>
    ensures { Gives (λ x. (x.0.items, x.1.now)) result (escaped_at bytes.now) }
{
    let mut kept = Vec::new(alloc);
    let mut rest = bytes;
    let mut spot = Spot::Between;
    for byte in bytes {
        rest = &rest[1..];
        match letter_of(spot, *byte) {
            Letter::Done => return Ok((kept, rest)),
            Letter::Kept {
                byte: known,
                spot: next,
            } => {
                kept.push(known)?;
                spot = next;
            }
            Letter::Passed { spot: next } => spot = next,
            Letter::Wrong => return Err(Fault::Unread {
                left: rest.len() + 1,
            }),
        }
    }
    Err(Fault::Unread { left: 0 })
}

/// Takes a text of UTF-8 in which `&`, `<` and `>` are escaped as `&amp;`, `&lt;` and `&gt;`, and the `<` behind it,
/// and gives the bytes for which it stands and the bytes behind that `<`.
pub fn escaped_text(alloc: Global, bytes: &[u8]) -> Result<(Vec<u8>, &[u8]), Fault>
    ensures reading { Gives (λ x. (x.0.items, x.1.now)) result (escaped_at bytes.now) }
    ensures whole { IfOk result (λ x. IsWhole x.0.items) }
{
    letters(alloc, bytes)
}

/// Takes `literal`, and the text behind it as `escaped_text` does.
#[tactic(auto, unfolding(crate::specs::Escapes::escaped_after))]
pub fn escaped_text_behind<'a>(
    alloc: Global,
    bytes: &'a [u8],
    text: &[u8],
) -> Result<(Vec<u8>, &'a [u8]), Fault>
    ensures reading { Gives (λ x. (x.0.items, x.1.now)) result (escaped_after text.now bytes.now) }
    ensures whole { IfOk result (λ x. IsWhole x.0.items) }
{
    let rest = literal(bytes, text)?;
    escaped_text(alloc, rest)
}
