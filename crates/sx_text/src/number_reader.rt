//! Reading a decimal number within limits, with the place of its fault.
ghost use Rattle.std.specs.Prelude.{◌≡◌, ◌<◌, ◌≤◌, ◌^◌, Some, None, false, IfOk};
ghost use Rattle.sx_text.specs.Numbers.{IsFrom, is_digit, may_begin, number_step, number_at, number_after};
ghost use Rattle.sx_text.specs.Given.{Reads};
ghost use Rattle.sx_text.specs.Steps.{number_shown};

use crate::digit::Digit;
use crate::fault::Unread;
use crate::literal_reader::literal;

/// Whether some number in the limits begins with these digits.
#[tactic(auto, using(crate::proofs::Numbers::reaches_zero, crate::proofs::Numbers::reaches_over, crate::proofs::Numbers::reaches_here, crate::proofs::Numbers::reaches_on))]
fn may_go_on(low: u64, high: u64, digits: u128) -> bool
    requires { digits < 2 ^ 68 }
    ensures { result ≡ may_begin low high digits }
{
    let mut first = digits;
    let mut count = 1u128;
    for _ in 0..20u32 {
        if first > high as u128 {
            return false;
        }
        if (low as u128) < first + count {
            return true;
        }
        first *= 10;
        count *= 10;
    }
    false
}

fn first_digit(stop: u8, low: u64, high: u64, byte: u8) -> Digit
    ensures { number_shown result ≡ number_step stop low high None byte }
{
    if !byte.is_ascii_digit() {
        return Digit::Wrong;
    }
    let value = byte - b'0';
    let fits = if value == 0 {
        low == 0
    } else {
        may_go_on(low, high, value as u128)
    };
    if fits {
        Digit::More(value as u64)
    } else {
        Digit::Wrong
    }
}

fn next_digit(stop: u8, low: u64, high: u64, so_far: u64, byte: u8) -> Digit
    requires { low ≤ high }
    ensures { number_shown result ≡ number_step stop low high (Some so_far) byte }
{
    if byte == stop {
        if low <= so_far {
            return Digit::Last(so_far);
        }
        return Digit::Wrong;
    }
    if !byte.is_ascii_digit() || so_far == 0 {
        return Digit::Wrong;
    }
    let value = so_far as u128 * 10 + (byte - b'0') as u128;
    if may_go_on(low, high, value) {
        Digit::More(value as u64)
    } else {
        Digit::Wrong
    }
}

fn digit_of(stop: u8, low: u64, high: u64, so_far: Option<u64>, byte: u8) -> Digit
    requires { low ≤ high }
    ensures { number_shown result ≡ number_step stop low high so_far byte }
{
    match so_far {
        None => first_digit(stop, low, high, byte),
        Some(value) => next_digit(stop, low, high, value, byte),
    }
}

#[tactic(auto, unfolding(crate::specs::Numbers::number_at))]
fn number_by_digits(bytes: &[u8], stop: u8, low: u64, high: u64) -> Result<(u64, &[u8]), Unread>
    requires { low ≤ high }
    ensures { Reads (λ x. (x.0, x.1.now)) result (number_at stop low high bytes.now) }
{
    let mut rest = bytes;
    let mut so_far = None;
    for byte in bytes {
        rest = &rest[1..];
        match digit_of(stop, low, high, so_far, *byte) {
            Digit::Last(value) => return Ok((value, rest)),
            Digit::More(value) => so_far = Some(value),
            Digit::Wrong => return Err(Unread {
                left: rest.len() + 1,
            }),
        }
    }
    Err(Unread { left: 0 })
}

/// Takes a decimal number from `low` to `high`, without leading zeros, and the byte `stop` behind it, and gives the
/// number and the bytes behind `stop`. A digit that no number within the limits has there is a fault at that digit.
pub fn number(bytes: &[u8], stop: u8, low: u64, high: u64) -> Result<(u64, &[u8]), Unread>
    requires order { low ≤ high }
    requires stop { is_digit stop ≡ false }
    ensures reading { Reads (λ x. (x.0, x.1.now)) result (number_at stop low high bytes.now) }
    ensures value { IfOk result (λ x. IsFrom low high x.0) }
{
    number_by_digits(bytes, stop, low, high)
}

/// Takes `text`, and the number behind it as `number` does.
#[tactic(auto, unfolding(crate::specs::Numbers::number_after))]
pub fn number_behind<'a>(
    bytes: &'a [u8],
    text: &[u8],
    stop: u8,
    low: u64,
    high: u64,
) -> Result<(u64, &'a [u8]), Unread>
    requires order { low ≤ high }
    requires stop { is_digit stop ≡ false }
    ensures reading { Reads (λ x. (x.0, x.1.now)) result (number_after text.now stop low high bytes.now) }
    ensures value { IfOk result (λ x. IsFrom low high x.0) }
{
    let rest = literal(bytes, text)?;
    number(rest, stop, low, high)
}
