//! Reading a fixed number of decimal digits within limits, with the place of their fault.
ghost use Rattle.std.specs.Prelude.{◌≡◌, ◌<◌, ◌≤◌, ◌+◌, ◌^◌, suc, IfOk};
ghost use Rattle.sx_text.specs.Numbers.{IsFrom};
ghost use Rattle.sx_text.specs.Digits.{meets, digits_step, digits_at, digits_after};
ghost use Rattle.sx_text.specs.Given.{Reads};
ghost use Rattle.sx_text.specs.Steps.{digits_shown, IsBelow};

use crate::digit::Digit;
use crate::fault::Unread;
use crate::literal_reader::literal;

#[tactic(auto, unfolding(crate::specs::Digits::meets))]
fn lies(low: u64, high: u64, first: u64, count: u64) -> bool
    requires { first + count < 2 ^ 64 }
    ensures { result ≡ meets 0 low high first count }
{
    first <= high && low < first + count
}

/// Whether some number in the limits has these digits in front of so many more.
#[tactic(auto, unfolding(crate::specs::Digits::meets))]
fn may_go_on(more: u32, low: u64, high: u64, digits: u64) -> bool
    requires few { more ≤ 6 }
    requires small { digits < 2 ^ 32 }
    ensures { result ≡ meets more low high digits 1 }
{
    match more {
        0 => lies(low, high, digits, 1),
        1 => lies(low, high, 10 * digits, 10),
        2 => lies(low, high, 10 * (10 * digits), 100),
        3 => lies(low, high, 10 * (10 * (10 * digits)), 1000),
        4 => lies(low, high, 10 * (10 * (10 * (10 * digits))), 10_000),
        5 => lies(low, high, 10 * (10 * (10 * (10 * (10 * digits)))), 100_000),
        6 => lies(
            low,
            high,
            10 * (10 * (10 * (10 * (10 * (10 * digits))))),
            1_000_000,
        ),
        _ => false,
    }
}

#[tactic(auto, using(crate::proofs::FixedDigits::meets_is_below))]
fn digit_of(more: u32, low: u64, high: u64, so_far: u64, byte: u8) -> Digit
    requires few { more ≤ 6 }
    requires order { low ≤ high }
    requires small { so_far < 10 ^ 8 }
    ensures small { IsBelow result (high + 1) }
    ensures step { digits_shown more result ≡ digits_step low high (more, so_far) byte }
{
    if !byte.is_ascii_digit() {
        return Digit::Wrong;
    }
    let value = so_far * 10 + (byte - b'0') as u64;
    if !may_go_on(more, low, high, value) {
        return Digit::Wrong;
    }
    if more == 0 {
        Digit::Last(value)
    } else {
        Digit::More(value)
    }
}

#[tactic(auto, unfolding(crate::specs::Digits::digits_at))]
fn digits_one_by_one(bytes: &[u8], more: u32, low: u64, high: u64) -> Result<(u64, &[u8]), Unread>
    requires few { more ≤ 6 }
    requires order { low ≤ high }
    requires short { high < 10 ^ 7 }
    ensures { Reads (λ x. (x.0, x.1.now)) result (digits_at more low high bytes.now) }
{
    let mut rest = bytes;
    let mut left = more;
    let mut so_far = 0;
    for byte in bytes {
        rest = &rest[1..];
        match digit_of(left, low, high, so_far, *byte) {
            Digit::Last(value) => return Ok((value, rest)),
            Digit::More(value) => {
                so_far = value;
                left -= 1;
            }
            Digit::Wrong => return Err(Unread {
                left: rest.len() + 1,
            }),
        }
    }
    Err(Unread { left: 0 })
}

/// Takes a number of `more` + 1 digits from `low` to `high`, and gives it and the bytes behind it. A digit that no
/// number within the limits has there is a fault at that digit.
pub fn digits(bytes: &[u8], more: u32, low: u64, high: u64) -> Result<(u64, &[u8]), Unread>
    requires few { more ≤ 6 }
    requires order { low ≤ high }
    requires short { high < 10 ^ suc more }
    ensures reading { Reads (λ x. (x.0, x.1.now)) result (digits_at more low high bytes.now) }
    ensures value { IfOk result (λ x. IsFrom low high x.0) }
{
    digits_one_by_one(bytes, more, low, high)
}

/// Takes `text`, and the digits behind it as `digits` does.
#[tactic(auto, unfolding(crate::specs::Digits::digits_after))]
pub fn digits_behind<'a>(
    bytes: &'a [u8],
    text: &[u8],
    more: u32,
    low: u64,
    high: u64,
) -> Result<(u64, &'a [u8]), Unread>
    requires few { more ≤ 6 }
    requires order { low ≤ high }
    requires short { high < 10 ^ suc more }
    ensures reading { Reads (λ x. (x.0, x.1.now)) result (digits_after text.now more low high bytes.now) }
    ensures value { IfOk result (λ x. IsFrom low high x.0) }
{
    let rest = literal(bytes, text)?;
    digits(rest, more, low, high)
}
