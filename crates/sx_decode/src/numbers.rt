//! Numbers of 1 to 20 decimal digits, and their limits.

ghost use Rattle.std.specs.Prelude.{◌≡◌, ◌≤◌, true, length, IfOk};
ghost use Rattle.std.specs.List.{list_all};
ghost use Rattle.std.specs.Char.{is_ascii_digit};
ghost use Rattle.std.specs.Str.Parse.{digits_value};
ghost use Rattle.sx_decode.specs.Reading.{Reads};
ghost use Rattle.sx_decode.specs.Numbers.{number_of, limited};

use crate::refusals::{refuse_header, refuse_range};
use crate::unread::Unread;
use std::alloc::Global;

/// The number that 1 to 20 decimal digits spell.
#[tactic(auto, unfolding(crate::specs::Numbers::number_of))]
pub fn number_of(text: &[u8]) -> Option<u128>
    ensures { result ≡ number_of text.now }
{
    if text.is_empty() || text.len() > 20 || !are_digits(text) {
        return None;
    }
    Some(value_of(text))
}

fn are_digits(text: &[u8]) -> bool
    ensures { result ≡ list_all is_ascii_digit text.now }
{
    text.iter().all(|b| b.is_ascii_digit())
}

fn value_of(text: &[u8]) -> u128
    requires short { length text.now ≤ 20 }
    requires digits { list_all is_ascii_digit text.now ≡ true }
    ensures { result ≡ digits_value 10 text.now }
{
    let mut value: u128 = 0;
    for b in text {
        value = value * 10 + (*b - 48) as u128;
    }
    value
}

/// A number of a header, between two limits.
#[tactic(auto, unfolding(crate::specs::Numbers::limited))]
pub fn limited(
    alloc: Global,
    name: &str,
    least: u64,
    most: u64,
    number: Option<u128>,
) -> Result<u64, Unread>
    ensures read { Reads result (limited name.now least most number) }
    ensures low { IfOk result (λ n. least ≤ n) }
    ensures high { IfOk result (λ n. n ≤ most) }
{
    match number {
        None => refuse_header(alloc, name),
        Some(n) => {
            if least as u128 <= n && n <= most as u128 {
                Ok(n as u64)
            } else {
                refuse_range(alloc, name)
            }
        }
    }
}
