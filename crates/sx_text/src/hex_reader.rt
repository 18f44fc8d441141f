//! Reading a fixed number of hexadecimal digits, with the place of their fault.
ghost use Rattle.std.specs.Prelude.{◌≡◌, ◌<◌, ◌≤◌, true};
ghost use Rattle.sx_text.specs.Hex.{is_hex_digit, hex_value, hex_step, hex_at, hex_after};
ghost use Rattle.sx_text.specs.Given.{Reads};
ghost use Rattle.sx_text.specs.Steps.{digits_shown, HasRoom, LeavesRoom};

use crate::digit::Digit;
use crate::fault::Unread;
use crate::literal_reader::literal;

fn is_digit(byte: u8) -> bool
    ensures { result ≡ is_hex_digit byte }
{
    (b'0' <= byte && byte <= b'9') || (b'A' <= byte && byte <= b'F')
}

/// What the digit of this code is worth.
#[tactic(auto, using(crate::proofs::HexDigits::hex_value_below))]
fn value_of(byte: u8) -> u64
    requires { is_hex_digit byte ≡ true }
    ensures value { result ≡ hex_value byte }
    ensures below { result < 16 }
{
    if byte < b'A' {
        (byte - b'0') as u64
    } else {
        (byte - (b'A' - 10)) as u64
    }
}

#[tactic(auto, using(crate::proofs::HexDigits::room_is_small, crate::proofs::HexDigits::room_goes))]
fn digit_of(more: u32, so_far: u64, byte: u8) -> Digit
    requires { HasRoom more so_far }
    ensures room { LeavesRoom more result }
    ensures step { digits_shown more result ≡ hex_step (more, so_far) byte }
{
    if !is_digit(byte) {
        return Digit::Wrong;
    }
    let value = so_far * 16 + value_of(byte);
    if more == 0 {
        Digit::Last(value)
    } else {
        Digit::More(value)
    }
}

/// Takes a number of `more` + 1 hexadecimal digits, their letters in upper case, and gives it and the bytes behind it.
/// Any other byte is a fault at its place.
#[tactic(auto, unfolding(crate::specs::Hex::hex_at), using(crate::proofs::HexDigits::room_at_first))]
pub fn hex_digits(bytes: &[u8], more: u32) -> Result<(u64, &[u8]), Unread>
    requires { more ≤ 15 }
    ensures { Reads (λ x. (x.0, x.1.now)) result (hex_at more bytes.now) }
{
    let mut rest = bytes;
    let mut left = more;
    let mut so_far = 0;
    for byte in bytes {
        rest = &rest[1..];
        match digit_of(left, so_far, *byte) {
            Digit::Last(value) => return Ok((value, rest)),
            Digit::More(value) => {
                so_far = value;
                left -= 1;
            }
            Digit::Wrong => return Err(Unread {
                left: rest.len() + 1,
            }),
        }
    }
    Err(Unread { left: 0 })
}

/// Takes `text`, and the digits behind it as `hex_digits` does.
#[tactic(auto, unfolding(crate::specs::Hex::hex_after))]
pub fn hex_digits_behind<'a>(
    bytes: &'a [u8],
    text: &[u8],
    more: u32,
) -> Result<(u64, &'a [u8]), Unread>
    requires { more ≤ 15 }
    ensures { Reads (λ x. (x.0, x.1.now)) result (hex_after text.now more bytes.now) }
{
    let rest = literal(bytes, text)?;
    hex_digits(rest, more)
}
