//! Values as headers show them.
ghost use Rattle.std.specs.Prelude.{◌≡◌, ◌%◌};
ghost use Rattle.sx_listing.specs.Percent.{upper_digit};
ghost use Rattle.sx_reply.specs.Values.{upper_hex, uuid_text, text_if};

use uuid::Uuid;

/// A hexadecimal digit, its letters in upper case.
fn upper_digit(number: u64) -> u8
    ensures { result ≡ upper_digit (number % 16) }
{
    let digit = (number % 16) as u8;
    if digit < 10 {
        b'0' + digit
    } else {
        b'A' - 10 + digit
    }
}

/// The 16 hexadecimal digits of an ETag, in upper case.
pub(crate) fn tag_digits(tag: u64) -> [u8; 16]
    ensures { result ≡ upper_hex 16 tag }
{
    [
        upper_digit(tag / 16 / 16 / 16 / 16 / 16 / 16 / 16 / 16 / 16 / 16 / 16 / 16 / 16 / 16 / 16),
        upper_digit(tag / 16 / 16 / 16 / 16 / 16 / 16 / 16 / 16 / 16 / 16 / 16 / 16 / 16 / 16),
        upper_digit(tag / 16 / 16 / 16 / 16 / 16 / 16 / 16 / 16 / 16 / 16 / 16 / 16 / 16),
        upper_digit(tag / 16 / 16 / 16 / 16 / 16 / 16 / 16 / 16 / 16 / 16 / 16 / 16),
        upper_digit(tag / 16 / 16 / 16 / 16 / 16 / 16 / 16 / 16 / 16 / 16 / 16),
        upper_digit(tag / 16 / 16 / 16 / 16 / 16 / 16 / 16 / 16 / 16 / 16),
        upper_digit(tag / 16 / 16 / 16 / 16 / 16 / 16 / 16 / 16 / 16),
        upper_digit(tag / 16 / 16 / 16 / 16 / 16 / 16 / 16 / 16),
        upper_digit(tag / 16 / 16 / 16 / 16 / 16 / 16 / 16),
        upper_digit(tag / 16 / 16 / 16 / 16 / 16 / 16),
        upper_digit(tag / 16 / 16 / 16 / 16 / 16),
        upper_digit(tag / 16 / 16 / 16 / 16),
        upper_digit(tag / 16 / 16 / 16),
        upper_digit(tag / 16 / 16),
        upper_digit(tag / 16),
        upper_digit(tag),
    ]
}

/// A number as a UUID, in lower-case digits with hyphens.
#[tactic(auto, unfolding(crate::specs::Values::uuid_text))]
pub(crate) fn uuid_digits(number: u128, buffer: &mut [u8; 36]) -> &[u8]
    ensures { result.now ≡ uuid_text number }
{
    Uuid::from_u128(number)
        .hyphenated()
        .encode_lower(buffer)
        .as_bytes()
}

/// A text, where a condition holds.
pub(crate) fn text_if(condition: bool, text: &'static [u8]) -> &'static [u8]
    ensures { result.now ≡ text_if condition text.now }
{
    if condition { text } else { b"" }
}
