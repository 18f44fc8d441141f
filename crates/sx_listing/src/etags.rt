//! ETags in bodies.

ghost use Rattle.std.specs.Prelude.{◌≡◌, ◌++◌, ◌%◌, OnOk};
ghost use Rattle.sx_text.specs.Hex.{hex_digit, hex_text};

use sx_base::NoMemory;
use sx_names::Text;

/// Puts the 16 hexadecimal digits of an ETag behind a text.
pub(crate) fn append_etag(text: &mut Text, etag: u64) -> Result<(), NoMemory>
    ensures { OnOk result (text.new ≡ text.old ++ hex_text 16 etag) }
{
    let bytes = etag_digits(etag);
    match std::str::from_utf8(&bytes) {
        Ok(shown) => text.append(shown),
        Err(_) => unreachable!(),
    }
}

/// The 16 hexadecimal digits of an ETag, their letters in upper case.
fn etag_digits(etag: u64) -> [u8; 16]
    ensures { result ≡ hex_text 16 etag }
{
    [
        hex_digit(etag / 16 / 16 / 16 / 16 / 16 / 16 / 16 / 16 / 16 / 16 / 16 / 16 / 16 / 16 / 16),
        hex_digit(etag / 16 / 16 / 16 / 16 / 16 / 16 / 16 / 16 / 16 / 16 / 16 / 16 / 16 / 16),
        hex_digit(etag / 16 / 16 / 16 / 16 / 16 / 16 / 16 / 16 / 16 / 16 / 16 / 16 / 16),
        hex_digit(etag / 16 / 16 / 16 / 16 / 16 / 16 / 16 / 16 / 16 / 16 / 16 / 16),
        hex_digit(etag / 16 / 16 / 16 / 16 / 16 / 16 / 16 / 16 / 16 / 16 / 16),
        hex_digit(etag / 16 / 16 / 16 / 16 / 16 / 16 / 16 / 16 / 16 / 16),
        hex_digit(etag / 16 / 16 / 16 / 16 / 16 / 16 / 16 / 16 / 16),
        hex_digit(etag / 16 / 16 / 16 / 16 / 16 / 16 / 16 / 16),
        hex_digit(etag / 16 / 16 / 16 / 16 / 16 / 16 / 16),
        hex_digit(etag / 16 / 16 / 16 / 16 / 16 / 16),
        hex_digit(etag / 16 / 16 / 16 / 16 / 16),
        hex_digit(etag / 16 / 16 / 16 / 16),
        hex_digit(etag / 16 / 16 / 16),
        hex_digit(etag / 16 / 16),
        hex_digit(etag / 16),
        hex_digit(etag),
    ]
}

/// The last hexadecimal digit of a number, its letters in upper case.
fn hex_digit(number: u64) -> u8
    ensures { result ≡ hex_digit (number % 16) }
{
    let digit = (number % 16) as u8;
    if digit < 10 {
        b'0' + digit
    } else {
        b'A' - 10 + digit
    }
}
