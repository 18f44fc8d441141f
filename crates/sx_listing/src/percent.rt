//! Markers in bodies: percent-encoding.

ghost use Rattle.std.specs.Prelude.{◌≡◌, ◌++◌, ◌<◌, OnOk, IfOk};
ghost use Rattle.sx_listing.specs.Percent.{is_unreserved, upper_digit, percent_byte, percent_text};

use std::alloc::Global;
use sx_base::NoMemory;
use sx_names::Text;

/// Puts a text in percent-encoding behind another.
pub(crate) fn append_percent(alloc: Global, text: &mut Text, plain: &Text) -> Result<(), NoMemory>
    ensures { OnOk result (text.new ≡ text.old ++ percent_text plain.now) }
{
    append_ascii(alloc, text, plain.bytes())
}

fn append_ascii(alloc: Global, text: &mut Text, plain: &[u8]) -> Result<(), NoMemory>
    ensures { OnOk result (text.new ≡ text.old ++ percent_text plain.now) }
{
    let bytes = percent_bytes(alloc, plain)?;
    match std::str::from_utf8(&bytes) {
        Ok(encoded) => text.append(encoded),
        Err(_) => unreachable!(),
    }
}

/// Bytes in percent-encoding.
fn percent_bytes(alloc: Global, plain: &[u8]) -> Result<Vec<u8>, NoMemory>
    ensures { IfOk result (λ bytes. bytes.items ≡ percent_text plain.now) }
{
    let mut bytes = Vec::new(alloc);
    for byte in plain {
        put_percent(&mut bytes, *byte)?;
    }
    Ok(bytes)
}

#[tactic(auto, unfolding(crate::specs::Percent::percent_byte))]
fn put_percent(bytes: &mut Vec<u8>, byte: u8) -> Result<(), NoMemory>
    ensures { OnOk result (bytes.new.items ≡ bytes.old.items ++ percent_byte byte) }
{
    if is_unreserved(byte) {
        bytes.push(byte)?;
        return Ok(());
    }
    let escape = [b'%', upper_digit(byte / 16), upper_digit(byte % 16)];
    bytes.extend_from_slice(&escape)?;
    Ok(())
}

/// Whether a byte is written as it is.
pub(crate) fn is_unreserved(byte: u8) -> bool
    ensures { result ≡ is_unreserved byte }
{
    byte.is_ascii_digit()
        || byte.is_ascii_uppercase()
        || byte.is_ascii_lowercase()
        || byte == b'-'
        || byte == b'_'
        || byte == b'.'
        || byte == b'~'
}

fn upper_digit(number: u8) -> u8
    requires { number < 16 }
    ensures { result ≡ upper_digit number }
{
    if number < 10 {
        b'0' + number
    } else {
        b'A' - 10 + number
    }
}
