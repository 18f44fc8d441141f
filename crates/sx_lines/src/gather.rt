//! Gathering the texts of an answer on the stack, so that it is put at once.
ghost use Rattle.std.specs.Prelude.{◌≡◌, ◌<◌, ◌∷◌, []};
ghost use Rattle.std.specs.List.{flat_map};
ghost use Rattle.hex.specs.Hex.{encode_lower};
ghost use Rattle.sx_base.specs.Sink.{Prints};
ghost use Rattle.sx_base.specs.Printer.{Gathers};
ghost use Rattle.sx_listing.specs.Percent.{percent_byte, is_unreserved, upper_digit};
ghost use Rattle.sx_lines.specs.Printed.{word_text};

use itoa::Buffer;
use sx_base::{Failed, Sink};
use sx_reply::{Gathered, gather_bytes, put_gathered};

/// A part of an answer.
#[derive(Clone, Copy)]
pub(crate) enum Word<'a> {
    /// Bytes as they stand.
    Text(&'a [u8]),
    /// A number in decimal digits without leading zeros.
    Number(u64),
    /// Bytes in lower-case hexadecimal digits, two each.
    Hex(&'a [u8]),
    /// Bytes in percent-encoding.
    Percent(&'a [u8]),
}

/// Writes the texts of words one behind another, or a prefix of them where the sink fails.
pub(crate) fn print_words<K: Sink>(sink: &mut K, words: &[Word]) -> Result<(), Failed>
    ensures { Prints K.wrote K.write_count K.puts sink.old sink.new (flat_map word_text words.now) result }
{
    let mut gathered = Gathered::new();
    match gather(sink, &mut gathered, words) {
        Ok(()) => put_gathered(sink, &mut gathered),
        Err(failed) => Err(failed),
    }
}

/// Gathers the texts of words one behind another.
pub(crate) fn gather<K: Sink>(
    sink: &mut K,
    gathered: &mut Gathered,
    words: &[Word],
) -> Result<(), Failed>
    ensures { Gathers K.wrote K.write_count K.puts sink.old sink.new gathered.old.items gathered.new.items
        (flat_map word_text words.now) result }
{
    for word in words {
        match gather_word(sink, gathered, word) {
            Ok(()) => {}
            Err(failed) => return Err(failed),
        }
    }
    Ok(())
}

/// Gathers the text of a word.
fn gather_word<K: Sink>(sink: &mut K, gathered: &mut Gathered, word: &Word) -> Result<(), Failed>
    ensures { Gathers K.wrote K.write_count K.puts sink.old sink.new gathered.old.items gathered.new.items
        (word_text word.now) result }
{
    match *word {
        Word::Text(bytes) => gather_bytes(sink, gathered, bytes),
        Word::Number(number) => {
            let mut buffer = Buffer::new();
            gather_bytes(sink, gathered, buffer.format(number).as_bytes())
        }
        Word::Hex(bytes) => gather_hex(sink, gathered, bytes),
        Word::Percent(bytes) => gather_percent(sink, gathered, bytes),
    }
}

/// Gathers bytes in hexadecimal digits.
pub(crate) fn gather_hex<K: Sink>(
    sink: &mut K,
    gathered: &mut Gathered,
    bytes: &[u8],
) -> Result<(), Failed>
    ensures { Gathers K.wrote K.write_count K.puts sink.old sink.new gathered.old.items gathered.new.items
        (encode_lower bytes.now) result }
{
    for byte in bytes {
        let digits = digits_of(*byte);
        match gather_bytes(sink, gathered, &digits) {
            Ok(()) => {}
            Err(failed) => return Err(failed),
        }
    }
    Ok(())
}

/// The two hexadecimal digits of a byte.
fn digits_of(byte: u8) -> [u8; 2]
    ensures { result ≡ encode_lower (byte ∷ []) }
{
    let mut digits = [0u8; 2];
    match hex::encode_to_slice([byte], &mut digits) {
        Ok(()) => digits,
        Err(_) => unreachable!(),
    }
}

/// Gathers bytes in percent-encoding.
fn gather_percent<K: Sink>(
    sink: &mut K,
    gathered: &mut Gathered,
    bytes: &[u8],
) -> Result<(), Failed>
    ensures { Gathers K.wrote K.write_count K.puts sink.old sink.new gathered.old.items gathered.new.items
        (flat_map percent_byte bytes.now) result }
{
    for byte in bytes {
        match gather_escape(sink, gathered, *byte) {
            Ok(()) => {}
            Err(failed) => return Err(failed),
        }
    }
    Ok(())
}

/// Gathers a byte as it is, or its escape.
#[tactic(auto, unfolding(sx_listing::specs::Percent::percent_byte))]
fn gather_escape<K: Sink>(sink: &mut K, gathered: &mut Gathered, byte: u8) -> Result<(), Failed>
    ensures { Gathers K.wrote K.write_count K.puts sink.old sink.new gathered.old.items gathered.new.items
        (percent_byte byte) result }
{
    if is_unreserved(byte) {
        gather_bytes(sink, gathered, &[byte])
    } else {
        gather_bytes(
            sink,
            gathered,
            &[b'%', upper_digit(byte / 16), upper_digit(byte % 16)],
        )
    }
}

/// Whether a byte is written as it is.
fn is_unreserved(byte: u8) -> bool
    ensures { result ≡ is_unreserved byte }
{
    byte.is_ascii_digit()
        || byte.is_ascii_uppercase()
        || byte.is_ascii_lowercase()
        || byte == b'-'
        || byte == b'_'
        || byte == b'.'
        || byte == b'~'
}

fn upper_digit(number: u8) -> u8
    requires { number < 16 }
    ensures { result ≡ upper_digit number }
{
    if number < 10 {
        b'0' + number
    } else {
        b'A' - 10 + number
    }
}
