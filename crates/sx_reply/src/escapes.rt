//! Text in the bodies of errors: `&`, `<` and `>` are escaped.
ghost use Rattle.std.specs.Prelude.{◌≡◌, ◌≤◌, ◌*◌, ◌^◌, length};
ghost use Rattle.std.specs.List.{flat_map};
ghost use Rattle.sx_base.specs.Printer.{Gathers};
ghost use Rattle.sx_text.specs.Escapes.{escape, escaped};
ghost use Rattle.sx_reply.specs.Words.{word_text, escaped_word};

use crate::gather::{Gathered, Word, gather_bytes};
use itoa::Buffer;
use sx_base::{Failed, Sink};

/// Gathers the texts of words one behind another, with their escapes.
pub(crate) fn gather_escaped<K: Sink>(
    sink: &mut K,
    gathered: &mut Gathered,
    words: &[Word],
) -> Result<(), Failed>
    ensures { Gathers K.wrote K.write_count K.puts sink.old sink.new gathered.old.items gathered.new.items
        (escaped (flat_map word_text words.now)) result }
{
    gather_escaped_words(sink, gathered, words)
}

/// Gathers a text with its escapes.
pub(crate) fn gather_escaped_text<K: Sink>(
    sink: &mut K,
    gathered: &mut Gathered,
    text: &[u8],
) -> Result<(), Failed>
    ensures { Gathers K.wrote K.write_count K.puts sink.old sink.new gathered.old.items gathered.new.items
        (escaped text.now) result }
{
    gather_escaped_bytes(sink, gathered, text)
}

/// Gathers the texts of words, each with its escapes.
fn gather_escaped_words<K: Sink>(
    sink: &mut K,
    gathered: &mut Gathered,
    words: &[Word],
) -> Result<(), Failed>
    ensures { Gathers K.wrote K.write_count K.puts sink.old sink.new gathered.old.items gathered.new.items
        (flat_map escaped_word words.now) result }
{
    for word in words {
        match gather_escaped_word(sink, gathered, word) {
            Ok(()) => {}
            Err(failed) => return Err(failed),
        }
    }
    Ok(())
}

/// Gathers the text of a word with its escapes.
fn gather_escaped_word<K: Sink>(
    sink: &mut K,
    gathered: &mut Gathered,
    word: &Word,
) -> Result<(), Failed>
    ensures { Gathers K.wrote K.write_count K.puts sink.old sink.new gathered.old.items gathered.new.items
        (escaped_word word.now) result }
{
    match *word {
        Word::Text(bytes) => gather_escaped_bytes(sink, gathered, bytes),
        Word::Number(number) => {
            let mut buffer = Buffer::new();
            gather_escaped_bytes(sink, gathered, buffer.format(number).as_bytes())
        }
    }
}

/// Gathers bytes with their escapes.
fn gather_escaped_bytes<K: Sink>(
    sink: &mut K,
    gathered: &mut Gathered,
    bytes: &[u8],
) -> Result<(), Failed>
    ensures { Gathers K.wrote K.write_count K.puts sink.old sink.new gathered.old.items gathered.new.items
        (flat_map escape bytes.now) result }
{
    for byte in bytes {
        match gather_bytes(sink, gathered, escape_of(byte)) {
            Ok(()) => {}
            Err(failed) => return Err(failed),
        }
    }
    Ok(())
}

/// A byte, or its escape.
fn escape_of(byte: &u8) -> &[u8]
    ensures escape { result.now ≡ escape byte.now }
    ensures short { length (escape byte.now) ≤ 5 }
{
    match *byte {
        b'&' => b"&amp;",
        b'<' => b"&lt;",
        b'>' => b"&gt;",
        _ => std::slice::from_ref(byte),
    }
}

/// How many bytes the texts of a message's words have with their escapes.
pub(crate) fn escaped_length(words: &[Word; 8]) -> u128
    ensures length { result ≡ length (escaped (flat_map word_text words.now)) }
    ensures bound { result ≤ 8 * (5 * 2 ^ 63) }
{
    escaped_words_length(words)
}

/// How many bytes a text has with its escapes.
pub(crate) fn escaped_text_length(text: &[u8]) -> u128
    ensures length { result ≡ length (escaped text.now) }
    ensures bound { result ≤ 5 * 2 ^ 63 }
{
    escaped_bytes_length(text)
}

/// The sum of the words' lengths with their escapes.
fn escaped_words_length(words: &[Word; 8]) -> u128
    ensures length { result ≡ length (flat_map escaped_word words.now) }
    ensures bound { result ≤ 8 * (5 * 2 ^ 63) }
{
    let mut length = 0;
    for word in words {
        length += escaped_word_length(word);
    }
    length
}

/// How many bytes the text of a word has with its escapes.
fn escaped_word_length(word: &Word) -> u128
    ensures length { result ≡ length (escaped_word word.now) }
    ensures bound { result ≤ 5 * 2 ^ 63 }
{
    match *word {
        Word::Text(bytes) => escaped_bytes_length(bytes),
        Word::Number(number) => {
            let mut buffer = Buffer::new();
            escaped_bytes_length(buffer.format(number).as_bytes())
        }
    }
}

/// The sum of the bytes' lengths with their escapes.
fn escaped_bytes_length(bytes: &[u8]) -> u128
    ensures length { result ≡ length (flat_map escape bytes.now) }
    ensures bound { result ≤ 5 * 2 ^ 63 }
{
    let mut length: u128 = 0;
    for byte in bytes {
        length += escape_of(byte).len() as u128;
    }
    length
}
