//! Bytes as the hexadecimal digits of a word.
ghost use Rattle.std.specs.Prelude.{◌≡◌, bytes_eq, IfOk};
ghost use Rattle.sx_lines.specs.Fields.{hex_bytes_of};
ghost use Rattle.sx_answer_reader.specs.Answers.{hex_text};
ghost use Rattle.sx_lines.specs.Words.{next_word};
ghost use Rattle.sx_answer_reader.specs.Words.{digits_or_dash, written_as, bytes_of};
ghost use Rattle.sx_answer_reader.specs.Reading.{Reads};

use crate::answer::Unread;
use crate::words::next_word;
use hex::FromHexError;
use std::alloc::{AllocError, Global};
use sx_base::Items;

/// The bytes of hexadecimal digits in either case.
fn hex_bytes_of(alloc: Global, word: &[u8]) -> Result<Items<u8>, Unread>
    ensures { Reads result (hex_bytes_of word.now) }
{
    match hex::decode(alloc, word) {
        Ok(bytes) => Ok(Items::of(bytes)),
        Err(FromHexError::OutOfMemory) => Err(Unread::NoMemory),
        Err(_) => Err(Unread::NoAnswer),
    }
}

/// The same, and none of `-`.
fn digits_or_dash(alloc: Global, word: &[u8]) -> Result<Items<u8>, Unread>
    ensures { Reads result (digits_or_dash word.now) }
{
    if word == b"-".as_slice() {
        Ok(Items::new(alloc))
    } else {
        hex_bytes_of(alloc, word)
    }
}

/// Whether a word is how these bytes are written.
fn is_hex_text(alloc: Global, bytes: &[u8], word: &[u8]) -> Result<bool, AllocError>
    ensures { IfOk result (λ same. same ≡ bytes_eq (hex_text bytes.now) word.now) }
{
    if bytes.is_empty() {
        return Ok(b"-".as_slice() == word);
    }
    let text = hex::encode(alloc, bytes)?;
    Ok(text.as_bytes() == word)
}

/// Bytes, where a word is how they are written.
fn written_as(alloc: Global, bytes: Items<u8>, word: &[u8]) -> Result<Items<u8>, Unread>
    ensures { Reads result (written_as bytes word.now) }
{
    if is_hex_text(alloc, bytes.as_slice(), word)? {
        Ok(bytes)
    } else {
        Err(Unread::NoAnswer)
    }
}

/// The bytes of a word in lower-case hexadecimal digits.
#[tactic(auto, unfolding(crate::specs::Words::bytes_of))]
fn bytes_of(alloc: Global, word: &[u8]) -> Result<Items<u8>, Unread>
    ensures { Reads result (bytes_of word.now) }
{
    let bytes = digits_or_dash(alloc, word)?;
    written_as(alloc, bytes, word)
}

/// The bytes of the next word.
pub(crate) fn bytes_in(alloc: Global, behind: &[u8]) -> Result<Items<u8>, Unread>
    ensures { Reads result (bytes_of (next_word behind.now)) }
{
    bytes_of(alloc, next_word(behind))
}
