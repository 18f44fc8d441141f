//! Names in percent-encoding (RFC 3986, section 2.1).
ghost use Rattle.std.specs.Prelude.{◌≡◌, ◌++◌, ◌<◌, bytes_eq, IfOk, OnOk};
ghost use Rattle.percent_encoding.specs.Percent.{percent_decode};
ghost use Rattle.sx_listing.specs.Percent.{is_unreserved, upper_digit, percent_byte, percent_text};
ghost use Rattle.sx_lines.specs.Answers.{next_text};
ghost use Rattle.sx_answer_reader.specs.Entries.{decoded_or_star, named_as, name_of, next_named, next_of};
ghost use Rattle.sx_answer_reader.specs.Reading.{Reads};

use crate::answer::Unread;
use percent_encoding::percent_decode;
use std::alloc::{AllocError, Global};
use sx_base::{Items, NoMemory};
use sx_names::Text;

/// Whether a byte is written as it is.
fn is_unreserved(byte: u8) -> bool
    ensures { result ≡ is_unreserved byte }
{
    byte.is_ascii_digit()
        || byte.is_ascii_uppercase()
        || byte.is_ascii_lowercase()
        || byte == b'-'
        || byte == b'_'
        || byte == b'.'
        || byte == b'~'
}

fn upper_digit(number: u8) -> u8
    requires { number < 16 }
    ensures { result ≡ upper_digit number }
{
    if number < 10 {
        b'0' + number
    } else {
        b'A' - 10 + number
    }
}

#[tactic(auto, unfolding(sx_listing::specs::Percent::percent_byte))]
fn put_percent(bytes: &mut Vec<u8>, byte: u8) -> Result<(), NoMemory>
    ensures { OnOk result (bytes.new.items ≡ bytes.old.items ++ percent_byte byte) }
{
    if is_unreserved(byte) {
        bytes.push(byte)?;
        return Ok(());
    }
    let escape = [b'%', upper_digit(byte / 16), upper_digit(byte % 16)];
    bytes.extend_from_slice(&escape)?;
    Ok(())
}

/// Bytes in percent-encoding.
fn percent_text(alloc: Global, plain: &[u8]) -> Result<Vec<u8>, NoMemory>
    ensures { IfOk result (λ bytes. bytes.items ≡ percent_text plain.now) }
{
    let mut bytes = Vec::new(alloc);
    for byte in plain {
        put_percent(&mut bytes, *byte)?;
    }
    Ok(bytes)
}

/// What a word in percent-encoding stands for.
fn decoded(alloc: Global, word: &[u8]) -> Result<Vec<u8>, AllocError>
    ensures { IfOk result (λ name. name.items ≡ percent_decode word.now) }
{
    let mut name = Vec::new(alloc);
    percent_decode(word).append_to(&mut name)?;
    Ok(name)
}

/// Whether a word is how a name is written.
fn is_percent_text(alloc: Global, name: &[u8], word: &[u8]) -> Result<bool, NoMemory>
    ensures { IfOk result (λ same. same ≡ bytes_eq (percent_text name.now) word.now) }
{
    let text = percent_text(alloc, name)?;
    Ok(text.as_slice() == word)
}

/// Bytes as a name, where a word is how it is written.
fn named_as(alloc: Global, bytes: Vec<u8>, word: &[u8]) -> Result<Text, Unread>
    ensures { Reads result (named_as bytes.items word.now) }
{
    let same = is_percent_text(alloc, &bytes, word)?;
    match Text::of(Items::of(bytes)) {
        Some(name) => {
            if same {
                Ok(name)
            } else {
                Err(Unread::NoAnswer)
            }
        }
        None => Err(Unread::NoAnswer),
    }
}

/// The name that a word is how to write.
#[tactic(auto, unfolding(crate::specs::Entries::name_of))]
pub(crate) fn name_of(alloc: Global, word: &[u8]) -> Result<Text, Unread>
    ensures { Reads result (name_of word.now) }
{
    let bytes = decoded(alloc, word)?;
    named_as(alloc, bytes, word)
}

/// What a word stands for, and nothing of `*`.
fn decoded_or_star(alloc: Global, word: &[u8]) -> Result<Vec<u8>, AllocError>
    ensures { IfOk result (λ name. name.items ≡ decoded_or_star word.now) }
{
    if word == b"*".as_slice() {
        Ok(Vec::new(alloc))
    } else {
        decoded(alloc, word)
    }
}

/// Whether a word is how the beginning of the next page is written.
fn is_next_text(alloc: Global, name: &[u8], word: &[u8]) -> Result<bool, NoMemory>
    ensures { IfOk result (λ same. same ≡ bytes_eq (next_text name.now) word.now) }
{
    if name.is_empty() {
        Ok(b"*".as_slice() == word)
    } else {
        is_percent_text(alloc, name, word)
    }
}

/// Bytes as the name in which the next page begins, where a word is how it is written.
fn next_named(alloc: Global, bytes: Vec<u8>, word: &[u8]) -> Result<Text, Unread>
    ensures { Reads result (next_named bytes.items word.now) }
{
    let same = is_next_text(alloc, &bytes, word)?;
    match Text::of(Items::of(bytes)) {
        Some(name) => {
            if same {
                Ok(name)
            } else {
                Err(Unread::NoAnswer)
            }
        }
        None => Err(Unread::NoAnswer),
    }
}

/// The name in which the next page begins, which is empty at the end.
#[tactic(auto, unfolding(crate::specs::Entries::next_of))]
pub(crate) fn next_of(alloc: Global, word: &[u8]) -> Result<Text, Unread>
    ensures { Reads result (next_of word.now) }
{
    let bytes = decoded_or_star(alloc, word)?;
    next_named(alloc, bytes, word)
}
