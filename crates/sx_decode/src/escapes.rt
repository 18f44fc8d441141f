//! Percent-encoded texts (RFC 3986, section 2.1).

ghost use Rattle.std.specs.Prelude.{◌≡◌, IfOk, slice_index};
ghost use Rattle.std.specs.Char.{is_digit};
ghost use Rattle.percent_encoding.specs.Percent.{percent_decode};
ghost use Rattle.sx_decode.specs.Escapes.{is_bad_at, first_bad, if_utf8, decoded_text};

use percent_encoding::percent_decode;
use std::alloc::Global;
use sx_base::Items;
use sx_call::{NoMemory, Text};

fn is_hexadecimal_at(text: &[u8], at: usize) -> bool
    ensures { result ≡ is_digit (slice_index text.now at) 16 }
{
    at < text.len() && text[at].is_ascii_hexdigit()
}

fn is_bad_at(text: &[u8], at: usize) -> bool
    ensures { result ≡ is_bad_at text.now at }
{
    at < text.len()
        && text[at] == b'%'
        && !(is_hexadecimal_at(text, at + 1) && is_hexadecimal_at(text, at + 2))
}

/// The place of the first `%` that two hexadecimal digits don't follow.
pub fn first_bad(text: &[u8]) -> Option<usize>
    ensures { result ≡ first_bad text.now }
{
    (0..text.len()).find(|k| is_bad_at(text, *k))
}

/// What a text encodes. A `%` that begins no escape stays as it is.
pub fn decoded(alloc: Global, text: &[u8]) -> Result<Vec<u8>, NoMemory>
    ensures { IfOk result (λ v. v.items ≡ percent_decode text.now) }
{
    let mut bytes = Vec::new(alloc);
    percent_decode(text).append_to(&mut bytes)?;
    Ok(bytes)
}

/// What a text encodes, where each `%` begins an escape and what it encodes is UTF-8.
#[tactic(auto, unfolding(crate::specs::Escapes::decoded_text))]
pub fn decoded_text(alloc: Global, text: &[u8]) -> Result<Option<Text>, NoMemory>
    ensures { IfOk result (λ t. t ≡ decoded_text text.now) }
{
    if first_bad(text).is_some() {
        return Ok(None);
    }
    let bytes = decoded(alloc, text)?;
    Ok(text_of(bytes))
}

fn text_of(bytes: Vec<u8>) -> Option<Text>
    ensures { result ≡ if_utf8 bytes.items }
{
    Text::of(Items::of(bytes))
}
