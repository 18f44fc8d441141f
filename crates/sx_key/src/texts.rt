//! Texts in a row, values by name, and pieces of a text.

ghost use Rattle.std.specs.Prelude.{◌≡◌, ◌≤◌, ◌++◌, ◌∷◌, [], ◌==◌, OnOk, map, length, position, true};
ghost use Rattle.std.specs.Str.{is_utf8};
ghost use Rattle.std.specs.List.{flat_map, join_with_byte, before_first, after_first, position_or_len};
ghost use Rattle.sx_key.specs.Signature.{joined_header};

use std::alloc::Global;
use sx_base::{Items, NoMemory};
use sx_http::{Header, header_values};
use sx_names::Text;

/// Adds texts in a row, with a byte between each two.
pub(crate) fn put_joined(out: &mut Vec<u8>, between: u8, texts: &[&[u8]]) -> Result<(), NoMemory>
    ensures { OnOk result (out.new.items ≡ out.old.items ++ join_with_byte between (map (λ t. t.now) texts.now)) }
{
    match texts {
        [] => Ok(()),
        [first, rest @ ..] => {
            out.extend_from_slice(first)?;
            put_behind(out, between, rest)
        }
    }
}

/// Adds texts in a row, with a byte before each.
fn put_behind(out: &mut Vec<u8>, between: u8, texts: &[&[u8]]) -> Result<(), NoMemory>
    ensures { OnOk result (out.new.items ≡ out.old.items ++ flat_map (λ t. between ∷ t) (map (λ t. t.now) texts.now)) }
{
    for text in texts {
        put_one(out, between, text)?;
    }
    Ok(())
}

fn put_one(out: &mut Vec<u8>, between: u8, text: &[u8]) -> Result<(), NoMemory>
    ensures { OnOk result (out.new.items ≡ out.old.items ++ (between ∷ text.now)) }
{
    out.push(between)?;
    out.extend_from_slice(text)?;
    Ok(())
}

/// Adds the values of the headers of a name, joined_text by commas.
pub(crate) fn put_joined_header(
    alloc: Global,
    out: &mut Vec<u8>,
    headers: &[Header],
    name: &[u8],
) -> Result<(), NoMemory>
    ensures { OnOk result (out.new.items ≡ out.old.items ++ joined_header name.now headers.now) }
{
    let values = header_values(alloc, headers, name)?;
    put_joined(out, b',', &values)
}

fn first_place(text: &[u8], byte: u8) -> Option<usize>
    ensures { result ≡ position (λ b. b == byte) text.now }
{
    text.iter().position(|b| *b == byte)
}

/// The place of a byte, or the length where it doesn't stand.
fn place_of(text: &[u8], byte: u8) -> usize
    ensures place { result ≡ position_or_len (λ b. b == byte) text.now }
    ensures within { result ≤ length text.now }
{
    match first_place(text, byte) {
        None => text.len(),
        Some(at) => at,
    }
}

/// What stands before the first such byte, or all.
pub(crate) fn before(text: &[u8], byte: u8) -> &[u8]
    ensures { result.now ≡ before_first (λ b. b == byte) text.now }
{
    &text[..place_of(text, byte)]
}

/// What stands behind the first such byte, or nothing.
pub(crate) fn after(text: &[u8], byte: u8) -> &[u8]
    ensures { result.now ≡ after_first (λ b. b == byte) text.now }
{
    let at = place_of(text, byte);
    if at < text.len() {
        &text[at + 1..]
    } else {
        &text[at..]
    }
}

/// The text of bytes that are UTF-8. It takes no memory.
pub(crate) fn text_of(bytes: Vec<u8>) -> Text
    requires { is_utf8 bytes.items ≡ true }
    ensures { result ≡ bytes.items }
{
    match Text::of(Items::of(bytes)) {
        Some(text) => text,
        None => unreachable!(),
    }
}
