//! Texts in bodies: `&`, `<` and `>` are escaped.

ghost use Rattle.std.specs.Prelude.{◌≡◌, ◌++◌, OnOk, IfOk};
ghost use Rattle.sx_text.specs.Escapes.{escape, escaped, IsWhole};

use std::alloc::Global;
use sx_base::{Items, NoMemory};
use sx_names::Text;

/// Puts a text with its escapes behind another.
pub(crate) fn append_escaped(alloc: Global, text: &mut Text, plain: &Text) -> Result<(), NoMemory>
    ensures { OnOk result (text.new ≡ text.old ++ escaped plain.now) }
{
    let bytes = escaped_bytes(alloc, plain.bytes())?;
    match std::str::from_utf8(&bytes) {
        Ok(escaped) => text.append(escaped),
        Err(_) => unreachable!(),
    }
}

/// The bytes of a text with its escapes.
fn escaped_bytes(alloc: Global, plain: &[u8]) -> Result<Vec<u8>, NoMemory>
    ensures { IfOk result (λ bytes. bytes.items ≡ escaped plain.now) }
{
    let mut bytes = Vec::new(alloc);
    for byte in plain {
        bytes.extend_from_slice(escape_of(byte))?;
    }
    Ok(bytes)
}

/// A byte, or its escape.
fn escape_of(byte: &u8) -> &[u8]
    ensures { result.now ≡ escape byte.now }
{
    match *byte {
        b'&' => b"&amp;",
        b'<' => b"&lt;",
        b'>' => b"&gt;",
        _ => std::slice::from_ref(byte),
    }
}

/// The text of bytes that are whole characters.
pub(crate) fn text_of(bytes: Vec<u8>) -> Text
    requires { IsWhole bytes.items }
    ensures { result ≡ bytes.items }
{
    match Text::of(Items::of(bytes)) {
        Some(text) => text,
        None => unreachable!(),
    }
}
