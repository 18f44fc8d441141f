//! Texts that contracts see as the list of their bytes.

ghost use Rattle.std.specs.Prelude.{◌≡◌, ◌++◌, [], true, if◌then◌else◌, IfOk, OnOk, OnErr, Some, None, bytes_eq};
ghost use Rattle.std.specs.Fmt.{decimal};
ghost use Rattle.std.specs.Str.{is_utf8};
ghost use Rattle.sx_names.specs.Names.{fold};

use crate::part::as_text;
use itoa::Buffer;
use std::alloc::Global;
use std::marker::Model;
use sx_base::{Items, NoMemory};

/// A list of bytes that are UTF-8.
#[derive(Debug, Drop, PartialEq)]
pub struct Text {
    bytes: Items<u8>,
}

impl Model for Text {
    ghost use Rattle.std.specs.Prelude.{◌≡◌, List, ℕ, true};
    ghost use Rattle.std.specs.Str.{is_utf8};

    ghost Value = { List ℕ };

    ghost view = { λ t. t.bytes };

    ghost invariant = { λ t. is_utf8 t.bytes ≡ true };

    ghost inverse = { λ bs. record { bytes = bs } };
}

impl Text {
    /// The empty text. It takes no memory, and keeps the allocator for what is appended.
    pub fn new(alloc: Global) -> Text
        ensures { result ≡ [] }
    {
        Text {
            bytes: Items::new(alloc),
        }
    }

    /// The text of these bytes, where they are UTF-8. It takes no memory.
    pub fn of(bytes: Items<u8>) -> Option<Text>
        ensures { result ≡ (if is_utf8 bytes then Some bytes else None) }
    {
        if !is_utf8(bytes.as_slice()) {
            return None;
        }
        Some(Text { bytes })
    }

    /// A copy of a text.
    pub fn copy_of(alloc: Global, text: &str) -> Result<Text, NoMemory>
        ensures { IfOk result (λ t. t ≡ text.now) }
    {
        let bytes = Items::copy_of(alloc, text.as_bytes())?;
        Ok(Text { bytes })
    }

    /// An equal text of its own.
    pub fn copy(&self) -> Result<Text, NoMemory>
        ensures { IfOk result (λ t. t ≡ self.now) }
    {
        let bytes = self.bytes.copy()?;
        Ok(Text { bytes })
    }

    /// The full case folding of the text, as names are compared by it.
    pub fn folded(&self) -> Result<Text, NoMemory>
        ensures { IfOk result (λ t. (t ≡ fold self.now) × (is_utf8 (fold self.now) ≡ true)) }
    {
        let bytes = folded_text(self.bytes.allocator(), self.as_str())?;
        Ok(Text { bytes })
    }

    /// Puts a text behind this one.
    pub fn append(&mut self, text: &str) -> Result<(), NoMemory>
        ensures ok { OnOk result (self.new ≡ self.old ++ text.now) }
        ensures err { OnErr result (self.new ≡ self.old) }
    {
        self.bytes.append(text.as_bytes())
    }

    /// Puts a number in decimal digits without leading zeros behind the text.
    pub fn append_decimal(&mut self, number: u64) -> Result<(), NoMemory>
        ensures ok { OnOk result (self.new ≡ self.old ++ decimal number) }
        ensures err { OnErr result (self.new ≡ self.old) }
    {
        let mut buffer = Buffer::new();
        self.append(buffer.format(number))
    }

    /// The text's bytes.
    pub fn bytes(&self) -> &[u8]
        ensures value { result.now ≡ self.now }
        ensures utf8 { is_utf8 self.now ≡ true }
    {
        self.bytes.as_slice()
    }

    /// The text's bytes as the vector that holds them. It takes no memory.
    pub fn into_vec(self) -> Vec<u8>
        ensures value { result.items ≡ self }
        ensures utf8 { is_utf8 self ≡ true }
    {
        self.bytes.into_vec()
    }

    /// The text.
    pub fn as_str(&self) -> &str
        ensures { result.now ≡ self.now }
    {
        match as_text(self.bytes.as_slice()) {
            Ok(text) => text,
            Err(_) => unreachable!(),
        }
    }

    /// Whether both are the same bytes.
    pub fn same(&self, other: &Text) -> bool
        ensures { result ≡ bytes_eq self.now other.now }
    {
        self.bytes.same(&other.bytes)
    }
}

/// The bytes of a text's full case folding.
#[tactic(auto, unfolding(crate::specs::Names::fold))]
pub(crate) fn folded_text(alloc: Global, text: &str) -> Result<Items<u8>, NoMemory>
    ensures { IfOk result (λ bytes. (bytes ≡ fold text.now) × (is_utf8 bytes ≡ true)) }
{
    let folded = caseless::default_case_fold_str(alloc, text)?;
    Ok(Items::of(folded.into_bytes()))
}

fn is_utf8(bytes: &[u8]) -> bool
    ensures { result ≡ is_utf8 bytes.now }
{
    as_text(bytes).is_ok()
}
