//! Texts that a header can carry.

ghost use Rattle.std.specs.Prelude.{◌≡◌, ◌-◌, ◌||◌, true, if◌then◌else◌, IfOk, Some, None, bytes_eq, length};
ghost use Rattle.std.specs.Prelude.{slice_index};
ghost use Rattle.std.specs.List.{list_all};
ghost use Rattle.sx_names.specs.Header.{is_header_text, is_content_text, is_header_byte, is_blank};

use crate::part::as_text;
use std::marker::Model;
use sx_base::{Items, NoMemory};

/// The most bytes that the value of a content header has.
pub const MAX_CONTENT_BYTES: usize = 1024;

/// A text that a header can carry: UTF-8 without a byte below 32 but the tab, without a byte 127, and without a space
/// or tab at an end. It may be empty.
#[derive(Debug, Drop, PartialEq)]
pub struct HeaderText {
    bytes: Items<u8>,
}

impl Model for HeaderText {
    ghost use Rattle.std.specs.Prelude.{◌≡◌, List, ℕ, true};
    ghost use Rattle.sx_names.specs.Header.{is_header_text};

    ghost Value = { List ℕ };

    ghost view = { λ t. t.bytes };

    ghost invariant = { λ t. is_header_text t.bytes ≡ true };

    ghost inverse = { λ bs. record { bytes = bs } };
}

impl HeaderText {
    /// The text of these bytes, where a header can carry it. It takes no memory.
    pub fn of(bytes: Items<u8>) -> Option<HeaderText>
        ensures { result ≡ (if is_header_text bytes then Some bytes else None) }
    {
        if !is_header_text(bytes.as_slice()) {
            return None;
        }
        Some(HeaderText { bytes })
    }

    /// An equal text of its own.
    pub fn copy(&self) -> Result<HeaderText, NoMemory>
        ensures { IfOk result (λ t. t ≡ self.now) }
    {
        let bytes = self.bytes.copy()?;
        Ok(HeaderText { bytes })
    }

    /// The text's bytes.
    pub fn bytes(&self) -> &[u8]
        ensures value { result.now ≡ self.now }
        ensures text { is_header_text self.now ≡ true }
    {
        self.bytes.as_slice()
    }

    /// Whether both are the same bytes.
    pub fn same(&self, other: &HeaderText) -> bool
        ensures { result ≡ bytes_eq self.now other.now }
    {
        self.bytes.same(&other.bytes)
    }
}

/// The value of a content header, as it is kept with a file: a text that a header can carry, of at most 1,024 bytes.
#[derive(Debug, Drop, PartialEq)]
pub struct ContentText {
    text: HeaderText,
}

impl Model for ContentText {
    ghost use Rattle.std.specs.Prelude.{◌≡◌, List, ℕ, true};
    ghost use Rattle.sx_names.specs.Header.{is_content_text};

    ghost Value = { List ℕ };

    ghost view = { λ t. t.text };

    ghost invariant = { λ t. is_content_text t.text ≡ true };

    ghost inverse = { λ bs. record { text = bs } };
}

impl ContentText {
    /// The text of these bytes, where it is a content header's. It takes no memory.
    pub fn of(bytes: Items<u8>) -> Option<ContentText>
        ensures { result ≡ (if is_content_text bytes then Some bytes else None) }
    {
        if MAX_CONTENT_BYTES < bytes.len() {
            return None;
        }
        match HeaderText::of(bytes) {
            Some(text) => Some(ContentText { text }),
            None => None,
        }
    }

    /// An equal text of its own.
    pub fn copy(&self) -> Result<ContentText, NoMemory>
        ensures { IfOk result (λ t. t ≡ self.now) }
    {
        let text = self.text.copy()?;
        Ok(ContentText { text })
    }

    /// The text's bytes.
    pub fn bytes(&self) -> &[u8]
        ensures value { result.now ≡ self.now }
        ensures text { is_content_text self.now ≡ true }
    {
        self.text.bytes()
    }

    /// Whether both are the same bytes.
    pub fn same(&self, other: &ContentText) -> bool
        ensures { result ≡ bytes_eq self.now other.now }
    {
        self.text.same(&other.text)
    }
}

#[tactic(auto, unfolding(crate::specs::Header::is_header_text))]
fn is_header_text(bytes: &[u8]) -> bool
    ensures { result ≡ is_header_text bytes.now }
{
    as_text(bytes).is_ok() && all_header_bytes(bytes) && !is_blank_at_an_end(bytes)
}

fn all_header_bytes(bytes: &[u8]) -> bool
    ensures { result ≡ list_all is_header_byte bytes.now }
{
    bytes.iter().all(|b| is_header_byte(*b))
}

fn is_header_byte(byte: u8) -> bool
    ensures { result ≡ is_header_byte byte }
{
    (32 <= byte || byte == 9) && byte != 127
}

fn is_blank_at_an_end(bytes: &[u8]) -> bool
    ensures { result ≡ (is_blank (slice_index bytes.now 0) || is_blank (slice_index bytes.now (length bytes.now - 1))) }
{
    match bytes.last() {
        Some(last) => is_blank(bytes[0]) || is_blank(*last),
        None => false,
    }
}

fn is_blank(byte: u8) -> bool
    ensures { result ≡ is_blank byte }
{
    byte == b' ' || byte == 9
}
