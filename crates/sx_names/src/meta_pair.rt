//! A name of metadata with its value.

ghost use Rattle.std.specs.Prelude.{◌≡◌, ◌≤◌, true, if◌then◌else◌, IfOk, Some, None, bytes_eq, length};
ghost use Rattle.std.specs.List.{list_all};
ghost use Rattle.sx_names.specs.MetaPair.{is_meta_name, is_meta_byte, is_digit_byte};

use crate::header::HeaderText;
use std::marker::Model;
use sx_base::{Items, NoMemory};

/// The most bytes that a name of metadata has.
pub const MAX_META_NAME_BYTES: usize = 128;

/// The name of a metadata value: 1 to 128 lower-case letters, digits and underscores, the first of them no digit.
#[derive(Debug, Drop, PartialEq)]
pub struct MetaName {
    bytes: Items<u8>,
}

impl Model for MetaName {
    ghost use Rattle.std.specs.Prelude.{◌≡◌, List, ℕ, true};
    ghost use Rattle.sx_names.specs.MetaPair.{is_meta_name};

    ghost Value = { List ℕ };

    ghost view = { λ n. n.bytes };

    ghost invariant = { λ n. is_meta_name n.bytes ≡ true };

    ghost inverse = { λ bs. record { bytes = bs } };
}

impl MetaName {
    /// The name that these bytes are, where they are one. It takes no memory.
    pub fn of(bytes: Items<u8>) -> Option<MetaName>
        ensures { result ≡ (if is_meta_name bytes then Some bytes else None) }
    {
        if !is_meta_name(bytes.as_slice()) {
            return None;
        }
        Some(MetaName { bytes })
    }

    /// An equal name of its own.
    pub fn copy(&self) -> Result<MetaName, NoMemory>
        ensures { IfOk result (λ n. n ≡ self.now) }
    {
        let bytes = self.bytes.copy()?;
        Ok(MetaName { bytes })
    }

    /// The name's bytes.
    #[tactic(auto, unfolding(crate::specs::MetaPair::is_meta_name))]
    pub fn bytes(&self) -> &[u8]
        ensures value { result.now ≡ self.now }
        ensures name { is_meta_name self.now ≡ true }
        ensures short { length self.now ≤ 128 }
    {
        self.bytes.as_slice()
    }

    /// Whether both are the same name.
    pub fn same(&self, other: &MetaName) -> bool
        ensures { result ≡ bytes_eq self.now other.now }
    {
        self.bytes.same(&other.bytes)
    }
}

#[tactic(auto, unfolding(crate::specs::MetaPair::is_meta_name))]
fn is_meta_name(name: &[u8]) -> bool
    ensures { result ≡ is_meta_name name.now }
{
    1 <= name.len()
        && name.len() <= MAX_META_NAME_BYTES
        && all_meta_bytes(name)
        && !is_digit(name[0])
}

fn all_meta_bytes(name: &[u8]) -> bool
    ensures { result ≡ list_all is_meta_byte name.now }
{
    name.iter().all(|b| is_meta_byte(*b))
}

fn is_meta_byte(byte: u8) -> bool
    ensures { result ≡ is_meta_byte byte }
{
    (97 <= byte && byte <= 122) || is_digit(byte) || byte == b'_'
}

fn is_digit(byte: u8) -> bool
    ensures { result ≡ is_digit_byte byte }
{
    48 <= byte && byte <= 57
}

/// A name of metadata with its value.
#[derive(Debug, Drop, PartialEq)]
pub struct MetaPair {
    /// The name.
    pub name: MetaName,
    /// The value.
    pub value: HeaderText,
}

impl MetaPair {
    /// An equal pair of its own.
    pub fn copy(&self) -> Result<MetaPair, NoMemory>
        ensures { IfOk result (λ p. p ≡ self.now) }
    {
        Ok(MetaPair {
            name: self.name.copy()?,
            value: self.value.copy()?,
        })
    }
}
