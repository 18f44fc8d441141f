//! The name of a share.

ghost use Rattle.std.specs.Prelude.{◌≡◌, ◌<◌, true, is_none, IfOk, IfSome, bytes_eq, length};
ghost use Rattle.std.specs.List.{find, position, range_with_len};
ghost use Rattle.sx_names.specs.Names.{is_share_name, is_lower_or_digit, is_share_byte, is_hyphens_at};
ghost use Rattle.sx_names.specs.Fault.{share_fault, fault_in, is_other_byte};

use crate::fault::{NameFault, NameRule, Unnamed};
use std::alloc::Global;
use std::marker::Model;
use sx_base::{Items, NoMemory};

/// The fewest bytes that the name of a share has.
pub const MIN_SHARE_BYTES: usize = 3;

/// The most bytes that the name of a share has.
pub const MAX_SHARE_BYTES: usize = 63;

/// The name of a share: 3 to 63 lower-case letters, digits and hyphens, with a letter or digit at both ends and no two
/// hyphens in a row ("Naming and referencing shares, directories, files, and metadata" of Azure Files).
#[derive(Debug, Drop)]
pub struct ShareName {
    bytes: Items<u8>,
}

impl Model for ShareName {
    ghost use Rattle.std.specs.Prelude.{◌≡◌, List, ℕ, true};
    ghost use Rattle.sx_names.specs.Names.{is_share_name};

    ghost Value = { List ℕ };

    ghost view = { λ n. n.bytes };

    ghost invariant = { λ n. is_share_name n.bytes ≡ true };
}

impl ShareName {
    /// The first rule that bytes break as the name of a share, or none where they are one. It takes no memory.
    ///
    /// The rules are tried in the order `Short`, `Long`, `Char`, `Edge` and `Hyphens`, and the part is 0. The place
    /// is 0 for `Short`, that of the 64th byte for `Long`, that of the second hyphen for `Hyphens`, and else that of
    /// the first byte that breaks the rule.
    pub fn fault(bytes: &[u8]) -> Option<NameFault>
        ensures fault { result ≡ share_fault bytes.now }
        ensures rules { is_share_name bytes.now ≡ is_none (share_fault bytes.now) }
    {
        share_fault(bytes)
    }

    /// Reads exactly the names of shares.
    ///
    /// The fault is that of `ShareName::fault`.
    pub fn read(alloc: Global, bytes: &[u8]) -> Result<ShareName, Unnamed>
        ensures name { IfOk result (λ n. (n ≡ bytes.now) × (is_share_name bytes.now ≡ true)) }
        ensures fault { fault_in result ≡ share_fault bytes.now }
        ensures rules { is_share_name bytes.now ≡ is_none (share_fault bytes.now) }
    {
        if let Some(fault) = share_fault(bytes) {
            return Err(Unnamed::Fault(fault));
        }
        Ok(ShareName {
            bytes: Items::copy_of(alloc, bytes)?,
        })
    }

    /// An equal name of its own.
    pub fn copy(&self) -> Result<ShareName, NoMemory>
        ensures { IfOk result (λ n. n ≡ self.now) }
    {
        Ok(ShareName {
            bytes: self.bytes.copy()?,
        })
    }

    /// The name's bytes.
    pub fn bytes(&self) -> &[u8]
        ensures value { result.now ≡ self.now }
        ensures name { is_share_name self.now ≡ true }
    {
        self.bytes.as_slice()
    }

    /// Whether both are the same name.
    pub fn same(&self, other: &ShareName) -> bool
        ensures { result ≡ bytes_eq self.now other.now }
    {
        self.bytes.same(&other.bytes)
    }
}

/// The first rule that bytes break as the name of a share, if they break one.
#[tactic(auto, unfolding(crate::specs::Fault::share_fault))]
fn share_fault(bytes: &[u8]) -> Option<NameFault>
    ensures fault { result ≡ share_fault bytes.now }
    ensures rules { is_share_name bytes.now ≡ is_none (share_fault bytes.now) }
{
    if bytes.len() < MIN_SHARE_BYTES {
        return NameFault::found(NameRule::Short, 0, 0);
    }
    if MAX_SHARE_BYTES < bytes.len() {
        return NameFault::found(NameRule::Long, 0, MAX_SHARE_BYTES);
    }
    if let Some(at) = other_byte(bytes) {
        return NameFault::found(NameRule::Char, 0, at);
    }
    if !is_lower_or_digit(bytes[0]) {
        return NameFault::found(NameRule::Edge, 0, 0);
    }
    let last = bytes.len() - 1;
    if !is_lower_or_digit(bytes[last]) {
        return NameFault::found(NameRule::Edge, 0, last);
    }
    if let Some(at) = hyphens(bytes) {
        return NameFault::found(NameRule::Hyphens, 0, at + 1);
    }
    None
}

/// The place of the first byte that no share name has.
fn other_byte(bytes: &[u8]) -> Option<usize>
    ensures { result ≡ position is_other_byte bytes.now }
{
    bytes.iter().position(|b| !is_share_byte(*b))
}

/// The place of the first of two hyphens in a row.
fn hyphens(bytes: &[u8]) -> Option<usize>
    ensures first { result ≡ find (is_hyphens_at bytes.now) (range_with_len 0 (length bytes.now)) }
    ensures within { IfSome result (λ at. at < length bytes.now) }
{
    (0..bytes.len()).find(|k| is_hyphens_at(bytes, *k))
}

fn is_hyphens_at(bytes: &[u8], at: usize) -> bool
    requires { at < length bytes.now }
    ensures { result ≡ is_hyphens_at bytes.now at }
{
    bytes[at] == b'-' && at + 1 < bytes.len() && bytes[at + 1] == b'-'
}

fn is_lower_or_digit(byte: u8) -> bool
    ensures { result ≡ is_lower_or_digit byte }
{
    (97 <= byte && byte <= 122) || (48 <= byte && byte <= 57)
}

fn is_share_byte(byte: u8) -> bool
    ensures { result ≡ is_share_byte byte }
{
    is_lower_or_digit(byte) || byte == b'-'
}
