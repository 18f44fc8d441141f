//! The shares in order of name, lent.
ghost use Rattle.std.specs.Prelude.{◌≡◌, IfOk, map, reverse};
ghost use Rattle.std.specs.Ordering.{is_lt};
ghost use Rattle.sx_spec.specs.Pages.{by_name, name_before};
ghost use Rattle.sx_state.specs.Named.{in_order};

use crate::state::State;
use std::alloc::Global;
use std::cmp::Ordering;
use std::collections::BTreeMap;
use sx_memory::NoMemory;
use sx_tree::Share;

/// How a share's name stands to another's, byte by byte.
fn by_names(share: &Share, other: &Share) -> Ordering
    ensures { is_lt result ≡ name_before share.now other.now }
{
    share.name.bytes().cmp(&other.name.bytes())
}

/// Shares that stand in reverse, put in order of name.
fn in_order<'a>(mut shares: Vec<&'a Share>) -> Result<Vec<&'a Share>, NoMemory>
    ensures { IfOk result (λ v. map (λ s. s.now) v.items ≡ in_order (map (λ s. s.now) (reverse shares.entry.items))) }
{
    shares.sort_by(|a, b| by_names(a, b))?;
    Ok(shares)
}

/// The shares in order of their numbers.
fn by_number(alloc: Global, shares: &BTreeMap<u32, Share>) -> Result<Vec<&Share>, NoMemory>
    ensures { IfOk result (λ v. map (λ s. s.now) v.items ≡ map (λ e. e.1) shares.now.entries) }
{
    let mut listed = Vec::new(alloc);
    for (_number, share) in shares.iter() {
        listed.push(share)?;
    }
    Ok(listed)
}

impl State {
    /// The shares in order of name.
    pub fn shares_by_name(&self) -> Result<Vec<&Share>, NoMemory>
        ensures { IfOk result (λ v. map (λ s. s.now) v.items ≡ by_name self.now.shares) }
    {
        let mut listed = by_number(self.alloc, &self.shares)?;
        listed.reverse();
        in_order(listed)
    }
}
