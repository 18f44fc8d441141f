//! Shares that are made, changed and deleted, and their snapshots.
ghost use Rattle.std.specs.Prelude.{◌≡◌, ◌+◌, ◌<◌, ◌^◌, OnErr, OnOk};
ghost use Rattle.std.specs.BTreeMap.{insert_entry, is_at};
ghost use Rattle.std.specs.Map.{remove_entry};
ghost use Rattle.std.specs.Ordering.{nat_cmp};
ghost use Rattle.sx_base.specs.Entries.{change_at};
ghost use Rattle.sx_spec.specs.Changes.{add_share, change_share, drop_share};
ghost use Rattle.sx_state.specs.Changed.{share_after};

use crate::state::State;
use std::collections::BTreeMap;
use sx_call::Stamp;
use sx_lease::ShareLease;
use sx_memory::NoMemory;
use sx_names::{Meta, Quota};
use sx_tree::Share;

/// What a call makes of a share.
#[derive(Debug, Drop)]
pub enum ShareChange {
    /// It gets a stamp and another quota.
    Quota(Stamp, Quota),
    /// It gets a stamp and other metadata.
    Metadata(Stamp, Meta),
    /// It gets another state of the lease.
    Lease(ShareLease),
}

/// Changes a share.
fn change_one(share: &mut Share, change: ShareChange)
    ensures { share.new ≡ share_after change share.old }
{
    match change {
        ShareChange::Quota(now, quota) => {
            share.etag = now.etag;
            share.changed = now.changed;
            share.quota = quota;
        }
        ShareChange::Metadata(now, meta) => {
            share.etag = now.etag;
            share.changed = now.changed;
            share.meta = meta;
        }
        ShareChange::Lease(state) => share.lease = state,
    }
}

/// Changes the share of a number.
fn change_in(shares: &mut BTreeMap<u32, Share>, number: u32, change: ShareChange)
    ensures { shares.new.entries ≡ change_at number (share_after change) shares.old.entries }
{
    if let Some(share) = shares.get_mut(&number) {
        change_one(share, change);
    }
}

/// Puts a share under a number.
fn put_in(shares: &mut BTreeMap<u32, Share>, number: u32, share: Share) -> Result<(), NoMemory>
    ensures ok { OnOk result (shares.new.entries ≡ insert_entry nat_cmp shares.old.entries number share) }
    ensures err { OnErr result (shares.new.entries ≡ shares.old.entries) }
{
    match shares.insert(number, share) {
        Ok(_) => Ok(()),
        Err(_) => Err(NoMemory),
    }
}

/// Takes the share of a number away.
fn drop_in(shares: &mut BTreeMap<u32, Share>, number: u32)
    ensures { shares.new.entries ≡ remove_entry (is_at (nat_cmp number)) shares.old.entries }
{
    let _gone = shares.remove(&number);
}

impl State {
    /// Changes the share of a number.
    pub fn change_share(&mut self, number: u32, change: ShareChange)
        ensures { self.new ≡ change_share number (share_after change) self.old }
    {
        change_in(&mut self.shares, number, change);
    }

    /// Puts in one more share, of the next number; its root takes the next file id. Where memory runs out, all is as
    /// before.
    #[tactic(auto, unfolding(sx_spec::specs::Changes::add_share))]
    pub fn add_share(&mut self, share: Share) -> Result<(), NoMemory>
        requires made { self.old.made + 1 < 2 ^ 32 }
        requires ids { self.old.next_id + 1 < 2 ^ 64 }
        ensures ok { OnOk result (self.new ≡ add_share share self.old) }
        ensures err { OnErr result (self.new ≡ self.old) }
    {
        let number = self.made + 1;
        match put_in(&mut self.shares, number, share) {
            Ok(()) => {
                self.made = number;
                self.next_id += 1;
                Ok(())
            }
            Err(failed) => Err(failed),
        }
    }

    /// Takes the share of a number away, with its snapshots. It takes no memory.
    #[tactic(auto, unfolding(sx_spec::specs::Changes::drop_share))]
    pub fn drop_share(&mut self, number: u32)
        ensures { self.new ≡ drop_share number self.old }
    {
        drop_in(&mut self.shares, number);
    }
}
