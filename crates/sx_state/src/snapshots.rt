//! Snapshots of shares: they are made, and deleted one by one.
ghost use Rattle.std.specs.Prelude.{◌≡◌, IfOk, OnErr, OnOk, filter, not};
ghost use Rattle.sx_base.specs.Entries.{change_at};
ghost use Rattle.sx_spec.specs.Changes.{change_share};
ghost use Rattle.sx_spec.specs.Shares.{is_of_moment, meta_or, snapshot_of, with_snapshot, without_snapshot};
ghost use Rattle.sx_spec.specs.Trees.{tree_at_rest};

use crate::state::State;
use std::collections::BTreeMap;
use std::mem;
use sx_base::Items;
use sx_memory::NoMemory;
use sx_moment::Moment;
use sx_names::Meta;
use sx_tree::{Share, Snapshot, Tree};

/// The metadata that a request gives, or the share's where it gives none.
fn meta_or(given: &Meta, kept: &Meta) -> Result<Meta, NoMemory>
    ensures { IfOk result (λ m. m ≡ meta_or given.now kept.now) }
{
    match given.pairs() {
        [] => kept.copy(),
        [_, ..] => given.copy(),
    }
}

/// A tree as a snapshot keeps it: at rest.
#[tactic(auto, using(crate::proofs::Rest::copied_at_rest))]
fn tree_at_rest(tree: &Tree) -> Result<Tree, NoMemory>
    ensures { IfOk result (λ t. t ≡ tree_at_rest tree.now) }
{
    tree.copy_at_rest()
}

/// What a snapshot of a moment keeps of a share.
fn snapshot_of(share: &Share, moment: Moment, meta: &Meta) -> Result<Snapshot, NoMemory>
    ensures { IfOk result (λ x. x ≡ snapshot_of moment meta.now share.now) }
{
    let meta = meta_or(meta, &share.meta)?;
    let tree = tree_at_rest(&share.tree)?;
    Ok(Snapshot {
        moment,
        quota: share.quota,
        meta,
        etag: share.etag,
        changed: share.changed,
        tree,
    })
}

/// Makes a snapshot of a share.
fn add_to_share(share: &mut Share, moment: Moment, meta: &Meta) -> Result<(), NoMemory>
    ensures ok { OnOk result (share.new ≡ with_snapshot moment meta.now share.old) }
    ensures err { OnErr result (share.new ≡ share.old) }
{
    let snapshot = match snapshot_of(share, moment, meta) {
        Ok(snapshot) => snapshot,
        Err(failed) => return Err(failed),
    };
    match share.snapshots.push(snapshot) {
        Ok(()) => {
            share.given = Some(moment);
            Ok(())
        }
        Err(failed) => Err(failed),
    }
}

/// Makes a snapshot of the share of a number.
fn add_in(
    shares: &mut BTreeMap<u32, Share>,
    number: u32,
    moment: Moment,
    meta: &Meta,
) -> Result<(), NoMemory>
    ensures ok { OnOk result (shares.new.entries
        ≡ change_at number (with_snapshot moment meta.now) shares.old.entries) }
    ensures err { OnErr result (shares.new.entries ≡ shares.old.entries) }
{
    match shares.get_mut(&number) {
        Some(share) => add_to_share(share, moment, meta),
        None => Ok(()),
    }
}

/// Takes the snapshot of a moment away.
fn drop_kept(snapshots: &mut Items<Snapshot>, moment: Moment)
    ensures { snapshots.new ≡ filter (λ x. not (is_of_moment moment x)) snapshots.old }
{
    let alloc = snapshots.allocator();
    let mut kept = mem::replace(snapshots, Items::new(alloc)).into_vec();
    kept.retain(|snapshot| snapshot.moment != moment);
    *snapshots = Items::of(kept);
}

/// Takes the snapshot of a moment away from a share.
fn drop_from_share(share: &mut Share, moment: Moment)
    ensures { share.new ≡ without_snapshot moment share.old }
{
    drop_kept(&mut share.snapshots, moment);
}

/// Takes the snapshot of a moment away from the share of a number.
fn drop_in(shares: &mut BTreeMap<u32, Share>, number: u32, moment: Moment)
    ensures { shares.new.entries ≡ change_at number (without_snapshot moment) shares.old.entries }
{
    if let Some(share) = shares.get_mut(&number) {
        drop_from_share(share, moment);
    }
}

impl State {
    /// Makes a snapshot of the share of a number, of this moment, with this metadata or else the share's. Where memory
    /// runs out, all is as before.
    pub fn add_snapshot(&mut self, number: u32, moment: Moment, meta: &Meta) -> Result<(), NoMemory>
        ensures ok { OnOk result (self.new ≡ change_share number (with_snapshot moment meta.now) self.old) }
        ensures err { OnErr result (self.new ≡ self.old) }
    {
        add_in(&mut self.shares, number, moment, meta)
    }

    /// Takes the snapshot of a moment away from the share of a number. It takes no memory.
    pub fn drop_snapshot(&mut self, number: u32, moment: Moment)
        ensures { self.new ≡ change_share number (without_snapshot moment) self.old }
    {
        drop_in(&mut self.shares, number, moment);
    }
}
