//! Where calls act: what their names and handles lead to, with the checks of share, snapshot, parent, node, kind and
//! pending, and of handle and access.
ghost use Rattle.std.specs.Prelude.{◌≡◌, ◌+◌, ◌<◌, ◌^◌, find};
ghost use Rattle.std.specs.List.{list_any};
ghost use Rattle.std.specs.Option.{option_copied};
ghost use Rattle.sx_base.specs.Entries.{value_at};
ghost use Rattle.sx_spec.specs.Account.{has_name, share_named};
ghost use Rattle.sx_spec.specs.Places.{directory_place, file_at, file_place, handle_place, held_directory, held_file};
ghost use Rattle.sx_spec.specs.Places.{is_pending, kept_volume, live_volume, making_place, may_make};
ghost use Rattle.sx_spec.specs.Places.{node_place, not_pending, of_kind, share_at, spot_at, vacancy, volume_at};
ghost use Rattle.sx_spec.specs.Places.{volume_in};
ghost use Rattle.sx_spec.specs.Shares.{is_of_moment};
ghost use Rattle.sx_state.specs.Refused.{refused};

use crate::needs::has_rights;
use crate::places::{
    FilePlace, HandlePlace, HeldFile, MakingPlace, NodePlace, SharePlace, Spot, Volume, Where,
};
use crate::state::State;
use sx_call::{Refusal, Stamp, Target};
use sx_guard::{Access, HandleId};
use sx_lease::ShareLease;
use sx_moment::Moment;
use sx_names::{Path, ShareName};
use sx_tree::{Found, Kind, Node, Share, Snapshot, Tree};

/// A share as it stands.
pub fn live_volume(number: u32, share: &Share) -> Volume<'_>
    ensures { result ≡ live_volume number share.now }
{
    Volume {
        number,
        snap: None,
        quota: share.quota,
        meta: &share.meta,
        stamp: Stamp {
            changed: share.changed,
            etag: share.etag,
        },
        lease: share.lease,
        tree: &share.tree,
    }
}

/// A share as a snapshot keeps it.
fn kept_volume(number: u32, kept: &Snapshot) -> Volume<'_>
    ensures { result ≡ kept_volume number kept.now }
{
    Volume {
        number,
        snap: Some(kept.moment),
        quota: kept.quota,
        meta: &kept.meta,
        stamp: Stamp {
            changed: kept.changed,
            etag: kept.etag,
        },
        lease: ShareLease::new(),
        tree: &kept.tree,
    }
}

/// The snapshot of a moment.
fn kept_at(snapshots: &[Snapshot], moment: Moment) -> Option<&Snapshot>
    ensures { option_copied result ≡ find (is_of_moment moment) snapshots.now }
{
    snapshots.iter().find(|kept| kept.moment == moment)
}

/// Whether a node is to be deleted when its last open is closed.
fn is_pending(tree: &Tree, id: u64) -> bool
    ensures { result ≡ is_pending tree.now id }
{
    match tree.node(id) {
        Some(node) => node.facts.pending,
        None => false,
    }
}

/// Refuses a node that is pending; who reads a snapshot isn't asked.
fn not_pending(snap: &Option<Moment>, node: &Node) -> Option<Refusal>
    ensures { result ≡ refused (not_pending snap.now node.now) }
{
    if snap.is_none() && node.facts.pending {
        return Some(Refusal::Pending { id: node.id });
    }
    None
}

/// Refuses a node that isn't a directory, or else one that isn't a file.
pub fn of_kind(dir: bool, node: &Node) -> Option<Refusal>
    ensures { result ≡ refused (of_kind dir node.now) }
{
    match &node.kind {
        Kind::Directory => {
            if dir {
                return None;
            }
            Some(Refusal::IsDirectory { id: node.id })
        }
        Kind::File(_) => {
            if dir {
                return Some(Refusal::IsFile { id: node.id });
            }
            None
        }
    }
}

/// The spot itself, where a name may be made in it: the directory in which it is free isn't pending. A spot with a node
/// stays as it is.
pub fn may_make<'a, 'p>(tree: &Tree, spot: Spot<'a, 'p>) -> Result<Spot<'a, 'p>, Refusal>
    ensures { result ≡ may_make tree.now spot.entry }
{
    if let Where::Free(parent, _) = spot.at {
        if is_pending(tree, parent) {
            return Err(Refusal::Pending { id: parent });
        }
    }
    Ok(spot)
}

impl<'a> SharePlace<'a> {
    /// The share as it stands, or as the snapshot of a moment keeps it.
    fn volume(&self, snap: &Option<Moment>) -> Result<Volume<'a>, Refusal>
        ensures { result ≡ volume_in self.now snap.now }
    {
        let Some(moment) = snap else {
            return Ok(live_volume(self.number, self.share));
        };
        match kept_at(self.share.snapshots.as_slice(), *moment) {
            Some(kept) => Ok(kept_volume(self.number, kept)),
            None => Err(Refusal::SnapshotAbsent { moment: *moment }),
        }
    }
}

impl<'a> Volume<'a> {
    /// Where a path leads; refused where its parent is absent.
    pub fn spot<'p>(&self, path: &'p Path) -> Result<Spot<'a, 'p>, Refusal>
        ensures { result ≡ spot_at self.now.tree path.now }
    {
        match self.tree.find(path) {
            Found::Node(id) => match self.tree.node(id) {
                Some(node) => Ok(Spot {
                    at: Where::Taken(node),
                }),
                None => Err(Refusal::NameAbsent),
            },
            Found::Missing { parent } => match path.name() {
                Some(name) => Ok(Spot {
                    at: Where::Free(parent, name),
                }),
                None => Err(Refusal::NameAbsent),
            },
            Found::NoParent { parts } => Err(Refusal::ParentAbsent { parts }),
        }
    }
}

impl<'a> NodePlace<'a> {
    /// The node, which is to be a file that isn't pending; who reads a snapshot isn't asked for that.
    pub fn file(self, snap: Option<Moment>) -> Result<FilePlace<'a>, Refusal>
        ensures { result ≡ file_at snap self.entry }
    {
        let Kind::File(body) = &self.node.kind else {
            return Err(Refusal::IsDirectory { id: self.node.id });
        };
        if let Some(refusal) = not_pending(&snap, self.node) {
            return Err(refusal);
        }
        Ok(FilePlace {
            volume: self.volume,
            node: self.node,
            body,
        })
    }
}

impl State {
    /// The share of a name, with its number.
    fn share_named(&self, name: &ShareName) -> Option<SharePlace<'_>>
        ensures { result ≡ share_named self.now name.now }
    {
        for (number, share) in self.shares.iter() {
            if share.name.same(name) {
                return Some(SharePlace {
                    number: *number,
                    share,
                });
            }
        }
        None
    }

    /// The share of a number.
    fn share_numbered(&self, number: u32) -> Option<&Share>
        ensures { option_copied result ≡ value_at self.now.shares number }
    {
        match self.shares.get(&number) {
            Some(share) => Some(share),
            None => None,
        }
    }

    /// The share of a name, with its number; refused where no share has it.
    pub fn share_at(&self, name: &ShareName) -> Result<SharePlace<'_>, Refusal>
        ensures { result ≡ share_at self.now name.now }
    {
        match self.share_named(name) {
            Some(place) => Ok(place),
            None => Err(Refusal::ShareAbsent),
        }
    }

    /// The number for a share that is to be made under a name; refused where a share has the name.
    pub fn vacancy(&self, name: &ShareName) -> Result<u32, Refusal>
        requires { self.now.made + 1 < 2 ^ 32 }
        ensures { result ≡ vacancy self.now name.now }
    {
        if self.has_share(name) {
            return Err(Refusal::ShareThere);
        }
        Ok(self.made + 1)
    }

    /// Whether a share has a name.
    fn has_share(&self, name: &ShareName) -> bool
        ensures { result ≡ list_any (has_name name.now) self.now.shares }
    {
        for (_number, share) in self.shares.iter() {
            if share.name.same(name) {
                return true;
            }
        }
        false
    }

    /// The share of a name, as it stands or as the snapshot of a moment keeps it; refused where no share has the name
    /// or no snapshot the moment.
    pub fn volume_at(&self, name: &ShareName, snap: Option<Moment>) -> Result<Volume<'_>, Refusal>
        ensures { result ≡ volume_at self.now name.now snap }
    {
        self.volume_of(name, &snap)
    }

    /// The share of a name, as it stands or as the snapshot of a moment keeps it.
    fn volume_of(&self, name: &ShareName, snap: &Option<Moment>) -> Result<Volume<'_>, Refusal>
        ensures { result ≡ volume_at self.now name.now snap.now }
    {
        match self.share_named(name) {
            Some(place) => place.volume(snap),
            None => Err(Refusal::ShareAbsent),
        }
    }

    /// The node of a target, of any kind, pending or not; refused where its share, snapshot or parent is absent, or the
    /// name itself.
    pub fn node_place(&self, at: &Target, snap: Option<Moment>) -> Result<NodePlace<'_>, Refusal>
        ensures { result ≡ node_place self.now at.now snap }
    {
        self.node_of(at, &snap)
    }

    /// The node of a target, of any kind, pending or not.
    #[tactic(auto, unfolding(sx_spec::specs::Places::node_place))]
    fn node_of(&self, at: &Target, snap: &Option<Moment>) -> Result<NodePlace<'_>, Refusal>
        ensures { result ≡ node_place self.now at.now snap.now }
    {
        let volume = match self.volume_of(&at.share, snap) {
            Ok(volume) => volume,
            Err(refusal) => return Err(refusal),
        };
        match volume.spot(&at.path) {
            Ok(
                Spot {
                    at: Where::Taken(node),
                },
            ) => Ok(NodePlace { volume, node }),
            Ok(
                Spot {
                    at: Where::Free(_, _),
                },
            ) => Err(Refusal::NameAbsent),
            Err(refusal) => Err(refusal),
        }
    }

    /// The directory of a target, which isn't pending; refused as a node is, and where it is a file or pending.
    #[tactic(auto, unfolding(sx_spec::specs::Places::directory_place))]
    pub fn directory_place(
        &self,
        at: &Target,
        snap: Option<Moment>,
    ) -> Result<NodePlace<'_>, Refusal>
        ensures { result ≡ directory_place self.now at.now snap }
    {
        let place = match self.node_of(at, &snap) {
            Ok(place) => place,
            Err(refusal) => return Err(refusal),
        };
        if let Some(refusal) = of_kind(true, place.node) {
            return Err(refusal);
        }
        if let Some(refusal) = not_pending(&snap, place.node) {
            return Err(refusal);
        }
        Ok(place)
    }

    /// The file of a target, which isn't pending; refused as a node is, and where it is a directory or pending.
    #[tactic(auto, unfolding(sx_spec::specs::Places::file_place))]
    pub fn file_place(&self, at: &Target, snap: Option<Moment>) -> Result<FilePlace<'_>, Refusal>
        ensures { result ≡ file_place self.now at.now snap }
    {
        match self.node_of(at, &snap) {
            Ok(place) => place.file(snap),
            Err(refusal) => Err(refusal),
        }
    }

    /// The spot of a target, in a share as it stands, where a name may be made; refused where its share or parent is
    /// absent, or the parent is pending.
    #[tactic(auto, unfolding(sx_spec::specs::Places::making_place))]
    pub fn making_place<'a, 'p>(&'a self, at: &'p Target) -> Result<MakingPlace<'a, 'p>, Refusal>
        ensures { result ≡ making_place self.now at.now }
    {
        let volume = match self.volume_at(&at.share, None) {
            Ok(volume) => volume,
            Err(refusal) => return Err(refusal),
        };
        let spot = match volume.spot(&at.path) {
            Ok(spot) => spot,
            Err(refusal) => return Err(refusal),
        };
        match may_make(volume.tree, spot) {
            Ok(spot) => Ok(MakingPlace { volume, spot }),
            Err(refusal) => Err(refusal),
        }
    }

    /// The open of a handle, with its node; refused where there is no such handle, or it lacks a right that is needed.
    #[tactic(auto, unfolding(sx_spec::specs::Places::handle_place))]
    pub fn handle_place(&self, handle: HandleId, needed: Access) -> Result<HandlePlace<'_>, Refusal>
        ensures { result ≡ handle_place self.now handle needed }
    {
        let Some(held) = self.opens.open_of(handle) else {
            return Err(Refusal::NoHandle { handle });
        };
        let Some(share) = self.share_numbered(held.share) else {
            return Err(Refusal::NoHandle { handle });
        };
        let Some(node) = share.tree.node(held.node) else {
            return Err(Refusal::NoHandle { handle });
        };
        if !has_rights(needed, held.access) {
            return Err(Refusal::LacksAccess {
                handle: held.handle,
            });
        }
        Ok(HandlePlace {
            held: *held,
            volume: live_volume(held.share, share),
            node,
        })
    }

    /// The open of a handle that is to be one of a file; refused as a handle is, and where it is one of a directory.
    #[tactic(auto, unfolding(sx_spec::specs::Places::held_file))]
    pub fn held_file(&self, handle: HandleId, needed: Access) -> Result<HeldFile<'_>, Refusal>
        ensures { result ≡ held_file self.now handle needed }
    {
        let place = match self.handle_place(handle, needed) {
            Ok(place) => place,
            Err(refusal) => return Err(refusal),
        };
        match &place.node.kind {
            Kind::File(body) => Ok(HeldFile {
                held: place.held,
                volume: place.volume,
                node: place.node,
                body,
            }),
            Kind::Directory => Err(Refusal::IsDirectory { id: place.node.id }),
        }
    }

    /// The open of a handle that is to be one of a directory; refused as a handle is, and where it is one of a file.
    #[tactic(auto, unfolding(sx_spec::specs::Places::held_directory))]
    pub fn held_directory(
        &self,
        handle: HandleId,
        needed: Access,
    ) -> Result<HandlePlace<'_>, Refusal>
        ensures { result ≡ held_directory self.now handle needed }
    {
        let place = match self.handle_place(handle, needed) {
            Ok(place) => place,
            Err(refusal) => return Err(refusal),
        };
        match of_kind(true, place.node) {
            Some(refusal) => Err(refusal),
            None => Ok(place),
        }
    }
}
