//! The places at which calls act, lent from the state: contracts see the records of the definitions.
ghost use Rattle.std.specs.Prelude.{◌≡◌};

use std::marker::Model;
use sx_call::{Open, Stamp};
use sx_lease::ShareLease;
use sx_moment::Moment;
use sx_names::{Meta, Part, Quota};
use sx_tree::{FileBody, Node, Share, Tree};

/// A share with its number.
#[derive(Drop)]
pub struct SharePlace<'a> {
    /// The number under which it was made.
    pub number: u32,
    /// The share.
    pub share: &'a Share,
}

impl<'a> Model for SharePlace<'a> {
    ghost use Rattle.std.specs.Prelude.{ℕ};
    ghost use Rattle.sx_tree.specs.declared.share.Share.{Share};

    ghost Value = { ℕ × Share };

    ghost view = { λ p. (p.number, p.share.now) };
}

/// What a call on a share looks into: the share as it stands, or as one of its snapshots keeps it.
#[derive(Drop)]
pub struct Volume<'a> {
    /// The number of the share.
    pub number: u32,
    /// The moment of the snapshot, none where the share is as it stands.
    pub snap: Option<Moment>,
    /// The quota.
    pub quota: Quota,
    /// The metadata.
    pub meta: &'a Meta,
    /// When the share was changed last.
    pub stamp: Stamp,
    /// The share's lease; a snapshot has none that is held.
    pub lease: ShareLease,
    /// The directories and files.
    pub tree: &'a Tree,
}

impl<'a> Model for Volume<'a> {
    ghost use Rattle.sx_spec.specs.Places.{Volume};

    ghost Value = { Volume };

    ghost view = { λ v. record {
      number = v.number;
      snap = v.snap;
      quota = v.quota;
      meta = v.meta.now;
      stamp = v.stamp;
      lease = v.lease;
      tree = v.tree.now;
    } };
}

/// A directory or file, with what it stands in.
#[derive(Drop)]
pub struct NodePlace<'a> {
    /// What it stands in.
    pub volume: Volume<'a>,
    /// The directory or file.
    pub node: &'a Node,
}

impl<'a> Model for NodePlace<'a> {
    ghost use Rattle.sx_spec.specs.Places.{NodePlace};

    ghost Value = { NodePlace };

    ghost view = { λ p. record { volume = p.volume; node = p.node.now } };
}

/// A file, with its body.
#[derive(Drop)]
pub struct FilePlace<'a> {
    /// What it stands in.
    pub volume: Volume<'a>,
    /// The file.
    pub node: &'a Node,
    /// Its body.
    pub body: &'a FileBody,
}

impl<'a> Model for FilePlace<'a> {
    ghost use Rattle.sx_spec.specs.Places.{FilePlace};

    ghost Value = { FilePlace };

    ghost view = { λ p. record { volume = p.volume; node = p.node.now; body = p.body.now } };
}

/// An open, with the directory or file on which it stands.
#[derive(Drop)]
pub struct HandlePlace<'a> {
    /// The open.
    pub held: Open,
    /// The share.
    pub volume: Volume<'a>,
    /// The directory or file.
    pub node: &'a Node,
}

impl<'a> Model for HandlePlace<'a> {
    ghost use Rattle.sx_spec.specs.Places.{HandlePlace};

    ghost Value = { HandlePlace };

    ghost view = { λ p. record { held = p.held; volume = p.volume; node = p.node.now } };
}

/// An open of a file, with the file's body.
#[derive(Drop)]
pub struct HeldFile<'a> {
    /// The open.
    pub held: Open,
    /// The share.
    pub volume: Volume<'a>,
    /// The file.
    pub node: &'a Node,
    /// Its body.
    pub body: &'a FileBody,
}

impl<'a> Model for HeldFile<'a> {
    ghost use Rattle.sx_spec.specs.Places.{HeldFile};

    ghost Value = { HeldFile };

    ghost view = { λ p. record {
      held = p.held;
      volume = p.volume;
      node = p.node.now;
      body = p.body.now;
    } };
}

/// Where a path leads whose parent is there: to a node, or to a name that is free in the directory of an id.
#[derive(Drop)]
pub enum Where<'a, 'p> {
    /// A node has the path.
    Taken(&'a Node),
    /// None has; the name is free in the directory of this id.
    Free(u64, &'p Part),
}

/// Where a path leads whose parent is there. Contracts see the spot of the definitions.
#[derive(Drop)]
pub struct Spot<'a, 'p> {
    /// The node or the free name.
    pub at: Where<'a, 'p>,
}

impl<'a, 'p> Model for Spot<'a, 'p> {
    ghost use Rattle.sx_spec.specs.Places.{Spot};

    ghost Value = { Spot };

    ghost use Rattle.sx_state.specs.Spots.{spot_at};

    ghost view = { λ s. spot_at s.at };
}

/// A spot where a name may be made, with what it stands in.
#[derive(Drop)]
pub struct MakingPlace<'a, 'p> {
    /// What it stands in.
    pub volume: Volume<'a>,
    /// The spot.
    pub spot: Spot<'a, 'p>,
}

impl<'a, 'p> Model for MakingPlace<'a, 'p> {
    ghost use Rattle.sx_spec.specs.Places.{Volume, Spot};

    ghost Value = { Volume × Spot };

    ghost view = { λ p. (p.volume, p.spot) };
}

impl<'a> SharePlace<'a> {
    /// The number of the share.
    pub fn number(&self) -> u32
        ensures { result ≡ self.now.0 }
    {
        self.number
    }
}

impl<'a> Volume<'a> {
    /// The number of the share.
    pub fn number(&self) -> u32
        ensures { result ≡ self.now.number }
    {
        self.number
    }
}

impl<'a> NodePlace<'a> {
    /// The number of the share.
    pub fn number(&self) -> u32
        ensures { result ≡ self.now.volume.number }
    {
        self.volume.number
    }

    /// The id of the directory or file.
    pub fn id(&self) -> u64
        ensures { result ≡ self.now.node.id }
    {
        self.node.id
    }
}

impl<'a> FilePlace<'a> {
    /// The number of the share.
    pub fn number(&self) -> u32
        ensures { result ≡ self.now.volume.number }
    {
        self.volume.number
    }

    /// The file's id.
    pub fn id(&self) -> u64
        ensures { result ≡ self.now.node.id }
    {
        self.node.id
    }
}

impl<'a> HandlePlace<'a> {
    /// The number of the share.
    pub fn number(&self) -> u32
        ensures { result ≡ self.now.volume.number }
    {
        self.volume.number
    }

    /// The id of the directory or file.
    pub fn id(&self) -> u64
        ensures { result ≡ self.now.node.id }
    {
        self.node.id
    }
}

impl<'a> HeldFile<'a> {
    /// The number of the share.
    pub fn number(&self) -> u32
        ensures { result ≡ self.now.volume.number }
    {
        self.volume.number
    }

    /// The file's id.
    pub fn id(&self) -> u64
        ensures { result ≡ self.now.node.id }
    {
        self.node.id
    }
}
