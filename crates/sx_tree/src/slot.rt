//! A node with its name and with the names below it.
ghost use Rattle.std.specs.Prelude.{◌≡◌, true, false, Some, OnOk, OnErr};
ghost use Rattle.std.specs.Borrow.{sem};
ghost use Rattle.sx_tree.specs.Body.{body_after};
ghost use Rattle.sx_tree.specs.LentFacts.{LendsFactsOf};
ghost use Rattle.sx_tree.specs.Tree.{body_changed, child_of, with_child, without_child};

use crate::body::BodyChange;
use crate::node::{Facts, Node};
use std::collections::BTreeMap;
use std::marker::Model;
use sx_memory::NoMemory;
use sx_names::{Folded, Part};

/// A node with its name, which the root has not, and in a directory the ids below it by their folded names.
#[derive(Drop)]
pub(crate) struct NodeSlot {
    pub(crate) node: Node,
    pub(crate) name: Option<Part>,
    pub(crate) below: BTreeMap<Folded, u64>,
}

impl Model for NodeSlot {
    ghost use Rattle.sx_tree.specs.Tree.{Slot};

    ghost Value = { Slot };

    ghost view = { λ s. record { node = s.node; name = s.name; below = s.below.entries } };
}

impl NodeSlot {
    /// None where this is no directory, and in a directory the id under a folded name, if there is one.
    pub(crate) fn child(&self, name: &Folded) -> Option<Option<u64>>
        ensures { result ≡ child_of (Some self.now) name.now }
    {
        if !self.node.kind.is_directory() {
            return None;
        }
        Some(self.below.get(name).copied())
    }

    /// Adds a name. It says whether there was memory for it.
    pub(crate) fn add(&mut self, name: Folded, id: u64) -> bool
        ensures done { result ≡ true → self.new ≡ with_child name id self.old }
        ensures full { result ≡ false → self.new ≡ self.old }
    {
        self.below.insert(name, id).is_ok()
    }

    /// Takes a name out.
    pub(crate) fn remove(&mut self, name: &Folded)
        ensures { self.new ≡ without_child name.now self.old }
    {
        self.below.remove(name);
    }

    /// The facts of the node, to be changed.
    pub(crate) fn facts_mut(&mut self) -> &mut Facts
        ensures* writes_back { sem 𝓛 (LendsFactsOf self.entry result) }
        ensures value { result.now ≡ self.old.node.facts }
    {
        &mut self.node.facts
    }

    /// Changes the body of a file. A directory stays as it is.
    pub(crate) fn change(&mut self, change: BodyChange) -> Result<(), NoMemory>
        ensures ok { OnOk result (self.new ≡ body_changed (body_after change) self.old) }
        ensures err { OnErr result (self.new ≡ self.old) }
    {
        self.node.kind.change(change)
    }
}
