//! Copies of a tree: an equal one, and the one that a snapshot keeps.
ghost use Rattle.std.specs.Prelude.{◌≡◌, IfOk, OnOk};
ghost use Rattle.std.specs.Ordering.{nat_cmp};
ghost use Rattle.std.specs.BTreeMap.{insert_entry};
ghost use Rattle.sx_tree.specs.Copies.{at_rest, copied_facts, copied_node, copied_slot, copied_slots};

use crate::node::{Facts, FileBody, Kind, Node};
use crate::slot::NodeSlot;
use crate::tree::Tree;
use std::alloc::Global;
use std::collections::BTreeMap;
use sx_lease::FileLease;
use sx_memory::NoMemory;
use sx_names::{Folded, Part};

impl Tree {
    /// An equal tree, which no later call on this one changes.
    pub fn copy_shared(&self) -> Result<Tree, NoMemory>
        ensures { IfOk result (λ tree. tree ≡ self.now) }
    {
        let nodes = copy_slots(self.alloc, &self.nodes, false)?;
        Ok(Tree {
            alloc: self.alloc,
            root: self.root,
            nodes,
            used: self.used,
        })
    }

    /// The tree that a snapshot keeps: every lease is available, and no deletion is pending.
    pub fn copy_at_rest(&self) -> Result<Tree, NoMemory>
        ensures { IfOk result (λ tree. tree ≡ at_rest self.now) }
    {
        let nodes = copy_slots(self.alloc, &self.nodes, true)?;
        Ok(Tree {
            alloc: self.alloc,
            root: self.root,
            nodes,
            used: self.used,
        })
    }
}

/// The slots, copied, and at rest where that is asked for.
fn copy_slots(
    alloc: Global,
    nodes: &BTreeMap<u64, NodeSlot>,
    rest: bool,
) -> Result<BTreeMap<u64, NodeSlot>, NoMemory>
    ensures { IfOk result (λ copy. copy.entries ≡ copied_slots rest nodes.now.entries) }
{
    let mut copy = BTreeMap::new(alloc);
    for (id, slot) in nodes.iter() {
        let slot = slot.copy(alloc, rest)?;
        put_slot(&mut copy, *id, slot)?;
    }
    Ok(copy)
}

/// Puts a slot under an id.
fn put_slot(nodes: &mut BTreeMap<u64, NodeSlot>, id: u64, slot: NodeSlot) -> Result<(), NoMemory>
    ensures { OnOk result (nodes.new.entries ≡ insert_entry nat_cmp nodes.old.entries id slot) }
{
    match nodes.insert(id, slot) {
        Ok(_) => Ok(()),
        Err(_) => Err(NoMemory),
    }
}

/// The names of a directory, copied.
fn copy_names(
    alloc: Global,
    below: &BTreeMap<Folded, u64>,
) -> Result<BTreeMap<Folded, u64>, NoMemory>
    ensures { IfOk result (λ copy. copy.entries ≡ below.now.entries) }
{
    let mut copy = BTreeMap::new(alloc);
    for (name, id) in below.iter() {
        let name = name.copy()?;
        copy.insert(name, *id)?;
    }
    Ok(copy)
}

/// A name, copied.
fn copy_name(name: &Option<Part>) -> Result<Option<Part>, NoMemory>
    ensures { IfOk result (λ copy. copy ≡ name.now) }
{
    match name {
        Some(name) => Ok(Some(name.copy()?)),
        None => Ok(None),
    }
}

impl NodeSlot {
    /// The slot, copied, and at rest where that is asked for.
    fn copy(&self, alloc: Global, rest: bool) -> Result<NodeSlot, NoMemory>
        ensures { IfOk result (λ slot. slot ≡ copied_slot rest self.now) }
    {
        let node = self.node.copy(rest)?;
        let name = copy_name(&self.name)?;
        let below = copy_names(alloc, &self.below)?;
        Ok(NodeSlot { node, name, below })
    }
}

impl Node {
    /// The node, copied, and at rest where that is asked for.
    fn copy(&self, rest: bool) -> Result<Node, NoMemory>
        ensures { IfOk result (λ node. node ≡ copied_node rest self.now) }
    {
        Ok(Node {
            id: self.id,
            parent: self.parent,
            facts: self.facts.copy(rest)?,
            kind: self.kind.copy()?,
        })
    }
}

impl Facts {
    /// The facts, copied, and at rest where that is asked for.
    fn copy(&self, rest: bool) -> Result<Facts, NoMemory>
        ensures { IfOk result (λ facts. facts ≡ copied_facts rest self.now) }
    {
        Ok(Facts {
            etag: self.etag,
            created: self.created,
            written: self.written,
            changed: self.changed,
            attributes: self.attributes,
            meta: self.meta.copy()?,
            pending: self.pending && !rest,
            lease: if rest { FileLease::new() } else { self.lease },
        })
    }
}

impl Kind {
    /// The kind, copied.
    fn copy(&self) -> Result<Kind, NoMemory>
        ensures { IfOk result (λ kind. kind ≡ self.now) }
    {
        match self {
            Kind::Directory => Ok(Kind::Directory),
            Kind::File(body) => Ok(Kind::File(body.copy()?)),
        }
    }
}

impl FileBody {
    /// An equal body of its own.
    pub fn copy(&self) -> Result<FileBody, NoMemory>
        ensures { IfOk result (λ body. body ≡ self.now) }
    {
        Ok(FileBody {
            ranges: self.ranges.copy_shared()?,
            content: self.content.copy()?,
        })
    }
}
