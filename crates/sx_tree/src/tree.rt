//! The directories and files of a share, by their ids.
ghost use Rattle.std.specs.Borrow.{sem};
ghost use Rattle.std.specs.Prelude.{◌≡◌, ◌≤◌, option_map, IfOk, OnOk, OnErr, true, false, None};
ghost use Rattle.std.specs.Option.{option_copied};
ghost use Rattle.std.specs.Ordering.{nat_cmp};
ghost use Rattle.std.specs.BTreeMap.{insert_entry};
ghost use Rattle.sx_base.specs.Entries.{value_at, change_at};
ghost use Rattle.sx_tree.specs.Body.{body_after};
ghost use Rattle.sx_tree.specs.Tree.{new_nodes, slot_at, node_at, facts_at, tree_use, use_at, is_empty, with_node};
ghost use Rattle.sx_tree.specs.Tree.{with_child};
ghost use Rattle.sx_tree.specs.Tree.{without_node, without_child, unlisted, change_body, body_changed};
ghost use Rattle.sx_tree.specs.Lent.{LendsFacts};
ghost use Rattle.sx_tree.specs.declared.node.TheConstants.{GRANULES_LIMIT};

use crate::body::BodyChange;
use crate::node::{Facts, GRANULES_LIMIT, Kind, Node};
use crate::slot::NodeSlot;
use std::alloc::Global;
use std::collections::BTreeMap;
use std::marker::Model;
use sx_memory::NoMemory;
use sx_moment::Moment;
use sx_names::{Folded, Part};

/// The directories and files of a share, by their ids.
///
/// A call looks up the ids and names that it is given, so it takes time in proportion to the logarithm of the number of
/// nodes; only `below`, `copy_shared` and `copy_at_rest` go over all of them. The number of marked granules is kept.
#[derive(Drop)]
pub struct Tree {
    pub(crate) alloc: Global,
    pub(crate) root: u64,
    pub(crate) nodes: BTreeMap<u64, NodeSlot>,
    pub(crate) used: u64,
}

impl Model for Tree {
    ghost use Rattle.std.specs.Prelude.{◌≡◌};
    ghost use Rattle.sx_tree.specs.Tree.{Nodes, slots_use};

    ghost Value = { Nodes };

    ghost view = { λ t. record { root = t.root; slots = t.nodes.entries } };

    ghost invariant = { λ t. t.used ≡ slots_use t.nodes.entries };
}

impl Tree {
    /// A tree with a root of this id alone, of a share that was made at a moment by the entry at a place of the
    /// history.
    pub fn new(alloc: Global, root: u64, at: Moment, place: u64) -> Result<Tree, NoMemory>
        ensures { IfOk result (λ tree. tree ≡ new_nodes root at place) }
    {
        let mut nodes = BTreeMap::new(alloc);
        let slot = NodeSlot {
            node: Node {
                id: root,
                parent: 0,
                facts: Facts::root(alloc, at, place),
                kind: Kind::Directory,
            },
            name: None,
            below: BTreeMap::new(alloc),
        };
        match nodes.insert(root, slot) {
            Ok(_) => {}
            Err(_) => return Err(NoMemory),
        }
        Ok(Tree {
            alloc,
            root,
            nodes,
            used: 0,
        })
    }

    /// The node of an id.
    pub fn node(&self, id: u64) -> Option<&Node>
        ensures { option_copied result ≡ node_at self.now id }
    {
        match self.nodes.get(&id) {
            Some(slot) => Some(&slot.node),
            None => None,
        }
    }

    /// How many granules are marked in the files of the tree. It is kept, so it costs nothing.
    #[tactic(auto, unfolding(crate::specs::Tree::tree_use))]
    pub fn used(&self) -> u64
        ensures { result ≡ tree_use self.now }
    {
        self.used
    }

    /// Whether no node stands in a directory.
    pub fn is_empty(&self, dir: u64) -> bool
        ensures { result ≡ is_empty self.now dir }
    {
        match self.nodes.get(&dir) {
            Some(slot) => slot.below.is_empty(),
            None => true,
        }
    }

    /// Puts a node of a new id under a name into a directory. Where memory runs out, all is as before.
    pub fn insert(&mut self, parent: u64, name: Part, node: Node) -> Result<(), NoMemory>
        requires { slot_at self.old node.id ≡ None }
        ensures ok { OnOk result (self.new ≡ with_node self.old parent name node) }
        ensures err { OnErr result (self.new ≡ self.old) }
    {
        let id = node.id;
        let Some(used) = self.used.checked_add(node.kind.used()) else {
            return Err(NoMemory);
        };
        let folded = name.folded().copy()?;
        let slot = NodeSlot {
            node,
            name: Some(name),
            below: BTreeMap::new(self.alloc),
        };
        if add_node(&mut self.nodes, id, slot, parent, folded) {
            self.used = used;
            return Ok(());
        }
        Err(NoMemory)
    }

    /// Removes a node, and its name from its directory.
    pub fn remove(&mut self, id: u64)
        ensures { self.new ≡ without_node self.old id }
    {
        let Some(slot) = self.nodes.remove(&id) else {
            return;
        };
        unlist(&mut self.nodes, &slot);
        self.used -= slot.node.kind.used();
    }

    /// Changes the body of a file. A directory stays as it is. Where memory runs out, all is as before.
    pub fn change_body(&mut self, id: u64, change: BodyChange) -> Result<(), NoMemory>
        ensures ok { OnOk result (self.new ≡ change_body id (body_after change) self.old) }
        ensures err { OnErr result (self.new ≡ self.old) }
    {
        if self.used > u64::MAX - GRANULES_LIMIT {
            return Err(NoMemory);
        }
        let before = use_at(&self.nodes, id);
        match change_slot(&mut self.nodes, id, change) {
            Ok(()) => {
                self.used = self.used - before + use_at(&self.nodes, id);
                Ok(())
            }
            Err(failed) => Err(failed),
        }
    }

    /// The facts of a node, to be changed.
    pub fn facts_mut(&mut self, id: u64) -> Option<&mut Facts>
        ensures* writes_back { sem 𝓛 (LendsFacts self.entry id result) }
        ensures value { option_map (λ f. f.now) result ≡ facts_at self.old id }
    {
        let slot = self.nodes.get_mut(&id)?;
        Some(slot.facts_mut())
    }
}

/// How many granules are marked in the file of an id, and 0 where there is none.
pub(crate) fn use_at(nodes: &BTreeMap<u64, NodeSlot>, id: u64) -> u64
    ensures value { result ≡ use_at nodes.now.entries id }
    ensures limit { result ≤ GRANULES_LIMIT }
{
    match nodes.get(&id) {
        Some(slot) => slot.node.kind.used(),
        None => 0,
    }
}

/// Changes the body of the file of an id.
fn change_slot(
    nodes: &mut BTreeMap<u64, NodeSlot>,
    id: u64,
    change: BodyChange,
) -> Result<(), NoMemory>
    ensures ok { OnOk result (nodes.new.entries ≡ change_at id (body_changed (body_after change)) nodes.old.entries) }
    ensures err { OnErr result (nodes.new.entries ≡ nodes.old.entries) }
{
    match nodes.get_mut(&id) {
        Some(slot) => slot.change(change),
        None => Ok(()),
    }
}

/// Puts a slot under a new id, and its name into a directory. It says whether there was memory for both.
fn add_node(
    nodes: &mut BTreeMap<u64, NodeSlot>,
    id: u64,
    slot: NodeSlot,
    parent: u64,
    name: Folded,
) -> bool
    requires { value_at nodes.old.entries id ≡ None }
    ensures done { result ≡ true → nodes.new.entries
        ≡ change_at parent (with_child name id) (insert_entry nat_cmp nodes.old.entries id slot) }
    ensures full { result ≡ false → nodes.new.entries ≡ nodes.old.entries }
{
    let Ok(_) = nodes.insert(id, slot) else {
        return false;
    };
    if add_child(nodes, parent, name, id) {
        return true;
    }
    nodes.remove(&id);
    false
}

/// Puts a folded name into a directory. It says whether there was memory for it.
pub(crate) fn add_child(
    nodes: &mut BTreeMap<u64, NodeSlot>,
    parent: u64,
    name: Folded,
    id: u64,
) -> bool
    ensures done { result ≡ true → nodes.new.entries ≡ change_at parent (with_child name id) nodes.old.entries }
    ensures full { result ≡ false → nodes.new.entries ≡ nodes.old.entries }
{
    match nodes.get_mut(&parent) {
        Some(slot) => slot.add(name, id),
        None => true,
    }
}

/// Takes a folded name out of a directory.
pub(crate) fn drop_child(nodes: &mut BTreeMap<u64, NodeSlot>, parent: u64, name: &Folded)
    ensures { nodes.new.entries ≡ change_at parent (without_child name.now) nodes.old.entries }
{
    if let Some(slot) = nodes.get_mut(&parent) {
        slot.remove(name);
    }
}

/// Takes the name of what stood in a slot out of its directory.
fn unlist(nodes: &mut BTreeMap<u64, NodeSlot>, slot: &NodeSlot)
    ensures { nodes.new.entries ≡ unlisted slot.now.node.parent slot.now.name nodes.old.entries }
{
    match &slot.name {
        Some(name) => drop_child(nodes, slot.node.parent, name.folded()),
        None => {}
    }
}
