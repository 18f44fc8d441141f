//! A node that gets another directory and another name.
ghost use Rattle.std.specs.Prelude.{◌≡◌, ◌+◌, Some, option_and_then, OnOk, OnErr};
ghost use Rattle.sx_base.specs.Entries.{change_at, value_at};
ghost use Rattle.sx_tree.specs.Shift.{is_named, left_place, other_child, relist, relocated, replaced_at, shift};
ghost use Rattle.sx_tree.specs.Shift.{without_replaced};
ghost use Rattle.sx_tree.specs.Tree.{child_of, slots_use};

use crate::slot::NodeSlot;
use crate::tree::{Tree, add_child, drop_child, use_at};
use std::collections::BTreeMap;
use sx_memory::NoMemory;
use sx_names::{Folded, Part};

impl Tree {
    /// Gives a node another directory and another name, and removes another node that stands there. All memory is taken
    /// before anything changes: where it runs out all is as before. Nothing changes where the id is no node's.
    pub fn shift(&mut self, id: u64, parent: u64, name: Part) -> Result<(), NoMemory>
        ensures ok { OnOk result (self.new ≡ shift id parent name self.old) }
        ensures err { OnErr result (self.new ≡ self.old) }
    {
        if !self.nodes.contains_key(&id) {
            return Ok(());
        }
        let folded = name.folded().copy()?;
        let replaced = replaced_at(&self.nodes, id, parent, &folded);
        if !add_child(&mut self.nodes, parent, folded, id) {
            return Err(NoMemory);
        }
        self.used -= take_out(&mut self.nodes, replaced);
        relist(&mut self.nodes, id, parent, name);
        Ok(())
    }
}

/// The id of another node than one that stands under a folded name in a directory, if there is one.
fn replaced_at(nodes: &BTreeMap<u64, NodeSlot>, id: u64, parent: u64, name: &Folded) -> Option<u64>
    ensures { result ≡ replaced_at nodes.now.entries id parent name.now }
{
    match nodes.get(&parent) {
        Some(slot) => slot.other_child(id, name),
        None => None,
    }
}

/// Takes the node of an id out, if there is an id. It answers how many granules were marked in it.
fn take_out(nodes: &mut BTreeMap<u64, NodeSlot>, id: Option<u64>) -> u64
    ensures entries { nodes.new.entries ≡ without_replaced id nodes.old.entries }
    ensures used { slots_use nodes.new.entries + result ≡ slots_use nodes.old.entries }
{
    match id {
        Some(id) => {
            let used = use_at(nodes, id);
            nodes.remove(&id);
            used
        }
        None => 0,
    }
}

/// Gives a node another directory and name, and takes the name that it had out of the directory that it was in, but
/// where both are the same.
fn relist(nodes: &mut BTreeMap<u64, NodeSlot>, id: u64, parent: u64, name: Part)
    ensures { nodes.new.entries ≡ relist id parent name nodes.old.entries }
{
    if let Some((left, old)) = relocate(nodes, id, parent, name) {
        drop_child(nodes, left, old.folded());
    }
}

/// Gives a node another directory and name. It answers the directory and the name that it had, where it was listed in
/// another place.
fn relocate(
    nodes: &mut BTreeMap<u64, NodeSlot>,
    id: u64,
    parent: u64,
    name: Part,
) -> Option<(u64, Part)>
    ensures entries { nodes.new.entries ≡ change_at id (relocated parent name) nodes.old.entries }
    ensures place { result ≡ option_and_then (left_place parent name) (value_at nodes.old.entries id) }
{
    match nodes.get_mut(&id) {
        Some(slot) => slot.relocate(parent, name),
        None => None,
    }
}

impl NodeSlot {
    /// The id under a folded name, if this is a directory that has one, and it is another id.
    fn other_child(&self, id: u64, name: &Folded) -> Option<u64>
        ensures { result ≡ other_child id (child_of (Some self.now) name.now) }
    {
        match self.child(name) {
            Some(Some(child)) if child != id => Some(child),
            _ => None,
        }
    }

    /// Gives the node another directory and name. It answers the directory and the name that it had, where it was
    /// listed in another place.
    fn relocate(&mut self, parent: u64, name: Part) -> Option<(u64, Part)>
        ensures slot { self.new ≡ relocated parent name self.old }
        ensures place { result ≡ left_place parent name self.old }
    {
        let left = self.node.parent;
        self.node.parent = parent;
        let stays = left == parent && is_named(&self.name, &name);
        let old = self.name.replace(name);
        match old {
            Some(old) if !stays => Some((left, old)),
            _ => None,
        }
    }
}

/// Whether there is a name, which is the same as another but for its spelling.
fn is_named(kept: &Option<Part>, name: &Part) -> bool
    ensures { result ≡ is_named kept.now name.now }
{
    match kept {
        Some(kept) => kept.folded() == name.folded(),
        None => false,
    }
}
