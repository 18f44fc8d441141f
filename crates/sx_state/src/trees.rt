//! Changes of the trees of shares: each looks up what it changes, and changes nothing where it isn't there.
ghost use Rattle.std.specs.Prelude.{◌≡◌, ◌+◌, ◌<◌, ◌^◌, IfSome, None, OnErr, OnOk};
ghost use Rattle.sx_base.specs.Entries.{change_at, value_at};
ghost use Rattle.sx_spec.specs.Changes.{change_tree, delete_at, make_node, put_facts, put_file};
ghost use Rattle.sx_spec.specs.Trees.{change_node, fate_of, settle, with_facts, with_file};
ghost use Rattle.sx_state.specs.Changed.{facts_after};
ghost use Rattle.sx_state.specs.Ids.{IsFresh};
ghost use Rattle.sx_tree.specs.Body.{body_after};
ghost use Rattle.sx_tree.specs.Tree.{slot_at, with_node};

use crate::facts::{FactsChange, change_facts};
use crate::state::State;
use std::collections::BTreeMap;
use sx_call::Fate;
use sx_memory::NoMemory;
use sx_names::Part;
use sx_tree::{BodyChange, Node, Share, Tree};

/// Changes the facts of a node of a tree.
fn facts_in_tree(tree: &mut Tree, id: u64, change: FactsChange)
    ensures { tree.new ≡ change_node id (with_facts (facts_after change)) tree.old }
{
    match tree.facts_mut(id) {
        Some(facts) => change_facts(facts, change),
        None => {}
    }
}

/// Changes the body and the facts of a file of a tree.
fn file_in_tree(
    tree: &mut Tree,
    id: u64,
    body: BodyChange,
    facts: FactsChange,
) -> Result<(), NoMemory>
    ensures ok { OnOk result (tree.new ≡ change_node id (with_file (body_after body) (facts_after facts)) tree.old) }
    ensures err { OnErr result (tree.new ≡ tree.old) }
{
    match tree.change_body(id, body) {
        Ok(()) => {
            facts_in_tree(tree, id, facts);
            Ok(())
        }
        Err(failed) => Err(failed),
    }
}

/// Settles a node of a tree: it stays, is pending, or goes.
fn settle_in_tree(tree: &mut Tree, id: u64, fate: Fate)
    ensures { tree.new ≡ settle fate id tree.old }
{
    match fate {
        Fate::Kept => {}
        Fate::Pending => facts_in_tree(tree, id, FactsChange::Pending),
        Fate::Gone => tree.remove(id),
    }
}

/// Changes the facts of a node of a share.
fn facts_in_share(share: &mut Share, id: u64, change: FactsChange)
    ensures { share.new ≡ record share.old { tree = change_node id (with_facts (facts_after change)) share.old.tree } }
{
    facts_in_tree(&mut share.tree, id, change);
}

/// Changes the body and the facts of a file of a share.
fn file_in_share(
    share: &mut Share,
    id: u64,
    body: BodyChange,
    facts: FactsChange,
) -> Result<(), NoMemory>
    ensures ok { OnOk result (share.new
        ≡ record share.old { tree = change_node id (with_file (body_after body) (facts_after facts)) share.old.tree }) }
    ensures err { OnErr result (share.new ≡ share.old) }
{
    file_in_tree(&mut share.tree, id, body, facts)
}

/// Settles a node of a share.
fn settle_in_share(share: &mut Share, id: u64, fate: Fate)
    ensures { share.new ≡ record share.old { tree = settle fate id share.old.tree } }
{
    settle_in_tree(&mut share.tree, id, fate);
}

/// Puts a node of a new id under a name into its directory in a share.
fn make_in_share(share: &mut Share, name: Part, node: Node) -> Result<(), NoMemory>
    requires { slot_at share.old.tree node.id ≡ None }
    ensures ok { OnOk result (share.new ≡ record share.old { tree = with_node share.old.tree node.parent name node }) }
    ensures err { OnErr result (share.new ≡ share.old) }
{
    let parent = node.parent;
    share.tree.insert(parent, name, node)
}

/// Changes the facts of a node of the share of a number.
fn facts_in(shares: &mut BTreeMap<u32, Share>, number: u32, id: u64, change: FactsChange)
    ensures { shares.new.entries
        ≡ change_at number (λ x. record x { tree = change_node id (with_facts (facts_after change)) x.tree })
        shares.old.entries }
{
    if let Some(share) = shares.get_mut(&number) {
        facts_in_share(share, id, change);
    }
}

/// Changes the body and the facts of a file of the share of a number.
fn file_in(
    shares: &mut BTreeMap<u32, Share>,
    number: u32,
    id: u64,
    body: BodyChange,
    facts: FactsChange,
) -> Result<(), NoMemory>
    ensures ok { OnOk result (shares.new.entries
        ≡ change_at number
        (λ x. record x { tree = change_node id (with_file (body_after body) (facts_after facts)) x.tree })
        shares.old.entries) }
    ensures err { OnErr result (shares.new.entries ≡ shares.old.entries) }
{
    match shares.get_mut(&number) {
        Some(share) => file_in_share(share, id, body, facts),
        None => Ok(()),
    }
}

/// Settles a node of the share of a number.
fn settle_in(shares: &mut BTreeMap<u32, Share>, number: u32, id: u64, fate: Fate)
    ensures { shares.new.entries
        ≡ change_at number (λ x. record x { tree = settle fate id x.tree }) shares.old.entries }
{
    if let Some(share) = shares.get_mut(&number) {
        settle_in_share(share, id, fate);
    }
}

/// Puts a node of a new id under a name into its directory in the share of a number.
pub(crate) fn make_in(
    shares: &mut BTreeMap<u32, Share>,
    number: u32,
    name: Part,
    node: Node,
) -> Result<(), NoMemory>
    requires { IfSome (value_at shares.old.entries number) (λ x. slot_at x.tree node.id ≡ None) }
    ensures ok { OnOk result (shares.new.entries
        ≡ change_at number (λ x. record x { tree = with_node x.tree node.parent name node }) shares.old.entries) }
    ensures err { OnErr result (shares.new.entries ≡ shares.old.entries) }
{
    match shares.get_mut(&number) {
        Some(share) => make_in_share(share, name, node),
        None => Ok(()),
    }
}

/// What becomes of a node: one that is to go goes where nothing is open on it, and else is pending.
pub(crate) fn fate_of(goes: bool, is_open: bool) -> Fate
    ensures { result ≡ fate_of goes is_open }
{
    if goes {
        if is_open {
            return Fate::Pending;
        }
        return Fate::Gone;
    }
    Fate::Kept
}

impl State {
    /// Settles a node: it stays, is pending, or goes.
    pub(crate) fn settle(&mut self, number: u32, id: u64, fate: Fate)
        ensures { self.new ≡ change_tree number (settle fate id) self.old }
    {
        settle_in(&mut self.shares, number, id, fate);
    }

    /// Deletes a node: it goes where nothing is open on it, and else is pending.
    #[tactic(auto, unfolding(sx_spec::specs::Changes::delete_at))]
    pub fn delete_at(&mut self, number: u32, id: u64)
        ensures { self.new ≡ delete_at number id self.old }
    {
        let fate = fate_of(true, self.is_opened(id));
        self.settle(number, id, fate);
    }

    /// Changes the facts of a node.
    #[tactic(auto, unfolding(sx_spec::specs::Changes::put_facts))]
    pub fn put_facts(&mut self, number: u32, id: u64, change: FactsChange)
        ensures { self.new ≡ put_facts number id (facts_after change) self.old }
    {
        facts_in(&mut self.shares, number, id, change);
    }

    /// Changes the body and the facts of a file. Where memory runs out, all is as before.
    #[tactic(auto, unfolding(sx_spec::specs::Changes::put_file))]
    pub fn put_file(
        &mut self,
        number: u32,
        id: u64,
        body: BodyChange,
        facts: FactsChange,
    ) -> Result<(), NoMemory>
        ensures ok { OnOk result (self.new ≡ put_file number id (body_after body) (facts_after facts) self.old) }
        ensures err { OnErr result (self.new ≡ self.old) }
    {
        file_in(&mut self.shares, number, id, body, facts)
    }

    /// Puts a node of the next file id under a name into its directory. Where memory runs out, all is as before.
    #[tactic(auto, unfolding(sx_spec::specs::Changes::make_node))]
    pub fn make_node(&mut self, number: u32, name: Part, node: Node) -> Result<(), NoMemory>
        requires fresh { IsFresh self.old }
        requires next { node.id ≡ self.old.next_id }
        requires ids { self.old.next_id + 1 < 2 ^ 64 }
        ensures ok { OnOk result (self.new ≡ make_node number name node self.old) }
        ensures err { OnErr result (self.new ≡ self.old) }
    {
        match make_in(&mut self.shares, number, name, node) {
            Ok(()) => {
                self.next_id += 1;
                Ok(())
            }
            Err(failed) => Err(failed),
        }
    }
}
