//! Closing handles: the open goes with its locks, and its node where it is to go with its last open.
ghost use Rattle.std.specs.Prelude.{◌≡◌};
ghost use Rattle.sx_spec.specs.Account.{slot_of_open};
ghost use Rattle.sx_spec.specs.Changes.{close, close_all, close_fate, goes_at_close, take_open};
ghost use Rattle.sx_tree.specs.Tree.{slot_at};

use crate::state::State;
use crate::trees::fate_of;
use sx_call::{Fate, Open};
use sx_guard::HandleId;
use sx_tree::Tree;

/// Whether the node of an id is to go with its last open: it is pending, or the open is marked for delete on close and
/// the node is a file or an empty directory.
fn goes_at_close(tree: &Tree, id: u64, on_close: bool) -> bool
    ensures { result ≡ goes_at_close on_close (slot_at tree.now id) }
{
    match tree.node(id) {
        Some(node) => {
            node.facts.pending || (on_close && (!node.kind.is_directory() || tree.is_empty(id)))
        }
        None => false,
    }
}

impl State {
    /// Takes the open of a handle away, with its locks.
    #[tactic(auto, unfolding(sx_spec::specs::Changes::take_open))]
    pub fn take_open(&mut self, handle: HandleId)
        ensures { self.new ≡ take_open handle self.old }
    {
        self.opens.take(handle);
        self.locks.take_of(handle);
    }

    /// Whether the node of an open is to go with its last open.
    fn goes_with(&self, held: &Open) -> bool
        ensures { result ≡ goes_at_close held.now.on_close (slot_of_open self.now held.now) }
    {
        match self.shares.get(&held.share) {
            Some(share) => goes_at_close(&share.tree, held.node, held.on_close),
            None => false,
        }
    }

    /// Closes a handle, and says what became of its node: it goes with its last open where it is to go, and until then
    /// is pending. It takes no memory.
    #[tactic(auto, unfolding(sx_spec::specs::Changes::close, sx_spec::specs::Changes::close_fate))]
    pub fn close(&mut self, held: Open) -> Fate
        ensures closed { self.new ≡ close held self.old }
        ensures fate { result ≡ close_fate held self.old }
    {
        let goes = self.goes_with(&held);
        self.take_open(held.handle);
        let fate = fate_of(goes, self.is_opened(held.node));
        self.settle(held.share, held.node, fate);
        fate
    }

    /// Closes handles one after another. It takes no memory.
    #[tactic(auto, unfolding(sx_spec::specs::Changes::close_all))]
    pub fn close_all(&mut self, opens: &[Open])
        ensures { self.new ≡ close_all opens.now self.old }
    {
        for held in opens.iter() {
            self.close(*held);
        }
    }
}
