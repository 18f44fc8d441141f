//! What a path leads to.
ghost use Rattle.std.specs.Prelude.{◌≡◌, Some};
ghost use Rattle.sx_tree.specs.Find.{found_in};
ghost use Rattle.sx_tree.specs.Tree.{child_of, slot_at};

use crate::node::Found;
use crate::tree::Tree;
use sx_names::{Folded, Path};

impl Tree {
    /// What a path leads to: a node, nothing in a directory that is there, or nothing at all.
    pub fn find(&self, path: &Path) -> Found
        ensures { result ≡ found_in self.now path.now }
    {
        let names = path.parts();
        let mut at = self.root;
        let mut parts = 0u32;
        for name in names {
            match self.child(at, name.folded()) {
                None => return Found::NoParent { parts },
                Some(None) => {
                    if parts as usize + 1 == names.len() {
                        return Found::Missing { parent: at };
                    }
                    return Found::NoParent { parts: parts + 1 };
                }
                Some(Some(child)) => at = child,
            }
            parts += 1;
        }
        Found::Node(at)
    }

    /// None where an id is no directory's, and in a directory the id under a folded name, if there is one.
    fn child(&self, id: u64, name: &Folded) -> Option<Option<u64>>
        ensures { result ≡ child_of (slot_at self.now id) name.now }
    {
        match self.nodes.get(&id) {
            Some(slot) => slot.child(name),
            None => None,
        }
    }
}
