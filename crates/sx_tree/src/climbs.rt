//! What stands below a directory, by the way up from a node to the root.
ghost use Rattle.std.specs.Prelude.{◌≡◌, length, IfOk};
ghost use Rattle.sx_tree.specs.Climbs.{all_below, is_under, lies_below};

use crate::tree::Tree;
use sx_base::Items;
use sx_memory::NoMemory;

impl Tree {
    /// Whether a node is a directory's own or stands below it. It takes as many look-ups as there are directories above
    /// the node.
    pub fn is_under(&self, dir: u64, id: u64) -> bool
        ensures { result ≡ is_under self.now dir id }
    {
        let count = self.count();
        let mut at = id;
        for _ in 0..count {
            if at == dir {
                return true;
            }
            match self.nodes.get(&at) {
                Some(slot) => at = slot.node.parent,
                None => return false,
            }
        }
        false
    }

    /// The ids of all nodes below a directory, in order.
    pub fn below(&self, dir: u64) -> Result<Items<u64>, NoMemory>
        ensures { IfOk result (λ ids. ids ≡ all_below self.now dir) }
    {
        let mut ids = Items::new(self.alloc);
        for id in self.nodes.keys() {
            if self.lies_below(dir, *id) {
                ids.push(*id)?;
            }
        }
        Ok(ids)
    }

    /// Whether a node stands below a directory.
    fn lies_below(&self, dir: u64, id: u64) -> bool
        ensures { result ≡ lies_below self.now dir id }
    {
        self.is_under(dir, id) && id != dir
    }

    /// How many nodes there are.
    pub(crate) fn count(&self) -> usize
        ensures { result ≡ length self.now.slots }
    {
        self.nodes.len()
    }
}
