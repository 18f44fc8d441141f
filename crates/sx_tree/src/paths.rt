//! The path of a node.
ghost use Rattle.std.specs.Prelude.{◌≡◌, ◌==◌, IfOk, OnOk};
ghost use Rattle.std.specs.String.{string_bytes};
ghost use Rattle.sx_tree.specs.Climbs.{longer_path, path_of, path_up};

use crate::tree::Tree;
use std::string::String;
use sx_memory::NoMemory;
use sx_names::{Part, Text};

impl Tree {
    /// The path of a node: the kept names on the way to it from the root, with a slash between each two. It is empty
    /// for the root.
    pub fn path_of(&self, id: u64) -> Result<Text, NoMemory>
        ensures { IfOk result (λ text. text ≡ path_of self.now id) }
    {
        let text = self.path_up(self.count(), id)?;
        Text::copy_of(self.alloc, text.as_str())
    }

    /// The path of a node to which fewer steps than a number lead from the root.
    fn path_up(&self, steps: usize, id: u64) -> Result<String, NoMemory>
        ensures { IfOk result (λ text. string_bytes text ≡ path_up self.now steps id) }
    {
        if steps == 0 {
            return Ok(String::new(self.alloc));
        }
        match self.nodes.get(&id) {
            Some(slot) => match &slot.name {
                Some(name) => {
                    let mut text = self.path_up(steps - 1, slot.node.parent)?;
                    add_name(&mut text, name)?;
                    Ok(text)
                }
                None => Ok(String::new(self.alloc)),
            },
            None => Ok(String::new(self.alloc)),
        }
    }
}

/// Adds a name to a path.
fn add_name(path: &mut String, name: &Part) -> Result<(), NoMemory>
    ensures { OnOk result (string_bytes path.new ≡ longer_path (string_bytes path.old) name.now) }
{
    if path.as_str().is_empty() {
        path.push_str(text_of(name))?;
        return Ok(());
    }
    path.push_str("/")?;
    path.push_str(text_of(name))?;
    Ok(())
}

/// A name as a text.
pub(crate) fn text_of(name: &Part) -> &str
    ensures { result.now ≡ name.now }
{
    match std::str::from_utf8(name.kept()) {
        Ok(text) => text,
        Err(_) => unreachable!(),
    }
}
