//! Shares, with the trees of their directories and files.
//!
//! A tree keeps its nodes by their ids, and in each directory the ids below it by their folded names. A path denotes
//! the node that the walk from the root reaches.
#![tactic(auto)]

mod body;
mod climbs;
mod copies;
mod find;
mod laws;
mod node;
mod pages;
mod paths;
mod share;
mod shift;
mod slot;
mod tree;

pub use body::BodyChange;
pub use laws::paths_are_a_map;
pub use node::{Facts, FileBody, Found, Kind, Node};
pub use share::{Share, Snapshot};
pub use sx_memory::NoMemory;
pub use tree::Tree;
