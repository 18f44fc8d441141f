//! Open handles, their access and share modes, and their byte-range locks.
#![tactic(auto)]

mod access;
mod handle;
mod locks;
mod ordered;
mod sharing;

pub use access::{Access, Mode};
pub use handle::{HandleId, HandleIndex};
pub use locks::{Held, LockFault, Locks};
pub use ordered::{Ordered, insert_ordered};
pub use sharing::{Opened, Sharing};
pub use sx_memory::NoMemory;
