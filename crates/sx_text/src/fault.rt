//! Why nothing was read.
ghost use Rattle.std.specs.Prelude.{◌≡◌};
ghost use Rattle.sx_text.specs.declared.fault.Fault.TheVariants.{NoMemory as OutOfMemory, Unread as UnreadBytes};

use std::alloc::{AllocError, AllocFailed};
use sx_memory::NoMemory;

/// The bytes begin no text of the form from a place on: `left` bytes are left behind their longest prefix that begins
/// one.
#[derive(Clone, Copy, Debug, PartialEq, Eq)]
pub struct Unread {
    /// How many bytes are left behind the longest prefix, at most as many as there are.
    pub left: usize,
}

/// Why a reader that takes memory gives no value.
#[derive(Clone, Copy, Debug, PartialEq, Eq)]
pub enum Fault {
    /// Out of memory.
    NoMemory,
    /// The bytes begin no text of the form from the place on at which so many are left.
    Unread { left: usize },
}

impl From<Unread> for Fault {
    ghost from_gives = { λ unread fault. fault ≡ UnreadBytes unread.left };

    fn from(unread: Unread) -> Fault {
        Fault::Unread { left: unread.left }
    }
}

impl From<AllocError> for Fault {
    ghost from_gives = { λ _ fault. fault ≡ OutOfMemory };

    fn from(_error: AllocError) -> Fault {
        Fault::NoMemory
    }
}

impl<T: Drop> From<AllocFailed<T>> for Fault {
    ghost from_gives = { λ _ fault. fault ≡ OutOfMemory };

    fn from(_error: AllocFailed<T>) -> Fault {
        Fault::NoMemory
    }
}

impl From<NoMemory> for Fault {
    ghost from_gives = { λ _ fault. fault ≡ OutOfMemory };

    fn from(_error: NoMemory) -> Fault {
        Fault::NoMemory
    }
}
