//! Why a line was not read.

use std::alloc::AllocError;
use sx_memory::NoMemory;

/// Why a line was not read.
#[derive(Clone, Copy, Debug, PartialEq, Eq)]
pub(crate) enum Unread {
    /// A word isn't as it must be, and so many bytes of the line are left from it on.
    Wrong { left: usize },
    /// No memory was left to keep the call.
    NoMemory,
}

impl From<AllocError> for Unread {
    ghost use Rattle.std.specs.Prelude.{◌≡◌};
    ghost use Rattle.sx_lines.specs.declared.unread.Unread.TheVariants.{NoMemory};

    ghost from_gives = { λ _ e. e ≡ NoMemory };

    fn from(_error: AllocError) -> Unread {
        Unread::NoMemory
    }
}

impl From<NoMemory> for Unread {
    ghost use Rattle.std.specs.Prelude.{◌≡◌};
    ghost use Rattle.sx_lines.specs.declared.unread.Unread.TheVariants.{NoMemory};

    ghost from_gives = { λ _ e. e ≡ NoMemory };

    fn from(_error: NoMemory) -> Unread {
        Unread::NoMemory
    }
}
