//! Why a request was not read.

use std::alloc::AllocError;
use sx_call::Syntax;
use sx_memory::NoMemory;

/// Why a request was not read.
#[derive(Debug, Drop)]
pub enum Unread {
    /// The request is no call, for this reason.
    Syntax(Syntax),
    /// No memory was left to keep the call, or the reason.
    NoMemory,
}

impl From<AllocError> for Unread {
    ghost use Rattle.std.specs.Prelude.{◌≡◌};
    ghost use Rattle.sx_decode.specs.declared.unread.Unread.TheVariants.{NoMemory};

    ghost from_gives = { λ _ e. e ≡ NoMemory };

    fn from(_error: AllocError) -> Unread {
        Unread::NoMemory
    }
}

impl From<NoMemory> for Unread {
    ghost use Rattle.std.specs.Prelude.{◌≡◌};
    ghost use Rattle.sx_decode.specs.declared.unread.Unread.TheVariants.{NoMemory};

    ghost from_gives = { λ _ e. e ≡ NoMemory };

    fn from(_error: NoMemory) -> Unread {
        Unread::NoMemory
    }
}
