//! Why a request's signature was refused.

use std::alloc::AllocError;
use sx_base::NoMemory;

/// The first fault of a signed request, in this order ("Authorize with Shared Key" of Azure Storage; that requests
/// dated ahead are refused too is this project's own).
#[derive(Clone, Copy, Debug, PartialEq, Eq)]
pub enum AuthFault {
    /// There is no Authorization header.
    NoHeader,
    /// There are several, or its value isn't `SharedKey NAME:SIGNATURE`, with one space, the name of an account and the
    /// strict base64 of 32 bytes.
    BadHeader,
    /// It names another account.
    OtherAccount,
    /// There is neither an `x-ms-date` nor a Date.
    NoDate,
    /// There are several of it, or it is no date of HTTP (RFC 9110, section 5.6.7).
    BadDate,
    /// The date is more than 9,000,000,000 ticks of 100 ns before now.
    TooOld { dated: u64, now: u64 },
    /// The date is more than 9,000,000,000 ticks of 100 ns after now.
    TooNew { dated: u64, now: u64 },
    /// The signature isn't the one that the request has under the account's key.
    Differs,
    /// No memory was left to compute it.
    NoMemory,
}

impl From<NoMemory> for AuthFault {
    ghost use Rattle.std.specs.Prelude.{◌≡◌};
    ghost use Rattle.sx_key.specs.declared.fault.AuthFault.TheVariants.{NoMemory};

    ghost from_gives = { λ _ e. e ≡ NoMemory };

    fn from(_error: NoMemory) -> AuthFault {
        AuthFault::NoMemory
    }
}

impl From<AllocError> for AuthFault {
    ghost use Rattle.std.specs.Prelude.{◌≡◌};
    ghost use Rattle.sx_key.specs.declared.fault.AuthFault.TheVariants.{NoMemory};

    ghost from_gives = { λ _ e. e ≡ NoMemory };

    fn from(_error: AllocError) -> AuthFault {
        AuthFault::NoMemory
    }
}
