//! The quota of a share.

ghost use Rattle.std.specs.Prelude.{◌≡◌};
ghost use Rattle.sx_names.specs.Limits.{IsQuota};

use std::marker::Model;

/// The greatest quota of a share, in GiB.
pub const MAX_QUOTA: u32 = 5120;

/// A share's quota: 1 to 5,120 GiB ("Create Share" of Azure Files). Contracts see the number of GiB.
#[derive(Clone, Copy, Debug, PartialEq, Eq)]
pub struct Quota {
    gib: u32,
}

impl Model for Quota {
    ghost use Rattle.std.specs.Prelude.{ℕ};
    ghost use Rattle.sx_names.specs.Limits.{IsQuota};

    ghost Value = { ℕ };

    ghost view = { λ q. q.gib };

    ghost invariant = { λ q. IsQuota q.gib };

    ghost inverse = { λ n. record { gib = n } };
}

impl Quota {
    /// A quota of so many GiB.
    pub fn of(gib: u32) -> Quota
        requires { IsQuota gib }
        ensures { result ≡ gib }
    {
        Quota { gib }
    }

    /// The number of GiB.
    pub fn gib(self) -> u32
        ensures value { result ≡ self }
        ensures limits { IsQuota self }
    {
        self.gib
    }
}
