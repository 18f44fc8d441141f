//! Leases in calls and replies.
ghost use Rattle.std.specs.Prelude.{◌≡◌};
ghost use Rattle.sx_call.specs.Limits.{if_within};
ghost use Rattle.sx_call.specs.Leases.{is_read_scope};

use std::marker::Model;
use sx_lease::LeaseId;
use sx_moment::Moment;

/// What Lease File and Lease Share do with a lease.
#[derive(Clone, Copy, Debug, PartialEq, Eq)]
pub enum LeaseAction {
    /// Acquires it.
    Acquire {
        /// The id under which it is wanted. With none the service makes one.
        proposed: Option<LeaseId>,
    },
    /// Holds it under another id from now on.
    Change {
        /// The id under which it is held.
        id: LeaseId,
        /// The id under which it is wanted.
        to: LeaseId,
    },
    /// Gives it up.
    Release {
        /// The id under which it is held.
        id: LeaseId,
    },
    /// Breaks it, whoever holds it.
    Break,
}

/// What a reading call looks into: a snapshot, or the share as it stands, there with a lease id where one is given. A
/// snapshot has no lease, so both are never given.
#[derive(Clone, Copy, Debug, PartialEq, Eq)]
pub struct SnapOrLease {
    /// The moment of the snapshot that is read.
    pub snap: Option<Moment>,
    /// The id under which the lease of the share or file is held.
    pub lease: Option<LeaseId>,
}

impl Model for SnapOrLease {
    ghost use Rattle.std.specs.Prelude.{◌≡◌, true};
    ghost use Rattle.sx_call.specs.Leases.{ReadScope, is_read_scope};

    ghost Value = { ReadScope };

    ghost view = { λ s. record { snap = s.snap; lease = s.lease } };

    ghost invariant = { λ s. is_read_scope (record { snap = s.snap; lease = s.lease }) ≡ true };

    ghost inverse = { λ r. record { snap = r.snap; lease = r.lease } };
}

impl SnapOrLease {
    /// A snapshot or a lease id, where both aren't given.
    pub fn of(snap: Option<Moment>, lease: Option<LeaseId>) -> Option<SnapOrLease>
        ensures { result ≡ if_within is_read_scope (record { snap = snap; lease = lease }) }
    {
        if snap.is_some() && lease.is_some() {
            None
        } else {
            Some(SnapOrLease { snap, lease })
        }
    }
}

/// What is shown of a lease.
#[derive(Clone, Copy, Debug, PartialEq, Eq)]
pub enum LeaseShown {
    /// It is held.
    Leased,
    /// Nobody holds it.
    Available,
    /// It was broken and not acquired since.
    Broken,
}
