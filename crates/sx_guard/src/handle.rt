//! The identity of an open handle, from the session that opened it and its index there, both from 1.
ghost use Rattle.std.specs.Prelude.{◌≡◌, ◌≤◌};

use std::marker::Model;

/// The identity of an open handle ([MS-SMB2], "FileId"): the session that opened it and the handle's index in that
/// session.
///
/// Both count from 1. Handles are ordered by session, then index, and are printed `SESSION.INDEX`.
#[derive(Clone, Copy, Debug, PartialEq, Eq, PartialOrd, Ord)]
pub struct HandleId {
    /// The session's number, from 1.
    pub session: u32,
    /// The index of the open in its session, from 1.
    pub index: u32,
}

impl Model for HandleId {
    ghost use Rattle.std.specs.Prelude.{◌≤◌};
    ghost use Rattle.sx_guard.specs.Handle.{Handle};

    ghost Value = { Handle };

    ghost view = { λ h. record { session = h.session; index = h.index } };

    ghost inverse = { λ h. record { session = h.session; index = h.index } };

    ghost invariant = { λ h. (1 ≤ h.session) × (1 ≤ h.index) };
}

/// The index of an open in its session, from 1. Contracts see the number.
#[derive(Clone, Copy, Debug, PartialEq, Eq, PartialOrd, Ord)]
pub struct HandleIndex {
    number: u32,
}

impl Model for HandleIndex {
    ghost use Rattle.std.specs.Prelude.{ℕ, ◌≤◌};

    ghost Value = { ℕ };

    ghost view = { λ i. i.number };

    ghost inverse = { λ n. record { number = n } };

    ghost invariant = { λ i. 1 ≤ i.number };
}

impl HandleIndex {
    /// The index of this number.
    pub fn of(number: u32) -> HandleIndex
        requires { 1 ≤ number }
        ensures { result ≡ number }
    {
        HandleIndex { number }
    }

    /// The number, at least 1.
    pub fn number(self) -> u32
        ensures value { result ≡ self }
        ensures least { 1 ≤ result }
    {
        self.number
    }
}
