//! What a call is checked for at its place, as data: the definitions of the step and the code of the checks share it.

use sx_call::Lock;
use sx_guard::{Access, HandleId, Mode};
use sx_lease::{LeaseId, LeaseSay, LeaseState};

/// The interval of a file, in bytes, that a call reads or writes, by which it meets locks.
#[derive(Clone, Copy)]
pub enum Touch {
    /// None: the call looks at no lock.
    Untouched,
    /// It reads the bytes from `from` on that lie before `end`.
    Reads {
        /// The first byte's place.
        from: u64,
        /// The place behind the last byte.
        end: u64,
    },
    /// It writes the bytes from `from` on that lie before `end`.
    Writes {
        /// The first byte's place.
        from: u64,
        /// The place behind the last byte.
        end: u64,
    },
}

/// What a call asks of the lease at its place.
#[derive(Clone, Copy)]
pub enum LeaseAsk {
    /// Nothing.
    AnyLease,
    /// That the lease lets a call pass that gives this id or none, and writes or reads.
    Passes {
        /// Whether the lease is a share's, and not a file's.
        share: bool,
        /// How the lease stands.
        state: LeaseState,
        /// The lease id that the call gives.
        given: Option<LeaseId>,
        /// Whether the call writes under the lease.
        writes: bool,
    },
    /// That an action on the lease is granted: the state that it leaves, and its answer.
    Acts((LeaseState, LeaseSay)),
    /// That no lease is held on a file that a session opens with this access, where that may change the file.
    Unleased {
        /// How the file's lease stands.
        state: LeaseState,
        /// The access that the session asks for.
        access: Access,
    },
}

/// What a call asks of the open handles.
#[derive(Clone, Copy)]
pub enum OpenAsk {
    /// Nothing.
    AnyOpens,
    /// That no open of a node forbids this access and share mode.
    Beside {
        /// The node's id.
        id: u64,
        /// The access that is asked for.
        access: Access,
        /// The share mode that is asked for.
        mode: Mode,
    },
    /// That nothing is open in a share.
    NoneIn {
        /// The share's number.
        number: u32,
    },
    /// That no open of a node has write or delete.
    NoneChanging {
        /// The node's id.
        id: u64,
    },
}

/// What a call asks of the byte-range locks.
#[derive(Clone, Copy)]
pub enum LockAsk {
    /// Nothing.
    AnyLocks,
    /// That no lock of a node forbids a handle, or a REST call, to read or write an interval.
    Touching {
        /// The node's id.
        id: u64,
        /// The handle that touches it, none of a REST call.
        by: Option<HandleId>,
        /// What it touches.
        touch: Touch,
    },
    /// That no lock of a node meets a new one.
    NewLock {
        /// The node's id.
        id: u64,
        /// The first byte's place.
        from: u64,
        /// The place behind the last byte.
        end: u64,
        /// Whether the new lock is exclusive.
        exclusive: bool,
    },
    /// That this very lock is held.
    OldLock(Lock),
}

/// What a call asks of the lease, the opens and the locks at its place.
#[derive(Clone, Copy)]
pub struct Asks {
    /// What it asks of the lease.
    pub lease: LeaseAsk,
    /// What it asks of the opens.
    pub opens: OpenAsk,
    /// What it asks of the locks.
    pub locks: LockAsk,
}

/// A limit that a call meets, with the count that stands.
#[derive(Clone, Copy)]
pub enum Limit {
    /// The share has 200 snapshots.
    TooManySnapshots {
        /// How many there are.
        n: u64,
    },
    /// The share is to be deleted without its snapshots, and has some.
    StandingSnapshots {
        /// How many there are.
        n: u64,
    },
    /// The node has 2,000 opens.
    TooManyOpens {
        /// How many there are.
        n: u64,
    },
}

/// A share's use, what a call would add to it and the share's quota, in granules of 512 bytes.
#[derive(Clone, Copy)]
pub struct Overuse {
    /// The marked granules of the share's tree.
    pub used: u64,
    /// The granules that the call would mark and that have no mark.
    pub more: u64,
    /// The quota.
    pub limit: u64,
}

/// What a call is checked for at its place. Each field refuses in a way of its own, so the order of refusals is one
/// definition.
#[derive(Clone, Copy)]
pub struct Checks {
    /// The id of a directory that is to be empty and isn't.
    pub empty: Option<u64>,
    /// The id of a file that has the ReadOnly attribute, where the call heeds it.
    pub read_only: Option<u64>,
    /// What is asked of the lease, the opens and the locks.
    pub asks: Asks,
    /// The length of a file in which the call's range doesn't lie.
    pub range: Option<u64>,
    /// By what the share's quota would be passed.
    pub quota: Option<Overuse>,
    /// A limit that is met.
    pub limits: Option<Limit>,
}
