//! Why a call is refused, or not done at all.

use sx_guard::{HandleId, Held};
use sx_moment::Moment;
use sx_names::{NameRule, Text};

/// Why the account refuses a call. A refused call changes nothing, and stands in the history.
#[derive(Clone, Copy, Debug, PartialEq, Eq)]
pub enum Refusal {
    /// No share has this name.
    ShareAbsent,
    /// A share has this name already.
    ShareThere,
    /// The share has no snapshot of this moment.
    SnapshotAbsent {
        /// The moment that was asked for.
        moment: Moment,
    },
    /// A proper prefix of the path is no directory.
    ParentAbsent {
        /// The number of the first such prefix's parts, from 1.
        parts: u32,
    },
    /// Nothing has this name.
    NameAbsent,
    /// A file or directory has this name already.
    NameThere {
        /// Its id.
        id: u64,
    },
    /// It is a directory, and a file is wanted.
    IsDirectory {
        /// Its id.
        id: u64,
    },
    /// It is a file, and a directory is wanted.
    IsFile {
        /// Its id.
        id: u64,
    },
    /// It is deleted when its last handle is closed.
    Pending {
        /// Its id.
        id: u64,
    },
    /// The directory isn't empty.
    NotEmpty {
        /// Its id.
        id: u64,
    },
    /// It has the attribute read-only.
    ReadOnly {
        /// Its id.
        id: u64,
    },
    /// A lease is held, and the call would write and gives no id.
    LeaseHeld,
    /// The lease is held under another id than the one that the call gives.
    LeaseOther {
        /// Whether it is a share's lease, and else a file's.
        share: bool,
    },
    /// The call gives a lease id, and no lease is held.
    NoLease {
        /// Whether it is a share's lease, and else a file's.
        share: bool,
    },
    /// The lease is held under another id than the one to acquire it under.
    LeaseTaken,
    /// The lease is held under another id than the one to change or release.
    LeaseIdWrong,
    /// There is no lease to change, release or break.
    LeaseNotThere,
    /// An open handle doesn't share what the call does.
    Shared {
        /// The least such handle.
        handle: HandleId,
    },
    /// A byte-range lock is in the way.
    Locked {
        /// The lock with the least handle, then start, then end.
        held: Held,
    },
    /// The handle has no lock of exactly this range and kind.
    NotLocked,
    /// The range doesn't lie in the file.
    OutOfFile {
        /// The file's length in bytes.
        length: u64,
    },
    /// The share's quota has no room.
    QuotaMet {
        /// The share's use, in granules of 512 bytes.
        used: u64,
        /// How many granules the call would use beside them.
        more: u64,
        /// The quota, in granules.
        limit: u64,
    },
    /// The share has as many snapshots as it may have.
    SnapshotsFull {
        /// How many they are.
        n: u64,
    },
    /// The share has snapshots, which the call doesn't delete.
    SnapshotsStand {
        /// How many they are.
        n: u64,
    },
    /// The file or directory has as many opens as it may have.
    OpensFull {
        /// How many they are.
        n: u64,
    },
    /// The session has no such handle open.
    NoHandle {
        /// The handle that was named.
        handle: HandleId,
    },
    /// The handle lacks the access that the call needs.
    LacksAccess {
        /// The handle.
        handle: HandleId,
    },
}

/// Why a request is no call: the first of these that applies, in the order in which a request is read.
#[derive(Debug, Drop)]
pub enum Syntax {
    /// The method isn't one of the four that calls have.
    Verb,
    /// A header is repeated, or its value isn't read.
    Header(Text),
    /// The target's path breaks a rule of names.
    Uri {
        /// The rule.
        rule: NameRule,
        /// The part, 0 for the share and from 1 for those of the path.
        part: u32,
        /// The offset in the part, in bytes.
        at: u64,
    },
    /// A parameter of the query is repeated, isn't read, or has no place in this call.
    Query(Text),
    /// No call has this method, path, restype and comp.
    NoCall,
    /// A header that the call needs is absent.
    Missing(Text),
    /// A number of a header or query is out of its limits.
    Range(Text),
    /// The body hasn't the MD5 that the request states.
    Md5,
}

/// Why a call wasn't appended to the history. Nothing has changed then.
#[derive(Clone, Copy, Debug, PartialEq, Eq)]
pub enum Stop {
    /// No memory was left.
    NoMemory,
    /// The history is full: it keeps room for the end of each live session.
    HistoryFull {
        /// How many entries the history has.
        entries: u64,
        /// How many sessions are live.
        sessions: u64,
        /// The history's limit.
        limit: u64,
    },
}
