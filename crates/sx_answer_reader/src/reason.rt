//! Why a session's call is refused, as its answer tells.
ghost use Rattle.std.specs.Prelude.{◌≡◌};
ghost use Rattle.sx_answer_reader.specs.Refusals.{conflict_word, reason_word};

use sx_guard::HandleId;

/// Why a session's call is refused.
#[derive(Clone, Copy, Debug, PartialEq, Eq)]
pub enum Reason {
    /// No share has this name.
    ShareAbsent,
    /// A proper prefix of the path is no directory.
    ParentAbsent {
        /// The number of the first such prefix's parts.
        parts: u32,
    },
    /// Nothing has this name.
    NameAbsent,
    /// A file or directory has this name already.
    NameThere {
        /// Its id.
        id: u64,
    },
    /// It is a directory, and a file is wanted.
    IsDirectory {
        /// Its id.
        id: u64,
    },
    /// It is a file, and a directory is wanted.
    IsFile {
        /// Its id.
        id: u64,
    },
    /// It is deleted when its last handle is closed.
    Pending {
        /// Its id.
        id: u64,
    },
    /// It has the attribute read-only.
    ReadOnly {
        /// Its id.
        id: u64,
    },
    /// A lease is held.
    LeaseHeld,
    /// An open handle doesn't share what the call does.
    Shared {
        /// The least such handle.
        handle: HandleId,
    },
    /// A byte-range lock is in the way.
    Locked {
        /// The handle that has the lock.
        handle: HandleId,
        /// The lock's first byte.
        first: u64,
        /// The lock's last byte.
        last: u64,
        /// Whether the call was one that locks.
        locking: bool,
    },
    /// The handle has no lock of exactly this range and kind.
    NotLocked,
    /// The share's quota has no room.
    QuotaMet {
        /// The share's use, in granules of 512 bytes.
        used: u64,
        /// How many granules the call would use beside them.
        more: u64,
        /// The quota, in granules.
        limit: u64,
    },
    /// The file or directory has as many opens as it may have.
    OpensFull {
        /// How many they are.
        n: u64,
    },
    /// The session has no such handle open.
    NoHandle {
        /// The handle that was named.
        handle: HandleId,
    },
    /// The handle lacks the access that the call needs.
    LacksAccess {
        /// The handle.
        handle: HandleId,
    },
}

/// The word of a lock in the way, to a call that locks and to any other.
fn conflict_word(locking: bool) -> &'static [u8]
    ensures { result.now ≡ conflict_word locking }
{
    if locking {
        b"LOCK_NOT_GRANTED"
    } else {
        b"FILE_LOCK_CONFLICT"
    }
}

/// The word of a refusal: the name of its NT status without `STATUS_`.
#[tactic(auto, unfolding(crate::specs::Refusals::reason_word))]
pub(crate) fn reason_word(reason: &Reason) -> &'static [u8]
    ensures { result.now ≡ reason_word reason.now }
{
    match reason {
        Reason::ShareAbsent => b"BAD_NETWORK_NAME",
        Reason::ParentAbsent { .. } => b"OBJECT_PATH_NOT_FOUND",
        Reason::NameAbsent => b"OBJECT_NAME_NOT_FOUND",
        Reason::NameThere { .. } => b"OBJECT_NAME_COLLISION",
        Reason::IsDirectory { .. } => b"FILE_IS_A_DIRECTORY",
        Reason::IsFile { .. } => b"NOT_A_DIRECTORY",
        Reason::Pending { .. } => b"DELETE_PENDING",
        Reason::ReadOnly { .. } => b"ACCESS_DENIED",
        Reason::LeaseHeld => b"SHARING_VIOLATION",
        Reason::Shared { .. } => b"SHARING_VIOLATION",
        Reason::Locked { locking, .. } => conflict_word(*locking),
        Reason::NotLocked => b"RANGE_NOT_LOCKED",
        Reason::QuotaMet { .. } => b"DISK_FULL",
        Reason::OpensFull { .. } => b"TOO_MANY_OPENED_FILES",
        Reason::NoHandle { .. } => b"INVALID_HANDLE",
        Reason::LacksAccess { .. } => b"ACCESS_DENIED",
    }
}
