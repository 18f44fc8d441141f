//! The byte-range locks of one file, and what they forbid.
ghost use Rattle.std.specs.Prelude.{◌≡◌, ◌↔◌, ◌<◌, [], false, not, All, IfNone, IfSome, IsOkUnless, IsTrue};
ghost use Rattle.std.specs.Prelude.{List, MatchOption, OnErr, OnOk, Some, filter, find, length, position};
ghost use Rattle.std.specs.List.{list_any};
ghost use Rattle.sx_guard.specs.Ordered.{IsLeast, insert_by, remove_first};
ghost use Rattle.sx_guard.specs.Locks.{AreLocks, forbids_lock, forbids_read, forbids_write, is_held_by, is_lock};
ghost use Rattle.sx_guard.specs.Locks.{lock_before, overlaps, SharesByte};

use crate::handle::HandleId;
use crate::ordered::{Ordered, insert_ordered};
use std::alloc::Global;
use std::marker::Model;
use sx_memory::NoMemory;

/// A byte-range lock: the handle that holds it, its bytes, at least one, and its kind.
#[derive(Clone, Copy, Debug, PartialEq, Eq)]
pub struct Held {
    /// The handle that holds it.
    pub handle: HandleId,
    /// The place of the first byte.
    pub from: u64,
    /// The place past the last byte, above `from`.
    pub end: u64,
    /// Whether it is exclusive; else it is shared.
    pub exclusive: bool,
}

impl Model for Held {
    ghost use Rattle.std.specs.Prelude.{◌<◌};
    ghost use Rattle.sx_guard.specs.Locks.{RangeLock};

    ghost Value = { RangeLock };

    ghost view = { λ l. record { handle = l.handle; from = l.from; end = l.end; exclusive = l.exclusive } };

    ghost inverse = { λ l. record { handle = l.handle; from = l.from; end = l.end; exclusive = l.exclusive } };

    ghost invariant = { λ l. l.from < l.end };
}

/// Why a lock isn't granted.
#[derive(Clone, Copy, Debug, PartialEq, Eq)]
pub enum LockFault {
    /// This lock is in the way.
    Meets(Held),
    /// No lock is in the way, and there was no memory for the new one.
    NoMemory,
}

impl Held {
    /// Whether this lock shares a byte with an interval. An empty interval has none to share.
    pub fn overlaps(&self, from: u64, end: u64) -> bool
        ensures test { result ≡ overlaps from end self.now }
        ensures byte { IsTrue result ↔ SharesByte from end self.now }
    {
        from.max(self.from) < end.min(self.end)
    }

    /// Whether this lock is held by a handle.
    fn is_held_by(&self, by: Option<HandleId>) -> bool
        ensures { result ≡ is_held_by by self.now }
    {
        by.is_some_and(|handle| handle == self.handle)
    }

    /// Whether this lock forbids a read by a handle, or by none.
    fn forbids_read(&self, by: Option<HandleId>, from: u64, end: u64) -> bool
        ensures { result ≡ forbids_read by from end self.now }
    {
        self.overlaps(from, end) && self.exclusive && !self.is_held_by(by)
    }

    /// Whether this lock forbids a write by a handle, or by none.
    fn forbids_write(&self, by: Option<HandleId>, from: u64, end: u64) -> bool
        ensures { result ≡ forbids_write by from end self.now }
    {
        self.overlaps(from, end) && (!self.exclusive || !self.is_held_by(by))
    }

    /// Whether this lock forbids a new one of a kind, whoever holds it.
    fn forbids_lock(&self, exclusive: bool, from: u64, end: u64) -> bool
        ensures { result ≡ forbids_lock exclusive from end self.now }
    {
        self.overlaps(from, end) && (exclusive || self.exclusive)
    }

    /// Whether this is a handle's lock on exactly this interval and of this kind.
    fn is_lock(&self, by: HandleId, from: u64, end: u64, exclusive: bool) -> bool
        ensures { result ≡ is_lock by from end exclusive self.now }
    {
        by == self.handle && from == self.from && end == self.end && exclusive == self.exclusive
    }
}

impl Ordered for Held {
    ghost before = { lock_before };

    fn comes_before(&self, other: &Held) -> bool {
        self.handle < other.handle
            || self.handle == other.handle
                && (self.from < other.from || self.from == other.from && self.end < other.end)
    }
}

/// The byte-range locks of one file, in order of handle, start and end. Contracts see it as the list of them.
///
/// The rules are those of "Managing file locks in Azure Files" and of SMB's byte-range locks: exclusive locks keep
/// others from reading and writing, shared locks keep everybody from writing. A REST call holds no lock and comes by
/// no handle.
#[derive(Debug, Drop)]
pub struct Locks {
    locks: Vec<Held>,
}

impl Model for Locks {
    ghost use Rattle.std.specs.Prelude.{List};
    ghost use Rattle.sx_guard.specs.Locks.{RangeLock, AreLocks};

    ghost Value = { List RangeLock };

    ghost view = { λ s. s.locks.items };

    ghost invariant = { λ s. AreLocks s.locks.items };
}

impl Locks {
    /// No locks. The allocator is kept for the locks to come.
    pub fn new(alloc: Global) -> Locks
        ensures { result ≡ [] }
    {
        Locks {
            locks: Vec::new(alloc),
        }
    }

    /// How many locks there are.
    pub fn count(&self) -> u64
        ensures count { result ≡ length self.now }
        ensures kept { AreLocks self.now }
    {
        self.locks.len() as u64
    }

    /// The lock that forbids a read of an interval by a handle, or by a call that comes by none: an exclusive lock of
    /// another handle. Of several it is the one with the least handle, then start, then end.
    pub fn forbids_read(&self, by: Option<HandleId>, from: u64, end: u64) -> Option<Held>
        ensures first { result ≡ find (forbids_read by from end) self.now }
        ensures least { IfSome result (IsLeast lock_before (forbids_read by from end) self.now) }
        ensures none { IfNone result (All (λ lock. forbids_read by from end lock ≡ false) self.now) }
    {
        self.locks
            .iter()
            .find(|l| l.forbids_read(by, from, end))
            .copied()
    }

    /// The lock that forbids a write of an interval by a handle, or by a call that comes by none: a lock of another
    /// handle, or a shared one of its own. Of several it is the one with the least handle, then start, then end.
    pub fn forbids_write(&self, by: Option<HandleId>, from: u64, end: u64) -> Option<Held>
        ensures first { result ≡ find (forbids_write by from end) self.now }
        ensures least { IfSome result (IsLeast lock_before (forbids_write by from end) self.now) }
        ensures none { IfNone result (All (λ lock. forbids_write by from end lock ≡ false) self.now) }
    {
        self.locks
            .iter()
            .find(|l| l.forbids_write(by, from, end))
            .copied()
    }

    /// Locks an interval for a handle: a shared lock where it meets no exclusive one, an exclusive lock where it
    /// meets none, the handle's own included. Else it answers Meets, with the lock in the way that has the least
    /// handle, then start, then end. NoMemory comes only where the lock would be granted. After either answer the
    /// locks are as before.
    pub fn lock(
        &mut self,
        by: HandleId,
        from: u64,
        end: u64,
        exclusive: bool,
    ) -> Result<(), LockFault>
        requires { from < end }
        ensures answer { MatchOption (find (forbids_lock exclusive from end) self.old)
            (IsOkUnless result LockFault.NoMemory)
            (λ lock. result ≡ Err (LockFault.Meets lock)) }
        ensures least { IfSome (find (forbids_lock exclusive from end) self.old)
            (IsLeast lock_before (forbids_lock exclusive from end) self.old) }
        ensures free { OnOk result (All (λ lock. forbids_lock exclusive from end lock ≡ false) self.old) }
        ensures ok { OnOk result (self.new ≡ insert_by lock_before
            (record { handle = by; from = from; end = end; exclusive = exclusive }) self.old) }
        ensures err { OnErr result (self.new ≡ self.old) }
    {
        if let Some(lock) = self.forbids_lock(exclusive, from, end) {
            return Err(LockFault::Meets(lock));
        }
        let lock = Held {
            handle: by,
            from,
            end,
            exclusive,
        };
        match insert_ordered(&mut self.locks, lock) {
            Ok(()) => Ok(()),
            Err(NoMemory) => Err(LockFault::NoMemory),
        }
    }

    /// Removes one lock of a handle on exactly this interval and of this kind, and says whether there was one.
    pub fn unlock(&mut self, by: HandleId, from: u64, end: u64, exclusive: bool) -> bool
        ensures there { result ≡ list_any (is_lock by from end exclusive) self.old }
        ensures unlocked { self.new ≡ remove_first (is_lock by from end exclusive) self.old }
    {
        match place_of(&self.locks, by, from, end, exclusive) {
            Some(at) => {
                let _ = self.locks.remove(at);
                true
            }
            None => false,
        }
    }

    /// Removes all locks of a handle.
    pub fn drop_all(&mut self, by: HandleId)
        ensures { self.new ≡ filter (λ lock. not (is_held_by (Some by) lock)) self.old }
    {
        self.locks.retain(|l| !l.is_held_by(Some(by)));
    }

    /// The least lock that forbids a new one.
    fn forbids_lock(&self, exclusive: bool, from: u64, end: u64) -> Option<Held>
        ensures first { result ≡ find (forbids_lock exclusive from end) self.now }
        ensures least { IfSome result (IsLeast lock_before (forbids_lock exclusive from end) self.now) }
        ensures none { IfNone result (All (λ lock. forbids_lock exclusive from end lock ≡ false) self.now) }
    {
        self.locks
            .iter()
            .find(|l| l.forbids_lock(exclusive, from, end))
            .copied()
    }
}

/// The place of the first such lock.
fn place_of(locks: &[Held], by: HandleId, from: u64, end: u64, exclusive: bool) -> Option<usize>
    ensures { result ≡ position (is_lock by from end exclusive) locks.now }
{
    locks
        .iter()
        .position(|l| l.is_lock(by, from, end, exclusive))
}
