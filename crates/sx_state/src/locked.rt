//! The byte-range locks of the account in their order, in which the locks of a node stand side by side.
ghost use Rattle.std.specs.Prelude.{◌≡◌, ◌<◌, ◌≤◌, ◌==◌, [], IfSome, OnErr, OnOk, drop, filter, find, length};
ghost use Rattle.std.specs.Prelude.{nat_lt, not, position, take};
ghost use Rattle.std.specs.List.{list_any, position_or_len, prefix_len};
ghost use Rattle.std.specs.Option.{option_copied};
ghost use Rattle.sx_guard.specs.Handle.{same_handle};
ghost use Rattle.sx_guard.specs.Ordered.{insert_by, remove_first};
ghost use Rattle.sx_spec.specs.Changes.{comes_before};
ghost use Rattle.sx_spec.specs.Checks.{lock_forbids, same_lock};
ghost use Rattle.sx_state.specs.Guards.{AreLocks, asked_node, is_lock_on};

use crate::asks::{lock_forbids, same_lock};
use std::alloc::Global;
use std::marker::Model;
use sx_call::Lock;
use sx_guard::{HandleId, Ordered};
use sx_memory::NoMemory;
use sx_spec::LockAsk;

/// The byte-range locks of the account in order of node, handle, start and end. Contracts see the list of them.
#[derive(Drop)]
pub(crate) struct Locked {
    locks: Vec<Lock>,
}

impl Model for Locked {
    ghost use Rattle.std.specs.Prelude.{List};
    ghost use Rattle.sx_call.specs.declared.opens.Lock.{Lock};
    ghost use Rattle.sx_state.specs.Guards.{AreLocks};

    ghost Value = { List Lock };

    ghost view = { λ s. s.locks.items };

    ghost invariant = { λ s. AreLocks s.locks.items };
}

/// Whether a lock comes before another: by node, then handle, start and end.
fn comes_before(a: &Lock, b: &Lock) -> bool
    ensures { result ≡ comes_before a.now b.now }
{
    a.node < b.node || a.node == b.node && a.held.comes_before(&b.held)
}

/// The place of the first lock that isn't on a lesser node.
fn first_on(locks: &[Lock], id: u64) -> usize
    requires { AreLocks locks.now }
    ensures { result ≡ prefix_len (λ l. nat_lt l.node id) locks.now }
{
    locks.partition_point(|lock| lock.node < id)
}

/// The place past the locks of a node.
fn past_on(locks: &[Lock], id: u64) -> usize
    requires { AreLocks locks.now }
    ensures place { result ≡ prefix_len (λ l. not (nat_lt id l.node)) locks.now }
    ensures within { result ≤ length locks.now }
{
    locks.partition_point(|lock| lock.node <= id)
}

/// The locks from one place up to another.
fn part_of(locks: &[Lock], first: usize, past: usize) -> &[Lock]
    requires order { first ≤ past }
    requires within { past ≤ length locks.now }
    ensures { result.now ≡ drop first (take past locks.now) }
{
    &locks[first..past]
}

/// The locks of a node.
fn locks_on(locks: &[Lock], id: u64) -> &[Lock]
    requires { AreLocks locks.now }
    ensures { result.now ≡ filter (is_lock_on id) locks.now }
{
    let first = first_on(locks, id);
    let past = past_on(locks, id);
    part_of(locks, first, past)
}

/// The place of the first lock that doesn't come before one.
fn place_at(locks: &[Lock], one: &Lock) -> usize
    requires { AreLocks locks.now }
    ensures { result ≡ prefix_len (λ l. comes_before l one.now) locks.now }
{
    locks.partition_point(|lock| comes_before(lock, one))
}

/// The place of the first lock before which one comes, the end where there is none.
fn place_behind(locks: &[Lock], one: &Lock) -> usize
    requires { AreLocks locks.now }
    ensures place { result ≡ position_or_len (comes_before one.now) locks.now }
    ensures within { result ≤ length locks.now }
{
    locks.partition_point(|lock| !comes_before(one, lock))
}

/// The place of a lock among those that stand beside each other in the order.
fn place_among(locks: &[Lock], old: &Lock) -> Option<usize>
    ensures place { result ≡ position (same_lock old.now) locks.now }
    ensures within { IfSome result (λ place. place < length locks.now) }
{
    locks.iter().position(|lock| same_lock(old, lock))
}

/// The place of a lock.
fn place_of(locks: &[Lock], old: &Lock) -> Option<usize>
    requires { AreLocks locks.now }
    ensures { result ≡ position (same_lock old.now) locks.now }
{
    let first = place_at(locks, old);
    let past = place_behind(locks, old);
    match place_among(part_of(locks, first, past), old) {
        Some(place) => Some(first + place),
        None => None,
    }
}

/// Puts one more lock into its place.
fn insert_lock(locks: &mut Vec<Lock>, added: Lock) -> Result<(), NoMemory>
    requires { AreLocks locks.old.items }
    ensures ok { OnOk result (locks.new.items ≡ insert_by comes_before added locks.old.items) }
    ensures err { OnErr result (locks.new.items ≡ locks.old.items) }
{
    let place = place_behind(locks, &added);
    match locks.insert(place, added) {
        Ok(()) => Ok(()),
        Err(_) => Err(NoMemory),
    }
}

/// Takes one lock away.
fn drop_lock(locks: &mut Vec<Lock>, old: &Lock)
    requires { AreLocks locks.old.items }
    ensures { locks.new.items ≡ remove_first (same_lock old.now) locks.old.items }
{
    match place_of(locks, old) {
        Some(place) => {
            let _ = locks.remove(place);
        }
        None => {}
    }
}

/// Takes the locks of a handle away.
fn drop_locks(locks: &mut Vec<Lock>, handle: HandleId)
    ensures { locks.new.items ≡ filter (λ l. not (same_handle handle l.held.handle)) locks.old.items }
{
    locks.retain(|lock| handle != lock.held.handle);
}

/// The id of the node whose locks a call asks about, 0 where it asks about none.
fn asked_node(ask: &LockAsk) -> u64
    ensures { result ≡ asked_node ask.now }
{
    match ask {
        LockAsk::AnyLocks => 0,
        LockAsk::Touching { id, .. } => *id,
        LockAsk::NewLock { id, .. } => *id,
        LockAsk::OldLock(old) => old.node,
    }
}

/// The first lock that forbids.
fn forbidding_lock<'a>(locks: &'a [Lock], ask: &LockAsk) -> Option<&'a Lock>
    ensures { option_copied result ≡ find (lock_forbids ask.now) locks.now }
{
    locks.iter().find(|lock| lock_forbids(ask, lock))
}

impl Locked {
    /// No locks. The allocator is kept for the locks to come.
    pub(crate) fn new(alloc: Global) -> Locked
        ensures { result ≡ [] }
    {
        Locked {
            locks: Vec::new(alloc),
        }
    }

    /// The first lock that forbids what is asked, among those of the node that is asked about.
    pub(crate) fn forbidding(&self, ask: &LockAsk) -> Option<&Lock>
        ensures { option_copied result ≡ find (lock_forbids ask.now) self.now }
    {
        forbidding_lock(locks_on(&self.locks, asked_node(ask)), ask)
    }

    /// Whether this very lock is held.
    pub(crate) fn has(&self, old: &Lock) -> bool
        ensures { result ≡ list_any (same_lock old.now) self.now }
    {
        match place_of(&self.locks, old) {
            Some(_) => true,
            None => false,
        }
    }

    /// Puts one more lock into its place. Where memory runs out, all is as before.
    pub(crate) fn put(&mut self, added: Lock) -> Result<(), NoMemory>
        ensures ok { OnOk result (self.new ≡ insert_by comes_before added self.old) }
        ensures err { OnErr result (self.new ≡ self.old) }
    {
        insert_lock(&mut self.locks, added)
    }

    /// Takes one lock away.
    pub(crate) fn take(&mut self, old: &Lock)
        ensures { self.new ≡ remove_first (same_lock old.now) self.old }
    {
        drop_lock(&mut self.locks, old);
    }

    /// Takes the locks of a handle away.
    pub(crate) fn take_of(&mut self, handle: HandleId)
        ensures { self.new ≡ filter (λ l. not (same_handle handle l.held.handle)) self.old }
    {
        drop_locks(&mut self.locks, handle);
    }
}
