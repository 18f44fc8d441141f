//! How the leases, the opens and the locks refuse what is asked of them, and the one order of all refusals.
ghost use Rattle.std.specs.Prelude.{◌≡◌};
ghost use Rattle.sx_guard.specs.Locks.{is_held_by};
ghost use Rattle.sx_spec.specs.Checks.{asks_refusal, first_check, forbids_touch, is_leased, lease_refusal};
ghost use Rattle.sx_spec.specs.Checks.{limit_refusal, lock_forbids, lock_refusal, may_change, missing_lock};
ghost use Rattle.sx_spec.specs.Checks.{open_refusal, refusal_of_answer, refusal_of_check, same_lock};

use crate::state::State;
use sx_call::{Lock, Open, Refusal};
use sx_guard::{Access, HandleId, Held, Opened};
use sx_lease::{LeaseCheck, LeaseSay, LeaseState};
use sx_spec::{Asks, Checks, LeaseAsk, Limit, LockAsk, OpenAsk, Touch};

/// The refusal for what the check of a share's or a file's lease came to.
fn refusal_of_check(share: bool, check: LeaseCheck) -> Option<Refusal>
    ensures { result ≡ refusal_of_check share check }
{
    match check {
        LeaseCheck::Pass => None,
        LeaseCheck::Held => Some(Refusal::LeaseHeld),
        LeaseCheck::Other => Some(Refusal::LeaseOther { share }),
        LeaseCheck::NoLease => Some(Refusal::NoLease { share }),
    }
}

/// The refusal for the answer to an action on a lease.
fn refusal_of_answer(say: LeaseSay) -> Option<Refusal>
    ensures { result ≡ refusal_of_answer say }
{
    match say {
        LeaseSay::Granted => None,
        LeaseSay::Taken => Some(Refusal::LeaseTaken),
        LeaseSay::IdWrong => Some(Refusal::LeaseIdWrong),
        LeaseSay::NotThere => Some(Refusal::LeaseNotThere),
    }
}

/// Whether a lease is held.
fn is_leased(state: LeaseState) -> bool
    ensures { result ≡ is_leased state }
{
    match state {
        LeaseState::Leased(_) => true,
        LeaseState::Available | LeaseState::Broken => false,
    }
}

/// Whether an access may change a node.
pub(crate) fn may_change(access: Access) -> bool
    ensures { result ≡ may_change access }
{
    access.write || access.delete
}

/// How a lease refuses what is asked of it.
fn lease_refusal(ask: LeaseAsk) -> Option<Refusal>
    ensures { result ≡ lease_refusal ask }
{
    match ask {
        LeaseAsk::AnyLease => None,
        LeaseAsk::Passes {
            share,
            state,
            given,
            writes,
        } => refusal_of_check(share, state.check(given, writes)),
        LeaseAsk::Acts(done) => refusal_of_answer(done.1),
        LeaseAsk::Unleased { state, access } => {
            if is_leased(state) && may_change(access) {
                return Some(Refusal::LeaseHeld);
            }
            None
        }
    }
}

/// An open as its node's share modes see it.
pub(crate) fn opened(held: &Open) -> Opened
    ensures { result ≡ record { handle = held.now.handle; access = held.now.access; mode = held.now.mode } }
{
    Opened {
        handle: held.handle,
        access: held.access,
        mode: held.mode,
    }
}

/// Whether a lock is held by a handle; a REST call comes by none and holds none.
fn is_held_by(by: &Option<HandleId>, held: &Held) -> bool
    ensures { result ≡ is_held_by by.now held.now }
{
    match by {
        Some(handle) => *handle == held.handle,
        None => false,
    }
}

/// Whether a lock forbids a handle, or a REST call, to touch an interval.
fn forbids_touch(by: &Option<HandleId>, touch: Touch, held: &Held) -> bool
    ensures { result ≡ forbids_touch by.now touch held.now }
{
    match touch {
        Touch::Untouched => false,
        Touch::Reads { from, end } => {
            held.overlaps(from, end) && held.exclusive && !is_held_by(by, held)
        }
        Touch::Writes { from, end } => {
            held.overlaps(from, end) && (!held.exclusive || !is_held_by(by, held))
        }
    }
}

/// Whether a lock forbids what is asked of the locks.
pub(crate) fn lock_forbids(ask: &LockAsk, lock: &Lock) -> bool
    ensures { result ≡ lock_forbids ask.now lock.now }
{
    match ask {
        LockAsk::AnyLocks | LockAsk::OldLock(_) => false,
        LockAsk::Touching { id, by, touch } => {
            lock.node == *id && forbids_touch(by, *touch, &lock.held)
        }
        LockAsk::NewLock {
            id,
            from,
            end,
            exclusive,
        } => {
            lock.node == *id
                && lock.held.overlaps(*from, *end)
                && (*exclusive || lock.held.exclusive)
        }
    }
}

/// Whether two locks are the same: node, handle, interval and kind.
pub(crate) fn same_lock(a: &Lock, b: &Lock) -> bool
    ensures { result ≡ same_lock a.now b.now }
{
    a.node == b.node
        && a.held.handle == b.held.handle
        && a.held.from == b.held.from
        && a.held.end == b.held.end
        && a.held.exclusive == b.held.exclusive
}

/// The refusal for a limit that is met.
fn limit_refusal(limit: Limit) -> Refusal
    ensures { result ≡ limit_refusal limit }
{
    match limit {
        Limit::TooManySnapshots { n } => Refusal::SnapshotsFull { n },
        Limit::StandingSnapshots { n } => Refusal::SnapshotsStand { n },
        Limit::TooManyOpens { n } => Refusal::OpensFull { n },
    }
}

impl State {
    /// How the opens refuse what is asked of them: the least handle that forbids is named.
    fn open_refusal(&self, ask: OpenAsk) -> Option<Refusal>
        ensures { result ≡ open_refusal self.now ask }
    {
        if let OpenAsk::AnyOpens = ask {
            return None;
        }
        match self.opens.forbidding(ask) {
            Some(handle) => Some(Refusal::Shared { handle }),
            None => None,
        }
    }

    /// The refusal where a lock that is to be held isn't.
    fn missing_lock(&self, ask: &LockAsk) -> Option<Refusal>
        ensures { result ≡ missing_lock self.now ask.now }
    {
        match ask {
            LockAsk::OldLock(old) => {
                if !self.locks.has(old) {
                    return Some(Refusal::NotLocked);
                }
                None
            }
            _ => None,
        }
    }

    /// How the locks refuse what is asked of them: the first lock that forbids is named.
    fn lock_refusal(&self, ask: &LockAsk) -> Option<Refusal>
        ensures { result ≡ lock_refusal self.now ask.now }
    {
        if let LockAsk::AnyLocks = ask {
            return None;
        }
        match self.locks.forbidding(ask) {
            Some(lock) => Some(Refusal::Locked { held: lock.held }),
            None => self.missing_lock(ask),
        }
    }

    /// How others refuse what is asked of them: lease, opens, locks.
    fn asks_refusal(&self, asks: &Asks) -> Option<Refusal>
        ensures { result ≡ asks_refusal self.now asks.now }
    {
        if let Some(refusal) = lease_refusal(asks.lease) {
            return Some(refusal);
        }
        if let Some(refusal) = self.open_refusal(asks.opens) {
            return Some(refusal);
        }
        self.lock_refusal(&asks.locks)
    }

    /// The first refusal of what a call is checked for at its place: not empty, read-only, lease, sharing, lock, range,
    /// quota, limits.
    #[tactic(auto, unfolding(sx_spec::specs::Checks::first_check))]
    pub fn first_check(&self, checks: &Checks) -> Option<Refusal>
        ensures { result ≡ first_check self.now checks.now }
    {
        if let Some(id) = checks.empty {
            return Some(Refusal::NotEmpty { id });
        }
        if let Some(id) = checks.read_only {
            return Some(Refusal::ReadOnly { id });
        }
        if let Some(refusal) = self.asks_refusal(&checks.asks) {
            return Some(refusal);
        }
        if let Some(length) = checks.range {
            return Some(Refusal::OutOfFile { length });
        }
        if let Some(over) = checks.quota {
            return Some(Refusal::QuotaMet {
                used: over.used,
                more: over.more,
                limit: over.limit,
            });
        }
        match checks.limits {
            Some(limit) => Some(limit_refusal(limit)),
            None => None,
        }
    }
}
