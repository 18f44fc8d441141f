//! The state of a lease, the actions on it, and the check of a call against it ("Lease File" and "Lease Share" of
//! Azure Files).
ghost use Rattle.std.specs.Prelude.{◌≡◌, ◌+◌, ◌^◌};
ghost use Rattle.sx_lease.specs.Lease.{IsRefusal, acquire_lease, break_lease, change_lease, check_lease, lease_holder};
ghost use Rattle.sx_lease.specs.Lease.{random_lease_id, release_lease};

use uuid::Builder;

/// The id of a lease: a UUID as a number, its first byte the most significant.
#[derive(Clone, Copy, Debug, PartialEq, Eq)]
pub struct LeaseId(pub u128);

impl LeaseId {
    /// The id made from an entry's random number, where an acquire proposes none: the number with the version of a
    /// random UUID, 4, and the variant of RFC 9562 set.
    pub fn from_random(fresh: u128) -> LeaseId
        ensures { result.0 ≡ random_lease_id fresh }
    {
        let uuid = Builder::from_random_bytes(fresh.to_be_bytes()).into_uuid();
        LeaseId(uuid.as_u128())
    }
}

/// What a lease is. A file's lease and a share's have the same actions and checks.
#[derive(Clone, Copy, Debug, PartialEq, Eq)]
pub enum LeaseState {
    /// Nobody holds it.
    Available,
    /// It is held under this id.
    Leased(LeaseId),
    /// It was broken, and has not been acquired since.
    Broken,
}

/// The lease of a file.
pub type FileLease = LeaseState;

/// The lease of a share.
pub type ShareLease = LeaseState;

/// The answer of a lease action.
#[derive(Clone, Copy, Debug, PartialEq, Eq)]
pub enum LeaseSay {
    /// The action is done.
    Granted,
    /// The lease is held under another id than that to be acquired.
    Taken,
    /// The lease is held under another id than the one given.
    IdWrong,
    /// There is no lease to act on.
    NotThere,
}

/// The answer of the check of a call against a lease.
#[derive(Clone, Copy, Debug, PartialEq, Eq)]
pub enum LeaseCheck {
    /// The lease lets the call pass.
    Pass,
    /// The lease is held, and the call would write and gives no id.
    Held,
    /// The lease is held under another id than the one given.
    Other,
    /// An id is given, and no lease is held.
    NoLease,
}

impl LeaseState {
    /// The lease of a new file or share: it is available.
    pub fn new() -> LeaseState
        ensures { result ≡ LeaseState.Available }
    {
        LeaseState::Available
    }

    /// Acquires the lease under an id. Whoever holds it under that id is granted it again; under another id it is
    /// Taken.
    pub fn acquire(&mut self, id: LeaseId) -> LeaseSay
        ensures acquired { (self.new, result) ≡ acquire_lease self.old id }
        ensures refused { IsRefusal result → self.new ≡ self.old }
    {
        match *self {
            LeaseState::Leased(held) => {
                if id == held {
                    LeaseSay::Granted
                } else {
                    LeaseSay::Taken
                }
            }
            LeaseState::Available | LeaseState::Broken => {
                *self = LeaseState::Leased(id);
                LeaseSay::Granted
            }
        }
    }

    /// Changes the id of the lease that is held under `id`. Under another it is IdWrong; where none is held, NotThere.
    pub fn change(&mut self, id: LeaseId, to: LeaseId) -> LeaseSay
        ensures changed { (self.new, result) ≡ change_lease self.old id to }
        ensures refused { IsRefusal result → self.new ≡ self.old }
    {
        match *self {
            LeaseState::Leased(held) => {
                if id != held {
                    return LeaseSay::IdWrong;
                }
                *self = LeaseState::Leased(to);
                LeaseSay::Granted
            }
            LeaseState::Available | LeaseState::Broken => LeaseSay::NotThere,
        }
    }

    /// Releases the lease that is held under `id`. Under another it is IdWrong; where none is held, NotThere.
    pub fn release(&mut self, id: LeaseId) -> LeaseSay
        ensures released { (self.new, result) ≡ release_lease self.old id }
        ensures refused { IsRefusal result → self.new ≡ self.old }
    {
        match *self {
            LeaseState::Leased(held) => {
                if held != id {
                    return LeaseSay::IdWrong;
                }
                *self = LeaseState::Available;
                LeaseSay::Granted
            }
            LeaseState::Available | LeaseState::Broken => LeaseSay::NotThere,
        }
    }

    /// Breaks the lease at once, with no id. A broken lease may be broken again; where there is none, NotThere.
    pub fn break_now(&mut self) -> LeaseSay
        ensures broken { (self.new, result) ≡ break_lease self.old }
        ensures refused { IsRefusal result → self.new ≡ self.old }
    {
        match *self {
            LeaseState::Available => LeaseSay::NotThere,
            LeaseState::Leased(_) | LeaseState::Broken => {
                *self = LeaseState::Broken;
                LeaseSay::Granted
            }
        }
    }

    /// Checks a call that gives a lease id, or none, and writes or reads.
    pub fn check(&self, given: Option<LeaseId>, writes: bool) -> LeaseCheck
        ensures { result ≡ check_lease self.now given writes }
    {
        match (*self, given) {
            (LeaseState::Leased(_), None) if writes => LeaseCheck::Held,
            (LeaseState::Leased(held), Some(id)) if id != held => LeaseCheck::Other,
            (LeaseState::Leased(_), _) => LeaseCheck::Pass,
            (LeaseState::Available | LeaseState::Broken, None) => LeaseCheck::Pass,
            (LeaseState::Available | LeaseState::Broken, Some(_)) => LeaseCheck::NoLease,
        }
    }

    /// The id under which the lease is held, if it is.
    pub fn holder(&self) -> Option<LeaseId>
        ensures { result ≡ lease_holder self.now }
    {
        match *self {
            LeaseState::Leased(held) => Some(held),
            LeaseState::Available | LeaseState::Broken => None,
        }
    }
}

/// A law: the id made from the number 0 is 00000000-0000-4000-8000-000000000000. The call does nothing.
pub fn first_lease_id()
    ensures { random_lease_id 0 ≡ 2 ^ 78 + 2 ^ 63 }
{}
