//! Byte-range locks: what forbids a read, a write and a new lock, and which lock is named.
use std::alloc::Global;
use std::process::Abort;
use sx_guard::{HandleId, Held, LockFault, Locks};

const A: HandleId = HandleId {
    session: 1,
    index: 1,
};

const B: HandleId = HandleId {
    session: 1,
    index: 2,
};

const C: HandleId = HandleId {
    session: 2,
    index: 1,
};

/// An exclusive lock of A.
const OWN: Held = Held {
    handle: A,
    from: 10,
    end: 20,
    exclusive: true,
};

/// A shared lock of B.
const OF_B: Held = Held {
    handle: B,
    from: 30,
    end: 40,
    exclusive: false,
};

/// A shared lock of A.
const SHARED: Held = Held {
    handle: A,
    from: 50,
    end: 60,
    exclusive: false,
};

const GRANTED: Result<(), LockFault> = Ok(());

/// Four locks: an exclusive one of A, shared ones of B and C over the same bytes, and a shared one of A.
fn four_locks(rt: &impl Abort, alloc: Global) -> Locks {
    let mut locks = Locks::new(alloc);
    assert_eq!(rt; locks.lock(C, 30, 40, false), GRANTED);
    assert_eq!(rt; locks.lock(A, 50, 60, false), GRANTED);
    assert_eq!(rt; locks.lock(B, 30, 40, false), GRANTED);
    assert_eq!(rt; locks.lock(A, 10, 20, true), GRANTED);
    locks
}

/// Reads against the four locks. Each answer is worked out by hand.
#[test]
fn reads_under_locks(rt: HostRuntime) {
    let locks = four_locks(&rt, rt.alloc());
    let cases = [
        // the holder reads under its own exclusive lock
        (Some(A), 10, 20, None),
        // overlapping at one byte, at either end
        (Some(B), 19, 30, Some(OWN)),
        (Some(B), 0, 11, Some(OWN)),
        // adjacent
        (Some(B), 20, 30, None),
        (Some(B), 0, 10, None),
        // contained in the lock, and containing it
        (None, 12, 13, Some(OWN)),
        (None, 0, 100, Some(OWN)),
        // shared locks let everybody read
        (None, 30, 60, None),
        // an empty interval meets nothing
        (None, 15, 15, None),
    ];
    for case in cases.iter() {
        assert_eq!(rt; locks.forbids_read(case.0, case.1, case.2), case.3);
    }
}

/// Writes against the four locks. Each answer is worked out by hand.
#[test]
fn writes_under_locks(rt: HostRuntime) {
    let locks = four_locks(&rt, rt.alloc());
    let cases = [
        // an empty interval meets nothing
        (None, 55, 55, None),
        // the holder writes under its own exclusive lock, another doesn't
        (Some(A), 10, 20, None),
        (Some(B), 19, 20, Some(OWN)),
        (None, 10, 11, Some(OWN)),
        // a shared lock forbids its holder's writes too
        (Some(B), 35, 36, Some(OF_B)),
        (Some(A), 50, 51, Some(SHARED)),
        // the least handle, then the least start
        (Some(C), 30, 40, Some(OF_B)),
        (Some(A), 0, 100, Some(SHARED)),
        (Some(B), 0, 100, Some(OWN)),
        (None, 39, 51, Some(SHARED)),
        // between the locks
        (Some(C), 20, 30, None),
        (None, 40, 50, None),
    ];
    for case in cases.iter() {
        assert_eq!(rt; locks.forbids_write(case.0, case.1, case.2), case.3);
    }
}

/// Whether a new lock against the four meets this one.
fn meets(
    rt: &impl Abort,
    alloc: Global,
    by: HandleId,
    from: u64,
    end: u64,
    exclusive: bool,
    met: Held,
) -> bool {
    assert!(rt; from < end);
    let mut locks = four_locks(rt, alloc);
    locks.lock(by, from, end, exclusive) == Err(LockFault::Meets(met)) && locks.count() == 4
}

/// New locks against the four: an exclusive one meets every lock, a shared one every exclusive lock, its own handle's
/// too. Each answer is worked out by hand.
#[test]
fn new_locks_beside_others(rt: HostRuntime) {
    let cases = [
        (A, 15, 16, true, OWN),
        (A, 55, 70, true, SHARED),
        (C, 39, 45, true, OF_B),
        (B, 19, 21, false, OWN),
        (A, 12, 13, false, OWN),
    ];
    for case in cases.iter() {
        assert!(rt; meets(&rt, rt.alloc(), case.0, case.1, case.2, case.3, case.4));
    }
}

/// Locks that are granted beside others, unlocked by interval and kind, and dropped with their handle.
#[test]
fn locks_come_and_go(rt: HostRuntime) {
    let mut locks = Locks::new(rt.alloc());
    assert_eq!(rt; locks.lock(A, 0, 10, true), GRANTED);
    assert_eq!(rt; locks.lock(B, 10, 20, true), GRANTED);
    assert_eq!(rt; locks.lock(A, 20, 30, false), GRANTED);
    assert_eq!(rt; locks.lock(A, 20, 30, false), GRANTED);
    assert_eq!(rt; locks.lock(B, 25, 35, false), GRANTED);
    assert_eq!(rt; locks.unlock(A, 20, 30, true), false);
    assert_eq!(rt; locks.unlock(A, 20, 29, false), false);
    assert_eq!(rt; locks.unlock(C, 20, 30, false), false);
    assert_eq!(rt; locks.unlock(A, 20, 30, false), true);
    assert_eq!(rt; locks.count(), 4);
    locks.drop_all(A);
    assert_eq!(rt; locks.count(), 2);
    let left = Held {
        handle: B,
        from: 10,
        end: 20,
        exclusive: true,
    };
    assert_eq!(rt; locks.forbids_read(Some(A), 0, 100), Some(left));
}
