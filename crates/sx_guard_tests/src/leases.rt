//! The table of lease actions, the checks of calls, and the id made from a random number.
use sx_lease::{FileLease, LeaseCheck, LeaseId, LeaseSay, LeaseState, ShareLease};
use uuid::Uuid;

const FIRST: LeaseId = LeaseId(1);

const SECOND: LeaseId = LeaseId(2);

const FREE: LeaseState = LeaseState::Available;

const HELD: LeaseState = LeaseState::Leased(LeaseId(1));

const HELD_ANEW: LeaseState = LeaseState::Leased(LeaseId(2));

const BROKEN: LeaseState = LeaseState::Broken;

#[derive(Clone, Copy)]
enum Action {
    Acquire(LeaseId),
    Change(LeaseId, LeaseId),
    Release(LeaseId),
    Break,
}

/// What an action says, and what the lease is then.
fn act(before: LeaseState, action: Action) -> (LeaseSay, LeaseState) {
    let mut state = before;
    let say = match action {
        Action::Acquire(id) => state.acquire(id),
        Action::Change(id, to) => state.change(id, to),
        Action::Release(id) => state.release(id),
        Action::Break => state.break_now(),
    };
    (say, state)
}

/// Every action in every state, worked out by hand.
#[test]
fn every_action_in_every_state(rt: HostRuntime) {
    let cases = [
        (FREE, Action::Acquire(FIRST), LeaseSay::Granted, HELD),
        (
            FREE,
            Action::Change(FIRST, SECOND),
            LeaseSay::NotThere,
            FREE,
        ),
        (FREE, Action::Release(FIRST), LeaseSay::NotThere, FREE),
        (FREE, Action::Break, LeaseSay::NotThere, FREE),
        (HELD, Action::Acquire(FIRST), LeaseSay::Granted, HELD),
        (HELD, Action::Acquire(SECOND), LeaseSay::Taken, HELD),
        (
            HELD,
            Action::Change(FIRST, SECOND),
            LeaseSay::Granted,
            HELD_ANEW,
        ),
        (HELD, Action::Change(SECOND, FIRST), LeaseSay::IdWrong, HELD),
        (HELD, Action::Release(FIRST), LeaseSay::Granted, FREE),
        (HELD, Action::Release(SECOND), LeaseSay::IdWrong, HELD),
        (HELD, Action::Break, LeaseSay::Granted, BROKEN),
        (BROKEN, Action::Acquire(FIRST), LeaseSay::Granted, HELD),
        (
            BROKEN,
            Action::Change(FIRST, SECOND),
            LeaseSay::NotThere,
            BROKEN,
        ),
        (BROKEN, Action::Release(FIRST), LeaseSay::NotThere, BROKEN),
        (BROKEN, Action::Break, LeaseSay::Granted, BROKEN),
    ];
    for case in cases.iter() {
        assert_eq!(rt; act(case.0, case.1), (case.2, case.3));
    }
}

/// The check in every state, for a call that writes and one that reads, with no id, the right one and another.
#[test]
fn every_check_in_every_state(rt: HostRuntime) {
    let cases = [
        (FREE, None, LeaseCheck::Pass, LeaseCheck::Pass),
        (FREE, Some(FIRST), LeaseCheck::NoLease, LeaseCheck::NoLease),
        (HELD, None, LeaseCheck::Held, LeaseCheck::Pass),
        (HELD, Some(FIRST), LeaseCheck::Pass, LeaseCheck::Pass),
        (HELD, Some(SECOND), LeaseCheck::Other, LeaseCheck::Other),
        (BROKEN, None, LeaseCheck::Pass, LeaseCheck::Pass),
        (
            BROKEN,
            Some(FIRST),
            LeaseCheck::NoLease,
            LeaseCheck::NoLease,
        ),
    ];
    for case in cases.iter() {
        assert_eq!(rt; case.0.check(case.1, true), case.2);
        assert_eq!(rt; case.0.check(case.1, false), case.3);
    }
}

/// A file's lease and a share's, each call once.
#[test]
fn leases_through_their_life(rt: HostRuntime) {
    let mut file = FileLease::new();
    assert_eq!(rt; file.acquire(FIRST), LeaseSay::Granted);
    assert_eq!(rt; file.change(FIRST, SECOND), LeaseSay::Granted);
    assert_eq!(rt; file.holder(), Some(SECOND));
    assert_eq!(rt; file.check(Some(FIRST), false), LeaseCheck::Other);
    assert_eq!(rt; file.release(SECOND), LeaseSay::Granted);
    assert_eq!(rt; file.break_now(), LeaseSay::NotThere);
    assert_eq!(rt; file, LeaseState::Available);
    let mut share = ShareLease::new();
    assert_eq!(rt; share.acquire(FIRST), LeaseSay::Granted);
    assert_eq!(rt; share.change(SECOND, FIRST), LeaseSay::IdWrong);
    assert_eq!(rt; share.release(SECOND), LeaseSay::IdWrong);
    assert_eq!(rt; share.check(None, true), LeaseCheck::Held);
    assert_eq!(rt; share.break_now(), LeaseSay::Granted);
    assert_eq!(rt; share.holder(), None);
    assert_eq!(rt; share, LeaseState::Broken);
}

/// Whether the id made from a number reads so.
fn reads(number: u128, text: &str) -> bool {
    match Uuid::parse_str(text) {
        Ok(uuid) => LeaseId::from_random(number).0 == uuid.as_u128(),
        Err(_) => false,
    }
}

/// Ids made from random numbers, by RFC 9562: the version and the variant stand in every number's place for them.
#[test]
fn ids_of_random_numbers(rt: HostRuntime) {
    assert!(rt; reads(0, "00000000-0000-4000-8000-000000000000"));
    assert!(rt; reads(1, "00000000-0000-4000-8000-000000000001"));
    assert!(rt; reads(u128::MAX, "ffffffff-ffff-4fff-bfff-ffffffffffff"));
    assert!(rt;
        reads(
            0x0011_2233_4455_6677_8899_aabb_ccdd_eeff,
            "00112233-4455-4677-8899-aabbccddeeff"
        )
    );
}
