//! The office on one thread: its first entry, its limit, its passes and its close.
ghost use Rattle.std.specs.Prelude.{◌≡◌};
ghost use Rattle.sx_book.specs.Passes.{IsSamePass, KeepsSessions};

use crate::common::{NOW, begun, closed, create, created, make_file, split, started, tail_of};
use std::alloc::Global;
use std::process::Abort;
use std::sync::Wait;
use sx_book::{CloseFault, Office, Pass, SeatFault, Stop};
use sx_call::{Call, Noted, Reply, SmbReply};

// An entry of Create Share with the random number 17, which was carried out.
fn is_creation(noted: &Noted) -> bool {
    matches!(&noted.entry.call, Call::CreateShare(_)) && noted.entry.fresh == 17 && !noted.refused
}

#[test]
fn the_first_entry(rt: HostRuntime) {
    let alloc = rt.alloc();
    let (office, mut pass) = begun(&rt, alloc, 3);
    let receipt = created(&rt, alloc, &office, &mut pass);
    assert_eq!(rt; receipt.place, 1);
    assert_eq!(rt; receipt.at, NOW);
    assert!(rt; matches!(receipt.reply, Reply::Stamped { .. }));
    let first = tail_of(&rt, alloc, &office, &mut pass, 0, 1);
    assert_eq!(rt; first.len(), 1);
    assert!(rt; first.as_slice().iter().all(is_creation));
    assert_eq!(rt; closed(&rt, office, pass).entries().len(), 1);
}

// Creates a share beside a live session, where no place is left.
fn refused_when_full<R: Abort + Wait>(rt: &R, alloc: Global, office: &Office, pass: &mut Pass)
    requires own { pass.old.office ≡ office.now }
    ensures held { KeepsSessions pass.old pass.new }
    ensures same { IsSamePass pass.old pass.new }
{
    let full = create(rt, alloc, office, pass);
    assert!(rt;
        matches!(
            full,
            Err(Stop::HistoryFull {
                entries: 2,
                sessions: 1,
                limit: 3,
            })
        )
    );
}

/// A history that is full but for a session's end.
#[test]
fn the_limit(rt: HostRuntime) {
    let alloc = rt.alloc();
    let (office, mut pass) = begun(&rt, alloc, 3);
    created(&rt, alloc, &office, &mut pass);
    let session = started(&rt, &office, &mut pass);
    assert_eq!(rt; session.number(), 1);
    refused_when_full(&rt, alloc, &office, &mut pass);
    let ended = office.end_session(&rt, &mut pass, NOW, session);
    assert_eq!(rt; ended.place, 3);
    assert!(rt; matches!(ended.reply, Reply::Smb(SmbReply::Ended { closed: 0 })));
    let rest = tail_of(&rt, alloc, &office, &mut pass, 2, 9);
    assert_eq!(rt; rest.len(), 2);
    assert_eq!(rt; closed(&rt, office, pass).entries().len(), 3);
}

/// 63 passes beside the first, and no 64th. An office closes once all have met.
#[test]
fn passes_end_at_63(rt: HostRuntime) {
    let (office, mut main) = begun(&rt, rt.alloc(), 9);
    assert_eq!(rt; main.number(), 0);
    for number in 1..64 {
        let pass = split(&rt, &office, &mut main);
        assert_eq!(rt; pass.number(), number);
        office.meet(&mut main, pass);
    }
    match office.split(&rt, &mut main) {
        Ok(pass) => {
            office.meet(&mut main, pass);
            panic!(rt; "a number too many");
        }
        Err(fault) => assert_eq!(rt; fault, SeatFault::NoSeat(64)),
    }
    assert!(rt; closed(&rt, office, main).entries().is_empty());
}

/// An office doesn't close while a pass is out, and closes once it has met.
#[test]
fn an_office_closes_once_all_have_met(rt: HostRuntime) {
    let (office, mut main) = begun(&rt, rt.alloc(), 9);
    let pass = split(&rt, &office, &mut main);
    match office.close(&rt, main) {
        Ok(_) => panic!(rt; "a pass is out"),
        Err(CloseFault { whole, token, out }) => {
            assert_eq!(rt; out, 1);
            let mut main = token;
            whole.meet(&mut main, pass);
            assert_eq!(rt; closed(&rt, whole, main).limit(), 9);
        }
    }
}

#[test]
fn an_office_that_stays_open_can_be_abandoned(rt: HostRuntime) {
    let (office, mut main) = begun(&rt, rt.alloc(), 9);
    let pass = split(&rt, &office, &mut main);
    match office.close(&rt, main) {
        Ok(_) => panic!(rt; "a pass is out"),
        Err(
            CloseFault {
                whole,
                mut token,
                out,
            },
        ) => {
            whole.meet(&mut token, pass);
            let fault = CloseFault { whole, token, out };
            assert_eq!(rt; Office::abandon(fault), 1);
        }
    }
}

fn draws_none(noted: &Noted) -> bool {
    noted.entry.fresh == 0
}

/// A random number that comes with a session's call doesn't stand in its entry.
#[test]
fn a_session_draws_no_random_number(rt: HostRuntime) {
    let alloc = rt.alloc();
    let (office, mut pass) = begun(&rt, alloc, 9);
    created(&rt, alloc, &office, &mut pass);
    let session = started(&rt, &office, &mut pass);
    assert!(rt; make_file(&rt, alloc, &office, &mut pass, &session, 0));
    let last = tail_of(&rt, alloc, &office, &mut pass, 2, 9);
    assert_eq!(rt; last.len(), 2);
    assert!(rt; last.as_slice().iter().all(draws_none));
    office.end_session(&rt, &mut pass, NOW, session);
    assert_eq!(rt; closed(&rt, office, pass).entries().len(), 4);
}
