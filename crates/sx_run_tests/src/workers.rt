//! A worker of each door, both at once, each over a listener of its own: the history has the entries of their
//! links.
ghost use Rattle.std.specs.Prelude.{◌≡◌};
ghost use Rattle.sx_book.specs.Passes.{HasOwnPlaces};

use crate::common::{LISTING, NOW, account, listener};
use std::alloc::Global;
use std::process::Abort;
use std::sync::Wait;
use std::thread::{Threads, join_mut};
use sx_base::{MemListener, StepClock, StepWords};
use sx_book::{Book, Office, Pass};
use sx_run::{Door, WorkEnd, WorkReport, rest_worker, smb_worker};

/// The links of a worker of the REST door, which make two entries.
const REST: [&[u8]; 3] = [LISTING, b"GET / HTTP/1.1\r\n\r\n", LISTING];

/// The links of a worker of the session door: three sessions, with two calls, which make eight entries.
const SMB: [&[u8]; 3] = [b"close 1\n", b"sing\n", b"close 1\nquit\n"];

/// A worker's door, pass and listener, and its report once it has worked.
struct Lane {
    door: Door,
    pass: Pass,
    listener: MemListener,
    report: Option<WorkReport>,
}

fn begun(rt: &impl Abort, alloc: Global) -> (Office, Pass)
    ensures { result.1.office ≡ result.0 }
{
    match Office::begin(alloc, 100) {
        Ok(made) => made,
        Err(_) => panic!(rt; "no memory"),
    }
}

fn new_pass<R: Abort + Wait>(rt: &R, office: &Office, main: &mut Pass) -> Pass
    requires own { main.old.office ≡ office.now }
    ensures same { main.new.office ≡ office.now }
    ensures new { result.office ≡ office.now }
    ensures places { HasOwnPlaces result }
{
    match office.split(rt, main) {
        Ok(pass) => pass,
        Err(fault) => panic!(rt; "{fault:?}"),
    }
}

fn new_lane<R: Abort + Wait>(
    rt: &R,
    alloc: Global,
    office: &Office,
    main: &mut Pass,
    door: Door,
    links: &[&[u8]],
) -> Lane
    requires own { main.old.office ≡ office.now }
    ensures same { main.new.office ≡ office.now }
    ensures new { (result.pass.office ≡ office.now) × HasOwnPlaces result.pass }
{
    Lane {
        door,
        pass: new_pass(rt, office, main),
        listener: listener(rt, alloc, links),
        report: None,
    }
}

/// Serves the lane's links.
fn run_lane<R: Abort + Wait>(rt: &R, alloc: Global, office: &Office, lane: &mut Lane)
    requires own { (lane.old.pass.office ≡ office.now) × HasOwnPlaces lane.old.pass }
    ensures same { lane.new.pass.office ≡ office.now }
{
    let account = account(rt, alloc);
    let mut clock = StepClock { at: NOW, step: 0 };
    let mut random = StepWords { at: 0 };
    let report = match lane.door {
        Door::Rest => rest_worker(
            alloc,
            rt,
            office,
            &mut lane.pass,
            &mut lane.listener,
            &mut clock,
            &mut random,
            &account,
            0,
        ),
        Door::Smb => smb_worker(
            alloc,
            rt,
            office,
            &mut lane.pass,
            &mut lane.listener,
            &mut clock,
            0,
        ),
    };
    lane.report = Some(report);
}

/// Runs two lanes, each in a thread of its own.
fn run_two<R: Abort + Threads + Wait + Sync>(
    rt: &R,
    alloc: Global,
    office: &Office,
    first: &mut Lane,
    second: &mut Lane,
)
    requires first { (first.old.pass.office ≡ office.now) × HasOwnPlaces first.old.pass }
    requires second { (second.old.pass.office ≡ office.now) × HasOwnPlaces second.old.pass }
    ensures same { (first.new.pass.office ≡ office.now) × (second.new.pass.office ≡ office.now) }
{
    join_mut(
        rt,
        &mut || run_lane(rt, alloc, office, first),
        &mut || run_lane(rt, alloc, office, second),
    );
}

/// Meets the lane's pass, which served its three links. Answers its number.
fn land<R: Abort>(rt: &R, office: &Office, main: &mut Pass, lane: Lane) -> u32
    requires own { (main.old.office ≡ office.now) × (lane.pass.office ≡ office.now) }
    ensures same { main.new.office ≡ office.now }
{
    let Lane {
        door: _,
        pass,
        listener,
        report,
    } = lane;
    let who = pass.number();
    office.meet(main, pass);
    let wanted = WorkReport {
        served: 3,
        full: false,
        starved: false,
        end: WorkEnd::Drained,
    };
    assert!(rt; report == Some(wanted));
    assert_eq!(rt; listener.finished().len(), 3);
    who
}

fn closed<R: Abort + Wait>(rt: &R, office: Office, main: Pass) -> Book
    requires { main.office ≡ office }
{
    match office.close(rt, main) {
        Ok(book) => book,
        Err(fault) => panic!(rt; "{} out", Office::abandon(fault)),
    }
}

/// How many entries of a history are of a caller.
fn entries_of(book: &Book, who: u32) -> u64 {
    let mut count = 0u64;
    for noted in book.entries().iter() {
        if noted.entry.who == who {
            count = count.wrapping_add(1);
        }
    }
    count
}

#[test]
fn workers_share_one_history(rt: HostRuntime) {
    let alloc = rt.alloc();
    let (office, mut main) = begun(&rt, alloc);
    let mut rest = new_lane(&rt, alloc, &office, &mut main, Door::Rest, &REST);
    let mut smb = new_lane(&rt, alloc, &office, &mut main, Door::Smb, &SMB);
    run_two(&rt, alloc, &office, &mut rest, &mut smb);
    let rest = land(&rt, &office, &mut main, rest);
    let smb = land(&rt, &office, &mut main, smb);
    let book = closed(&rt, office, main);
    assert_eq!(rt; entries_of(&book, rest), 2);
    assert_eq!(rt; entries_of(&book, smb), 8);
    assert_eq!(rt; book.entries().len(), 10);
}
