//! A session beside two connections, each on a thread of its own and over a link of its own, through one office.
ghost use Rattle.std.specs.Prelude.{◌≡◌};

use crate::threads::{Lane, begun, closed, land, link, new_lane, run_lane};
use std::alloc::Global;
use std::process::Abort;
use std::sync::Wait;
use std::thread::{Threads, join_mut};
use sx_base::{MemLink, MemSink, MemSource, StepClock};
use sx_book::{Book, ConnEnd, ConnReport, Office, Pass};
use sx_call::{Call, Noted};
use sx_smb_door::serve_session;

/// How many lines the session has, and how many bytes they are.
const LINES: u32 = 50;

const BYTES: u64 = 441;

/// Adds the line that closes the handle of this number.
fn add_line(rt: &impl Abort, alloc: Global, bytes: &mut Vec<u8>, number: u32) {
    match format!(in alloc; "close {number}\n") {
        Ok(line) => assert!(rt; bytes.extend_from_slice(line.as_bytes()).is_ok()),
        Err(_) => panic!(rt; "no memory"),
    }
}

/// A link with fifty lines, each of which closes another handle that isn't there.
fn session_link(rt: &impl Abort, alloc: Global) -> MemLink {
    let mut bytes = Vec::new(alloc);
    for number in 1..LINES + 1 {
        add_line(rt, alloc, &mut bytes, number);
    }
    MemLink {
        source: MemSource::new(bytes, 16, Vec::new(alloc)),
        sink: MemSink::new(alloc, Vec::new(alloc)),
        peer: 7,
    }
}

/// Serves the lane's session.
fn run_session<R: Wait>(rt: &R, alloc: Global, office: &Office, lane: &mut Lane)
    requires own { lane.old.pass.office ≡ office.now }
    ensures same { lane.new.pass.office ≡ office.now }
{
    let mut clock = StepClock { at: 5, step: 1 };
    let report = serve_session(
        alloc,
        rt,
        office,
        &mut lane.pass,
        &mut lane.link,
        &mut clock,
        1_000_000,
    );
    lane.report = Some(report);
}

/// Runs a connection and a session, each in a thread of its own.
fn run_pair<R: Abort + Threads + Wait + Sync>(
    rt: &R,
    alloc: Global,
    office: &Office,
    connection: &mut Lane,
    session: &mut Lane,
)
    requires connection { connection.old.pass.office ≡ office.now }
    requires session { session.old.pass.office ≡ office.now }
    ensures connection { connection.new.pass.office ≡ office.now }
    ensures session { session.new.pass.office ≡ office.now }
{
    join_mut(
        rt,
        &mut || run_lane(rt, alloc, office, connection),
        &mut || run_session(rt, alloc, office, session),
    );
}

/// Runs two connections and a session, each in a thread of its own.
fn run_lanes<R: Abort + Threads + Wait + Sync>(
    rt: &R,
    alloc: Global,
    office: &Office,
    first: &mut Lane,
    second: &mut Lane,
    session: &mut Lane,
)
    requires first { first.old.pass.office ≡ office.now }
    requires second { second.old.pass.office ≡ office.now }
    requires session { session.old.pass.office ≡ office.now }
    ensures first { first.new.pass.office ≡ office.now }
    ensures second { second.new.pass.office ≡ office.now }
    ensures session { session.new.pass.office ≡ office.now }
{
    join_mut(
        rt,
        &mut || run_lane(rt, alloc, office, first),
        &mut ||
            requires { (second.now.pass.office ≡ office.now) × (session.now.pass.office ≡ office.now) }
        { run_pair(rt, alloc, office, second, session) },
    );
}

/// Whether there are as many answers as lines, the last of them to the last line.
fn are_fifty(bytes: &[u8]) -> bool {
    let lines = bytes.iter().filter(|b| **b == b'\n').count();
    lines as u64 == LINES as u64 && bytes.ends_with(b" handle 1.50\n")
}

/// Meets the pass of the session's lane, whose lines were all answered.
fn land_session<R: Abort>(rt: &R, office: &Office, main: &mut Pass, lane: Lane)
    requires own { (main.old.office ≡ office.now) × (lane.pass.office ≡ office.now) }
    ensures same { main.new.office ≡ office.now }
{
    let Lane { pass, link, report } = lane;
    office.meet(main, pass);
    let wanted = ConnReport {
        end: ConnEnd::Ended,
        taken: BYTES,
        asked: LINES as u64,
        full: None,
        starved: false,
    };
    assert!(rt; report == Some(wanted));
    assert!(rt; are_fifty(link.sink.bytes()));
}

/// Whether an entry is a caller's call of this count: a connection draws two words that count on for each call, and a
/// session starts, closes each handle in order, and ends.
fn is_in_order(noted: &Noted, count: u32) -> bool {
    match &noted.entry.call {
        Call::ListShares(_) => noted.entry.fresh & 0xffff_ffff == (2 * count as u128) + 1,
        Call::Start(_) => count == 0,
        Call::SmbClose(close) => close.index.number() == count,
        Call::End => count == LINES + 1,
        _ => false,
    }
}

/// How many entries a caller has, if they are in order.
fn ordered(entries: &[Noted], who: u32) -> Option<u32> {
    let mut count = 0u32;
    for noted in entries.iter() {
        if noted.entry.who == who {
            if !is_in_order(noted, count) {
                return None;
            }
            count = count.wrapping_add(1);
        }
    }
    Some(count)
}

fn check_book(rt: &impl Abort, book: &Book) {
    assert_eq!(rt; book.entries().len(), 132);
    assert_eq!(rt; book.live(), 0);
    assert_eq!(rt; ordered(book.entries(), 1), Some(40));
    assert_eq!(rt; ordered(book.entries(), 2), Some(40));
    assert_eq!(rt; ordered(book.entries(), 3), Some(52));
}

#[test]
fn a_session_beside_two_connections_at_once(rt: HostRuntime) {
    let alloc = rt.alloc();
    let (office, mut main) = begun(&rt, alloc);
    let mut first = new_lane(&rt, &office, &mut main, link(&rt, alloc, 7));
    let mut second = new_lane(&rt, &office, &mut main, link(&rt, alloc, 4096));
    let mut session = new_lane(&rt, &office, &mut main, session_link(&rt, alloc));
    run_lanes(&rt, alloc, &office, &mut first, &mut second, &mut session);
    land(&rt, &office, &mut main, first);
    land(&rt, &office, &mut main, second);
    land_session(&rt, &office, &mut main, session);
    let book = closed(&rt, office, main);
    check_book(&rt, &book);
}
