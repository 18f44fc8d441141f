//! Two connections at once, each on a thread of its own and over a link of its own, through one office.
ghost use Rattle.std.specs.Prelude.{◌≡◌};

use crate::conn::account;
use std::alloc::Global;
use std::process::Abort;
use std::sync::Wait;
use std::thread::{Threads, join_mut};
use sx_base::{MemLink, MemSink, MemSource, StepClock, StepWords};
use sx_book::{Book, ConnEnd, ConnReport, Office, Pass};
use sx_rest_door::serve_conn;

/// A listing of the shares, signed.
const LISTING: &str = "GET /?comp=list HTTP/1.1\r\nx-ms-date: Sat, 01 Jan 2022 00:00:00 GMT\r\n\
     x-ms-version: 2020-10-02\r\n\
     Authorization: SharedKey acct:DGRnMuofoF/9eYEegXv1fxmhppeo80ZGcoTLZf2gQ9g=\r\n\r\n";

/// How many requests each connection has, and how many bytes they are.
const REQUESTS: u64 = 40;

const BYTES: u64 = 6_880;

/// A connection's pass and link, and its report once it was served.
pub struct Lane {
    pub pass: Pass,
    pub link: MemLink,
    pub report: Option<ConnReport>,
}

/// A link with forty listings.
pub fn link(rt: &impl Abort, alloc: Global, chunk: usize) -> MemLink {
    let mut bytes = Vec::new(alloc);
    for _ in 0..40u32 {
        assert!(rt; bytes.extend_from_slice(LISTING.as_bytes()).is_ok());
    }
    MemLink {
        source: MemSource::new(bytes, chunk, Vec::new(alloc)),
        sink: MemSink::new(alloc, Vec::new(alloc)),
        peer: 7,
    }
}

pub fn begun(rt: &impl Abort, alloc: Global) -> (Office, Pass)
    ensures { result.1.office ≡ result.0 }
{
    match Office::begin(alloc, 1_000) {
        Ok(made) => made,
        Err(_) => panic!(rt; "no memory"),
    }
}

pub fn new_lane<R: Abort + Wait>(rt: &R, office: &Office, main: &mut Pass, link: MemLink) -> Lane
    requires own { main.old.office ≡ office.now }
    ensures same { main.new.office ≡ office.now }
    ensures new { result.pass.office ≡ office.now }
{
    match office.split(rt, main) {
        Ok(pass) => Lane {
            pass,
            link,
            report: None,
        },
        Err(fault) => panic!(rt; "{fault:?}"),
    }
}

/// Serves the lane's connection.
pub fn run_lane<R: Abort + Wait>(rt: &R, alloc: Global, office: &Office, lane: &mut Lane)
    requires own { lane.old.pass.office ≡ office.now }
    ensures same { lane.new.pass.office ≡ office.now }
{
    let account = account(rt, alloc);
    let mut clock = StepClock {
        at: 16_409_952_000_000_000,
        step: 1,
    };
    let mut random = StepWords { at: 0 };
    let report = serve_conn(
        alloc,
        rt,
        office,
        &mut lane.pass,
        &mut lane.link,
        &mut clock,
        &mut random,
        &account,
        1_000_000,
    );
    lane.report = Some(report);
}

/// Runs two lanes, each in a thread of its own.
fn run_lanes<R: Abort + Threads + Wait + Sync>(
    rt: &R,
    alloc: Global,
    office: &Office,
    first: &mut Lane,
    second: &mut Lane,
)
    requires own { (first.old.pass.office ≡ office.now) × (second.old.pass.office ≡ office.now) }
    ensures same { (first.new.pass.office ≡ office.now) × (second.new.pass.office ≡ office.now) }
{
    join_mut(
        rt,
        &mut || run_lane(rt, alloc, office, first),
        &mut || run_lane(rt, alloc, office, second),
    );
}

/// Meets the lane's pass, whose connection answered all of its requests.
pub fn land<R: Abort>(rt: &R, office: &Office, main: &mut Pass, lane: Lane)
    requires own { (main.old.office ≡ office.now) × (lane.pass.office ≡ office.now) }
    ensures same { main.new.office ≡ office.now }
{
    let Lane { pass, link, report } = lane;
    office.meet(main, pass);
    let wanted = ConnReport {
        end: ConnEnd::Ended,
        taken: BYTES,
        asked: REQUESTS,
        full: None,
        starved: false,
    };
    assert!(rt; report == Some(wanted));
    assert!(rt; link.sink.bytes().starts_with(b"HTTP/1.1 200 OK\r\n"));
}

pub fn closed<R: Abort + Wait>(rt: &R, office: Office, main: Pass) -> Book
    requires { main.office ≡ office }
{
    match office.close(rt, main) {
        Ok(book) => book,
        Err(fault) => panic!(rt; "{} out", Office::abandon(fault)),
    }
}

#[test]
fn two_connections_at_once(rt: HostRuntime) {
    let alloc = rt.alloc();
    let (office, mut main) = begun(&rt, alloc);
    let mut first = new_lane(&rt, &office, &mut main, link(&rt, alloc, 7));
    let mut second = new_lane(&rt, &office, &mut main, link(&rt, alloc, 4096));
    run_lanes(&rt, alloc, &office, &mut first, &mut second);
    land(&rt, &office, &mut main, first);
    land(&rt, &office, &mut main, second);
    let book = closed(&rt, office, main);
    assert_eq!(rt; book.entries().len(), 80);
}
