//! Connections from their first request to their end, by every way of ending, with ample memory.
ghost use Rattle.std.specs.Prelude.{◌≡◌};

use crate::rows::{ROWS, Row};
use std::alloc::Global;
use std::process::Abort;
use std::sync::Wait;
use sx_base::{MemLink, MemSink, MemSource, StepClock, StepWords};
use sx_book::{Book, ConnReport, Office, Pass};
use sx_key::Account;
use sx_rest_door::serve_conn;

/// The number of a call that no connection here makes: none fails.
pub const NONE_FAILS: u64 = 1_000_000;

pub fn account(rt: &impl Abort, alloc: Global) -> Account {
    match Account::read(alloc, b"acct", b"a2V5") {
        Ok(account) => account,
        Err(_) => panic!(rt; "no account"),
    }
}

fn begun(rt: &impl Abort, alloc: Global, limit: u32) -> (Office, Pass)
    ensures { result.1.office ≡ result.0 }
{
    match Office::begin(alloc, limit) {
        Ok((office, pass)) => (office, pass),
        Err(_) => panic!(rt; "no memory"),
    }
}

/// Serves a connection at 2022-01-01T00:00:00Z through an office of its own, which is closed behind it.
pub fn served<R: Abort + Wait>(
    rt: &R,
    alloc: Global,
    limit: u32,
    link: &mut MemLink,
    budget: u64,
) -> (ConnReport, Book) {
    let account = account(rt, alloc);
    let (office, mut pass) = begun(rt, alloc, limit);
    let mut clock = StepClock {
        at: 16_409_952_000_000_000,
        step: 0,
    };
    let mut random = StepWords { at: 0 };
    let report = serve_conn(
        alloc,
        rt,
        &office,
        &mut pass,
        link,
        &mut clock,
        &mut random,
        &account,
        budget,
    );
    match office.close(rt, pass) {
        Ok(book) => (report, book),
        Err(fault) => panic!(rt; "{} out", Office::abandon(fault)),
    }
}

fn list<T: Copy>(rt: &impl Abort, alloc: Global, items: &[T]) -> Vec<T> {
    match Vec::from_slice(alloc, items) {
        Ok(items) => items,
        Err(_) => panic!(rt; "no memory"),
    }
}

/// A link that gives these bytes, `chunk` of them a read, and fails at one read and at one put.
pub fn link_of(
    rt: &impl Abort,
    alloc: Global,
    bytes: &[u8],
    chunk: usize,
    read: u64,
    put: u64,
) -> MemLink {
    let reads = list(rt, alloc, &[read]);
    MemLink {
        source: MemSource::new(list(rt, alloc, bytes), chunk, reads),
        sink: MemSink::new(alloc, list(rt, alloc, &[put])),
        peer: 7,
    }
}

fn wanted_report(row: &Row) -> ConnReport {
    ConnReport {
        end: row.end,
        taken: row.taken,
        asked: row.asked,
        full: row.full,
        starved: false,
    }
}

fn check_row<R: Abort + Wait>(rt: &R, alloc: Global, number: usize, row: &Row, chunk: usize) {
    let bytes = row.input.as_bytes();
    let mut link = link_of(rt, alloc, bytes, chunk, NONE_FAILS, NONE_FAILS);
    let (report, book) = served(rt, alloc, row.limit, &mut link, row.budget);
    assert_eq!(rt; report, wanted_report(row), "at {number}");
    assert!(rt; link.sink.bytes() == row.out.as_bytes(), "at {number}");
    assert_eq!(rt; book.entries().len(), row.entries);
}

#[test]
fn connections_end(rt: HostRuntime) {
    for (number, row) in ROWS.iter().enumerate() {
        check_row(&rt, rt.alloc(), number, row, row.chunk);
    }
}

/// The second row, and one that is cut, however their bytes come in pieces.
#[test]
fn pieces_make_no_difference(rt: HostRuntime) {
    for chunk in 1..60usize {
        check_row(&rt, rt.alloc(), chunk, &ROWS[1], chunk);
        check_row(&rt, rt.alloc(), chunk, &ROWS[6], chunk);
    }
}
