//! The service over listeners in memory, from its words to its status.

use crate::common::{LISTING, Size, listener, status};
use std::alloc::Global;
use std::process::Abort;
use std::sync::Wait;
use std::thread::Threads;
use sx_base::{MemListener, MemSink};

/// What the service is given, and what comes of it.
struct Row {
    workers: u32,
    conns: u32,
    limit: u32,
    /// The links of the REST door, and those of the session door.
    rest: &'static [&'static [u8]],
    smb: &'static [&'static [u8]],
    status: u8,
    /// How many links each door finished.
    finished: [usize; 2],
    /// What the first finished session was answered.
    answer: &'static [u8],
}

const ROWS: [Row; 5] = [
    // Each link is served, and the listeners have none left.
    Row {
        workers: 1,
        conns: 0,
        limit: 100,
        rest: &[b"GET / HTTP/1.1\r\n\r\n"],
        smb: &[b"close 1\n", b"quit\n"],
        status: 0,
        finished: [1, 2],
        answer: b"ERR INVALID_HANDLE 2 handle 1.1\n",
    },
    // So they are by several workers of each door, of which one has links.
    Row {
        workers: 3,
        conns: 0,
        limit: 100,
        rest: &[LISTING, b"", LISTING, b"GET / HTTP/1.1\r\n\r\n"],
        smb: &[b"sing\nsing\n", b"quit\n", b"close 1\n"],
        status: 0,
        finished: [4, 3],
        answer: b"ERR SYNTAX 0\nERR SYNTAX 0\n",
    },
    // A worker serves no more links than it may.
    Row {
        workers: 2,
        conns: 1,
        limit: 100,
        rest: &[b"", b""],
        smb: &[b"close 1\n", b"quit\n"],
        status: 0,
        finished: [1, 1],
        answer: b"ERR INVALID_HANDLE 2 handle 1.1\n",
    },
    // No session can start.
    Row {
        workers: 1,
        conns: 0,
        limit: 1,
        rest: &[b""],
        smb: &[b"close 1\n", b"quit\n"],
        status: 7,
        finished: [1, 2],
        answer: b"",
    },
    // The second listing finds no place, nor does a session.
    Row {
        workers: 2,
        conns: 0,
        limit: 1,
        rest: &[LISTING, LISTING],
        smb: &[b"close 1\n"],
        status: 7,
        finished: [2, 1],
        answer: b"",
    },
];

/// Whether both doors finished so many links, and the first session was answered so.
fn was_served(row: &Row, rest: &MemListener, smb: &MemListener) -> bool {
    let finished = smb.finished();
    rest.finished().len() == row.finished[0]
        && finished.len() == row.finished[1]
        && !finished.is_empty()
        && finished[0].sink.bytes() == row.answer
}

fn check<R: Abort + Threads + Wait + Sync>(rt: &R, alloc: Global, number: usize, row: &Row) {
    let mut out = MemSink::new(alloc, Vec::new(alloc));
    let mut rest = listener(rt, alloc, row.rest);
    let mut smb = listener(rt, alloc, row.smb);
    let size = Size {
        rest_port: 8080,
        smb_port: 4450,
        workers: row.workers,
        conns: row.conns,
        limit: row.limit,
    };
    let status = status(rt, alloc, size, &mut out, &mut rest, &mut smb);
    assert_eq!(rt; status, row.status, "at {number}");
    assert_eq!(rt; out.bytes(), b"rest 8080\nsmb 4450\n".as_slice());
    assert!(rt; was_served(row, &rest, &smb), "at {number}");
}

#[test]
fn the_service_serves(rt: HostRuntime) {
    let alloc = rt.alloc();
    for (number, row) in ROWS.iter().enumerate() {
        check(&rt, alloc, number, row);
    }
}
