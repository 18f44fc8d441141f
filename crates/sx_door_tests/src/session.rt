//! Sessions from their start to their end, by every way of ending, with ample memory.

use std::alloc::Global;
use std::process::Abort;
use std::sync::Wait;
use sx_base::{MemLink, MemSink, MemSource, StepClock};
use sx_book::{Book, ConnEnd, ConnReport, Full, Office};
use sx_smb_door::serve_session;

/// No call fails.
const NONE: u64 = 1_000_000;

/// A session in an office without shares: what it is given, and what comes of it.
struct Row {
    limit: u32,
    budget: u64,
    input: &'static [u8],
    /// How many bytes a read gives.
    chunk: usize,
    /// Which read, and which put, fails.
    read: u64,
    put: u64,
    out: &'static [u8],
    end: ConnEnd,
    taken: u64,
    asked: u64,
    full: Option<Full>,
    entries: usize,
}

const ROWS: [Row; 17] = [
    Row {
        limit: 10,
        budget: 1_000,
        input: b"close 1\nopen data a.txt rw rwd existing file\n",
        chunk: 7,
        read: NONE,
        put: NONE,
        out: b"ERR INVALID_HANDLE 2 handle 1.1\nERR BAD_NETWORK_NAME 3 no share\n",
        end: ConnEnd::Ended,
        taken: 45,
        asked: 2,
        full: None,
        entries: 4,
    },
    Row {
        limit: 10,
        budget: 1_000,
        input: b"sing\n\n\xff\xfe\nclose 01\nclose 4294967296\nclose 99999999999999999999\n",
        chunk: 100,
        read: NONE,
        put: NONE,
        out: b"ERR SYNTAX 0\nERR SYNTAX 0\nERR SYNTAX 0\nERR SYNTAX 6\nERR SYNTAX 6\nERR SYNTAX 6\n",
        end: ConnEnd::Ended,
        taken: 62,
        asked: 0,
        full: None,
        entries: 2,
    },
    Row {
        limit: 10,
        budget: 1_000,
        input: b"",
        chunk: 1,
        read: NONE,
        put: NONE,
        out: b"",
        end: ConnEnd::Ended,
        taken: 0,
        asked: 0,
        full: None,
        entries: 2,
    },
    Row {
        limit: 10,
        budget: 1_000,
        input: b"close 1\nclo",
        chunk: 1,
        read: NONE,
        put: NONE,
        out: b"ERR INVALID_HANDLE 2 handle 1.1\n",
        end: ConnEnd::Cut { left: 3 },
        taken: 11,
        asked: 1,
        full: None,
        entries: 3,
    },
    Row {
        limit: 10,
        budget: 8,
        input: b"close 1\nclose 1\n",
        chunk: 100,
        read: NONE,
        put: NONE,
        out: b"ERR INVALID_HANDLE 2 handle 1.1\n",
        end: ConnEnd::Spent,
        taken: 8,
        asked: 1,
        full: None,
        entries: 3,
    },
    Row {
        limit: 10,
        budget: 10,
        input: b"close 1\nclose 1\n",
        chunk: 3,
        read: NONE,
        put: NONE,
        out: b"ERR INVALID_HANDLE 2 handle 1.1\n",
        end: ConnEnd::Spent,
        taken: 10,
        asked: 1,
        full: None,
        entries: 3,
    },
    Row {
        limit: 10,
        budget: 0,
        input: b"close 1\n",
        chunk: 100,
        read: NONE,
        put: NONE,
        out: b"",
        end: ConnEnd::Spent,
        taken: 0,
        asked: 0,
        full: None,
        entries: 2,
    },
    Row {
        limit: 10,
        budget: 1_000,
        input: b"close 1\n",
        chunk: 100,
        read: 0,
        put: NONE,
        out: b"",
        end: ConnEnd::ReadFault,
        taken: 0,
        asked: 0,
        full: None,
        entries: 2,
    },
    Row {
        limit: 10,
        budget: 1_000,
        input: b"close 1\nclose 1\n",
        chunk: 8,
        read: 1,
        put: NONE,
        out: b"ERR INVALID_HANDLE 2 handle 1.1\n",
        end: ConnEnd::ReadFault,
        taken: 8,
        asked: 1,
        full: None,
        entries: 3,
    },
    Row {
        limit: 10,
        budget: 1_000,
        input: b"close 1\nclose 1\n",
        chunk: 8,
        read: NONE,
        put: 0,
        out: b"",
        end: ConnEnd::WriteFault,
        taken: 8,
        asked: 1,
        full: None,
        entries: 3,
    },
    Row {
        limit: 3,
        budget: 1_000,
        input: b"close 1\nclose 1\n",
        chunk: 100,
        read: NONE,
        put: NONE,
        out: b"ERR INVALID_HANDLE 2 handle 1.1\nERR HISTORY_FULL 2 1 3\n",
        end: ConnEnd::Ended,
        taken: 16,
        asked: 2,
        full: Some(Full {
            entries: 2,
            sessions: 1,
            limit: 3,
        }),
        entries: 3,
    },
    Row {
        limit: 2,
        budget: 1_000,
        input: b"close 1\n",
        chunk: 100,
        read: NONE,
        put: NONE,
        out: b"ERR HISTORY_FULL 1 1 2\n",
        end: ConnEnd::Ended,
        taken: 8,
        asked: 1,
        full: Some(Full {
            entries: 1,
            sessions: 1,
            limit: 2,
        }),
        entries: 2,
    },
    Row {
        limit: 1,
        budget: 1_000,
        input: b"close 1\n",
        chunk: 100,
        read: NONE,
        put: NONE,
        out: b"",
        end: ConnEnd::Full(Full {
            entries: 0,
            sessions: 0,
            limit: 1,
        }),
        taken: 0,
        asked: 0,
        full: None,
        entries: 0,
    },
    Row {
        limit: 10,
        budget: 1_000,
        input: b"close 1\nquit\nclose 1\n",
        chunk: 100,
        read: NONE,
        put: NONE,
        out: b"ERR INVALID_HANDLE 2 handle 1.1\nOK 3 end 0\n",
        end: ConnEnd::Closed { at: None },
        taken: 13,
        asked: 1,
        full: None,
        entries: 3,
    },
    Row {
        limit: 10,
        budget: 1_000,
        input: b"quit \nclose 1 \nquit\r\n",
        chunk: 5,
        read: NONE,
        put: NONE,
        out: b"ERR SYNTAX 5\nERR SYNTAX 8\nOK 2 end 0\n",
        end: ConnEnd::Closed { at: None },
        taken: 21,
        asked: 0,
        full: None,
        entries: 2,
    },
    Row {
        limit: 10,
        budget: 1_000,
        input: b"lock 1 0 1 shared\nquit\n",
        chunk: 100,
        read: NONE,
        put: 3,
        out: b"ERR INVALID_HANDLE 2 handle 1.1\n",
        end: ConnEnd::WriteFault,
        taken: 23,
        asked: 1,
        full: None,
        entries: 3,
    },
    Row {
        limit: 3,
        budget: 1_000,
        input: b"close 1\nclose 1\nquit\n",
        chunk: 100,
        read: NONE,
        put: NONE,
        out: b"ERR INVALID_HANDLE 2 handle 1.1\nERR HISTORY_FULL 2 1 3\nOK 3 end 0\n",
        end: ConnEnd::Closed { at: None },
        taken: 21,
        asked: 2,
        full: Some(Full {
            entries: 2,
            sessions: 1,
            limit: 3,
        }),
        entries: 3,
    },
];

/// Serves a session through an office of its own, which is closed behind it.
fn served<R: Abort + Wait>(
    rt: &R,
    alloc: Global,
    limit: u32,
    link: &mut MemLink,
    budget: u64,
) -> (ConnReport, Book) {
    let Ok((office, mut pass)) = Office::begin(alloc, limit) else {
        panic!(rt; "no memory");
    };
    let mut clock = StepClock { at: 5, step: 1 };
    let report = serve_session(alloc, rt, &office, &mut pass, link, &mut clock, budget);
    match office.close(rt, pass) {
        Ok(book) => (report, book),
        Err(fault) => panic!(rt; "{} out", Office::abandon(fault)),
    }
}

fn list<T: Copy>(rt: &impl Abort, alloc: Global, items: &[T]) -> Vec<T> {
    match Vec::from_slice(alloc, items) {
        Ok(items) => items,
        Err(_) => panic!(rt; "no memory"),
    }
}

fn link_of(rt: &impl Abort, alloc: Global, row: &Row) -> MemLink {
    let reads = list(rt, alloc, &[row.read]);
    MemLink {
        source: MemSource::new(list(rt, alloc, row.input), row.chunk, reads),
        sink: MemSink::new(alloc, list(rt, alloc, &[row.put])),
        peer: 7,
    }
}

fn wanted_report(row: &Row) -> ConnReport {
    ConnReport {
        end: row.end,
        taken: row.taken,
        asked: row.asked,
        full: row.full,
        starved: false,
    }
}

fn check_book(rt: &impl Abort, book: &Book, entries: usize) {
    assert_eq!(rt; book.entries().len(), entries);
    assert_eq!(rt; book.live(), 0);
}

fn check_row<R: Abort + Wait>(rt: &R, alloc: Global, number: usize, row: &Row) {
    let mut link = link_of(rt, alloc, row);
    let (report, book) = served(rt, alloc, row.limit, &mut link, row.budget);
    assert_eq!(rt; report, wanted_report(row), "at {number}");
    assert!(rt; link.sink.bytes() == row.out, "at {number}");
    check_book(rt, &book, row.entries);
}

#[test]
fn sessions_end(rt: HostRuntime) {
    for (number, row) in ROWS.iter().enumerate() {
        check_row(&rt, rt.alloc(), number, row);
    }
}

/// A link with one line, and behind it one a byte over the limit.
fn long_link(rt: &impl Abort, alloc: Global) -> MemLink {
    let mut bytes = list(rt, alloc, b"close 1\n");
    assert!(rt; bytes.resize(2_097_417, b'a').is_ok());
    MemLink {
        source: MemSource::new(bytes, 65_536, Vec::new(alloc)),
        sink: MemSink::new(alloc, Vec::new(alloc)),
        peer: 7,
    }
}

/// A session whose second line is one byte over the limit.
#[test]
fn long_lines_close(rt: HostRuntime) {
    let alloc = rt.alloc();
    let mut link = long_link(&rt, alloc);
    let (report, book) = served(&rt, alloc, 10, &mut link, 1_099_511_627_776);
    assert_eq!(rt; report.end, ConnEnd::Closed { at: Some(8) });
    assert_eq!(rt; report.taken, 8);
    let wanted = b"ERR INVALID_HANDLE 2 handle 1.1\nERR LINE 2097408\n".as_slice();
    assert!(rt; link.sink.bytes() == wanted);
    check_book(&rt, &book, 3);
}
