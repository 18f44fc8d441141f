//! The service over listeners of which a call fails.

use crate::common::{Size, status};
use crate::failing::{Call, FailingListener};
use std::alloc::Global;
use std::process::Abort;
use std::sync::Wait;
use std::thread::Threads;
use sx_base::{Listener, MemSink};

/// Which calls of the listeners fail, what is written, and how many calls each listener counts as failed.
struct Row {
    rest: Call,
    smb: Call,
    out: &'static [u8],
    faults: [u64; 2],
}

const ROWS: [Row; 5] = [
    Row {
        rest: Call::Bind,
        smb: Call::Accept,
        out: b"",
        faults: [1, 0],
    },
    Row {
        rest: Call::Accept,
        smb: Call::Bind,
        out: b"",
        faults: [0, 1],
    },
    Row {
        rest: Call::Fork,
        smb: Call::Accept,
        out: b"",
        faults: [1, 0],
    },
    Row {
        rest: Call::Accept,
        smb: Call::Fork,
        out: b"",
        faults: [0, 1],
    },
    // Each of two workers finds its own listener failing.
    Row {
        rest: Call::Accept,
        smb: Call::Accept,
        out: b"rest 8080\nsmb 4450\n",
        faults: [2, 2],
    },
];

fn check<R: Abort + Threads + Wait + Sync>(rt: &R, alloc: Global, row: &Row) {
    let mut out = MemSink::new(alloc, Vec::new(alloc));
    let mut rest = FailingListener::new(row.rest);
    let mut smb = FailingListener::new(row.smb);
    let size = Size {
        rest_port: 8080,
        smb_port: 4450,
        workers: 2,
        conns: 0,
        limit: 100,
    };
    assert_eq!(rt; status(rt, alloc, size, &mut out, &mut rest, &mut smb), 6);
    assert_eq!(rt; out.bytes(), row.out);
    assert_eq!(rt; [rest.listen_faults(), smb.listen_faults()], row.faults);
}

#[test]
fn a_failed_call_of_a_listener_is_told(rt: HostRuntime) {
    let alloc = rt.alloc();
    for row in &ROWS {
        check(&rt, alloc, row);
    }
}
