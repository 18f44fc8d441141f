//! The command's sessions and statuses, with ample memory.

use super::run::run;
use std::alloc::Global;
use std::process::Abort;
use std::sync::Wait;
use std::thread::Threads;
use sx_base::{MemLink, MemListener, MemSink, MemSource, StepClock, StepWords};

/// No call fails.
const NONE: u64 = 1_000_000;

/// What the program is given, and what comes of it.
struct Row {
    words: &'static [&'static str],
    input: &'static [u8],
    /// Which read, and which put, fails.
    read: u64,
    put: u64,
    out: &'static [u8],
    status: u8,
}

const ROWS: [Row; 26] = [
    Row {
        words: &["session", "data"],
        input: b"",
        read: NONE,
        put: NONE,
        out: b"",
        status: 0,
    },
    Row {
        words: &["session", "data"],
        input: b"\
            open data docs rwd rwd create dir\n\
            stat 1\n\
            open data docs/f rw r create file\n\
            write 2 0 6869\n\
            stat 2\n\
            open data docs/f r rwd existing file\n\
            open data docs/F r r existing file\n\
            open data docs/f r rw existing file doc\n\
            quit\n\
            stat 1\n\
        ",
        read: NONE,
        put: NONE,
        out: b"\
            OK 3 open 1 created 2 0\n\
            OK 4 stat 2 dir 0 Directory 7 7 7\n\
            OK 5 open 2 created 3 0\n\
            OK 6 write 2 2\n\
            OK 7 stat 3 file 2 Archive 9 10 10\n\
            OK 8 open 3 opened 3 2\n\
            ERR SHARING_VIOLATION 9 sharing handle 1.2\n\
            ERR SYNTAX 36\n\
            OK 10 end 3\n\
        ",
        status: 0,
    },
    Row {
        words: &["session", "data"],
        input: b"\
            open data docs rwd rwd create dir\n\
            open data docs/a%20b.txt rwd rwd create file\n\
            write 2 0 68690a\n\
            write 2 6 62796521\n\
            lock 2 0 4 exclusive\n\
            open data DOCS/A%20B.TXT rw rwd existing file\n\
            read 3 0 4\n\
            lock 3 3 2 shared\n\
            read 3 6 4\n\
            unlock 2 0 4 exclusive\n\
            read 3 0 16\n\
            resize 2 3\n\
            list 1 * 10\n\
            dispose 2 on\n\
            close 3\n\
            close 2\n\
            list 1 * 10\n\
            quit\n\
        ",
        read: NONE,
        put: NONE,
        out: b"\
            OK 3 open 1 created 2 0\n\
            OK 4 open 2 created 3 0\n\
            OK 5 write 3 3\n\
            OK 6 write 4 10\n\
            OK 7 lock\n\
            OK 8 open 3 opened 3 10\n\
            ERR FILE_LOCK_CONFLICT 9 lock handle 1.2 from 0 to 3\n\
            ERR LOCK_NOT_GRANTED 10 lock handle 1.2 from 0 to 3\n\
            OK 11 read 4 62796521\n\
            OK 12 unlock\n\
            OK 13 read 10 68690a00000062796521\n\
            OK 14 resize 3\n\
            OK 15 list 1 * file:3:a%20b.txt\n\
            OK 16 dispose\n\
            OK 17 close kept\n\
            OK 18 close gone\n\
            OK 19 list 0 *\n\
            OK 20 end 1\n\
        ",
        status: 0,
    },
    Row {
        words: &["session", "data"],
        input: b"open data a.txt rw rwd create file\nwrite 1 0 68690a\nread 1 0 16\nclose 1\nread 1 0 16\n",
        read: NONE,
        put: NONE,
        out: b"\
            OK 3 open 1 created 2 0\n\
            OK 4 write 3 3\n\
            OK 5 read 3 68690a\n\
            OK 6 close kept\n\
            ERR INVALID_HANDLE 7 handle 1.1\n\
        ",
        status: 0,
    },
    Row {
        words: &["session", "data"],
        input: b"\
            open data a.txt rw rwd create file\n\
            open data a.txt rw rwd create file\n\
            open data b.txt rw rwd existing file\n\
            sing\n\
        ",
        read: NONE,
        put: NONE,
        out: b"\
            OK 3 open 1 created 2 0\n\
            ERR OBJECT_NAME_COLLISION 4 there id 2\n\
            ERR OBJECT_NAME_NOT_FOUND 5 no name\n\
            ERR SYNTAX 0\n\
        ",
        status: 0,
    },
    Row {
        words: &["session", "data"],
        input: b"\
            open data A.txt rw rwd create file\n\
            write 1 4 ff\n\
            open data a.TXT rw rwd existing file\n\
            read 2 0 16\n\
            read 1 5 16\n\
            open other a.txt rw rwd existing file\n\
            close 2\n\
            close 2\n\
            quit\n\
            close 1\n\
        ",
        read: NONE,
        put: NONE,
        out: b"\
            OK 3 open 1 created 2 0\n\
            OK 4 write 1 5\n\
            OK 5 open 2 opened 2 5\n\
            OK 6 read 5 00000000ff\n\
            OK 7 read 0 -\n\
            ERR BAD_NETWORK_NAME 8 no share\n\
            OK 9 close kept\n\
            ERR INVALID_HANDLE 10 handle 1.2\n\
            OK 11 end 1\n\
        ",
        status: 0,
    },
    Row {
        words: &["session", "data"],
        input: b"close 1\nclo",
        read: NONE,
        put: NONE,
        out: b"ERR INVALID_HANDLE 3 handle 1.1\n",
        status: 2,
    },
    Row {
        words: &["session", "data"],
        input: b"close 1\n",
        read: 0,
        put: NONE,
        out: b"",
        status: 3,
    },
    Row {
        words: &["session", "data"],
        input: b"close 1\n",
        read: 2,
        put: NONE,
        out: b"ERR INVALID_HANDLE 3 handle 1.1\n",
        status: 3,
    },
    Row {
        words: &["session", "data"],
        input: b"close 1\n",
        read: NONE,
        put: 0,
        out: b"",
        status: 4,
    },
    Row {
        words: &["session"],
        input: b"close 1\n",
        read: NONE,
        put: NONE,
        out: b"words refused\n",
        status: 1,
    },
    Row {
        words: &["session", "data", "more"],
        input: b"",
        read: NONE,
        put: NONE,
        out: b"words refused\n",
        status: 1,
    },
    Row {
        words: &["session", "Data"],
        input: b"",
        read: NONE,
        put: NONE,
        out: b"words refused\n",
        status: 1,
    },
    Row {
        words: &["sessions", "data"],
        input: b"",
        read: NONE,
        put: NONE,
        out: b"words refused\n",
        status: 1,
    },
    Row {
        words: &[],
        input: b"",
        read: NONE,
        put: NONE,
        out: b"words refused\n",
        status: 1,
    },
    Row {
        words: &["--help"],
        input: b"",
        read: NONE,
        put: 0,
        out: b"",
        status: 1,
    },
    Row {
        words: &["sign", "ab"],
        input: b"",
        read: NONE,
        put: NONE,
        out: b"words refused\n",
        status: 1,
    },
    Row {
        words: &["sign", "abc", "a2V5"],
        input: b"",
        read: NONE,
        put: NONE,
        out: b"",
        status: 2,
    },
    Row {
        words: &["check", "abc", "a2V5", "0"],
        input: b"GET",
        read: 1,
        put: NONE,
        out: b"",
        status: 3,
    },
    Row {
        words: &["conn", "acct", "a2V5"],
        input: b"GET /?comp=list HTTP/1.1\r\nx-ms-date: Thu, 01 Jan 1970 00:00:00 GMT\r\nx-ms-version: 2020\
            -10-02\r\nAuthorization: SharedKey acct:bkfGgOIDQpTayWI69R0dBD9uMSB4IVrouJpk4Vkk0Z4=\r\n\r\
            \n",
        read: NONE,
        put: NONE,
        out: b"HTTP/1.1 200 OK\r\nx-ms-request-id: 00000000-0000-0000-0000-000000000001\r\nx-ms-version: \
            2020-10-02\r\nDate: Thu, 01 Jan 1970 00:00:00 GMT\r\nContent-Type: application/xml\r\nCont\
            ent-Length: 184\r\n\r\n<?xml version=\"1.0\" encoding=\"utf-8\"?><EnumerationResults><Pref\
            ix></Prefix><Marker></Marker><MaxResults>5000</MaxResults><Shares></Shares><NextMarker></N\
            extMarker></EnumerationResults>",
        status: 0,
    },
    Row {
        words: &["conn", "acct", "a2V5"],
        input: b"GET /?comp=list HTTP/1.1\r\nx-ms-date: Thu, 01 Jan 1970 00:00:00 GMT\r\nx-ms-version: 2020\
            -10-02\r\nAuthorization: SharedKey acct:bkfGgOIDQpTayWI69R0dBD9uMSB4IVrouJpk4Vkk0Z4=\r\n\r",
        read: NONE,
        put: NONE,
        out: b"",
        status: 2,
    },
    Row {
        words: &["conn", "acct", "a2V5"],
        input: b"GET / HTTP/1.1\r\nA b: c\r\n\r\n",
        read: NONE,
        put: NONE,
        out: b"HTTP/1.1 400 Bad Request\r\nx-ms-request-id: 00000000-0000-0000-0000-000000000000\r\nx-ms-\
            version: 2020-10-02\r\nDate: Thu, 01 Jan 1970 00:00:00 GMT\r\nx-ms-error-code: InvalidHead\
            erValue\r\nContent-Type: application/xml\r\nContent-Length: 112\r\nConnection: close\r\n\r\
            \n<?xml version=\"1.0\" encoding=\"utf-8\"?><Error><Code>InvalidHeaderValue</Code><Message\
            >head at 0</Message></Error>",
        status: 2,
    },
    Row {
        words: &["conn", "acct"],
        input: b"",
        read: NONE,
        put: NONE,
        out: b"words refused\n",
        status: 1,
    },
    Row {
        words: &["conn", "acct", "a2V"],
        input: b"",
        read: NONE,
        put: NONE,
        out: b"words refused\n",
        status: 1,
    },
    Row {
        words: &["serve", "0", "0", "0", "1", "1", "100", "acct", "a2V5"],
        input: b"",
        read: NONE,
        put: NONE,
        out: b"words refused\n",
        status: 1,
    },
    Row {
        words: &[
            "serve", "8080", "4450", "1", "1", "1", "100", "acct", "a2V5",
        ],
        input: b"",
        read: NONE,
        put: 0,
        out: b"",
        status: 4,
    },
];

/// The service with one worker for each door, which serves one link.
const SERVICE: Row = Row {
    words: &[
        "serve", "8080", "4450", "1", "1", "1", "100", "acct", "a2V5",
    ],
    input: b"",
    read: NONE,
    put: NONE,
    out: b"rest 8080\nsmb 4450\n",
    status: 0,
};

fn list<T: Copy>(rt: &impl Abort, alloc: Global, items: &[T]) -> Vec<T> {
    match Vec::from_slice(alloc, items) {
        Ok(items) => items,
        Err(_) => panic!(rt; "no memory"),
    }
}

fn words_of(rt: &impl Abort, alloc: Global, row: &Row) -> Vec<String> {
    let mut words = Vec::new(alloc);
    for word in row.words {
        let Ok(word) = String::from_str(alloc, word) else {
            panic!(rt; "no memory");
        };
        assert!(rt; words.push(word).is_ok());
    }
    words
}

/// A listener with one link.
fn listener(rt: &impl Abort, alloc: Global, bytes: &[u8]) -> MemListener {
    let mut links = Vec::new(alloc);
    let link = MemLink {
        source: MemSource::new(list(rt, alloc, bytes), 7, Vec::new(alloc)),
        sink: MemSink::new(alloc, Vec::new(alloc)),
        peer: 7,
    };
    assert!(rt; links.push(link).is_ok());
    match MemListener::new(alloc, links) {
        Ok(listener) => listener,
        Err(_) => panic!(rt; "no memory"),
    }
}

fn status_of<R: Abort + Threads + Wait + Sync>(
    rt: &R,
    alloc: Global,
    row: &Row,
    out: &mut MemSink,
    rest: &mut MemListener,
    smb: &mut MemListener,
) -> u8 {
    let words = words_of(rt, alloc, row);
    let reads = list(rt, alloc, &[row.read]);
    let mut input = MemSource::new(list(rt, alloc, row.input), 5, reads);
    let mut clock = StepClock { at: 5, step: 1 };
    let mut random = StepWords { at: 0 };
    run(
        alloc,
        rt,
        words.as_slice(),
        &mut input,
        out,
        &mut clock,
        &mut random,
        rest,
        smb,
    )
}

fn check_row<R: Abort + Threads + Wait + Sync>(rt: &R, alloc: Global, number: usize, row: &Row) {
    let mut out = MemSink::new(alloc, list(rt, alloc, &[row.put]));
    let mut rest = listener(rt, alloc, b"");
    let mut smb = listener(rt, alloc, b"");
    let status = status_of(rt, alloc, row, &mut out, &mut rest, &mut smb);
    assert_eq!(rt; status, row.status, "at {number}");
    assert!(rt; out.bytes() == row.out, "at {number}");
    assert_eq!(rt; rest.left().len(), 1, "at {number}");
    assert_eq!(rt; smb.left().len(), 1, "at {number}");
}

#[test]
fn commands_answer(rt: HostRuntime) {
    for (number, row) in ROWS.iter().enumerate() {
        check_row(&rt, rt.alloc(), number, row);
    }
}

fn check_served(rt: &impl Abort, listener: &MemListener, text: &[u8]) {
    let finished = listener.finished();
    assert_eq!(rt; finished.len(), 1);
    assert!(rt; finished[0].sink.bytes() == text);
}

fn check_service<R: Abort + Threads + Wait + Sync>(rt: &R, alloc: Global) {
    let mut out = MemSink::new(alloc, list(rt, alloc, &[NONE]));
    let mut rest = listener(rt, alloc, b"");
    let mut smb = listener(rt, alloc, b"close 1\n");
    let status = status_of(rt, alloc, &SERVICE, &mut out, &mut rest, &mut smb);
    assert_eq!(rt; status, SERVICE.status);
    assert!(rt; out.bytes() == SERVICE.out);
    check_served(rt, &rest, b"");
    check_served(rt, &smb, b"ERR INVALID_HANDLE 2 handle 1.1\n");
}

#[test]
fn the_service_is_reached(rt: HostRuntime) {
    check_service(&rt, rt.alloc());
}
