//! A session and a connection of which each read and each put fails in turn, and requests that come in pieces.

use crate::asking::{SHARE, asks, put, request, same, wanted};
use crate::opening::{Outside, begun, closes, new_year};
use crate::opens::READ_AGAIN;
use crate::saying::{lines, told};
use crate::{asking, saying};
use std::alloc::Global;
use std::process::Abort;
use std::sync::Wait;
use sx_base::{MemLink, MemSink, MemSource};
use sx_book::{ConnEnd, ConnReport};

/// The number of a call that no link here makes: none fails.
pub(crate) const NONE_FAILS: u64 = 1_000_000;

/// Three requests.
const REQUESTS: &str = r#"PUT /data?restype=share
> Content-Length: 0
* 01 00:00:00 201 Created
< Last-Modified: Sat, 01 Jan 2022 00:00:00 GMT
< ETag: "0x0000000000000001"
< Content-Length: 0

GET /data?restype=share&comp=metadata
* 02 00:00:00 200 OK
< Last-Modified: Sat, 01 Jan 2022 00:00:00 GMT
< ETag: "0x0000000000000001"
< Content-Length: 0

PUT /data/a.txt?comp=range
> Content-Length: 4
> x-ms-range: bytes=0-3
> x-ms-write: update
+ hey!
* 03 00:00:00 404 Not Found
< x-ms-error-code: ResourceNotFound
< Content-Type: application/xml
< Content-Length: 109
= <?xml version="1.0" encoding="utf-8"?><Error><Code>ResourceNotFound</Code><Message>no name</Message></Error>"#;

fn one(rt: &impl Abort, alloc: Global, number: u64) -> Vec<u64> {
    match Vec::from_slice(alloc, &[number]) {
        Ok(numbers) => numbers,
        Err(_) => panic!(rt; "no memory"),
    }
}

/// A link of which a read gives at most so many bytes, and one read and one put fail.
pub(crate) fn failing(
    rt: &impl Abort,
    alloc: Global,
    bytes: Vec<u8>,
    chunk: usize,
    read: u64,
    put: u64,
) -> MemLink {
    MemLink {
        source: MemSource::new(bytes, chunk, one(rt, alloc, read)),
        sink: MemSink::new(alloc, one(rt, alloc, put)),
        peer: 2_130_706_433,
    }
}

/// Serves a session of an office of its own, in which the share is made and which has so many entries then.
pub(crate) fn session<R: Abort + Wait>(
    rt: &R,
    alloc: Global,
    link: &mut MemLink,
    entries: usize,
) -> ConnReport {
    let mut outside = new_year(rt, alloc, 0);
    let (office, mut pass) = begun(rt, alloc);
    asks(rt, alloc, &office, &mut pass, &mut outside, SHARE);
    let report = saying::served(rt, alloc, &office, &mut pass, &mut outside, link);
    closes(rt, office, pass, entries);
    report
}

/// How many line feeds are among the first bytes, so many of them.
fn lines_in(bytes: &[u8], count: usize) -> usize {
    bytes
        .iter()
        .take(count)
        .filter(|byte| **byte == b'\n')
        .count()
}

/// The session whose read of this number fails, where a read gives four bytes.
fn session_fails_at_read<R: Abort + Wait>(rt: &R, alloc: Global, read: usize) {
    let bytes = lines(rt, alloc, READ_AGAIN);
    let count = lines_in(&bytes, read.saturating_mul(4));
    let mut link = failing(rt, alloc, bytes, 4, read as u64, NONE_FAILS);
    let report = session(rt, alloc, &mut link, count.saturating_add(3));
    assert!(rt; report.end == ConnEnd::ReadFault, "at read {read}");
    same(
        rt,
        "the session",
        link.sink.bytes(),
        &told(rt, alloc, READ_AGAIN, count),
    );
}

/// Whichever of its reads fails, a session answers the lines that it was given before, and ends.
#[test]
fn a_session_with_a_read_that_fails(rt: HostRuntime) {
    for read in 0..20 {
        session_fails_at_read(&rt, rt.alloc(), read);
    }
}

/// The session whose put of this number fails.
fn session_fails_at_put<R: Abort + Wait>(rt: &R, alloc: Global, put: usize) {
    let bytes = lines(rt, alloc, READ_AGAIN);
    let mut link = failing(rt, alloc, bytes, 4_096, NONE_FAILS, put as u64);
    let report = session(rt, alloc, &mut link, put.saturating_add(4));
    assert!(rt; report.end == ConnEnd::WriteFault, "at put {put}");
    same(
        rt,
        "the session",
        link.sink.bytes(),
        &told(rt, alloc, READ_AGAIN, put),
    );
}

/// Whichever of its puts fails, a session has written the answers before, the call of the line stands, and it ends.
#[test]
fn a_session_with_a_put_that_fails(rt: HostRuntime) {
    for put in 0..5 {
        session_fails_at_put(&rt, rt.alloc(), put);
    }
}

/// The first requests, so many of them, one behind another.
fn requests(rt: &impl Abort, alloc: Global, outside: &Outside, count: usize) -> Vec<u8> {
    let mut bytes = Vec::new(alloc);
    for row in REQUESTS.split("\n\n").take(count) {
        put(rt, &mut bytes, &request(rt, alloc, &outside.account, row));
    }
    bytes
}

/// The answers to the first requests, so many of them.
fn answers(rt: &impl Abort, alloc: Global, count: usize) -> Vec<u8> {
    let mut text = Vec::new(alloc);
    for row in REQUESTS.split("\n\n").take(count) {
        put(rt, &mut text, &wanted(rt, alloc, row));
    }
    text
}

/// Serves a connection of an office of its own, which has so many entries then, and compares the answers, so many.
fn connection<R: Abort + Wait>(
    rt: &R,
    alloc: Global,
    outside: &mut Outside,
    link: &mut MemLink,
    entries: usize,
    count: usize,
) -> ConnReport {
    let (office, mut pass) = begun(rt, alloc);
    let report = asking::served(rt, alloc, &office, &mut pass, outside, link);
    closes(rt, office, pass, entries);
    same(
        rt,
        "the connection",
        link.sink.bytes(),
        &answers(rt, alloc, count),
    );
    report
}

/// These bytes, which are the requests without their last byte, where a read gives so many of them.
fn comes_in_pieces<R: Abort + Wait>(
    rt: &R,
    alloc: Global,
    outside: &mut Outside,
    bytes: &[u8],
    left: u64,
    chunk: usize,
) {
    let mut copy = Vec::new(alloc);
    put(rt, &mut copy, bytes);
    let mut link = failing(rt, alloc, copy, chunk, NONE_FAILS, NONE_FAILS);
    let report = connection(rt, alloc, outside, &mut link, 2, 2);
    assert!(rt; report.end == ConnEnd::Cut { left }, "in pieces of {chunk}");
}

/// Three requests without their last byte have two answers, wherever the first piece of them ends.
#[test]
fn requests_that_come_in_pieces(rt: HostRuntime) {
    let alloc = rt.alloc();
    let mut outside = new_year(&rt, alloc, 0);
    let two = requests(&rt, alloc, &outside, 2).len();
    let mut bytes = requests(&rt, alloc, &outside, 3);
    assert!(rt; bytes.pop().is_some());
    let left = bytes.len().saturating_sub(two) as u64;
    for chunk in 1..bytes.len() {
        comes_in_pieces(&rt, alloc, &mut outside, &bytes, left, chunk);
    }
}

/// The connection whose read of this number fails, where a read gives sixteen bytes.
fn connection_fails_at_read<R: Abort + Wait>(rt: &R, alloc: Global, read: usize) {
    let mut outside = new_year(rt, alloc, 0);
    let one = requests(rt, alloc, &outside, 1).len();
    let two = requests(rt, alloc, &outside, 2).len();
    let mut bytes = requests(rt, alloc, &outside, 3);
    assert!(rt; bytes.pop().is_some());
    let given = read.saturating_mul(16);
    let count = usize::from(one <= given).saturating_add(usize::from(two <= given));
    let mut link = failing(rt, alloc, bytes, 16, read as u64, NONE_FAILS);
    let report = connection(rt, alloc, &mut outside, &mut link, count, count);
    assert!(rt; report.end == ConnEnd::ReadFault, "at read {read}");
}

/// Whichever of its reads fails, a connection answers the requests that it was given before, and ends.
#[test]
fn a_connection_with_a_read_that_fails(rt: HostRuntime) {
    for read in 0..42 {
        connection_fails_at_read(&rt, rt.alloc(), read);
    }
}

/// The connection whose put of this number fails.
fn connection_fails_at_put<R: Abort + Wait>(rt: &R, alloc: Global, put: usize) {
    let mut outside = new_year(rt, alloc, 0);
    let bytes = requests(rt, alloc, &outside, 3);
    let mut link = failing(rt, alloc, bytes, 4_096, NONE_FAILS, put as u64);
    let report = connection(
        rt,
        alloc,
        &mut outside,
        &mut link,
        put.saturating_add(1),
        put,
    );
    assert!(rt; report.end == ConnEnd::WriteFault, "at put {put}");
}

/// Whichever of its puts fails, a connection has written the answers before, the call of the request stands, and it
/// ends.
#[test]
fn a_connection_with_a_put_that_fails(rt: HostRuntime) {
    for put in 0..3 {
        connection_fails_at_put(&rt, rt.alloc(), put);
    }
}
