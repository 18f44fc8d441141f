//! The longest line of a session, and the most opens of a file.

use crate::asking::{SHARE, asks, put, same};
use crate::faults::{NONE_FAILS, failing, session};
use crate::opening::{begun, closes, new_year};
use crate::saying;
use std::alloc::Global;
use std::process::Abort;
use std::sync::Wait;
use sx_base::MemLink;
use sx_book::ConnEnd;

/// The file that is opened.
const FILE: &str = r#"PUT /data/a.txt
> Content-Length: 0
> x-ms-type: file
> x-ms-content-length: 0
* 02 00:00:00 201 Created
< Last-Modified: Sat, 01 Jan 2022 00:00:00 GMT
< ETag: "0x0000000000000002"
< x-ms-file-attributes: Archive
< x-ms-file-creation-time: 2022-01-01T00:00:00.0000000Z
< x-ms-file-last-write-time: 2022-01-01T00:00:00.0000000Z
< x-ms-file-change-time: 2022-01-01T00:00:00.0000000Z
< x-ms-file-id: 2
< x-ms-file-parent-id: 1
< Content-Length: 0"#;

/// A line of the greatest length is read, though it is no call, and one of a byte more closes the session.
#[test]
fn a_line_of_the_greatest_length(rt: HostRuntime) {
    let alloc = rt.alloc();
    let mut bytes = Vec::new(alloc);
    assert!(rt; bytes.resize(2_097_408, b'x').is_ok());
    put(&rt, &mut bytes, b"\n");
    assert!(rt; bytes.resize(4_194_818, b'x').is_ok());
    put(&rt, &mut bytes, b"\n");
    let mut link = failing(&rt, alloc, bytes, 65_536, NONE_FAILS, NONE_FAILS);
    let report = session(&rt, alloc, &mut link, 3);
    assert!(rt;
        report.end
            == ConnEnd::Closed {
                at: Some(2_097_409)
            }
    );
    same(
        &rt,
        "the session",
        link.sink.bytes(),
        b"ERR SYNTAX 0\nERR LINE 2097408\n",
    );
}

/// Puts the answer to the open of this number.
fn put_opened(rt: &impl Abort, alloc: Global, text: &mut Vec<u8>, open: u64) {
    let place = open.saturating_add(3);
    match format!(in alloc; "OK {place} open {open} opened 2 0\n") {
        Ok(line) => put(rt, text, line.as_bytes()),
        Err(_) => panic!(rt; "no memory"),
    }
}

/// The answers to 2,001 opens of one file.
fn told_opens(rt: &impl Abort, alloc: Global) -> Vec<u8> {
    let mut text = Vec::new(alloc);
    for open in 1..2_001u64 {
        put_opened(rt, alloc, &mut text, open);
    }
    put(
        rt,
        &mut text,
        b"ERR TOO_MANY_OPENED_FILES 2004 opens 2000\n",
    );
    text
}

/// A session of 2,001 opens of one file.
fn opens(rt: &impl Abort, alloc: Global) -> MemLink {
    let mut bytes = Vec::new(alloc);
    for _ in 0..2_001 {
        put(rt, &mut bytes, b"open data a.txt r rwd existing file\n");
    }
    failing(rt, alloc, bytes, 4_096, NONE_FAILS, NONE_FAILS)
}

/// Serves the session behind requests that make a share and a file.
fn opened<R: Abort + Wait>(rt: &R, alloc: Global, link: &mut MemLink) {
    let mut outside = new_year(rt, alloc, 0);
    let (office, mut pass) = begun(rt, alloc);
    asks(rt, alloc, &office, &mut pass, &mut outside, SHARE);
    asks(rt, alloc, &office, &mut pass, &mut outside, FILE);
    let report = saying::served(rt, alloc, &office, &mut pass, &mut outside, link);
    closes(rt, office, pass, 2_005);
    assert!(rt; report.end == ConnEnd::Ended && report.asked == 2_001);
}

/// A file that is open 2,000 times isn't opened once more.
#[test]
fn a_file_that_is_opened_too_often(rt: HostRuntime) {
    let alloc = rt.alloc();
    let mut link = opens(&rt, alloc);
    opened(&rt, alloc, &mut link);
    same(
        &rt,
        "the session",
        link.sink.bytes(),
        &told_opens(&rt, alloc),
    );
}
