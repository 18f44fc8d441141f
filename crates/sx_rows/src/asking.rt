//! Requests of a table, asked of an office over connections in memory, and their answers, byte by byte.
//!
//! A table is one text, whose rows are parted by an empty line. A row begins with the request's line, and each further
//! line begins with a mark:
//!
//!     \   the request's line goes on
//!     >   a header of the request, but for the date, the version of the service and the signature
//!     +   the request's body goes on
//!     *   the last digits of the answer's number, which is the call's place in the history, the time of day of the
//!         call, and the status with its phrase
//!     <   another header of the answer
//!     =   the answer's body goes on
//!     #   a remark
//!
//! In a body `~` stands for a byte 0. Requests are signed for the account `acct` under the key `key`.
ghost use Rattle.std.specs.Prelude.{◌≡◌};
ghost use Rattle.sx_book.specs.Passes.{IsSamePass, KeepsSessions};

use crate::opening::{Outside, begun, closes, new_year};
use std::alloc::Global;
use std::process::Abort;
use std::sync::Wait;
use sx_base::{MemLink, MemSink, MemSource};
use sx_book::{ConnEnd, ConnReport, Office, Pass};
use sx_http::{Head, read_head};
use sx_key::{Account, sign};
use sx_rest_door::serve_conn;

/// The share `data` is made, in the year's first moment.
pub(crate) const SHARE: &str = r#"PUT /data?restype=share
> Content-Length: 0
* 01 00:00:00 201 Created
< Last-Modified: Sat, 01 Jan 2022 00:00:00 GMT
< ETag: "0x0000000000000001"
< Content-Length: 0"#;

pub(crate) fn put(rt: &impl Abort, text: &mut Vec<u8>, bytes: &[u8]) {
    assert!(rt; text.extend_from_slice(bytes).is_ok(), "no memory");
}

pub(crate) fn put_line(rt: &impl Abort, text: &mut Vec<u8>, line: &str) {
    put(rt, text, line.as_bytes());
    put(rt, text, b"\r\n");
}

/// Puts what stands behind this mark, a line of its own each time.
fn put_lines(rt: &impl Abort, text: &mut Vec<u8>, row: &str, mark: &str) {
    for line in row.lines() {
        if let Some(rest) = line.strip_prefix(mark) {
            put_line(rt, text, rest);
        }
    }
}

/// Puts what stands behind this mark, in one piece.
fn put_pieces(rt: &impl Abort, text: &mut Vec<u8>, row: &str, mark: &str) {
    for line in row.lines() {
        if let Some(rest) = line.strip_prefix(mark) {
            put(rt, text, rest.as_bytes());
        }
    }
}

/// Puts a body, whose pieces stand behind this mark.
fn put_body(rt: &impl Abort, alloc: Global, text: &mut Vec<u8>, row: &str, mark: &str) {
    let mut body = Vec::new(alloc);
    put_pieces(rt, &mut body, row, mark);
    for byte in body.iter() {
        let put = if *byte == b'~' { 0 } else { *byte };
        assert!(rt; text.push(put).is_ok(), "no memory");
    }
}

/// The row's first line, and the others.
fn parted<'a>(rt: &impl Abort, row: &'a str) -> (&'a str, &'a str) {
    match row.split_once('\n') {
        Some(parts) => parts,
        None => panic!(rt; "{row} is no row"),
    }
}

/// A word, and what stands behind the space behind it.
fn worded<'a>(rt: &impl Abort, text: &'a str) -> (&'a str, &'a str) {
    match text.split_once(' ') {
        Some(parts) => parts,
        None => panic!(rt; "{text} is one word"),
    }
}

/// The line that is marked by a star.
fn starred<'a>(rt: &impl Abort, row: &'a str) -> &'a str {
    match row.lines().find_map(|line| line.strip_prefix("* ")) {
        Some(line) => line,
        None => panic!(rt; "{row} wants no answer"),
    }
}

/// The request's line and headers, without a signature.
fn unsigned(rt: &impl Abort, alloc: Global, row: &str) -> Vec<u8> {
    let (first, others) = parted(rt, row);
    let mut text = Vec::new(alloc);
    put(rt, &mut text, first.as_bytes());
    put_pieces(rt, &mut text, others, "\\ ");
    put_line(rt, &mut text, " HTTP/1.1");
    put_line(rt, &mut text, "x-ms-date: Sat, 01 Jan 2022 00:00:00 GMT");
    put_line(rt, &mut text, "x-ms-version: 2020-10-02");
    put_lines(rt, &mut text, others, "> ");
    text
}

/// The head that the lines are.
fn head_of(rt: &impl Abort, alloc: Global, lines: &[u8]) -> Head {
    let mut text = Vec::new(alloc);
    put(rt, &mut text, lines);
    put(rt, &mut text, b"\r\n");
    match read_head(alloc, &text) {
        Ok(Some(head)) => head,
        Ok(None) => panic!(rt; "no head"),
        Err(_) => panic!(rt; "no memory"),
    }
}

/// Puts the signature's header behind the lines.
pub(crate) fn put_signature(
    rt: &impl Abort,
    alloc: Global,
    account: &Account,
    lines: &mut Vec<u8>,
) {
    let head = head_of(rt, alloc, lines);
    match sign(alloc, &head, account) {
        Ok(value) => {
            put(rt, lines, b"Authorization: ");
            put_line(rt, lines, value.as_str());
        }
        Err(_) => panic!(rt; "no memory"),
    }
}

/// The whole request, signed.
pub(crate) fn request(rt: &impl Abort, alloc: Global, account: &Account, row: &str) -> Vec<u8> {
    let mut text = unsigned(rt, alloc, row);
    put_signature(rt, alloc, account, &mut text);
    put_line(rt, &mut text, "");
    put_body(rt, alloc, &mut text, row, "+ ");
    text
}

/// Puts the answer's line, number, version and date.
fn put_front(rt: &impl Abort, text: &mut Vec<u8>, starred: &str) {
    let (place, rest) = worded(rt, starred);
    let (at, status) = worded(rt, rest);
    put(rt, text, b"HTTP/1.1 ");
    put_line(rt, text, status);
    put(rt, text, b"x-ms-request-id: 00000000-0000-0000-0000-");
    for _ in place.len()..12 {
        put(rt, text, b"0");
    }
    put_line(rt, text, place);
    put_line(rt, text, "x-ms-version: 2020-10-02");
    put(rt, text, b"Date: Sat, 01 Jan 2022 ");
    put(rt, text, at.as_bytes());
    put_line(rt, text, " GMT");
}

/// The whole answer that the row wants.
pub(crate) fn wanted(rt: &impl Abort, alloc: Global, row: &str) -> Vec<u8> {
    let mut text = Vec::new(alloc);
    put_front(rt, &mut text, starred(rt, row));
    put_lines(rt, &mut text, row, "< ");
    put_line(rt, &mut text, "");
    put_body(rt, alloc, &mut text, row, "= ");
    text
}

pub(crate) fn link(alloc: Global, bytes: Vec<u8>) -> MemLink {
    MemLink {
        source: MemSource::new(bytes, 4_096, Vec::new(alloc)),
        sink: MemSink::new(alloc, Vec::new(alloc)),
        peer: 2_130_706_433,
    }
}

/// The texts are the same, or the test ends and shows what was answered.
pub(crate) fn same(rt: &impl Abort, asked: &str, answered: &[u8], wanted: &[u8]) {
    if answered != wanted {
        match std::str::from_utf8(answered) {
            Ok(text) => panic!(rt; "{asked} was answered {text}"),
            Err(_) => panic!(rt; "{asked} was answered otherwise"),
        }
    }
}

/// Serves a connection that has these bytes, which are so many requests, and gives what was answered.
pub(crate) fn served<R: Abort + Wait>(
    rt: &R,
    alloc: Global,
    office: &Office,
    pass: &mut Pass,
    outside: &mut Outside,
    link: &mut MemLink,
) -> ConnReport
    requires own { pass.old.office ≡ office.now }
    ensures held { KeepsSessions pass.old pass.new }
    ensures same { IsSamePass pass.old pass.new }
{
    serve_conn(
        alloc,
        rt,
        office,
        pass,
        link,
        &mut outside.clock,
        &mut outside.random,
        &outside.account,
        1_099_511_627_776,
    )
}

pub(crate) fn check(rt: &impl Abort, report: ConnReport, taken: u64) {
    assert!(rt; report.end == ConnEnd::Ended);
    assert!(rt; report.taken == taken);
    assert!(rt; report.asked <= 1 && !report.starved);
}

/// Asks the request of one row over a connection of its own.
fn ask<R: Abort + Wait>(
    rt: &R,
    alloc: Global,
    office: &Office,
    pass: &mut Pass,
    outside: &mut Outside,
    row: &str,
)
    requires own { pass.old.office ≡ office.now }
    ensures held { KeepsSessions pass.old pass.new }
    ensures same { IsSamePass pass.old pass.new }
{
    let bytes = request(rt, alloc, &outside.account, row);
    let taken = bytes.len() as u64;
    let mut link = link(alloc, bytes);
    let report = served(rt, alloc, office, pass, outside, &mut link);
    same(rt, row, link.sink.bytes(), &wanted(rt, alloc, row));
    check(rt, report, taken);
}

/// Asks the requests of a table, one after another. An empty text is a table without rows.
pub(crate) fn asks<R: Abort + Wait>(
    rt: &R,
    alloc: Global,
    office: &Office,
    pass: &mut Pass,
    outside: &mut Outside,
    table: &str,
)
    requires own { pass.old.office ≡ office.now }
    ensures held { KeepsSessions pass.old pass.new }
    ensures same { IsSamePass pass.old pass.new }
{
    for row in table.split("\n\n") {
        if !row.is_empty() {
            ask(rt, alloc, office, pass, outside, row);
        }
    }
}

/// Asks the requests of a table of an office of its own, which has so many entries then. Its clock goes on by this
/// step each time that it is asked.
pub(crate) fn rows<R: Abort + Wait>(rt: &R, alloc: Global, step: u64, table: &str, entries: usize) {
    let mut outside = new_year(rt, alloc, step);
    let (office, mut pass) = begun(rt, alloc);
    asks(rt, alloc, &office, &mut pass, &mut outside, table);
    closes(rt, office, pass, entries);
}
