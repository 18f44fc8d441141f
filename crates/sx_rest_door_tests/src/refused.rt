//! Connections of which no request is asked, by every rule that one can break and every place where it can end, with
//! ample memory.

use crate::conn::{NONE_FAILS, link_of, served};
use crate::uncalled::UNCALLED;
use crate::unread::UNREAD;
use std::alloc::Global;
use std::process::Abort;
use std::sync::Wait;
use sx_base::{MemLink, MemSource, Source};
use sx_book::{ConnEnd, ConnReport};

/// What is told of a request: the status, the code and the message.
pub type Told = (&'static str, &'static str, &'static str);

/// A connection to an office without shares, at 2022-01-01T00:00:00Z, for the account `acct` under the key `key`: what
/// it is given, in reads of 64 bytes, and what comes of it.
pub struct Refused {
    /// Texts, each so many times.
    pub input: &'static [(&'static str, usize)],
    pub budget: u64,
    pub told: Told,
    /// How many requests are told so.
    pub answers: usize,
    pub head_only: bool,
    pub end: ConnEnd,
    pub taken: u64,
    /// How many bytes were not read.
    pub left: usize,
}

pub const LIST: &str = "GET /?comp=list HTTP/1.1\r\n";

pub const DATED: &str = "x-ms-date: Sat, 01 Jan 2022 00:00:00 GMT\r\n";

pub const SIGNED: &str =
    "Authorization: SharedKey acct:yrfANInyXScWuZZQvC5+W4Ku6x4dZKYJjcSQnoBWXIg=\r\n";

pub const DONE: &str = "\r\n";

pub const HEAD_LONG: Told = ("400 Bad Request", "InvalidHeaderValue", "head too long");

pub const BAD_HEAD: Told = ("400 Bad Request", "InvalidHeaderValue", "head at 0");

pub const BAD_LENGTH: Told = (
    "400 Bad Request",
    "InvalidHeaderValue",
    "header content-length",
);

pub const NO_LENGTH: Told = (
    "411 Length Required",
    "MissingContentLengthHeader",
    "length",
);

pub const BODY_LONG: Told = (
    "413 Payload Too Large",
    "RequestBodyTooLarge",
    "body 4194305",
);

pub const NO_HEADER: Told = ("403 Forbidden", "AuthenticationFailed", "auth no-header");

pub const BAD_HEADER: Told = ("403 Forbidden", "AuthenticationFailed", "auth bad-header");

pub const OTHER_ACCOUNT: Told = (
    "403 Forbidden",
    "AuthenticationFailed",
    "auth other-account",
);

pub const NO_DATE: Told = ("403 Forbidden", "AuthenticationFailed", "auth no-date");

pub const BAD_DATE: Told = ("403 Forbidden", "AuthenticationFailed", "auth bad-date");

pub const DIFFERS: Told = ("403 Forbidden", "AuthenticationFailed", "auth differs");

pub const HUGE: Told = (
    "413 Payload Too Large",
    "RequestBodyTooLarge",
    "body 18446744073709551615",
);

pub const TOO_OLD: Told = (
    "403 Forbidden",
    "AuthenticationFailed",
    "auth too-old 16409942990000000 16409952000000000",
);

pub const TOO_NEW: Told = (
    "403 Forbidden",
    "AuthenticationFailed",
    "auth too-new 16409961010000000 16409952000000000",
);

pub const VERB: Told = ("405 Method Not Allowed", "UnsupportedHttpVerb", "verb");

pub const NONE: Told = ("", "", "");

fn add(rt: &impl Abort, bytes: &mut Vec<u8>, text: &str, times: usize) {
    for _ in 0..times {
        assert!(rt; bytes.extend_from_slice(text.as_bytes()).is_ok());
    }
}

fn input_of(rt: &impl Abort, alloc: Global, row: &Refused) -> Vec<u8> {
    let mut bytes = Vec::new(alloc);
    for (text, times) in row.input.iter() {
        add(rt, &mut bytes, text, *times);
    }
    bytes
}

fn link_for(rt: &impl Abort, alloc: Global, row: &Refused) -> MemLink {
    link_of(
        rt,
        alloc,
        &input_of(rt, alloc, row),
        64,
        NONE_FAILS,
        NONE_FAILS,
    )
}

/// The document that tells a refusal, and none where only the head was asked for.
fn document(rt: &impl Abort, alloc: Global, row: &Refused) -> String {
    let (_, code, message) = row.told;
    if row.head_only {
        return String::new(alloc);
    }
    match format!(in alloc;
        "<?xml version=\"1.0\" encoding=\"utf-8\"?><Error><Code>{code}</Code><Message>{message}</Message></Error>"
    ) {
        Ok(text) => text,
        Err(_) => panic!(rt; "no memory"),
    }
}

/// The head's lines behind the code: of the body, and of the connection where it closes.
fn last_lines(rt: &impl Abort, alloc: Global, length: usize, end: ConnEnd) -> String {
    let close = match end {
        ConnEnd::Closed { .. } => "Connection: close\r\n",
        _ => "",
    };
    match format!(in alloc;
        "\r\nContent-Type: application/xml\r\nContent-Length: {length}\r\n{close}\r\n"
    ) {
        Ok(text) => text,
        Err(_) => panic!(rt; "no memory"),
    }
}

/// What stands between the status and the code.
const MIDDLE: &str =
    "\r\nx-ms-request-id: 00000000-0000-0000-0000-000000000000\r\nx-ms-version: 2020-10-02\r\n\
     Date: Sat, 01 Jan 2022 00:00:00 GMT\r\nx-ms-error-code: ";

fn add_answer(rt: &impl Abort, bytes: &mut Vec<u8>, told: Told, last: &str, document: &str) {
    let (status, code, _) = told;
    add(rt, bytes, "HTTP/1.1 ", 1);
    add(rt, bytes, status, 1);
    add(rt, bytes, MIDDLE, 1);
    add(rt, bytes, code, 1);
    add(rt, bytes, last, 1);
    add(rt, bytes, document, 1);
}

/// All that is written.
fn output_of(rt: &impl Abort, alloc: Global, row: &Refused) -> Vec<u8> {
    let document = document(rt, alloc, row);
    let last = last_lines(rt, alloc, document.len(), row.end);
    let mut bytes = Vec::new(alloc);
    for _ in 0..row.answers {
        add_answer(rt, &mut bytes, row.told, last.as_str(), document.as_str());
    }
    bytes
}

fn is_output(rt: &impl Abort, alloc: Global, row: &Refused, bytes: &[u8]) -> bool {
    output_of(rt, alloc, row).as_slice() == bytes
}

/// How many bytes a source still gives.
fn count_left(rt: &impl Abort, source: &mut MemSource) -> usize {
    let mut into = [0u8; 64];
    let mut left = 0usize;
    for _ in 0..10_000u32 {
        match source.read(&mut into) {
            Ok(0) => return left,
            Ok(count) => left = left.saturating_add(count),
            Err(_) => panic!(rt; "a read failed"),
        }
    }
    left
}

fn wanted_report(row: &Refused) -> ConnReport {
    ConnReport {
        end: row.end,
        taken: row.taken,
        asked: 0,
        full: None,
        starved: false,
    }
}

fn check_refused<R: Abort + Wait>(rt: &R, alloc: Global, number: usize, row: &Refused) {
    let mut link = link_for(rt, alloc, row);
    let (report, book) = served(rt, alloc, 10, &mut link, row.budget);
    assert_eq!(rt; report, wanted_report(row), "at {number}");
    assert!(rt; is_output(rt, alloc, row, link.sink.bytes()), "at {number}");
    assert_eq!(rt; count_left(rt, &mut link.source), row.left, "at {number}");
    assert_eq!(rt; book.entries().len(), 0);
}

#[test]
fn connections_are_refused(rt: HostRuntime) {
    for (number, row) in UNREAD.iter().enumerate() {
        check_refused(&rt, rt.alloc(), number, row);
    }
    for (number, row) in UNCALLED.iter().enumerate() {
        check_refused(&rt, rt.alloc(), number, row);
    }
}
