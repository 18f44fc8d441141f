//! The commands over worked heads, with ample memory.

use std::alloc::Global;
use std::process::Abort;
use sx_base::{MemSink, MemSource};
use sx_tool::run_tool;

/// No call fails.
const NONE: u64 = 1_000_000;

/// An update of a file's range, whose signed text has 146 bytes.
const UPDATE: &[u8] =
    b"PUT /data/a.txt?comp=range HTTP/1.1\r\nContent-Length: 4\r\nx-ms-date: Sat, 01 Jan 2022 00:00:00 GMT\r\n\
      x-ms-range: bytes=0-3\r\nx-ms-version: 2020-10-02\r\nx-ms-write: update\r\n\r\n";

/// The same with the header that signs it, dated 16409952000000000.
const SIGNED: &[u8] =
    b"PUT /data/a.txt?comp=range HTTP/1.1\r\nContent-Length: 4\r\nx-ms-date: Sat, 01 Jan 2022 00:00:00 GMT\r\n\
      x-ms-range: bytes=0-3\r\nx-ms-version: 2020-10-02\r\nx-ms-write: update\r\n\
      Authorization: SharedKey acct:gYyI//hIlhaFaBwYSsrGmXWZNdv+Q/+3TfCKgDokTfw=\r\n\r\n";

const LIST: &[u8] = b"GET /?comp=list HTTP/1.1\r\n\r\n";

/// What the tool is given, and what comes of it.
#[derive(Clone, Copy)]
struct Row {
    words: &'static [&'static str],
    input: &'static [u8],
    /// Which read, and which put, fails.
    read: u64,
    put: u64,
    out: &'static [u8],
    status: u8,
}

/// A row of which no call fails.
const fn case(
    words: &'static [&'static str],
    input: &'static [u8],
    out: &'static [u8],
    status: u8,
) -> Row {
    Row {
        words,
        input,
        read: NONE,
        put: NONE,
        out,
        status,
    }
}

fn bytes_of(rt: &impl Abort, alloc: Global, bytes: &[u8]) -> Vec<u8> {
    match Vec::from_slice(alloc, bytes) {
        Ok(bytes) => bytes,
        Err(_) => panic!(rt; "no memory"),
    }
}

fn call(rt: &impl Abort, alloc: Global, number: u64) -> Vec<u64> {
    match vec![in alloc; number; 1] {
        Ok(calls) => calls,
        Err(_) => panic!(rt; "no memory"),
    }
}

fn add_word(rt: &impl Abort, alloc: Global, words: &mut Vec<String>, word: &str) {
    match String::from_str(alloc, word) {
        Ok(word) => assert!(rt; words.push(word).is_ok()),
        Err(_) => panic!(rt; "no memory"),
    }
}

fn words_of(rt: &impl Abort, alloc: Global, words: &[&str]) -> Vec<String> {
    let mut all = Vec::new(alloc);
    for word in words {
        add_word(rt, alloc, &mut all, word);
    }
    all
}

fn expect(rt: &impl Abort, alloc: Global, row: &Row) {
    let words = words_of(rt, alloc, row.words);
    let mut input = MemSource::new(bytes_of(rt, alloc, row.input), 7, call(rt, alloc, row.read));
    let mut out = MemSink::new(alloc, call(rt, alloc, row.put));
    let status = run_tool(alloc, &words, &mut input, &mut out);
    assert_eq!(rt; out.bytes(), row.out);
    assert_eq!(rt; status, row.status);
}

/// The words give that output and that status, where no call fails.
fn gives(
    rt: &impl Abort,
    alloc: Global,
    words: &[String],
    input: &[u8],
    wanted: &[u8],
    status: u8,
) {
    let mut input = MemSource::new(bytes_of(rt, alloc, input), 7, call(rt, alloc, NONE));
    let mut out = MemSink::new(alloc, call(rt, alloc, NONE));
    assert_eq!(rt; run_tool(alloc, words, &mut input, &mut out), status);
    assert_eq!(rt; out.bytes(), wanted);
}

/// What is written for the update.
const UPDATE_LINES: &[u8] =
    b"PUT\n\n\n4\n\n\n\n\n\n\n\n\nx-ms-date:Sat, 01 Jan 2022 00:00:00 GMT\nx-ms-range:bytes=0-3\n\
      x-ms-version:2020-10-02\nx-ms-write:update\n/acct/data/a.txt\ncomp:range\n\
      Authorization: SharedKey acct:gYyI//hIlhaFaBwYSsrGmXWZNdv+Q/+3TfCKgDokTfw=\n";

/// What is written for the listing.
const LIST_LINES: &[u8] = b"GET\n\n\n\n\n\n\n\n\n\n\n\n/acct/\ncomp:list\n\
      Authorization: SharedKey acct:6OOwhzuU5VT6mBbnOG6q3QZN62iiiQVKDPZvCJZiUTg=\n";

/// The text and the header of an update and of a listing.
#[test]
fn heads_are_signed(rt: HostRuntime) {
    let rows = [
        case(&["sign", "acct", "a2V5"], UPDATE, UPDATE_LINES, 0),
        case(&["sign", "acct", "a2V5"], LIST, LIST_LINES, 0),
    ];
    for row in rows.iter() {
        expect(&rt, rt.alloc(), row);
    }
}

/// The answer to the signed update at a moment.
fn at(rt: &impl Abort, alloc: Global, ticks: &'static str, out: &'static [u8], status: u8) {
    let words = words_of(rt, alloc, &["check", "acct", "a2V5", ticks]);
    gives(rt, alloc, &words, SIGNED, out, status);
}

/// The edges of the window.
#[test]
fn edges_of_the_window(rt: HostRuntime) {
    at(&rt, rt.alloc(), "16409961000000000", b"ok\n", 0);
    let late = b"auth too-old 16409952000000000 16409961000000001\n";
    at(&rt, rt.alloc(), "16409961000000001", late.as_slice(), 8);
    at(&rt, rt.alloc(), "16409943000000000", b"ok\n", 0);
    let early = b"auth too-new 16409952000000000 16409942999999999\n";
    at(&rt, rt.alloc(), "16409942999999999", early.as_slice(), 8);
    let last = b"auth too-old 16409952000000000 2500000000000000000\n";
    at(&rt, rt.alloc(), "2500000000000000000", last.as_slice(), 8);
}

const BASIC: &[u8] = b"GET / HTTP/1.1\r\nAuthorization: Basic a2V5\r\n\r\n";

const NO_DATE: &[u8] = b"GET / HTTP/1.1\r\n\
      Authorization: SharedKey acct:gYyI//hIlhaFaBwYSsrGmXWZNdv+Q/+3TfCKgDokTfw=\r\n\r\n";

const BAD_DATE: &[u8] = b"GET / HTTP/1.1\r\nDate: today\r\n\
      Authorization: SharedKey acct:gYyI//hIlhaFaBwYSsrGmXWZNdv+Q/+3TfCKgDokTfw=\r\n\r\n";

/// Each message of a fault.
#[test]
fn heads_are_checked(rt: HostRuntime) {
    let zero: &'static [&'static str] = &["check", "acct", "a2V5", "0"];
    let other: &'static [&'static str] = &["check", "other", "a2V5", "16409952000000000"];
    let differs: &'static [&'static str] = &["check", "acct", "a2V6", "16409952000000000"];
    let rows = [
        case(zero, LIST, b"auth no-header\n", 8),
        case(zero, BASIC, b"auth bad-header\n", 8),
        case(other, SIGNED, b"auth other-account\n", 8),
        case(zero, NO_DATE, b"auth no-date\n", 8),
        case(zero, BAD_DATE, b"auth bad-date\n", 8),
        case(differs, SIGNED, b"auth differs\n", 8),
    ];
    for row in rows.iter() {
        expect(&rt, rt.alloc(), row);
    }
}

/// Words that are no command.
fn refused(rt: &impl Abort, alloc: Global, words: &[&str]) {
    let words = words_of(rt, alloc, words);
    gives(rt, alloc, &words, SIGNED, b"words refused\n", 1);
}

#[test]
fn words_are_refused(rt: HostRuntime) {
    refused(&rt, rt.alloc(), &[]);
    refused(&rt, rt.alloc(), &["sign", "acct"]);
    refused(&rt, rt.alloc(), &["check", "acct", "a2V5"]);
    refused(&rt, rt.alloc(), &["check", "acct", "a2V5", "0", "0"]);
    refused(&rt, rt.alloc(), &["sing", "acct", "a2V5"]);
    refused(&rt, rt.alloc(), &["sign", "acct", "a2V5", "0"]);
}

#[test]
fn bad_words_are_refused(rt: HostRuntime) {
    let zeros = "016409952000000000";
    let late = "2500000000000000001";
    refused(&rt, rt.alloc(), &["check", "acct", "a2V5", zeros]);
    refused(&rt, rt.alloc(), &["check", "acct", "a2V5", "+1"]);
    refused(&rt, rt.alloc(), &["check", "acct", "a2V5", ""]);
    refused(&rt, rt.alloc(), &["check", "acct", "a2V5", late]);
    refused(&rt, rt.alloc(), &["sign", "ac", "a2V5"]);
    refused(&rt, rt.alloc(), &["sign", "acct", "a2V"]);
    refused(&rt, rt.alloc(), &["check", "acct", "", "0"]);
}

/// What is not one head.
#[test]
fn other_input_is_no_head(rt: HostRuntime) {
    let rows = [
        case(&["sign", "acct", "a2V5"], b"", b"", 2),
        case(&["sign", "acct", "a2V5"], b"GET /\r\n\r\n", b"", 2),
        case(&["sign", "acct", "a2V5"], b"GET / HTTP/1.1\r\n", b"", 2),
        case(
            &["sign", "acct", "a2V5"],
            b"GET / HTTP/1.1\r\n\r\nx",
            b"",
            2,
        ),
        case(&["check", "acct", "a2V5", "0"], b"close\n", b"", 2),
    ];
    for row in rows.iter() {
        expect(&rt, rt.alloc(), row);
    }
}

/// The answer to the signed update where that read or that put fails.
fn fails(rt: &impl Abort, alloc: Global, words: &[&str], read: u64, put: u64, status: u8) {
    let words = words_of(rt, alloc, words);
    let mut input = MemSource::new(bytes_of(rt, alloc, SIGNED), 7, call(rt, alloc, read));
    let mut out = MemSink::new(alloc, call(rt, alloc, put));
    assert_eq!(rt; run_tool(alloc, &words, &mut input, &mut out), status);
    assert_eq!(rt; out.bytes(), b"".as_slice());
}

/// Reads and puts that fail.
#[test]
fn failed_calls(rt: HostRuntime) {
    let sign: [&str; 3] = ["sign", "acct", "a2V5"];
    fails(&rt, rt.alloc(), &sign, 0, NONE, 3);
    fails(&rt, rt.alloc(), &sign, 7, NONE, 3);
    fails(&rt, rt.alloc(), &["check", "acct", "a2V5", "0"], 1, NONE, 3);
    fails(&rt, rt.alloc(), &sign, NONE, 0, 4);
    fails(&rt, rt.alloc(), &["check", "acct", "a2V5", "0"], NONE, 0, 4);
    fails(&rt, rt.alloc(), &["sign"], 0, 0, 1);
}

/// A short text is one put.
#[test]
fn a_second_put_is_not_made(rt: HostRuntime) {
    let row = Row {
        words: &["sign", "acct", "a2V5"],
        input: UPDATE,
        read: NONE,
        put: 1,
        out: UPDATE_LINES,
        status: 0,
    };
    expect(&rt, rt.alloc(), &row);
}

/// A head of so many bytes, most of them in a header's value.
fn head_of(rt: &impl Abort, alloc: Global, front: &[u8], size: usize, back: &[u8]) -> Vec<u8> {
    let mut bytes = bytes_of(rt, alloc, front);
    assert!(rt; bytes.resize(size, b'a').is_ok());
    assert!(rt; bytes.extend_from_slice(back).is_ok());
    bytes
}

fn ends_with(rt: &impl Abort, alloc: Global, head: Vec<u8>, put: u64, status: u8) {
    let words = words_of(rt, alloc, &["sign", "acct", "a2V5"]);
    let mut input = MemSource::new(head, 65_536, call(rt, alloc, NONE));
    let mut out = MemSink::new(alloc, call(rt, alloc, put));
    assert_eq!(rt; run_tool(alloc, &words, &mut input, &mut out), status);
}

/// A head of 65,536 bytes, one that is a byte longer, and one of a MiB.
#[test]
fn longest_head(rt: HostRuntime) {
    let cases: [(usize, u8); 3] = [(65_532, 0), (65_533, 2), (1_048_576, 2)];
    for (size, status) in cases {
        let head = head_of(&rt, rt.alloc(), b"GET / HTTP/1.1\r\na: ", size, b"\r\n\r\n");
        ends_with(&rt, rt.alloc(), head, NONE, status);
    }
}

/// A text of more than 4,096 bytes is put in several pieces, of which the second fails.
#[test]
fn a_later_put_fails(rt: HostRuntime) {
    let head = head_of(&rt, rt.alloc(), b"GET /", 9_000, b" HTTP/1.1\r\n\r\n");
    ends_with(&rt, rt.alloc(), head, 1, 4);
}
