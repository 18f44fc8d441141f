//! Reads and writes that fail, each in turn, with ample memory.

use crate::conn::{NONE_FAILS, link_of, served};
use crate::rows::{BUDGET, ROWS};
use std::alloc::Global;
use std::process::Abort;
use std::sync::Wait;
use sx_book::{ConnEnd, ConnReport};

/// Where each request of the first row ends in its input.
const REQUESTS: [u64; 5] = [0, 199, 552, 801, 973];

/// Where each of its answers ends in the output.
const ANSWERS: [usize; 5] = [0, 235, 704, 939, 1_544];

/// How many of its requests stand in the first bytes.
fn requests_in(bytes: u64) -> usize {
    REQUESTS
        .iter()
        .filter(|end| **end <= bytes)
        .count()
        .saturating_sub(1)
}

fn place(places: &[u64], count: usize) -> u64 {
    match places.get(count) {
        Some(place) => *place,
        None => 0,
    }
}

/// The report of a connection with so many calls.
fn report_of(end: ConnEnd, count: usize) -> ConnReport {
    ConnReport {
        end,
        taken: place(&REQUESTS, count),
        asked: count as u64,
        full: None,
        starved: false,
    }
}

/// Whether the bytes are the front of the output of this length.
fn is_front(bytes: &[u8], length: usize) -> bool {
    bytes.len() == length && ROWS[0].out.as_bytes().starts_with(bytes)
}

fn are_answers(bytes: &[u8], count: usize) -> bool {
    match ANSWERS.get(count) {
        Some(length) => is_front(bytes, *length),
        None => false,
    }
}

/// The first row with a failing read, where a read gives 64 bytes: what was given before is answered.
fn fail_read<R: Abort + Wait>(rt: &R, alloc: Global, read: u64) {
    let bytes = ROWS[0].input.as_bytes();
    let mut link = link_of(rt, alloc, bytes, 64, read, NONE_FAILS);
    let (report, book) = served(rt, alloc, 10, &mut link, BUDGET);
    let count = requests_in(read.saturating_mul(64));
    assert_eq!(rt; report, report_of(ConnEnd::ReadFault, count), "at {read}");
    assert!(rt; are_answers(link.sink.bytes(), count), "at {read}");
    assert_eq!(rt; book.entries().len(), count, "at {read}");
}

/// The last of the reads finds the end.
#[test]
fn each_read_fails(rt: HostRuntime) {
    for read in 0..17u64 {
        fail_read(&rt, rt.alloc(), read);
    }
}

/// For each put the calls that stand where it fails, and how many bytes were written before it: the last answer is two
/// puts, the second of the file's bytes.
const PUTS: [(usize, usize); 5] = [(1, 0), (2, 235), (3, 704), (4, 939), (4, 1_540)];

/// The first row with a failing put: the call whose answer was to be written stands.
fn fail_put<R: Abort + Wait>(rt: &R, alloc: Global, put: u64, count: usize, written: usize) {
    let bytes = ROWS[0].input.as_bytes();
    let mut link = link_of(rt, alloc, bytes, 4_096, NONE_FAILS, put);
    let (report, book) = served(rt, alloc, 10, &mut link, BUDGET);
    assert_eq!(rt; report, report_of(ConnEnd::WriteFault, count), "at {put}");
    assert!(rt; is_front(link.sink.bytes(), written), "at {put}");
    assert_eq!(rt; book.entries().len(), count, "at {put}");
}

#[test]
fn each_put_fails(rt: HostRuntime) {
    for (put, (count, written)) in PUTS.iter().enumerate() {
        fail_put(&rt, rt.alloc(), put as u64, *count, *written);
    }
}
