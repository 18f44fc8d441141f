//! The body that lists ranges.

use crate::made::joined;
use std::alloc::Global;
use std::process::Abort;
use sx_extent::{Span, Spans};
use sx_listing::{BodyFault, read_ranges, write_ranges};
use sx_names::Text;

const EMPTY: &str = "<?xml version=\"1.0\" encoding=\"utf-8\"?><Ranges></Ranges>";

/// What stands in front of the ranges.
const FRONT: &str = "<?xml version=\"1.0\" encoding=\"utf-8\"?><Ranges>";

fn two_text(rt: &impl Abort, alloc: Global) -> Text {
    joined(
        rt,
        alloc,
        &[
            FRONT,
            "<Range><Start>0</Start><End>511</End></Range>",
            "<Range><Start>1024</Start><End>18446744073709551614</End></Range></Ranges>",
        ],
    )
}

fn add(rt: &impl Abort, spans: &mut Spans, from: u64, end: u64) {
    assert!(rt; from < end);
    if spans.push(Span { from, end }).is_err() {
        panic!(rt; "no memory");
    }
}

fn two(rt: &impl Abort, alloc: Global) -> Spans {
    let mut spans = Spans::new(alloc);
    add(rt, &mut spans, 0, 512);
    add(rt, &mut spans, 1_024, 18_446_744_073_709_551_615);
    spans
}

fn written(rt: &impl Abort, alloc: Global, spans: &Spans) -> Text {
    match write_ranges(alloc, spans) {
        Ok(text) => text,
        Err(_) => panic!(rt; "no memory"),
    }
}

fn read(rt: &impl Abort, alloc: Global, text: &Text) -> Spans {
    match read_ranges(alloc, text.bytes()) {
        Ok(spans) => spans,
        Err(_) => panic!(rt; "unread"),
    }
}

/// No ranges, and two of them, the last with the greatest end.
#[test]
fn ranges_are_written(rt: HostRuntime) {
    let none = Spans::new(rt.alloc());
    assert_eq!(rt; written(&rt, rt.alloc(), &none).as_str(), EMPTY);
    let spans = two(&rt, rt.alloc());
    assert!(rt; written(&rt, rt.alloc(), &spans).same(&two_text(&rt, rt.alloc())));
}

/// The same bodies, read.
#[test]
fn ranges_are_read(rt: HostRuntime) {
    let empty = joined(&rt, rt.alloc(), &[EMPTY]);
    assert_eq!(rt; read(&rt, rt.alloc(), &empty).len(), 0);
    let text = two_text(&rt, rt.alloc());
    assert!(rt; read(&rt, rt.alloc(), &text) == two(&rt, rt.alloc()));
}

fn place(rt: &impl Abort, alloc: Global, bytes: &[u8]) -> Option<u64> {
    match read_ranges(alloc, bytes) {
        Ok(_) => None,
        Err(BodyFault::Bad { at }) => Some(at),
        Err(BodyFault::NoMemory) => panic!(rt; "no memory"),
    }
}

/// A body that is cut anywhere is bad at its end.
#[test]
fn cut_ranges(rt: HostRuntime) {
    let text = two_text(&rt, rt.alloc());
    let bytes = text.bytes();
    for count in 0..bytes.len() {
        assert_eq!(rt; place(&rt, rt.alloc(), &bytes[..count]), Some(count as u64));
    }
}

/// The place of the fault in what stands behind the front of a body, from the end of that front on.
fn behind_front(rt: &impl Abort, alloc: Global, behind: &str) -> Option<u64> {
    let text = joined(rt, alloc, &[FRONT, behind]);
    let front = FRONT.len() as u64;
    place(rt, alloc, text.bytes()).map(|at| at.saturating_sub(front))
}

/// Damaged bodies: another tag, a leading zero, a sign, a number past its type, a last offset below the first, a range
/// without an end, blanks, text behind the body.
#[test]
fn damaged_ranges(rt: HostRuntime) {
    let cases = [
        ("</Ranges>", None),
        ("</ranges>", Some(2)),
        ("<Range><End>", Some(8)),
        ("<Range><Start>00", Some(15)),
        ("<Range><Start>-1", Some(14)),
        ("<Range><Start>18446744073709551615", Some(33)),
        ("<Range><Start>7</Start><End>6</End>", Some(29)),
        (
            "<Range><Start>7</Start><End>71</End></Range></Ranges>",
            None,
        ),
        ("<Range><Start>7</Start><End>6x", Some(29)),
        ("<Range><Start>7</Start></Range>", Some(24)),
        (" </Ranges>", Some(0)),
        ("</Ranges> ", Some(9)),
        ("</Ranges></Ranges>", Some(9)),
    ];
    for (behind, at) in cases {
        assert_eq!(rt; behind_front(&rt, rt.alloc(), behind), at, "{behind}");
    }
}
