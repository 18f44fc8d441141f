//! The office on two threads, each of which makes a hundred files in a session of its own.
ghost use Rattle.std.specs.Prelude.{◌≡◌};

use crate::common::{NOW, begun, closed, created, file_path, let_go, make_file, split};
use std::alloc::Global;
use std::process::Abort;
use std::sync::Wait;
use std::thread::{Threads, join_mut};
use sx_book::{Book, Office, Pass};
use sx_call::{Call, Noted};
use sx_names::Path;

// A pass, and whether one of its calls found no memory or no place.
struct Lane {
    pass: Pass,
    failed: bool,
}

fn new_lane<R: Abort + Wait>(rt: &R, office: &Office, main: &mut Pass) -> Lane
    requires own { main.old.office ≡ office.now }
    ensures same { main.new.office ≡ office.now }
    ensures new { result.pass.office ≡ office.now }
{
    Lane {
        pass: split(rt, office, main),
        failed: false,
    }
}

// Makes a hundred files in a session of the lane's pass.
fn run_lane<R: Wait>(rt: &R, alloc: Global, office: &Office, lane: &mut Lane)
    requires own { lane.old.pass.office ≡ office.now }
    ensures same { lane.new.pass.office ≡ office.now }
{
    let Ok((session, receipt)) = office.start(rt, &mut lane.pass, NOW, 7) else {
        lane.failed = true;
        return;
    };
    let_go(receipt);
    for file in 0..100 {
        if !make_file(rt, alloc, office, &mut lane.pass, &session, file) {
            lane.failed = true;
        }
    }
    let_go(office.end_session(rt, &mut lane.pass, NOW, session));
}

// Runs two lanes, each in a thread of its own.
fn run_lanes<R: Threads + Wait + Sync>(
    rt: &R,
    alloc: Global,
    office: &Office,
    first: &mut Lane,
    second: &mut Lane,
)
    requires own { (first.old.pass.office ≡ office.now) × (second.old.pass.office ≡ office.now) }
    ensures same { (first.new.pass.office ≡ office.now) × (second.new.pass.office ≡ office.now) }
{
    join_mut(
        rt,
        &mut || run_lane(rt, alloc, office, first),
        &mut || run_lane(rt, alloc, office, second),
    );
}

// Meets the lane's pass. None of its calls failed.
fn land<R: Abort>(rt: &R, office: &Office, main: &mut Pass, lane: Lane)
    requires own { (main.old.office ≡ office.now) × (lane.pass.office ≡ office.now) }
    ensures same { main.new.office ≡ office.now }
{
    let Lane { pass, failed } = lane;
    office.meet(main, pass);
    assert!(rt; !failed, "no memory");
}

// Whether an entry is the one of this count of a caller's: its start, its hundred files in their order, its end.
fn is_in_order(alloc: Global, noted: &Noted, who: u32, count: u32) -> bool {
    match &noted.entry.call {
        Call::Start(_) => count == 0,
        Call::SmbOpen(open) => is_file(alloc, open.path.path(), who, count.wrapping_sub(1)),
        Call::End => count == 101,
        _ => false,
    }
}

fn is_file(alloc: Global, path: &Path, who: u32, file: u32) -> bool {
    let Some(wanted) = file_path(alloc, who, file) else {
        return false;
    };
    match (path.name(), wanted.name()) {
        (Some(name), Some(wanted)) => name.kept() == wanted.kept(),
        _ => false,
    }
}

// How many entries a caller has, if they are in order and none is refused.
fn ordered(alloc: Global, entries: &[Noted], who: u32) -> Option<u32> {
    let mut count = 0u32;
    for noted in entries.iter() {
        if noted.entry.who == who {
            if noted.refused || !is_in_order(alloc, noted, who, count) {
                return None;
            }
            count = count.wrapping_add(1);
        }
    }
    Some(count)
}

fn check_book(rt: &impl Abort, alloc: Global, book: Book) {
    assert_eq!(rt; book.entries().len(), 205);
    assert_eq!(rt; ordered(alloc, book.entries(), 1), Some(102));
    assert_eq!(rt; ordered(alloc, book.entries(), 2), Some(102));
}

#[test]
fn two_threads_make_a_hundred_files_each(rt: HostRuntime) {
    let alloc = rt.alloc();
    let (office, mut main) = begun(&rt, alloc, 1_000_000);
    created(&rt, alloc, &office, &mut main);
    let mut first = new_lane(&rt, &office, &mut main);
    let mut second = new_lane(&rt, &office, &mut main);
    run_lanes(&rt, alloc, &office, &mut first, &mut second);
    land(&rt, &office, &mut main, first);
    land(&rt, &office, &mut main, second);
    check_book(&rt, alloc, closed(&rt, office, main));
}
