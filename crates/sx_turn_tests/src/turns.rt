//! What no clause says: that calls come to an end and have memory, on one thread and on several, and that the
//! answers are the same whatever the schedule.
ghost use Rattle.std.specs.Prelude.{◌≡◌, ◌<◌, ◌++◌, ◌∷◌, [], None, All, MatchResult, length};

use std::alloc::{AllocError, Global};
use std::process::Abort;
use std::sync::Wait;
use std::thread::{Threads, for_each_mut, sleep};
use std::time::{Clock, Duration};
use sx_turn::{Booked, CloseFault, Seat, SeatFault, Turn, rule_in_words};

// One line of a log, and who wrote it.
#[derive(Clone, Copy, Debug, Drop)]
struct Line {
    who: u32,
    what: u64,
}

#[derive(Drop)]
struct Log {
    lines: Vec<Line>,
}

impl Booked for Log {
    type Entry = Line;

    ghost stands = { λ l. l.lines.items };

    ghost who = { λ e. e.who };

    ghost lasting = { λ _. 0 };
}

impl Log {
    fn write(&mut self, line: Line) -> Result<(), AllocError>
        ensures { MatchResult result
            (λ _. self.new.lines.items ≡ self.old.lines.items ++ line ∷ [])
            (λ _. self.new.lines.items ≡ self.old.lines.items) }
    {
        self.lines.push(line)?;
        Ok(())
    }

    // How many lines are by this writer, if they are numbered 0, 1, 2 and so on.
    fn numbered_lines(&self, who: u32) -> Option<u64> {
        let mut count = 0u64;
        for line in self.lines.iter() {
            if line.who == who {
                if line.what != count {
                    return None;
                }
                count = count.wrapping_add(1);
            }
        }
        Some(count)
    }
}

fn begun(rt: &impl Abort, alloc: Global) -> (Turn<Log>, Seat<Log>)
    ensures { (result.1.turn ≡ result.0) × (result.1.taken ≡ None) }
{
    let log = Log {
        lines: Vec::new(alloc),
    };
    match Turn::begin(alloc, log) {
        Ok(made) => made,
        Err(_) => panic!(rt; "no memory"),
    }
}

fn enrolled<R: Abort + Wait>(rt: &R, turn: &Turn<Log>, seat: &mut Seat<Log>) -> Seat<Log>
    requires own { (seat.old.turn ≡ turn.now) × (seat.old.taken ≡ None) }
    ensures same { (seat.new.turn ≡ turn.now) × (seat.new.taken ≡ None) }
    ensures new { (result.turn ≡ turn.now) × (result.taken ≡ None) }
{
    match turn.enrol(rt, seat) {
        Ok(new) => new,
        Err(fault) => panic!(rt; "{fault:?}"),
    }
}

fn closed<R: Abort + Wait>(rt: &R, turn: Turn<Log>, seat: Seat<Log>) -> Log
    requires { (seat.turn ≡ turn) × (seat.taken ≡ None) }
{
    match turn.close(rt, seat) {
        Ok(log) => log,
        Err(fault) => panic!(rt; "{} out", fault.abandon()),
    }
}

// Writes a line by the seat's number. Answers whether there was memory.
fn write<R: Wait>(rt: &R, turn: &Turn<Log>, seat: &mut Seat<Log>, what: u64) -> bool
    requires own { (seat.old.turn ≡ turn.now) × (seat.old.taken ≡ None) }
    ensures same { (seat.new.turn ≡ turn.now) × (seat.new.taken ≡ None) }
{
    let who = seat.number();
    let mut held = turn.take(rt, seat);
    let written = held.value_mut().write(Line { who, what }).is_ok();
    turn.give(seat, held);
    written
}

// Writes a line, and keeps the value so long that all others come to wait.
fn write_slowly<R: Wait + Clock>(rt: &R, turn: &Turn<Log>, seat: &mut Seat<Log>, what: u64) -> bool
    requires own { (seat.old.turn ≡ turn.now) × (seat.old.taken ≡ None) }
    ensures same { (seat.new.turn ≡ turn.now) × (seat.new.taken ≡ None) }
{
    let who = seat.number();
    let mut held = turn.take(rt, seat);
    sleep(rt, Duration::from_millis(5));
    let written = held.value_mut().write(Line { who, what }).is_ok();
    turn.give(seat, held);
    written
}

// A thread's seat, and how many lines it is to write.
struct Lane {
    seat: Seat<Log>,
    count: u64,
    no_memory: bool,
}

fn new_lane<R: Abort + Wait>(rt: &R, turn: &Turn<Log>, seat: &mut Seat<Log>, count: u64) -> Lane
    requires own { (seat.old.turn ≡ turn.now) × (seat.old.taken ≡ None) }
    ensures same { (seat.new.turn ≡ turn.now) × (seat.new.taken ≡ None) }
    ensures new { (result.seat.turn ≡ turn.now) × (result.seat.taken ≡ None) }
{
    Lane {
        seat: enrolled(rt, turn, seat),
        count,
        no_memory: false,
    }
}

// Writes the lane's lines.
fn run_lane<R: Wait>(rt: &R, turn: &Turn<Log>, lane: &mut Lane)
    requires own { (lane.old.seat.turn ≡ turn.now) × (lane.old.seat.taken ≡ None) }
    ensures same { (lane.new.seat.turn ≡ turn.now) × (lane.new.seat.taken ≡ None) }
{
    for what in 0..lane.count {
        if !write(rt, turn, &mut lane.seat, what) {
            lane.no_memory = true;
        }
    }
}

// Writes the lane's lines, each slowly.
fn run_lane_slowly<R: Wait + Clock>(rt: &R, turn: &Turn<Log>, lane: &mut Lane)
    requires own { (lane.old.seat.turn ≡ turn.now) × (lane.old.seat.taken ≡ None) }
    ensures same { (lane.new.seat.turn ≡ turn.now) × (lane.new.seat.taken ≡ None) }
{
    for what in 0..lane.count {
        if !write_slowly(rt, turn, &mut lane.seat, what) {
            lane.no_memory = true;
        }
    }
}

// Writes the lane's lines, and as many by a seat of their own, which then joins the lane's.
fn run_lane_with_child<R: Wait>(rt: &R, turn: &Turn<Log>, lane: &mut Lane)
    requires own { (lane.old.seat.turn ≡ turn.now) × (lane.old.seat.taken ≡ None) }
    ensures same { (lane.new.seat.turn ≡ turn.now) × (lane.new.seat.taken ≡ None) }
{
    let Ok(seat) = turn.enrol(rt, &mut lane.seat) else {
        lane.no_memory = true;
        return;
    };
    let mut child = Lane {
        seat,
        count: lane.count,
        no_memory: false,
    };
    run_lane(rt, turn, &mut child);
    run_lane(rt, turn, lane);
    let Lane {
        seat,
        count: _,
        no_memory,
    } = child;
    turn.join(&mut lane.seat, seat);
    if no_memory {
        lane.no_memory = true;
    }
}

// Runs each lane in a thread of its own.
fn run_lanes<R: Threads + Wait + Sync>(rt: &R, turn: &Turn<Log>, lanes: &mut [Lane])
    requires own { All (λ l. (l.seat.turn ≡ turn.now) × (l.seat.taken ≡ None)) lanes.old }
    requires some { 0 < length lanes.old }
    ensures same { All (λ l. (l.seat.turn ≡ turn.now) × (l.seat.taken ≡ None)) lanes.new }
    ensures count { length lanes.new ≡ length lanes.old }
{
    let threads = lanes.len();
    for_each_mut(rt, lanes, threads, &|_, lane| run_lane(rt, turn, lane));
}

fn run_lanes_slowly<R: Threads + Wait + Clock + Sync>(rt: &R, turn: &Turn<Log>, lanes: &mut [Lane])
    requires own { All (λ l. (l.seat.turn ≡ turn.now) × (l.seat.taken ≡ None)) lanes.old }
    requires some { 0 < length lanes.old }
    ensures same { All (λ l. (l.seat.turn ≡ turn.now) × (l.seat.taken ≡ None)) lanes.new }
    ensures count { length lanes.new ≡ length lanes.old }
{
    let threads = lanes.len();
    for_each_mut(
        rt,
        lanes,
        threads,
        &|_, lane| run_lane_slowly(rt, turn, lane),
    );
}

fn run_lanes_with_children<R: Threads + Wait + Sync>(rt: &R, turn: &Turn<Log>, lanes: &mut [Lane])
    requires own { All (λ l. (l.seat.turn ≡ turn.now) × (l.seat.taken ≡ None)) lanes.old }
    requires some { 0 < length lanes.old }
    ensures same { All (λ l. (l.seat.turn ≡ turn.now) × (l.seat.taken ≡ None)) lanes.new }
    ensures count { length lanes.new ≡ length lanes.old }
{
    let threads = lanes.len();
    for_each_mut(
        rt,
        lanes,
        threads,
        &|_, lane| run_lane_with_child(rt, turn, lane),
    );
}

// Joins the lane's seat. It had memory for its lines.
fn land<R: Abort>(rt: &R, turn: &Turn<Log>, main: &mut Seat<Log>, lane: Lane)
    requires own { (main.old.turn ≡ turn.now) × (main.old.taken ≡ None) × (lane.seat.turn ≡ turn.now)
        × (lane.seat.taken ≡ None) }
    ensures same { (main.new.turn ≡ turn.now) × (main.new.taken ≡ None) }
{
    let Lane {
        seat,
        count: _,
        no_memory,
    } = lane;
    turn.join(main, seat);
    assert!(rt; !no_memory, "no memory");
}

#[test]
fn two_threads_write_one_log(rt: HostRuntime) {
    let (turn, mut main) = begun(&rt, rt.alloc());
    let mut lanes = [
        new_lane(&rt, &turn, &mut main, 1000),
        new_lane(&rt, &turn, &mut main, 1000),
    ];
    run_lanes(&rt, &turn, &mut lanes);
    let [first, second] = lanes;
    land(&rt, &turn, &mut main, first);
    land(&rt, &turn, &mut main, second);
    let log = closed(&rt, turn, main);
    assert_eq!(rt; log.lines.len(), 2000);
    assert_eq!(rt; log.numbered_lines(1), Some(1000));
    assert_eq!(rt; log.numbered_lines(2), Some(1000));
}

// Three of four threads sleep at any time, so the test would not end if a turn that ends woke nobody.
#[test]
fn threads_that_wait_are_woken(rt: HostRuntime) {
    let (turn, mut main) = begun(&rt, rt.alloc());
    let mut lanes = [
        new_lane(&rt, &turn, &mut main, 10),
        new_lane(&rt, &turn, &mut main, 10),
        new_lane(&rt, &turn, &mut main, 10),
        new_lane(&rt, &turn, &mut main, 10),
    ];
    run_lanes_slowly(&rt, &turn, &mut lanes);
    let [first, second, third, fourth] = lanes;
    land(&rt, &turn, &mut main, first);
    land(&rt, &turn, &mut main, second);
    land(&rt, &turn, &mut main, third);
    land(&rt, &turn, &mut main, fourth);
    let log = closed(&rt, turn, main);
    assert_eq!(rt; log.lines.len(), 40);
    for who in 1..5 {
        assert_eq!(rt; log.numbered_lines(who), Some(10));
    }
}

#[test]
fn four_threads_enrol_write_and_join(rt: HostRuntime) {
    let (turn, mut main) = begun(&rt, rt.alloc());
    let mut lanes = [
        new_lane(&rt, &turn, &mut main, 250),
        new_lane(&rt, &turn, &mut main, 250),
        new_lane(&rt, &turn, &mut main, 250),
        new_lane(&rt, &turn, &mut main, 250),
    ];
    run_lanes_with_children(&rt, &turn, &mut lanes);
    let [first, second, third, fourth] = lanes;
    land(&rt, &turn, &mut main, first);
    land(&rt, &turn, &mut main, second);
    land(&rt, &turn, &mut main, third);
    land(&rt, &turn, &mut main, fourth);
    let log = closed(&rt, turn, main);
    assert_eq!(rt; log.lines.len(), 2000);
    for who in 1..9 {
        assert_eq!(rt; log.numbered_lines(who), Some(250));
    }
}

#[test]
fn numbers_end_at_63(rt: HostRuntime) {
    let (turn, mut main) = begun(&rt, rt.alloc());
    assert_eq!(rt; main.number(), 0);
    for number in 1..64 {
        let seat = enrolled(&rt, &turn, &mut main);
        assert_eq!(rt; seat.number(), number);
        turn.join(&mut main, seat);
    }
    match turn.enrol(&rt, &mut main) {
        Ok(seat) => {
            turn.join(&mut main, seat);
            panic!(rt; "a number too many");
        }
        Err(fault) => assert_eq!(rt; fault, SeatFault::NoSeat(64)),
    }
    assert!(rt; closed(&rt, turn, main).lines.is_empty());
}

#[test]
fn a_turn_closes_once_all_seats_have_joined(rt: HostRuntime) {
    let (turn, mut main) = begun(&rt, rt.alloc());
    let mut seat = enrolled(&rt, &turn, &mut main);
    assert!(rt; write(&rt, &turn, &mut seat, 0));
    let held = turn.take(&rt, &mut main);
    assert_eq!(rt; held.value().lines.len(), 1);
    turn.give(&mut main, held);
    match turn.close(&rt, main) {
        Ok(_) => panic!(rt; "a seat is out"),
        Err(CloseFault { whole, token, out }) => {
            assert_eq!(rt; out, 1);
            let mut main = token;
            whole.join(&mut main, seat);
            assert_eq!(rt; closed(&rt, whole, main).numbered_lines(1), Some(1));
        }
    }
}

#[test]
fn a_turn_that_stays_open_can_be_abandoned(rt: HostRuntime) {
    rule_in_words::<Log>();
    let (turn, mut main) = begun(&rt, rt.alloc());
    let first = enrolled(&rt, &turn, &mut main);
    let second = enrolled(&rt, &turn, &mut main);
    match turn.close(&rt, main) {
        Ok(_) => panic!(rt; "two seats are out"),
        Err(
            CloseFault {
                whole,
                mut token,
                out,
            },
        ) => {
            whole.join(&mut token, second);
            whole.join(&mut token, first);
            let fault = CloseFault { whole, token, out };
            assert_eq!(rt; fault.abandon(), 2);
        }
    }
}
