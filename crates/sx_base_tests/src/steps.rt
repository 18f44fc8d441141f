//! The moments and the words that come one after another.
use std::process::Abort;
use sx_base::{Clock, GREATEST_MOMENT, Random, StepClock, StepWords};

fn row(rt: &impl Abort, at: u64, step: u64, moments: [u64; 3]) {
    let mut clock = StepClock { at, step };
    let mut forked = clock.fork();
    assert_eq!(rt; [clock.now(), clock.now(), clock.now()], moments);
    assert_eq!(rt; forked.now(), moments[0]);
}

/// The start of a clock in memory, its step, and the greatest moment, at which it stops.
#[test]
fn moments_of_a_clock_in_memory(rt: HostRuntime) {
    let last = GREATEST_MOMENT;
    row(&rt, 5, 0, [5, 5, 5]);
    row(&rt, 0, 10, [0, 10, 20]);
    row(&rt, last - 1, 1, [last - 1, last, last]);
    row(&rt, u64::MAX, u64::MAX, [last, last, last]);
}

/// Words across the greatest one, of a source and of a fork of it.
#[test]
fn words_go_on_with_0(rt: HostRuntime) {
    let mut words = StepWords { at: u64::MAX - 1 };
    assert_eq!(rt; words.word(), u64::MAX - 1);
    let mut forked = words.fork();
    assert_eq!(rt;
        [words.word(), words.word(), words.word()],
        [u64::MAX, 0, 1]
    );
    assert_eq!(rt; [forked.word(), forked.word()], [u64::MAX, 0]);
}
