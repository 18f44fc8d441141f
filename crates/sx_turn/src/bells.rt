//! Where callers sleep until their tickets are served. A bell tells nothing but that it is time to look: what holds
//! of the turn is in the table alone.
use crate::seat::MAX_SEATS;
use std::array;
use std::sync::Wait;
use std::sync::atomic::{AtomicU64, Ordering};

// A bell for each ticket that may wait at once, each of which counts how often it was rung. A seat has one ticket at
// most, and a seat that draws a number waits while the one that asked for it doesn't: so no two tickets that wait
// have one bell.
#[derive(Drop)]
pub(crate) struct Bells {
    rings: [AtomicU64; MAX_SEATS as usize],
}

impl Bells {
    pub(crate) fn new() -> Bells {
        Bells {
            rings: array::from_fn(|_| AtomicU64::new(0)),
        }
    }

    fn of(&self, ticket: u64) -> &AtomicU64 {
        &self.rings[(ticket % MAX_SEATS) as usize]
    }

    // How often the ticket's bell was rung, by its low half. A caller asks this first, then looks whether its ticket
    // is served, and then sleeps with the answer.
    pub(crate) fn listen(&self, ticket: u64) -> u32 {
        (self.of(ticket).load(Ordering::SeqCst) & 0xffff_ffff) as u32
    }

    // Sleeps until the ticket's bell is rung, if it wasn't since `heard`. It may also return for no reason.
    pub(crate) fn sleep<R: Wait>(&self, rt: &R, ticket: u64, heard: u32) {
        self.of(ticket).park(rt, heard);
    }

    // Wakes the caller who has the ticket.
    pub(crate) fn ring(&self, ticket: u64) {
        let bell = self.of(ticket);
        bell.fetch_add(1, Ordering::SeqCst);
        bell.wake_all();
    }
}
