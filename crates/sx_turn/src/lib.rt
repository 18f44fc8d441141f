//! One value that many threads take in turns, and one history of what they did to it.
//!
//! A [`Turn`] has one value, which stands for a list of entries (the trait [`Booked`]). A [`Seat`] is a caller's
//! right to take it: `take` waits for the seat's turn, `give` hands the value back with at most one entry more.
//! So there is one list for all threads. Each seat has seen a beginning of it, and knows the places of its own
//! entries there. What it finds at a `take` begins with what it has seen, what two seats that `join` have seen are
//! beginnings of one list, and the last seat closes the turn and has the value. Beside the list the value may have
//! a number that no turn changes, which each seat knows.
//!
//! The lock is a ticket lock: each call that waits draws a ticket, and its turn comes when the ticket is served.
//! Until then it sleeps, and the call whose turn ends wakes the next one. That a turn comes is not promised.
#![tactic(auto)]

mod bells;
mod plain;
mod plays;
mod rule;
mod seat;
mod steps;
mod turn;

pub use plain::rule_in_words;
pub use rule::Booked;
pub use seat::{Held, MAX_SEATS, Seat};
pub use sx_memory::NoMemory;
pub use turn::{CloseFault, SeatFault, Turn};
