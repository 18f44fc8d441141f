//! The book, which is the history with the account that it leaves; and the office, through which many callers ask one
//! book.
#![tactic(auto)]

mod append;
mod apply;
mod book;
mod laws;
mod office;
mod pass;
mod report;
mod tail;

pub use book::Book;
pub use laws::{calls_come, histories_grow};
pub use office::Office;
pub use pass::{Pass, Receipt, Session};
pub use report::{ConnEnd, ConnReport, Full, Tally};
pub use sx_call::Stop;
pub use sx_memory::NoMemory;
pub use sx_state::State;
pub use sx_turn::{CloseFault, SeatFault};
