//! A connection's requests, read one after another and answered.
#![tactic(auto)]

mod answering;
mod closing;
mod conn;
mod hearing;
mod judging;

pub use conn::serve_conn;
pub use sx_memory::NoMemory;
