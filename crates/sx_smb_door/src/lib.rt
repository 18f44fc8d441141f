//! A session's lines, read one after another and answered.
#![tactic(auto)]

mod lines;
mod session;

pub use lines::{LineReader, NextLine};
pub use session::serve_session;
pub use sx_memory::NoMemory;
