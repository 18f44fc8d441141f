//! The commands over one request's head: its signed text, and its check.
#![tactic(auto)]

mod found;
mod gathered;
mod output;
mod tool;
mod words;

pub use gathered::PIECE_LIMIT;
pub use tool::{check_input, run_tool, sign_input};
pub use words::{Tool, number_of, tool_of};
