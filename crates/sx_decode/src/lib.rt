//! Readers of requests: exactly what each part of a request says, or exactly the first reason why it says nothing.
#![tactic(auto)]

pub mod asked;
pub mod bodies;
pub mod choice;
mod choosing;
pub mod contents;
mod directory_rows;
pub mod escapes;
pub mod facts;
pub mod file_facts;
pub mod file_fields;
mod file_rows;
pub mod forms;
mod handle_rows;
pub mod handles;
mod laws;
pub mod leases;
pub mod lookup;
pub mod markers;
pub mod metadata;
pub mod moments;
pub mod numbers;
pub mod parameters;
mod range_rows;
pub mod ranges;
mod refusals;
pub mod share_fields;
mod share_rows;
mod spelling;
pub mod table;
pub mod targets;
pub mod times;
mod unread;
pub mod words;

pub use laws::{requests_are_determined, rows_are_apart, table_is_exact};
pub use spelling::call_of;
pub use unread::Unread;
