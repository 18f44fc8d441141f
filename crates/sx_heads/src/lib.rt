//! Calls spelled as requests: one request for each call of REST, which is read as that call.
#![tactic(auto)]

mod directory_heads;
pub mod escapes;
mod fields;
mod file_heads;
mod heads;
mod laws;
mod list_heads;
mod property_heads;
mod share_heads;
mod targets;
mod values;

pub use heads::head_of;
pub use laws::calls_are_read_back;
