//! The answers of a session's lines, read back: what a client of sessions is told.
#![tactic(auto)]

mod answer;
mod attributes;
mod bytes;
mod entries;
mod joined;
mod kind;
mod laws;
mod messages;
mod names;
mod numbers;
mod reading;
mod reason;
mod subject;
mod told;
mod words;

pub use answer::{Answer, Entry, Told, Unread};
pub use laws::printed_answers_are_told;
pub use reading::read_line;
pub use reason::Reason;
pub use sx_base::{Items, NoMemory};
