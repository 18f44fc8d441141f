//! Answers to requests, printed: a head and a body, without memory.
#![tactic(auto)]

mod answer;
mod attributes;
mod escapes;
mod faults;
mod field;
mod fields;
mod frame;
mod gather;
mod laws;
mod pages;
mod printing;
mod refusals;
mod reply;
mod times;
mod values;
mod view;

pub use answer::{Answer, AuthText, Said, Shape, WireText};
pub use faults::put_auth;
pub use gather::{Gathered, gather_bytes, put_gathered};
pub use laws::heads_state_lengths;
pub use printing::{is_printed, print};
pub use refusals::{code_of, has_code, put_message, status_of, word_of};
