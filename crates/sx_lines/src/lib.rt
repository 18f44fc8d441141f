//! The lines of sessions: the calls that they spell, and the printed answers.
#![tactic(auto)]

mod answer;
mod attributes;
mod calls;
mod fields;
mod gather;
mod letters;
mod line;
mod middle;
mod names;
mod numbers;
mod opens;
mod reading;
mod smb_answer;
mod spelled;
mod unread;
mod verb;
mod view;
mod words;

pub use answer::{LineAnswer, print_line};
pub use line::{LINE_LIMIT, Line, LineFault};
pub use reading::call_of_line;
pub use spelled::line_of_call;
pub use sx_memory::NoMemory;
