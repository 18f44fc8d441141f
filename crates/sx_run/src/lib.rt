//! The service over sockets: the words of its command, its workers, and all that it does.
#![tactic(auto)]

mod crew;
mod report;
mod service;
mod words;
mod worker;
mod working;

pub use crew::{CrewReport, Door, Unhired, Worker, dismiss, hire_all};
pub use report::{WorkEnd, WorkReport};
pub use service::{Unserved, serve};
pub use words::{ServeWords, WordsFault, serve_words};
pub use worker::{LINK_BUDGET, rest_worker, smb_worker};
pub use working::work;
