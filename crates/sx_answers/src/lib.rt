//! What the account answers can be printed: each reply to a session's call by the session's door, and each reply to a
//! REST call by the REST door.
#![tactic(auto)]

mod laws;

pub use laws::{rest_replies_are_printed, session_replies_are_printed};
