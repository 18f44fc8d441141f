//! Entries of the history.

use crate::calls::Call;
use sx_moment::ClockMoment;

/// One place of the history: who called, when, and what.
#[derive(Debug, Drop)]
pub struct Entry {
    /// The number of the caller.
    pub who: u32,
    /// The number of the session, from 1, and 0 for a REST call and the start of a session.
    pub session: u32,
    /// The entry's moment.
    pub at: ClockMoment,
    /// The number drawn at random for it, and 0 where none is wanted.
    pub fresh: u128,
    /// The call.
    pub call: Call,
}

/// An entry as the history keeps it.
#[derive(Debug, Drop)]
pub struct Noted {
    /// The entry.
    pub entry: Entry,
    /// Whether the call was refused.
    pub refused: bool,
}
