//! What became of a connection or session.
ghost use Rattle.std.specs.Prelude.{◌≡◌};
ghost use Rattle.sx_book.specs.Reports.{tally_with_stop};

use sx_call::Stop;

/// The history's numbers when it had no place for a call.
#[derive(Clone, Copy, Debug, PartialEq, Eq)]
pub struct Full {
    /// How many entries it had.
    pub entries: u64,
    /// How many sessions were live.
    pub sessions: u64,
    /// The most entries and live sessions together.
    pub limit: u64,
}

/// How a connection or session ended.
#[derive(Clone, Copy, Debug, PartialEq, Eq)]
pub enum ConnEnd {
    /// The input ended between requests or lines.
    Ended,
    /// By a request that closes (none), or by a head, length or line outside the limits at that byte of the input.
    Closed {
        /// How many bytes stand before the first byte of what is outside the limits.
        at: Option<u64>,
    },
    /// The input ended inside a request or line, after so many of its bytes.
    Cut {
        /// How many bytes of the request or line were left, 1 or more.
        left: u64,
    },
    /// The bytes taken reached the budget.
    Spent,
    /// A read failed.
    ReadFault,
    /// A write failed.
    WriteFault,
    /// The history was full when the session was to start.
    Full(Full),
    /// Out of memory.
    NoMemory,
}

/// What became of a connection or session.
#[derive(Clone, Copy, Debug, PartialEq, Eq)]
pub struct ConnReport {
    /// How it ended.
    pub end: ConnEnd,
    /// The bytes of its requests or lines, with those of one that was cut.
    pub taken: u64,
    /// How many calls were handed to the office.
    pub asked: u64,
    /// The numbers of the last answer that the history was full.
    pub full: Option<Full>,
    /// Whether a line or call was answered with out of memory.
    pub starved: bool,
}

/// The counts of a connection or session so far.
#[derive(Clone, Copy, Debug, PartialEq, Eq)]
pub struct Tally {
    /// How many calls were handed to the office.
    pub asked: u64,
    /// The numbers of the last answer that the history was full.
    pub full: Option<Full>,
    /// Whether a request, a line or a call was answered with out of memory.
    pub no_memory: bool,
}

impl Tally {
    /// Counts a call that was not appended.
    pub fn note(&mut self, stop: Stop)
        ensures { self.new ≡ tally_with_stop self.old stop }
    {
        match stop {
            Stop::NoMemory => self.no_memory = true,
            Stop::HistoryFull {
                entries,
                sessions,
                limit,
            } => {
                self.full = Some(Full {
                    entries,
                    sessions,
                    limit,
                });
            }
        }
    }
}
