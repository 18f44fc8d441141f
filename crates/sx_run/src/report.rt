//! What became of a worker.

/// Why a worker served no more links.
#[derive(Clone, Copy, Debug, PartialEq, Eq)]
pub enum WorkEnd {
    /// As many links as it may serve were served.
    Enough,
    /// The listener has no further link.
    Drained,
    /// A call of the listener failed.
    ListenFault,
}

/// What became of a worker.
#[derive(Clone, Copy, Debug, PartialEq, Eq)]
pub struct WorkReport {
    /// How many links it served. The count stops at the greatest number of its type.
    pub served: u64,
    /// Whether one of them was told that the history is full.
    pub full: bool,
    /// Whether memory ran out for one of them.
    pub starved: bool,
    /// Why it served no more.
    pub end: WorkEnd,
}
