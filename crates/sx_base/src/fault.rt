//! The fault of an object of the outside.

/// An object of the outside failed: its count of faults has risen.
#[derive(Clone, Copy, Debug, PartialEq, Eq)]
pub struct Failed;
