//! Times that a call gives a file.

use sx_moment::Moment;

/// A time that Set File Properties gives.
#[derive(Clone, Copy, Debug, PartialEq, Eq)]
pub enum Time {
    /// The time that is kept. Where the call changes the file's length, the last write time is the entry's moment all
    /// the same.
    Keep,
    /// The entry's moment.
    Now,
    /// This moment.
    At(Moment),
}
