//! Moments with their limits in their types, for every crate that keeps, asks for or shows one.
//!
//! A moment is a number of ticks of 100 ns since 1970-01-01T00:00:00Z. The limits of clocks and of moments that have a
//! text are those of `sx_base`.
#![tactic(auto)]

mod clock_moment;
mod moment;
mod second;

pub use clock_moment::ClockMoment;
pub use moment::Moment;
pub use second::{Second, TICKS_OF_A_SECOND};
