//! Moments that a clock tells.
ghost use Rattle.std.specs.Prelude.{◌≡◌};
ghost use Rattle.sx_moment.specs.Moments.{IsClockMoment};

use crate::moment::Moment;
use std::marker::Model;

/// A moment that a clock tells: at most 2,500,000,000,000,000,000 ticks. Contracts see the number of ticks.
#[derive(Clone, Copy, Debug, PartialEq, Eq)]
pub struct ClockMoment {
    ticks: u64,
}

impl Model for ClockMoment {
    ghost use Rattle.std.specs.Prelude.{ℕ};
    ghost use Rattle.sx_moment.specs.Moments.{IsClockMoment};

    ghost Value = { ℕ };

    ghost view = { λ m. m.ticks };

    ghost invariant = { λ m. IsClockMoment m.ticks };

    ghost inverse = { λ n. record { ticks = n } };
}

impl ClockMoment {
    /// The moment of so many ticks.
    pub fn of(ticks: u64) -> ClockMoment
        requires { IsClockMoment ticks }
        ensures { result ≡ ticks }
    {
        ClockMoment { ticks }
    }

    /// The number of ticks.
    pub fn ticks(self) -> u64
        ensures value { result ≡ self }
        ensures limit { IsClockMoment self }
    {
        self.ticks
    }

    /// The same moment, as one that has a text.
    pub fn moment(self) -> Moment
        ensures { result ≡ self }
    {
        Moment::of(self.ticks)
    }
}
