//! Moments of whole seconds, as header dates show them.
ghost use Rattle.std.specs.Prelude.{◌≡◌};
ghost use Rattle.sx_moment.specs.Moments.{IsSecond, second_of};

use crate::moment::Moment;
use std::marker::Model;

/// How many ticks a second has.
pub const TICKS_OF_A_SECOND: u64 = 10_000_000;

/// A moment of whole seconds, as a header date shows it. Contracts see the number of ticks.
#[derive(Clone, Copy, Debug, PartialEq, Eq)]
pub struct Second {
    ticks: u64,
}

impl Model for Second {
    ghost use Rattle.std.specs.Prelude.{ℕ};
    ghost use Rattle.sx_moment.specs.Moments.{IsSecond};

    ghost Value = { ℕ };

    ghost view = { λ s. s.ticks };

    ghost invariant = { λ s. IsSecond s.ticks };

    ghost inverse = { λ n. record { ticks = n } };
}

impl Second {
    /// The second of so many ticks.
    pub fn of(ticks: u64) -> Second
        requires { IsSecond ticks }
        ensures { result ≡ ticks }
    {
        Second { ticks }
    }

    /// The second in which a moment lies.
    pub fn in_which(moment: Moment) -> Second
        ensures { result ≡ second_of moment }
    {
        let ticks = moment.ticks();
        Second {
            ticks: ticks / TICKS_OF_A_SECOND * TICKS_OF_A_SECOND,
        }
    }

    /// The number of ticks.
    pub fn ticks(self) -> u64
        ensures value { result ≡ self }
        ensures limits { IsSecond self }
    {
        self.ticks
    }

    /// The same moment, of which it isn't told that it is of whole seconds.
    pub fn moment(self) -> Moment
        ensures { result ≡ self }
    {
        Moment::of(self.ticks)
    }
}
