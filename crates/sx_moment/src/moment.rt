//! Moments that have a text.
ghost use Rattle.std.specs.Prelude.{◌≡◌};
ghost use Rattle.sx_moment.specs.Moments.{IsShownMoment};

use std::marker::Model;

/// A moment that has a text, so that it can be shown: at most 2,500,000,004,294,967,295 ticks, which is
/// 9892-03-08T12:33:49.4967295Z. Contracts see the number of ticks.
#[derive(Clone, Copy, Debug, PartialEq, Eq)]
pub struct Moment {
    ticks: u64,
}

impl Model for Moment {
    ghost use Rattle.std.specs.Prelude.{ℕ};
    ghost use Rattle.sx_moment.specs.Moments.{IsShownMoment};

    ghost Value = { ℕ };

    ghost view = { λ m. m.ticks };

    ghost invariant = { λ m. IsShownMoment m.ticks };

    ghost inverse = { λ n. record { ticks = n } };
}

impl Moment {
    /// The moment of so many ticks.
    pub fn of(ticks: u64) -> Moment
        requires { IsShownMoment ticks }
        ensures { result ≡ ticks }
    {
        Moment { ticks }
    }

    /// The number of ticks.
    pub fn ticks(self) -> u64
        ensures value { result ≡ self }
        ensures limit { IsShownMoment self }
    {
        self.ticks
    }
}
