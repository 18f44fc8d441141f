//! Clocks, and a clock that tells moments step by step.
ghost use Rattle.std.specs.Prelude.{◌≡◌, ◌+◌, ◌≤◌, min, ℕ};
ghost use Rattle.sx_base.specs.Clock.{greatest_moment};

/// The greatest moment that a clock tells, in ticks of 100 ns since 1970-01-01T00:00:00Z.
pub const GREATEST_MOMENT: u64 = 2_500_000_000_000_000_000;

/// A clock, which tells moments in ticks of 100 ns since 1970-01-01T00:00:00Z. It can't fail.
pub trait Clock: Sized + Send + Drop {
    /// One step: the clock before it, the moment that it told, the clock after it. The system's clock allows every
    /// step.
    ghost ticks: { Self → ℕ → Self → Type 0 };

    /// The present moment.
    fn now(&mut self) -> u64
        ensures step { ticks self.old result self.new }
        ensures bound { result ≤ greatest_moment };

    /// A clock of its own, for another thread. The clock that is forked stays as it is.
    fn fork(&mut self) -> Self
        ensures { self.new ≡ self.old };
}

/// A clock that tells `at`, `at + step` and so on, and stops at the greatest moment.
#[derive(Clone, Copy, Debug, PartialEq, Eq)]
pub struct StepClock {
    /// The next moment, in ticks of 100 ns since 1970-01-01T00:00:00Z.
    pub at: u64,
    /// How many ticks lie between one moment and the next.
    pub step: u64,
}

impl Clock for StepClock {
    ghost ticks = { λ old told new. (told ≡ min old.at greatest_moment)
        × (new.at ≡ min (told + old.step) greatest_moment) × (new.step ≡ old.step) };

    fn now(&mut self) -> u64 {
        let told = self.at.min(GREATEST_MOMENT);
        self.at = told.saturating_add(self.step).min(GREATEST_MOMENT);
        told
    }

    fn fork(&mut self) -> Self
        ensures old { self.new ≡ self.old }
        ensures same { result ≡ self.old }
    {
        *self
    }
}
