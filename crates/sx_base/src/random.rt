//! Sources of random words, and one that counts.
ghost use Rattle.std.specs.Prelude.{◌≡◌, ◌+◌, ◌%◌, ◌^◌, ℕ};

/// A source of random words. It can't fail.
pub trait Random: Sized + Send + Drop {
    /// One step: the source before it, the word that it told, the source after it. The system's source allows every
    /// step.
    ghost draws: { Self → ℕ → Self → Type 0 };

    /// The next word.
    fn word(&mut self) -> u64
        ensures step { draws self.old result self.new };

    /// A source of its own, for another thread. The source that is forked stays as it is.
    fn fork(&mut self) -> Self
        ensures { self.new ≡ self.old };
}

/// A source that tells `at`, `at + 1` and so on, and goes on with 0 behind the greatest word.
#[derive(Clone, Copy, Debug, PartialEq, Eq)]
pub struct StepWords {
    /// The next word.
    pub at: u64,
}

impl Random for StepWords {
    ghost draws = { λ old told new. (told ≡ old.at) × (new.at ≡ (old.at + 1) % 2 ^ 64) };

    fn word(&mut self) -> u64 {
        let told = self.at;
        self.at = told.wrapping_add(1);
        told
    }

    fn fork(&mut self) -> Self
        ensures old { self.new ≡ self.old }
        ensures same { result ≡ self.old }
    {
        *self
    }
}
