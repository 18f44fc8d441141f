//! The clock and the random source of the system.
ghost use Rattle.std.specs.Prelude.{◌≡◌, ◌/◌, min, ⊤};
ghost use Rattle.sx_base.specs.Clock.{greatest_moment};

use crate::clock::{Clock, GREATEST_MOMENT};
use crate::random::Random;
use std::random::RandomSource;
use std::time::SystemTime;

/// The system's clock, which tells any moment.
///
/// Where the system can't be asked, or tells a moment before 1970, it tells the moment that it told last.
#[derive(Drop)]
pub struct SystemClock<R: std::rt::Clock + Send + Drop + Copy> {
    rt: R,
    last: u64,
}

impl<R: std::rt::Clock + Send + Drop + Copy> SystemClock<R> {
    /// The clock of this system.
    pub fn new(rt: R) -> SystemClock<R> {
        SystemClock { rt, last: 0 }
    }
}

impl<R: std::rt::Clock + Send + Drop + Copy> Clock for SystemClock<R> {
    ghost ticks = { λ _ _ _. ⊤ };

    fn now(&mut self) -> u64 {
        if let Ok(time) = SystemTime::now(&self.rt) {
            if let Ok(since) = time.duration_since(SystemTime::UNIX_EPOCH) {
                self.last = ticks_of(since.as_nanos());
            }
        }
        self.last = self.last.min(GREATEST_MOMENT);
        self.last
    }

    fn fork(&mut self) -> Self {
        SystemClock {
            rt: self.rt,
            last: self.last,
        }
    }
}

/// The ticks of 100 ns in so many nanoseconds, or the greatest moment where it comes before them.
fn ticks_of(nanoseconds: u128) -> u64
    ensures { result ≡ min (nanoseconds / 100) greatest_moment }
{
    let ticks = nanoseconds / 100;
    if ticks < GREATEST_MOMENT as u128 {
        ticks as u64
    } else {
        GREATEST_MOMENT
    }
}

/// The system's random source, which tells any word.
///
/// Where the system gives no bytes, it tells the word behind the one that it told last.
#[derive(Drop)]
pub struct SystemRandom<R: RandomSource + Send + Drop + Copy> {
    rt: R,
    last: u64,
}

impl<R: RandomSource + Send + Drop + Copy> SystemRandom<R> {
    /// The random source of this system.
    pub fn new(rt: R) -> SystemRandom<R> {
        SystemRandom { rt, last: 0 }
    }
}

impl<R: RandomSource + Send + Drop + Copy> Random for SystemRandom<R> {
    ghost draws = { λ _ _ _. ⊤ };

    fn word(&mut self) -> u64 {
        let mut bytes = [0u8; 8];
        self.last = match self.rt.fill_bytes(&mut bytes) {
            Ok(()) => u64::from_le_bytes(bytes),
            Err(_) => self.last.wrapping_add(1),
        };
        self.last
    }

    fn fork(&mut self) -> Self {
        SystemRandom {
            rt: self.rt,
            last: self.last,
        }
    }
}
