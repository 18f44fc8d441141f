//! The calls of an object in memory, and which of them are to fail.
ghost use Rattle.std.specs.Prelude.{◌≡◌, ◌+◌, ◌-◌, ◌≤◌, OnOk, IsErr, is_err, min};
ghost use Rattle.sx_base.specs.Causes.{HasCause};
ghost use Rattle.sx_base.specs.Calls.{is_next_listed, most_calls, FailsAsListed};

use crate::fault::Failed;
use crate::items::Items;
use std::marker::Model;

/// Counts the calls of an object in memory, and tells which of them are to fail.
#[derive(Drop)]
pub struct Calls {
    failing: Items<u64>,
    made: u64,
    faults: u64,
}

impl Model for Calls {
    ghost use Rattle.std.specs.Prelude.{◌≤◌};
    ghost use Rattle.sx_base.specs.Calls.{CallCounts};

    ghost Value = { CallCounts };

    ghost view = { λ c. record { failing = c.failing; made = c.made; faults = c.faults } };

    ghost invariant = { λ c. c.faults ≤ c.made };
}

impl Calls {
    /// No calls yet. Those listed are to fail, counted from 0.
    pub fn new(failing: Vec<u64>) -> Calls
        ensures { result ≡ record { failing = failing.items; made = 0; faults = 0 } }
    {
        Calls {
            failing: Items::of(failing),
            made: 0,
            faults: 0,
        }
    }

    /// Makes the next call. It fails where it is listed, and that is counted.
    pub fn next(&mut self) -> Result<(), Failed>
        ensures made { self.new.made ≡ min (self.old.made + 1) most_calls }
        ensures fails { is_err result ≡ is_next_listed self.old }
        ensures step { FailsAsListed self.old self.new }
        ensures cause { HasCause self.old.faults self.new.faults result }
        ensures room { OnOk result (min (self.new.faults + 1) most_calls ≤ self.new.made) }
    {
        let call = self.made;
        if call == u64::MAX {
            return Ok(());
        }
        self.made = call + 1;
        if self.failing.as_slice().contains(&call) {
            self.faults += 1;
            return Err(Failed);
        }
        Ok(())
    }

    /// How many calls have failed.
    pub fn faults(&self) -> u64
        ensures { result ≡ self.now.faults }
    {
        self.faults
    }

    /// Counts a fault of the last call, where it wasn't listed.
    pub fn fail<T>(&mut self) -> Result<T, Failed>
        requires { min (self.old.faults + 1) most_calls ≤ self.old.made }
        ensures failing { self.new.failing ≡ self.old.failing }
        ensures made { self.new.made ≡ self.old.made }
        ensures cause { HasCause self.old.faults self.new.faults result }
        ensures failed { IsErr result }
    {
        self.faults = self.faults.saturating_add(1);
        Err(Failed)
    }
}
