//! Views of a file.
ghost use Rattle.std.specs.Prelude.{◌≡◌, ◌+◌, ◌≤◌, length};
ghost use Rattle.sx_extent.specs.Ranges.{most_bytes};
ghost use Rattle.sx_extent.specs.View.{part};
ghost use Rattle.sx_extent.specs.Granules.{IsSized, bytes_from};

use crate::granules::{self, Granules};
use std::marker::Model;

/// The bytes of an interval of a file, as they were when the view was made, whatever is done with the file later.
#[derive(Debug, Drop)]
pub struct View {
    from: u64,
    length: u64,
    granules: Granules,
}

impl Model for View {
    ghost use Rattle.std.specs.Prelude.{List, ℕ};
    ghost use Rattle.sx_extent.specs.Granules.{bytes_from, IsShown};

    ghost Value = { List ℕ };

    ghost view = { λ v. bytes_from v.granules.entries v.from v.length };

    ghost invariant = { λ v. IsShown v.from v.length v.granules.entries };
}

impl View {
    /// The `length` bytes from `from` on of the file that these granules are of.
    pub(crate) fn new(granules: Granules, from: u64, length: u64) -> View
        requires limit { from + length ≤ most_bytes }
        requires sized { IsSized granules.entries }
        ensures { result ≡ bytes_from granules.entries from length }
    {
        View {
            from,
            length,
            granules,
        }
    }

    /// How many bytes the view has.
    pub fn length(&self) -> u64
        ensures bytes { result ≡ length self.now }
        ensures limit { result ≤ most_bytes }
    {
        self.length
    }

    /// Reads as many bytes as `into` has, from place `at` of the view on. It takes no memory and waits for nobody.
    pub fn read_into(&self, at: u64, into: &mut [u8])
        requires { at + length into.old ≤ length self.now }
        ensures { into.new ≡ part self.now at (length into.old) }
    {
        granules::read(&self.granules, self.from + at, into);
    }
}
