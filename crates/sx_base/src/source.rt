//! Where bytes come in.
ghost use Rattle.std.specs.Prelude.{◌≡◌, ◌<◌, ℕ, List, length};
ghost use Rattle.std.specs.Io.{ReadsAtMost};
ghost use Rattle.std.specs.Io.KnownBytes.{ReadConsumes};
ghost use Rattle.std.specs.declared.option.Option.{Option};
ghost use Rattle.sx_base.specs.Causes.{HasCause};

use crate::fault::Failed;

/// Bytes that come in.
///
/// A source tells the bytes that it has left where it can, as one in memory does; a socket tells none.
/// It counts its faults: the count never falls, and `Failed` comes only where it rose.
pub trait Source {
    /// The bytes that are left, where the source tells them.
    ghost left: { Self → Option (List ℕ) };

    /// How many reads have failed.
    ghost read_count: { Self → ℕ };

    /// The second value is what calls of `read` alone may make of the first.
    ghost reads: { Self → Self → Type 0 };

    /// Takes some of the bytes that are left to the front of `into`, and gives their number. 0 is the end.
    fn read(&mut self, into: &mut [u8]) -> Result<usize, Failed>
        requires { 0 < length into.old }
        ensures bound { ReadsAtMost result into.new }
        ensures bytes { ReadConsumes (left self.old) (left self.new) result into.new }
        ensures cause { HasCause (read_count self.old) (read_count self.new) result }
        ensures step { reads self.old self.new };

    /// How many reads have failed. The count stops at the greatest number of its type.
    fn read_faults(&self) -> u64
        ensures { result ≡ read_count self.now };

    ghost reads_none: { (a : Self) → reads a a };

    ghost reads_more: { (a b c : Self) → reads a b → reads b c → reads a c };
}
