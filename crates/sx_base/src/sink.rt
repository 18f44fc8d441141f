//! Where bytes go out.
ghost use Rattle.std.specs.Prelude.{◌≡◌, ℕ, List, OnOk, OnErr};
ghost use Rattle.sx_base.specs.Causes.{HasCause};
ghost use Rattle.sx_base.specs.Sink.{Writes, WritesPrefix};

use crate::fault::Failed;

/// Bytes that go out.
///
/// What a sink tells of the bytes written to it is a relation: exactly those where it keeps them, as one in memory
/// does; any bytes where it keeps none, as a socket; those with a digest where it keeps the digest alone.
///
/// It counts its faults: the count never falls, and `Failed` comes only where it rose.
pub trait Sink {
    /// These bytes may have been written.
    ghost wrote: { Self → List ℕ → Type 0 };

    /// How many puts have failed.
    ghost write_count: { Self → ℕ };

    /// The second value is what calls of `put` alone may make of the first.
    ghost puts: { Self → Self → Type 0 };

    /// Writes all of the bytes, or a prefix of them where it fails.
    fn put(&mut self, bytes: &[u8]) -> Result<(), Failed>
        ensures ok { OnOk result (Writes wrote self.old self.new bytes.now) }
        ensures err { OnErr result (WritesPrefix wrote self.old self.new bytes.now) }
        ensures cause { HasCause (write_count self.old) (write_count self.new) result }
        ensures step { puts self.old self.new };

    /// How many puts have failed. The count stops at the greatest number of its type.
    fn write_faults(&self) -> u64
        ensures { result ≡ write_count self.now };

    ghost puts_none: { (a : Self) → puts a a };

    ghost puts_more: { (a b c : Self) → puts a b → puts b c → puts a c };
}
