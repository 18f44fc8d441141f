//! A sink over a writer of std, as standard output.
ghost use Rattle.std.specs.Prelude.{◌≡◌, ◌≤◌, [], ⊤, take, length, OnOk, OnErr, IfOk};
ghost use Rattle.sx_base.specs.Output.{holds};
ghost use Rattle.sx_base.specs.Sink.{Writes, WritesPrefix};

use crate::fault::Failed;
use crate::sink::Sink;
use std::io::{ErrorKind, Write};

/// A sink over any writer of std, as standard output. It tells what std tells of the writer: of standard output
/// nothing, of a vector the bytes that it holds.
#[derive(Drop)]
pub struct Output<W: Write + Drop> {
    writer: W,
    faults: u64,
}

impl<W: Write + Drop> Output<W> {
    /// A sink without a fault over this writer.
    pub fn new(writer: W) -> Output<W>
        ensures faults { ⟦<Output<W> as Sink>⟧.write_count result ≡ 0 }
    {
        Output { writer, faults: 0 }
    }
}

impl<W: Write + Drop> Sink for Output<W> {
    ghost use Rattle.sx_base.specs.Output.{holds};

    ghost wrote = { λ s bytes. holds W.contents s.writer bytes };

    ghost write_count = { λ s. s.faults };

    ghost puts = { λ _ _. ⊤ };

    fn put(&mut self, bytes: &[u8]) -> Result<(), Failed> {
        match write_all(&mut self.writer, bytes) {
            Ok(()) => Ok(()),
            Err(Failed) => {
                self.faults = self.faults.saturating_add(1);
                Err(Failed)
            }
        }
    }

    fn write_faults(&self) -> u64 {
        self.faults
    }

    ghost puts_none = { λ _. tt };

    ghost puts_more = { λ _ _ _ _ _. tt };
}

/// Writes all of the bytes, or a front of them where a write fails or takes none.
///
/// std's own `write_all` doesn't say which bytes were written where it fails.
fn write_all<W: Write>(writer: &mut W, bytes: &[u8]) -> Result<(), Failed>
    ensures ok { OnOk result (Writes (holds W.contents) writer.old writer.new bytes.now) }
    ensures err { OnErr result (WritesPrefix (holds W.contents) writer.old writer.new bytes.now) }
{
    let mut rest = bytes;
    for _ in 0..u64::MAX {
        if rest.is_empty() {
            return Ok(());
        }
        match write_some(writer, rest) {
            Ok(count) => rest = &rest[count..],
            Err(failed) => return Err(failed),
        }
    }
    Err(Failed)
}

/// Writes once, and gives how many bytes were taken: 0 where the write was interrupted.
fn write_some<W: Write>(writer: &mut W, bytes: &[u8]) -> Result<usize, Failed>
    ensures bound { IfOk result (λ count. count ≤ length bytes.now) }
    ensures ok { IfOk result (λ count. Writes (holds W.contents) writer.old writer.new (take count bytes.now)) }
    ensures err { OnErr result (Writes (holds W.contents) writer.old writer.new []) }
{
    match writer.write(bytes) {
        Ok(0) => Err(Failed),
        Ok(count) => Ok(count),
        Err(fault) => {
            if fault.kind() == ErrorKind::Interrupted {
                Ok(0)
            } else {
                Err(Failed)
            }
        }
    }
}
