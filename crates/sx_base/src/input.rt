//! A source over a reader of std, as standard input.
ghost use Rattle.std.specs.Prelude.{◌≡◌, ⊤};

use crate::fault::Failed;
use crate::source::Source;
use std::io::Read;

/// A source over any reader of std, as standard input. It tells what std tells of the reader: of standard input
/// nothing, of a slice of bytes what it has left.
#[derive(Drop)]
pub struct Input<R: Read + Drop> {
    reader: R,
    faults: u64,
}

impl<R: Read + Drop> Input<R> {
    /// A source without a fault over this reader.
    pub fn new(reader: R) -> Input<R>
        ensures left { ⟦<Input<R> as Source>⟧.left result ≡ R.remaining reader }
        ensures faults { ⟦<Input<R> as Source>⟧.read_count result ≡ 0 }
    {
        Input { reader, faults: 0 }
    }
}

impl<R: Read + Drop> Source for Input<R> {
    ghost left = { λ s. R.remaining s.reader };

    ghost read_count = { λ s. s.faults };

    ghost reads = { λ _ _. ⊤ };

    fn read(&mut self, into: &mut [u8]) -> Result<usize, Failed> {
        match self.reader.read(into) {
            Ok(count) => Ok(count),
            Err(_) => {
                self.faults = self.faults.saturating_add(1);
                Err(Failed)
            }
        }
    }

    fn read_faults(&self) -> u64 {
        self.faults
    }

    ghost reads_none = { λ _. tt };

    ghost reads_more = { λ _ _ _ _ _. tt };
}
