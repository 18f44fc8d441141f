//! Sparse files.
ghost use Rattle.std.specs.Prelude.{◌≡◌, ◌+◌, ◌≤◌, length, IfOk, OnOk, OnErr};
ghost use Rattle.sx_extent.specs.Ranges.{IsWellFormed, most_bytes, granule_count, blank, update, write, clear, resize};
ghost use Rattle.sx_extent.specs.Ranges.{cut, used};
ghost use Rattle.sx_extent.specs.Ranges.{fresh, listed, AreRuns};

use crate::granules::{self, GRANULE, Granules};
use crate::piece::Piece;
use crate::spans::Spans;
use crate::view::View;
use std::alloc::Global;
use std::collections::BTreeMap;
use std::marker::Model;
use sx_memory::NoMemory;

/// A file of at most 4,398,046,511,104 bytes (4 TiB), with a mark on each granule of 512 bytes, the last of which may
/// be partial. A granule with no mark reads as zeros and takes no memory.
///
/// Each call looks only at the granules that it touches, or at the marked ones among them, and takes time in proportion
/// to their number and the logarithm of the number of all marked granules. No call's time depends on the length of the
/// file.
#[derive(Debug, Drop)]
pub struct Ranges {
    alloc: Global,
    length: u64,
    granules: Granules,
}

impl Model for Ranges {
    ghost use Rattle.sx_extent.specs.Ranges.{SparseFile};
    ghost use Rattle.sx_extent.specs.Granules.{file_of, IsKept};

    ghost Value = { SparseFile };

    ghost view = { λ r. file_of r.length r.granules.entries };

    ghost invariant = { λ r. IsKept r.length r.granules.entries };
}

impl Ranges {
    /// A file of zeros with no mark. It takes its memory from `alloc` as it is written.
    pub fn new(alloc: Global, length: u64) -> Ranges
        requires { length ≤ most_bytes }
        ensures { result ≡ blank length }
    {
        Ranges {
            alloc,
            length,
            granules: BTreeMap::new(alloc),
        }
    }

    /// How many bytes the file has.
    pub fn length(&self) -> u64
        ensures bytes { result ≡ length self.now.bytes }
        ensures whole { IsWellFormed self.now }
    {
        self.length
    }

    /// How many granules are marked. It is the map's own count, so it costs nothing.
    pub fn used(&self) -> u64
        ensures value { result ≡ used self.now }
        ensures limit { result ≤ granule_count most_bytes }
    {
        self.granules.len() as u64
    }

    /// How many granules that the interval touches are not marked: how many a write of it would mark. Granules past
    /// the end of the file count too.
    pub fn fresh(&self, from: u64, end: u64) -> u64
        requires order { from ≤ end }
        requires limit { end ≤ most_bytes }
        ensures { result ≡ fresh self.now from end }
    {
        let first = from / GRANULE;
        let past = granules::past_of(from, end);
        past - first - granules::count_between(&self.granules, first, past)
    }

    /// Writes the piece from `at` on, and marks each granule that it touches, as Put Range with `update` does. Where
    /// memory runs out the file stays as it was.
    pub fn update(&mut self, at: u64, piece: &Piece) -> Result<(), NoMemory>
        requires { at + length piece.now ≤ length self.old.bytes }
        ensures ok { OnOk result (self.new ≡ update self.old at piece.now) }
        ensures err { OnErr result (self.new ≡ self.old) }
    {
        granules::put(&mut self.granules, self.alloc, at, piece.bytes())
    }

    /// Writes the piece from `at` on, as an SMB write does: a file that ends before the piece does is made longer
    /// first, with zeros that have no mark. Where memory runs out the file stays as it was, its length too.
    pub fn write(&mut self, at: u64, piece: &Piece) -> Result<(), NoMemory>
        requires { at + length piece.now ≤ most_bytes }
        ensures ok { OnOk result (self.new ≡ write self.old at piece.now) }
        ensures err { OnErr result (self.new ≡ self.old) }
    {
        let bytes = piece.bytes();
        match granules::put(&mut self.granules, self.alloc, at, bytes) {
            Ok(()) => {
                self.length = self.length.max(at + bytes.len() as u64);
                Ok(())
            }
            Err(failed) => Err(failed),
        }
    }

    /// Writes zeros from `from` to before `end`, as Put Range with `clear` does. A granule loses its mark if all of its
    /// bytes that lie in the file lie there, and keeps it else. Want of memory leaves the file as it was.
    pub fn clear(&mut self, from: u64, end: u64) -> Result<(), NoMemory>
        requires order { from ≤ end }
        requires within { end ≤ length self.old.bytes }
        ensures ok { OnOk result (self.new ≡ clear self.old from end) }
        ensures err { OnErr result (self.new ≡ self.old) }
    {
        granules::erase(&mut self.granules, from, end, self.length);
        Ok(())
    }

    /// Sets the length, as Set File Properties does. The bytes below both lengths stay with their marks, and new bytes
    /// are zeros with no mark. Want of memory leaves the file as it was.
    pub fn resize(&mut self, length: u64) -> Result<(), NoMemory>
        requires { length ≤ most_bytes }
        ensures ok { OnOk result (self.new ≡ resize self.old length) }
        ensures err { OnErr result (self.new ≡ self.old) }
    {
        let kept = length.min(self.length);
        granules::erase(&mut self.granules, kept, self.length, self.length);
        self.length = length;
        Ok(())
    }

    /// Reads as many bytes as `into` has, from `at` on.
    pub fn read_into(&self, at: u64, into: &mut [u8])
        requires { at + length into.old ≤ length self.now.bytes }
        ensures { into.new ≡ cut self.now at (at + length into.old) }
    {
        granules::read(&self.granules, at, into);
    }

    /// The largest runs of marked granules, cut to the interval and to the length of the file, as List Ranges gives
    /// them.
    pub fn marked(&self, from: u64, end: u64) -> Result<Spans, NoMemory>
        requires order { from ≤ end }
        requires within { end ≤ length self.now.bytes }
        ensures listed { IfOk result (λ spans. spans ≡ listed self.now from end) }
        ensures runs { IfOk result (λ spans. AreRuns self.now from end spans) }
    {
        granules::runs(&self.granules, self.alloc, from, end)
    }

    /// An equal file, which no later call on this one changes.
    pub fn copy_shared(&self) -> Result<Ranges, NoMemory>
        ensures { IfOk result (λ copy. copy ≡ self.now) }
    {
        let past = granules::past_of(0, self.length);
        let granules = granules::copy_between(&self.granules, self.alloc, 0, past)?;
        Ok(Ranges {
            alloc: self.alloc,
            length: self.length,
            granules,
        })
    }

    /// The bytes from `from` to before `end` as they are now, whatever is done with the file later.
    pub fn view(&self, from: u64, end: u64) -> Result<View, NoMemory>
        requires order { from ≤ end }
        requires within { end ≤ length self.now.bytes }
        ensures { IfOk result (λ view. view ≡ cut self.now from end) }
    {
        let past = granules::past_of(from, end);
        let granules = granules::copy_between(&self.granules, self.alloc, from / GRANULE, past)?;
        Ok(View::new(granules, from, end - from))
    }
}
