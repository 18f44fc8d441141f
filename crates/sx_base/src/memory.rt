//! Sources, sinks and links in memory.
ghost use Rattle.std.specs.Prelude.{◌≡◌, ◌+◌, ◌-◌, ◌≤◌, ◌<◌, ◌++◌, [], Some, OnOk, OnErr, IsErr, IsTrue, is_err};
ghost use Rattle.std.specs.Prelude.{min, drop, take, length};
ghost use Rattle.std.specs.Io.{ReadsAtMost};
ghost use Rattle.std.specs.Io.KnownBytes.{ReadConsumes};
ghost use Rattle.sx_base.specs.Causes.{HasCause};
ghost use Rattle.sx_base.specs.Calls.{FailsAsListed, FailsWhereListed, is_next_listed, most_calls};

use crate::calls::Calls;
use crate::fault::Failed;
use crate::link::Link;
use crate::sink::Sink;
use crate::source::Source;
use std::alloc::Global;

/// A source over bytes in memory.
///
/// It gives at most `chunk` of them a call (0 stands for 1), and fails at the calls listed, which are counted from 0.
#[derive(Drop)]
pub struct MemSource {
    bytes: Vec<u8>,
    at: usize,
    chunk: usize,
    calls: Calls,
    ghost within: { at ≤ length bytes.items },
}

impl MemSource {
    /// A source of these bytes, without a fault.
    pub fn new(bytes: Vec<u8>, chunk: usize, failing: Vec<u64>) -> MemSource
        ensures left { ⟦<MemSource as Source>⟧.left result ≡ Some bytes.items }
        ensures faults { ⟦<MemSource as Source>⟧.read_count result ≡ 0 }
        ensures calls { result.calls ≡ record { failing = failing.items; made = 0; faults = 0 } }
    {
        MemSource {
            bytes,
            at: 0,
            chunk,
            calls: Calls::new(failing),
        }
    }
}

impl Source for MemSource {
    ghost use Rattle.std.specs.Prelude.{Some, drop};
    ghost use Rattle.sx_base.specs.Calls.{FailsAsListed};

    ghost left = { λ s. Some (drop s.at s.bytes.items) };

    ghost read_count = { λ s. s.calls.faults };

    ghost reads = { λ a b. FailsAsListed a.calls b.calls };

    fn read(&mut self, into: &mut [u8]) -> Result<usize, Failed>
        requires { 0 < length into.old }
        ensures bound { ReadsAtMost result into.new }
        ensures bytes { ReadConsumes (⟦<MemSource as Source>⟧.left self.old)
            (⟦<MemSource as Source>⟧.left self.new) result into.new }
        ensures cause { HasCause self.old.calls.faults self.new.calls.faults result }
        ensures step { FailsAsListed self.old.calls self.new.calls }
        ensures fails { is_err result ≡ is_next_listed self.old.calls }
        ensures made { self.new.calls.made ≡ min (self.old.calls.made + 1) most_calls }
    {
        match self.calls.next() {
            Ok(()) => {}
            Err(failed) => return Err(failed),
        }
        let count = copy_front(&self.bytes, self.at, self.chunk, into);
        self.at += count;
        Ok(count)
    }

    fn read_faults(&self) -> u64 {
        self.calls.faults()
    }

    ghost use Rattle.sx_base.specs.Calls.{as_listed_none, as_listed_more};

    ghost reads_none = { λ a. as_listed_none a.calls };

    ghost reads_more = { λ a b c h k. as_listed_more a.calls b.calls c.calls h k };
}

/// A sink into memory, which fails at the calls listed, counted from 0, and where no memory is left.
#[derive(Drop)]
pub struct MemSink {
    bytes: Vec<u8>,
    calls: Calls,
}

impl MemSink {
    /// A sink to which nothing was written, without a fault.
    pub fn new(alloc: Global, failing: Vec<u64>) -> MemSink
        ensures wrote { ⟦<MemSink as Sink>⟧.wrote result [] }
        ensures faults { ⟦<MemSink as Sink>⟧.write_count result ≡ 0 }
        ensures calls { result.calls ≡ record { failing = failing.items; made = 0; faults = 0 } }
    {
        MemSink {
            bytes: Vec::new(alloc),
            calls: Calls::new(failing),
        }
    }

    /// The bytes that were written.
    pub fn bytes(&self) -> &[u8]
        ensures { ⟦<MemSink as Sink>⟧.wrote self.now result.now }
    {
        &self.bytes
    }
}

impl Sink for MemSink {
    ghost use Rattle.std.specs.Prelude.{◌≡◌};
    ghost use Rattle.sx_base.specs.Calls.{FailsWhereListed};

    ghost wrote = { λ s bytes. s.bytes.items ≡ bytes };

    ghost write_count = { λ s. s.calls.faults };

    ghost puts = { λ a b. FailsWhereListed a.calls b.calls };

    fn put(&mut self, bytes: &[u8]) -> Result<(), Failed>
        ensures ok { OnOk result (self.new.bytes.items ≡ self.old.bytes.items ++ bytes.now) }
        ensures err { OnErr result (self.new.bytes.items ≡ self.old.bytes.items) }
        ensures cause { HasCause self.old.calls.faults self.new.calls.faults result }
        ensures step { FailsWhereListed self.old.calls self.new.calls }
        ensures fails { IsTrue (is_next_listed self.old.calls) → IsErr result }
        ensures made { self.new.calls.made ≡ min (self.old.calls.made + 1) most_calls }
    {
        match self.calls.next() {
            Ok(()) => {}
            Err(failed) => return Err(failed),
        }
        if self.bytes.extend_from_slice(bytes).is_err() {
            return self.calls.fail();
        }
        Ok(())
    }

    fn write_faults(&self) -> u64 {
        self.calls.faults()
    }

    ghost use Rattle.sx_base.specs.Calls.{where_listed_none, where_listed_more};

    ghost puts_none = { λ a. where_listed_none a.calls };

    ghost puts_more = { λ a b c h k. where_listed_more a.calls b.calls c.calls h k };
}

/// Copies bytes from place `at` to the front of `into`: at most `most`, and at least one where both have one.
fn copy_front(bytes: &[u8], at: usize, most: usize, into: &mut [u8]) -> usize
    requires room { 0 < length into.old }
    requires at { at ≤ length bytes.now }
    ensures bound { result ≤ length into.new }
    ensures copied { take result into.new ≡ take result (drop at bytes.now) }
    ensures within { at + result ≤ length bytes.now }
    ensures some { (result ≡ 0) → (length bytes.now ≤ at) }
{
    let left = bytes.len() - at;
    let count = left.min(into.len()).min(most.max(1));
    into[..count].copy_from_slice(&bytes[at..at + count]);
    count
}

/// A link in memory: a source, a sink and a peer's address.
#[derive(Drop)]
pub struct MemLink {
    /// The bytes that come in.
    pub source: MemSource,
    /// The bytes that went out.
    pub sink: MemSink,
    /// The peer's IPv4 address as a number.
    pub peer: u32,
}

impl Source for MemLink {
    ghost left = { λ l. ⟦<MemSource as Source>⟧.left l.source };

    ghost read_count = { λ l. ⟦<MemSource as Source>⟧.read_count l.source };

    ghost reads = { λ a b. FailsAsListed a.source.calls b.source.calls × (b.sink ≡ a.sink) × (b.peer ≡ a.peer) };

    fn read(&mut self, into: &mut [u8]) -> Result<usize, Failed> {
        self.source.read(into)
    }

    fn read_faults(&self) -> u64 {
        self.source.read_faults()
    }

    ghost use Rattle.std.proofs.Common.{refl, ◌∙◌};
    ghost use Rattle.sx_base.specs.Calls.{as_listed_none, as_listed_more};

    ghost reads_none = { λ a. (as_listed_none a.source.calls, refl, refl) };

    ghost reads_more = { λ a b c h k.
        (as_listed_more a.source.calls b.source.calls c.source.calls h.0 k.0, k.1 ∙ h.1, k.2 ∙ h.2) };
}

impl Sink for MemLink {
    ghost wrote = { λ l bytes. ⟦<MemSink as Sink>⟧.wrote l.sink bytes };

    ghost write_count = { λ l. ⟦<MemSink as Sink>⟧.write_count l.sink };

    ghost puts = { λ a b. FailsWhereListed a.sink.calls b.sink.calls × (b.source ≡ a.source) × (b.peer ≡ a.peer) };

    fn put(&mut self, bytes: &[u8]) -> Result<(), Failed> {
        self.sink.put(bytes)
    }

    fn write_faults(&self) -> u64 {
        self.sink.write_faults()
    }

    ghost use Rattle.std.proofs.Common.{refl, ◌∙◌};
    ghost use Rattle.sx_base.specs.Calls.{where_listed_none, where_listed_more};

    ghost puts_none = { λ a. (where_listed_none a.sink.calls, refl, refl) };

    ghost puts_more = { λ a b c h k.
        (where_listed_more a.sink.calls b.sink.calls c.sink.calls h.0 k.0, k.1 ∙ h.1, k.2 ∙ h.2) };
}

impl Link for MemLink {
    ghost peer_of = { λ l. l.peer };

    ghost calls = { λ a b. FailsAsListed a.source.calls b.source.calls × FailsWhereListed a.sink.calls b.sink.calls
        × (b.peer ≡ a.peer) };

    fn peer(&self) -> u32 {
        self.peer
    }

    ghost use Rattle.std.proofs.Common.{refl, ◌∙◌, ap};
    ghost use Rattle.sx_base.specs.Calls.{as_listed_none, as_listed_more, as_listed_same, where_listed_none};
    ghost use Rattle.sx_base.specs.Calls.{where_listed_more, where_listed_same};
    ghost use Rattle.sx_base.specs.Link.{same_written};

    ghost calls_none = { λ a. (as_listed_none a.source.calls, where_listed_none a.sink.calls, refl) };

    ghost calls_more = { λ a b c h k. (
      as_listed_more a.source.calls b.source.calls c.source.calls h.0 k.0,
      where_listed_more a.sink.calls b.sink.calls c.sink.calls h.1 k.1,
      k.2 ∙ h.2,
    ) };

    ghost read_calls = { λ a b h. (h.0, where_listed_same a.sink.calls b.sink.calls (ap (λ s. s.calls) h.1), h.2) };

    ghost put_calls = { λ a b h. (as_listed_same a.source.calls b.source.calls (ap (λ s. s.calls) h.1), h.0, h.2) };

    ghost read_keeps = { λ a b h. record {
      written = same_written ⟦<MemSink as Sink>⟧.wrote a.sink b.sink h.1;
      faults = ap ⟦<MemSink as Sink>⟧.write_count h.1;
      peer = h.2;
    } };

    ghost put_keeps = { λ a b h. record {
      rest = ap ⟦<MemSource as Source>⟧.left h.1;
      faults = ap ⟦<MemSource as Source>⟧.read_count h.1;
      peer = h.2;
    } };
}
