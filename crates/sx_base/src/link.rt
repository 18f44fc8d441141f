//! Both directions of a connection.
ghost use Rattle.std.specs.Prelude.{◌≡◌, ℕ};
ghost use Rattle.sx_base.specs.Link.{ReadKeeps, PutKeeps};

use crate::fault::Failed;
use crate::sink::Sink;
use crate::source::Source;

/// Both directions of a connection.
///
/// A read leaves what was written and the count of failed puts as they were, and a put what is left and the count of
/// failed reads.
pub trait Link: Source + Sink {
    /// The address of the peer.
    ghost peer_of: { Self → ℕ };

    /// The second value is what calls of `read` and `put` alone may make of the first.
    ghost calls: { Self → Self → Type 0 };

    /// The peer's IPv4 address as a number. No call changes it.
    fn peer(&self) -> u32
        ensures { result ≡ peer_of self.now };

    ghost calls_none: { (a : Self) → calls a a };

    ghost calls_more: { (a b c : Self) → calls a b → calls b c → calls a c };

    ghost read_calls: { (a b : Self) → Self.reads a b → calls a b };

    ghost put_calls: { (a b : Self) → Self.puts a b → calls a b };

    ghost read_keeps: { (a b : Self) → Self.reads a b → ReadKeeps Self.wrote Self.write_count peer_of a b };

    ghost put_keeps: { (a b : Self) → Self.puts a b → PutKeeps Self.left Self.read_count peer_of a b };
}

/// A link over a source, a sink and a peer's address.
#[derive(Drop)]
pub struct Both<'a, S, K> {
    /// Where the bytes come in.
    pub source: &'a mut S,
    /// Where the bytes go out.
    pub sink: &'a mut K,
    /// The peer's IPv4 address as a number.
    pub peer: u32,
}

impl<'a, S: Source, K: Sink> Source for Both<'a, S, K> {
    ghost left = { λ b. S.left b.source.now };

    ghost read_count = { λ b. S.read_count b.source.now };

    ghost reads = { λ a b. S.reads a.source.now b.source.now × (b.source.ghost_name ≡ a.source.ghost_name)
        × (b.sink.ghost_name ≡ a.sink.ghost_name) × (b.sink.now ≡ a.sink.now) × (b.peer ≡ a.peer) };

    fn read(&mut self, into: &mut [u8]) -> Result<usize, Failed> {
        self.source.read(into)
    }

    fn read_faults(&self) -> u64 {
        self.source.read_faults()
    }

    ghost use Rattle.std.proofs.Common.{refl, ◌∙◌};

    ghost reads_none = { λ a. (S.reads_none a.source.now, refl, refl, refl, refl) };

    ghost reads_more = { λ a b c h k.
        (S.reads_more a.source.now b.source.now c.source.now h.0 k.0, k.1 ∙ h.1, k.2 ∙ h.2, k.3 ∙ h.3, k.4 ∙ h.4) };
}

impl<'a, S: Source, K: Sink> Sink for Both<'a, S, K> {
    ghost wrote = { λ b m. K.wrote b.sink.now m };

    ghost write_count = { λ b. K.write_count b.sink.now };

    ghost puts = { λ a b. K.puts a.sink.now b.sink.now × (b.sink.ghost_name ≡ a.sink.ghost_name)
        × (b.source.ghost_name ≡ a.source.ghost_name) × (b.source.now ≡ a.source.now) × (b.peer ≡ a.peer) };

    fn put(&mut self, bytes: &[u8]) -> Result<(), Failed> {
        self.sink.put(bytes)
    }

    fn write_faults(&self) -> u64 {
        self.sink.write_faults()
    }

    ghost use Rattle.std.proofs.Common.{refl, ◌∙◌};

    ghost puts_none = { λ a. (K.puts_none a.sink.now, refl, refl, refl, refl) };

    ghost puts_more = { λ a b c h k.
        (K.puts_more a.sink.now b.sink.now c.sink.now h.0 k.0, k.1 ∙ h.1, k.2 ∙ h.2, k.3 ∙ h.3, k.4 ∙ h.4) };
}

impl<'a, S: Source, K: Sink> Link for Both<'a, S, K> {
    ghost peer_of = { λ b. b.peer };

    ghost calls = { λ a b. S.reads a.source.now b.source.now × K.puts a.sink.now b.sink.now
        × (b.source.ghost_name ≡ a.source.ghost_name) × (b.sink.ghost_name ≡ a.sink.ghost_name) × (b.peer ≡ a.peer) };

    fn peer(&self) -> u32 {
        self.peer
    }

    ghost use Rattle.std.proofs.Common.{refl, sym, subst, ◌∙◌, ap};
    ghost use Rattle.sx_base.specs.Link.{same_written};

    ghost calls_none = { λ a. (S.reads_none a.source.now, K.puts_none a.sink.now, refl, refl, refl) };

    ghost calls_more = { λ a b c h k. (
      S.reads_more a.source.now b.source.now c.source.now h.0 k.0,
      K.puts_more a.sink.now b.sink.now c.sink.now h.1 k.1,
      k.2 ∙ h.2,
      k.3 ∙ h.3,
      k.4 ∙ h.4,
    ) };

    ghost read_calls = { λ a b h. (h.0, subst (K.puts a.sink.now) (sym h.3) (K.puts_none a.sink.now), h.1, h.2, h.4) };

    ghost put_calls = { λ a b h.
        (subst (S.reads a.source.now) (sym h.3) (S.reads_none a.source.now), h.0, h.2, h.1, h.4) };

    ghost read_keeps = { λ a b h. record {
      written = same_written K.wrote a.sink.now b.sink.now h.3;
      faults = ap K.write_count h.3;
      peer = h.4;
    } };

    ghost put_keeps = { λ a b h. record { rest = ap S.left h.3; faults = ap S.read_count h.3; peer = h.4 } };
}
