//! Half-open intervals of bytes, and lists of them.
ghost use Rattle.std.specs.Prelude.{◌≡◌, ◌==◌, List, [], ◌∷◌, ◌++◌, length, OnOk, OnErr};
ghost use Rattle.sx_extent.specs.Ranges.{Interval, joined};

use std::alloc::Global;
use std::marker::Model;
use sx_memory::NoMemory;

/// The bytes from `from` to before `end`, at least one.
#[derive(Clone, Copy, Debug, PartialEq, Eq)]
pub struct Span {
    /// The place of the first byte.
    pub from: u64,
    /// The place past the last byte.
    pub end: u64,
}

impl Model for Span {
    ghost use Rattle.std.specs.Prelude.{◌<◌};
    ghost use Rattle.sx_extent.specs.Ranges.{Interval};

    ghost Value = { Interval };

    ghost view = { λ s. record { from = s.from; end = s.end } };

    ghost inverse = { λ i. record { from = i.from; end = i.end } };

    ghost invariant = { λ s. s.from < s.end };
}

/// A list of spans.
#[derive(Debug, Drop)]
pub struct Spans {
    items: Vec<Span>,
}

impl Model for Spans {
    ghost use Rattle.std.specs.Prelude.{List};
    ghost use Rattle.sx_extent.specs.Ranges.{Interval};

    ghost Value = { List Interval };

    ghost view = { λ s. s.items.items };
}

impl Spans {
    /// No spans. The list takes its memory from `alloc` as it grows.
    pub fn new(alloc: Global) -> Spans
        ensures { result ≡ [] }
    {
        Spans {
            items: Vec::new(alloc),
        }
    }

    /// The spans as a slice.
    pub fn as_slice(&self) -> &[Span]
        ensures { result.now ≡ self.now }
    {
        self.items.as_slice()
    }

    /// How many spans there are.
    pub fn len(&self) -> usize
        ensures { result ≡ length self.now }
    {
        self.items.len()
    }

    /// Whether there is no span.
    pub fn is_empty(&self) -> bool
        ensures { result ≡ (length self.now == 0) }
    {
        self.items.is_empty()
    }

    /// Puts a span at the end.
    pub fn push(&mut self, span: Span) -> Result<(), NoMemory>
        ensures ok { OnOk result (self.new ≡ self.old ++ span ∷ []) }
        ensures err { OnErr result (self.new ≡ self.old) }
    {
        match self.items.push(span) {
            Ok(()) => Ok(()),
            Err(_) => Err(NoMemory),
        }
    }

    /// Puts a span at the end, or makes the last span longer by it where the two meet.
    pub(crate) fn join(&mut self, span: Span) -> Result<(), NoMemory>
        ensures ok { OnOk result ((spans : List Interval) → self.old ≡ joined spans
            → self.new ≡ joined (spans ++ span ∷ [])) }
        ensures err { OnErr result (self.new ≡ self.old) }
    {
        let count = self.items.len();
        if count > 0 {
            let last = self.items[count - 1];
            if last.end == span.from {
                self.items[count - 1] = Span {
                    from: last.from,
                    end: span.end,
                };
                return Ok(());
            }
        }
        self.push(span)
    }
}

impl PartialEq for Spans {
    ghost use Rattle.std.specs.Prelude.{nat_eq, ◌&&◌};
    ghost use Rattle.std.specs.Cmp.{on_per, and_per, partial_equiv_from_equiv, nat_eq_equiv};
    ghost use Rattle.std.specs.Cmp.Lexicographic.{pointwise, lists_per};
    ghost use Rattle.sx_extent.specs.Ranges.{Interval};

    ghost eq = { pointwise (λ (a b : Interval). nat_eq a.from b.from && nat_eq a.end b.end) };

    ghost laws = { lists_per (and_per
        (on_per (λ (a : Interval). a.from) (partial_equiv_from_equiv nat_eq_equiv))
        (on_per (λ (a : Interval). a.end) (partial_equiv_from_equiv nat_eq_equiv))) };

    fn eq(&self, other: &Spans) -> bool {
        self.as_slice() == other.as_slice()
    }
}

impl Eq for Spans {
    ghost use Rattle.std.specs.Cmp.{on_equiv, and_equiv, nat_eq_equiv};
    ghost use Rattle.std.specs.Cmp.Lexicographic.{lists_equiv};
    ghost use Rattle.sx_extent.specs.Ranges.{Interval};

    ghost laws = { lists_equiv (and_equiv
        (on_equiv (λ (a : Interval). a.from) nat_eq_equiv)
        (on_equiv (λ (a : Interval). a.end) nat_eq_equiv)) };
}
