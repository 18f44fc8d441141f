//! The bytes of one update.
ghost use Rattle.std.specs.Prelude.{◌≡◌, ◌≤◌, ◌<◌, List, ℕ, IfOk, length};
ghost use Rattle.std.specs.Arc.{arc_value};
ghost use Rattle.sx_extent.specs.declared.piece.TheConstants.{PIECE_LIMIT};

use std::alloc::Global;
use std::marker::Model;
use std::sync::Arc;
use sx_memory::NoMemory;

/// The most bytes that one Put Range writes, 4 MiB.
pub const PIECE_LIMIT: usize = 4_194_304;

/// Bytes that are written by one update, 1 to 4,194,304 of them (4 MiB, the most that one Put Range takes). A piece
/// never changes, so its copies share its bytes.
#[derive(Debug, Drop)]
pub struct Piece {
    shared: Arc<Vec<u8>, Global>,
}

impl Model for Piece {
    ghost Value = { List ℕ };

    ghost view = { λ p. (arc_value p.shared).items };

    ghost invariant = { λ p.
        (0 < length (arc_value p.shared).items) × (length (arc_value p.shared).items ≤ PIECE_LIMIT) };
}

impl Piece {
    /// A piece of these bytes.
    pub fn of(alloc: Global, bytes: Vec<u8>) -> Result<Piece, NoMemory>
        requires least { 0 < length bytes.items }
        requires most { length bytes.items ≤ PIECE_LIMIT }
        ensures { IfOk result (λ piece. piece ≡ bytes.items) }
    {
        let shared = Arc::new(alloc, bytes)?;
        Ok(Piece { shared })
    }

    /// The bytes.
    pub fn bytes(&self) -> &[u8]
        ensures value { result.now ≡ self.now }
        ensures least { 0 < length self.now }
        ensures most { length self.now ≤ PIECE_LIMIT }
    {
        self.shared.as_slice()
    }

    /// An equal piece.
    pub fn copy(&self) -> Result<Piece, NoMemory>
        ensures { IfOk result (λ piece. piece ≡ self.now) }
    {
        let shared = Arc::try_clone(&self.shared)?;
        Ok(Piece { shared })
    }
}

impl PartialEq for Piece {
    ghost use Rattle.std.specs.Prelude.{nat_eq};
    ghost use Rattle.std.specs.Cmp.{nat_eq_equiv, partial_equiv_from_equiv};
    ghost use Rattle.std.specs.Cmp.Lexicographic.{pointwise, lists_per};

    ghost eq = { pointwise nat_eq };

    ghost laws = { lists_per (partial_equiv_from_equiv nat_eq_equiv) };

    fn eq(&self, other: &Piece) -> bool {
        self.bytes() == other.bytes()
    }
}

impl Eq for Piece {
    ghost use Rattle.std.specs.Cmp.{nat_eq_equiv};
    ghost use Rattle.std.specs.Cmp.Lexicographic.{lists_equiv};

    ghost laws = { lists_equiv nat_eq_equiv };
}
