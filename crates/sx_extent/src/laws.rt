//! Laws of the definition of a file, for the crates above. Each is a function that does nothing, and its clauses are
//! the law.
ghost use Rattle.std.specs.Prelude.{◌≡◌, ◌+◌, ◌-◌, ◌≤◌, ℕ, max, List, ◌++◌, length};
ghost use Rattle.sx_extent.specs.Ranges.{SparseFile, IsWellFormed, most_bytes, granule_count};
ghost use Rattle.sx_extent.specs.Ranges.{blank, update, write, extend, clear, resize, cut, used, fresh};
ghost use Rattle.sx_extent.specs.View.{part};

/// The law of lengths: what each call makes of the length of a file, and how many bytes an interval has. It does
/// nothing.
pub fn lengths_are_known()
    ensures blank { (n : ℕ) → length (blank n).bytes ≡ n }
    ensures update { (f : SparseFile) (at : ℕ) (piece : List ℕ) → at + length piece ≤ length f.bytes
        → length (update f at piece).bytes ≡ length f.bytes }
    ensures write { (f : SparseFile) (at : ℕ) (piece : List ℕ)
        → length (write f at piece).bytes ≡ max (length f.bytes) (at + length piece) }
    ensures clear { (f : SparseFile) (from end : ℕ) → from ≤ end → end ≤ length f.bytes
        → length (clear f from end).bytes ≡ length f.bytes }
    ensures resize { (f : SparseFile) (n : ℕ) → length (resize f n).bytes ≡ n }
    ensures extend { (f : SparseFile) (n : ℕ) → length (extend f n).bytes ≡ max (length f.bytes) n }
    ensures cut { (f : SparseFile) (from end : ℕ) → from ≤ end → end ≤ length f.bytes
        → length (cut f from end) ≡ end - from }
{}

/// The law of form: a file stays well formed whatever is done with it. It does nothing.
pub fn files_stay_well_formed()
    ensures blank { (n : ℕ) → n ≤ most_bytes → IsWellFormed (blank n) }
    ensures update { (f : SparseFile) (at : ℕ) (piece : List ℕ) → at + length piece ≤ length f.bytes
        → IsWellFormed f → IsWellFormed (update f at piece) }
    ensures write { (f : SparseFile) (at : ℕ) (piece : List ℕ) → at + length piece ≤ most_bytes
        → IsWellFormed f → IsWellFormed (write f at piece) }
    ensures clear { (f : SparseFile) (from end : ℕ) → from ≤ end → end ≤ length f.bytes
        → IsWellFormed f → IsWellFormed (clear f from end) }
    ensures resize { (f : SparseFile) (n : ℕ) → n ≤ most_bytes → IsWellFormed f → IsWellFormed (resize f n) }
{}

/// The law of use: how many granules are marked after each call. A write marks the fresh granules of its interval and
/// no others, whether the file is made longer first or not, and growth marks none. It does nothing.
pub fn use_is_known()
    ensures blank { (n : ℕ) → used (blank n) ≡ 0 }
    ensures update { (f : SparseFile) (at : ℕ) (piece : List ℕ) → at + length piece ≤ length f.bytes
        → IsWellFormed f → used (update f at piece) ≡ used f + fresh f at (at + length piece) }
    ensures write { (f : SparseFile) (at : ℕ) (piece : List ℕ) → at + length piece ≤ most_bytes
        → IsWellFormed f → used (write f at piece) ≡ used f + fresh f at (at + length piece) }
    ensures clear { (f : SparseFile) (from end : ℕ) → used (clear f from end) ≤ used f }
    ensures resize { (f : SparseFile) (n : ℕ) → used (resize f n) ≤ used f }
    ensures growth { (f : SparseFile) (n : ℕ) → IsWellFormed f → length f.bytes ≤ n → used (resize f n) ≡ used f }
    ensures grown { (f : SparseFile) (n from end : ℕ) → IsWellFormed f → length f.bytes ≤ n
        → fresh (resize f n) from end ≡ fresh f from end }
    ensures most { (f : SparseFile) → IsWellFormed f → used f ≤ granule_count (length f.bytes) }
{}

/// The law of parts: bytes that are read part by part are those that are read at once. It does nothing.
pub fn parts_are_joined()
    ensures cuts { (f : SparseFile) (from mid end : ℕ) → from ≤ mid → mid ≤ end
        → cut f from mid ++ cut f mid end ≡ cut f from end }
    ensures parts { (bytes : List ℕ) (at m n : ℕ)
        → part bytes at m ++ part bytes (at + m) n ≡ part bytes at (m + n) }
    ensures whole { (bytes : List ℕ) → part bytes 0 (length bytes) ≡ bytes }
    ensures inner { (f : SparseFile) (from end at n : ℕ) → from + at + n ≤ end
        → part (cut f from end) at n ≡ cut f (from + at) (from + at + n) }
{}
