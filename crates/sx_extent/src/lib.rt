//! Sparse files: bytes with a mark on each granule of 512 bytes.
//!
//! The rules are those of Put Range, List Ranges and Set File Properties of the File service's REST reference. That
//! marks go by granules of 512 bytes, and that the last one may be partial, is this profile's rule.
#![tactic(auto)]

mod granules;
mod laws;
mod piece;
mod ranges;
mod spans;
mod view;

pub use granules::{FILE_LIMIT, GRANULE_SIZE};
pub use laws::{files_stay_well_formed, lengths_are_known, parts_are_joined, use_is_known};
pub use piece::{PIECE_LIMIT, Piece};
pub use ranges::Ranges;
pub use spans::{Span, Spans};
pub use sx_memory::NoMemory;
pub use view::View;
