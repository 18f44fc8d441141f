//! Taking all of an input that is no longer than a head.

ghost use Rattle.std.specs.Prelude.{◌≤◌};
ghost use Rattle.sx_tool.specs.Inputs.{Gathers};

use std::alloc::Global;
use sx_base::{Buffer, Items, Refill, Source};
use sx_http::HEAD_LIMIT;

/// The most bytes that one read asks for.
pub const PIECE_LIMIT: usize = 4_096;

/// An input's bytes, or why they aren't all there.
pub(crate) enum Gathered {
    /// All bytes of the input, no more than a head may have.
    Whole(Items<u8>),
    /// The input has more bytes than a head may have.
    TooLong,
    /// A read failed.
    ReadFault,
    /// Out of memory.
    NoMemory,
}

/// Takes an input to its end, or past the most bytes of a head, but no more than one piece past them.
pub(crate) fn gather<S: Source>(alloc: Global, input: &mut S) -> Gathered
    ensures gathered { Gathers result (S.left input.old) (S.left input.new) (S.read_count input.old)
        (S.read_count input.new) }
    ensures later { S.read_count input.old ≤ S.read_count input.new }
    ensures step { S.reads input.old input.new }
{
    let mut buffer = Buffer::new(alloc);
    while buffer.held().len() <= HEAD_LIMIT {
        match buffer.refill(input, PIECE_LIMIT) {
            Refill::More => {}
            Refill::End => return Gathered::Whole(buffer.into_items()),
            Refill::ReadFault => return Gathered::ReadFault,
            Refill::NoMemory => return Gathered::NoMemory,
        }
    }
    Gathered::TooLong
}
