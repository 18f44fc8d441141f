//! The one head that an input is.

ghost use Rattle.std.specs.Prelude.{◌≤◌};
ghost use Rattle.sx_tool.specs.Inputs.{FindsHead};

use crate::gathered::{Gathered, gather};
use std::alloc::Global;
use sx_base::Source;
use sx_http::{Head, read_head};

/// The head that an input is, or that it isn't one.
pub(crate) enum Found {
    /// The head.
    Head(Head),
    /// The input isn't one head.
    NoHead,
    /// A read failed.
    ReadFault,
    /// Out of memory.
    NoMemory,
}

/// Takes an input, and reads the head that it is.
pub(crate) fn find_head<S: Source>(alloc: Global, input: &mut S) -> Found
    ensures found { FindsHead result (S.left input.old) (S.left input.new) (S.read_count input.old)
        (S.read_count input.new) }
    ensures later { S.read_count input.old ≤ S.read_count input.new }
    ensures step { S.reads input.old input.new }
{
    match gather(alloc, input) {
        Gathered::ReadFault => Found::ReadFault,
        Gathered::NoMemory => Found::NoMemory,
        Gathered::TooLong => Found::NoHead,
        Gathered::Whole(bytes) => match read_head(alloc, bytes.as_slice()) {
            Ok(Some(head)) => Found::Head(head),
            Ok(None) => Found::NoHead,
            Err(_) => Found::NoMemory,
        },
    }
}
