//! The calls on handles: what each reads, in order.

ghost use Rattle.sx_decode.specs.Reading.{Reads};
ghost use Rattle.sx_decode.specs.DirectoryRows.{list_handles, force_close_handles};

use crate::asked::Asked;
use crate::handles::{handle_of, recursive_of};
use crate::markers::handles_marker;
use crate::unread::Unread;
use std::alloc::Global;
use sx_call::{Call, ForceCloseHandles, ListHandles, Target};
use sx_http::Header;

/// List Handles.
#[tactic(auto, unfolding(crate::specs::DirectoryRows::list_handles))]
pub(crate) fn list_handles(
    alloc: Global,
    at: Target,
    asked: Asked,
    headers: &[Header],
) -> Result<Call, Unread>
    ensures { Reads result (list_handles at asked headers.now) }
{
    let marker = handles_marker(alloc, asked.marker.bytes())?;
    let recursive = recursive_of(alloc, headers)?;
    Ok(Call::ListHandles(ListHandles {
        at,
        marker,
        max: asked.max,
        recursive,
    }))
}

/// Force Close Handles.
#[tactic(auto, unfolding(crate::specs::DirectoryRows::force_close_handles))]
pub(crate) fn force_close_handles(
    alloc: Global,
    at: Target,
    headers: &[Header],
) -> Result<Call, Unread>
    ensures { Reads result (force_close_handles at headers.now) }
{
    let handle = handle_of(alloc, headers)?;
    let recursive = recursive_of(alloc, headers)?;
    Ok(Call::ForceCloseHandles(ForceCloseHandles {
        at,
        handle,
        recursive,
    }))
}
