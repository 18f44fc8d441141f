//! The REST calls on open handles.
ghost use Rattle.std.specs.Prelude.{◌≡◌, ◌<◌, ◌^◌, IfOk, None, OnErr, length};
ghost use Rattle.sx_call.specs.declared.replies.Reply.TheVariants.{Listed};
ghost use Rattle.sx_listing.specs.Handles.{handles_text};
ghost use Rattle.sx_spec.specs.FileCalls.{force_close_handles, list_handles};
ghost use Rattle.sx_spec.specs.Pages.{handles_page};
ghost use Rattle.sx_spec.specs.Places.{node_place};
ghost use Rattle.sx_spec.specs.Step.{at_place, outcome};

use sx_call::{ForceCloseHandles, ListHandles, Reply};
use sx_listing::write_handles;
use sx_memory::NoMemory;
use sx_state::{NodePlace, State};

/// The reply that lists the open handles of a place.
fn listed(state: &State, place: &NodePlace, call: &ListHandles) -> Result<Reply, NoMemory>
    ensures { IfOk result (λ reply. reply ≡ Listed (handles_text (handles_page state.now place.now.volume.tree
        place.now.node.id call.now.marker call.now.max call.now.recursive))) }
{
    let page = state.handles_page(
        place.volume.tree,
        place.node.id,
        &call.marker,
        call.max,
        call.recursive,
    )?;
    let body = write_handles(state.allocator(), &page)?;
    Ok(Reply::Listed { body })
}

/// List Handles: a page of the open handles on a directory or file and, where the call is recursive, on all below it.
#[tactic(auto, using(crate::proofs::Passed::unchecked_passes))]
pub fn list_handles(state: &State, call: &ListHandles) -> Result<Reply, NoMemory>
    ensures { IfOk result (λ reply. (state.now, reply) ≡ outcome state.now
        (at_place (node_place state.now call.now.at None)
        (list_handles state.now call.now.marker call.now.max call.now.recursive))) }
{
    match state.node_place(&call.at, None) {
        Ok(place) => listed(state, &place, call),
        Err(refusal) => Ok(Reply::Refused(refusal)),
    }
}

/// Force Close Handles: it closes the handle that is named, or all, on a directory or file and, where the call is
/// recursive, on all below it, and tells how many they were.
#[tactic(auto, using(crate::proofs::Passed::unchecked_passes))]
pub fn force_close_handles(state: &mut State, call: &ForceCloseHandles) -> Result<Reply, NoMemory>
    requires { length state.old.opens < 2 ^ 32 }
    ensures ok { IfOk result (λ reply. (state.new, reply) ≡ outcome state.old
        (at_place (node_place state.old call.now.at None)
        (force_close_handles state.old call.now.handle call.now.recursive))) }
    ensures err { OnErr result (state.new ≡ state.old) }
{
    let place = match state.node_place(&call.at, None) {
        Ok(place) => place,
        Err(refusal) => return Ok(Reply::Refused(refusal)),
    };
    let (tree, id) = (place.volume.tree, place.node.id);
    let opens = state.opens_in_scope(tree, id, call.recursive, call.handle)?;
    let n = opens.len() as u32;
    state.close_all(&opens);
    Ok(Reply::HandlesClosed { n })
}
