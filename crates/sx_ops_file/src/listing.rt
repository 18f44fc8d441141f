//! List Directories and Files.
ghost use Rattle.std.specs.Prelude.{◌≡◌, IfOk};
ghost use Rattle.sx_call.specs.declared.replies.Reply.TheVariants.{Listed};
ghost use Rattle.sx_listing.specs.Names.{names_text};
ghost use Rattle.sx_spec.specs.FileCalls.{list_directory};
ghost use Rattle.sx_spec.specs.Places.{directory_place};
ghost use Rattle.sx_spec.specs.Step.{at_place, outcome};
ghost use Rattle.sx_tree.specs.Pages.{names_page};

use std::alloc::Global;
use sx_call::{ListDirectory, Reply};
use sx_listing::write_names;
use sx_memory::NoMemory;
use sx_state::{NodePlace, State};

/// The reply that lists a page of a directory.
fn names_listed(alloc: Global, place: &NodePlace, call: &ListDirectory) -> Result<Reply, NoMemory>
    ensures { IfOk result (λ reply. reply ≡ Listed (names_text
        (names_page place.now.volume.tree place.now.node.id call.now.prefix call.now.marker call.now.max))) }
{
    let (prefix, marker) = (call.prefix.text(), call.marker.text());
    let page = place
        .volume
        .tree
        .walk_from(place.node.id, prefix, marker, call.max)?;
    let body = write_names(alloc, &page)?;
    Ok(Reply::Listed { body })
}

/// List Directories and Files: a page of the names that begin with a prefix, from a folded name on.
#[tactic(auto, using(crate::proofs::Passed::unchecked_passes))]
pub fn list_directory(state: &State, call: &ListDirectory) -> Result<Reply, NoMemory>
    ensures { IfOk result (λ reply. (state.now, reply) ≡ outcome state.now
        (at_place (directory_place state.now call.now.at call.now.snap)
        (list_directory state.now call.now.prefix call.now.marker call.now.max))) }
{
    match state.directory_place(&call.at, call.snap) {
        Ok(place) => names_listed(state.allocator(), &place, call),
        Err(refusal) => Ok(Reply::Refused(refusal)),
    }
}
