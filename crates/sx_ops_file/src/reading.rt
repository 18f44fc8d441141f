//! Calls that read a file or directory.
ghost use Rattle.std.specs.Prelude.{◌≡◌, IfOk};
ghost use Rattle.sx_call.specs.declared.replies.Reply.TheVariants.{DirFacts, FileFacts, Metas};
ghost use Rattle.sx_spec.specs.Facts.{length_of, shown_of, stamp_of};
ghost use Rattle.sx_spec.specs.FileCalls.{get_directory_metadata, get_directory_properties, get_file_metadata};
ghost use Rattle.sx_spec.specs.FileCalls.{get_file_properties};
ghost use Rattle.sx_spec.specs.Places.{directory_place, file_place};
ghost use Rattle.sx_spec.specs.ShareCalls.{lease_shown};
ghost use Rattle.sx_spec.specs.Step.{at_place, outcome};

use sx_call::{
    Entry, GetDirectoryMetadata, GetDirectoryProperties, GetFileMetadata, GetFileProperties, Reply,
};
use sx_memory::NoMemory;
use sx_state::{FilePlace, NodePlace, State, file_checks, lease_shown, shown_of, stamp_of};
use sx_tree::Node;

/// The reply that shows the metadata of a node.
fn metas(node: &Node) -> Result<Reply, NoMemory>
    ensures { IfOk result (λ reply. reply ≡ Metas (stamp_of node.now) node.now.facts.meta) }
{
    let meta = node.facts.meta.copy()?;
    Ok(Reply::Metas {
        stamp: stamp_of(node),
        meta,
    })
}

/// The reply that shows a directory.
fn directory_facts(place: &NodePlace) -> Result<Reply, NoMemory>
    ensures { IfOk result (λ reply.
        reply ≡ DirFacts (stamp_of place.now.node) (shown_of place.now.node) place.now.node.facts.meta) }
{
    let meta = place.node.facts.meta.copy()?;
    Ok(Reply::DirFacts {
        stamp: stamp_of(place.node),
        facts: shown_of(place.node),
        meta,
    })
}

/// The reply that shows a file.
fn file_facts(place: &FilePlace) -> Result<Reply, NoMemory>
    ensures { IfOk result (λ reply. reply ≡ FileFacts (stamp_of place.now.node) (length_of place.now.body)
        place.now.body.content (shown_of place.now.node) (lease_shown place.now.node.facts.lease)
        place.now.node.facts.meta) }
{
    let content = place.body.content.copy()?;
    let meta = place.node.facts.meta.copy()?;
    Ok(Reply::FileFacts {
        stamp: stamp_of(place.node),
        length: place.body.ranges.length(),
        content,
        facts: shown_of(place.node),
        lease: lease_shown(place.node.facts.lease),
        meta,
    })
}

/// Get Directory Properties.
#[tactic(auto, using(crate::proofs::Passed::unchecked_passes))]
pub fn get_directory_properties(
    state: &State,
    call: &GetDirectoryProperties,
) -> Result<Reply, NoMemory>
    ensures { IfOk result (λ reply. (state.now, reply) ≡ outcome state.now
        (at_place (directory_place state.now call.now.at call.now.snap) (get_directory_properties state.now))) }
{
    match state.directory_place(&call.at, call.snap) {
        Ok(place) => directory_facts(&place),
        Err(refusal) => Ok(Reply::Refused(refusal)),
    }
}

/// Get Directory Metadata.
#[tactic(auto, using(crate::proofs::Passed::unchecked_passes))]
pub fn get_directory_metadata(state: &State, call: &GetDirectoryMetadata) -> Result<Reply, NoMemory>
    ensures { IfOk result (λ reply. (state.now, reply) ≡ outcome state.now
        (at_place (directory_place state.now call.now.at call.now.snap) (get_directory_metadata state.now))) }
{
    match state.directory_place(&call.at, call.snap) {
        Ok(place) => metas(place.node),
        Err(refusal) => Ok(Reply::Refused(refusal)),
    }
}

/// Get File Properties.
pub fn get_file_properties(
    state: &State,
    entry: &Entry,
    call: &GetFileProperties,
) -> Result<Reply, NoMemory>
    ensures { IfOk result (λ reply. (state.now, reply) ≡ outcome state.now
        (at_place (file_place state.now call.now.at call.now.scope.snap)
        (get_file_properties state.now entry.now.call))) }
{
    let place = match state.file_place(call.at.target(), call.scope.snap) {
        Ok(place) => place,
        Err(refusal) => return Ok(Reply::Refused(refusal)),
    };
    match state.first_check(&file_checks(&entry.call, &place)) {
        Some(refusal) => Ok(Reply::Refused(refusal)),
        None => file_facts(&place),
    }
}

/// Get File Metadata.
pub fn get_file_metadata(
    state: &State,
    entry: &Entry,
    call: &GetFileMetadata,
) -> Result<Reply, NoMemory>
    ensures { IfOk result (λ reply. (state.now, reply) ≡ outcome state.now
        (at_place (file_place state.now call.now.at call.now.scope.snap)
        (get_file_metadata state.now entry.now.call))) }
{
    let place = match state.file_place(call.at.target(), call.scope.snap) {
        Ok(place) => place,
        Err(refusal) => return Ok(Reply::Refused(refusal)),
    };
    match state.first_check(&file_checks(&entry.call, &place)) {
        Some(refusal) => Ok(Reply::Refused(refusal)),
        None => metas(place.node),
    }
}
