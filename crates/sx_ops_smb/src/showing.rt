//! Calls that show what is open.
ghost use Rattle.std.specs.Prelude.{◌≡◌, ◌≤◌, [], IfOk};
ghost use Rattle.sx_call.specs.declared.replies.Reply.TheVariants.{Smb};
ghost use Rattle.sx_call.specs.declared.replies.SmbReply.TheVariants.{Names, Stats};
ghost use Rattle.sx_spec.specs.Needs.{access_needed};
ghost use Rattle.sx_spec.specs.Places.{handle_place, held_directory};
ghost use Rattle.sx_spec.specs.SessionCalls.{smb_list, smb_stat};
ghost use Rattle.sx_spec.specs.Step.{at_place, handle_in, outcome};
ghost use Rattle.sx_tree.specs.Node.{is_directory, kind_length};
ghost use Rattle.sx_tree.specs.Pages.{names_page};

use crate::places::handle_in;
use std::alloc::Global;
use sx_call::{Entry, Reply, SmbList, SmbReply, SmbStat};
use sx_memory::NoMemory;
use sx_names::Text;
use sx_state::{HandlePlace, State, access_needed};
use sx_tree::Node;

/// The reply that shows a file or directory.
fn stats(node: &Node) -> Reply
    ensures { result ≡ Smb (Stats node.now.id (is_directory node.now.kind) (kind_length node.now.kind)
        node.now.facts.attributes node.now.facts.created node.now.facts.written node.now.facts.changed) }
{
    Reply::Smb(SmbReply::Stats {
        id: node.id,
        dir: node.kind.is_directory(),
        length: node.kind.length(),
        attributes: node.facts.attributes,
        created: node.facts.created,
        written: node.facts.written,
        changed: node.facts.changed,
    })
}

/// Stat: what the open file or directory is. It takes no memory.
#[tactic(auto, using(crate::proofs::Passed::unchecked_passes))]
pub fn smb_stat(state: &State, entry: &Entry, call: &SmbStat) -> Reply
    requires { 1 ≤ entry.now.session }
    ensures { (state.now, result) ≡ outcome state.now
        (at_place (handle_place state.now (handle_in entry.now call.now.index) (access_needed entry.now.call))
        (smb_stat state.now)) }
{
    let needed = access_needed(&entry.call);
    match state.handle_place(handle_in(entry, call.index), needed) {
        Ok(place) => stats(place.node),
        Err(refusal) => Reply::Refused(refusal),
    }
}

/// The reply that lists a directory.
fn names(alloc: Global, place: &HandlePlace, call: &SmbList) -> Result<Reply, NoMemory>
    ensures { IfOk result (λ reply. reply
        ≡ Smb (Names (names_page place.now.volume.tree place.now.node.id [] call.now.marker call.now.max))) }
{
    let prefix = Text::new(alloc);
    let page = place
        .volume
        .tree
        .walk_from(place.node.id, &prefix, &call.marker, call.max)?;
    Ok(Reply::Smb(SmbReply::Names { page }))
}

/// List: a page of the open directory's names, in order of folded name.
#[tactic(auto, using(crate::proofs::Passed::unchecked_passes))]
pub fn smb_list(state: &State, entry: &Entry, call: &SmbList) -> Result<Reply, NoMemory>
    requires { 1 ≤ entry.now.session }
    ensures { IfOk result (λ reply. (state.now, reply) ≡ outcome state.now
        (at_place (held_directory state.now (handle_in entry.now call.now.index) (access_needed entry.now.call))
        (smb_list state.now call.now.marker call.now.max))) }
{
    let needed = access_needed(&entry.call);
    match state.held_directory(handle_in(entry, call.index), needed) {
        Ok(place) => names(state.allocator(), &place, call),
        Err(refusal) => Ok(Reply::Refused(refusal)),
    }
}
