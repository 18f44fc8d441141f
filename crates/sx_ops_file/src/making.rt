//! Calls that make directories and files.
ghost use Rattle.std.specs.Prelude.{◌≡◌, ◌+◌, ◌<◌, ◌^◌, IfOk, OnErr, OnOk};
ghost use Rattle.sx_call.specs.declared.replies.Reply.TheVariants.{Made};
ghost use Rattle.sx_spec.specs.Changes.{make_node, put_file};
ghost use Rattle.sx_spec.specs.Facts.{facts_over, new_facts, new_file, shown_of, stamp_of};
ghost use Rattle.sx_spec.specs.FileCalls.{create_directory, create_file, new_node};
ghost use Rattle.sx_spec.specs.Step.{outcome};
ghost use Rattle.sx_spec.specs.Trees.{with_facts};
ghost use Rattle.sx_state.specs.Ids.{IsFresh};
ghost use Rattle.sx_tree.specs.declared.node.Kind.TheVariants.{Directory, File};

use std::alloc::Global;
use sx_call::{CreateDirectory, CreateFile, Entry, Refusal, Reply, Shown, Stamp, WriteStatus};
use sx_extent::Ranges;
use sx_memory::NoMemory;
use sx_names::Part;
use sx_state::{FactsChange, NodePlace, State, Where, file_checks, new_facts, shown_of, stamp_of};
use sx_tree::{BodyChange, Facts, FileBody, Kind, Node};

/// Makes a node of the next file id under a name in a directory, and shows it.
fn make(
    state: &mut State,
    number: u32,
    parent: u64,
    name: &Part,
    facts: Facts,
    kind: Kind,
) -> Result<Reply, NoMemory>
    requires fresh { IsFresh state.old }
    requires ids { state.old.next_id + 1 < 2 ^ 64 }
    ensures ok { OnOk result (state.new ≡ make_node number name.now (new_node state.old parent facts kind) state.old) }
    ensures reply { IfOk result (λ reply. reply ≡ Made 201 (stamp_of (new_node state.old parent facts kind))
        (shown_of (new_node state.old parent facts kind))) }
    ensures err { OnErr result (state.new ≡ state.old) }
{
    let node = Node {
        id: state.next_id(),
        parent,
        facts,
        kind,
    };
    let reply = Reply::Made {
        status: WriteStatus::created(),
        stamp: stamp_of(&node),
        facts: shown_of(&node),
    };
    let name = name.copy()?;
    state.make_node(number, name, node)?;
    Ok(reply)
}

/// Create Directory: its name is to be free.
#[tactic(auto, using(crate::proofs::Passed::unchecked_passes))]
pub fn create_directory(
    state: &mut State,
    now: &Stamp,
    call: &CreateDirectory,
) -> Result<Reply, NoMemory>
    requires fresh { IsFresh state.old }
    requires ids { state.old.next_id + 1 < 2 ^ 64 }
    ensures ok { IfOk result (λ reply. (state.new, reply) ≡ outcome state.old (create_directory state.old now.now
        call.now.at call.now.attributes call.now.created call.now.written call.now.meta)) }
    ensures err { OnErr result (state.new ≡ state.old) }
{
    let place = match state.making_place(call.at.target()) {
        Ok(place) => place,
        Err(refusal) => return Ok(Reply::Refused(refusal)),
    };
    let number = place.volume.number;
    match place.spot.at {
        Where::Taken(node) => Ok(Reply::Refused(Refusal::NameThere { id: node.id })),
        Where::Free(parent, name) => {
            let attributes = call.attributes.attributes();
            let meta = call.meta.copy()?;
            let facts = new_facts(*now, attributes, call.created, call.written, meta);
            make(state, number, parent, name, facts, Kind::Directory)
        }
    }
}

/// The body of the file that Create File makes: zeros with no mark.
fn new_body(alloc: Global, call: &CreateFile) -> Result<FileBody, NoMemory>
    ensures { IfOk result (λ body. body ≡ new_file call.now.length call.now.content) }
{
    let content = call.content.copy()?;
    Ok(FileBody {
        ranges: Ranges::new(alloc, call.length.bytes()),
        content,
    })
}

/// The facts of the file that Create File makes.
fn file_facts(now: &Stamp, call: &CreateFile) -> Result<Facts, NoMemory>
    ensures { IfOk result (λ facts. facts
        ≡ new_facts now.now call.now.attributes call.now.created call.now.written call.now.meta) }
{
    let meta = call.meta.copy()?;
    Ok(new_facts(
        *now,
        call.attributes.attributes(),
        call.created,
        call.written,
        meta,
    ))
}

/// Makes the file of Create File under a name that is free in a directory.
fn make_file(
    state: &mut State,
    now: &Stamp,
    number: u32,
    parent: u64,
    name: &Part,
    call: &CreateFile,
) -> Result<Reply, NoMemory>
    requires fresh { IsFresh state.old }
    requires ids { state.old.next_id + 1 < 2 ^ 64 }
    ensures ok { OnOk result (state.new ≡ make_node number name.now (new_node state.old parent
        (new_facts now.now call.now.attributes call.now.created call.now.written call.now.meta)
        (File (new_file call.now.length call.now.content))) state.old) }
    ensures reply { IfOk result (λ reply. reply ≡ Made 201
        (stamp_of (new_node state.old parent
        (new_facts now.now call.now.attributes call.now.created call.now.written call.now.meta)
        (File (new_file call.now.length call.now.content))))
        (shown_of (new_node state.old parent
        (new_facts now.now call.now.attributes call.now.created call.now.written call.now.meta)
        (File (new_file call.now.length call.now.content))))) }
    ensures err { OnErr result (state.new ≡ state.old) }
{
    let facts = file_facts(now, call)?;
    let body = new_body(state.allocator(), call)?;
    make(state, number, parent, name, facts, Kind::File(body))
}

/// What is shown of a file over which Create File makes its own.
fn shown_over(now: &Stamp, node: &Node, call: &CreateFile) -> Shown
    ensures { result ≡ shown_of (with_facts
        (facts_over now.now call.now.attributes call.now.created call.now.written call.now.meta) node.now) }
{
    Shown {
        attributes: call.attributes.attributes(),
        created: call.created.unwrap_or(now.changed),
        written: call.written.unwrap_or(now.changed),
        changed: now.changed,
        id: node.id,
        parent: node.parent,
    }
}

/// Puts the file of Create File over one that is there.
fn write_over(
    state: &mut State,
    now: &Stamp,
    number: u32,
    id: u64,
    call: &CreateFile,
) -> Result<(), NoMemory>
    ensures ok { OnOk result (state.new ≡ put_file number id (λ old. new_file call.now.length call.now.content)
        (facts_over now.now call.now.attributes call.now.created call.now.written call.now.meta) state.old) }
    ensures err { OnErr result (state.new ≡ state.old) }
{
    let body = new_body(state.allocator(), call)?;
    let meta = call.meta.copy()?;
    let facts = FactsChange::Over {
        now: *now,
        attributes: call.attributes.attributes(),
        created: call.created,
        written: call.written,
        meta,
    };
    state.put_file(number, id, BodyChange::Replace(body), facts)
}

/// Create File: where its name is free it makes a file, and else it replaces the file that is there.
#[tactic(auto, using(crate::proofs::Passed::unchecked_passes))]
pub fn create_file(
    state: &mut State,
    now: &Stamp,
    entry: &Entry,
    call: &CreateFile,
) -> Result<Reply, NoMemory>
    requires fresh { IsFresh state.old }
    requires ids { state.old.next_id + 1 < 2 ^ 64 }
    ensures ok { IfOk result (λ reply. (state.new, reply) ≡ outcome state.old
        (create_file state.old now.now entry.now.call call.now.at (new_file call.now.length call.now.content)
        call.now.attributes call.now.created call.now.written call.now.meta)) }
    ensures err { OnErr result (state.new ≡ state.old) }
{
    let place = match state.making_place(call.at.target()) {
        Ok(place) => place,
        Err(refusal) => return Ok(Reply::Refused(refusal)),
    };
    let number = place.volume.number;
    match place.spot.at {
        Where::Free(parent, name) => make_file(state, now, number, parent, name, call),
        Where::Taken(node) => {
            let place = NodePlace {
                volume: place.volume,
                node,
            };
            let place = match place.file(None) {
                Ok(place) => place,
                Err(refusal) => return Ok(Reply::Refused(refusal)),
            };
            if let Some(refusal) = state.first_check(&file_checks(&entry.call, &place)) {
                return Ok(Reply::Refused(refusal));
            }
            let (id, shown) = (place.id(), shown_over(now, place.node, call));
            write_over(state, now, number, id, call)?;
            Ok(Reply::Made {
                status: WriteStatus::created(),
                stamp: *now,
                facts: shown,
            })
        }
    }
}
