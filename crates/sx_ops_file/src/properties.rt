//! Set File Properties: content headers and, where they are given, length, attributes and times.
ghost use Rattle.std.specs.Prelude.{◌≡◌, IfOk, None, OnErr, OnOk};
ghost use Rattle.sx_spec.specs.Changes.{put_file};
ghost use Rattle.sx_spec.specs.Facts.{shown_of};
ghost use Rattle.sx_spec.specs.FileCalls.{changes_length, set_file_properties, with_properties};
ghost use Rattle.sx_spec.specs.Places.{file_place};
ghost use Rattle.sx_spec.specs.Step.{at_place, outcome};
ghost use Rattle.sx_spec.specs.Trees.{with_facts};
ghost use Rattle.sx_tree.specs.Body.{resized_by};

use sx_call::{Entry, FileLength, Reply, SetFileProperties, Shown, Stamp, WriteStatus};
use sx_memory::NoMemory;
use sx_names::Attributes;
use sx_state::{FactsChange, State, file_checks, time_given};
use sx_tree::{BodyChange, Node};

/// Whether a length is given that isn't the file's, in bytes.
fn changes_length(size: u64, length: Option<FileLength>) -> bool
    ensures { result ≡ changes_length size length }
{
    match length {
        Some(length) => length.bytes() != size,
        None => false,
    }
}

/// A length that is given, in bytes.
fn bytes_of(length: Option<FileLength>) -> Option<u64>
    ensures { result ≡ length }
{
    match length {
        Some(length) => Some(length.bytes()),
        None => None,
    }
}

/// The attributes that are given.
fn attributes_of(call: &SetFileProperties) -> Option<Attributes>
    ensures { result ≡ call.now.attributes }
{
    match call.attributes {
        Some(attributes) => Some(attributes.attributes()),
        None => None,
    }
}

/// What is shown of a file that gets properties.
fn shown_with(now: &Stamp, resized: bool, node: &Node, call: &SetFileProperties) -> Shown
    ensures { result ≡ shown_of (with_facts
        (with_properties now.now resized call.now.attributes call.now.created call.now.written) node.now) }
{
    let kept = if resized {
        now.changed
    } else {
        node.facts.written
    };
    Shown {
        attributes: attributes_of(call).unwrap_or(node.facts.attributes),
        created: time_given(now.changed, node.facts.created, call.created),
        written: time_given(now.changed, kept, call.written),
        changed: now.changed,
        id: node.id,
        parent: node.parent,
    }
}

/// Gives a file properties.
fn put_properties(
    state: &mut State,
    now: &Stamp,
    resized: bool,
    number: u32,
    id: u64,
    call: &SetFileProperties,
) -> Result<(), NoMemory>
    ensures ok { OnOk result (state.new ≡ put_file number id
        (λ old. record { ranges = resized_by call.now.length old.ranges; content = call.now.content })
        (with_properties now.now resized call.now.attributes call.now.created call.now.written) state.old) }
    ensures err { OnErr result (state.new ≡ state.old) }
{
    let content = call.content.copy()?;
    let body = BodyChange::Reshape {
        length: bytes_of(call.length),
        content,
    };
    let facts = FactsChange::Properties {
        now: *now,
        resized,
        attributes: attributes_of(call),
        created: call.created,
        written: call.written,
    };
    state.put_file(number, id, body, facts)
}

/// Set File Properties: it replaces the six content headers, and what it gives of length, attributes and times.
pub fn set_file_properties(
    state: &mut State,
    now: &Stamp,
    entry: &Entry,
    call: &SetFileProperties,
) -> Result<Reply, NoMemory>
    ensures ok { IfOk result (λ reply. (state.new, reply) ≡ outcome state.old
        (at_place (file_place state.old call.now.at None)
        (set_file_properties state.old now.now entry.now.call call.now.length call.now.content call.now.attributes
        call.now.created call.now.written))) }
    ensures err { OnErr result (state.new ≡ state.old) }
{
    let place = match state.file_place(call.at.target(), None) {
        Ok(place) => place,
        Err(refusal) => return Ok(Reply::Refused(refusal)),
    };
    if let Some(refusal) = state.first_check(&file_checks(&entry.call, &place)) {
        return Ok(Reply::Refused(refusal));
    }
    let (number, id) = (place.number(), place.id());
    let resized = changes_length(place.body.ranges.length(), call.length);
    let shown = shown_with(now, resized, place.node, call);
    put_properties(state, now, resized, number, id, call)?;
    Ok(Reply::Made {
        status: WriteStatus::ok(),
        stamp: *now,
        facts: shown,
    })
}
