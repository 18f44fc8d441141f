//! Calls that change a file or directory that is there.
ghost use Rattle.std.specs.Prelude.{◌≡◌, IfOk, None, OnErr, not};
ghost use Rattle.sx_spec.specs.Checks.{refuse_if};
ghost use Rattle.sx_spec.specs.FileCalls.{clear_range, delete_directory, delete_file, set_directory_metadata};
ghost use Rattle.sx_spec.specs.FileCalls.{set_file_metadata, update_range};
ghost use Rattle.sx_spec.specs.Places.{directory_place, file_place};
ghost use Rattle.sx_spec.specs.Step.{at_place, outcome};
ghost use Rattle.sx_tree.specs.Tree.{is_empty};

use sx_call::{
    ClearRange, DeleteDirectory, DeleteFile, Entry, Reply, SetDirectoryMetadata, SetFileMetadata,
    Stamp, UpdateRange, WriteStatus,
};
use sx_memory::NoMemory;
use sx_spec::{Asks, Checks, OpenAsk};
use sx_state::{
    FactsChange, NodePlace, State, access_needed, all_shared, asks_nothing, file_checks, unchecked,
};
use sx_tree::BodyChange;

/// Put Range, update: it writes the bytes, and sets the stamp and the last write time.
pub fn update_range(
    state: &mut State,
    now: &Stamp,
    entry: &Entry,
    call: &UpdateRange,
) -> Result<Reply, NoMemory>
    ensures ok { IfOk result (λ reply. (state.new, reply) ≡ outcome state.old
        (at_place (file_place state.old call.now.at None)
        (update_range state.old now.now entry.now.call call.now.update.from call.now.update.piece))) }
    ensures err { OnErr result (state.new ≡ state.old) }
{
    let place = match state.file_place(call.at.target(), None) {
        Ok(place) => place,
        Err(refusal) => return Ok(Reply::Refused(refusal)),
    };
    if let Some(refusal) = state.first_check(&file_checks(&entry.call, &place)) {
        return Ok(Reply::Refused(refusal));
    }
    let (number, id) = (place.number(), place.id());
    let Ok(piece) = call.update.piece.copy() else {
        return Err(NoMemory);
    };
    let change = BodyChange::Update {
        at: call.update.from,
        piece,
    };
    state.put_file(number, id, change, FactsChange::Written(*now))?;
    Ok(Reply::Stamped {
        status: WriteStatus::created(),
        stamp: *now,
    })
}

/// Put Range, clear: it clears the bytes, and sets the stamp and the last write time.
pub fn clear_range(
    state: &mut State,
    now: &Stamp,
    entry: &Entry,
    call: &ClearRange,
) -> Result<Reply, NoMemory>
    ensures ok { IfOk result (λ reply. (state.new, reply) ≡ outcome state.old
        (at_place (file_place state.old call.now.at None)
        (clear_range state.old now.now entry.now.call call.now.range.from call.now.range.end))) }
    ensures err { OnErr result (state.new ≡ state.old) }
{
    let place = match state.file_place(call.at.target(), None) {
        Ok(place) => place,
        Err(refusal) => return Ok(Reply::Refused(refusal)),
    };
    if let Some(refusal) = state.first_check(&file_checks(&entry.call, &place)) {
        return Ok(Reply::Refused(refusal));
    }
    let (number, id) = (place.number(), place.id());
    let cleared = BodyChange::Clear {
        from: call.range.from,
        end: call.range.end,
    };
    state.put_file(number, id, cleared, FactsChange::Written(*now))?;
    Ok(Reply::Stamped {
        status: WriteStatus::created(),
        stamp: *now,
    })
}

/// Set File Metadata: it replaces the metadata, and sets the stamp.
pub fn set_file_metadata(
    state: &mut State,
    now: &Stamp,
    entry: &Entry,
    call: &SetFileMetadata,
) -> Result<Reply, NoMemory>
    ensures ok { IfOk result (λ reply. (state.new, reply) ≡ outcome state.old
        (at_place (file_place state.old call.now.at None)
        (set_file_metadata state.old now.now entry.now.call call.now.meta))) }
    ensures err { OnErr result (state.new ≡ state.old) }
{
    let place = match state.file_place(call.at.target(), None) {
        Ok(place) => place,
        Err(refusal) => return Ok(Reply::Refused(refusal)),
    };
    if let Some(refusal) = state.first_check(&file_checks(&entry.call, &place)) {
        return Ok(Reply::Refused(refusal));
    }
    let (number, id) = (place.number(), place.id());
    let meta = call.meta.copy()?;
    state.put_facts(number, id, FactsChange::Metadata(*now, meta));
    Ok(Reply::Stamped {
        status: WriteStatus::ok(),
        stamp: *now,
    })
}

/// Delete File: the file goes where nothing is open on it, and else is pending. It takes no memory.
pub fn delete_file(state: &mut State, entry: &Entry, call: &DeleteFile) -> Reply
    ensures { (state.new, result) ≡ outcome state.old
        (at_place (file_place state.old call.now.at None) (delete_file state.old entry.now.call)) }
{
    let place = match state.file_place(call.at.target(), None) {
        Ok(place) => place,
        Err(refusal) => return Reply::Refused(refusal),
    };
    if let Some(refusal) = state.first_check(&file_checks(&entry.call, &place)) {
        return Reply::Refused(refusal);
    }
    let (number, id) = (place.number(), place.id());
    state.delete_at(number, id);
    Reply::Gone
}

/// Set Directory Metadata: it replaces the metadata, and sets the stamp.
#[tactic(auto, using(crate::proofs::Passed::unchecked_passes))]
pub fn set_directory_metadata(
    state: &mut State,
    now: &Stamp,
    call: &SetDirectoryMetadata,
) -> Result<Reply, NoMemory>
    ensures ok { IfOk result (λ reply. (state.new, reply) ≡ outcome state.old
        (at_place (directory_place state.old call.now.at None)
        (set_directory_metadata state.old now.now call.now.meta))) }
    ensures err { OnErr result (state.new ≡ state.old) }
{
    let place = match state.directory_place(&call.at, None) {
        Ok(place) => place,
        Err(refusal) => return Ok(Reply::Refused(refusal)),
    };
    let (number, id) = (place.number(), place.id());
    let meta = call.meta.copy()?;
    state.put_facts(number, id, FactsChange::Metadata(*now, meta));
    Ok(Reply::Stamped {
        status: WriteStatus::ok(),
        stamp: *now,
    })
}

/// The id of a directory that isn't empty.
fn not_empty(place: &NodePlace) -> Option<u64>
    ensures { result ≡ refuse_if (not (is_empty place.now.volume.tree place.now.node.id)) place.now.node.id }
{
    if !place.volume.tree.is_empty(place.node.id) {
        return Some(place.node.id);
    }
    None
}

/// Delete Directory: the directory, which is to be empty, goes where nothing is open on it, and else is pending. It
/// takes no memory.
pub fn delete_directory(state: &mut State, entry: &Entry, call: &DeleteDirectory) -> Reply
    ensures { (state.new, result) ≡ outcome state.old
        (at_place (directory_place state.old call.now.at None) (delete_directory state.old entry.now.call)) }
{
    let place = match state.directory_place(call.at.target(), None) {
        Ok(place) => place,
        Err(refusal) => return Reply::Refused(refusal),
    };
    let opens = OpenAsk::Beside {
        id: place.node.id,
        access: access_needed(&entry.call),
        mode: all_shared(),
    };
    let checks = Checks {
        empty: not_empty(&place),
        asks: Asks {
            opens,
            ..asks_nothing()
        },
        ..unchecked()
    };
    if let Some(refusal) = state.first_check(&checks) {
        return Reply::Refused(refusal);
    }
    let (number, directory) = (place.number(), place.id());
    state.delete_at(number, directory);
    Reply::Gone
}
