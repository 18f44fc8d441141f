//! Calls that read and write the bytes of an open file, or set its length.
ghost use Rattle.std.specs.Prelude.{◌≡◌, ◌==◌, ◌≤◌, if◌then◌else◌, IfOk, OnErr, OnOk, length};
ghost use Rattle.sx_spec.specs.Changes.{put_file};
ghost use Rattle.sx_spec.specs.Checks.{first_check, held_checks};
ghost use Rattle.sx_spec.specs.Facts.{length_of, with_stamp, with_write};
ghost use Rattle.sx_spec.specs.Needs.{access_needed};
ghost use Rattle.sx_spec.specs.Places.{held_file};
ghost use Rattle.sx_spec.specs.SessionCalls.{smb_read, smb_resize, smb_write};
ghost use Rattle.sx_spec.specs.Step.{at_place, handle_in, outcome};
ghost use Rattle.sx_tree.specs.Body.{resize_within, with_ranges, write_within};

use crate::places::handle_in;
use sx_call::{Entry, HandleWrite, Refusal, Reply, SmbRead, SmbReply, SmbResize, SmbWrite, Stamp};
use sx_memory::NoMemory;
use sx_state::{FactsChange, HeldFile, State, access_needed, held_checks, view_within};
use sx_tree::{BodyChange, FileBody};

/// The refusal of a call on an open file, if a lock or the share's quota refuses it.
fn refusal_of(state: &State, entry: &Entry, place: &HeldFile) -> Option<Refusal>
    ensures { result ≡ first_check state.now (held_checks entry.now.call place.now) }
{
    state.first_check(&held_checks(&entry.call, place))
}

/// Read: the bytes that are asked for, as far as they lie in the file; none at or past its end.
pub fn smb_read(state: &State, entry: &Entry, call: &SmbRead) -> Result<Reply, NoMemory>
    requires { 1 ≤ entry.now.session }
    ensures { IfOk result (λ reply. (state.now, reply) ≡ outcome state.now
        (at_place (held_file state.now (handle_in entry.now call.now.index) (access_needed entry.now.call))
        (smb_read state.now entry.now.call call.now.range.at call.now.range.count))) }
{
    let needed = access_needed(&entry.call);
    let place = match state.held_file(handle_in(entry, call.index), needed) {
        Ok(place) => place,
        Err(refusal) => return Ok(Reply::Refused(refusal)),
    };
    if let Some(refusal) = refusal_of(state, entry, &place) {
        return Ok(Reply::Refused(refusal));
    }
    let view = view_within(&place.body.ranges, call.range.at, call.range.end())?;
    Ok(Reply::Smb(SmbReply::Bytes { view }))
}

/// The length of a file behind a write, which may make it longer.
#[tactic(auto, using(crate::proofs::Lengths::length_written))]
fn length_behind(body: &FileBody, write: &HandleWrite) -> u64
    ensures { result ≡ length_of (with_ranges (write_within write.now.at write.now.piece) body.now) }
{
    body.ranges.length().max(write.end())
}

/// Writes bytes into a file, which may make it longer, and sets the stamp and the last write time.
fn write(
    state: &mut State,
    now: &Stamp,
    number: u32,
    id: u64,
    write: &HandleWrite,
) -> Result<(), NoMemory>
    ensures ok { OnOk result (state.new ≡ put_file number id
        (with_ranges (write_within write.now.at write.now.piece)) (with_write now.now) state.old) }
    ensures err { OnErr result (state.new ≡ state.old) }
{
    let Ok(piece) = write.piece.copy() else {
        return Err(NoMemory);
    };
    let change = BodyChange::Write {
        at: write.at,
        piece,
    };
    state.put_file(number, id, change, FactsChange::Written(*now))
}

/// How many bytes a write has.
fn count_of(write: &HandleWrite) -> u32
    ensures { result ≡ length write.now.piece }
{
    write.piece.bytes().len() as u32
}

/// Write: it writes the bytes, which may make the file longer, and sets the stamp and the last write time.
pub fn smb_write(
    state: &mut State,
    now: &Stamp,
    entry: &Entry,
    call: &SmbWrite,
) -> Result<Reply, NoMemory>
    requires { 1 ≤ entry.now.session }
    ensures ok { IfOk result (λ reply. (state.new, reply) ≡ outcome state.old
        (at_place (held_file state.old (handle_in entry.now call.now.index) (access_needed entry.now.call))
        (smb_write state.old now.now entry.now.call call.now.write.at call.now.write.piece))) }
    ensures err { OnErr result (state.new ≡ state.old) }
{
    let needed = access_needed(&entry.call);
    let place = match state.held_file(handle_in(entry, call.index), needed) {
        Ok(place) => place,
        Err(refusal) => return Ok(Reply::Refused(refusal)),
    };
    if let Some(refusal) = refusal_of(state, entry, &place) {
        return Ok(Reply::Refused(refusal));
    }
    let (number, id) = (place.number(), place.id());
    let length = length_behind(place.body, &call.write);
    write(state, now, number, id, &call.write)?;
    Ok(Reply::Smb(SmbReply::Wrote {
        count: count_of(&call.write),
        length,
    }))
}

/// Gives a file a length, and the stamp; where the length isn't the same it sets the last write time, too.
fn resize(
    state: &mut State,
    now: &Stamp,
    number: u32,
    id: u64,
    bytes: u64,
    same: bool,
) -> Result<(), NoMemory>
    ensures ok { OnOk result (state.new ≡ put_file number id (with_ranges (resize_within bytes))
        (if same then with_stamp now.now else with_write now.now) state.old) }
    ensures err { OnErr result (state.new ≡ state.old) }
{
    if same {
        return state.put_file(
            number,
            id,
            BodyChange::Resize(bytes),
            FactsChange::Stamped(*now),
        );
    }
    state.put_file(
        number,
        id,
        BodyChange::Resize(bytes),
        FactsChange::Written(*now),
    )
}

/// Whether a file has so many bytes.
fn has_length(body: &FileBody, bytes: u64) -> bool
    ensures { result ≡ (bytes == length_of body.now) }
{
    bytes == body.ranges.length()
}

/// Resize: it sets the length and the stamp, and where the length changes the last write time.
pub fn smb_resize(
    state: &mut State,
    now: &Stamp,
    entry: &Entry,
    call: &SmbResize,
) -> Result<Reply, NoMemory>
    requires { 1 ≤ entry.now.session }
    ensures ok { IfOk result (λ reply. (state.new, reply) ≡ outcome state.old
        (at_place (held_file state.old (handle_in entry.now call.now.index) (access_needed entry.now.call))
        (smb_resize state.old now.now entry.now.call call.now.length))) }
    ensures err { OnErr result (state.new ≡ state.old) }
{
    let needed = access_needed(&entry.call);
    let place = match state.held_file(handle_in(entry, call.index), needed) {
        Ok(place) => place,
        Err(refusal) => return Ok(Reply::Refused(refusal)),
    };
    if let Some(refusal) = refusal_of(state, entry, &place) {
        return Ok(Reply::Refused(refusal));
    }
    let (number, id) = (place.number(), place.id());
    let length = call.length.bytes();
    let same = has_length(place.body, length);
    resize(state, now, number, id, length, same)?;
    Ok(Reply::Smb(SmbReply::Resized { length }))
}
