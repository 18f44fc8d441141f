//! Calls that change a share that is there.
ghost use Rattle.std.specs.Prelude.{◌≡◌, IfOk, None, OnErr};
ghost use Rattle.sx_spec.specs.Places.{volume_at};
ghost use Rattle.sx_spec.specs.ShareCalls.{set_share_metadata, set_share_properties};
ghost use Rattle.sx_spec.specs.Step.{at_place, outcome};

use crate::reading::lease_checks;
use sx_call::{Entry, Reply, SetShareMetadata, SetShareProperties, Stamp, WriteStatus};
use sx_memory::NoMemory;
use sx_state::{ShareChange, State};

/// Set Share Metadata: it replaces the metadata, and sets the stamp.
pub fn set_share_metadata(
    state: &mut State,
    now: &Stamp,
    entry: &Entry,
    call: &SetShareMetadata,
) -> Result<Reply, NoMemory>
    ensures ok { IfOk result (λ reply. (state.new, reply) ≡ outcome state.old
        (at_place (volume_at state.old call.now.share None)
        (set_share_metadata state.old now.now entry.now.call call.now.meta))) }
    ensures err { OnErr result (state.new ≡ state.old) }
{
    let place = match state.volume_at(&call.share, None) {
        Ok(place) => place,
        Err(refusal) => return Ok(Reply::Refused(refusal)),
    };
    if let Some(refusal) = state.first_check(&lease_checks(&entry.call, &place)) {
        return Ok(Reply::Refused(refusal));
    }
    let number = place.number();
    let meta = call.meta.copy()?;
    state.change_share(number, ShareChange::Metadata(*now, meta));
    Ok(Reply::Stamped {
        status: WriteStatus::ok(),
        stamp: *now,
    })
}

/// Set Share Properties: it replaces the quota, and sets the stamp. It takes no memory.
pub fn set_share_properties(
    state: &mut State,
    now: &Stamp,
    entry: &Entry,
    call: &SetShareProperties,
) -> Reply
    ensures { (state.new, result) ≡ outcome state.old
        (at_place (volume_at state.old call.now.share None)
        (set_share_properties state.old now.now entry.now.call call.now.quota)) }
{
    let place = match state.volume_at(&call.share, None) {
        Ok(place) => place,
        Err(refusal) => return Reply::Refused(refusal),
    };
    if let Some(refusal) = state.first_check(&lease_checks(&entry.call, &place)) {
        return Reply::Refused(refusal);
    }
    let number = place.number();
    state.change_share(number, ShareChange::Quota(*now, call.quota));
    Reply::Stamped {
        status: WriteStatus::ok(),
        stamp: *now,
    }
}
