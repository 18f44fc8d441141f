//! Calls that read a share, or a snapshot of it.
ghost use Rattle.std.specs.Prelude.{◌≡◌, IfOk};
ghost use Rattle.sx_call.specs.declared.replies.Reply.TheVariants.{Metas, ShareFacts};
ghost use Rattle.sx_spec.specs.Checks.{share_asks, unchecked};
ghost use Rattle.sx_spec.specs.Places.{volume_at};
ghost use Rattle.sx_spec.specs.ShareCalls.{get_share_metadata, get_share_properties, lease_shown};
ghost use Rattle.sx_spec.specs.Step.{at_place, outcome};

use sx_call::{Call, Entry, GetShareMetadata, GetShareProperties, Reply};
use sx_memory::NoMemory;
use sx_spec::Checks;
use sx_state::{State, Volume, lease_shown, share_asks, unchecked};

/// What a call that asks only for the lease of its share is checked for.
pub(crate) fn lease_checks(call: &Call, place: &Volume) -> Checks
    ensures { result ≡ record unchecked { asks = share_asks call.now place.now } }
{
    Checks {
        asks: share_asks(call, place),
        ..unchecked()
    }
}

/// The reply that shows the metadata of a share or snapshot.
fn metas(place: &Volume) -> Result<Reply, NoMemory>
    ensures { IfOk result (λ reply. reply ≡ Metas place.now.stamp place.now.meta) }
{
    let meta = place.meta.copy()?;
    Ok(Reply::Metas {
        stamp: place.stamp,
        meta,
    })
}

/// The reply that shows a share or snapshot.
fn share_facts(place: &Volume) -> Result<Reply, NoMemory>
    ensures { IfOk result (λ reply.
        reply ≡ ShareFacts place.now.stamp place.now.quota (lease_shown place.now.lease) place.now.meta) }
{
    let meta = place.meta.copy()?;
    Ok(Reply::ShareFacts {
        stamp: place.stamp,
        quota: place.quota,
        lease: lease_shown(place.lease),
        meta,
    })
}

/// Get Share Metadata: of the share as it stands, where its lease lets the call pass, or of a snapshot.
pub fn get_share_metadata(
    state: &State,
    entry: &Entry,
    call: &GetShareMetadata,
) -> Result<Reply, NoMemory>
    ensures { IfOk result (λ reply. (state.now, reply) ≡ outcome state.now
        (at_place (volume_at state.now call.now.share call.now.scope.snap)
        (get_share_metadata state.now entry.now.call))) }
{
    let place = match state.volume_at(&call.share, call.scope.snap) {
        Ok(place) => place,
        Err(refusal) => return Ok(Reply::Refused(refusal)),
    };
    match state.first_check(&lease_checks(&entry.call, &place)) {
        Some(refusal) => Ok(Reply::Refused(refusal)),
        None => metas(&place),
    }
}

/// Get Share Properties: quota, lease and metadata of the share as it stands, where its lease lets the call pass, or of
/// a snapshot.
pub fn get_share_properties(
    state: &State,
    entry: &Entry,
    call: &GetShareProperties,
) -> Result<Reply, NoMemory>
    ensures { IfOk result (λ reply. (state.now, reply) ≡ outcome state.now
        (at_place (volume_at state.now call.now.share call.now.scope.snap)
        (get_share_properties state.now entry.now.call))) }
{
    let place = match state.volume_at(&call.share, call.scope.snap) {
        Ok(place) => place,
        Err(refusal) => return Ok(Reply::Refused(refusal)),
    };
    match state.first_check(&lease_checks(&entry.call, &place)) {
        Some(refusal) => Ok(Reply::Refused(refusal)),
        None => share_facts(&place),
    }
}
