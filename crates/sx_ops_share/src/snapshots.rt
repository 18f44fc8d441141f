//! Calls that make and delete snapshots.
ghost use Rattle.std.specs.Prelude.{◌≡◌, ◌<◌, IfOk, IfSome, OnErr, Some, length, nat_le};
ghost use Rattle.sx_base.specs.Moment.{greatest_written};
ghost use Rattle.sx_spec.specs.Checks.{refuse_if, unchecked};
ghost use Rattle.sx_spec.specs.Places.{share_at, volume_at};
ghost use Rattle.sx_spec.specs.ShareCalls.{delete_snapshot, most_snapshots, snapshot_share};
ghost use Rattle.sx_spec.specs.Shares.{next_moment, share_stamp};
ghost use Rattle.sx_spec.specs.Step.{at_place, outcome};
ghost use Rattle.sx_spec.specs.declared.checks.Limit.TheVariants.{TooManySnapshots};

use sx_call::{DeleteSnapshot, Reply, SnapshotShare, Stamp};
use sx_memory::NoMemory;
use sx_moment::Moment;
use sx_spec::{Checks, Limit};
use sx_state::{State, unchecked};
use sx_tree::Share;

/// The most snapshots of a share.
const MOST_SNAPSHOTS: u64 = 200;

/// Delete Share of a snapshot: the one of this moment goes. It takes no memory.
#[tactic(auto, using(crate::proofs::Passed::unchecked_passes))]
pub fn delete_snapshot(state: &mut State, call: &DeleteSnapshot) -> Reply
    ensures { (state.new, result) ≡ outcome state.old
        (at_place (volume_at state.old call.now.share (Some call.now.moment))
        (delete_snapshot state.old call.now.moment)) }
{
    let place = match state.volume_at(&call.share, Some(call.moment)) {
        Ok(place) => place,
        Err(refusal) => return Reply::Refused(refusal),
    };
    let number = place.number();
    state.drop_snapshot(number, call.moment);
    Reply::Gone
}

/// The moment of a new snapshot: the entry's, or one tick after the one last given in the share where that is later.
fn next_moment(at: Moment, given: Option<Moment>) -> Moment
    requires { IfSome given (λ last. last < greatest_written) }
    ensures { result ≡ next_moment at given }
{
    match given {
        None => at,
        Some(last) => Moment::of(at.ticks().max(last.ticks() + 1)),
    }
}

/// When a share was changed last, and by the entry at which place.
fn share_stamp(share: &Share) -> Stamp
    ensures { result ≡ share_stamp share.now }
{
    Stamp {
        changed: share.changed,
        etag: share.etag,
    }
}

/// All that Snapshot Share is checked for: the share has fewer than 200 snapshots.
fn snapshot_checks(share: &Share) -> Checks
    ensures { result ≡ record unchecked {
      limits = refuse_if (nat_le most_snapshots (length share.now.snapshots))
          (TooManySnapshots (length share.now.snapshots));
    } }
{
    let n = share.snapshots.len() as u64;
    let full = MOST_SNAPSHOTS <= n;
    Checks {
        limits: full.then_some(Limit::TooManySnapshots { n }),
        ..unchecked()
    }
}

/// Snapshot Share: a snapshot of the share as it stands, at the entry's moment or one tick after the moment last given,
/// with the metadata that is given or else the share's. There is to be such a tick.
pub fn snapshot_share(
    state: &mut State,
    now: &Stamp,
    call: &SnapshotShare,
) -> Result<Reply, NoMemory>
    requires { IfOk (share_at state.old call.now.share) (λ place.
        IfSome place.1.given (λ last. last < greatest_written)) }
    ensures ok { IfOk result (λ reply. (state.new, reply) ≡ outcome state.old
        (at_place (share_at state.old call.now.share) (snapshot_share state.old now.now call.now.meta))) }
    ensures err { OnErr result (state.new ≡ state.old) }
{
    let place = match state.share_at(&call.share) {
        Ok(place) => place,
        Err(refusal) => return Ok(Reply::Refused(refusal)),
    };
    if let Some(refusal) = state.first_check(&snapshot_checks(place.share)) {
        return Ok(Reply::Refused(refusal));
    }
    let number = place.number();
    let moment = next_moment(now.changed, place.share.given);
    let stamp = share_stamp(place.share);
    state.add_snapshot(number, moment, &call.meta)?;
    Ok(Reply::Snapped { moment, stamp })
}
