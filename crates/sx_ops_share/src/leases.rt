//! Lease Share: actions on the lease of a share.
ghost use Rattle.std.specs.Prelude.{◌≡◌, None};
ghost use Rattle.sx_lease.specs.declared.lease.LeaseSay.{LeaseSay};
ghost use Rattle.sx_lease.specs.declared.lease.LeaseState.{LeaseState};
ghost use Rattle.sx_spec.specs.Checks.{asks_nothing, unchecked};
ghost use Rattle.sx_spec.specs.Places.{volume_at};
ghost use Rattle.sx_spec.specs.ShareCalls.{lease_share};
ghost use Rattle.sx_spec.specs.Step.{at_place, outcome};
ghost use Rattle.sx_spec.specs.declared.checks.LeaseAsk.TheVariants.{Acts};

use sx_call::{Entry, LeaseShare, Reply};
use sx_lease::{LeaseSay, LeaseState};
use sx_spec::{Asks, Checks, LeaseAsk};
use sx_state::{ShareChange, State, asks_nothing, lease_after, lease_reply, unchecked};

/// What an action on a lease is checked for: that it is granted.
fn action_checks(done: (LeaseState, LeaseSay)) -> Checks
    ensures { result ≡ record unchecked { asks = record asks_nothing { lease = Acts done } } }
{
    Checks {
        asks: Asks {
            lease: LeaseAsk::Acts(done),
            ..asks_nothing()
        },
        ..unchecked()
    }
}

/// Lease Share: the action is granted by the state of the share's lease, and leaves another. It takes no memory.
pub fn lease_share(state: &mut State, entry: &Entry, call: &LeaseShare) -> Reply
    ensures state { state.new ≡ (outcome state.old (at_place (volume_at state.old call.now.share None)
        (lease_share state.old call.now.action entry.now.fresh))).0 }
    ensures reply { result ≡ (outcome state.old (at_place (volume_at state.old call.now.share None)
        (lease_share state.old call.now.action entry.now.fresh))).1 }
{
    let place = match state.volume_at(&call.share, None) {
        Ok(place) => place,
        Err(refusal) => return Reply::Refused(refusal),
    };
    let done = lease_after(call.action, entry.fresh, place.lease);
    if let Some(refusal) = state.first_check(&action_checks(done)) {
        return Reply::Refused(refusal);
    }
    let (number, stamp) = (place.number(), place.stamp);
    state.change_share(number, ShareChange::Lease(done.0));
    lease_reply(call.action, stamp, done.0)
}
