//! What the actions on leases, of shares and of files, leave and are answered.
ghost use Rattle.std.specs.Prelude.{◌≡◌};
ghost use Rattle.sx_spec.specs.ShareCalls.{drawn_id, lease_after, lease_reply, lease_shown};

use sx_call::{LeaseAction, LeaseShown, LeaseStatus, Reply, Stamp};
use sx_lease::{LeaseId, LeaseSay, LeaseState};

/// The lease id that is made from a number drawn at random.
fn drawn_id(fresh: u128) -> LeaseId
    ensures { result ≡ drawn_id fresh }
{
    LeaseId::from_random(fresh)
}

/// The state that an action leaves, and its answer; acquire takes the proposed id, or one made from a number that was
/// drawn at random.
pub fn lease_after(action: LeaseAction, fresh: u128, state: LeaseState) -> (LeaseState, LeaseSay)
    ensures { result ≡ lease_after action fresh state }
{
    let mut after = state;
    match action {
        LeaseAction::Acquire { proposed } => {
            let say = after.acquire(proposed.unwrap_or(drawn_id(fresh)));
            (after, say)
        }
        LeaseAction::Change { id, to } => {
            let say = after.change(id, to);
            (after, say)
        }
        LeaseAction::Release { id } => {
            let say = after.release(id);
            (after, say)
        }
        LeaseAction::Break => {
            let say = after.break_now();
            (after, say)
        }
    }
}

/// The reply to an action that left a state.
pub fn lease_reply(action: LeaseAction, stamp: Stamp, state: LeaseState) -> Reply
    ensures { result ≡ lease_reply action stamp state }
{
    match action {
        LeaseAction::Acquire { .. } => Reply::LeaseDone {
            status: LeaseStatus::created(),
            stamp,
            id: state.holder(),
        },
        LeaseAction::Change { .. } => Reply::LeaseDone {
            status: LeaseStatus::ok(),
            stamp,
            id: state.holder(),
        },
        LeaseAction::Release { .. } => Reply::LeaseDone {
            status: LeaseStatus::ok(),
            stamp,
            id: None,
        },
        LeaseAction::Break => Reply::LeaseDone {
            status: LeaseStatus::accepted(),
            stamp,
            id: None,
        },
    }
}

/// What a reply shows of a lease.
pub fn lease_shown(state: LeaseState) -> LeaseShown
    ensures { result ≡ lease_shown state }
{
    match state {
        LeaseState::Available => LeaseShown::Available,
        LeaseState::Leased(_) => LeaseShown::Leased,
        LeaseState::Broken => LeaseShown::Broken,
    }
}
