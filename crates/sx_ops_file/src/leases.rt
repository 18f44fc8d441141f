//! Lease File.
ghost use Rattle.std.specs.Prelude.{◌≡◌, None};
ghost use Rattle.sx_lease.specs.declared.lease.LeaseSay.{LeaseSay};
ghost use Rattle.sx_lease.specs.declared.lease.LeaseState.{LeaseState};
ghost use Rattle.sx_spec.specs.Checks.{asks_nothing, unchecked};
ghost use Rattle.sx_spec.specs.FileCalls.{lease_file, opens_against};
ghost use Rattle.sx_spec.specs.Places.{file_place};
ghost use Rattle.sx_spec.specs.Step.{at_place, outcome};
ghost use Rattle.sx_spec.specs.declared.checks.LeaseAsk.TheVariants.{Acts};

use sx_call::{Entry, LeaseAction, LeaseFile, Reply};
use sx_lease::{LeaseSay, LeaseState};
use sx_spec::{Asks, Checks, LeaseAsk, OpenAsk};
use sx_state::{FactsChange, State, asks_nothing, lease_after, lease_reply, stamp_of, unchecked};

/// What an action on a file's lease asks of the opens: one that may change the file refuses acquiring it.
fn opens_against(id: u64, action: LeaseAction) -> OpenAsk
    ensures { result ≡ opens_against id action }
{
    match action {
        LeaseAction::Acquire { .. } => OpenAsk::NoneChanging { id },
        LeaseAction::Change { .. } | LeaseAction::Release { .. } | LeaseAction::Break => {
            OpenAsk::AnyOpens
        }
    }
}

/// What an action on a file's lease is checked for: that it is granted, and what it asks of the opens.
fn action_checks(done: (LeaseState, LeaseSay), opens: OpenAsk) -> Checks
    ensures { result ≡ record unchecked { asks = record asks_nothing { lease = Acts done; opens = opens } } }
{
    Checks {
        asks: Asks {
            lease: LeaseAsk::Acts(done),
            opens,
            ..asks_nothing()
        },
        ..unchecked()
    }
}

/// Lease File: the action is granted by the state of the file's lease, and leaves another. It takes no memory.
pub fn lease_file(state: &mut State, entry: &Entry, call: &LeaseFile) -> Reply
    ensures { (state.new, result) ≡ outcome state.old (at_place (file_place state.old call.now.at None)
        (lease_file state.old call.now.action entry.now.fresh)) }
{
    let place = match state.file_place(call.at.target(), None) {
        Ok(place) => place,
        Err(refusal) => return Reply::Refused(refusal),
    };
    let done = lease_after(call.action, entry.fresh, place.node.facts.lease);
    let opens = opens_against(place.id(), call.action);
    if let Some(refusal) = state.first_check(&action_checks(done, opens)) {
        return Reply::Refused(refusal);
    }
    let (number, id, stamp) = (place.number(), place.id(), stamp_of(place.node));
    state.put_facts(number, id, FactsChange::Lease(done.0));
    lease_reply(call.action, stamp, done.0)
}
