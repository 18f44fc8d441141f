//! The call of an entry, by its door.
ghost use Rattle.std.specs.Prelude.{◌≡◌, ◌+◌, ◌<◌, ◌^◌, AllPairs, IfOk, IsOk, OnErr, length, true};
ghost use Rattle.sx_call.specs.Calls.{door_of};
ghost use Rattle.sx_call.specs.declared.calls.Call.TheVariants.{End};
ghost use Rattle.sx_guard.specs.Handle.{handle_before};
ghost use Rattle.sx_ops.specs.Ready.{CanGive, NamesSession};
ghost use Rattle.sx_spec.specs.Step.{act_of, outcome};
ghost use Rattle.sx_state.specs.Ids.{CanGrant, IsFresh};

use crate::rest::serve_rest;
use crate::sessions::serve_session;
use sx_call::{Door, Entry, Reply, Stamp};
use sx_memory::NoMemory;
use sx_state::State;

/// Does what an entry does to the state of the account, and answers it. `now` is the entry's stamp.
///
/// Where memory runs out the state is as it was. The end of a session takes none.
pub fn serve(state: &mut State, now: &Stamp, entry: &Entry) -> Result<Reply, NoMemory>
    requires fresh { IsFresh state.old }
    requires ids { state.old.next_id + 1 < 2 ^ 64 }
    requires granted { CanGrant state.old }
    requires started { state.old.started + 1 < 2 ^ 32 }
    requires made { state.old.made + 1 < 2 ^ 32 }
    requires few { length state.old.opens < 2 ^ 32 }
    requires order { AllPairs (λ o q. handle_before o.handle q.handle ≡ true) state.old.opens }
    requires given { CanGive state.old }
    requires session { NamesSession (door_of entry.now.call) entry.now.session }
    ensures ok { IfOk result (λ reply.
        (state.new, reply) ≡ outcome state.old (act_of state.old now.now entry.now entry.now.call)) }
    ensures err { OnErr result (state.new ≡ state.old) }
    ensures ends { entry.now.call ≡ End → IsOk result }
{
    match entry.call.door() {
        Door::Rest => serve_rest(state, now, entry),
        Door::Starts | Door::Ends | Door::InSession => serve_session(state, now, entry),
    }
}
