//! What an entry does to the state of the account, and its reply.
ghost use Rattle.std.specs.Prelude.{◌≡◌, ◌+◌, ◌<◌, ◌^◌, IfOk, OnErr, IsOk, true};
ghost use Rattle.sx_call.specs.Calls.{door_of};
ghost use Rattle.sx_call.specs.declared.calls.Call.TheVariants as Call;
ghost use Rattle.sx_spec.specs.History.{stands_in};
ghost use Rattle.sx_spec.specs.Step.{step};
ghost use Rattle.sx_spec.specs.Whole.{IsWhole};
ghost use Rattle.sx_book.specs.History.{account_of};

use sx_call::{Entry, Reply, Stamp};
use sx_memory::NoMemory;
use sx_ops::serve;
use sx_state::State;

/// Does what an entry does to the account behind so many entries, and gives its reply. The end of a session can't be
/// refused.
pub(crate) fn apply(state: &mut State, came: u64, entry: &Entry) -> Result<Reply, NoMemory>
    requires more { came + 1 < 2 ^ 32 }
    requires whole { IsWhole (account_of came state.old) }
    requires session { stands_in state.old entry.now.who entry.now.session (door_of entry.now.call) ≡ true }
    ensures done { IfOk result (λ reply.
        (account_of (came + 1) state.new, reply) ≡ step (account_of came state.old) entry.now) }
    ensures err { OnErr result (state.new ≡ state.old) }
    ensures ends { entry.now.call ≡ Call.End → IsOk result }
{
    let now = Stamp {
        changed: entry.at.moment(),
        etag: came + 1,
    };
    serve(state, &now, entry)
}
