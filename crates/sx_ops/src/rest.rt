//! The REST calls, by what they name.
ghost use Rattle.std.specs.Prelude.{◌≡◌, ◌+◌, ◌<◌, ◌^◌, IfOk, OnErr, length};
ghost use Rattle.sx_call.specs.Calls.{door_of};
ghost use Rattle.sx_call.specs.declared.doors.Door.TheVariants as Door;
ghost use Rattle.sx_ops.specs.Ready.{CanGive};
ghost use Rattle.sx_spec.specs.Step.{act_of, outcome};
ghost use Rattle.sx_state.specs.Ids.{IsFresh};

use crate::files::serve_file;
use crate::shares::serve_share;
use sx_call::{Entry, Reply, Stamp};
use sx_memory::NoMemory;
use sx_state::State;

/// Does and answers a REST call: those that name a file or directory, and those that name a share or none.
pub(crate) fn serve_rest(state: &mut State, now: &Stamp, entry: &Entry) -> Result<Reply, NoMemory>
    requires door { door_of entry.now.call ≡ Door.Rest }
    requires fresh { IsFresh state.old }
    requires ids { state.old.next_id + 1 < 2 ^ 64 }
    requires made { state.old.made + 1 < 2 ^ 32 }
    requires few { length state.old.opens < 2 ^ 32 }
    requires given { CanGive state.old }
    ensures ok { IfOk result (λ reply.
        (state.new, reply) ≡ outcome state.old (act_of state.old now.now entry.now entry.now.call)) }
    ensures err { OnErr result (state.new ≡ state.old) }
{
    match entry.call.target() {
        Some(_) => serve_file(state, now, entry),
        None => serve_share(state, now, entry),
    }
}
