//! The calls of sessions: their start, their end, and the calls in them.
ghost use Rattle.std.specs.Prelude.{◌≡◌, ◌≢◌, ◌+◌, ◌<◌, ◌^◌, AllPairs, IfOk, IsOk, OnErr, length, true};
ghost use Rattle.sx_call.specs.Calls.{door_of};
ghost use Rattle.sx_call.specs.declared.calls.Call.TheVariants.{End};
ghost use Rattle.sx_call.specs.declared.doors.Door.TheVariants as Door;
ghost use Rattle.sx_guard.specs.Handle.{handle_before};
ghost use Rattle.sx_ops.specs.Ready.{NamesSession};
ghost use Rattle.sx_spec.specs.Step.{act_of, outcome};
ghost use Rattle.sx_state.specs.Ids.{CanGrant, IsFresh};

use sx_call::{Call, Entry, Reply, Stamp};
use sx_memory::NoMemory;
use sx_ops_smb::{
    smb_close, smb_dispose, smb_end, smb_list, smb_lock, smb_open, smb_read, smb_resize, smb_start,
    smb_stat, smb_unlock, smb_write,
};
use sx_state::State;

/// Does and answers a call of a session.
pub(crate) fn serve_session(
    state: &mut State,
    now: &Stamp,
    entry: &Entry,
) -> Result<Reply, NoMemory>
    requires door { door_of entry.now.call ≢ Door.Rest }
    requires fresh { IsFresh state.old }
    requires ids { state.old.next_id + 1 < 2 ^ 64 }
    requires granted { CanGrant state.old }
    requires started { state.old.started + 1 < 2 ^ 32 }
    requires few { length state.old.opens < 2 ^ 32 }
    requires order { AllPairs (λ o q. handle_before o.handle q.handle ≡ true) state.old.opens }
    requires session { NamesSession (door_of entry.now.call) entry.now.session }
    ensures ok { IfOk result (λ reply.
        (state.new, reply) ≡ outcome state.old (act_of state.old now.now entry.now entry.now.call)) }
    ensures err { OnErr result (state.new ≡ state.old) }
    ensures ends { entry.now.call ≡ End → IsOk result }
{
    match &entry.call {
        Call::Start(call) => smb_start(state, entry, call),
        Call::End => Ok(smb_end(state, entry)),
        Call::SmbOpen(call) => smb_open(state, now, entry, call),
        Call::SmbClose(call) => Ok(smb_close(state, entry, call)),
        Call::SmbRead(call) => smb_read(state, entry, call),
        Call::SmbWrite(call) => smb_write(state, now, entry, call),
        Call::SmbResize(call) => smb_resize(state, now, entry, call),
        Call::SmbLock(call) => smb_lock(state, entry, call),
        Call::SmbUnlock(call) => Ok(smb_unlock(state, entry, call)),
        Call::SmbStat(call) => Ok(smb_stat(state, entry, call)),
        Call::SmbList(call) => smb_list(state, entry, call),
        Call::SmbDispose(call) => Ok(smb_dispose(state, entry, call)),
        _ => unreachable!(),
    }
}
