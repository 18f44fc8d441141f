//! The calls that start and end a session.
ghost use Rattle.std.specs.Prelude.{◌≡◌, ◌+◌, ◌<◌, ◌^◌, AllPairs, IfOk, Ok, OnErr, length, true};
ghost use Rattle.sx_guard.specs.Handle.{handle_before};
ghost use Rattle.sx_spec.specs.SessionCalls.{end_session, start};
ghost use Rattle.sx_spec.specs.Step.{outcome};

use sx_call::{Entry, Reply, SmbReply, Start};
use sx_memory::NoMemory;
use sx_state::State;

/// Start: a session of the next number starts, for the entry's caller, from the call's peer.
#[tactic(auto, using(crate::proofs::Passed::unchecked_passes))]
pub fn smb_start(state: &mut State, entry: &Entry, call: &Start) -> Result<Reply, NoMemory>
    requires { state.old.started + 1 < 2 ^ 32 }
    ensures ok { IfOk result (λ reply. (state.new, reply)
        ≡ outcome state.old (Ok (start state.old entry.now.who call.now.peer))) }
    ensures err { OnErr result (state.new ≡ state.old) }
{
    let session = state.started() + 1;
    state.put_session(entry.who, call.peer)?;
    Ok(Reply::Smb(SmbReply::Started { session }))
}

/// End: it closes the session's handles in order of handle, and the session is no longer live. It takes no memory.
#[tactic(auto, using(crate::proofs::Passed::unchecked_passes))]
pub fn smb_end(state: &mut State, entry: &Entry) -> Reply
    requires order { AllPairs (λ o q. handle_before o.handle q.handle ≡ true) state.old.opens }
    requires few { length state.old.opens < 2 ^ 32 }
    ensures { (state.new, result) ≡ outcome state.old (Ok (end_session state.old entry.now.session)) }
{
    let closed = state.close_held(entry.session);
    state.take_session(entry.session);
    Reply::Smb(SmbReply::Ended {
        closed: closed as u32,
    })
}
