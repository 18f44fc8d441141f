//! Calls that close a handle, or mark it for delete on close.
ghost use Rattle.std.specs.Prelude.{◌≡◌, ◌≤◌};
ghost use Rattle.sx_spec.specs.Checks.{read_only_check, unchecked};
ghost use Rattle.sx_spec.specs.Needs.{access_needed};
ghost use Rattle.sx_spec.specs.Places.{handle_place};
ghost use Rattle.sx_spec.specs.SessionCalls.{smb_close, smb_dispose};
ghost use Rattle.sx_spec.specs.Step.{at_place, handle_in, outcome};

use crate::places::handle_in;
use sx_call::{Call, Entry, Reply, SmbClose, SmbDispose, SmbReply};
use sx_guard::HandleId;
use sx_spec::Checks;
use sx_state::{HandlePlace, State, access_needed, read_only_check, unchecked};
use sx_tree::Node;

/// Close: the handle goes with its locks, and its file or directory where it is to go with its last handle. The reply
/// says what became of it. It takes no memory.
#[tactic(auto, using(crate::proofs::Passed::unchecked_passes))]
pub fn smb_close(state: &mut State, entry: &Entry, call: &SmbClose) -> Reply
    requires { 1 ≤ entry.now.session }
    ensures { (state.new, result) ≡ outcome state.old
        (at_place (handle_place state.old (handle_in entry.now call.now.index) (access_needed entry.now.call))
        (smb_close state.old)) }
{
    let needed = access_needed(&entry.call);
    let held = match state.handle_place(handle_in(entry, call.index), needed) {
        Ok(place) => place.held,
        Err(refusal) => return Reply::Refused(refusal),
    };
    let fate = state.close(held);
    Reply::Smb(SmbReply::Closed { fate })
}

/// The handle of an open.
fn handle_of(place: &HandlePlace) -> HandleId
    ensures { result ≡ place.now.held.handle }
{
    place.held.handle
}

/// What Dispose is checked for at a file or directory: that it doesn't have the ReadOnly attribute.
fn dispose_checks(call: &Call, node: &Node) -> Checks
    ensures { result ≡ record unchecked { read_only = read_only_check call.now node.now } }
{
    Checks {
        read_only: read_only_check(call, node),
        ..unchecked()
    }
}

/// Dispose: it sets the handle's mark for delete on close, or takes it off. A file with the ReadOnly attribute refuses
/// the mark. It takes no memory.
pub fn smb_dispose(state: &mut State, entry: &Entry, call: &SmbDispose) -> Reply
    requires { 1 ≤ entry.now.session }
    ensures { (state.new, result) ≡ outcome state.old
        (at_place (handle_place state.old (handle_in entry.now call.now.index) (access_needed entry.now.call))
        (smb_dispose state.old entry.now.call call.now.on)) }
{
    let needed = access_needed(&entry.call);
    let place = match state.handle_place(handle_in(entry, call.index), needed) {
        Ok(place) => place,
        Err(refusal) => return Reply::Refused(refusal),
    };
    if let Some(refusal) = state.first_check(&dispose_checks(&entry.call, place.node)) {
        return Reply::Refused(refusal);
    }
    let handle = handle_of(&place);
    state.mark_open(handle, call.on);
    Reply::Smb(SmbReply::Disposed)
}
