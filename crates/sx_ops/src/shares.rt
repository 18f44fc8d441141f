//! The REST calls that name a share or none.
ghost use Rattle.std.specs.Prelude.{◌≡◌, ◌+◌, ◌<◌, ◌^◌, IfOk, None, OnErr};
ghost use Rattle.sx_call.specs.Calls.{door_of, target_of};
ghost use Rattle.sx_call.specs.declared.doors.Door.TheVariants as Door;
ghost use Rattle.sx_ops.specs.Ready.{CanGive};
ghost use Rattle.sx_spec.specs.Step.{act_of, outcome};

use sx_call::{Call, Entry, Reply, Stamp};
use sx_memory::NoMemory;
use sx_ops_share::{
    create_share, delete_share, delete_snapshot, get_share_metadata, get_share_properties,
    lease_share, list_shares, set_share_metadata, set_share_properties, snapshot_share,
};
use sx_state::State;

/// Does and answers a call that names a share, and List Shares.
pub(crate) fn serve_share(state: &mut State, now: &Stamp, entry: &Entry) -> Result<Reply, NoMemory>
    requires door { door_of entry.now.call ≡ Door.Rest }
    requires target { target_of entry.now.call ≡ None }
    requires ids { state.old.next_id + 1 < 2 ^ 64 }
    requires made { state.old.made + 1 < 2 ^ 32 }
    requires given { CanGive state.old }
    ensures ok { IfOk result (λ reply.
        (state.new, reply) ≡ outcome state.old (act_of state.old now.now entry.now entry.now.call)) }
    ensures err { OnErr result (state.new ≡ state.old) }
{
    match &entry.call {
        Call::ListShares(call) => list_shares(state, call),
        Call::CreateShare(call) => create_share(state, now, call),
        Call::GetShareProperties(call) => get_share_properties(state, entry, call),
        Call::SetShareProperties(call) => Ok(set_share_properties(state, now, entry, call)),
        Call::GetShareMetadata(call) => get_share_metadata(state, entry, call),
        Call::SetShareMetadata(call) => set_share_metadata(state, now, entry, call),
        Call::DeleteShare(call) => Ok(delete_share(state, entry, call)),
        Call::DeleteSnapshot(call) => Ok(delete_snapshot(state, call)),
        Call::SnapshotShare(call) => snapshot_share(state, now, call),
        Call::LeaseShare(call) => Ok(lease_share(state, entry, call)),
        _ => unreachable!(),
    }
}
