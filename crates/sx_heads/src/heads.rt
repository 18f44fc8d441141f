//! The request of a call.

ghost use Rattle.std.specs.Prelude.{◌≡◌, IfOk};
ghost use Rattle.sx_call.specs.Calls.{door_of};
ghost use Rattle.sx_call.specs.declared.doors.Door.TheVariants as Door;
ghost use Rattle.sx_heads.specs.Heads.{head_of, IsReadAs};

use crate::directory_heads::{
    create_directory, delete_directory, force_close_handles, get_directory_metadata,
    get_directory_properties, set_directory_metadata,
};
use crate::file_heads::{
    clear_range, delete_file, get_file, get_file_metadata, get_file_properties, lease_file,
    list_ranges, set_file_metadata, update_range,
};
use crate::laws::calls_are_read_back;
use crate::list_heads::{list_directory, list_handles, list_shares};
use crate::property_heads::{create_file, set_file_properties};
use crate::share_heads::{
    create_share, delete_share, delete_snapshot, get_share_metadata, get_share_properties,
    lease_share, set_share_metadata, set_share_properties, snapshot_share,
};
use std::alloc::Global;
use sx_call::Call;
use sx_http::Request;
use sx_memory::NoMemory;

#[tactic(auto, unfolding(crate::specs::Heads::spelling_of))]
fn rest_head(alloc: Global, call: &Call) -> Result<Request, NoMemory>
    requires { door_of call.now ≡ Door.Rest }
    ensures { IfOk result (λ r. r ≡ head_of call.now) }
{
    match call {
        Call::ListShares(call) => list_shares(alloc, call),
        Call::ListDirectory(call) => list_directory(alloc, call),
        Call::ListHandles(call) => list_handles(alloc, call),
        Call::CreateShare(call) => create_share(alloc, call),
        Call::GetShareProperties(call) => get_share_properties(alloc, call),
        Call::SetShareProperties(call) => set_share_properties(alloc, call),
        Call::GetShareMetadata(call) => get_share_metadata(alloc, call),
        Call::SetShareMetadata(call) => set_share_metadata(alloc, call),
        Call::DeleteShare(call) => delete_share(alloc, call),
        Call::DeleteSnapshot(call) => delete_snapshot(alloc, call),
        Call::SnapshotShare(call) => snapshot_share(alloc, call),
        Call::LeaseShare(call) => lease_share(alloc, call),
        Call::CreateDirectory(call) => create_directory(alloc, call),
        Call::GetDirectoryProperties(call) => get_directory_properties(alloc, call),
        Call::GetDirectoryMetadata(call) => get_directory_metadata(alloc, call),
        Call::SetDirectoryMetadata(call) => set_directory_metadata(alloc, call),
        Call::DeleteDirectory(call) => delete_directory(alloc, call),
        Call::ForceCloseHandles(call) => force_close_handles(alloc, call),
        Call::CreateFile(call) => create_file(alloc, call),
        Call::SetFileProperties(call) => set_file_properties(alloc, call),
        Call::GetFile(call) => get_file(alloc, call),
        Call::GetFileProperties(call) => get_file_properties(alloc, call),
        Call::GetFileMetadata(call) => get_file_metadata(alloc, call),
        Call::SetFileMetadata(call) => set_file_metadata(alloc, call),
        Call::UpdateRange(call) => update_range(alloc, call),
        Call::ClearRange(call) => clear_range(alloc, call),
        Call::ListRanges(call) => list_ranges(alloc, call),
        Call::DeleteFile(call) => delete_file(alloc, call),
        Call::LeaseFile(call) => lease_file(alloc, call),
        _ => unreachable!(),
    }
}

/// The one request that is written for a call of REST, unsigned: its target percent-encoded, its parameters and its
/// headers in the order of the table of calls, each that the call gives, and behind them the version and the length.
/// It is read as exactly the call. `NoMemory` comes where memory is refused.
pub fn head_of(alloc: Global, call: &Call) -> Result<Request, NoMemory>
    requires { door_of call.now ≡ Door.Rest }
    ensures head { IfOk result (λ r. r ≡ head_of call.now) }
    ensures read { IfOk result (λ r. IsReadAs call.now r) }
{
    calls_are_read_back(call);
    rest_head(alloc, call)
}
