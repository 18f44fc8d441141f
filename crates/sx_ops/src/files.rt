//! The REST calls that name a file or directory.
ghost use Rattle.std.specs.Prelude.{◌≡◌, ◌+◌, ◌<◌, ◌^◌, IfOk, OnErr, is_some, length, true};
ghost use Rattle.sx_call.specs.Calls.{target_of};
ghost use Rattle.sx_spec.specs.Step.{act_of, outcome};
ghost use Rattle.sx_state.specs.Ids.{IsFresh};

use sx_call::{Call, Entry, Reply, Stamp};
use sx_memory::NoMemory;
use sx_ops_file::{
    clear_range, create_directory, create_file, delete_directory, delete_file,
    get_directory_metadata, get_directory_properties, get_file, get_file_metadata,
    get_file_properties, lease_file, list_directory, list_ranges, set_directory_metadata,
    set_file_metadata, set_file_properties, update_range,
};
use sx_ops_smb::{force_close_handles, list_handles};
use sx_state::State;

/// Does and answers a call that names a file or directory.
pub(crate) fn serve_file(state: &mut State, now: &Stamp, entry: &Entry) -> Result<Reply, NoMemory>
    requires target { is_some (target_of entry.now.call) ≡ true }
    requires fresh { IsFresh state.old }
    requires ids { state.old.next_id + 1 < 2 ^ 64 }
    requires few { length state.old.opens < 2 ^ 32 }
    ensures ok { IfOk result (λ reply.
        (state.new, reply) ≡ outcome state.old (act_of state.old now.now entry.now entry.now.call)) }
    ensures err { OnErr result (state.new ≡ state.old) }
{
    match &entry.call {
        Call::CreateDirectory(call) => create_directory(state, now, call),
        Call::GetDirectoryProperties(call) => get_directory_properties(state, call),
        Call::GetDirectoryMetadata(call) => get_directory_metadata(state, call),
        Call::SetDirectoryMetadata(call) => set_directory_metadata(state, now, call),
        Call::DeleteDirectory(call) => Ok(delete_directory(state, entry, call)),
        Call::ListDirectory(call) => list_directory(state, call),
        Call::CreateFile(call) => create_file(state, now, entry, call),
        Call::GetFile(call) => get_file(state, entry, call),
        Call::GetFileProperties(call) => get_file_properties(state, entry, call),
        Call::SetFileProperties(call) => set_file_properties(state, now, entry, call),
        Call::GetFileMetadata(call) => get_file_metadata(state, entry, call),
        Call::SetFileMetadata(call) => set_file_metadata(state, now, entry, call),
        Call::UpdateRange(call) => update_range(state, now, entry, call),
        Call::ClearRange(call) => clear_range(state, now, entry, call),
        Call::ListRanges(call) => list_ranges(state, entry, call),
        Call::DeleteFile(call) => Ok(delete_file(state, entry, call)),
        Call::LeaseFile(call) => Ok(lease_file(state, entry, call)),
        Call::ListHandles(call) => list_handles(state, call),
        Call::ForceCloseHandles(call) => force_close_handles(state, call),
        _ => unreachable!(),
    }
}
