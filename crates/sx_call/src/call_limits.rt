//! What the types of a call's fields keep, as one fact about the call.
//!
//! A definition or a law that speaks of a call alone sees plain numbers and lists, and not the types that limit them.
//! These functions do nothing; they hand the types' limits to a proof above.
ghost use Rattle.std.specs.Prelude.{◌≡◌};
ghost use Rattle.sx_call.specs.Calls.{door_of};
ghost use Rattle.sx_call.specs.declared.doors.Door.{Door};
ghost use Rattle.sx_call.specs.CallLimits.{IsWithinLimits};
ghost use Rattle.sx_call.specs.declared.calls.Call.{Call};

use crate::calls::Call;
use crate::directory_calls::{
    CreateDirectory, DeleteDirectory, ForceCloseHandles, GetDirectoryMetadata,
    GetDirectoryProperties, ListDirectory, ListHandles, SetDirectoryMetadata,
};
use crate::field_limits as fields;
use crate::file_calls::{
    ClearRange, CreateFile, DeleteFile, GetFile, GetFileMetadata, GetFileProperties, LeaseFile,
    ListRanges, SetFileMetadata, SetFileProperties, UpdateRange,
};
use crate::share_calls::{
    CreateShare, DeleteShare, DeleteSnapshot, GetShareMetadata, GetShareProperties, LeaseShare,
    ListShares, SetShareMetadata, SetShareProperties, SnapshotShare,
};

impl Call {
    /// What the types of its fields keep. It does nothing.
    pub fn keeps_limits(&self)
        ensures { IsWithinLimits self.now }
    {
        match self {
            Call::End => {}
            Call::Start(call) => call.keeps_limits(),
            Call::SmbOpen(call) => call.keeps_limits(),
            Call::SmbClose(call) => call.keeps_limits(),
            Call::SmbRead(call) => call.keeps_limits(),
            Call::SmbWrite(call) => call.keeps_limits(),
            Call::SmbResize(call) => call.keeps_limits(),
            Call::SmbLock(call) => call.keeps_limits(),
            Call::SmbUnlock(call) => call.keeps_limits(),
            Call::SmbStat(call) => call.keeps_limits(),
            Call::SmbList(call) => call.keeps_limits(),
            Call::SmbDispose(call) => call.keeps_limits(),
            _ => keeps_rest_limits(self),
        }
    }
}

fn keeps_rest_limits(call: &Call)
    requires { door_of call.now ≡ Door.Rest }
    ensures { IsWithinLimits call.now }
{
    match call {
        Call::ListShares(call) => call.keeps_limits(),
        Call::CreateShare(call) => call.keeps_limits(),
        Call::GetShareProperties(call) => call.keeps_limits(),
        Call::SetShareProperties(call) => call.keeps_limits(),
        Call::GetShareMetadata(call) => call.keeps_limits(),
        Call::SetShareMetadata(call) => call.keeps_limits(),
        Call::DeleteShare(call) => call.keeps_limits(),
        Call::DeleteSnapshot(call) => call.keeps_limits(),
        Call::SnapshotShare(call) => call.keeps_limits(),
        Call::LeaseShare(call) => call.keeps_limits(),
        Call::CreateDirectory(call) => call.keeps_limits(),
        Call::GetDirectoryProperties(call) => call.keeps_limits(),
        Call::GetDirectoryMetadata(call) => call.keeps_limits(),
        Call::SetDirectoryMetadata(call) => call.keeps_limits(),
        Call::DeleteDirectory(call) => call.keeps_limits(),
        Call::ListDirectory(call) => call.keeps_limits(),
        Call::ListHandles(call) => call.keeps_limits(),
        Call::ForceCloseHandles(call) => call.keeps_limits(),
        Call::CreateFile(call) => call.keeps_limits(),
        Call::GetFile(call) => call.keeps_limits(),
        Call::GetFileProperties(call) => call.keeps_limits(),
        Call::SetFileProperties(call) => call.keeps_limits(),
        Call::GetFileMetadata(call) => call.keeps_limits(),
        Call::SetFileMetadata(call) => call.keeps_limits(),
        Call::UpdateRange(call) => call.keeps_limits(),
        Call::ClearRange(call) => call.keeps_limits(),
        Call::ListRanges(call) => call.keeps_limits(),
        Call::DeleteFile(call) => call.keeps_limits(),
        Call::LeaseFile(call) => call.keeps_limits(),
        _ => unreachable!(),
    }
}

impl ListShares {
    /// What the types of its fields keep. It does nothing.
    pub(crate) fn keeps_limits(&self)
        ensures { IsWithinLimits (Call.ListShares self.now) }
    {
        fields::query_text(&self.prefix);
        fields::shares_marker(&self.marker);
        fields::page_size(self.max);
    }
}

impl CreateShare {
    /// What the types of its fields keep. It does nothing.
    pub(crate) fn keeps_limits(&self)
        ensures { IsWithinLimits (Call.CreateShare self.now) }
    {
        fields::share_name(&self.share);
        fields::quota(self.quota);
        fields::meta(&self.meta);
    }
}

impl GetShareProperties {
    /// What the types of its fields keep. It does nothing.
    pub(crate) fn keeps_limits(&self)
        ensures { IsWithinLimits (Call.GetShareProperties self.now) }
    {
        fields::share_name(&self.share);
        fields::read_scope(self.scope);
    }
}

impl SetShareProperties {
    /// What the types of its fields keep. It does nothing.
    pub(crate) fn keeps_limits(&self)
        ensures { IsWithinLimits (Call.SetShareProperties self.now) }
    {
        fields::share_name(&self.share);
        fields::quota(self.quota);
        fields::lease(self.lease);
    }
}

impl GetShareMetadata {
    /// What the types of its fields keep. It does nothing.
    pub(crate) fn keeps_limits(&self)
        ensures { IsWithinLimits (Call.GetShareMetadata self.now) }
    {
        fields::share_name(&self.share);
        fields::read_scope(self.scope);
    }
}

impl SetShareMetadata {
    /// What the types of its fields keep. It does nothing.
    pub(crate) fn keeps_limits(&self)
        ensures { IsWithinLimits (Call.SetShareMetadata self.now) }
    {
        fields::share_name(&self.share);
        fields::meta(&self.meta);
        fields::lease(self.lease);
    }
}

impl DeleteShare {
    /// What the types of its fields keep. It does nothing.
    pub(crate) fn keeps_limits(&self)
        ensures { IsWithinLimits (Call.DeleteShare self.now) }
    {
        fields::share_name(&self.share);
        fields::lease(self.lease);
    }
}

impl DeleteSnapshot {
    /// What the types of its fields keep. It does nothing.
    pub(crate) fn keeps_limits(&self)
        ensures { IsWithinLimits (Call.DeleteSnapshot self.now) }
    {
        fields::share_name(&self.share);
        fields::moment(self.moment);
    }
}

impl SnapshotShare {
    /// What the types of its fields keep. It does nothing.
    pub(crate) fn keeps_limits(&self)
        ensures { IsWithinLimits (Call.SnapshotShare self.now) }
    {
        fields::share_name(&self.share);
        fields::meta(&self.meta);
    }
}

impl LeaseShare {
    /// What the types of its fields keep. It does nothing.
    pub(crate) fn keeps_limits(&self)
        ensures { IsWithinLimits (Call.LeaseShare self.now) }
    {
        fields::share_name(&self.share);
        fields::lease_action(self.action);
    }
}

impl CreateDirectory {
    /// What the types of its fields keep. It does nothing.
    pub(crate) fn keeps_limits(&self)
        ensures { IsWithinLimits (Call.CreateDirectory self.now) }
    {
        fields::target_below_root(&self.at);
        fields::directory_attributes(self.attributes);
        fields::moment_if_any(self.created);
        fields::moment_if_any(self.written);
        fields::meta(&self.meta);
    }
}

impl GetDirectoryProperties {
    /// What the types of its fields keep. It does nothing.
    pub(crate) fn keeps_limits(&self)
        ensures { IsWithinLimits (Call.GetDirectoryProperties self.now) }
    {
        fields::target(&self.at);
        fields::moment_if_any(self.snap);
    }
}

impl GetDirectoryMetadata {
    /// What the types of its fields keep. It does nothing.
    pub(crate) fn keeps_limits(&self)
        ensures { IsWithinLimits (Call.GetDirectoryMetadata self.now) }
    {
        fields::target(&self.at);
        fields::moment_if_any(self.snap);
    }
}

impl SetDirectoryMetadata {
    /// What the types of its fields keep. It does nothing.
    pub(crate) fn keeps_limits(&self)
        ensures { IsWithinLimits (Call.SetDirectoryMetadata self.now) }
    {
        fields::target(&self.at);
        fields::meta(&self.meta);
    }
}

impl DeleteDirectory {
    /// What the types of its fields keep. It does nothing.
    pub(crate) fn keeps_limits(&self)
        ensures { IsWithinLimits (Call.DeleteDirectory self.now) }
    {
        fields::target_below_root(&self.at);
    }
}

impl ListDirectory {
    /// What the types of its fields keep. It does nothing.
    pub(crate) fn keeps_limits(&self)
        ensures { IsWithinLimits (Call.ListDirectory self.now) }
    {
        fields::target(&self.at);
        fields::moment_if_any(self.snap);
        fields::query_text(&self.prefix);
        fields::query_text(&self.marker);
        fields::page_size(self.max);
    }
}

impl ListHandles {
    /// What the types of its fields keep. It does nothing.
    pub(crate) fn keeps_limits(&self)
        ensures { IsWithinLimits (Call.ListHandles self.now) }
    {
        fields::target(&self.at);
        fields::handle_if_any(self.marker);
        fields::page_size(self.max);
    }
}

impl ForceCloseHandles {
    /// What the types of its fields keep. It does nothing.
    pub(crate) fn keeps_limits(&self)
        ensures { IsWithinLimits (Call.ForceCloseHandles self.now) }
    {
        fields::target(&self.at);
        fields::handle_if_any(self.handle);
    }
}

impl CreateFile {
    /// What the types of its fields keep. It does nothing.
    pub(crate) fn keeps_limits(&self)
        ensures { IsWithinLimits (Call.CreateFile self.now) }
    {
        fields::target_below_root(&self.at);
        fields::file_length(self.length);
        fields::content(&self.content);
        fields::file_attributes(self.attributes);
        fields::moment_if_any(self.created);
        fields::moment_if_any(self.written);
        fields::meta(&self.meta);
        fields::lease(self.lease);
    }
}

impl GetFile {
    /// What the types of its fields keep. It does nothing.
    pub(crate) fn keeps_limits(&self)
        ensures { IsWithinLimits (Call.GetFile self.now) }
    {
        fields::target_below_root(&self.at);
        fields::first_if_any(self.span);
        fields::read_scope(self.scope);
    }
}

impl GetFileProperties {
    /// What the types of its fields keep. It does nothing.
    pub(crate) fn keeps_limits(&self)
        ensures { IsWithinLimits (Call.GetFileProperties self.now) }
    {
        fields::target_below_root(&self.at);
        fields::read_scope(self.scope);
    }
}

impl SetFileProperties {
    /// What the types of its fields keep. It does nothing.
    pub(crate) fn keeps_limits(&self)
        ensures { IsWithinLimits (Call.SetFileProperties self.now) }
    {
        fields::target_below_root(&self.at);
        fields::file_length_if_any(self.length);
        fields::content(&self.content);
        fields::file_attributes_if_any(self.attributes);
        fields::time(self.created);
        fields::time(self.written);
        fields::lease(self.lease);
    }
}

impl GetFileMetadata {
    /// What the types of its fields keep. It does nothing.
    pub(crate) fn keeps_limits(&self)
        ensures { IsWithinLimits (Call.GetFileMetadata self.now) }
    {
        fields::target_below_root(&self.at);
        fields::read_scope(self.scope);
    }
}

impl SetFileMetadata {
    /// What the types of its fields keep. It does nothing.
    pub(crate) fn keeps_limits(&self)
        ensures { IsWithinLimits (Call.SetFileMetadata self.now) }
    {
        fields::target_below_root(&self.at);
        fields::meta(&self.meta);
        fields::lease(self.lease);
    }
}

impl UpdateRange {
    /// What the types of its fields keep. It does nothing.
    pub(crate) fn keeps_limits(&self)
        ensures { IsWithinLimits (Call.UpdateRange self.now) }
    {
        fields::target_below_root(&self.at);
        fields::range_update(&self.update);
        fields::lease(self.lease);
    }
}

impl ClearRange {
    /// What the types of its fields keep. It does nothing.
    pub(crate) fn keeps_limits(&self)
        ensures { IsWithinLimits (Call.ClearRange self.now) }
    {
        fields::target_below_root(&self.at);
        fields::byte_range(self.range);
        fields::lease(self.lease);
    }
}

impl ListRanges {
    /// What the types of its fields keep. It does nothing.
    pub(crate) fn keeps_limits(&self)
        ensures { IsWithinLimits (Call.ListRanges self.now) }
    {
        fields::target_below_root(&self.at);
        fields::first_if_any(self.span);
        fields::read_scope(self.scope);
    }
}

impl DeleteFile {
    /// What the types of its fields keep. It does nothing.
    pub(crate) fn keeps_limits(&self)
        ensures { IsWithinLimits (Call.DeleteFile self.now) }
    {
        fields::target_below_root(&self.at);
        fields::lease(self.lease);
    }
}

impl LeaseFile {
    /// What the types of its fields keep. It does nothing.
    pub(crate) fn keeps_limits(&self)
        ensures { IsWithinLimits (Call.LeaseFile self.now) }
    {
        fields::target_below_root(&self.at);
        fields::lease_action(self.action);
    }
}
