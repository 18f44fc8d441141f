//! Every call of the service: 29 of the File service's REST interface, and 12 of sessions with open handles.

use crate::directory_calls::{
    CreateDirectory, DeleteDirectory, ForceCloseHandles, GetDirectoryMetadata,
    GetDirectoryProperties, ListDirectory, ListHandles, SetDirectoryMetadata,
};
use crate::file_calls::{
    ClearRange, CreateFile, DeleteFile, GetFile, GetFileMetadata, GetFileProperties, LeaseFile,
    ListRanges, SetFileMetadata, SetFileProperties, UpdateRange,
};
use crate::session_calls::{
    SmbClose, SmbDispose, SmbList, SmbLock, SmbOpen, SmbRead, SmbResize, SmbStat, SmbUnlock,
    SmbWrite, Start,
};
use crate::share_calls::{
    CreateShare, DeleteShare, DeleteSnapshot, GetShareMetadata, GetShareProperties, LeaseShare,
    ListShares, SetShareMetadata, SetShareProperties, SnapshotShare,
};

/// What is asked of the account.
#[derive(Debug, Drop)]
pub enum Call {
    /// Lists shares.
    ListShares(ListShares),
    /// Makes a share.
    CreateShare(CreateShare),
    /// Gives a share's quota, lease and metadata.
    GetShareProperties(GetShareProperties),
    /// Sets a share's quota.
    SetShareProperties(SetShareProperties),
    /// Gives a share's metadata.
    GetShareMetadata(GetShareMetadata),
    /// Sets a share's metadata.
    SetShareMetadata(SetShareMetadata),
    /// Deletes a share.
    DeleteShare(DeleteShare),
    /// Deletes a snapshot.
    DeleteSnapshot(DeleteSnapshot),
    /// Makes a snapshot.
    SnapshotShare(SnapshotShare),
    /// Acts on a share's lease.
    LeaseShare(LeaseShare),
    /// Makes a directory.
    CreateDirectory(CreateDirectory),
    /// Gives a directory's attributes, times and metadata.
    GetDirectoryProperties(GetDirectoryProperties),
    /// Gives a directory's metadata.
    GetDirectoryMetadata(GetDirectoryMetadata),
    /// Sets a directory's metadata.
    SetDirectoryMetadata(SetDirectoryMetadata),
    /// Deletes a directory.
    DeleteDirectory(DeleteDirectory),
    /// Lists what is in a directory.
    ListDirectory(ListDirectory),
    /// Makes a file, over one that is there too.
    CreateFile(CreateFile),
    /// Gives bytes of a file.
    GetFile(GetFile),
    /// Gives a file's length, content headers, attributes, times, lease and metadata.
    GetFileProperties(GetFileProperties),
    /// Sets a file's content headers and, where given, its length, attributes and times.
    SetFileProperties(SetFileProperties),
    /// Gives a file's metadata.
    GetFileMetadata(GetFileMetadata),
    /// Sets a file's metadata.
    SetFileMetadata(SetFileMetadata),
    /// Writes bytes of a file.
    UpdateRange(UpdateRange),
    /// Clears bytes of a file.
    ClearRange(ClearRange),
    /// Lists the marked ranges of a file.
    ListRanges(ListRanges),
    /// Deletes a file.
    DeleteFile(DeleteFile),
    /// Acts on a file's lease.
    LeaseFile(LeaseFile),
    /// Lists open handles.
    ListHandles(ListHandles),
    /// Closes open handles.
    ForceCloseHandles(ForceCloseHandles),
    /// Starts a session.
    Start(Start),
    /// Ends the session, and closes its handles.
    End,
    /// Opens a file or directory, which it makes where it is told to.
    SmbOpen(SmbOpen),
    /// Closes a handle.
    SmbClose(SmbClose),
    /// Reads from an open file.
    SmbRead(SmbRead),
    /// Writes into an open file, past its end too.
    SmbWrite(SmbWrite),
    /// Sets the length of an open file.
    SmbResize(SmbResize),
    /// Locks bytes of an open file.
    SmbLock(SmbLock),
    /// Removes a lock.
    SmbUnlock(SmbUnlock),
    /// Gives what an open file or directory is.
    SmbStat(SmbStat),
    /// Lists what is in an open directory.
    SmbList(SmbList),
    /// Sets a handle's mark for delete on close, or takes it off.
    SmbDispose(SmbDispose),
}
