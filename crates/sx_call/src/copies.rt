//! Calls, entries and places of the history, copied.
ghost use Rattle.std.specs.Prelude.{◌≡◌, IfOk};
ghost use Rattle.sx_call.specs.Calls.{door_of};
ghost use Rattle.sx_call.specs.declared.doors.Door.{Door};

use crate::calls::Call;
use crate::entries::{Entry, Noted};
use sx_memory::NoMemory;

impl Call {
    /// An equal call of its own.
    pub fn copy(&self) -> Result<Call, NoMemory>
        ensures { IfOk result (λ c. c ≡ self.now) }
    {
        Ok(match self {
            Call::Start(call) => Call::Start(*call),
            Call::End => Call::End,
            Call::SmbOpen(call) => Call::SmbOpen(call.copy()?),
            Call::SmbClose(call) => Call::SmbClose(*call),
            Call::SmbRead(call) => Call::SmbRead(*call),
            Call::SmbWrite(call) => Call::SmbWrite(call.copy()?),
            Call::SmbResize(call) => Call::SmbResize(*call),
            Call::SmbLock(call) => Call::SmbLock(*call),
            Call::SmbUnlock(call) => Call::SmbUnlock(*call),
            Call::SmbStat(call) => Call::SmbStat(*call),
            Call::SmbList(call) => Call::SmbList(call.copy()?),
            Call::SmbDispose(call) => Call::SmbDispose(*call),
            _ => return copy_rest_call(self),
        })
    }
}

fn copy_rest_call(call: &Call) -> Result<Call, NoMemory>
    requires { door_of call.now ≡ Door.Rest }
    ensures { IfOk result (λ c. c ≡ call.now) }
{
    Ok(match call {
        Call::ListShares(call) => Call::ListShares(call.copy()?),
        Call::CreateShare(call) => Call::CreateShare(call.copy()?),
        Call::GetShareProperties(call) => Call::GetShareProperties(call.copy()?),
        Call::SetShareProperties(call) => Call::SetShareProperties(call.copy()?),
        Call::GetShareMetadata(call) => Call::GetShareMetadata(call.copy()?),
        Call::SetShareMetadata(call) => Call::SetShareMetadata(call.copy()?),
        Call::DeleteShare(call) => Call::DeleteShare(call.copy()?),
        Call::DeleteSnapshot(call) => Call::DeleteSnapshot(call.copy()?),
        Call::SnapshotShare(call) => Call::SnapshotShare(call.copy()?),
        Call::LeaseShare(call) => Call::LeaseShare(call.copy()?),
        Call::CreateDirectory(call) => Call::CreateDirectory(call.copy()?),
        Call::GetDirectoryProperties(call) => Call::GetDirectoryProperties(call.copy()?),
        Call::GetDirectoryMetadata(call) => Call::GetDirectoryMetadata(call.copy()?),
        Call::SetDirectoryMetadata(call) => Call::SetDirectoryMetadata(call.copy()?),
        Call::DeleteDirectory(call) => Call::DeleteDirectory(call.copy()?),
        Call::ListDirectory(call) => Call::ListDirectory(call.copy()?),
        Call::CreateFile(call) => Call::CreateFile(call.copy()?),
        Call::GetFile(call) => Call::GetFile(call.copy()?),
        Call::GetFileProperties(call) => Call::GetFileProperties(call.copy()?),
        Call::SetFileProperties(call) => Call::SetFileProperties(call.copy()?),
        Call::GetFileMetadata(call) => Call::GetFileMetadata(call.copy()?),
        Call::SetFileMetadata(call) => Call::SetFileMetadata(call.copy()?),
        Call::UpdateRange(call) => Call::UpdateRange(call.copy()?),
        Call::ClearRange(call) => Call::ClearRange(call.copy()?),
        Call::ListRanges(call) => Call::ListRanges(call.copy()?),
        Call::DeleteFile(call) => Call::DeleteFile(call.copy()?),
        Call::LeaseFile(call) => Call::LeaseFile(call.copy()?),
        Call::ListHandles(call) => Call::ListHandles(call.copy()?),
        Call::ForceCloseHandles(call) => Call::ForceCloseHandles(call.copy()?),
        _ => unreachable!(),
    })
}

impl Entry {
    /// An equal entry of its own.
    pub fn copy(&self) -> Result<Entry, NoMemory>
        ensures { IfOk result (λ e. e ≡ self.now) }
    {
        Ok(Entry {
            who: self.who,
            session: self.session,
            at: self.at,
            fresh: self.fresh,
            call: self.call.copy()?,
        })
    }
}

impl Noted {
    /// An equal entry of its own, with the same mark.
    pub fn copy(&self) -> Result<Noted, NoMemory>
        ensures { IfOk result (λ n. n ≡ self.now) }
    {
        Ok(Noted {
            entry: self.entry.copy()?,
            refused: self.refused,
        })
    }
}
