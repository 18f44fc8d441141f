//! Where a call comes from, and what it names.
ghost use Rattle.std.specs.Prelude.{◌≡◌};
ghost use Rattle.std.specs.Option.{option_copied};
ghost use Rattle.sx_call.specs.Calls.{door_of, share_of, target_of};

use crate::calls::Call;
use crate::targets::Target;
use sx_names::ShareName;

/// The door through which a call comes, and what it does to a session.
#[derive(Clone, Copy, Debug, PartialEq, Eq)]
pub enum Door {
    /// A call over REST, in no session.
    Rest,
    /// The start of a session.
    Starts,
    /// The end of a session.
    Ends,
    /// A call in a session.
    InSession,
}

impl Call {
    /// The door through which the call comes.
    pub fn door(&self) -> Door
        ensures { result ≡ door_of self.now }
    {
        match self {
            Call::Start(_) => Door::Starts,
            Call::End => Door::Ends,
            Call::SmbOpen(_)
            | Call::SmbClose(_)
            | Call::SmbRead(_)
            | Call::SmbWrite(_)
            | Call::SmbResize(_)
            | Call::SmbLock(_)
            | Call::SmbUnlock(_)
            | Call::SmbStat(_)
            | Call::SmbList(_)
            | Call::SmbDispose(_) => Door::InSession,
            _ => Door::Rest,
        }
    }

    /// What a REST call on a file or directory names, and none for every other call.
    pub fn target(&self) -> Option<&Target>
        ensures { option_copied result ≡ target_of self.now }
    {
        match self {
            Call::CreateDirectory(call) => Some(call.at.target()),
            Call::GetDirectoryProperties(call) => Some(&call.at),
            Call::GetDirectoryMetadata(call) => Some(&call.at),
            Call::SetDirectoryMetadata(call) => Some(&call.at),
            Call::DeleteDirectory(call) => Some(call.at.target()),
            Call::ListDirectory(call) => Some(&call.at),
            Call::CreateFile(call) => Some(call.at.target()),
            Call::GetFile(call) => Some(call.at.target()),
            Call::GetFileProperties(call) => Some(call.at.target()),
            Call::SetFileProperties(call) => Some(call.at.target()),
            Call::GetFileMetadata(call) => Some(call.at.target()),
            Call::SetFileMetadata(call) => Some(call.at.target()),
            Call::UpdateRange(call) => Some(call.at.target()),
            Call::ClearRange(call) => Some(call.at.target()),
            Call::ListRanges(call) => Some(call.at.target()),
            Call::DeleteFile(call) => Some(call.at.target()),
            Call::LeaseFile(call) => Some(call.at.target()),
            Call::ListHandles(call) => Some(&call.at),
            Call::ForceCloseHandles(call) => Some(&call.at),
            _ => None,
        }
    }

    /// The share that the call names, and none for List Shares and the calls on a handle or session.
    pub fn share(&self) -> Option<&ShareName>
        ensures { option_copied result ≡ share_of self.now }
    {
        match self {
            Call::CreateShare(call) => Some(&call.share),
            Call::GetShareProperties(call) => Some(&call.share),
            Call::SetShareProperties(call) => Some(&call.share),
            Call::GetShareMetadata(call) => Some(&call.share),
            Call::SetShareMetadata(call) => Some(&call.share),
            Call::DeleteShare(call) => Some(&call.share),
            Call::DeleteSnapshot(call) => Some(&call.share),
            Call::SnapshotShare(call) => Some(&call.share),
            Call::LeaseShare(call) => Some(&call.share),
            Call::SmbOpen(call) => Some(&call.share),
            _ => match self.target() {
                Some(at) => Some(&at.share),
                None => None,
            },
        }
    }
}
