//! Every call, reply and refusal of the service as data, which code and definitions share.
//!
//! What a field of a call may be is kept by the field's type, and what ties two fields by a struct of the two, so no
//! limit of a request or of a session's line is a condition of any function above. Contracts see plain numbers, lists
//! and records.
#![tactic(auto)]

mod attributes;
mod call_limits;
mod calls;
mod copies;
mod directory_calls;
mod doors;
mod entries;
mod field_limits;
mod file_calls;
mod leases;
mod lengths;
mod listings;
mod opens;
mod pages;
mod ranges;
mod refusals;
mod replies;
mod session_calls;
mod session_limits;
mod share_calls;
mod shown;
mod statuses;
mod targets;
mod times;
mod updates;

pub use attributes::{DirectoryAttributes, FileAttributes};
pub use calls::Call;
pub use directory_calls::{
    CreateDirectory, DeleteDirectory, ForceCloseHandles, GetDirectoryMetadata,
    GetDirectoryProperties, ListDirectory, ListHandles, SetDirectoryMetadata,
};
pub use doors::Door;
pub use entries::{Entry, Noted};
pub use file_calls::{
    ClearRange, CreateFile, DeleteFile, GetFile, GetFileMetadata, GetFileProperties, LeaseFile,
    ListRanges, SetFileMetadata, SetFileProperties, UpdateRange,
};
pub use leases::{LeaseAction, LeaseShown, SnapOrLease};
pub use lengths::FileLength;
pub use listings::{QUERY_TEXT_LIMIT, QueryText, SharesMarker};
pub use opens::{How, Live, Lock, Open, OpenAccess};
pub use pages::{HandleItem, HandlesPage, ShareItem, SharesPage};
pub use ranges::{ByteRange, First, OFFSET_LIMIT, ReadRange, TRANSFER_LIMIT};
pub use refusals::{Refusal, Stop, Syntax};
pub use replies::{Fate, Reply, SmbReply};
pub use session_calls::{
    SmbClose, SmbDispose, SmbList, SmbLock, SmbOpen, SmbRead, SmbResize, SmbStat, SmbUnlock,
    SmbWrite, Start,
};
pub use share_calls::{
    CreateShare, DeleteShare, DeleteSnapshot, GetShareMetadata, GetShareProperties, LeaseShare,
    ListShares, SetShareMetadata, SetShareProperties, SnapshotShare,
};
pub use shown::{FilePart, Shown, Stamp};
pub use statuses::{LeaseStatus, WriteStatus};
pub use sx_memory::NoMemory;
pub use sx_names::{Attributes, Content, Meta, MetaPair, NameItem, NamesPage, Text};
pub use targets::{NamedPath, NamedTarget, Target};
pub use times::Time;
pub use updates::{HandleWrite, RangeUpdate};
