//! What calls are answered.

use crate::leases::LeaseShown;
use crate::refusals::Refusal;
use crate::shown::{FilePart, Shown, Stamp};
use crate::statuses::{LeaseStatus, WriteStatus};
use sx_extent::View;
use sx_guard::HandleIndex;
use sx_lease::LeaseId;
use sx_moment::Moment;
use sx_names::{Attributes, Content, Meta, NamesPage, Quota, Text};

/// What a file or directory is after a close.
#[derive(Clone, Copy, Debug, PartialEq, Eq)]
pub enum Fate {
    /// It stands, and isn't to be deleted.
    Kept,
    /// It is deleted when its last handle is closed.
    Pending,
    /// It is deleted.
    Gone,
}

/// What a session's call is answered.
#[derive(Debug, Drop)]
pub enum SmbReply {
    /// The session is started.
    Started {
        /// Its number, from 1.
        session: u32,
    },
    /// The session is ended.
    Ended {
        /// How many handles were closed.
        closed: u32,
    },
    /// The file or directory is open.
    Opened {
        /// The handle's index in the session.
        index: HandleIndex,
        /// Whether the open made it.
        made: bool,
        /// Its id, from 1.
        id: u64,
        /// Its length in bytes, and 0 for a directory.
        length: u64,
    },
    /// The handle is closed.
    Closed {
        /// What its file or directory is now.
        fate: Fate,
    },
    /// The bytes that were read.
    Bytes {
        /// They are none at or past the end of the file.
        view: View,
    },
    /// The bytes are written.
    Wrote {
        /// How many they were.
        count: u32,
        /// The file's length after it, in bytes.
        length: u64,
    },
    /// The file has a new length.
    Resized {
        /// The length in bytes.
        length: u64,
    },
    /// The range is locked.
    Locked,
    /// The lock is removed.
    Unlocked,
    /// What the file or directory is.
    Stats {
        /// Its id, from 1.
        id: u64,
        /// Whether it is a directory.
        dir: bool,
        /// Its length in bytes, and 0 for a directory.
        length: u64,
        /// Its attributes.
        attributes: Attributes,
        /// Its creation time.
        created: Moment,
        /// Its last write time.
        written: Moment,
        /// Its change time.
        changed: Moment,
    },
    /// A page of the directory's names.
    Names {
        /// The page.
        page: NamesPage,
    },
    /// The handle's mark for delete on close is set or taken off.
    Disposed,
}

/// What a call is answered.
#[derive(Debug, Drop)]
pub enum Reply {
    /// The call was refused, and changed nothing.
    Refused(Refusal),
    /// A share, file or directory was made or changed.
    Stamped {
        /// 201 where it was made or bytes were written, and else 200.
        status: WriteStatus,
        /// Its stamp after it.
        stamp: Stamp,
    },
    /// A file or directory was made, or a file's properties were set.
    Made {
        /// 201 where it was made, and else 200.
        status: WriteStatus,
        /// Its stamp after it.
        stamp: Stamp,
        /// What it is now.
        facts: Shown,
    },
    /// A share, snapshot, directory or file was deleted, or is when its last handle is closed.
    Gone,
    /// A snapshot was made.
    Snapped {
        /// Its moment.
        moment: Moment,
        /// The share's stamp, which it has too.
        stamp: Stamp,
    },
    /// What a share is.
    ShareFacts {
        /// Its stamp.
        stamp: Stamp,
        /// Its quota.
        quota: Quota,
        /// Its lease.
        lease: LeaseShown,
        /// Its metadata.
        meta: Meta,
    },
    /// The metadata of a share, file or directory.
    Metas {
        /// Its stamp.
        stamp: Stamp,
        /// The metadata.
        meta: Meta,
    },
    /// What a directory is.
    DirFacts {
        /// Its stamp.
        stamp: Stamp,
        /// Its attributes, times and ids.
        facts: Shown,
        /// Its metadata.
        meta: Meta,
    },
    /// What a file is.
    FileFacts {
        /// Its stamp.
        stamp: Stamp,
        /// Its length in bytes.
        length: u64,
        /// Its content headers.
        content: Content,
        /// Its attributes, times and ids.
        facts: Shown,
        /// Its lease.
        lease: LeaseShown,
        /// Its metadata.
        meta: Meta,
    },
    /// Bytes of a file, and what it is.
    FileBytes {
        /// Its stamp.
        stamp: Stamp,
        /// The bytes, and where in the file they lie.
        part: FilePart,
        /// Its content headers.
        content: Content,
        /// Its attributes, times and ids.
        facts: Shown,
        /// Its lease.
        lease: LeaseShown,
        /// Its metadata.
        meta: Meta,
    },
    /// A page of shares, names or handles.
    Listed {
        /// The page as XML.
        body: Text,
    },
    /// The ranges of a file that are marked.
    RangesListed {
        /// The file's stamp.
        stamp: Stamp,
        /// The file's length in bytes.
        length: u64,
        /// The ranges as XML.
        body: Text,
    },
    /// A lease action is done.
    LeaseDone {
        /// 201 where the lease was acquired, 200 where it was changed or released, 202 where it was broken.
        status: LeaseStatus,
        /// The stamp of the share or file, which the action leaves.
        stamp: Stamp,
        /// The id under which the lease is held now, where it was acquired or changed.
        id: Option<LeaseId>,
    },
    /// Handles were closed.
    HandlesClosed {
        /// How many they were.
        n: u32,
    },
    /// A session's answer.
    Smb(SmbReply),
}
