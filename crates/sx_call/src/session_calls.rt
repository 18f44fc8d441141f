//! The calls of sessions.
ghost use Rattle.std.specs.Prelude.{◌≡◌, IfOk};

use crate::lengths::FileLength;
use crate::opens::{How, OpenAccess};
use crate::ranges::{ByteRange, ReadRange};
use crate::targets::NamedPath;
use crate::updates::HandleWrite;
use sx_guard::{HandleIndex, Mode};
use sx_memory::NoMemory;
use sx_names::{PageSize, ShareName, Text};

/// Starts a session.
#[derive(Clone, Copy, Debug, PartialEq, Eq)]
pub struct Start {
    /// Its peer, an IPv4 address as a number.
    pub peer: u32,
}

/// Opens a file or directory.
#[derive(Debug, Drop)]
pub struct SmbOpen {
    /// The name of the share.
    pub share: ShareName,
    /// The path of the file or directory.
    pub path: NamedPath,
    /// The rights that the open has, and its mark for delete on close.
    pub access: OpenAccess,
    /// The rights that it leaves to others.
    pub mode: Mode,
    /// What it does with a name that is there, and with one that is absent.
    pub how: How,
    /// Whether a directory is opened, and else a file.
    pub dir: bool,
}

impl SmbOpen {
    /// An equal call of its own.
    pub fn copy(&self) -> Result<SmbOpen, NoMemory>
        ensures { IfOk result (λ c. c ≡ self.now) }
    {
        Ok(SmbOpen {
            share: self.share.copy()?,
            path: self.path.copy()?,
            access: self.access,
            mode: self.mode,
            how: self.how,
            dir: self.dir,
        })
    }
}

/// Closes a handle.
#[derive(Clone, Copy, Debug, PartialEq, Eq)]
pub struct SmbClose {
    /// The index of the handle in the session.
    pub index: HandleIndex,
}

/// Reads from an open file.
#[derive(Clone, Copy, Debug, PartialEq, Eq)]
pub struct SmbRead {
    /// The index of the handle in the session.
    pub index: HandleIndex,
    /// The bytes that are read.
    pub range: ReadRange,
}

/// Writes into an open file.
#[derive(Debug, Drop)]
pub struct SmbWrite {
    /// The index of the handle in the session.
    pub index: HandleIndex,
    /// The bytes, and where they are written.
    pub write: HandleWrite,
}

impl SmbWrite {
    /// An equal call of its own.
    pub fn copy(&self) -> Result<SmbWrite, NoMemory>
        ensures { IfOk result (λ c. c ≡ self.now) }
    {
        Ok(SmbWrite {
            index: self.index,
            write: self.write.copy()?,
        })
    }
}

/// Sets the length of an open file.
#[derive(Clone, Copy, Debug, PartialEq, Eq)]
pub struct SmbResize {
    /// The index of the handle in the session.
    pub index: HandleIndex,
    /// The new length.
    pub length: FileLength,
}

/// Locks bytes of an open file.
#[derive(Clone, Copy, Debug, PartialEq, Eq)]
pub struct SmbLock {
    /// The index of the handle in the session.
    pub index: HandleIndex,
    /// The bytes that are locked.
    pub range: ByteRange,
    /// Whether the lock is exclusive, and else shared.
    pub exclusive: bool,
}

/// Removes a lock.
#[derive(Clone, Copy, Debug, PartialEq, Eq)]
pub struct SmbUnlock {
    /// The index of the handle in the session.
    pub index: HandleIndex,
    /// Exactly the bytes that are locked.
    pub range: ByteRange,
    /// Whether the lock is exclusive, and else shared.
    pub exclusive: bool,
}

/// Asks what an open file or directory is.
#[derive(Clone, Copy, Debug, PartialEq, Eq)]
pub struct SmbStat {
    /// The index of the handle in the session.
    pub index: HandleIndex,
}

/// Lists an open directory.
#[derive(Debug, Drop)]
pub struct SmbList {
    /// The index of the handle in the session.
    pub index: HandleIndex,
    /// The folded name in which the page begins. It is empty at the beginning.
    pub marker: Text,
    /// How many items the page has at most.
    pub max: PageSize,
}

impl SmbList {
    /// An equal call of its own.
    pub fn copy(&self) -> Result<SmbList, NoMemory>
        ensures { IfOk result (λ c. c ≡ self.now) }
    {
        Ok(SmbList {
            index: self.index,
            marker: self.marker.copy()?,
            max: self.max,
        })
    }
}

/// Sets a handle's mark for delete on close.
#[derive(Clone, Copy, Debug, PartialEq, Eq)]
pub struct SmbDispose {
    /// The index of the handle in the session.
    pub index: HandleIndex,
    /// Whether it is set, and else taken off.
    pub on: bool,
}
