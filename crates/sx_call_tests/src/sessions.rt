//! The calls of sessions, one of each.
use crate::made::{access, index, length, named_path, range, read, share, text, write};
use std::alloc::Global;
use std::process::Abort;
use sx_call::{
    Call, How, SmbClose, SmbDispose, SmbList, SmbLock, SmbOpen, SmbRead, SmbResize, SmbStat,
    SmbUnlock, SmbWrite, Start,
};
use sx_guard::Mode;
use sx_names::PageSize;

/// Start.
pub fn start() -> Call {
    Call::Start(Start { peer: 7 })
}

/// End.
pub fn end() -> Call {
    Call::End
}

/// Smb open.
pub fn smb_open(rt: &impl Abort, alloc: Global) -> Call {
    Call::SmbOpen(SmbOpen {
        share: share(rt, alloc),
        path: named_path(rt, alloc),
        access: access(rt),
        mode: Mode {
            read: true,
            write: false,
            delete: true,
        },
        how: How::Either,
        dir: false,
    })
}

/// Smb close.
pub fn smb_close() -> Call {
    Call::SmbClose(SmbClose { index: index() })
}

/// Smb read.
pub fn smb_read(rt: &impl Abort) -> Call {
    Call::SmbRead(SmbRead {
        index: index(),
        range: read(rt),
    })
}

/// Smb write.
pub fn smb_write(rt: &impl Abort, alloc: Global) -> Call {
    Call::SmbWrite(SmbWrite {
        index: index(),
        write: write(rt, alloc),
    })
}

/// Smb resize.
pub fn smb_resize(rt: &impl Abort) -> Call {
    Call::SmbResize(SmbResize {
        index: index(),
        length: length(rt),
    })
}

/// Smb lock.
pub fn smb_lock(rt: &impl Abort) -> Call {
    Call::SmbLock(SmbLock {
        index: index(),
        range: range(rt),
        exclusive: true,
    })
}

/// Smb unlock.
pub fn smb_unlock(rt: &impl Abort) -> Call {
    Call::SmbUnlock(SmbUnlock {
        index: index(),
        range: range(rt),
        exclusive: false,
    })
}

/// Smb stat.
pub fn smb_stat() -> Call {
    Call::SmbStat(SmbStat { index: index() })
}

/// Smb list.
pub fn smb_list(rt: &impl Abort, alloc: Global) -> Call {
    Call::SmbList(SmbList {
        index: index(),
        marker: text(rt, alloc),
        max: PageSize::of(7),
    })
}

/// Smb dispose.
pub fn smb_dispose() -> Call {
    Call::SmbDispose(SmbDispose {
        index: index(),
        on: true,
    })
}
