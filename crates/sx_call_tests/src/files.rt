//! The calls on files, one of each.
use crate::made::{
    content, file_attributes, first, lease, length, meta, moment, named, range, snapshot, update,
};
use std::alloc::Global;
use std::process::Abort;
use sx_call::{
    Call, ClearRange, CreateFile, DeleteFile, GetFile, GetFileMetadata, GetFileProperties,
    LeaseAction, LeaseFile, ListRanges, SetFileMetadata, SetFileProperties, Time, UpdateRange,
};

/// Create file.
pub fn create_file(rt: &impl Abort, alloc: Global) -> Call {
    Call::CreateFile(CreateFile {
        at: named(rt, alloc),
        length: length(rt),
        content: content(rt, alloc),
        attributes: file_attributes(),
        created: None,
        written: Some(moment()),
        meta: meta(rt, alloc),
        lease: Some(lease()),
    })
}

/// Get file properties.
pub fn get_file_properties(rt: &impl Abort, alloc: Global) -> Call {
    Call::GetFileProperties(GetFileProperties {
        at: named(rt, alloc),
        scope: snapshot(rt),
    })
}

/// Set file properties.
pub fn set_file_properties(rt: &impl Abort, alloc: Global) -> Call {
    Call::SetFileProperties(SetFileProperties {
        at: named(rt, alloc),
        length: Some(length(rt)),
        content: content(rt, alloc),
        attributes: None,
        created: Time::Keep,
        written: Time::At(moment()),
        lease: None,
    })
}

/// Get file metadata.
pub fn get_file_metadata(rt: &impl Abort, alloc: Global) -> Call {
    Call::GetFileMetadata(GetFileMetadata {
        at: named(rt, alloc),
        scope: snapshot(rt),
    })
}

/// Set file metadata.
pub fn set_file_metadata(rt: &impl Abort, alloc: Global) -> Call {
    Call::SetFileMetadata(SetFileMetadata {
        at: named(rt, alloc),
        meta: meta(rt, alloc),
        lease: None,
    })
}

/// Delete file.
pub fn delete_file(rt: &impl Abort, alloc: Global) -> Call {
    Call::DeleteFile(DeleteFile {
        at: named(rt, alloc),
        lease: None,
    })
}

/// Lease file.
pub fn lease_file(rt: &impl Abort, alloc: Global) -> Call {
    Call::LeaseFile(LeaseFile {
        at: named(rt, alloc),
        action: LeaseAction::Acquire { proposed: None },
    })
}

/// Get file.
pub fn get_file(rt: &impl Abort, alloc: Global) -> Call {
    Call::GetFile(GetFile {
        at: named(rt, alloc),
        span: Some(first(rt)),
        scope: snapshot(rt),
    })
}

/// Update range.
pub fn update_range(rt: &impl Abort, alloc: Global) -> Call {
    Call::UpdateRange(UpdateRange {
        at: named(rt, alloc),
        update: update(rt, alloc),
        lease: None,
    })
}

/// Clear range.
pub fn clear_range(rt: &impl Abort, alloc: Global) -> Call {
    Call::ClearRange(ClearRange {
        at: named(rt, alloc),
        range: range(rt),
        lease: None,
    })
}

/// List ranges.
pub fn list_ranges(rt: &impl Abort, alloc: Global) -> Call {
    Call::ListRanges(ListRanges {
        at: named(rt, alloc),
        span: None,
        scope: snapshot(rt),
    })
}
