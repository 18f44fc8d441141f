//! The calls on directories and on handles, one of each.
use crate::made::{directory_attributes, handle, meta, moment, named, query, target};
use std::alloc::Global;
use std::process::Abort;
use sx_call::{
    Call, CreateDirectory, DeleteDirectory, ForceCloseHandles, GetDirectoryMetadata,
    GetDirectoryProperties, ListDirectory, ListHandles, SetDirectoryMetadata,
};
use sx_names::PageSize;

/// Create directory.
pub fn create_directory(rt: &impl Abort, alloc: Global) -> Call {
    Call::CreateDirectory(CreateDirectory {
        at: named(rt, alloc),
        attributes: directory_attributes(),
        created: Some(moment()),
        written: None,
        meta: meta(rt, alloc),
    })
}

/// Get directory properties.
pub fn get_directory_properties(rt: &impl Abort, alloc: Global) -> Call {
    Call::GetDirectoryProperties(GetDirectoryProperties {
        at: target(rt, alloc),
        snap: Some(moment()),
    })
}

/// Get directory metadata.
pub fn get_directory_metadata(rt: &impl Abort, alloc: Global) -> Call {
    Call::GetDirectoryMetadata(GetDirectoryMetadata {
        at: target(rt, alloc),
        snap: None,
    })
}

/// Set directory metadata.
pub fn set_directory_metadata(rt: &impl Abort, alloc: Global) -> Call {
    Call::SetDirectoryMetadata(SetDirectoryMetadata {
        at: target(rt, alloc),
        meta: meta(rt, alloc),
    })
}

/// Delete directory.
pub fn delete_directory(rt: &impl Abort, alloc: Global) -> Call {
    Call::DeleteDirectory(DeleteDirectory {
        at: named(rt, alloc),
    })
}

/// List directory.
pub fn list_directory(rt: &impl Abort, alloc: Global) -> Call {
    Call::ListDirectory(ListDirectory {
        at: target(rt, alloc),
        snap: None,
        prefix: query(rt, alloc),
        marker: query(rt, alloc),
        max: PageSize::of(7),
    })
}

/// List handles.
pub fn list_handles(rt: &impl Abort, alloc: Global) -> Call {
    Call::ListHandles(ListHandles {
        at: target(rt, alloc),
        marker: Some(handle()),
        max: PageSize::of(7),
        recursive: true,
    })
}

/// Force close handles.
pub fn force_close_handles(rt: &impl Abort, alloc: Global) -> Call {
    Call::ForceCloseHandles(ForceCloseHandles {
        at: target(rt, alloc),
        handle: None,
        recursive: true,
    })
}
