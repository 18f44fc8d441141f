//! The calls on directories: what each reads, in order.

ghost use Rattle.sx_decode.specs.Reading.{Reads};
ghost use Rattle.sx_decode.specs.DirectoryRows.{create_directory, set_directory_metadata, delete_directory};
ghost use Rattle.sx_decode.specs.DirectoryRows.{list_directory};

use crate::asked::Asked;
use crate::facts::new_directory_attributes;
use crate::markers::names_marker;
use crate::metadata::meta_of;
use crate::targets::below_root;
use crate::times::new_time;
use crate::unread::Unread;
use std::alloc::Global;
use sx_call::{
    Call, CreateDirectory, DeleteDirectory, ListDirectory, SetDirectoryMetadata, Target,
};
use sx_http::Header;

/// Create Directory.
#[tactic(auto, unfolding(crate::specs::DirectoryRows::create_directory))]
pub(crate) fn create_directory(
    alloc: Global,
    target: Target,
    headers: &[Header],
) -> Result<Call, Unread>
    ensures { Reads result (create_directory target headers.now) }
{
    let at = below_root(target)?;
    let attributes = new_directory_attributes(alloc, headers)?;
    let created = new_time(alloc, headers, "x-ms-file-creation-time")?;
    let written = new_time(alloc, headers, "x-ms-file-last-write-time")?;
    let meta = meta_of(alloc, headers)?;
    Ok(Call::CreateDirectory(CreateDirectory {
        at,
        attributes,
        created,
        written,
        meta,
    }))
}

/// Set Directory Metadata.
#[tactic(auto, unfolding(crate::specs::DirectoryRows::set_directory_metadata))]
pub(crate) fn set_directory_metadata(
    alloc: Global,
    at: Target,
    headers: &[Header],
) -> Result<Call, Unread>
    ensures { Reads result (set_directory_metadata at headers.now) }
{
    let meta = meta_of(alloc, headers)?;
    Ok(Call::SetDirectoryMetadata(SetDirectoryMetadata { at, meta }))
}

/// Delete Directory.
#[tactic(auto, unfolding(crate::specs::DirectoryRows::delete_directory))]
pub(crate) fn delete_directory(target: Target) -> Result<Call, Unread>
    ensures { Reads result (delete_directory target) }
{
    let at = below_root(target)?;
    Ok(Call::DeleteDirectory(DeleteDirectory { at }))
}

/// List Directories and Files.
#[tactic(auto, unfolding(crate::specs::DirectoryRows::list_directory))]
pub(crate) fn list_directory(alloc: Global, at: Target, asked: Asked) -> Result<Call, Unread>
    ensures { Reads result (list_directory at asked) }
{
    let marker = names_marker(alloc, asked.marker.bytes())?;
    Ok(Call::ListDirectory(ListDirectory {
        at,
        snap: asked.snapshot,
        prefix: asked.prefix,
        marker,
        max: asked.max,
    }))
}
