//! The calls on files, but for those on their ranges: what each reads, in order.

ghost use Rattle.sx_decode.specs.Reading.{Reads};
ghost use Rattle.sx_decode.specs.FileRows.{new_file, create_file, get_file, get_file_properties};
ghost use Rattle.sx_decode.specs.FileRows.{set_properties, set_file_properties, get_file_metadata};
ghost use Rattle.sx_decode.specs.FileRows.{set_file_metadata, delete_file, lease_file};

use crate::contents::content_of;
use crate::file_facts::{new_facts, set_facts};
use crate::file_fields::{needed_word, new_length, set_length};
use crate::leases::{lease_action, lease_of, scope_of};
use crate::metadata::meta_of;
use crate::ranges::span_of;
use crate::targets::below_root;
use crate::unread::Unread;
use std::alloc::Global;
use sx_call::{
    Call, CreateFile, DeleteFile, FileLength, GetFile, GetFileMetadata, GetFileProperties,
    LeaseFile, NamedTarget, SetFileMetadata, SetFileProperties, Target,
};
use sx_http::Header;
use sx_moment::Moment;

/// A new file of a length, with its content headers and facts.
#[tactic(auto, unfolding(crate::specs::FileRows::new_file))]
fn new_file(
    alloc: Global,
    at: NamedTarget,
    length: FileLength,
    headers: &[Header],
) -> Result<Call, Unread>
    ensures { Reads result (new_file at length headers.now) }
{
    let content = content_of(alloc, headers)?;
    let facts = new_facts(alloc, headers)?;
    Ok(Call::CreateFile(CreateFile {
        at,
        length,
        content,
        attributes: facts.attributes,
        created: facts.created,
        written: facts.written,
        meta: facts.meta,
        lease: facts.lease,
    }))
}

/// Create File.
#[tactic(auto, unfolding(crate::specs::FileRows::create_file))]
pub(crate) fn create_file(alloc: Global, target: Target, headers: &[Header]) -> Result<Call, Unread>
    ensures { Reads result (create_file target headers.now) }
{
    let at = below_root(target)?;
    needed_word(alloc, headers, "x-ms-type", b"file")?;
    let length = new_length(alloc, headers)?;
    new_file(alloc, at, length, headers)
}

/// Get File.
#[tactic(auto, unfolding(crate::specs::FileRows::get_file))]
pub(crate) fn get_file(
    alloc: Global,
    target: Target,
    snap: Option<Moment>,
    headers: &[Header],
) -> Result<Call, Unread>
    ensures { Reads result (get_file target snap headers.now) }
{
    let at = below_root(target)?;
    let span = span_of(alloc, headers)?;
    let scope = scope_of(alloc, snap, headers)?;
    Ok(Call::GetFile(GetFile { at, span, scope }))
}

/// Get File Properties.
#[tactic(auto, unfolding(crate::specs::FileRows::get_file_properties))]
pub(crate) fn get_file_properties(
    alloc: Global,
    target: Target,
    snap: Option<Moment>,
    headers: &[Header],
) -> Result<Call, Unread>
    ensures { Reads result (get_file_properties target snap headers.now) }
{
    let at = below_root(target)?;
    let scope = scope_of(alloc, snap, headers)?;
    Ok(Call::GetFileProperties(GetFileProperties { at, scope }))
}

/// The properties that are set beside a length.
#[tactic(auto, unfolding(crate::specs::FileRows::set_properties))]
fn set_properties(
    alloc: Global,
    at: NamedTarget,
    length: Option<FileLength>,
    headers: &[Header],
) -> Result<Call, Unread>
    ensures { Reads result (set_properties at length headers.now) }
{
    let content = content_of(alloc, headers)?;
    let facts = set_facts(alloc, headers)?;
    Ok(Call::SetFileProperties(SetFileProperties {
        at,
        length,
        content,
        attributes: facts.attributes,
        created: facts.created,
        written: facts.written,
        lease: facts.lease,
    }))
}

/// Set File Properties.
#[tactic(auto, unfolding(crate::specs::FileRows::set_file_properties))]
pub(crate) fn set_file_properties(
    alloc: Global,
    target: Target,
    headers: &[Header],
) -> Result<Call, Unread>
    ensures { Reads result (set_file_properties target headers.now) }
{
    let at = below_root(target)?;
    let length = set_length(alloc, headers)?;
    set_properties(alloc, at, length, headers)
}

/// Get File Metadata.
#[tactic(auto, unfolding(crate::specs::FileRows::get_file_metadata))]
pub(crate) fn get_file_metadata(
    alloc: Global,
    target: Target,
    snap: Option<Moment>,
    headers: &[Header],
) -> Result<Call, Unread>
    ensures { Reads result (get_file_metadata target snap headers.now) }
{
    let at = below_root(target)?;
    let scope = scope_of(alloc, snap, headers)?;
    Ok(Call::GetFileMetadata(GetFileMetadata { at, scope }))
}

/// Set File Metadata.
#[tactic(auto, unfolding(crate::specs::FileRows::set_file_metadata))]
pub(crate) fn set_file_metadata(
    alloc: Global,
    target: Target,
    headers: &[Header],
) -> Result<Call, Unread>
    ensures { Reads result (set_file_metadata target headers.now) }
{
    let at = below_root(target)?;
    let meta = meta_of(alloc, headers)?;
    let lease = lease_of(alloc, headers)?;
    Ok(Call::SetFileMetadata(SetFileMetadata { at, meta, lease }))
}

/// Delete File.
#[tactic(auto, unfolding(crate::specs::FileRows::delete_file))]
pub(crate) fn delete_file(alloc: Global, target: Target, headers: &[Header]) -> Result<Call, Unread>
    ensures { Reads result (delete_file target headers.now) }
{
    let at = below_root(target)?;
    let lease = lease_of(alloc, headers)?;
    Ok(Call::DeleteFile(DeleteFile { at, lease }))
}

/// Lease File.
#[tactic(auto, unfolding(crate::specs::FileRows::lease_file))]
pub(crate) fn lease_file(alloc: Global, target: Target, headers: &[Header]) -> Result<Call, Unread>
    ensures { Reads result (lease_file target headers.now) }
{
    let at = below_root(target)?;
    let action = lease_action(alloc, headers)?;
    Ok(Call::LeaseFile(LeaseFile { at, action }))
}
