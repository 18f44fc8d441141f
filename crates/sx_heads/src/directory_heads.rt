//! The calls on directories and on handles that list nothing.

ghost use Rattle.std.specs.Prelude.{◌≡◌, ◌++◌, IfOk, OnOk, Some, codes};
ghost use Rattle.sx_heads.specs.DirectorySpellings.{close_fields};
ghost use Rattle.sx_heads.specs.Fields.{headers_of, one, with_fields};
ghost use Rattle.sx_heads.specs.Values.{bool_text};
ghost use Rattle.sx_heads.specs.Spellings.{request_of};
ghost use Rattle.sx_heads.specs.DirectorySpellings.{create_directory, get_directory_properties};
ghost use Rattle.sx_heads.specs.DirectorySpellings.{get_directory_metadata, set_directory_metadata};
ghost use Rattle.sx_heads.specs.DirectorySpellings.{delete_directory, force_close_handles};

use crate::fields::{put, put_attributes, put_handle, put_metas, put_moment_if, request_with};
use crate::targets::target_text;
use crate::values::bool_text;
use http::Method;
use std::alloc::Global;
use sx_base::Items;
use sx_call::{
    CreateDirectory, DeleteDirectory, ForceCloseHandles, GetDirectoryMetadata,
    GetDirectoryProperties, SetDirectoryMetadata,
};
use sx_decode::forms::{Comp, Restype};
use sx_http::{Header, Request};
use sx_memory::NoMemory;

/// Create Directory.
#[tactic(auto, unfolding(crate::specs::Spellings::request_of, crate::specs::Spellings::headers_spelled, crate::specs::DirectorySpellings::create_directory))]
pub(crate) fn create_directory(alloc: Global, call: &CreateDirectory) -> Result<Request, NoMemory>
    ensures { IfOk result (λ r. r ≡ request_of (create_directory call.now)) }
{
    let at = call.at.target();
    let target = target_text(
        alloc,
        &at.share,
        at.path.parts(),
        Restype::Directory,
        Comp::Absent,
        None,
    )?;
    let mut headers = Items::new(alloc);
    put_attributes(alloc, &mut headers, &call.attributes.attributes())?;
    put_moment_if(alloc, &mut headers, "x-ms-file-creation-time", call.created)?;
    put_moment_if(
        alloc,
        &mut headers,
        "x-ms-file-last-write-time",
        call.written,
    )?;
    put_metas(alloc, &mut headers, call.meta.pairs())?;
    request_with(alloc, Method::PUT, target, headers, Items::new(alloc))
}

/// Get Directory Properties.
#[tactic(auto, unfolding(crate::specs::Spellings::request_of, crate::specs::Spellings::headers_spelled, crate::specs::DirectorySpellings::get_directory_properties))]
pub(crate) fn get_directory_properties(
    alloc: Global,
    call: &GetDirectoryProperties,
) -> Result<Request, NoMemory>
    ensures { IfOk result (λ r. r ≡ request_of (get_directory_properties call.now)) }
{
    let target = target_text(
        alloc,
        &call.at.share,
        call.at.path.parts(),
        Restype::Directory,
        Comp::Absent,
        call.snap,
    )?;
    let headers = Items::new(alloc);
    request_with(alloc, Method::GET, target, headers, Items::new(alloc))
}

/// Get Directory Metadata.
#[tactic(auto, unfolding(crate::specs::Spellings::request_of, crate::specs::Spellings::headers_spelled, crate::specs::DirectorySpellings::get_directory_metadata))]
pub(crate) fn get_directory_metadata(
    alloc: Global,
    call: &GetDirectoryMetadata,
) -> Result<Request, NoMemory>
    ensures { IfOk result (λ r. r ≡ request_of (get_directory_metadata call.now)) }
{
    let target = target_text(
        alloc,
        &call.at.share,
        call.at.path.parts(),
        Restype::Directory,
        Comp::Metadata,
        call.snap,
    )?;
    let headers = Items::new(alloc);
    request_with(alloc, Method::GET, target, headers, Items::new(alloc))
}

/// Set Directory Metadata.
#[tactic(auto, unfolding(crate::specs::Spellings::request_of, crate::specs::Spellings::headers_spelled, crate::specs::DirectorySpellings::set_directory_metadata))]
pub(crate) fn set_directory_metadata(
    alloc: Global,
    call: &SetDirectoryMetadata,
) -> Result<Request, NoMemory>
    ensures { IfOk result (λ r. r ≡ request_of (set_directory_metadata call.now)) }
{
    let target = target_text(
        alloc,
        &call.at.share,
        call.at.path.parts(),
        Restype::Directory,
        Comp::Metadata,
        None,
    )?;
    let mut headers = Items::new(alloc);
    put_metas(alloc, &mut headers, call.meta.pairs())?;
    request_with(alloc, Method::PUT, target, headers, Items::new(alloc))
}

/// Delete Directory.
#[tactic(auto, unfolding(crate::specs::Spellings::request_of, crate::specs::Spellings::headers_spelled, crate::specs::DirectorySpellings::delete_directory))]
pub(crate) fn delete_directory(alloc: Global, call: &DeleteDirectory) -> Result<Request, NoMemory>
    ensures { IfOk result (λ r. r ≡ request_of (delete_directory call.now)) }
{
    let at = call.at.target();
    let target = target_text(
        alloc,
        &at.share,
        at.path.parts(),
        Restype::Directory,
        Comp::Absent,
        None,
    )?;
    let headers = Items::new(alloc);
    request_with(alloc, Method::DELETE, target, headers, Items::new(alloc))
}

/// x-ms-recursive.
fn put_recursive(
    alloc: Global,
    headers: &mut Items<Header>,
    recursive: bool,
) -> Result<(), NoMemory>
    ensures { OnOk result
        (headers.new ≡ headers.old ++ headers_of (one (codes "x-ms-recursive") (Some (bool_text recursive)))) }
{
    put(alloc, headers, "x-ms-recursive", bool_text(recursive))
}

/// The handle that is closed, and whether those below are.
fn put_close(
    alloc: Global,
    headers: &mut Items<Header>,
    call: &ForceCloseHandles,
) -> Result<(), NoMemory>
    ensures { OnOk result (headers.new ≡ with_fields headers.old (close_fields call.now)) }
{
    put_handle(alloc, headers, call.handle)?;
    put_recursive(alloc, headers, call.recursive)
}

/// Force Close Handles.
#[tactic(auto, unfolding(crate::specs::Spellings::request_of, crate::specs::Spellings::headers_spelled, crate::specs::DirectorySpellings::force_close_handles))]
pub(crate) fn force_close_handles(
    alloc: Global,
    call: &ForceCloseHandles,
) -> Result<Request, NoMemory>
    ensures { IfOk result (λ r. r ≡ request_of (force_close_handles call.now)) }
{
    let target = target_text(
        alloc,
        &call.at.share,
        call.at.path.parts(),
        Restype::Absent,
        Comp::ForceCloseHandles,
        None,
    )?;
    let mut headers = Items::new(alloc);
    put_close(alloc, &mut headers, call)?;
    request_with(alloc, Method::PUT, target, headers, Items::new(alloc))
}
