//! The calls on files, but for those that give properties.

ghost use Rattle.std.specs.Prelude.{◌≡◌, IfOk};
ghost use Rattle.sx_heads.specs.Spellings.{request_of};
ghost use Rattle.sx_heads.specs.FileSpellings.{get_file, get_file_properties, get_file_metadata, set_file_metadata};
ghost use Rattle.sx_heads.specs.FileSpellings.{update_range, clear_range, list_ranges, delete_file};
ghost use Rattle.sx_heads.specs.FileSpellings.{lease_file};

use crate::fields::{put, put_action, put_id_if, put_metas, put_range, put_span, request_with};
use crate::targets::target_text;
use http::Method;
use std::alloc::Global;
use sx_base::Items;
use sx_call::{
    ClearRange, DeleteFile, GetFile, GetFileMetadata, GetFileProperties, LeaseFile, ListRanges,
    SetFileMetadata, UpdateRange,
};
use sx_decode::forms::{Comp, Restype};
use sx_http::Request;
use sx_memory::NoMemory;

/// Get File.
#[tactic(auto, unfolding(crate::specs::Spellings::request_of, crate::specs::Spellings::headers_spelled, crate::specs::FileSpellings::get_file))]
pub(crate) fn get_file(alloc: Global, call: &GetFile) -> Result<Request, NoMemory>
    ensures { IfOk result (λ r. r ≡ request_of (get_file call.now)) }
{
    let at = call.at.target();
    let target = target_text(
        alloc,
        &at.share,
        at.path.parts(),
        Restype::Absent,
        Comp::Absent,
        call.scope.snap,
    )?;
    let mut headers = Items::new(alloc);
    put_span(alloc, &mut headers, &call.span)?;
    put_id_if(alloc, &mut headers, "x-ms-lease-id", call.scope.lease)?;
    request_with(alloc, Method::GET, target, headers, Items::new(alloc))
}

/// Get File Properties.
#[tactic(auto, unfolding(crate::specs::Spellings::request_of, crate::specs::Spellings::headers_spelled, crate::specs::FileSpellings::get_file_properties))]
pub(crate) fn get_file_properties(
    alloc: Global,
    call: &GetFileProperties,
) -> Result<Request, NoMemory>
    ensures { IfOk result (λ r. r ≡ request_of (get_file_properties call.now)) }
{
    let at = call.at.target();
    let target = target_text(
        alloc,
        &at.share,
        at.path.parts(),
        Restype::Absent,
        Comp::Absent,
        call.scope.snap,
    )?;
    let mut headers = Items::new(alloc);
    put_id_if(alloc, &mut headers, "x-ms-lease-id", call.scope.lease)?;
    request_with(alloc, Method::HEAD, target, headers, Items::new(alloc))
}

/// Get File Metadata.
#[tactic(auto, unfolding(crate::specs::Spellings::request_of, crate::specs::Spellings::headers_spelled, crate::specs::FileSpellings::get_file_metadata))]
pub(crate) fn get_file_metadata(alloc: Global, call: &GetFileMetadata) -> Result<Request, NoMemory>
    ensures { IfOk result (λ r. r ≡ request_of (get_file_metadata call.now)) }
{
    let at = call.at.target();
    let target = target_text(
        alloc,
        &at.share,
        at.path.parts(),
        Restype::Absent,
        Comp::Metadata,
        call.scope.snap,
    )?;
    let mut headers = Items::new(alloc);
    put_id_if(alloc, &mut headers, "x-ms-lease-id", call.scope.lease)?;
    request_with(alloc, Method::GET, target, headers, Items::new(alloc))
}

/// Set File Metadata.
#[tactic(auto, unfolding(crate::specs::Spellings::request_of, crate::specs::Spellings::headers_spelled, crate::specs::FileSpellings::set_file_metadata))]
pub(crate) fn set_file_metadata(alloc: Global, call: &SetFileMetadata) -> Result<Request, NoMemory>
    ensures { IfOk result (λ r. r ≡ request_of (set_file_metadata call.now)) }
{
    let at = call.at.target();
    let target = target_text(
        alloc,
        &at.share,
        at.path.parts(),
        Restype::Absent,
        Comp::Metadata,
        None,
    )?;
    let mut headers = Items::new(alloc);
    put_metas(alloc, &mut headers, call.meta.pairs())?;
    put_id_if(alloc, &mut headers, "x-ms-lease-id", call.lease)?;
    request_with(alloc, Method::PUT, target, headers, Items::new(alloc))
}

/// Put Range with `update`.
#[tactic(auto, unfolding(crate::specs::Spellings::request_of, crate::specs::Spellings::headers_spelled, crate::specs::FileSpellings::update_range))]
pub(crate) fn update_range(alloc: Global, call: &UpdateRange) -> Result<Request, NoMemory>
    ensures { IfOk result (λ r. r ≡ request_of (update_range call.now)) }
{
    let at = call.at.target();
    let target = target_text(
        alloc,
        &at.share,
        at.path.parts(),
        Restype::Absent,
        Comp::Range,
        None,
    )?;
    let mut headers = Items::new(alloc);
    put(alloc, &mut headers, "x-ms-write", b"update")?;
    put_range(
        alloc,
        &mut headers,
        call.update.from,
        Some(call.update.end() - 1),
    )?;
    put_id_if(alloc, &mut headers, "x-ms-lease-id", call.lease)?;
    let body = Items::copy_of(alloc, call.update.piece.bytes())?;
    request_with(alloc, Method::PUT, target, headers, body)
}

/// Put Range with `clear`.
#[tactic(auto, unfolding(crate::specs::Spellings::request_of, crate::specs::Spellings::headers_spelled, crate::specs::FileSpellings::clear_range))]
pub(crate) fn clear_range(alloc: Global, call: &ClearRange) -> Result<Request, NoMemory>
    ensures { IfOk result (λ r. r ≡ request_of (clear_range call.now)) }
{
    let at = call.at.target();
    let target = target_text(
        alloc,
        &at.share,
        at.path.parts(),
        Restype::Absent,
        Comp::Range,
        None,
    )?;
    let mut headers = Items::new(alloc);
    put(alloc, &mut headers, "x-ms-write", b"clear")?;
    put_range(
        alloc,
        &mut headers,
        call.range.from,
        Some(call.range.end - 1),
    )?;
    put_id_if(alloc, &mut headers, "x-ms-lease-id", call.lease)?;
    request_with(alloc, Method::PUT, target, headers, Items::new(alloc))
}

/// List Ranges.
#[tactic(auto, unfolding(crate::specs::Spellings::request_of, crate::specs::Spellings::headers_spelled, crate::specs::FileSpellings::list_ranges))]
pub(crate) fn list_ranges(alloc: Global, call: &ListRanges) -> Result<Request, NoMemory>
    ensures { IfOk result (λ r. r ≡ request_of (list_ranges call.now)) }
{
    let at = call.at.target();
    let target = target_text(
        alloc,
        &at.share,
        at.path.parts(),
        Restype::Absent,
        Comp::RangeList,
        call.scope.snap,
    )?;
    let mut headers = Items::new(alloc);
    put_span(alloc, &mut headers, &call.span)?;
    put_id_if(alloc, &mut headers, "x-ms-lease-id", call.scope.lease)?;
    request_with(alloc, Method::GET, target, headers, Items::new(alloc))
}

/// Delete File.
#[tactic(auto, unfolding(crate::specs::Spellings::request_of, crate::specs::Spellings::headers_spelled, crate::specs::FileSpellings::delete_file))]
pub(crate) fn delete_file(alloc: Global, call: &DeleteFile) -> Result<Request, NoMemory>
    ensures { IfOk result (λ r. r ≡ request_of (delete_file call.now)) }
{
    let at = call.at.target();
    let target = target_text(
        alloc,
        &at.share,
        at.path.parts(),
        Restype::Absent,
        Comp::Absent,
        None,
    )?;
    let mut headers = Items::new(alloc);
    put_id_if(alloc, &mut headers, "x-ms-lease-id", call.lease)?;
    request_with(alloc, Method::DELETE, target, headers, Items::new(alloc))
}

/// Lease File.
#[tactic(auto, unfolding(crate::specs::Spellings::request_of, crate::specs::Spellings::headers_spelled, crate::specs::FileSpellings::lease_file))]
pub(crate) fn lease_file(alloc: Global, call: &LeaseFile) -> Result<Request, NoMemory>
    ensures { IfOk result (λ r. r ≡ request_of (lease_file call.now)) }
{
    let at = call.at.target();
    let target = target_text(
        alloc,
        &at.share,
        at.path.parts(),
        Restype::Absent,
        Comp::Lease,
        None,
    )?;
    let mut headers = Items::new(alloc);
    put_action(alloc, &mut headers, &call.action)?;
    request_with(alloc, Method::PUT, target, headers, Items::new(alloc))
}
