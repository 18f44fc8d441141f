//! The calls on shares, but for List Shares.

ghost use Rattle.std.specs.Prelude.{◌≡◌, IfOk};
ghost use Rattle.sx_heads.specs.Spellings.{request_of};
ghost use Rattle.sx_heads.specs.ShareSpellings.{create_share, get_share_properties, set_share_properties};
ghost use Rattle.sx_heads.specs.ShareSpellings.{get_share_metadata};
ghost use Rattle.sx_heads.specs.ShareSpellings.{set_share_metadata, delete_share, delete_snapshot, snapshot_share};
ghost use Rattle.sx_heads.specs.ShareSpellings.{lease_share};

use crate::fields::{put_action, put_id_if, put_include, put_metas, put_number, request_with};
use crate::targets::target_text;
use http::Method;
use std::alloc::Global;
use sx_base::Items;
use sx_call::{
    CreateShare, DeleteShare, DeleteSnapshot, GetShareMetadata, GetShareProperties, LeaseShare,
    SetShareMetadata, SetShareProperties, SnapshotShare,
};
use sx_decode::forms::{Comp, Restype};
use sx_http::Request;
use sx_memory::NoMemory;

/// Create Share.
#[tactic(auto, unfolding(crate::specs::Spellings::request_of, crate::specs::Spellings::headers_spelled, crate::specs::ShareSpellings::create_share))]
pub(crate) fn create_share(alloc: Global, call: &CreateShare) -> Result<Request, NoMemory>
    ensures { IfOk result (λ r. r ≡ request_of (create_share call.now)) }
{
    let target = target_text(alloc, &call.share, &[], Restype::Share, Comp::Absent, None)?;
    let mut headers = Items::new(alloc);
    put_number(
        alloc,
        &mut headers,
        "x-ms-share-quota",
        u64::from(call.quota.gib()),
    )?;
    put_metas(alloc, &mut headers, call.meta.pairs())?;
    request_with(alloc, Method::PUT, target, headers, Items::new(alloc))
}

/// Get Share Properties.
#[tactic(auto, unfolding(crate::specs::Spellings::request_of, crate::specs::Spellings::headers_spelled, crate::specs::ShareSpellings::get_share_properties))]
pub(crate) fn get_share_properties(
    alloc: Global,
    call: &GetShareProperties,
) -> Result<Request, NoMemory>
    ensures { IfOk result (λ r. r ≡ request_of (get_share_properties call.now)) }
{
    let target = target_text(
        alloc,
        &call.share,
        &[],
        Restype::Share,
        Comp::Absent,
        call.scope.snap,
    )?;
    let mut headers = Items::new(alloc);
    put_id_if(alloc, &mut headers, "x-ms-lease-id", call.scope.lease)?;
    request_with(alloc, Method::GET, target, headers, Items::new(alloc))
}

/// Set Share Properties.
#[tactic(auto, unfolding(crate::specs::Spellings::request_of, crate::specs::Spellings::headers_spelled, crate::specs::ShareSpellings::set_share_properties))]
pub(crate) fn set_share_properties(
    alloc: Global,
    call: &SetShareProperties,
) -> Result<Request, NoMemory>
    ensures { IfOk result (λ r. r ≡ request_of (set_share_properties call.now)) }
{
    let target = target_text(
        alloc,
        &call.share,
        &[],
        Restype::Share,
        Comp::Properties,
        None,
    )?;
    let mut headers = Items::new(alloc);
    put_number(
        alloc,
        &mut headers,
        "x-ms-share-quota",
        u64::from(call.quota.gib()),
    )?;
    put_id_if(alloc, &mut headers, "x-ms-lease-id", call.lease)?;
    request_with(alloc, Method::PUT, target, headers, Items::new(alloc))
}

/// Get Share Metadata.
#[tactic(auto, unfolding(crate::specs::Spellings::request_of, crate::specs::Spellings::headers_spelled, crate::specs::ShareSpellings::get_share_metadata))]
pub(crate) fn get_share_metadata(
    alloc: Global,
    call: &GetShareMetadata,
) -> Result<Request, NoMemory>
    ensures { IfOk result (λ r. r ≡ request_of (get_share_metadata call.now)) }
{
    let target = target_text(
        alloc,
        &call.share,
        &[],
        Restype::Share,
        Comp::Metadata,
        call.scope.snap,
    )?;
    let mut headers = Items::new(alloc);
    put_id_if(alloc, &mut headers, "x-ms-lease-id", call.scope.lease)?;
    request_with(alloc, Method::GET, target, headers, Items::new(alloc))
}

/// Set Share Metadata.
#[tactic(auto, unfolding(crate::specs::Spellings::request_of, crate::specs::Spellings::headers_spelled, crate::specs::ShareSpellings::set_share_metadata))]
pub(crate) fn set_share_metadata(
    alloc: Global,
    call: &SetShareMetadata,
) -> Result<Request, NoMemory>
    ensures { IfOk result (λ r. r ≡ request_of (set_share_metadata call.now)) }
{
    let target = target_text(
        alloc,
        &call.share,
        &[],
        Restype::Share,
        Comp::Metadata,
        None,
    )?;
    let mut headers = Items::new(alloc);
    put_metas(alloc, &mut headers, call.meta.pairs())?;
    put_id_if(alloc, &mut headers, "x-ms-lease-id", call.lease)?;
    request_with(alloc, Method::PUT, target, headers, Items::new(alloc))
}

/// Delete Share.
#[tactic(auto, unfolding(crate::specs::Spellings::request_of, crate::specs::Spellings::headers_spelled, crate::specs::ShareSpellings::delete_share))]
pub(crate) fn delete_share(alloc: Global, call: &DeleteShare) -> Result<Request, NoMemory>
    ensures { IfOk result (λ r. r ≡ request_of (delete_share call.now)) }
{
    let target = target_text(alloc, &call.share, &[], Restype::Share, Comp::Absent, None)?;
    let mut headers = Items::new(alloc);
    put_include(alloc, &mut headers, call.include)?;
    put_id_if(alloc, &mut headers, "x-ms-lease-id", call.lease)?;
    request_with(alloc, Method::DELETE, target, headers, Items::new(alloc))
}

/// Delete Share of a snapshot.
#[tactic(auto, unfolding(crate::specs::Spellings::request_of, crate::specs::Spellings::headers_spelled, crate::specs::ShareSpellings::delete_snapshot))]
pub(crate) fn delete_snapshot(alloc: Global, call: &DeleteSnapshot) -> Result<Request, NoMemory>
    ensures { IfOk result (λ r. r ≡ request_of (delete_snapshot call.now)) }
{
    let target = target_text(
        alloc,
        &call.share,
        &[],
        Restype::Share,
        Comp::Absent,
        Some(call.moment),
    )?;
    let headers = Items::new(alloc);
    request_with(alloc, Method::DELETE, target, headers, Items::new(alloc))
}

/// Snapshot Share.
#[tactic(auto, unfolding(crate::specs::Spellings::request_of, crate::specs::Spellings::headers_spelled, crate::specs::ShareSpellings::snapshot_share))]
pub(crate) fn snapshot_share(alloc: Global, call: &SnapshotShare) -> Result<Request, NoMemory>
    ensures { IfOk result (λ r. r ≡ request_of (snapshot_share call.now)) }
{
    let target = target_text(
        alloc,
        &call.share,
        &[],
        Restype::Share,
        Comp::Snapshot,
        None,
    )?;
    let mut headers = Items::new(alloc);
    put_metas(alloc, &mut headers, call.meta.pairs())?;
    request_with(alloc, Method::PUT, target, headers, Items::new(alloc))
}

/// Lease Share.
#[tactic(auto, unfolding(crate::specs::Spellings::request_of, crate::specs::Spellings::headers_spelled, crate::specs::ShareSpellings::lease_share))]
pub(crate) fn lease_share(alloc: Global, call: &LeaseShare) -> Result<Request, NoMemory>
    ensures { IfOk result (λ r. r ≡ request_of (lease_share call.now)) }
{
    let target = target_text(alloc, &call.share, &[], Restype::Share, Comp::Lease, None)?;
    let mut headers = Items::new(alloc);
    put_action(alloc, &mut headers, &call.action)?;
    request_with(alloc, Method::PUT, target, headers, Items::new(alloc))
}
