//! The calls on shares: what each reads, in order.

ghost use Rattle.sx_decode.specs.Reading.{Reads};
ghost use Rattle.sx_decode.specs.ShareRows.{list_shares, create_share, get_share_properties, set_share_properties};
ghost use Rattle.sx_decode.specs.ShareRows.{get_share_metadata, set_share_metadata, delete_share, delete_snapshot};
ghost use Rattle.sx_decode.specs.ShareRows.{snapshot_share, lease_share};

use crate::asked::Asked;
use crate::leases::{lease_action, lease_of, scope_of};
use crate::markers::shares_marker;
use crate::metadata::meta_of;
use crate::refusals::no_call;
use crate::share_fields::{include_of, new_quota, set_quota};
use crate::unread::Unread;
use std::alloc::Global;
use sx_call::{
    Call, CreateShare, DeleteShare, DeleteSnapshot, GetShareMetadata, GetShareProperties,
    LeaseShare, ListShares, SetShareMetadata, SetShareProperties, SnapshotShare,
};
use sx_http::Header;
use sx_moment::Moment;
use sx_names::ShareName;

/// List Shares.
#[tactic(auto, unfolding(crate::specs::ShareRows::list_shares))]
pub(crate) fn list_shares(alloc: Global, asked: Asked) -> Result<Call, Unread>
    ensures { Reads result (list_shares asked) }
{
    let marker = shares_marker(alloc, asked.marker.bytes())?;
    Ok(Call::ListShares(ListShares {
        prefix: asked.prefix,
        marker,
        max: asked.max,
        snapshots: asked.snapshots,
    }))
}

/// Create Share.
#[tactic(auto, unfolding(crate::specs::ShareRows::create_share))]
pub(crate) fn create_share(
    alloc: Global,
    share: ShareName,
    headers: &[Header],
) -> Result<Call, Unread>
    ensures { Reads result (create_share share headers.now) }
{
    let quota = new_quota(alloc, headers)?;
    let meta = meta_of(alloc, headers)?;
    Ok(Call::CreateShare(CreateShare { share, quota, meta }))
}

/// Get Share Properties.
#[tactic(auto, unfolding(crate::specs::ShareRows::get_share_properties))]
pub(crate) fn get_share_properties(
    alloc: Global,
    share: ShareName,
    snap: Option<Moment>,
    headers: &[Header],
) -> Result<Call, Unread>
    ensures { Reads result (get_share_properties share snap headers.now) }
{
    let scope = scope_of(alloc, snap, headers)?;
    Ok(Call::GetShareProperties(GetShareProperties { share, scope }))
}

/// Set Share Properties.
#[tactic(auto, unfolding(crate::specs::ShareRows::set_share_properties))]
pub(crate) fn set_share_properties(
    alloc: Global,
    share: ShareName,
    headers: &[Header],
) -> Result<Call, Unread>
    ensures { Reads result (set_share_properties share headers.now) }
{
    let quota = set_quota(alloc, headers)?;
    let lease = lease_of(alloc, headers)?;
    Ok(Call::SetShareProperties(SetShareProperties {
        share,
        quota,
        lease,
    }))
}

/// Get Share Metadata.
#[tactic(auto, unfolding(crate::specs::ShareRows::get_share_metadata))]
pub(crate) fn get_share_metadata(
    alloc: Global,
    share: ShareName,
    snap: Option<Moment>,
    headers: &[Header],
) -> Result<Call, Unread>
    ensures { Reads result (get_share_metadata share snap headers.now) }
{
    let scope = scope_of(alloc, snap, headers)?;
    Ok(Call::GetShareMetadata(GetShareMetadata { share, scope }))
}

/// Set Share Metadata.
#[tactic(auto, unfolding(crate::specs::ShareRows::set_share_metadata))]
pub(crate) fn set_share_metadata(
    alloc: Global,
    share: ShareName,
    headers: &[Header],
) -> Result<Call, Unread>
    ensures { Reads result (set_share_metadata share headers.now) }
{
    let meta = meta_of(alloc, headers)?;
    let lease = lease_of(alloc, headers)?;
    Ok(Call::SetShareMetadata(SetShareMetadata { share, meta, lease }))
}

/// Delete Share.
#[tactic(auto, unfolding(crate::specs::ShareRows::delete_share))]
pub(crate) fn delete_share(
    alloc: Global,
    share: ShareName,
    headers: &[Header],
) -> Result<Call, Unread>
    ensures { Reads result (delete_share share headers.now) }
{
    let include = include_of(alloc, headers)?;
    let lease = lease_of(alloc, headers)?;
    Ok(Call::DeleteShare(DeleteShare {
        share,
        include,
        lease,
    }))
}

/// Delete Share, of the snapshot that sharesnapshot names.
#[tactic(auto, unfolding(crate::specs::ShareRows::delete_snapshot))]
pub(crate) fn delete_snapshot(share: ShareName, snap: Option<Moment>) -> Result<Call, Unread>
    ensures { Reads result (delete_snapshot share snap) }
{
    match snap {
        None => no_call(),
        Some(moment) => Ok(Call::DeleteSnapshot(DeleteSnapshot { share, moment })),
    }
}

/// Snapshot Share.
#[tactic(auto, unfolding(crate::specs::ShareRows::snapshot_share))]
pub(crate) fn snapshot_share(
    alloc: Global,
    share: ShareName,
    headers: &[Header],
) -> Result<Call, Unread>
    ensures { Reads result (snapshot_share share headers.now) }
{
    let meta = meta_of(alloc, headers)?;
    Ok(Call::SnapshotShare(SnapshotShare { share, meta }))
}

/// Lease Share.
#[tactic(auto, unfolding(crate::specs::ShareRows::lease_share))]
pub(crate) fn lease_share(
    alloc: Global,
    share: ShareName,
    headers: &[Header],
) -> Result<Call, Unread>
    ensures { Reads result (lease_share share headers.now) }
{
    let action = lease_action(alloc, headers)?;
    Ok(Call::LeaseShare(LeaseShare { share, action }))
}
