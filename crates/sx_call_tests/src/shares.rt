//! The calls on shares, one of each.
use crate::made::{lease, meta, moment, query, share, shares_marker, snapshot};
use std::alloc::Global;
use std::process::Abort;
use sx_call::{
    Call, CreateShare, DeleteShare, DeleteSnapshot, GetShareMetadata, GetShareProperties,
    LeaseAction, LeaseShare, ListShares, SetShareMetadata, SetShareProperties, SnapshotShare,
};
use sx_names::{PageSize, Quota};

/// List shares.
pub fn list_shares(rt: &impl Abort, alloc: Global) -> Call {
    Call::ListShares(ListShares {
        prefix: query(rt, alloc),
        marker: Some(shares_marker(rt, alloc)),
        max: PageSize::of(7),
        snapshots: true,
    })
}

/// Create share.
pub fn create_share(rt: &impl Abort, alloc: Global) -> Call {
    Call::CreateShare(CreateShare {
        share: share(rt, alloc),
        quota: Quota::of(5),
        meta: meta(rt, alloc),
    })
}

/// Get share properties.
pub fn get_share_properties(rt: &impl Abort, alloc: Global) -> Call {
    Call::GetShareProperties(GetShareProperties {
        share: share(rt, alloc),
        scope: snapshot(rt),
    })
}

/// Set share properties.
pub fn set_share_properties(rt: &impl Abort, alloc: Global) -> Call {
    Call::SetShareProperties(SetShareProperties {
        share: share(rt, alloc),
        quota: Quota::of(5),
        lease: Some(lease()),
    })
}

/// Get share metadata.
pub fn get_share_metadata(rt: &impl Abort, alloc: Global) -> Call {
    Call::GetShareMetadata(GetShareMetadata {
        share: share(rt, alloc),
        scope: snapshot(rt),
    })
}

/// Set share metadata.
pub fn set_share_metadata(rt: &impl Abort, alloc: Global) -> Call {
    Call::SetShareMetadata(SetShareMetadata {
        share: share(rt, alloc),
        meta: meta(rt, alloc),
        lease: None,
    })
}

/// Delete share.
pub fn delete_share(rt: &impl Abort, alloc: Global) -> Call {
    Call::DeleteShare(DeleteShare {
        share: share(rt, alloc),
        include: true,
        lease: None,
    })
}

/// Delete snapshot.
pub fn delete_snapshot(rt: &impl Abort, alloc: Global) -> Call {
    Call::DeleteSnapshot(DeleteSnapshot {
        share: share(rt, alloc),
        moment: moment(),
    })
}

/// Snapshot share.
pub fn snapshot_share(rt: &impl Abort, alloc: Global) -> Call {
    Call::SnapshotShare(SnapshotShare {
        share: share(rt, alloc),
        meta: meta(rt, alloc),
    })
}

/// Lease share.
pub fn lease_share(rt: &impl Abort, alloc: Global) -> Call {
    Call::LeaseShare(LeaseShare {
        share: share(rt, alloc),
        action: LeaseAction::Break,
    })
}
