//! The calls on shares ("Operations on FileShares" of the File service's REST reference).
ghost use Rattle.std.specs.Prelude.{◌≡◌, IfOk};

use crate::leases::{LeaseAction, SnapOrLease};
use crate::listings::{QueryText, SharesMarker};
use sx_lease::LeaseId;
use sx_memory::NoMemory;
use sx_moment::Moment;
use sx_names::{Meta, PageSize, Quota, ShareName};

/// List Shares.
#[derive(Debug, Drop)]
pub struct ListShares {
    /// What the names begin with.
    pub prefix: QueryText,
    /// Where the page begins, or none for the beginning.
    pub marker: Option<SharesMarker>,
    /// How many items the page has at most.
    pub max: PageSize,
    /// Whether snapshots are listed too.
    pub snapshots: bool,
}

impl ListShares {
    /// An equal call of its own.
    pub fn copy(&self) -> Result<ListShares, NoMemory>
        ensures { IfOk result (λ c. c ≡ self.now) }
    {
        let marker = match &self.marker {
            Some(marker) => Some(marker.copy()?),
            None => None,
        };
        Ok(ListShares {
            prefix: self.prefix.copy()?,
            marker,
            max: self.max,
            snapshots: self.snapshots,
        })
    }
}

/// Create Share.
#[derive(Debug, Drop)]
pub struct CreateShare {
    /// The name of the share.
    pub share: ShareName,
    /// Its quota.
    pub quota: Quota,
    /// Its metadata.
    pub meta: Meta,
}

impl CreateShare {
    /// An equal call of its own.
    pub fn copy(&self) -> Result<CreateShare, NoMemory>
        ensures { IfOk result (λ c. c ≡ self.now) }
    {
        Ok(CreateShare {
            share: self.share.copy()?,
            quota: self.quota,
            meta: self.meta.copy()?,
        })
    }
}

/// Get Share Properties.
#[derive(Debug, Drop)]
pub struct GetShareProperties {
    /// The name of the share.
    pub share: ShareName,
    /// The snapshot that is read, or the id under which the share's lease is held.
    pub scope: SnapOrLease,
}

impl GetShareProperties {
    /// An equal call of its own.
    pub fn copy(&self) -> Result<GetShareProperties, NoMemory>
        ensures { IfOk result (λ c. c ≡ self.now) }
    {
        Ok(GetShareProperties {
            share: self.share.copy()?,
            scope: self.scope,
        })
    }
}

/// Set Share Properties.
#[derive(Debug, Drop)]
pub struct SetShareProperties {
    /// The name of the share.
    pub share: ShareName,
    /// Its new quota.
    pub quota: Quota,
    /// The id under which the share's lease is held.
    pub lease: Option<LeaseId>,
}

impl SetShareProperties {
    /// An equal call of its own.
    pub fn copy(&self) -> Result<SetShareProperties, NoMemory>
        ensures { IfOk result (λ c. c ≡ self.now) }
    {
        Ok(SetShareProperties {
            share: self.share.copy()?,
            quota: self.quota,
            lease: self.lease,
        })
    }
}

/// Get Share Metadata.
#[derive(Debug, Drop)]
pub struct GetShareMetadata {
    /// The name of the share.
    pub share: ShareName,
    /// The snapshot that is read, or the id under which the share's lease is held.
    pub scope: SnapOrLease,
}

impl GetShareMetadata {
    /// An equal call of its own.
    pub fn copy(&self) -> Result<GetShareMetadata, NoMemory>
        ensures { IfOk result (λ c. c ≡ self.now) }
    {
        Ok(GetShareMetadata {
            share: self.share.copy()?,
            scope: self.scope,
        })
    }
}

/// Set Share Metadata.
#[derive(Debug, Drop)]
pub struct SetShareMetadata {
    /// The name of the share.
    pub share: ShareName,
    /// Its new metadata.
    pub meta: Meta,
    /// The id under which the share's lease is held.
    pub lease: Option<LeaseId>,
}

impl SetShareMetadata {
    /// An equal call of its own.
    pub fn copy(&self) -> Result<SetShareMetadata, NoMemory>
        ensures { IfOk result (λ c. c ≡ self.now) }
    {
        Ok(SetShareMetadata {
            share: self.share.copy()?,
            meta: self.meta.copy()?,
            lease: self.lease,
        })
    }
}

/// Delete Share.
#[derive(Debug, Drop)]
pub struct DeleteShare {
    /// The name of the share.
    pub share: ShareName,
    /// Whether its snapshots are deleted with it. A share that has some is else not deleted.
    pub include: bool,
    /// The id under which the share's lease is held.
    pub lease: Option<LeaseId>,
}

impl DeleteShare {
    /// An equal call of its own.
    pub fn copy(&self) -> Result<DeleteShare, NoMemory>
        ensures { IfOk result (λ c. c ≡ self.now) }
    {
        Ok(DeleteShare {
            share: self.share.copy()?,
            include: self.include,
            lease: self.lease,
        })
    }
}

/// Delete Share of one snapshot.
#[derive(Debug, Drop)]
pub struct DeleteSnapshot {
    /// The name of the share.
    pub share: ShareName,
    /// The snapshot's moment.
    pub moment: Moment,
}

impl DeleteSnapshot {
    /// An equal call of its own.
    pub fn copy(&self) -> Result<DeleteSnapshot, NoMemory>
        ensures { IfOk result (λ c. c ≡ self.now) }
    {
        Ok(DeleteSnapshot {
            share: self.share.copy()?,
            moment: self.moment,
        })
    }
}

/// Snapshot Share.
#[derive(Debug, Drop)]
pub struct SnapshotShare {
    /// The name of the share.
    pub share: ShareName,
    /// The snapshot's metadata. Where there is none the share's are taken.
    pub meta: Meta,
}

impl SnapshotShare {
    /// An equal call of its own.
    pub fn copy(&self) -> Result<SnapshotShare, NoMemory>
        ensures { IfOk result (λ c. c ≡ self.now) }
    {
        Ok(SnapshotShare {
            share: self.share.copy()?,
            meta: self.meta.copy()?,
        })
    }
}

/// Lease Share.
#[derive(Debug, Drop)]
pub struct LeaseShare {
    /// The name of the share.
    pub share: ShareName,
    /// What is done with the lease.
    pub action: LeaseAction,
}

impl LeaseShare {
    /// An equal call of its own.
    pub fn copy(&self) -> Result<LeaseShare, NoMemory>
        ensures { IfOk result (λ c. c ≡ self.now) }
    {
        Ok(LeaseShare {
            share: self.share.copy()?,
            action: self.action,
        })
    }
}
