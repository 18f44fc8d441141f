//! Shares, with their snapshots.
use crate::tree::Tree;
use sx_base::Items;
use sx_lease::ShareLease;
use sx_moment::Moment;
use sx_names::{Meta, Quota, ShareName};

/// What a snapshot keeps of a share.
#[derive(Drop)]
pub struct Snapshot {
    /// The moment by which it is asked for.
    pub moment: Moment,
    /// The share's quota.
    pub quota: Quota,
    /// The metadata that was given with it, or else the share's.
    pub meta: Meta,
    /// The share's ETag: a place in the history.
    pub etag: u64,
    /// The moment at which the share was changed last.
    pub changed: Moment,
    /// The share's directories and files, no lease held and no deletion pending.
    pub tree: Tree,
}

/// A share.
#[derive(Drop)]
pub struct Share {
    /// Its name.
    pub name: ShareName,
    /// How much of it may be marked.
    pub quota: Quota,
    /// Its metadata.
    pub meta: Meta,
    /// The place in the history of the entry that changed it last, which is its ETag.
    pub etag: u64,
    /// The moment at which it was changed last.
    pub changed: Moment,
    /// Its lease.
    pub lease: ShareLease,
    /// Its directories and files.
    pub tree: Tree,
    /// Its snapshots, in order of moment.
    pub snapshots: Items<Snapshot>,
    /// The moment last given to a snapshot of it, deleted ones included.
    pub given: Option<Moment>,
}
