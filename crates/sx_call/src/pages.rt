//! The pages of shares and of handles. That of names is `sx_names`'.

use sx_base::Items;
use sx_guard::HandleId;
use sx_moment::{Moment, Second};
use sx_names::{PageSize, Quota, Text};

/// A share or one of its snapshots in a listing of shares.
#[derive(Debug, Drop)]
pub struct ShareItem {
    /// The name of the share.
    pub name: Text,
    /// The moment of the snapshot, or none for the share itself.
    pub snapshot: Option<Moment>,
    /// The second of its change time.
    pub changed: Second,
    /// The place in the history of the entry that changed it, from 1.
    pub etag: u64,
    /// Its quota.
    pub quota: Quota,
}

/// A page of a listing of shares ("List Shares" of Azure Files).
#[derive(Debug, Drop)]
pub struct SharesPage {
    /// What the names begin with, as it was asked for.
    pub prefix: Text,
    /// The share or snapshot in which the page starts, as it was asked for (`NAME` or `NAME@MOMENT`).
    pub marker: Text,
    /// How many items the page has at most.
    pub max: PageSize,
    /// The items by name, a share before its snapshots, these by moment.
    pub items: Items<ShareItem>,
    /// The share or snapshot in which the next page starts. It is empty at the end.
    pub next: Text,
}

/// An open handle in a listing of handles.
#[derive(Debug, Drop)]
pub struct HandleItem {
    /// The handle.
    pub handle: HandleId,
    /// The path of its file or directory: the names as they are kept, joined by `/`.
    pub path: Text,
    /// The id of its file or directory, from 1.
    pub id: u64,
    /// The id of the directory that this is in, and 0 for a root.
    pub parent: u64,
    /// The number of its session, from 1.
    pub session: u32,
    /// The peer of its session, an IPv4 address as a number.
    pub peer: u32,
    /// The moment of opening.
    pub at: Moment,
}

/// A page of a listing of handles ("List Handles" of Azure Files).
#[derive(Debug, Drop)]
pub struct HandlesPage {
    /// The items, in order of handle.
    pub items: Items<HandleItem>,
    /// The handle with which the next page starts, or none at the end.
    pub next: Option<HandleId>,
}
