//! The requests that rows of the table of calls fit: methods, paths, restype and comp.

/// The method of a request.
#[derive(Clone, Copy)]
pub enum Verb {
    /// GET
    Get,
    /// HEAD
    Head,
    /// PUT
    Put,
    /// DELETE
    Delete,
}

/// The methods of a row.
#[derive(Clone, Copy)]
pub enum Verbs {
    /// GET alone.
    Get,
    /// HEAD alone.
    Head,
    /// GET or HEAD.
    GetOrHead,
    /// PUT
    Put,
    /// DELETE
    Delete,
}

/// What the path of a request names.
#[derive(Clone, Copy)]
pub enum Shape {
    /// The account.
    Account,
    /// A share, and no part in it.
    Share,
    /// A share and at least one part.
    Path,
}

/// The paths of a row.
#[derive(Clone, Copy)]
pub enum Shapes {
    /// The account's alone.
    Account,
    /// That of a share alone.
    Share,
    /// A path of at least one part in a share.
    Path,
    /// A path in a share that may be empty.
    ShareOrPath,
}

/// restype of a request.
#[derive(Clone, Copy)]
pub enum Restype {
    /// There is none.
    Absent,
    /// share
    Share,
    /// directory
    Directory,
    /// Any other text.
    Other,
}

/// comp of a request.
#[derive(Clone, Copy)]
pub enum Comp {
    /// There is none.
    Absent,
    /// list
    List,
    /// properties
    Properties,
    /// metadata
    Metadata,
    /// snapshot
    Snapshot,
    /// lease
    Lease,
    /// range
    Range,
    /// rangelist
    RangeList,
    /// listhandles
    ListHandles,
    /// forceclosehandles
    ForceCloseHandles,
    /// Any other text.
    Other,
}

/// What tells two rows apart that have the same method, path, restype and comp.
#[derive(Clone, Copy)]
pub enum Told {
    /// The row stands alone.
    Alone,
    /// sharesnapshot is absent.
    NoSnapshot,
    /// sharesnapshot is there.
    Snapshot,
    /// x-ms-write isn't `clear`.
    Update,
    /// x-ms-write is `clear`.
    Clear,
}

/// A row of the table, named by its call.
#[derive(Clone, Copy)]
pub enum Row {
    /// List Shares.
    ListShares,
    /// Create Share.
    CreateShare,
    /// Get Share Properties.
    GetShareProperties,
    /// Set Share Properties.
    SetShareProperties,
    /// Get Share Metadata.
    GetShareMetadata,
    /// Set Share Metadata.
    SetShareMetadata,
    /// Delete Share.
    DeleteShare,
    /// Delete Share, of a snapshot.
    DeleteSnapshot,
    /// Snapshot Share.
    SnapshotShare,
    /// Lease Share.
    LeaseShare,
    /// Create Directory.
    CreateDirectory,
    /// Get Directory Properties.
    GetDirectoryProperties,
    /// Get Directory Metadata.
    GetDirectoryMetadata,
    /// Set Directory Metadata.
    SetDirectoryMetadata,
    /// Delete Directory.
    DeleteDirectory,
    /// List Directories and Files.
    ListDirectory,
    /// Create File.
    CreateFile,
    /// Get File.
    GetFile,
    /// Get File Properties.
    GetFileProperties,
    /// Set File Properties.
    SetFileProperties,
    /// Get File Metadata.
    GetFileMetadata,
    /// Set File Metadata.
    SetFileMetadata,
    /// Put Range with `update`.
    UpdateRange,
    /// Put Range with `clear`.
    ClearRange,
    /// List Ranges.
    ListRanges,
    /// Delete File.
    DeleteFile,
    /// Lease File.
    LeaseFile,
    /// List Handles.
    ListHandles,
    /// Force Close Handles.
    ForceCloseHandles,
}

/// Whether a row's call names a snapshot.
#[derive(Clone, Copy)]
pub enum Snap {
    /// It has no snapshot.
    Never,
    /// It may name one.
    MayBe,
}

/// A row of the table: its call, and the requests that spell it.
#[derive(Clone, Copy)]
pub struct Form {
    /// The call.
    pub row: Row,
    /// The method.
    pub verbs: Verbs,
    /// The path.
    pub shapes: Shapes,
    /// restype
    pub restype: Restype,
    /// comp
    pub comp: Comp,
    /// What tells it from the other row of these.
    pub told: Told,
    /// Whether it takes a sharesnapshot.
    pub snap: Snap,
}
