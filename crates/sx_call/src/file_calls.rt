//! The calls on files ("Operations on Files" of the File service's REST reference).
ghost use Rattle.std.specs.Prelude.{◌≡◌, IfOk};

use crate::attributes::FileAttributes;
use crate::leases::{LeaseAction, SnapOrLease};
use crate::lengths::FileLength;
use crate::ranges::{ByteRange, First};
use crate::targets::NamedTarget;
use crate::times::Time;
use crate::updates::RangeUpdate;
use sx_lease::LeaseId;
use sx_memory::NoMemory;
use sx_moment::Moment;
use sx_names::{Content, Meta};

/// Create File.
#[derive(Debug, Drop)]
pub struct CreateFile {
    /// The file.
    pub at: NamedTarget,
    /// Its length.
    pub length: FileLength,
    /// Its content headers.
    pub content: Content,
    /// Its attributes.
    pub attributes: FileAttributes,
    /// The creation time, or none for the entry's moment.
    pub created: Option<Moment>,
    /// The last write time, or none for the entry's moment.
    pub written: Option<Moment>,
    /// Its metadata.
    pub meta: Meta,
    /// The id under which the file's lease is held.
    pub lease: Option<LeaseId>,
}

impl CreateFile {
    /// An equal call of its own.
    pub fn copy(&self) -> Result<CreateFile, NoMemory>
        ensures { IfOk result (λ c. c ≡ self.now) }
    {
        Ok(CreateFile {
            at: self.at.copy()?,
            length: self.length,
            content: self.content.copy()?,
            attributes: self.attributes,
            created: self.created,
            written: self.written,
            meta: self.meta.copy()?,
            lease: self.lease,
        })
    }
}

/// Get File.
#[derive(Debug, Drop)]
pub struct GetFile {
    /// The file.
    pub at: NamedTarget,
    /// The bytes that are read, or none for the whole file.
    pub span: Option<First>,
    /// The snapshot that is read, or the id under which the file's lease is held.
    pub scope: SnapOrLease,
}

impl GetFile {
    /// An equal call of its own.
    pub fn copy(&self) -> Result<GetFile, NoMemory>
        ensures { IfOk result (λ c. c ≡ self.now) }
    {
        Ok(GetFile {
            at: self.at.copy()?,
            span: self.span,
            scope: self.scope,
        })
    }
}

/// Get File Properties.
#[derive(Debug, Drop)]
pub struct GetFileProperties {
    /// The file.
    pub at: NamedTarget,
    /// The snapshot that is read, or the id under which the file's lease is held.
    pub scope: SnapOrLease,
}

impl GetFileProperties {
    /// An equal call of its own.
    pub fn copy(&self) -> Result<GetFileProperties, NoMemory>
        ensures { IfOk result (λ c. c ≡ self.now) }
    {
        Ok(GetFileProperties {
            at: self.at.copy()?,
            scope: self.scope,
        })
    }
}

/// Set File Properties.
#[derive(Debug, Drop)]
pub struct SetFileProperties {
    /// The file.
    pub at: NamedTarget,
    /// Its new length, or none for the one that it has.
    pub length: Option<FileLength>,
    /// Its new content headers. Those that are not given are removed.
    pub content: Content,
    /// Its new attributes, or none for those that it has.
    pub attributes: Option<FileAttributes>,
    /// Its creation time.
    pub created: Time,
    /// Its last write time.
    pub written: Time,
    /// The id under which the file's lease is held.
    pub lease: Option<LeaseId>,
}

impl SetFileProperties {
    /// An equal call of its own.
    pub fn copy(&self) -> Result<SetFileProperties, NoMemory>
        ensures { IfOk result (λ c. c ≡ self.now) }
    {
        Ok(SetFileProperties {
            at: self.at.copy()?,
            length: self.length,
            content: self.content.copy()?,
            attributes: self.attributes,
            created: self.created,
            written: self.written,
            lease: self.lease,
        })
    }
}

/// Get File Metadata.
#[derive(Debug, Drop)]
pub struct GetFileMetadata {
    /// The file.
    pub at: NamedTarget,
    /// The snapshot that is read, or the id under which the file's lease is held.
    pub scope: SnapOrLease,
}

impl GetFileMetadata {
    /// An equal call of its own.
    pub fn copy(&self) -> Result<GetFileMetadata, NoMemory>
        ensures { IfOk result (λ c. c ≡ self.now) }
    {
        Ok(GetFileMetadata {
            at: self.at.copy()?,
            scope: self.scope,
        })
    }
}

/// Set File Metadata.
#[derive(Debug, Drop)]
pub struct SetFileMetadata {
    /// The file.
    pub at: NamedTarget,
    /// Its new metadata.
    pub meta: Meta,
    /// The id under which the file's lease is held.
    pub lease: Option<LeaseId>,
}

impl SetFileMetadata {
    /// An equal call of its own.
    pub fn copy(&self) -> Result<SetFileMetadata, NoMemory>
        ensures { IfOk result (λ c. c ≡ self.now) }
    {
        Ok(SetFileMetadata {
            at: self.at.copy()?,
            meta: self.meta.copy()?,
            lease: self.lease,
        })
    }
}

/// Put Range with `update`.
#[derive(Debug, Drop)]
pub struct UpdateRange {
    /// The file.
    pub at: NamedTarget,
    /// The bytes, and where they are written.
    pub update: RangeUpdate,
    /// The id under which the file's lease is held.
    pub lease: Option<LeaseId>,
}

impl UpdateRange {
    /// An equal call of its own.
    pub fn copy(&self) -> Result<UpdateRange, NoMemory>
        ensures { IfOk result (λ c. c ≡ self.now) }
    {
        Ok(UpdateRange {
            at: self.at.copy()?,
            update: self.update.copy()?,
            lease: self.lease,
        })
    }
}

/// Put Range with `clear`.
#[derive(Debug, Drop)]
pub struct ClearRange {
    /// The file.
    pub at: NamedTarget,
    /// The bytes that are cleared.
    pub range: ByteRange,
    /// The id under which the file's lease is held.
    pub lease: Option<LeaseId>,
}

impl ClearRange {
    /// An equal call of its own.
    pub fn copy(&self) -> Result<ClearRange, NoMemory>
        ensures { IfOk result (λ c. c ≡ self.now) }
    {
        Ok(ClearRange {
            at: self.at.copy()?,
            range: self.range,
            lease: self.lease,
        })
    }
}

/// List Ranges.
#[derive(Debug, Drop)]
pub struct ListRanges {
    /// The file.
    pub at: NamedTarget,
    /// The bytes whose ranges are listed, or none for the whole file.
    pub span: Option<First>,
    /// The snapshot that is read, or the id under which the file's lease is held.
    pub scope: SnapOrLease,
}

impl ListRanges {
    /// An equal call of its own.
    pub fn copy(&self) -> Result<ListRanges, NoMemory>
        ensures { IfOk result (λ c. c ≡ self.now) }
    {
        Ok(ListRanges {
            at: self.at.copy()?,
            span: self.span,
            scope: self.scope,
        })
    }
}

/// Delete File.
#[derive(Debug, Drop)]
pub struct DeleteFile {
    /// The file.
    pub at: NamedTarget,
    /// The id under which the file's lease is held.
    pub lease: Option<LeaseId>,
}

impl DeleteFile {
    /// An equal call of its own.
    pub fn copy(&self) -> Result<DeleteFile, NoMemory>
        ensures { IfOk result (λ c. c ≡ self.now) }
    {
        Ok(DeleteFile {
            at: self.at.copy()?,
            lease: self.lease,
        })
    }
}

/// Lease File.
#[derive(Debug, Drop)]
pub struct LeaseFile {
    /// The file.
    pub at: NamedTarget,
    /// What is done with the lease.
    pub action: LeaseAction,
}

impl LeaseFile {
    /// An equal call of its own.
    pub fn copy(&self) -> Result<LeaseFile, NoMemory>
        ensures { IfOk result (λ c. c ≡ self.now) }
    {
        Ok(LeaseFile {
            at: self.at.copy()?,
            action: self.action,
        })
    }
}
