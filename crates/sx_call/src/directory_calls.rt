//! The calls on directories, and on the handles of what is in them ("Operations on Directories" and "List Handles" of
//! the File service's REST reference).
ghost use Rattle.std.specs.Prelude.{◌≡◌, IfOk};

use crate::attributes::DirectoryAttributes;
use crate::listings::QueryText;
use crate::targets::{NamedTarget, Target};
use sx_guard::HandleId;
use sx_memory::NoMemory;
use sx_moment::Moment;
use sx_names::{Meta, PageSize};

/// Create Directory.
#[derive(Debug, Drop)]
pub struct CreateDirectory {
    /// The directory.
    pub at: NamedTarget,
    /// Its attributes.
    pub attributes: DirectoryAttributes,
    /// The creation time, or none for the entry's moment.
    pub created: Option<Moment>,
    /// The last write time, or none for the entry's moment.
    pub written: Option<Moment>,
    /// Its metadata.
    pub meta: Meta,
}

impl CreateDirectory {
    /// An equal call of its own.
    pub fn copy(&self) -> Result<CreateDirectory, NoMemory>
        ensures { IfOk result (λ c. c ≡ self.now) }
    {
        Ok(CreateDirectory {
            at: self.at.copy()?,
            attributes: self.attributes,
            created: self.created,
            written: self.written,
            meta: self.meta.copy()?,
        })
    }
}

/// Get Directory Properties.
#[derive(Debug, Drop)]
pub struct GetDirectoryProperties {
    /// The directory, which may be the root.
    pub at: Target,
    /// The moment of the snapshot that is read, or none for the share as it stands.
    pub snap: Option<Moment>,
}

impl GetDirectoryProperties {
    /// An equal call of its own.
    pub fn copy(&self) -> Result<GetDirectoryProperties, NoMemory>
        ensures { IfOk result (λ c. c ≡ self.now) }
    {
        Ok(GetDirectoryProperties {
            at: self.at.copy()?,
            snap: self.snap,
        })
    }
}

/// Get Directory Metadata.
#[derive(Debug, Drop)]
pub struct GetDirectoryMetadata {
    /// The directory, which may be the root.
    pub at: Target,
    /// The moment of the snapshot that is read, or none for the share as it stands.
    pub snap: Option<Moment>,
}

impl GetDirectoryMetadata {
    /// An equal call of its own.
    pub fn copy(&self) -> Result<GetDirectoryMetadata, NoMemory>
        ensures { IfOk result (λ c. c ≡ self.now) }
    {
        Ok(GetDirectoryMetadata {
            at: self.at.copy()?,
            snap: self.snap,
        })
    }
}

/// Set Directory Metadata.
#[derive(Debug, Drop)]
pub struct SetDirectoryMetadata {
    /// The directory, which may be the root.
    pub at: Target,
    /// Its new metadata.
    pub meta: Meta,
}

impl SetDirectoryMetadata {
    /// An equal call of its own.
    pub fn copy(&self) -> Result<SetDirectoryMetadata, NoMemory>
        ensures { IfOk result (λ c. c ≡ self.now) }
    {
        Ok(SetDirectoryMetadata {
            at: self.at.copy()?,
            meta: self.meta.copy()?,
        })
    }
}

/// Delete Directory.
#[derive(Debug, Drop)]
pub struct DeleteDirectory {
    /// The directory.
    pub at: NamedTarget,
}

impl DeleteDirectory {
    /// An equal call of its own.
    pub fn copy(&self) -> Result<DeleteDirectory, NoMemory>
        ensures { IfOk result (λ c. c ≡ self.now) }
    {
        Ok(DeleteDirectory {
            at: self.at.copy()?,
        })
    }
}

/// List Directories and Files.
#[derive(Debug, Drop)]
pub struct ListDirectory {
    /// The directory, which may be the root.
    pub at: Target,
    /// The moment of the snapshot that is read, or none for the share as it stands.
    pub snap: Option<Moment>,
    /// What the names begin with, compared when both are folded.
    pub prefix: QueryText,
    /// The folded name in which the page begins. It is empty at the beginning.
    pub marker: QueryText,
    /// How many items the page has at most.
    pub max: PageSize,
}

impl ListDirectory {
    /// An equal call of its own.
    pub fn copy(&self) -> Result<ListDirectory, NoMemory>
        ensures { IfOk result (λ c. c ≡ self.now) }
    {
        Ok(ListDirectory {
            at: self.at.copy()?,
            snap: self.snap,
            prefix: self.prefix.copy()?,
            marker: self.marker.copy()?,
            max: self.max,
        })
    }
}

/// List Handles.
#[derive(Debug, Drop)]
pub struct ListHandles {
    /// The file or directory, which may be the root.
    pub at: Target,
    /// The handle with which the page begins, or none for the beginning.
    pub marker: Option<HandleId>,
    /// How many items the page has at most.
    pub max: PageSize,
    /// Whether handles of all files and directories below are listed too.
    pub recursive: bool,
}

impl ListHandles {
    /// An equal call of its own.
    pub fn copy(&self) -> Result<ListHandles, NoMemory>
        ensures { IfOk result (λ c. c ≡ self.now) }
    {
        Ok(ListHandles {
            at: self.at.copy()?,
            marker: self.marker,
            max: self.max,
            recursive: self.recursive,
        })
    }
}

/// Force Close Handles.
#[derive(Debug, Drop)]
pub struct ForceCloseHandles {
    /// The file or directory, which may be the root.
    pub at: Target,
    /// The handle that is closed, or none for all of them.
    pub handle: Option<HandleId>,
    /// Whether handles of all files and directories below are closed too.
    pub recursive: bool,
}

impl ForceCloseHandles {
    /// An equal call of its own.
    pub fn copy(&self) -> Result<ForceCloseHandles, NoMemory>
        ensures { IfOk result (λ c. c ≡ self.now) }
    {
        Ok(ForceCloseHandles {
            at: self.at.copy()?,
            handle: self.handle,
            recursive: self.recursive,
        })
    }
}
