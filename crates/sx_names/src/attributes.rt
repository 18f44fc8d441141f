//! The attributes of a file or directory.

/// The attributes of a file or directory ("File system attributes" of Azure Files).
#[derive(Clone, Copy, Debug, PartialEq, Eq)]
pub struct Attributes {
    /// It can be read, and not written or deleted.
    pub read_only: bool,
    /// It is hidden.
    pub hidden: bool,
    /// It belongs to the system.
    pub system: bool,
    /// It is marked for backup or removal.
    pub archive: bool,
    /// It is for temporary use.
    pub temporary: bool,
    /// Its bytes are not at hand.
    pub offline: bool,
    /// It is left out of content indexes.
    pub not_content_indexed: bool,
    /// It is passed over by scrubbing.
    pub no_scrub_data: bool,
    /// It is a directory.
    pub directory: bool,
}
