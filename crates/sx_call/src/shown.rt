//! What replies show of shares, files and directories.

use std::marker::Model;
use sx_extent::View;
use sx_moment::Moment;
use sx_names::Attributes;

/// When a share, file or directory was changed, and its ETag.
#[derive(Clone, Copy, Debug, PartialEq, Eq)]
pub struct Stamp {
    /// The change time.
    pub changed: Moment,
    /// The place in the history of the entry that changed it, from 1. The ETag is this number in hexadecimal.
    pub etag: u64,
}

/// What is shown of a file or directory.
#[derive(Clone, Copy, Debug, PartialEq, Eq)]
pub struct Shown {
    /// The attributes.
    pub attributes: Attributes,
    /// The creation time.
    pub created: Moment,
    /// The last write time.
    pub written: Moment,
    /// The change time.
    pub changed: Moment,
    /// The id, from 1.
    pub id: u64,
    /// The id of the directory that it is in, and 0 for a root.
    pub parent: u64,
}

/// The bytes of a file that Get File answers. They lie in the file, and are at least one unless the whole file was
/// asked for.
#[derive(Debug, Drop)]
pub struct FilePart {
    /// The offset of the first byte.
    pub from: u64,
    /// The file's length in bytes.
    pub length: u64,
    /// Whether the call named no range.
    pub whole: bool,
    /// The bytes.
    pub view: View,
}

impl Model for FilePart {
    ghost use Rattle.std.specs.Prelude.{◌≡◌, true};
    ghost use Rattle.sx_call.specs.Shown.{BytesOfFile, bytes_from, is_bytes_of_file};

    ghost Value = { BytesOfFile };

    ghost view = { λ p. bytes_from p.from p.length p.whole p.view };

    ghost invariant = { λ p. is_bytes_of_file (bytes_from p.from p.length p.whole p.view) ≡ true };
}
