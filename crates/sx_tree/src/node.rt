//! What stands at an id of a tree: a directory or a file, with its facts.
ghost use Rattle.std.specs.Prelude.{◌≡◌, ◌≤◌};
ghost use Rattle.sx_tree.specs.declared.node.TheConstants.{GRANULES_LIMIT};
ghost use Rattle.sx_tree.specs.Node.{directory_attributes, is_directory, kind_length, kind_use, root_facts};

use std::alloc::Global;
use sx_extent::Ranges;
use sx_lease::FileLease;
use sx_moment::Moment;
use sx_names::{Attributes, Content, Meta};

/// The most granules that a file has: those of 4 TiB.
pub(crate) const GRANULES_LIMIT: u64 = 8_589_934_592;

/// The facts of a node, which its place in the tree doesn't depend on.
#[derive(Debug, Drop)]
pub struct Facts {
    /// The place in the history of the entry that changed it last, which is its ETag.
    pub etag: u64,
    /// The moment of its creation.
    pub created: Moment,
    /// The moment at which its bytes were written last.
    pub written: Moment,
    /// The moment at which it was changed last.
    pub changed: Moment,
    /// Its attributes of SMB.
    pub attributes: Attributes,
    /// Its metadata.
    pub meta: Meta,
    /// Whether it is to be deleted when the last open of it is closed.
    pub pending: bool,
    /// Its lease; a directory's is available.
    pub lease: FileLease,
}

/// A file's bytes with their marks, and its content headers.
#[derive(Debug, Drop)]
pub struct FileBody {
    /// The bytes, and which granules of them are marked.
    pub ranges: Ranges,
    /// The content headers.
    pub content: Content,
}

/// What a node is.
#[derive(Debug, Drop)]
pub enum Kind {
    /// A directory.
    Directory,
    /// A file, with its body.
    File(FileBody),
}

/// A directory or file of a share.
#[derive(Debug, Drop)]
pub struct Node {
    /// Its id, from 1.
    pub id: u64,
    /// The id of its directory, and 0 for the root.
    pub parent: u64,
    /// Its facts.
    pub facts: Facts,
    /// What it is.
    pub kind: Kind,
}

/// What a path leads to.
#[derive(Clone, Copy, Debug, PartialEq, Eq)]
pub enum Found {
    /// The node of this id.
    Node(u64),
    /// Nothing, but all of its parts but the last lead to a directory.
    Missing {
        /// The id of that directory.
        parent: u64,
    },
    /// Nothing, since a proper prefix of it is no directory.
    NoParent {
        /// How many parts the shortest such prefix has.
        parts: u32,
    },
}

impl Kind {
    /// Whether it is a directory.
    pub fn is_directory(&self) -> bool
        ensures { result ≡ is_directory self.now }
    {
        match self {
            Kind::Directory => true,
            Kind::File(_) => false,
        }
    }

    /// A file's length in bytes; a directory's is 0.
    pub fn length(&self) -> u64
        ensures { result ≡ kind_length self.now }
    {
        match self {
            Kind::Directory => 0,
            Kind::File(body) => body.ranges.length(),
        }
    }

    /// How many granules are marked in a file, and 0 for a directory.
    pub fn used(&self) -> u64
        ensures value { result ≡ kind_use self.now }
        ensures limit { result ≤ GRANULES_LIMIT }
    {
        match self {
            Kind::Directory => 0,
            Kind::File(body) => body.ranges.used(),
        }
    }
}

impl Facts {
    /// The facts of the root of a share that was made at a moment by the entry at a place of the history.
    pub(crate) fn root(alloc: Global, at: Moment, place: u64) -> Facts
        ensures { result ≡ root_facts at place }
    {
        Facts {
            etag: place,
            created: at,
            written: at,
            changed: at,
            attributes: directory_attributes(),
            meta: Meta::new(alloc),
            pending: false,
            lease: FileLease::new(),
        }
    }
}

/// The attributes of a directory that has no others.
fn directory_attributes() -> Attributes
    ensures { result ≡ directory_attributes }
{
    Attributes {
        read_only: false,
        hidden: false,
        system: false,
        archive: false,
        temporary: false,
        offline: false,
        not_content_indexed: false,
        no_scrub_data: false,
        directory: true,
    }
}
