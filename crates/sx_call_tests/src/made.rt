//! Parts of calls for tests, made with ample memory.
use std::alloc::Global;
use std::process::Abort;
use sx_base::Items;
use sx_call::{
    ByteRange, DirectoryAttributes, FileAttributes, FileLength, First, HandleWrite, NamedPath,
    NamedTarget, OpenAccess, QueryText, RangeUpdate, ReadRange, SharesMarker, SnapOrLease, Target,
};
use sx_extent::Piece;
use sx_guard::{Access, HandleId, HandleIndex};
use sx_lease::LeaseId;
use sx_memory::NoMemory;
use sx_moment::Moment;
use sx_names::{
    Attributes, Content, ContentMd5, ContentText, HeaderText, Meta, MetaName, MetaPair, Part, Path,
    ShareName, Text,
};

/// What was made, where memory sufficed.
fn made<T: Drop>(rt: &impl Abort, value: Result<T, NoMemory>) -> T {
    match value {
        Ok(value) => value,
        Err(NoMemory) => panic!(rt; "no memory"),
    }
}

/// A value that is there.
fn there<T: Drop>(rt: &impl Abort, value: Option<T>) -> T {
    match value {
        Some(value) => value,
        None => panic!(rt; "no such value"),
    }
}

/// Some bytes.
fn bytes(rt: &impl Abort, alloc: Global, bytes: &[u8]) -> Items<u8> {
    let mut items = Items::new(alloc);
    for byte in bytes {
        made(rt, items.push(*byte));
    }
    items
}

/// A text.
pub fn text(rt: &impl Abort, alloc: Global) -> Text {
    made(rt, Text::copy_of(alloc, "b.txt"))
}

/// The text of a query's value.
pub fn query(rt: &impl Abort, alloc: Global) -> QueryText {
    there(rt, QueryText::of(text(rt, alloc)))
}

/// The name of a share.
pub fn share(rt: &impl Abort, alloc: Global) -> ShareName {
    match ShareName::read(alloc, b"data") {
        Ok(share) => share,
        Err(_) => panic!(rt; "no share name"),
    }
}

fn part(rt: &impl Abort, alloc: Global) -> Part {
    match Part::read(alloc, b"a.txt") {
        Ok(part) => part,
        Err(_) => panic!(rt; "no name"),
    }
}

fn path(rt: &impl Abort, alloc: Global) -> Path {
    match Path::of_part(alloc, part(rt, alloc)) {
        Ok(path) => path,
        Err(_) => panic!(rt; "no path"),
    }
}

/// A path of one part.
pub fn named_path(rt: &impl Abort, alloc: Global) -> NamedPath {
    there(rt, NamedPath::of(path(rt, alloc)))
}

/// A file of a share.
pub fn target(rt: &impl Abort, alloc: Global) -> Target {
    Target {
        share: share(rt, alloc),
        path: path(rt, alloc),
    }
}

/// A file of a share, which isn't its root.
pub fn named(rt: &impl Abort, alloc: Global) -> NamedTarget {
    there(rt, NamedTarget::of(target(rt, alloc)))
}

fn pair(rt: &impl Abort, alloc: Global) -> MetaPair {
    MetaPair {
        name: there(rt, MetaName::of(bytes(rt, alloc, b"owner"))),
        value: there(rt, HeaderText::of(bytes(rt, alloc, b"someone"))),
    }
}

/// Metadata of one name.
pub fn meta(rt: &impl Abort, alloc: Global) -> Meta {
    let mut meta = Meta::new(alloc);
    let pair = pair(rt, alloc);
    assert!(rt; meta.takes(&pair));
    made(rt, meta.push(pair));
    meta
}

fn content_text(rt: &impl Abort, alloc: Global, value: &[u8]) -> Option<ContentText> {
    Some(there(rt, ContentText::of(bytes(rt, alloc, value))))
}

/// All six content headers.
pub fn content(rt: &impl Abort, alloc: Global) -> Content {
    Content {
        kind: content_text(rt, alloc, b"text/plain"),
        encoding: content_text(rt, alloc, b"gzip"),
        language: content_text(rt, alloc, b"en"),
        cache_control: content_text(rt, alloc, b"no-cache"),
        disposition: content_text(rt, alloc, b"inline"),
        md5: Some(ContentMd5::of([7u8; 16])),
    }
}

/// Three bytes.
fn piece(rt: &impl Abort, alloc: Global) -> Piece {
    match vec![in alloc; 7u8; 3] {
        Ok(bytes) => made(rt, Piece::of(alloc, bytes)),
        Err(_) => panic!(rt; "no memory"),
    }
}

/// An update of three bytes.
pub fn update(rt: &impl Abort, alloc: Global) -> RangeUpdate {
    there(rt, RangeUpdate::of(512, piece(rt, alloc)))
}

/// A write of three bytes.
pub fn write(rt: &impl Abort, alloc: Global) -> HandleWrite {
    there(rt, HandleWrite::of(512, piece(rt, alloc)))
}

/// 2022-01-01T00:00:00Z.
pub fn moment() -> Moment {
    Moment::of(16_409_952_000_000_000)
}

/// A lease's id.
pub fn lease() -> LeaseId {
    LeaseId::from_random(7)
}

/// A snapshot.
pub fn snapshot(rt: &impl Abort) -> SnapOrLease {
    there(rt, SnapOrLease::of(Some(moment()), None))
}

/// Where a page of shares starts.
pub fn shares_marker(rt: &impl Abort, alloc: Global) -> SharesMarker {
    SharesMarker {
        share: share(rt, alloc),
        snapshot: Some(moment()),
    }
}

/// The bytes 512 to 1023.
pub fn range(rt: &impl Abort) -> ByteRange {
    there(rt, ByteRange::of(512, 1_024))
}

/// The bytes from 512 on.
pub fn first(rt: &impl Abort) -> First {
    there(rt, First::of(512, None))
}

/// Sixteen bytes from 512 on.
pub fn read(rt: &impl Abort) -> ReadRange {
    there(rt, ReadRange::of(512, 16))
}

/// A length of 1,024 bytes.
pub fn length(rt: &impl Abort) -> FileLength {
    there(rt, FileLength::of(1_024))
}

/// The first handle of a session.
pub fn index() -> HandleIndex {
    HandleIndex::of(1)
}

/// The first handle of the first session.
pub fn handle() -> HandleId {
    HandleId {
        session: 1,
        index: 1,
    }
}

/// Rights to read and to delete, for deletion on close.
pub fn access(rt: &impl Abort) -> OpenAccess {
    let access = Access {
        read: true,
        write: false,
        delete: true,
    };
    there(rt, OpenAccess::of(access, true))
}

fn archive() -> Attributes {
    Attributes {
        read_only: false,
        hidden: false,
        system: false,
        archive: true,
        temporary: false,
        offline: false,
        not_content_indexed: false,
        no_scrub_data: false,
        directory: false,
    }
}

/// The attributes of a file.
pub fn file_attributes() -> FileAttributes {
    FileAttributes::of(archive())
}

/// The attributes of a directory.
pub fn directory_attributes() -> DirectoryAttributes {
    DirectoryAttributes::of(archive())
}
