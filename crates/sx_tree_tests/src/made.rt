//! A tree for tests, made with ample memory.
use std::alloc::Global;
use std::process::Abort;
use sx_base::Items;
use sx_extent::{PIECE_LIMIT, Piece, Ranges};
use sx_lease::FileLease;
use sx_moment::Moment;
use sx_names::{Attributes, Content, Meta, Part, Path, Text};
use sx_tree::{Facts, FileBody, Kind, Node, Tree};

/// A name.
pub fn part(rt: &impl Abort, alloc: Global, name: &str) -> Part {
    match Part::read(alloc, name.as_bytes()) {
        Ok(part) => part,
        Err(_) => panic!(rt; "{name} is no name"),
    }
}

/// A text.
pub fn text(rt: &impl Abort, alloc: Global, bytes: &str) -> Text {
    match Text::copy_of(alloc, bytes) {
        Ok(text) => text,
        Err(_) => panic!(rt; "no memory"),
    }
}

/// The names of a path that is written with slashes.
fn parts(rt: &impl Abort, alloc: Global, path: &str) -> Items<Part> {
    let mut parts = Items::new(alloc);
    if path.is_empty() {
        return parts;
    }
    for name in path.split('/') {
        if parts.push(part(rt, alloc, name)).is_err() {
            panic!(rt; "no memory");
        }
    }
    parts
}

/// A path that is written with slashes.
pub fn path(rt: &impl Abort, alloc: Global, path: &str) -> Path {
    match Path::of_parts(parts(rt, alloc, path)) {
        Ok(path) => path,
        Err(_) => panic!(rt; "no path"),
    }
}

/// The facts of a node that nothing was done with.
fn facts(alloc: Global) -> Facts {
    Facts {
        etag: 1,
        created: Moment::of(1),
        written: Moment::of(1),
        changed: Moment::of(1),
        attributes: Attributes {
            read_only: false,
            hidden: false,
            system: false,
            archive: false,
            temporary: false,
            offline: false,
            not_content_indexed: false,
            no_scrub_data: false,
            directory: false,
        },
        meta: Meta::new(alloc),
        pending: false,
        lease: FileLease::new(),
    }
}

/// An empty file.
fn file(alloc: Global) -> Kind {
    Kind::File(FileBody {
        ranges: Ranges::new(alloc, 0),
        content: Content {
            kind: None,
            encoding: None,
            language: None,
            cache_control: None,
            disposition: None,
            md5: None,
        },
    })
}

/// Puts a node of an id under a name into a directory.
fn put(
    rt: &impl Abort,
    alloc: Global,
    tree: &mut Tree,
    parent: u64,
    name: &str,
    id: u64,
    kind: Kind,
) {
    if tree.node(id).is_some() {
        panic!(rt; "{id} is taken");
    }
    let node = Node {
        id,
        parent,
        facts: facts(alloc),
        kind,
    };
    if tree.insert(parent, part(rt, alloc, name), node).is_err() {
        panic!(rt; "no memory");
    }
}

/// Puts an empty file of an id under a name into a directory.
pub fn make_file(
    rt: &impl Abort,
    alloc: Global,
    tree: &mut Tree,
    parent: u64,
    name: &str,
    id: u64,
) {
    put(rt, alloc, tree, parent, name, id, file(alloc));
}

/// Puts a directory of an id under a name into a directory.
pub fn make_directory(
    rt: &impl Abort,
    alloc: Global,
    tree: &mut Tree,
    parent: u64,
    name: &str,
    id: u64,
) {
    put(rt, alloc, tree, parent, name, id, Kind::Directory);
}

/// A tree with a root of id 1 alone.
pub fn root(rt: &impl Abort, alloc: Global) -> Tree {
    match Tree::new(alloc, 1, Moment::of(7), 8) {
        Ok(tree) => tree,
        Err(_) => panic!(rt; "no memory"),
    }
}

/// The tree docs (2) with a.txt (3) and Straße (4) with x (5) in it, and b (6).
pub fn nested(rt: &impl Abort, alloc: Global) -> Tree {
    let mut tree = root(rt, alloc);
    make_directory(rt, alloc, &mut tree, 1, "docs", 2);
    make_file(rt, alloc, &mut tree, 2, "a.txt", 3);
    make_directory(rt, alloc, &mut tree, 2, "Stra\u{df}e", 4);
    make_file(rt, alloc, &mut tree, 4, "x", 5);
    make_file(rt, alloc, &mut tree, 1, "b", 6);
    tree
}

/// So many bytes of value 7.
pub fn sevens(rt: &impl Abort, alloc: Global, count: usize) -> Piece {
    assert!(rt; 0 < count && count <= PIECE_LIMIT);
    match vec![in alloc; 7u8; count] {
        Ok(bytes) => match Piece::of(alloc, bytes) {
            Ok(piece) => piece,
            Err(_) => panic!(rt; "no memory"),
        },
        Err(_) => panic!(rt; "no memory"),
    }
}
