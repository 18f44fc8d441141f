//! What paths lead to, the paths of nodes, and what stands below a directory.
use crate::made::{nested, part, path};
use std::alloc::Global;
use std::process::Abort;
use sx_base::Items;
use sx_tree::{Found, Tree};

/// Says what a path leads to.
pub fn leads_to(rt: &impl Abort, alloc: Global, tree: &Tree, name: &str, found: Found) {
    assert_eq!(rt; tree.find(&path(rt, alloc, name)), found, "{name}");
}

/// Every kind of hit and miss, with names in other spellings.
#[test]
fn finds_paths(rt: HostRuntime) {
    let tree = nested(&rt, rt.alloc());
    let cases = [
        ("", Found::Node(1)),
        ("docs", Found::Node(2)),
        ("DOCS/A.TXT", Found::Node(3)),
        ("docs/STRASSE", Found::Node(4)),
        ("docs/strasse/X", Found::Node(5)),
        ("B", Found::Node(6)),
        ("c", Found::Missing { parent: 1 }),
        ("docs/c", Found::Missing { parent: 2 }),
        ("docs/strasse/y", Found::Missing { parent: 4 }),
        ("c/d", Found::NoParent { parts: 1 }),
        ("b/x", Found::NoParent { parts: 1 }),
        ("b/x/y", Found::NoParent { parts: 1 }),
        ("docs/a.txt/x", Found::NoParent { parts: 2 }),
        ("docs/c/d/e", Found::NoParent { parts: 2 }),
        ("docs/strasse/y/z", Found::NoParent { parts: 3 }),
    ];
    for (name, found) in cases {
        leads_to(&rt, rt.alloc(), &tree, name, found);
    }
}

/// Says what the path of a node is.
pub fn has_path(rt: &impl Abort, tree: &Tree, id: u64, wanted: &str) {
    match tree.path_of(id) {
        Ok(text) => assert_eq!(rt; text.as_str(), wanted),
        Err(_) => panic!(rt; "no memory"),
    }
}

#[test]
fn paths_of_nodes(rt: HostRuntime) {
    let tree = nested(&rt, rt.alloc());
    for (id, wanted) in [
        (1, ""),
        (2, "docs"),
        (3, "docs/a.txt"),
        (5, "docs/Stra\u{df}e/x"),
        (6, "b"),
        (9, ""),
    ] {
        has_path(&rt, &tree, id, wanted);
    }
}

/// All nodes below a directory.
fn below(rt: &impl Abort, tree: &Tree, dir: u64) -> Items<u64> {
    match tree.below(dir) {
        Ok(ids) => ids,
        Err(_) => panic!(rt; "no memory"),
    }
}

/// Says which nodes stand below a directory.
fn has_below(rt: &impl Abort, tree: &Tree, dir: u64, wanted: &[u64]) {
    assert_eq!(rt; below(rt, tree, dir).as_slice(), wanted);
}

#[test]
fn what_stands_below(rt: HostRuntime) {
    let tree = nested(&rt, rt.alloc());
    has_below(&rt, &tree, 1, &[2, 3, 4, 5, 6]);
    has_below(&rt, &tree, 2, &[3, 4, 5]);
    has_below(&rt, &tree, 4, &[5]);
    has_below(&rt, &tree, 6, &[]);
    for (dir, id, under) in [
        (1, 5, true),
        (2, 5, true),
        (2, 2, true),
        (4, 3, false),
        (2, 6, false),
        (2, 9, false),
    ] {
        assert_eq!(rt; tree.is_under(dir, id), under, "{dir} {id}");
    }
    assert!(rt; tree.is_empty(6) && !tree.is_empty(4));
}

/// Moves a node.
fn shift(rt: &impl Abort, alloc: Global, tree: &mut Tree, id: u64, parent: u64, name: &str) {
    if tree.shift(id, parent, part(rt, alloc, name)).is_err() {
        panic!(rt; "no memory");
    }
}

#[test]
fn moves_over_a_file(rt: HostRuntime) {
    let mut tree = nested(&rt, rt.alloc());
    shift(&rt, rt.alloc(), &mut tree, 6, 2, "A.txt");
    assert!(rt; tree.node(3).is_none());
    leads_to(&rt, rt.alloc(), &tree, "docs/a.txt", Found::Node(6));
    leads_to(&rt, rt.alloc(), &tree, "b", Found::Missing { parent: 1 });
    has_path(&rt, &tree, 6, "docs/A.txt");
}

#[test]
fn moves_a_directory(rt: HostRuntime) {
    let mut tree = nested(&rt, rt.alloc());
    shift(&rt, rt.alloc(), &mut tree, 4, 1, "street");
    leads_to(&rt, rt.alloc(), &tree, "street/x", Found::Node(5));
    leads_to(
        &rt,
        rt.alloc(),
        &tree,
        "docs/strasse",
        Found::Missing { parent: 2 },
    );
    has_path(&rt, &tree, 5, "street/x");
    has_below(&rt, &tree, 2, &[3]);
}

#[test]
fn changes_the_spelling_of_a_name(rt: HostRuntime) {
    let mut tree = nested(&rt, rt.alloc());
    shift(&rt, rt.alloc(), &mut tree, 2, 1, "DOCS");
    leads_to(&rt, rt.alloc(), &tree, "docs/a.txt", Found::Node(3));
    has_path(&rt, &tree, 3, "DOCS/a.txt");
}
