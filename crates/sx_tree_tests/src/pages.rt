//! Pages of a listing.
use crate::made::{make_directory, make_file, root, text};
use std::alloc::Global;
use std::process::Abort;
use sx_names::{NamesPage, PageSize};
use sx_tree::Tree;

/// A root with some names.
fn listed(rt: &impl Abort, alloc: Global) -> Tree {
    let mut tree = root(rt, alloc);
    make_file(rt, alloc, &mut tree, 1, "c", 2);
    make_file(rt, alloc, &mut tree, 1, "Ca", 3);
    make_directory(rt, alloc, &mut tree, 1, "B", 4);
    make_file(rt, alloc, &mut tree, 1, "a", 5);
    make_file(rt, alloc, &mut tree, 1, "d", 6);
    tree
}

/// A page.
fn page(
    rt: &impl Abort,
    alloc: Global,
    tree: &Tree,
    prefix: &str,
    marker: &str,
    max: u32,
) -> NamesPage {
    assert!(rt; 1 <= max);
    match tree.walk_from(
        1,
        &text(rt, alloc, prefix),
        &text(rt, alloc, marker),
        PageSize::of(max),
    ) {
        Ok(page) => page,
        Err(_) => panic!(rt; "no memory"),
    }
}

/// A page that is asked for by prefix, marker and greatest number of items, the ids of its items, and the marker of the
/// next one.
type Asked = (
    &'static str,
    &'static str,
    u32,
    &'static [u64],
    &'static str,
);

/// Says what a page that is asked for is.
fn says(rt: &impl Abort, alloc: Global, tree: &Tree, asked: Asked) {
    let (prefix, marker, max, ids, next) = asked;
    let page = page(rt, alloc, tree, prefix, marker, max);
    assert_eq!(rt; page.next.as_str(), next);
    assert_eq!(rt; page.items.len(), ids.len());
    for (item, id) in page.items.as_slice().iter().zip(ids) {
        assert_eq!(rt; item.id, *id);
        assert_eq!(rt; item.dir, *id == 4);
    }
}

#[test]
fn pages_of_a_directory(rt: HostRuntime) {
    let tree = listed(&rt, rt.alloc());
    let rows: [Asked; 9] = [
        ("", "", 9, &[5, 4, 2, 3, 6], ""),
        ("", "", 2, &[5, 4], "c"),
        ("", "c", 2, &[2, 3], "d"),
        ("", "bb", 1, &[2], "ca"),
        ("", "d", 1, &[6], ""),
        ("", "z", 1, &[], ""),
        ("C", "", 9, &[2, 3], ""),
        ("c", "", 1, &[2], "ca"),
        ("x", "", 9, &[], ""),
    ];
    for asked in rows {
        says(&rt, rt.alloc(), &tree, asked);
    }
}
