//! Paths.

use crate::made::{a_part, a_text, fault, fault_of};
use std::alloc::Global;
use std::process::Abort;
use sx_base::Items;
use sx_names::{NameFault, NameRule, Part, Path, Text};

fn texts(rt: &impl Abort, alloc: Global, parts: &[&str]) -> Vec<Text> {
    let mut texts = Vec::new(alloc);
    for part in parts.iter() {
        if texts.push(a_text(rt, alloc, *part)).is_err() {
            panic!(rt; "no memory");
        }
    }
    texts
}

fn path_row(rt: &impl Abort, alloc: Global, parts: &[&str], broken: Option<NameFault>) {
    let texts = texts(rt, alloc, parts);
    let read = Path::read(alloc, &texts);
    if let Ok(path) = &read {
        assert_eq!(rt; path.parts().len(), parts.len());
    }
    assert_eq!(rt; fault_of(rt, read), broken, "{parts:?}");
}

/// Paths with the first rule that they break, part by part and then as a whole.
#[test]
fn paths(rt: HostRuntime) {
    let cases: [(&[&str], Option<NameFault>); 6] = [
        (&[], None),
        (&["a", "b.txt"], None),
        (&["a", "b."], fault(NameRule::Tail, 2, 1)),
        (&["", "b."], fault(NameRule::Empty, 1, 0)),
        (&["a", "b", ".."], fault(NameRule::Dot, 3, 0)),
        (&["a", "b/"], fault(NameRule::Char, 2, 1)),
    ];
    for (parts, broken) in cases.iter() {
        path_row(&rt, rt.alloc(), *parts, *broken);
    }
}

/// So many texts: the same one, and the last one.
fn same_texts(rt: &impl Abort, alloc: Global, count: u32, part: &str, last: &str) -> Vec<Text> {
    let mut texts = Vec::new(alloc);
    for _ in 1..count {
        if texts.push(a_text(rt, alloc, part)).is_err() {
            panic!(rt; "no memory");
        }
    }
    if texts.push(a_text(rt, alloc, last)).is_err() {
        panic!(rt; "no memory");
    }
    texts
}

fn long_row(
    rt: &impl Abort,
    alloc: Global,
    count: u32,
    part: &str,
    last: &str,
    broken: Option<NameFault>,
) {
    let texts = same_texts(rt, alloc, count, part, last);
    let read = Path::read(alloc, &texts);
    assert_eq!(rt; fault_of(rt, read), broken, "{count} parts to {last}");
}

/// 250 parts are a path, 251 are none; 2,048 characters are a path, 2,049 are none; a faulty part is told first.
#[test]
fn long_paths(rt: HostRuntime) {
    let cases = [
        (250, "a", "a", None),
        (251, "a", "a", fault(NameRule::Deep, 0, 0)),
        (251, "a", "a.", fault(NameRule::Tail, 251, 1)),
        // 227 parts of 8 characters with 226 slashes, then a slash and 5 or 6 characters
        (228, "abcdefgh", "\u{e4}bcde", None),
        (
            228,
            "abcdefgh",
            "\u{e4}bcdef",
            fault(NameRule::PathLong, 0, 0),
        ),
    ];
    for (count, part, last, broken) in cases {
        long_row(&rt, rt.alloc(), count, part, last, broken);
    }
}

/// So many parts: the same one, and the last one.
fn same_parts(rt: &impl Abort, alloc: Global, count: u32, part: &str, last: &str) -> Items<Part> {
    let mut parts = Items::new(alloc);
    for _ in 1..count {
        if parts.push(a_part(rt, alloc, part.as_bytes())).is_err() {
            panic!(rt; "no memory");
        }
    }
    if parts.push(a_part(rt, alloc, last.as_bytes())).is_err() {
        panic!(rt; "no memory");
    }
    parts
}

fn parts_row(
    rt: &impl Abort,
    alloc: Global,
    count: u32,
    part: &str,
    last: &str,
    broken: Option<NameFault>,
) {
    let broken_by = match Path::of_parts(same_parts(rt, alloc, count, part, last)) {
        Ok(_) => None,
        Err(fault) => Some(fault),
    };
    assert_eq!(rt; broken_by, broken, "{count} parts to {last}");
}

/// Parts that were read one by one, by the same limits.
#[test]
fn paths_of_parts(rt: HostRuntime) {
    let cases = [
        (250, "a", "a", None),
        (251, "a", "a", fault(NameRule::Deep, 0, 0)),
        (228, "abcdefgh", "\u{e4}bcde", None),
        (
            228,
            "abcdefgh",
            "\u{e4}bcdef",
            fault(NameRule::PathLong, 0, 0),
        ),
    ];
    for (count, part, last, broken) in cases {
        parts_row(&rt, rt.alloc(), count, part, last, broken);
    }
}

fn a_path(rt: &impl Abort, alloc: Global, part: Part) -> Path {
    match Path::of_part(alloc, part) {
        Ok(path) => path,
        Err(_) => panic!(rt; "no memory"),
    }
}

fn path_again(rt: &impl Abort, path: &Path) -> Path {
    match path.copy() {
        Ok(path) => path,
        Err(_) => panic!(rt; "no memory"),
    }
}

/// A path of one part, with memory for its copy.
#[test]
fn paths_are_copied(rt: HostRuntime) {
    let path = a_path(&rt, rt.alloc(), a_part(&rt, rt.alloc(), b"a.txt"));
    let again = path_again(&rt, &path);
    assert_eq!(rt; again.parts().len(), 1);
    let part = a_part(&rt, rt.alloc(), b"A.TXT");
    assert_eq!(rt; again.name().map(|name| name.same(&part)), Some(true));
}
