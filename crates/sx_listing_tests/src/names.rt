//! The body that lists a directory.

use crate::made::joined;
use std::alloc::Global;
use std::process::Abort;
use sx_base::Items;
use sx_listing::{BodyFault, read_names, write_names};
use sx_names::{NameItem, NamesPage, PageSize, Text};

/// What stands in front of what was asked for.
const FRONT: &str = "<?xml version=\"1.0\" encoding=\"utf-8\"?><EnumerationResults>";

fn an_item(rt: &impl Abort, alloc: Global, name: &str, dir: bool, id: u64) -> NameItem {
    NameItem {
        name: joined(rt, alloc, &[name]),
        dir,
        id,
        length: 0,
    }
}

fn add(
    rt: &impl Abort,
    alloc: Global,
    items: &mut Items<NameItem>,
    name: &str,
    dir: bool,
    id: u64,
) {
    if items.push(an_item(rt, alloc, name, dir, id)).is_err() {
        panic!(rt; "no memory");
    }
}

fn files(rt: &impl Abort, alloc: Global) -> Items<NameItem> {
    let mut items = Items::new(alloc);
    add(rt, alloc, &mut items, "a", false, 3);
    add(rt, alloc, &mut items, "B", false, 2);
    items
}

fn directories(rt: &impl Abort, alloc: Global) -> Items<NameItem> {
    let mut items = Items::new(alloc);
    add(rt, alloc, &mut items, "R&D", true, 7);
    items
}

fn a_page(
    rt: &impl Abort,
    alloc: Global,
    marker: &str,
    max: u32,
    items: Items<NameItem>,
    next: &str,
) -> NamesPage {
    assert!(rt; 1 <= max);
    NamesPage {
        prefix: Text::new(alloc),
        marker: joined(rt, alloc, &[marker]),
        max: PageSize::of(max),
        items,
        next: joined(rt, alloc, &[next]),
    }
}

fn is_written(rt: &impl Abort, alloc: Global, page: &NamesPage, text: &Text) -> bool {
    match write_names(alloc, page) {
        Ok(body) => body.same(text),
        Err(_) => panic!(rt; "no memory"),
    }
}

/// The worked page of two files, of a root with `B`, `a` and `c`.
#[test]
fn files_are_listed(rt: HostRuntime) {
    let page = a_page(&rt, rt.alloc(), "", 2, files(&rt, rt.alloc()), "c");
    let text = joined(
        &rt,
        rt.alloc(),
        &[
            FRONT,
            "<Prefix></Prefix><Marker></Marker><MaxResults>2</MaxResults><Entries>",
            "<File><Name>a</Name><FileId>3</FileId>",
            "<Properties><Content-Length>0</Content-Length></Properties></File>",
            "<File><Name>B</Name><FileId>2</FileId>",
            "<Properties><Content-Length>0</Content-Length></Properties></File>",
            "</Entries><NextMarker>c</NextMarker></EnumerationResults>",
        ],
    );
    assert!(rt; is_written(&rt, rt.alloc(), &page, &text));
}

/// A directory whose name has an escape, and markers with a blank, a percent sign, a tilde and an umlaut.
#[test]
fn directories_are_listed(rt: HostRuntime) {
    let page = a_page(
        &rt,
        rt.alloc(),
        "r&d 100%",
        5_000,
        directories(&rt, rt.alloc()),
        "~\u{e4}",
    );
    let text = joined(
        &rt,
        rt.alloc(),
        &[
            FRONT,
            "<Prefix></Prefix><Marker>r%26d%20100%25</Marker><MaxResults>5000</MaxResults><Entries>",
            "<Directory><Name>R&amp;D</Name><FileId>7</FileId><Properties></Properties></Directory>",
            "</Entries><NextMarker>~%C3%A4</NextMarker></EnumerationResults>",
        ],
    );
    assert!(rt; is_written(&rt, rt.alloc(), &page, &text));
}

fn read(rt: &impl Abort, alloc: Global, text: &Text) -> NamesPage {
    match read_names(alloc, text.bytes()) {
        Ok(page) => page,
        Err(_) => panic!(rt; "unread"),
    }
}

fn written(rt: &impl Abort, alloc: Global, page: &NamesPage) -> Text {
    match write_names(alloc, page) {
        Ok(text) => text,
        Err(_) => panic!(rt; "no memory"),
    }
}

/// The same pages, read.
#[test]
fn names_are_read(rt: HostRuntime) {
    let page = a_page(&rt, rt.alloc(), "", 2, files(&rt, rt.alloc()), "c");
    let text = written(&rt, rt.alloc(), &page);
    assert!(rt; read(&rt, rt.alloc(), &text) == page);
}

/// A page of a directory, with markers that have escapes, read.
#[test]
fn markers_are_read(rt: HostRuntime) {
    let page = a_page(
        &rt,
        rt.alloc(),
        "r&d 100%",
        5_000,
        directories(&rt, rt.alloc()),
        "~\u{e4}\u{20ac}\u{1f600}",
    );
    let text = written(&rt, rt.alloc(), &page);
    assert!(rt; read(&rt, rt.alloc(), &text) == page);
}

fn place(rt: &impl Abort, alloc: Global, bytes: &[u8]) -> Option<u64> {
    match read_names(alloc, bytes) {
        Ok(_) => None,
        Err(BodyFault::Bad { at }) => Some(at),
        Err(BodyFault::NoMemory) => panic!(rt; "no memory"),
    }
}

/// A body that is cut anywhere is bad at its end.
#[test]
fn cut_names(rt: HostRuntime) {
    let page = a_page(
        &rt,
        rt.alloc(),
        "%",
        2,
        directories(&rt, rt.alloc()),
        "\u{e4}",
    );
    let text = written(&rt, rt.alloc(), &page);
    let bytes = text.bytes();
    for count in 0..bytes.len() {
        assert_eq!(rt; place(&rt, rt.alloc(), &bytes[..count]), Some(count as u64));
    }
}

fn damaged_row(rt: &impl Abort, alloc: Global, good: &str, wrong: &str) {
    let begun = joined(rt, alloc, &[FRONT, good]);
    let text = joined(rt, alloc, &[FRONT, good, wrong]);
    let at = begun.bytes().len() as u64;
    assert_eq!(rt; place(rt, alloc, text.bytes()), Some(at), "{good} {wrong}");
}

/// Damaged markers: an escape of a byte that is written as it is, one that begins no character, a letter in lower
/// case, a character that is cut, half of a pair of surrogates, a blank, an escape that is cut. What begins a body
/// stands on the left.
#[test]
fn damaged_markers(rt: HostRuntime) {
    let cases = [
        ("<Prefix></Prefix><Marker>%4", "1</Marker>"),
        ("<Prefix></Prefix><Marker>%", "80</Marker>"),
        ("<Prefix></Prefix><Marker>%2", "f</Marker>"),
        ("<Prefix></Prefix><Marker>%C3", "</Marker>"),
        ("<Prefix></Prefix><Marker>%ED%", "A0%80</Marker>"),
        ("<Prefix></Prefix><Marker>a", " </Marker>"),
        ("<Prefix></Prefix><Marker>%2", "</Marker>"),
    ];
    for (good, wrong) in cases {
        damaged_row(&rt, rt.alloc(), good, wrong);
    }
}

/// What stands in front of the first item.
const ENTRIES: &str = "<Prefix></Prefix><Marker></Marker><MaxResults>2</MaxResults><Entries>";

fn damaged_item(rt: &impl Abort, alloc: Global, good: &str, wrong: &str) {
    let good = joined(rt, alloc, &[ENTRIES, good]);
    damaged_row(rt, alloc, good.as_str(), wrong);
}

/// Damaged items: another tag, an escape that is none, a leading zero, an id past its type, a length of a directory,
/// text behind the body.
#[test]
fn damaged_names(rt: HostRuntime) {
    let cases = [
        ("<", "Link>"),
        ("<F", "ILE>"),
        ("<File><Name>&", "quot;"),
        ("<File><Name>a</Name><FileId>0", "1"),
        (
            "<File><Name>a</Name><FileId>1844674407370955161",
            "6</FileId>",
        ),
        (
            "<Directory><Name>a</Name><FileId>1</FileId><Properties><",
            "Content-Length>",
        ),
        (
            "</Entries><NextMarker></NextMarker></EnumerationResults>",
            "\n",
        ),
    ];
    for (good, wrong) in cases {
        damaged_item(&rt, rt.alloc(), good, wrong);
    }
}

/// A page size of 0, and one above the greatest.
#[test]
fn damaged_sizes(rt: HostRuntime) {
    let cases = [
        ("<Prefix></Prefix><Marker></Marker><MaxResults>", "0"),
        ("<Prefix></Prefix><Marker></Marker><MaxResults>500", "1"),
    ];
    for (good, wrong) in cases {
        damaged_row(&rt, rt.alloc(), good, wrong);
    }
}
