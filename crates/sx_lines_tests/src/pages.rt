//! Answers with bytes of a file and with names of a directory, byte by byte.

use crate::answers::prints_reply;
use std::alloc::Global;
use std::process::Abort;
use sx_base::Items;
use sx_call::SmbReply;
use sx_extent::{Piece, Ranges, View};
use sx_names::{NameItem, NamesPage, PageSize, Text};

/// A file of these bytes.
fn a_file(rt: &impl Abort, alloc: Global, bytes: &[u8]) -> Ranges {
    let Ok(copy) = Vec::from_slice(alloc, bytes) else {
        panic!(rt; "no memory");
    };
    assert!(rt; 1 <= copy.len() && copy.len() <= 4_194_304);
    let Ok(piece) = Piece::of(alloc, copy) else {
        panic!(rt; "no memory");
    };
    let mut file = Ranges::new(alloc, 0);
    if file.write(0, &piece).is_err() {
        panic!(rt; "no memory");
    }
    file
}

/// The bytes of a file from one place up to another.
fn a_view(rt: &impl Abort, file: &Ranges, from: u64, end: u64) -> View {
    assert!(rt; from <= end && end <= file.length());
    match file.view(from, end) {
        Ok(view) => view,
        Err(_) => panic!(rt; "no memory"),
    }
}

#[test]
fn bytes_are_printed(rt: HostRuntime) {
    let alloc = rt.alloc();
    let file = a_file(&rt, alloc, b"\x00hi\xff\x0a");
    let view = a_view(&rt, &file, 0, 5);
    prints_reply(
        &rt,
        alloc,
        SmbReply::Bytes { view },
        "OK 9 read 5 006869ff0a\n",
    );
    let view = a_view(&rt, &file, 3, 4);
    prints_reply(&rt, alloc, SmbReply::Bytes { view }, "OK 9 read 1 ff\n");
    let view = a_view(&rt, &file, 5, 5);
    prints_reply(&rt, alloc, SmbReply::Bytes { view }, "OK 9 read 0 -\n");
}

fn a_text(rt: &impl Abort, alloc: Global, text: &str) -> Text {
    match Text::copy_of(alloc, text) {
        Ok(text) => text,
        Err(_) => panic!(rt; "no memory"),
    }
}

fn an_item(rt: &impl Abort, alloc: Global, name: &str, dir: bool, length: u64) -> NameItem {
    NameItem {
        name: a_text(rt, alloc, name),
        dir,
        id: 3,
        length,
    }
}

fn add(rt: &impl Abort, alloc: Global, items: &mut Items<NameItem>, name: &str, length: u64) {
    let dir = length == 0;
    if items.push(an_item(rt, alloc, name, dir, length)).is_err() {
        panic!(rt; "no memory");
    }
}

fn two_items(rt: &impl Abort, alloc: Global) -> Items<NameItem> {
    let mut items = Items::new(alloc);
    add(rt, alloc, &mut items, "a b.txt", 65_536);
    add(rt, alloc, &mut items, "\u{c4}", 0);
    items
}

fn a_page(rt: &impl Abort, alloc: Global, items: Items<NameItem>, next: &str) -> SmbReply {
    SmbReply::Names {
        page: NamesPage {
            prefix: Text::new(alloc),
            marker: a_text(rt, alloc, "m"),
            max: PageSize::of(2),
            items,
            next: a_text(rt, alloc, next),
        },
    }
}

#[test]
fn names_are_printed(rt: HostRuntime) {
    let alloc = rt.alloc();
    let none = a_page(&rt, alloc, Items::new(alloc), "");
    prints_reply(&rt, alloc, none, "OK 9 list 0 *\n");
    let some = a_page(&rt, alloc, two_items(&rt, alloc), "~*\u{e4}");
    prints_reply(
        &rt,
        alloc,
        some,
        "OK 9 list 2 ~%2A%C3%A4 file:65536:a%20b.txt dir:0:%C3%84\n",
    );
}
