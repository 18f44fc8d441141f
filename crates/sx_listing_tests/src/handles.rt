//! The body that lists handles.

use crate::made::joined;
use std::alloc::Global;
use std::process::Abort;
use sx_base::Items;
use sx_call::{HandleItem, HandlesPage};
use sx_guard::HandleId;
use sx_listing::{BodyFault, read_handles, write_handles};
use sx_moment::Moment;
use sx_names::Text;

/// What stands in front of the first item.
const FRONT: &str = "<?xml version=\"1.0\" encoding=\"utf-8\"?><EnumerationResults><Entries>";

/// An item up to its ids.
const ITEM: &str = "<Handle><HandleId>1.2</HandleId><Path>dir/R&amp;D</Path><FileId>3</FileId>";

/// The rest of it up to the address of its peer.
const PEER: &str = "<ParentId>2</ParentId><SessionId>1</SessionId><ClientIp>";

fn an_item(rt: &impl Abort, alloc: Global) -> HandleItem {
    HandleItem {
        handle: HandleId {
            session: 1,
            index: 2,
        },
        path: joined(rt, alloc, &["dir/R&D"]),
        id: 3,
        parent: 2,
        session: 1,
        peer: 3_221_226_155,
        at: Moment::of(16_409_952_000_000_001),
    }
}

fn a_page(rt: &impl Abort, alloc: Global, next: Option<HandleId>) -> HandlesPage {
    let mut items = Items::new(alloc);
    if items.push(an_item(rt, alloc)).is_err() {
        panic!(rt; "no memory");
    }
    HandlesPage { items, next }
}

fn written(rt: &impl Abort, alloc: Global, page: &HandlesPage) -> Text {
    match write_handles(alloc, page) {
        Ok(text) => text,
        Err(_) => panic!(rt; "no memory"),
    }
}

fn read(rt: &impl Abort, alloc: Global, text: &Text) -> HandlesPage {
    match read_handles(alloc, text.bytes()) {
        Ok(page) => page,
        Err(_) => panic!(rt; "unread"),
    }
}

fn text_of(rt: &impl Abort, alloc: Global, next: &str) -> Text {
    joined(
        rt,
        alloc,
        &[
            FRONT,
            ITEM,
            PEER,
            "192.0.2.171</ClientIp><OpenTime>2022-01-01T00:00:00.0000001Z</OpenTime></Handle>",
            "</Entries><NextMarker>",
            next,
            "</NextMarker></EnumerationResults>",
        ],
    )
}

fn handles_row(rt: &impl Abort, alloc: Global, next: Option<HandleId>, shown: &str) {
    let text = written(rt, alloc, &a_page(rt, alloc, next));
    assert!(rt; text.same(&text_of(rt, alloc, shown)), "{shown}");
    let again = written(rt, alloc, &read(rt, alloc, &text));
    assert!(rt; again.same(&text), "{shown}");
}

/// A page of one handle, at the end and with more behind it, written, read and written again.
#[test]
fn handles_are_written_and_read(rt: HostRuntime) {
    handles_row(&rt, rt.alloc(), None, "");
    let next = HandleId {
        session: 4_294_967_295,
        index: 17,
    };
    handles_row(&rt, rt.alloc(), Some(next), "4294967295.17");
}

fn place(rt: &impl Abort, alloc: Global, bytes: &[u8]) -> Option<u64> {
    match read_handles(alloc, bytes) {
        Ok(_) => None,
        Err(BodyFault::Bad { at }) => Some(at),
        Err(BodyFault::NoMemory) => panic!(rt; "no memory"),
    }
}

fn damaged_row(rt: &impl Abort, alloc: Global, pieces: &[&str], wrong: &str) {
    let mut text = joined(rt, alloc, pieces);
    let at = text.bytes().len() as u64;
    if text.append(wrong).is_err() {
        panic!(rt; "no memory");
    }
    assert_eq!(rt; place(rt, alloc, text.bytes()), Some(at), "{wrong}");
}

/// Damaged bodies: a session 0, one past its type, a byte of an address above 255, a date that is none, a next handle
/// without its index, text behind the body. What begins a body stands on the left.
#[test]
fn damaged_handles(rt: HostRuntime) {
    let cases = [
        ("<Handle><HandleId>", "0.1"),
        ("<Handle><HandleId>4294967295", "0.1"),
        ("</Entries><NextMarker>7.", "<"),
        (
            "</Entries><NextMarker></NextMarker></EnumerationResults>",
            " ",
        ),
    ];
    for (good, wrong) in cases {
        damaged_row(&rt, rt.alloc(), &[FRONT, good], wrong);
    }
    let items = [
        ("192.0.2.25", "6<"),
        ("192.0.2.171</ClientIp><OpenTime>2022-02-", "30T"),
    ];
    for (good, wrong) in items {
        damaged_row(&rt, rt.alloc(), &[FRONT, ITEM, PEER, good], wrong);
    }
}
