//! The body that lists shares.

use crate::made::joined;
use std::alloc::Global;
use std::process::Abort;
use sx_base::Items;
use sx_call::{ShareItem, SharesPage};
use sx_listing::{BodyFault, read_shares, write_shares};
use sx_moment::{Moment, Second};
use sx_names::{PageSize, Quota, Text};

/// What stands in front of the items.
const FRONT: &str = "<?xml version=\"1.0\" encoding=\"utf-8\"?><EnumerationResults>\
<Prefix>r&amp;d</Prefix><Marker>data</Marker><MaxResults>2</MaxResults><Shares>";

/// A share as it stands.
const SHARE: &str =
    "<Share><Name>data</Name><Properties><Last-Modified>Sun, 06 Nov 1994 08:49:37 GMT</Last-Modified>\
<Etag>\"0x0000000000000A1F\"</Etag><Quota>5120</Quota></Properties></Share>";

/// A snapshot of it.
const SNAPSHOT: &str =
    "<Share><Name>data</Name><Snapshot>2022-01-01T00:00:00.0000001Z</Snapshot><Properties>\
<Last-Modified>Sat, 01 Jan 2022 00:00:00 GMT</Last-Modified>\
<Etag>\"0xFFFFFFFFFFFFFFFF\"</Etag><Quota>1</Quota></Properties></Share>";

fn add(rt: &impl Abort, items: &mut Items<ShareItem>, item: ShareItem) {
    if items.push(item).is_err() {
        panic!(rt; "no memory");
    }
}

fn a_share(rt: &impl Abort, alloc: Global) -> ShareItem {
    ShareItem {
        name: joined(rt, alloc, &["data"]),
        snapshot: None,
        changed: Second::in_which(Moment::of(7_841_117_770_000_000)),
        etag: 2_591,
        quota: Quota::of(5_120),
    }
}

fn a_snapshot(rt: &impl Abort, alloc: Global) -> ShareItem {
    ShareItem {
        name: joined(rt, alloc, &["data"]),
        snapshot: Some(Moment::of(16_409_952_000_000_001)),
        changed: Second::in_which(Moment::of(16_409_952_000_000_001)),
        etag: 18_446_744_073_709_551_615,
        quota: Quota::of(1),
    }
}

fn both(rt: &impl Abort, alloc: Global) -> Items<ShareItem> {
    let mut items = Items::new(alloc);
    add(rt, &mut items, a_share(rt, alloc));
    add(rt, &mut items, a_snapshot(rt, alloc));
    items
}

fn a_page(rt: &impl Abort, alloc: Global, items: Items<ShareItem>, next: &str) -> SharesPage {
    SharesPage {
        prefix: joined(rt, alloc, &["r&d"]),
        marker: joined(rt, alloc, &["data"]),
        max: PageSize::of(2),
        items,
        next: joined(rt, alloc, &[next]),
    }
}

fn written(rt: &impl Abort, alloc: Global, page: &SharesPage) -> Text {
    match write_shares(alloc, page) {
        Ok(text) => text,
        Err(_) => panic!(rt; "no memory"),
    }
}

fn read(rt: &impl Abort, alloc: Global, text: &Text) -> SharesPage {
    match read_shares(alloc, text.bytes()) {
        Ok(page) => page,
        Err(_) => panic!(rt; "unread"),
    }
}

fn shares_row(rt: &impl Abort, alloc: Global, page: &SharesPage, behind: &[&str]) {
    let mut expected = joined(rt, alloc, &[FRONT]);
    if expected.append(joined(rt, alloc, behind).as_str()).is_err() {
        panic!(rt; "no memory");
    }
    let text = written(rt, alloc, page);
    assert!(rt; text.same(&expected));
    let again = written(rt, alloc, &read(rt, alloc, &text));
    assert!(rt; again.same(&text));
}

/// A page of no shares at the end, and one of a share and its snapshot with another one behind them, written, read and
/// written again.
#[test]
fn shares_are_written_and_read(rt: HostRuntime) {
    let none = a_page(&rt, rt.alloc(), Items::new(rt.alloc()), "");
    let end = "</Shares><NextMarker></NextMarker></EnumerationResults>";
    shares_row(&rt, rt.alloc(), &none, &[end]);
    let two = a_page(
        &rt,
        rt.alloc(),
        both(&rt, rt.alloc()),
        "data@2022-01-01T00:00:00.0000002Z",
    );
    let end =
        "</Shares><NextMarker>data@2022-01-01T00:00:00.0000002Z</NextMarker></EnumerationResults>";
    shares_row(&rt, rt.alloc(), &two, &[SHARE, SNAPSHOT, end]);
}

fn place(rt: &impl Abort, alloc: Global, bytes: &[u8]) -> Option<u64> {
    match read_shares(alloc, bytes) {
        Ok(_) => None,
        Err(BodyFault::Bad { at }) => Some(at),
        Err(BodyFault::NoMemory) => panic!(rt; "no memory"),
    }
}

/// A body that is cut anywhere is bad at its end.
#[test]
fn cut_shares(rt: HostRuntime) {
    let page = a_page(&rt, rt.alloc(), both(&rt, rt.alloc()), "\u{e4}");
    let text = written(&rt, rt.alloc(), &page);
    let bytes = text.bytes();
    for count in 0..bytes.len() {
        assert_eq!(rt; place(&rt, rt.alloc(), &bytes[..count]), Some(count as u64));
    }
}

fn damaged_row(rt: &impl Abort, alloc: Global, good: &str, wrong: &str) {
    let mut text = joined(rt, alloc, &[FRONT, good]);
    let at = text.bytes().len() as u64;
    if text.append(wrong).is_err() {
        panic!(rt; "no memory");
    }
    assert_eq!(rt; place(rt, alloc, text.bytes()), Some(at), "{good} {wrong}");
}

/// Damaged bodies: another tag, an item that is neither a share nor a snapshot, a day that its month hasn't, a day that
/// doesn't fall on its weekday, a second past the greatest, text behind the body. What begins a body stands on the
/// left.
#[test]
fn damaged_shares(rt: HostRuntime) {
    let cases = [
        ("<S", "HARE>"),
        ("<Share><Name>data</Name><", "Quota>"),
        ("<Share><Name>data</Name><Snapshot>2022-02-", "30T"),
        (
            "<Share><Name>data</Name><Properties><Last-Modified>Mon, 06 Nov 199",
            "4 ",
        ),
        (
            "<Share><Name>data</Name><Properties><Last-Modified>Sun, 06 Nov 1994 08:49:",
            "60",
        ),
        (
            "</Shares><NextMarker></NextMarker></EnumerationResults>",
            " ",
        ),
    ];
    for (good, wrong) in cases {
        damaged_row(&rt, rt.alloc(), good, wrong);
    }
}

fn damaged_property(rt: &impl Abort, alloc: Global, good: &str, wrong: &str) {
    let date = "<Last-Modified>Sun, 06 Nov 1994 08:49:37 GMT</Last-Modified><Etag>";
    let good = joined(
        rt,
        alloc,
        &["<Share><Name>data</Name><Properties>", date, good],
    );
    damaged_row(rt, alloc, good.as_str(), wrong);
}

/// Damaged properties: an ETag in lower case, one without its quotes, one of 15 digits, quotas outside their limits.
#[test]
fn damaged_properties(rt: HostRuntime) {
    let cases = [
        ("\"0x0000000000000", "a1f"),
        ("", "0x0000000000000A1F"),
        ("\"0x000000000000A1F", "\""),
        ("\"0x0000000000000A1F\"</Etag><Quota>", "0"),
        ("\"0x0000000000000A1F\"</Etag><Quota>512", "1"),
    ];
    for (good, wrong) in cases {
        damaged_property(&rt, rt.alloc(), good, wrong);
    }
}
