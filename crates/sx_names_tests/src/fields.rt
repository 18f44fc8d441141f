//! Metadata, content headers, pages and texts.

use crate::made::{a_text, bytes_of, times};
use std::alloc::Global;
use std::process::Abort;
use sx_base::Items;
use sx_names::{
    Content, ContentMd5, ContentText, HeaderText, Meta, MetaName, MetaPair, NameItem, NamesPage,
    PageSize, Quota, Text,
};

fn meta_name_row(rt: &impl Abort, alloc: Global, bytes: &[u8], named: bool) {
    let read = MetaName::of(bytes_of(rt, alloc, bytes));
    assert_eq!(rt; read.is_some(), named, "{bytes:?}");
}

/// Names of metadata.
#[test]
fn names_of_metadata(rt: HostRuntime) {
    let names: [(&[u8], bool); 6] = [
        (b"a_1", true),
        (b"_", true),
        (b"", false),
        (b"1a", false),
        (b"A", false),
        (b"a-b", false),
    ];
    for (bytes, named) in names.iter() {
        meta_name_row(&rt, rt.alloc(), *bytes, *named);
    }
}

fn header_row(rt: &impl Abort, alloc: Global, bytes: &[u8], carried: bool) {
    let header = HeaderText::of(bytes_of(rt, alloc, bytes));
    assert_eq!(rt; header.is_some(), carried, "{bytes:?}");
}

fn content_row(rt: &impl Abort, bytes: Items<u8>, carried: bool) {
    let content = ContentText::of(bytes);
    assert_eq!(rt; content.is_some(), carried);
}

/// Values of metadata and of content headers.
#[test]
fn values_of_headers(rt: HostRuntime) {
    let values: [(&[u8], bool); 8] = [
        (b"", true),
        (b"a b", true),
        (b"a\tb", true),
        ("\u{e4}".as_bytes(), true),
        (b" a", false),
        (b"a\t", false),
        (b"a\x7f", false),
        (b"\xff", false),
    ];
    for (bytes, carried) in values.iter() {
        header_row(&rt, rt.alloc(), *bytes, *carried);
        content_row(&rt, bytes_of(&rt, rt.alloc(), *bytes), *carried);
    }
}

/// Values of content headers have at most 1,024 bytes.
#[test]
fn lengths_of_content(rt: HostRuntime) {
    content_row(&rt, times(&rt, rt.alloc(), b'a', 1_024), true);
    content_row(&rt, times(&rt, rt.alloc(), b'a', 1_025), false);
}

fn md5_row(rt: &impl Abort, text: &[u8], first: Option<u8>) {
    match ContentMd5::read(text) {
        Some(md5) => {
            assert_eq!(rt; first, md5.bytes().first().copied(), "{text:?}");
            assert!(rt; md5.text().as_slice() == text, "{text:?}");
        }
        None => assert_eq!(rt; first, None, "{text:?}"),
    }
}

/// Digests in strict base64: the examples of RFC 1321 for the empty text and `abc`, 15 and 17 bytes, bits left over, a
/// missing and a foreign padding, the alphabet for URLs, a blank, and no bytes.
#[test]
fn digests(rt: HostRuntime) {
    let cases: [(&[u8], Option<u8>); 10] = [
        (b"1B2M2Y8AsgTpgAmY7PhCfg==", Some(0xd4)),
        (b"kAFQmDzST7DWlj99KOF/cg==", Some(0x90)),
        (b"AAAAAAAAAAAAAAAAAAAA", None),
        (b"AAAAAAAAAAAAAAAAAAAAAAA=", None),
        (b"kAFQmDzST7DWlj99KOF/ch==", None),
        (b"kAFQmDzST7DWlj99KOF/cg", None),
        (b"kAFQmDzST7DWlj99KOF/cg=A", None),
        (b"kAFQmDzST7DWlj99KOF_cg==", None),
        (b" kAFQmDzST7DWlj99KOF/cg=", None),
        (b"", None),
    ];
    for (text, first) in cases.iter() {
        md5_row(&rt, *text, *first);
    }
}

fn a_name(rt: &impl Abort, alloc: Global, name: &[u8]) -> MetaName {
    match MetaName::of(bytes_of(rt, alloc, name)) {
        Some(name) => name,
        None => panic!(rt; "no name"),
    }
}

fn a_value(rt: &impl Abort, alloc: Global, count: usize) -> HeaderText {
    match HeaderText::of(times(rt, alloc, b'v', count)) {
        Some(value) => value,
        None => panic!(rt; "no value"),
    }
}

/// A name with a value of so many bytes.
fn a_pair(rt: &impl Abort, alloc: Global, name: &[u8], count: usize) -> MetaPair {
    MetaPair {
        name: a_name(rt, alloc, name),
        value: a_value(rt, alloc, count),
    }
}

fn takes(rt: &impl Abort, alloc: Global, meta: &Meta, name: &[u8], count: usize) -> bool {
    meta.takes(&a_pair(rt, alloc, name, count))
}

fn add(rt: &impl Abort, alloc: Global, meta: &mut Meta, name: &[u8], count: usize) {
    let next = a_pair(rt, alloc, name, count);
    assert!(rt; meta.takes(&next));
    if meta.push(next).is_err() {
        panic!(rt; "no memory");
    }
}

fn meta_is_copied(rt: &impl Abort, meta: &Meta) -> bool {
    match meta.copy() {
        Ok(again) => again.pairs() == meta.pairs() && again.length() == meta.length(),
        Err(_) => panic!(rt; "no memory"),
    }
}

/// Metadata takes pairs in order of name, as long as all have at most 8,192 bytes.
#[test]
fn metadata_in_order(rt: HostRuntime) {
    let mut meta = Meta::new(rt.alloc());
    add(&rt, rt.alloc(), &mut meta, b"b", 4_000);
    assert!(rt; !takes(&rt, rt.alloc(), &meta, b"a", 1));
    assert!(rt; !takes(&rt, rt.alloc(), &meta, b"b", 1));
    assert!(rt; takes(&rt, rt.alloc(), &meta, b"ba", 4_189));
    assert!(rt; !takes(&rt, rt.alloc(), &meta, b"ba", 4_190));
    add(&rt, rt.alloc(), &mut meta, b"ba", 4_189);
    assert_eq!(rt; meta.length(), 8_192);
    assert_eq!(rt; meta.pairs().len(), 2);
    assert!(rt; meta_is_copied(&rt, &meta));
}

/// Metadata with the names `_`, `__` and so on, with empty values.
fn underscores(rt: &impl Abort, alloc: Global, count: usize) -> Meta {
    let mut meta = Meta::new(alloc);
    for k in 0..count {
        let name = times(rt, alloc, b'_', k + 1);
        add(rt, alloc, &mut meta, name.as_slice(), 0);
    }
    meta
}

/// A 64th name is taken, a 65th is not.
#[test]
fn metadata_of_64_names(rt: HostRuntime) {
    let meta = underscores(&rt, rt.alloc(), 63);
    assert!(rt; takes(&rt, rt.alloc(), &meta, b"a", 0));
    let meta = underscores(&rt, rt.alloc(), 64);
    assert!(rt; !takes(&rt, rt.alloc(), &meta, b"a", 0));
}

fn an_item(rt: &impl Abort, alloc: Global) -> NameItem {
    NameItem {
        name: a_text(rt, alloc, "a.txt"),
        dir: false,
        id: 7,
        length: 5,
    }
}

fn items(rt: &impl Abort, alloc: Global) -> Items<NameItem> {
    let mut items = Items::new(alloc);
    if items.push(an_item(rt, alloc)).is_err() {
        panic!(rt; "no memory");
    }
    items
}

fn a_page(rt: &impl Abort, alloc: Global) -> NamesPage {
    NamesPage {
        prefix: a_text(rt, alloc, ""),
        marker: a_text(rt, alloc, "a"),
        max: PageSize::of(6_000),
        items: items(rt, alloc),
        next: a_text(rt, alloc, "b"),
    }
}

fn page_is_copied(rt: &impl Abort, page: &NamesPage) -> bool {
    match page.copy() {
        Ok(again) => again == *page,
        Err(_) => panic!(rt; "no memory"),
    }
}

/// A page, with memory for its copy.
#[test]
fn pages_are_copied(rt: HostRuntime) {
    let page = a_page(&rt, rt.alloc());
    assert_eq!(rt; page.max.results(), 5_000);
    assert!(rt; page_is_copied(&rt, &page));
}

fn a_content(rt: &impl Abort, alloc: Global) -> Content {
    Content {
        kind: ContentText::of(bytes_of(rt, alloc, b"text/plain")),
        encoding: None,
        language: None,
        cache_control: None,
        disposition: None,
        md5: ContentMd5::read(b"1B2M2Y8AsgTpgAmY7PhCfg=="),
    }
}

fn content_is_copied(rt: &impl Abort, content: &Content) -> bool {
    match content.copy() {
        Ok(again) => again == *content,
        Err(_) => panic!(rt; "no memory"),
    }
}

/// Content headers, with memory for their copy; and a quota.
#[test]
fn content_is_kept(rt: HostRuntime) {
    let content = a_content(&rt, rt.alloc());
    assert!(rt; content.md5.is_some());
    assert!(rt; content_is_copied(&rt, &content));
    assert_eq!(rt; Quota::of(5_120).gib(), 5_120);
}

fn append(rt: &impl Abort, text: &mut Text, more: &str, number: u64) {
    if text.append(more).is_err() || text.append_decimal(number).is_err() {
        panic!(rt; "no memory");
    }
}

fn folded(rt: &impl Abort, text: &Text) -> Text {
    match text.folded() {
        Ok(text) => text,
        Err(_) => panic!(rt; "no memory"),
    }
}

/// A text that grows by a text and a number, and its folded form.
#[test]
fn texts_grow(rt: HostRuntime) {
    let mut text = Text::new(rt.alloc());
    append(&rt, &mut text, "Stra\u{df}e ", 18_446_744_073_709_551_615);
    assert_eq!(rt; text.as_str(), "Stra\u{df}e 18446744073709551615");
    assert_eq!(rt; folded(&rt, &text).as_str(), "strasse 18446744073709551615");
    assert_eq!(rt; text.into_vec().len(), 28);
}
