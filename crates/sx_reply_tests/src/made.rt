//! Values of tests, made with ample memory, and the check of what is printed.

use std::alloc::Global;
use std::process::Abort;
use sx_base::{Items, MemSink};
use sx_call::{Attributes, Content, Meta, MetaPair, Reply, Shown, Stamp, Text};
use sx_moment::Moment;
use sx_names::{ContentText, HeaderText, MetaName};
use sx_reply::{Answer, Said, Shape, is_printed, print};

/// The front of each answer, behind its status line.
const FRONT: &str =
    "\r\nx-ms-request-id: 00000000-0000-0000-0000-000000000004\r\nx-ms-version: 2020-10-02\r\n\
Date: Sat, 01 Jan 2022 00:00:00 GMT\r\n";

/// 2022-01-01T00:00:00Z.
pub fn new_year() -> Moment {
    Moment::of(16_409_952_000_000_000)
}

/// A text of these pieces.
pub fn joined(rt: &impl Abort, alloc: Global, pieces: &[&str]) -> Text {
    let mut text = Text::new(alloc);
    for piece in pieces.iter() {
        if text.append(*piece).is_err() {
            panic!(rt; "no memory");
        }
    }
    text
}

fn bytes_of(rt: &impl Abort, alloc: Global, text: &str) -> Items<u8> {
    match Items::copy_of(alloc, text.as_bytes()) {
        Ok(bytes) => bytes,
        Err(_) => panic!(rt; "no memory"),
    }
}

/// A content header's value.
pub fn content_text(rt: &impl Abort, alloc: Global, text: &str) -> ContentText {
    match ContentText::of(bytes_of(rt, alloc, text)) {
        Some(text) => text,
        None => panic!(rt; "{text}"),
    }
}

/// No content headers.
pub fn no_content() -> Content {
    Content {
        kind: None,
        encoding: None,
        language: None,
        cache_control: None,
        disposition: None,
        md5: None,
    }
}

fn meta_name(rt: &impl Abort, alloc: Global, name: &str) -> MetaName {
    match MetaName::of(bytes_of(rt, alloc, name)) {
        Some(name) => name,
        None => panic!(rt; "{name}"),
    }
}

fn header_text(rt: &impl Abort, alloc: Global, text: &str) -> HeaderText {
    match HeaderText::of(bytes_of(rt, alloc, text)) {
        Some(text) => text,
        None => panic!(rt; "{text}"),
    }
}

fn add(rt: &impl Abort, alloc: Global, meta: &mut Meta, name: &str, value: &str) {
    let pair = MetaPair {
        name: meta_name(rt, alloc, name),
        value: header_text(rt, alloc, value),
    };
    if !meta.takes(&pair) || meta.push(pair).is_err() {
        panic!(rt; "{name}");
    }
}

/// Metadata with these two names.
pub fn two_metas(rt: &impl Abort, alloc: Global) -> Meta {
    let mut meta = Meta::new(alloc);
    add(rt, alloc, &mut meta, "author", "a & b");
    add(rt, alloc, &mut meta, "kind", "");
    meta
}

/// The stamp of an entry.
pub fn stamp(etag: u64) -> Stamp {
    Stamp {
        changed: new_year(),
        etag,
    }
}

/// No attributes.
pub fn no_attributes() -> Attributes {
    Attributes {
        read_only: false,
        hidden: false,
        system: false,
        archive: false,
        temporary: false,
        offline: false,
        not_content_indexed: false,
        no_scrub_data: false,
        directory: false,
    }
}

/// What is shown of a node with these attributes.
pub fn facts(attributes: Attributes) -> Shown {
    Shown {
        attributes,
        created: new_year(),
        written: Moment::of(16_409_952_000_000_001),
        changed: Moment::of(2_500_000_004_294_967_295),
        id: 3,
        parent: 1,
    }
}

/// The answer at place 4 with this reply.
pub fn answer(reply: Reply) -> Answer {
    said(Said::Core(reply))
}

/// The answer at place 4 that says this.
pub fn said(said: Said) -> Answer {
    Answer {
        place: 4,
        at: new_year(),
        said,
    }
}

/// To a request for head and body, on a connection that stays open.
pub fn whole() -> Shape {
    Shape {
        head_only: false,
        close: false,
    }
}

/// To a request for the head alone, on a connection that closes.
pub fn head_closing() -> Shape {
    Shape {
        head_only: true,
        close: true,
    }
}

/// Panics unless the answer is printed as this status, the front of each answer, and this rest.
pub fn check(
    rt: &impl Abort,
    alloc: Global,
    answer: &Answer,
    shape: Shape,
    status: &str,
    rest: &str,
) {
    assert!(rt; is_printed(&answer.said), "{status}");
    let mut sink = MemSink::new(alloc, Vec::new(alloc));
    assert!(rt; print(&mut sink, answer, shape).is_ok(), "{status}");
    let text = joined(rt, alloc, &["HTTP/1.1 ", status, FRONT, rest]);
    assert!(rt; sink.bytes() == text.bytes(), "{status} {rest}");
}
