//! Replies that tell of a file: its facts to a request for the head alone, all of its bytes, and a part of them.

use crate::made::{
    answer, check, content_text, facts, head_closing, joined, no_attributes, no_content, stamp,
    two_metas, whole,
};
use std::alloc::Global;
use std::process::Abort;
use sx_call::{Content, FilePart, LeaseShown, Reply};
use sx_extent::{Piece, Ranges, View};
use sx_names::ContentMd5;

/// A file of these bytes.
fn a_file(rt: &impl Abort, alloc: Global, bytes: &[u8]) -> Ranges {
    let Ok(copy) = Vec::from_slice(alloc, bytes) else {
        panic!(rt; "no memory");
    };
    assert!(rt; 1 <= copy.len() && copy.len() <= 4_194_304);
    let Ok(piece) = Piece::of(alloc, copy) else {
        panic!(rt; "no memory");
    };
    let mut file = Ranges::new(alloc, 0);
    if file.write(0, &piece).is_err() {
        panic!(rt; "no memory");
    }
    file
}

/// The bytes of a file from one place up to another.
fn a_view(rt: &impl Abort, file: &Ranges, from: u64, end: u64) -> View {
    assert!(rt; from <= end && end <= file.length());
    match file.view(from, end) {
        Ok(view) => view,
        Err(_) => panic!(rt; "no memory"),
    }
}

/// Each content header.
fn all_content(rt: &impl Abort, alloc: Global) -> Content {
    Content {
        kind: Some(content_text(rt, alloc, "text/plain")),
        encoding: Some(content_text(rt, alloc, "gzip")),
        language: Some(content_text(rt, alloc, "")),
        cache_control: Some(content_text(rt, alloc, "no-store")),
        disposition: Some(content_text(rt, alloc, "attachment")),
        md5: Some(ContentMd5::of([0; 16])),
    }
}

/// The bytes of a file of 6 bytes from a place on.
fn a_part(rt: &impl Abort, alloc: Global, from: u64, end: u64, whole: bool) -> FilePart {
    let file = a_file(rt, alloc, b"abcdef");
    assert!(rt; from < end && end <= 6);
    let view = a_view(rt, &file, from, end);
    assert!(rt; 1 <= view.length() && view.length() <= 6 && from <= 6 - view.length());
    FilePart {
        from,
        length: 6,
        whole,
        view,
    }
}

/// What a file is, to a request for the head alone: the length is the file's.
#[test]
fn a_file_s_head_states_its_length(rt: HostRuntime) {
    let alloc = rt.alloc();
    let content = all_content(&rt, alloc);
    let meta = two_metas(&rt, alloc);
    let answer = answer(Reply::FileFacts {
        stamp: stamp(0x1234_5678_9ABC_DEF0),
        length: 4_398_046_511_104,
        content,
        facts: facts(no_attributes()),
        lease: LeaseShown::Broken,
        meta,
    });
    let rest = joined(
        &rt,
        alloc,
        &[
            "Last-Modified: Sat, 01 Jan 2022 00:00:00 GMT\r\nETag: \"0x123456789ABCDEF0\"\r\n",
            "Content-Type: text/plain\r\nContent-Encoding: gzip\r\nContent-Language: \r\n",
            "Cache-Control: no-store\r\nContent-Disposition: attachment\r\n",
            "Content-MD5: AAAAAAAAAAAAAAAAAAAAAA==\r\n",
            "x-ms-type: File\r\nx-ms-file-attributes: None\r\n",
            "x-ms-file-creation-time: 2022-01-01T00:00:00.0000000Z\r\n",
            "x-ms-file-last-write-time: 2022-01-01T00:00:00.0000001Z\r\n",
            "x-ms-file-change-time: 9892-03-08T12:33:49.4967295Z\r\nx-ms-file-id: 3\r\nx-ms-file-parent-id: 1\r\n",
            "x-ms-lease-status: unlocked\r\nx-ms-lease-state: broken\r\n",
            "x-ms-meta-author: a & b\r\nx-ms-meta-kind: \r\n",
            "Content-Length: 4398046511104\r\nConnection: close\r\n\r\n",
        ],
    );
    check(&rt, alloc, &answer, head_closing(), "200 OK", rest.as_str());
}

/// All bytes of a file.
#[test]
fn a_whole_file_is_printed(rt: HostRuntime) {
    let alloc = rt.alloc();
    let part = a_part(&rt, alloc, 0, 6, true);
    let meta = two_metas(&rt, alloc);
    let answer = answer(Reply::FileBytes {
        stamp: stamp(0x1234_5678_9ABC_DEF0),
        part,
        content: no_content(),
        facts: facts(no_attributes()),
        lease: LeaseShown::Available,
        meta,
    });
    let rest = joined(
        &rt,
        alloc,
        &[
            "Last-Modified: Sat, 01 Jan 2022 00:00:00 GMT\r\nETag: \"0x123456789ABCDEF0\"\r\n",
            "Content-Type: application/octet-stream\r\nAccept-Ranges: bytes\r\n",
            "x-ms-type: File\r\nx-ms-file-attributes: None\r\n",
            "x-ms-file-creation-time: 2022-01-01T00:00:00.0000000Z\r\n",
            "x-ms-file-last-write-time: 2022-01-01T00:00:00.0000001Z\r\n",
            "x-ms-file-change-time: 9892-03-08T12:33:49.4967295Z\r\nx-ms-file-id: 3\r\nx-ms-file-parent-id: 1\r\n",
            "x-ms-lease-status: unlocked\r\nx-ms-lease-state: available\r\n",
            "x-ms-meta-author: a & b\r\nx-ms-meta-kind: \r\n",
            "Content-Length: 6\r\n\r\nabcdef",
        ],
    );
    check(&rt, alloc, &answer, whole(), "200 OK", rest.as_str());
}

/// Bytes 1 to 3 of a file, whose digest has another header then.
#[test]
fn a_part_of_a_file_is_printed(rt: HostRuntime) {
    let alloc = rt.alloc();
    let part = a_part(&rt, alloc, 1, 4, false);
    let content = all_content(&rt, alloc);
    let meta = two_metas(&rt, alloc);
    let answer = answer(Reply::FileBytes {
        stamp: stamp(0x1234_5678_9ABC_DEF0),
        part,
        content,
        facts: facts(no_attributes()),
        lease: LeaseShown::Leased,
        meta,
    });
    let rest = joined(
        &rt,
        alloc,
        &[
            "Last-Modified: Sat, 01 Jan 2022 00:00:00 GMT\r\nETag: \"0x123456789ABCDEF0\"\r\n",
            "Content-Type: text/plain\r\nContent-Encoding: gzip\r\nContent-Language: \r\n",
            "Cache-Control: no-store\r\nContent-Disposition: attachment\r\n",
            "x-ms-content-md5: AAAAAAAAAAAAAAAAAAAAAA==\r\nAccept-Ranges: bytes\r\nContent-Range: bytes 1-3/6\r\n",
            "x-ms-type: File\r\nx-ms-file-attributes: None\r\n",
            "x-ms-file-creation-time: 2022-01-01T00:00:00.0000000Z\r\n",
            "x-ms-file-last-write-time: 2022-01-01T00:00:00.0000001Z\r\n",
            "x-ms-file-change-time: 9892-03-08T12:33:49.4967295Z\r\nx-ms-file-id: 3\r\nx-ms-file-parent-id: 1\r\n",
            "x-ms-lease-status: locked\r\nx-ms-lease-state: leased\r\nx-ms-lease-duration: infinite\r\n",
            "x-ms-meta-author: a & b\r\nx-ms-meta-kind: \r\n",
            "Content-Length: 3\r\n\r\nbcd",
        ],
    );
    check(
        &rt,
        alloc,
        &answer,
        whole(),
        "206 Partial Content",
        rest.as_str(),
    );
}
