//! Replies without the bytes of a file, each kind once.

use crate::made::{answer, check, facts, joined, no_attributes, stamp, two_metas, whole};
use sx_call::{Attributes, LeaseShown, LeaseStatus, Reply, WriteStatus};
use sx_lease::LeaseId;
use sx_moment::Moment;
use sx_names::Quota;

/// The stamp of what was made.
#[test]
fn a_stamp_is_printed(rt: HostRuntime) {
    let alloc = rt.alloc();
    let answer = answer(Reply::Stamped {
        status: WriteStatus::created(),
        stamp: stamp(0xAB),
    });
    let rest = joined(
        &rt,
        alloc,
        &[
            "Last-Modified: Sat, 01 Jan 2022 00:00:00 GMT\r\nETag: \"0x00000000000000AB\"\r\n",
            "Content-Length: 0\r\n\r\n",
        ],
    );
    check(&rt, alloc, &answer, whole(), "201 Created", rest.as_str());
}

/// A directory that was made, with two attributes.
#[test]
fn what_was_made_is_printed(rt: HostRuntime) {
    let alloc = rt.alloc();
    let attributes = Attributes {
        hidden: true,
        directory: true,
        ..no_attributes()
    };
    let answer = answer(Reply::Made {
        status: WriteStatus::ok(),
        stamp: stamp(0xAB),
        facts: facts(attributes),
    });
    let rest = joined(
        &rt,
        alloc,
        &[
            "Last-Modified: Sat, 01 Jan 2022 00:00:00 GMT\r\nETag: \"0x00000000000000AB\"\r\n",
            "x-ms-file-attributes: Hidden | Directory\r\nx-ms-file-creation-time: 2022-01-01T00:00:00.0000000Z\r\n",
            "x-ms-file-last-write-time: 2022-01-01T00:00:00.0000001Z\r\n",
            "x-ms-file-change-time: 9892-03-08T12:33:49.4967295Z\r\nx-ms-file-id: 3\r\nx-ms-file-parent-id: 1\r\n",
            "Content-Length: 0\r\n\r\n",
        ],
    );
    check(&rt, alloc, &answer, whole(), "200 OK", rest.as_str());
}

/// What was deleted.
#[test]
fn what_is_gone_is_printed(rt: HostRuntime) {
    let alloc = rt.alloc();
    let answer = answer(Reply::Gone);
    let rest = joined(&rt, alloc, &["Content-Length: 0\r\n\r\n"]);
    check(&rt, alloc, &answer, whole(), "202 Accepted", rest.as_str());
}

/// A snapshot's moment.
#[test]
fn a_snapshot_is_printed(rt: HostRuntime) {
    let alloc = rt.alloc();
    let answer = answer(Reply::Snapped {
        moment: Moment::of(16_409_952_000_000_001),
        stamp: stamp(0xAB),
    });
    let rest = joined(
        &rt,
        alloc,
        &[
            "x-ms-snapshot: 2022-01-01T00:00:00.0000001Z\r\n",
            "Last-Modified: Sat, 01 Jan 2022 00:00:00 GMT\r\nETag: \"0x00000000000000AB\"\r\n",
            "Content-Length: 0\r\n\r\n",
        ],
    );
    check(&rt, alloc, &answer, whole(), "201 Created", rest.as_str());
}

/// What a share is.
#[test]
fn a_share_is_printed(rt: HostRuntime) {
    let alloc = rt.alloc();
    let meta = two_metas(&rt, alloc);
    let answer = answer(Reply::ShareFacts {
        stamp: stamp(0xAB),
        quota: Quota::of(5120),
        lease: LeaseShown::Leased,
        meta,
    });
    let rest = joined(
        &rt,
        alloc,
        &[
            "Last-Modified: Sat, 01 Jan 2022 00:00:00 GMT\r\nETag: \"0x00000000000000AB\"\r\n",
            "x-ms-share-quota: 5120\r\n",
            "x-ms-lease-status: locked\r\nx-ms-lease-state: leased\r\nx-ms-lease-duration: infinite\r\n",
            "x-ms-meta-author: a & b\r\nx-ms-meta-kind: \r\n",
            "Content-Length: 0\r\n\r\n",
        ],
    );
    check(&rt, alloc, &answer, whole(), "200 OK", rest.as_str());
}

/// Metadata.
#[test]
fn metadata_is_printed(rt: HostRuntime) {
    let alloc = rt.alloc();
    let meta = two_metas(&rt, alloc);
    let answer = answer(Reply::Metas {
        stamp: stamp(0xAB),
        meta,
    });
    let rest = joined(
        &rt,
        alloc,
        &[
            "Last-Modified: Sat, 01 Jan 2022 00:00:00 GMT\r\nETag: \"0x00000000000000AB\"\r\n",
            "x-ms-meta-author: a & b\r\nx-ms-meta-kind: \r\n",
            "Content-Length: 0\r\n\r\n",
        ],
    );
    check(&rt, alloc, &answer, whole(), "200 OK", rest.as_str());
}

/// What a directory is.
#[test]
fn a_directory_is_printed(rt: HostRuntime) {
    let alloc = rt.alloc();
    let meta = two_metas(&rt, alloc);
    let answer = answer(Reply::DirFacts {
        stamp: stamp(0xAB),
        facts: facts(no_attributes()),
        meta,
    });
    let rest = joined(
        &rt,
        alloc,
        &[
            "Last-Modified: Sat, 01 Jan 2022 00:00:00 GMT\r\nETag: \"0x00000000000000AB\"\r\n",
            "x-ms-file-attributes: None\r\nx-ms-file-creation-time: 2022-01-01T00:00:00.0000000Z\r\n",
            "x-ms-file-last-write-time: 2022-01-01T00:00:00.0000001Z\r\n",
            "x-ms-file-change-time: 9892-03-08T12:33:49.4967295Z\r\nx-ms-file-id: 3\r\nx-ms-file-parent-id: 1\r\n",
            "x-ms-meta-author: a & b\r\nx-ms-meta-kind: \r\n",
            "Content-Length: 0\r\n\r\n",
        ],
    );
    check(&rt, alloc, &answer, whole(), "200 OK", rest.as_str());
}

/// A page of a listing.
#[test]
fn a_listing_is_printed(rt: HostRuntime) {
    let alloc = rt.alloc();
    let body = joined(
        &rt,
        alloc,
        &["<EnumerationResults>&amp;</EnumerationResults>"],
    );
    let answer = answer(Reply::Listed { body });
    let rest = joined(
        &rt,
        alloc,
        &[
            "Content-Type: application/xml\r\nContent-Length: 46\r\n\r\n<EnumerationResults>&amp;</EnumerationResults>",
        ],
    );
    check(&rt, alloc, &answer, whole(), "200 OK", rest.as_str());
}

/// The ranges of a file, with the file's length and the body's.
#[test]
fn ranges_are_printed(rt: HostRuntime) {
    let alloc = rt.alloc();
    let body = joined(&rt, alloc, &["<Ranges></Ranges>"]);
    let answer = answer(Reply::RangesListed {
        stamp: stamp(0xAB),
        length: 4_398_046_511_104,
        body,
    });
    let rest = joined(
        &rt,
        alloc,
        &[
            "Last-Modified: Sat, 01 Jan 2022 00:00:00 GMT\r\nETag: \"0x00000000000000AB\"\r\n",
            "x-ms-content-length: 4398046511104\r\nContent-Type: application/xml\r\n",
            "Content-Length: 17\r\n\r\n<Ranges></Ranges>",
        ],
    );
    check(&rt, alloc, &answer, whole(), "200 OK", rest.as_str());
}

/// A lease that was acquired.
#[test]
fn an_acquired_lease_is_printed(rt: HostRuntime) {
    let alloc = rt.alloc();
    let id = LeaseId(0x1111_1111_2222_3333_4444_5555_5555_5555);
    let answer = answer(Reply::LeaseDone {
        status: LeaseStatus::created(),
        stamp: stamp(0xAB),
        id: Some(id),
    });
    let rest = joined(
        &rt,
        alloc,
        &[
            "Last-Modified: Sat, 01 Jan 2022 00:00:00 GMT\r\nETag: \"0x00000000000000AB\"\r\n",
            "x-ms-lease-id: 11111111-2222-3333-4444-555555555555\r\n",
            "Content-Length: 0\r\n\r\n",
        ],
    );
    check(&rt, alloc, &answer, whole(), "201 Created", rest.as_str());
}

/// A lease that was broken.
#[test]
fn a_broken_lease_is_printed(rt: HostRuntime) {
    let alloc = rt.alloc();
    let answer = answer(Reply::LeaseDone {
        status: LeaseStatus::accepted(),
        stamp: stamp(0xAB),
        id: None,
    });
    let rest = joined(
        &rt,
        alloc,
        &[
            "Last-Modified: Sat, 01 Jan 2022 00:00:00 GMT\r\nETag: \"0x00000000000000AB\"\r\n",
            "x-ms-lease-time: 0\r\n",
            "Content-Length: 0\r\n\r\n",
        ],
    );
    check(&rt, alloc, &answer, whole(), "202 Accepted", rest.as_str());
}

/// How many handles were closed.
#[test]
fn closed_handles_are_printed(rt: HostRuntime) {
    let alloc = rt.alloc();
    let answer = answer(Reply::HandlesClosed { n: 2 });
    let rest = joined(
        &rt,
        alloc,
        &[
            "x-ms-number-of-handles-closed: 2\r\nx-ms-number-of-handles-failed: 0\r\n",
            "Content-Length: 0\r\n\r\n",
        ],
    );
    check(&rt, alloc, &answer, whole(), "200 OK", rest.as_str());
}
