//! The whole table of calls: each method with each path, restype and comp, with a snapshot and without one.

use crate::told::{Told, reads};
use std::alloc::Global;
use std::process::Abort;
use sx_decode::forms::Row;

/// A method, a path, restype and comp.
#[derive(Clone, Copy)]
struct Asked {
    method: &'static str,
    path: &'static str,
    restype: &'static str,
    comp: &'static str,
}

/// A request of the table by its method, path, restype and comp, with its call, and the call that it is where it names
/// a snapshot, if it may.
type Listed = (
    &'static str,
    &'static str,
    &'static str,
    &'static str,
    Row,
    Option<Row>,
);

const METHODS: [&str; 4] = ["GET", "HEAD", "PUT", "DELETE"];

const PATHS: [&str; 3] = ["/", "/data", "/data/a"];

const RESTYPES: [&str; 4] = ["", "restype=share", "restype=directory", "restype=other"];

const COMPS: [&str; 11] = [
    "",
    "comp=list",
    "comp=properties",
    "comp=metadata",
    "comp=snapshot",
    "comp=lease",
    "comp=range",
    "comp=rangelist",
    "comp=listhandles",
    "comp=forceclosehandles",
    "comp=other",
];

/// What some row wants of headers; each row passes over those of others.
const HEADERS: &str =
    "x-ms-share-quota: 1\nx-ms-type: file\nx-ms-content-length: 0\nx-ms-write: clear\n\
    x-ms-range: bytes=0-0\nx-ms-lease-action: break\nx-ms-handle-id: *\n\n";

const SHARE: &str = "restype=share";

const DIRECTORY: &str = "restype=directory";

/// Each request that is a call, in the order of the REST reference.
const ROWS: [Listed; 40] = [
    ("GET", "/", "", "comp=list", Row::ListShares, None),
    ("PUT", "/data", SHARE, "", Row::CreateShare, None),
    (
        "GET",
        "/data",
        SHARE,
        "",
        Row::GetShareProperties,
        Some(Row::GetShareProperties),
    ),
    (
        "HEAD",
        "/data",
        SHARE,
        "",
        Row::GetShareProperties,
        Some(Row::GetShareProperties),
    ),
    (
        "PUT",
        "/data",
        SHARE,
        "comp=properties",
        Row::SetShareProperties,
        None,
    ),
    (
        "GET",
        "/data",
        SHARE,
        "comp=metadata",
        Row::GetShareMetadata,
        Some(Row::GetShareMetadata),
    ),
    (
        "HEAD",
        "/data",
        SHARE,
        "comp=metadata",
        Row::GetShareMetadata,
        Some(Row::GetShareMetadata),
    ),
    (
        "PUT",
        "/data",
        SHARE,
        "comp=metadata",
        Row::SetShareMetadata,
        None,
    ),
    (
        "DELETE",
        "/data",
        SHARE,
        "",
        Row::DeleteShare,
        Some(Row::DeleteSnapshot),
    ),
    (
        "PUT",
        "/data",
        SHARE,
        "comp=snapshot",
        Row::SnapshotShare,
        None,
    ),
    ("PUT", "/data", SHARE, "comp=lease", Row::LeaseShare, None),
    ("PUT", "/data/a", DIRECTORY, "", Row::CreateDirectory, None),
    (
        "GET",
        "/data",
        DIRECTORY,
        "",
        Row::GetDirectoryProperties,
        Some(Row::GetDirectoryProperties),
    ),
    (
        "HEAD",
        "/data",
        DIRECTORY,
        "",
        Row::GetDirectoryProperties,
        Some(Row::GetDirectoryProperties),
    ),
    (
        "GET",
        "/data/a",
        DIRECTORY,
        "",
        Row::GetDirectoryProperties,
        Some(Row::GetDirectoryProperties),
    ),
    (
        "HEAD",
        "/data/a",
        DIRECTORY,
        "",
        Row::GetDirectoryProperties,
        Some(Row::GetDirectoryProperties),
    ),
    (
        "GET",
        "/data",
        DIRECTORY,
        "comp=metadata",
        Row::GetDirectoryMetadata,
        Some(Row::GetDirectoryMetadata),
    ),
    (
        "HEAD",
        "/data",
        DIRECTORY,
        "comp=metadata",
        Row::GetDirectoryMetadata,
        Some(Row::GetDirectoryMetadata),
    ),
    (
        "GET",
        "/data/a",
        DIRECTORY,
        "comp=metadata",
        Row::GetDirectoryMetadata,
        Some(Row::GetDirectoryMetadata),
    ),
    (
        "HEAD",
        "/data/a",
        DIRECTORY,
        "comp=metadata",
        Row::GetDirectoryMetadata,
        Some(Row::GetDirectoryMetadata),
    ),
    (
        "PUT",
        "/data",
        DIRECTORY,
        "comp=metadata",
        Row::SetDirectoryMetadata,
        None,
    ),
    (
        "PUT",
        "/data/a",
        DIRECTORY,
        "comp=metadata",
        Row::SetDirectoryMetadata,
        None,
    ),
    (
        "DELETE",
        "/data/a",
        DIRECTORY,
        "",
        Row::DeleteDirectory,
        None,
    ),
    (
        "GET",
        "/data",
        DIRECTORY,
        "comp=list",
        Row::ListDirectory,
        Some(Row::ListDirectory),
    ),
    (
        "GET",
        "/data/a",
        DIRECTORY,
        "comp=list",
        Row::ListDirectory,
        Some(Row::ListDirectory),
    ),
    ("PUT", "/data/a", "", "", Row::CreateFile, None),
    ("GET", "/data/a", "", "", Row::GetFile, Some(Row::GetFile)),
    (
        "HEAD",
        "/data/a",
        "",
        "",
        Row::GetFileProperties,
        Some(Row::GetFileProperties),
    ),
    (
        "PUT",
        "/data/a",
        "",
        "comp=properties",
        Row::SetFileProperties,
        None,
    ),
    (
        "GET",
        "/data/a",
        "",
        "comp=metadata",
        Row::GetFileMetadata,
        Some(Row::GetFileMetadata),
    ),
    (
        "HEAD",
        "/data/a",
        "",
        "comp=metadata",
        Row::GetFileMetadata,
        Some(Row::GetFileMetadata),
    ),
    (
        "PUT",
        "/data/a",
        "",
        "comp=metadata",
        Row::SetFileMetadata,
        None,
    ),
    ("PUT", "/data/a", "", "comp=range", Row::ClearRange, None),
    (
        "GET",
        "/data/a",
        "",
        "comp=rangelist",
        Row::ListRanges,
        Some(Row::ListRanges),
    ),
    ("DELETE", "/data/a", "", "", Row::DeleteFile, None),
    ("PUT", "/data/a", "", "comp=lease", Row::LeaseFile, None),
    (
        "GET",
        "/data",
        "",
        "comp=listhandles",
        Row::ListHandles,
        None,
    ),
    (
        "GET",
        "/data/a",
        "",
        "comp=listhandles",
        Row::ListHandles,
        None,
    ),
    (
        "PUT",
        "/data",
        "",
        "comp=forceclosehandles",
        Row::ForceCloseHandles,
        None,
    ),
    (
        "PUT",
        "/data/a",
        "",
        "comp=forceclosehandles",
        Row::ForceCloseHandles,
        None,
    ),
];

fn is_asked(listed: Listed, asked: &Asked) -> bool {
    let (method, path, restype, comp, _, _) = listed;
    method == asked.method && path == asked.path && restype == asked.restype && comp == asked.comp
}

fn told_with(listed: Listed, snapshot: bool) -> Told {
    let (_, _, _, _, row, kept) = listed;
    if !snapshot {
        return Told::Call(row);
    }
    match kept {
        Some(row) => Told::Call(row),
        None => Told::Query("sharesnapshot"),
    }
}

/// What a request is to be read as: no call where the table has no row for it.
fn told(asked: &Asked, snapshot: bool) -> Told {
    for listed in ROWS {
        if is_asked(listed, asked) {
            return told_with(listed, snapshot);
        }
    }
    Told::NoCall
}

fn put(rt: &impl Abort, text: &mut Vec<u8>, piece: &str) {
    if text.extend_from_slice(piece.as_bytes()).is_err() {
        panic!(rt; "no memory");
    }
}

/// The head of a request.
fn head(rt: &impl Abort, alloc: Global, asked: &Asked, snapshot: bool) -> Vec<u8> {
    let mut text = Vec::new(alloc);
    put(rt, &mut text, asked.method);
    put(rt, &mut text, " ");
    put(rt, &mut text, asked.path);
    put(rt, &mut text, "?");
    put(rt, &mut text, asked.restype);
    put(rt, &mut text, "&");
    put(rt, &mut text, asked.comp);
    if snapshot {
        put(rt, &mut text, "&sharesnapshot=2022-01-01T00:00:00.0000000Z");
    }
    put(rt, &mut text, " HTTP/1.1\n");
    put(rt, &mut text, HEADERS);
    text
}

fn is_read_by_table(rt: &impl Abort, alloc: Global, asked: &Asked, snapshot: bool) {
    let text = head(rt, alloc, asked, snapshot);
    if !reads(rt, alloc, &text, told(asked, snapshot)) {
        panic!(rt;
            "{} {} {} {} {snapshot}",
            asked.method, asked.path, asked.restype, asked.comp
        );
    }
}

fn with_each_comp(
    rt: &impl Abort,
    alloc: Global,
    method: &'static str,
    path: &'static str,
    restype: &'static str,
) {
    for comp in &COMPS {
        let asked = Asked {
            method,
            path,
            restype,
            comp: *comp,
        };
        is_read_by_table(rt, alloc, &asked, false);
        is_read_by_table(rt, alloc, &asked, true);
    }
}

fn with_each_restype(rt: &impl Abort, alloc: Global, method: &'static str, path: &'static str) {
    for restype in &RESTYPES {
        with_each_comp(rt, alloc, method, path, *restype);
    }
}

fn with_each_path(rt: &impl Abort, alloc: Global, method: &'static str) {
    for path in &PATHS {
        with_each_restype(rt, alloc, method, *path);
    }
}

/// 1,056 requests: those of the table are its calls, and all others are none.
#[test]
fn the_whole_table(rt: HostRuntime) {
    for method in &METHODS {
        with_each_path(&rt, rt.alloc(), *method);
    }
}
