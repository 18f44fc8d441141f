//! Opens, and the requests that meet them.
ghost use Rattle.std.specs.Prelude.{◌≡◌};
ghost use Rattle.sx_book.specs.Passes.{IsSamePass};

use crate::asking::{SHARE, asks};
use crate::opening::{Outside, begun, closes, new_year};
use crate::saying::{before_requests, beside_a_session, ended, says, started};
use std::alloc::Global;
use std::process::Abort;
use std::sync::Wait;
use sx_book::{Office, Pass};

/// A file that is made, written, read and closed, and read behind its close.
pub(crate) const READ_AGAIN: &str = "\
open data a.txt rw rwd create file => OK 3 open 1 created 2 0
write 1 0 68690a => OK 4 write 3 3
read 1 0 16 => OK 5 read 3 68690a
close 1 => OK 6 close kept
read 1 0 16 => ERR INVALID_HANDLE 7 handle 1.1";

/// Opens by a name that is there, and by one that is absent.
const BY_NAME: &str = "\
open data a.txt rw rwd create file => OK 3 open 1 created 2 0
open data a.txt r rwd create file => ERR OBJECT_NAME_COLLISION 4 there id 2
open data b.txt r rwd existing file => ERR OBJECT_NAME_NOT_FOUND 5 no name
open data b.txt r rwd either file => OK 6 open 2 created 3 0
open data A.TXT r rwd either file => OK 7 open 3 opened 2 0";

const FIRST_OPEN: &str = "open data a.txt r w create file => OK 4 open 1 created 2 0";

const SECOND_OPEN: &str = "open data a.txt w r existing file => OK 5 open 1 opened 2 0";

const CLASHING_OPEN: &str =
    "open data a.txt w w existing file => ERR SHARING_VIOLATION 5 sharing handle 1.1";

const OPENED: &str = "open data a.txt r w create file => OK 3 open 1 created 2 0";

/// A request against an open that shares no reading.
const SHARES_NO_READING: &str = r#"GET /data/a.txt
* 04 00:00:00 409 Conflict
< x-ms-error-code: SharingViolation
< Content-Type: application/xml
< Content-Length: 119
= <?xml version="1.0" encoding="utf-8"?><Error><Code>SharingViolation</Code><Message>sharing handle 1.1</Message>
= </Error>

HEAD /data/a.txt
* 05 00:00:00 200 OK
< Last-Modified: Sat, 01 Jan 2022 00:00:00 GMT
< ETag: "0x0000000000000003"
< Content-Type: application/octet-stream
< x-ms-type: File
< x-ms-file-attributes: Archive
< x-ms-file-creation-time: 2022-01-01T00:00:00.0000000Z
< x-ms-file-last-write-time: 2022-01-01T00:00:00.0000000Z
< x-ms-file-change-time: 2022-01-01T00:00:00.0000000Z
< x-ms-file-id: 2
< x-ms-file-parent-id: 1
< x-ms-lease-status: unlocked
< x-ms-lease-state: available
< Content-Length: 0"#;

const NO_ACCESS: &str = "open data a.txt - - create file => OK 3 open 1 created 2 0";

/// Requests beside an open without access.
const BESIDE_NO_ACCESS: &str = r#"GET /data/a.txt
* 04 00:00:00 200 OK
< Last-Modified: Sat, 01 Jan 2022 00:00:00 GMT
< ETag: "0x0000000000000003"
< Content-Type: application/octet-stream
< Accept-Ranges: bytes
< x-ms-type: File
< x-ms-file-attributes: Archive
< x-ms-file-creation-time: 2022-01-01T00:00:00.0000000Z
< x-ms-file-last-write-time: 2022-01-01T00:00:00.0000000Z
< x-ms-file-change-time: 2022-01-01T00:00:00.0000000Z
< x-ms-file-id: 2
< x-ms-file-parent-id: 1
< x-ms-lease-status: unlocked
< x-ms-lease-state: available
< Content-Length: 0

DELETE /data?restype=share
* 05 00:00:00 409 Conflict
< x-ms-error-code: SharingViolation
< Content-Type: application/xml
< Content-Length: 119
= <?xml version="1.0" encoding="utf-8"?><Error><Code>SharingViolation</Code><Message>sharing handle 1.1</Message>
= </Error>"#;

const DENIED: &str = "\
read 1 0 1 => ERR ACCESS_DENIED 6 access 1.1
close 1 => OK 7 close kept";

/// The share is deleted behind the close.
const DELETED: &str = r#"DELETE /data?restype=share
* 08 00:00:00 202 Accepted
< Content-Length: 0"#;

const WRITTEN: &str = "\
open data a.txt w rwd create file => OK 3 open 1 created 2 0
write 1 0 6869 => OK 4 write 2 2";

/// The file is read behind the session.
const READ_BEHIND: &str = r#"GET /data/a.txt
* 06 00:00:00 200 OK
< Last-Modified: Sat, 01 Jan 2022 00:00:00 GMT
< ETag: "0x0000000000000004"
< Content-Type: application/octet-stream
< Accept-Ranges: bytes
< x-ms-type: File
< x-ms-file-attributes: Archive
< x-ms-file-creation-time: 2022-01-01T00:00:00.0000000Z
< x-ms-file-last-write-time: 2022-01-01T00:00:00.0000000Z
< x-ms-file-change-time: 2022-01-01T00:00:00.0000000Z
< x-ms-file-id: 2
< x-ms-file-parent-id: 1
< x-ms-lease-status: unlocked
< x-ms-lease-state: available
< Content-Length: 2
= hi"#;

/// Two sessions are started, each says its lines, and both end.
fn both_say_in<R: Abort + Wait>(
    rt: &R,
    alloc: Global,
    office: &Office,
    pass: &mut Pass,
    outside: &mut Outside,
    first_says: &str,
    second_says: &str,
)
    requires own { pass.old.office ≡ office.now }
    ensures same { IsSamePass pass.old pass.new }
{
    let first = started(rt, office, pass, outside);
    let second = started(rt, office, pass, outside);
    says(rt, alloc, office, pass, outside, &first, first_says);
    says(rt, alloc, office, pass, outside, &second, second_says);
    ended(rt, office, pass, outside, second);
    ended(rt, office, pass, outside, first);
}

/// Two sessions beside a share say their lines. The office has so many entries then.
fn both_say<R: Abort + Wait>(
    rt: &R,
    alloc: Global,
    first_says: &str,
    second_says: &str,
    entries: usize,
) {
    let mut outside = new_year(rt, alloc, 0);
    let (office, mut pass) = begun(rt, alloc);
    asks(rt, alloc, &office, &mut pass, &mut outside, SHARE);
    both_say_in(
        rt,
        alloc,
        &office,
        &mut pass,
        &mut outside,
        first_says,
        second_says,
    );
    closes(rt, office, pass, entries);
}

#[test]
fn a_file_that_is_read_behind_its_close(rt: HostRuntime) {
    before_requests(&rt, rt.alloc(), READ_AGAIN, "", 8);
}

#[test]
fn opens_by_name(rt: HostRuntime) {
    before_requests(&rt, rt.alloc(), BY_NAME, "", 8);
}

#[test]
fn two_opens_that_share(rt: HostRuntime) {
    both_say(&rt, rt.alloc(), FIRST_OPEN, SECOND_OPEN, 7);
}

#[test]
fn two_opens_that_clash(rt: HostRuntime) {
    both_say(&rt, rt.alloc(), FIRST_OPEN, CLASHING_OPEN, 7);
}

#[test]
fn an_open_that_shares_no_reading(rt: HostRuntime) {
    beside_a_session(
        &rt,
        rt.alloc(),
        0,
        SHARE,
        (OPENED, SHARES_NO_READING),
        ("", ""),
        6,
    );
}

#[test]
fn an_open_without_access(rt: HostRuntime) {
    beside_a_session(
        &rt,
        rt.alloc(),
        0,
        SHARE,
        (NO_ACCESS, BESIDE_NO_ACCESS),
        (DENIED, DELETED),
        9,
    );
}

#[test]
fn a_session_and_then_a_request(rt: HostRuntime) {
    before_requests(&rt, rt.alloc(), WRITTEN, READ_BEHIND, 6);
}
