//! Locks and pending nodes, and the requests that meet them.

use crate::asking::SHARE;
use crate::saying::{before_requests, beside_a_session};

const LOCKED: &str = "\
open data a.txt rw rwd create file => OK 3 open 1 created 2 0
write 1 0 0000000000000000000000000000000000000000000000000000000000000000 => OK 4 write 32 32
lock 1 10 10 exclusive => OK 5 lock";

/// Requests before, on and behind locked bytes.
const BY_THE_LOCK: &str = r#"GET /data/a.txt
> Range: bytes=0-9
* 06 00:00:00 206 Partial Content
< Last-Modified: Sat, 01 Jan 2022 00:00:00 GMT
< ETag: "0x0000000000000004"
< Content-Type: application/octet-stream
< Accept-Ranges: bytes
< Content-Range: bytes 0-9/32
< x-ms-type: File
< x-ms-file-attributes: Archive
< x-ms-file-creation-time: 2022-01-01T00:00:00.0000000Z
< x-ms-file-last-write-time: 2022-01-01T00:00:00.0000000Z
< x-ms-file-change-time: 2022-01-01T00:00:00.0000000Z
< x-ms-file-id: 2
< x-ms-file-parent-id: 1
< x-ms-lease-status: unlocked
< x-ms-lease-state: available
< Content-Length: 10
= ~~~~~~~~~~

GET /data/a.txt
> Range: bytes=9-10
* 07 00:00:00 409 Conflict
< x-ms-error-code: FileLockConflict
< Content-Type: application/xml
< Content-Length: 130
= <?xml version="1.0" encoding="utf-8"?><Error><Code>FileLockConflict</Code>
= <Message>lock handle 1.1 from 10 to 19</Message></Error>

PUT /data/a.txt?comp=range
> Content-Length: 1
> x-ms-write: update
> x-ms-range: bytes=20-20
+ x
* 08 00:00:00 201 Created
< Last-Modified: Sat, 01 Jan 2022 00:00:00 GMT
< ETag: "0x0000000000000008"
< Content-Length: 0

PUT /data/a.txt?comp=range
> Content-Length: 0
> x-ms-write: clear
> x-ms-range: bytes=19-19
* 09 00:00:00 409 Conflict
< x-ms-error-code: FileLockConflict
< Content-Type: application/xml
< Content-Length: 130
= <?xml version="1.0" encoding="utf-8"?><Error><Code>FileLockConflict</Code>
= <Message>lock handle 1.1 from 10 to 19</Message></Error>

PUT /data/a.txt?comp=properties
> Content-Length: 0
> x-ms-content-length: 19
* 0a 00:00:00 409 Conflict
< x-ms-error-code: FileLockConflict
< Content-Type: application/xml
< Content-Length: 130
= <?xml version="1.0" encoding="utf-8"?><Error><Code>FileLockConflict</Code>
= <Message>lock handle 1.1 from 10 to 19</Message></Error>

PUT /data/a.txt?comp=properties
> Content-Length: 0
> x-ms-content-length: 20
* 0b 00:00:00 200 OK
< Last-Modified: Sat, 01 Jan 2022 00:00:00 GMT
< ETag: "0x000000000000000B"
< x-ms-file-attributes: Archive
< x-ms-file-creation-time: 2022-01-01T00:00:00.0000000Z
< x-ms-file-last-write-time: 2022-01-01T00:00:00.0000000Z
< x-ms-file-change-time: 2022-01-01T00:00:00.0000000Z
< x-ms-file-id: 2
< x-ms-file-parent-id: 1
< Content-Length: 0"#;

const OWN_LOCK: &str = "\
open data a.txt rw rwd create file => OK 3 open 1 created 2 0
lock 1 0 4 shared => OK 4 lock
write 1 3 41 => ERR FILE_LOCK_CONFLICT 5 lock handle 1.1 from 0 to 3
unlock 1 0 4 exclusive => ERR RANGE_NOT_LOCKED 6 not locked
unlock 1 0 4 shared => OK 7 unlock
write 1 3 41 => OK 8 write 1 4";

const MARKED: &str = "\
open data a.txt rd rwd create file doc => OK 3 open 1 created 2 0
open data a.txt r rwd existing file => OK 4 open 2 opened 2 0
close 1 => OK 5 close pending";

/// A request for a pending file.
const PENDING: &str = r#"GET /data/a.txt
* 06 00:00:00 409 Conflict
< x-ms-error-code: SMBDeletePending
< Content-Type: application/xml
< Content-Length: 113
= <?xml version="1.0" encoding="utf-8"?><Error><Code>SMBDeletePending</Code><Message>pending id 2</Message>
= </Error>"#;

const LAST_CLOSE: &str = "close 2 => OK 7 close gone";

/// Requests behind the last close.
const ANEW: &str = r#"GET /data/a.txt
* 08 00:00:00 404 Not Found
< x-ms-error-code: ResourceNotFound
< Content-Type: application/xml
< Content-Length: 108
= <?xml version="1.0" encoding="utf-8"?><Error><Code>ResourceNotFound</Code><Message>no name</Message></Error>

PUT /data/a.txt
> Content-Length: 0
> x-ms-type: file
> x-ms-content-length: 0
* 09 00:00:00 201 Created
< Last-Modified: Sat, 01 Jan 2022 00:00:00 GMT
< ETag: "0x0000000000000009"
< x-ms-file-attributes: Archive
< x-ms-file-creation-time: 2022-01-01T00:00:00.0000000Z
< x-ms-file-last-write-time: 2022-01-01T00:00:00.0000000Z
< x-ms-file-change-time: 2022-01-01T00:00:00.0000000Z
< x-ms-file-id: 3
< x-ms-file-parent-id: 1
< Content-Length: 0"#;

const MARKED_DIRECTORY: &str = "open data d rd rwd create dir doc => OK 3 open 1 created 2 0";

/// A file in the directory.
const FILLED: &str = r#"PUT /data/d/f
> Content-Length: 0
> x-ms-type: file
> x-ms-content-length: 0
* 04 00:00:00 201 Created
< Last-Modified: Sat, 01 Jan 2022 00:00:00 GMT
< ETag: "0x0000000000000004"
< x-ms-file-attributes: Archive
< x-ms-file-creation-time: 2022-01-01T00:00:00.0000000Z
< x-ms-file-last-write-time: 2022-01-01T00:00:00.0000000Z
< x-ms-file-change-time: 2022-01-01T00:00:00.0000000Z
< x-ms-file-id: 3
< x-ms-file-parent-id: 2
< Content-Length: 0"#;

const CLOSE: &str = "close 1 => OK 5 close kept";

/// The directory is still there.
const STILL_THERE: &str = r#"DELETE /data/d?restype=directory
* 06 00:00:00 409 Conflict
< x-ms-error-code: DirectoryNotEmpty
< Content-Type: application/xml
< Content-Length: 116
= <?xml version="1.0" encoding="utf-8"?><Error><Code>DirectoryNotEmpty</Code><Message>not empty id 2</Message>
= </Error>"#;

#[test]
fn requests_by_a_lock(rt: HostRuntime) {
    beside_a_session(
        &rt,
        rt.alloc(),
        0,
        SHARE,
        (LOCKED, BY_THE_LOCK),
        ("", ""),
        12,
    );
}

#[test]
fn the_holders_own_shared_lock(rt: HostRuntime) {
    before_requests(&rt, rt.alloc(), OWN_LOCK, "", 9);
}

#[test]
fn a_pending_file_goes_with_its_last_open(rt: HostRuntime) {
    beside_a_session(
        &rt,
        rt.alloc(),
        0,
        SHARE,
        (MARKED, PENDING),
        (LAST_CLOSE, ANEW),
        10,
    );
}

#[test]
fn a_directory_with_a_file_ignores_its_mark(rt: HostRuntime) {
    beside_a_session(
        &rt,
        rt.alloc(),
        0,
        SHARE,
        (MARKED_DIRECTORY, FILLED),
        (CLOSE, STILL_THERE),
        7,
    );
}
