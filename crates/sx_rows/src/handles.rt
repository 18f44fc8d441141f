//! Handles, listed and closed by requests.

use crate::asking::SHARE;
use crate::saying::beside_a_session;

/// A share and a directory.
const MADE: &str = r#"PUT /data?restype=share
> Content-Length: 0
* 01 00:00:00 201 Created
< Last-Modified: Sat, 01 Jan 2022 00:00:00 GMT
< ETag: "0x0000000000000001"
< Content-Length: 0

PUT /data/docs?restype=directory
> Content-Length: 0
* 02 00:00:01 201 Created
< Last-Modified: Sat, 01 Jan 2022 00:00:01 GMT
< ETag: "0x0000000000000002"
< x-ms-file-attributes: Directory
< x-ms-file-creation-time: 2022-01-01T00:00:01.0000000Z
< x-ms-file-last-write-time: 2022-01-01T00:00:01.0000000Z
< x-ms-file-change-time: 2022-01-01T00:00:01.0000000Z
< x-ms-file-id: 2
< x-ms-file-parent-id: 1
< Content-Length: 0"#;

const OPENED: &str = "\
open data docs rwd rwd existing dir => OK 4 open 1 opened 2 0
open data docs/f&g rw rwd create file => OK 5 open 2 created 3 0";

/// Handles that are listed page by page, and closed.
const HANDLES: &str = r#"GET /data?comp=listhandles
* 06 00:00:05 200 OK
< Content-Type: application/xml
< Content-Length: 123
= <?xml version="1.0" encoding="utf-8"?><EnumerationResults><Entries></Entries><NextMarker></NextMarker>
= </EnumerationResults>

GET /data?comp=listhandles&maxresults=1
> x-ms-recursive: true
* 07 00:00:06 200 OK
< Content-Type: application/xml
< Content-Length: 327
= <?xml version="1.0" encoding="utf-8"?><EnumerationResults><Entries><Handle><HandleId>1.1</HandleId>
= <Path>docs</Path><FileId>2</FileId><ParentId>1</ParentId><SessionId>1</SessionId><ClientIp>127.0.0.1</ClientIp>
= <OpenTime>2022-01-01T00:00:03.0000000Z</OpenTime></Handle></Entries><NextMarker>1.2</NextMarker>
= </EnumerationResults>

GET /data?comp=listhandles&maxresults=1&marker=1.2
> x-ms-recursive: True
* 08 00:00:07 200 OK
< Content-Type: application/xml
< Content-Length: 332
= <?xml version="1.0" encoding="utf-8"?><EnumerationResults><Entries><Handle><HandleId>1.2</HandleId>
= <Path>docs/f&amp;g</Path><FileId>3</FileId><ParentId>2</ParentId><SessionId>1</SessionId>
= <ClientIp>127.0.0.1</ClientIp><OpenTime>2022-01-01T00:00:04.0000000Z</OpenTime></Handle></Entries><NextMarker>
= </NextMarker></EnumerationResults>

GET /data/docs?comp=listhandles
* 09 00:00:08 200 OK
< Content-Type: application/xml
< Content-Length: 324
= <?xml version="1.0" encoding="utf-8"?><EnumerationResults><Entries><Handle><HandleId>1.1</HandleId>
= <Path>docs</Path><FileId>2</FileId><ParentId>1</ParentId><SessionId>1</SessionId><ClientIp>127.0.0.1</ClientIp>
= <OpenTime>2022-01-01T00:00:03.0000000Z</OpenTime></Handle></Entries><NextMarker></NextMarker>
= </EnumerationResults>

PUT /data/docs?comp=forceclosehandles
> Content-Length: 0
> x-ms-handle-id: 1.2
* 0a 00:00:09 200 OK
< x-ms-number-of-handles-closed: 0
< x-ms-number-of-handles-failed: 0
< Content-Length: 0

PUT /data/docs?comp=forceclosehandles
> Content-Length: 0
> x-ms-handle-id: 1.2
> x-ms-recursive: true
* 0b 00:00:10 200 OK
< x-ms-number-of-handles-closed: 1
< x-ms-number-of-handles-failed: 0
< Content-Length: 0

PUT /data?comp=forceclosehandles
> Content-Length: 0
> x-ms-handle-id: *
> x-ms-recursive: true
* 0c 00:00:11 200 OK
< x-ms-number-of-handles-closed: 1
< x-ms-number-of-handles-failed: 0
< Content-Length: 0

PUT /data?comp=forceclosehandles
> Content-Length: 0
> x-ms-handle-id: *
> x-ms-recursive: true
* 0d 00:00:12 200 OK
< x-ms-number-of-handles-closed: 0
< x-ms-number-of-handles-failed: 0
< Content-Length: 0"#;

const NOT_THERE: &str = "\
stat 1 => ERR INVALID_HANDLE 14 handle 1.1
close 2 => ERR INVALID_HANDLE 15 handle 1.2";

const ONE_OPEN: &str = "open data a.txt r w create file => OK 3 open 1 created 2 0";

/// The handle of one file.
const ONE_HANDLE: &str = r#"GET /data?comp=listhandles
> x-ms-recursive: true
* 04 00:00:00 200 OK
< Content-Type: application/xml
< Content-Length: 325
= <?xml version="1.0" encoding="utf-8"?><EnumerationResults><Entries><Handle><HandleId>1.1</HandleId>
= <Path>a.txt</Path><FileId>2</FileId><ParentId>1</ParentId><SessionId>1</SessionId><ClientIp>127.0.0.1</ClientIp>
= <OpenTime>2022-01-01T00:00:00.0000000Z</OpenTime></Handle></Entries><NextMarker></NextMarker>
= </EnumerationResults>

PUT /data/a.txt?comp=forceclosehandles
> Content-Length: 0
> x-ms-handle-id: *
* 05 00:00:00 200 OK
< x-ms-number-of-handles-closed: 1
< x-ms-number-of-handles-failed: 0
< Content-Length: 0

PUT /data/a.txt?comp=forceclosehandles
> Content-Length: 0
> x-ms-handle-id: *
* 06 00:00:00 200 OK
< x-ms-number-of-handles-closed: 0
< x-ms-number-of-handles-failed: 0
< Content-Length: 0"#;

const NO_OPEN: &str = "stat 1 => ERR INVALID_HANDLE 7 handle 1.1";

#[test]
fn the_calls_on_handles(rt: HostRuntime) {
    beside_a_session(
        &rt,
        rt.alloc(),
        10_000_000,
        MADE,
        (OPENED, HANDLES),
        (NOT_THERE, ""),
        16,
    );
}

#[test]
fn one_handle_is_listed_and_closed(rt: HostRuntime) {
    beside_a_session(
        &rt,
        rt.alloc(),
        0,
        SHARE,
        (ONE_OPEN, ONE_HANDLE),
        (NO_OPEN, ""),
        8,
    );
}
