//! Snapshots read as the share then stood.

use crate::asking::rows;

/// A file that is written again, emptied and deleted behind a snapshot.
const STOOD: &str = r#"PUT /data?restype=share
> Content-Length: 0
* 01 00:00:00 201 Created
< Last-Modified: Sat, 01 Jan 2022 00:00:00 GMT
< ETag: "0x0000000000000001"
< Content-Length: 0

PUT /data/a.txt
> Content-Length: 0
> x-ms-type: file
> x-ms-content-length: 4
* 02 00:00:00 201 Created
< Last-Modified: Sat, 01 Jan 2022 00:00:00 GMT
< ETag: "0x0000000000000002"
< x-ms-file-attributes: Archive
< x-ms-file-creation-time: 2022-01-01T00:00:00.0000000Z
< x-ms-file-last-write-time: 2022-01-01T00:00:00.0000000Z
< x-ms-file-change-time: 2022-01-01T00:00:00.0000000Z
< x-ms-file-id: 2
< x-ms-file-parent-id: 1
< Content-Length: 0

PUT /data/a.txt?comp=range
> Content-Length: 4
> x-ms-write: update
> x-ms-range: bytes=0-3
+ old!
* 03 00:00:00 201 Created
< Last-Modified: Sat, 01 Jan 2022 00:00:00 GMT
< ETag: "0x0000000000000003"
< Content-Length: 0

PUT /data?restype=share&comp=snapshot
> Content-Length: 0
* 04 00:00:00 201 Created
< x-ms-snapshot: 2022-01-01T00:00:00.0000000Z
< Last-Modified: Sat, 01 Jan 2022 00:00:00 GMT
< ETag: "0x0000000000000001"
< Content-Length: 0

PUT /data?restype=share&comp=snapshot
> Content-Length: 0
* 05 00:00:00 201 Created
< x-ms-snapshot: 2022-01-01T00:00:00.0000001Z
< Last-Modified: Sat, 01 Jan 2022 00:00:00 GMT
< ETag: "0x0000000000000001"
< Content-Length: 0

PUT /data/a.txt?comp=range
> Content-Length: 4
> x-ms-write: update
> x-ms-range: bytes=0-3
+ new!
* 06 00:00:00 201 Created
< Last-Modified: Sat, 01 Jan 2022 00:00:00 GMT
< ETag: "0x0000000000000006"
< Content-Length: 0

PUT /data/a.txt?comp=properties
> Content-Length: 0
> x-ms-content-length: 0
* 07 00:00:00 200 OK
< Last-Modified: Sat, 01 Jan 2022 00:00:00 GMT
< ETag: "0x0000000000000007"
< x-ms-file-attributes: Archive
< x-ms-file-creation-time: 2022-01-01T00:00:00.0000000Z
< x-ms-file-last-write-time: 2022-01-01T00:00:00.0000000Z
< x-ms-file-change-time: 2022-01-01T00:00:00.0000000Z
< x-ms-file-id: 2
< x-ms-file-parent-id: 1
< Content-Length: 0

DELETE /data/a.txt
* 08 00:00:00 202 Accepted
< Content-Length: 0

GET /data/a.txt?sharesnapshot=2022-01-01T00:00:00.0000000Z
* 09 00:00:00 200 OK
< Last-Modified: Sat, 01 Jan 2022 00:00:00 GMT
< ETag: "0x0000000000000003"
< Content-Type: application/octet-stream
< Accept-Ranges: bytes
< x-ms-type: File
< x-ms-file-attributes: Archive
< x-ms-file-creation-time: 2022-01-01T00:00:00.0000000Z
< x-ms-file-last-write-time: 2022-01-01T00:00:00.0000000Z
< x-ms-file-change-time: 2022-01-01T00:00:00.0000000Z
< x-ms-file-id: 2
< x-ms-file-parent-id: 1
< x-ms-lease-status: unlocked
< x-ms-lease-state: available
< Content-Length: 4
= old!

GET /data/a.txt
* 0a 00:00:00 404 Not Found
< x-ms-error-code: ResourceNotFound
< Content-Type: application/xml
< Content-Length: 108
= <?xml version="1.0" encoding="utf-8"?><Error><Code>ResourceNotFound</Code><Message>no name</Message></Error>

DELETE /data?restype=share
* 0b 00:00:00 409 Conflict
< x-ms-error-code: ShareHasSnapshots
< Content-Type: application/xml
< Content-Length: 113
= <?xml version="1.0" encoding="utf-8"?><Error><Code>ShareHasSnapshots</Code><Message>snapshots 2</Message>
= </Error>

DELETE /data?restype=share
> x-ms-delete-snapshots: include
* 0c 00:00:00 202 Accepted
< Content-Length: 0"#;

/// A snapshot's moment isn't given again, though it was deleted.
const TICKS: &str = r#"PUT /data?restype=share
> Content-Length: 0
* 01 00:00:00 201 Created
< Last-Modified: Sat, 01 Jan 2022 00:00:00 GMT
< ETag: "0x0000000000000001"
< Content-Length: 0

PUT /data?restype=share&comp=snapshot
> Content-Length: 0
* 02 00:00:00 201 Created
< x-ms-snapshot: 2022-01-01T00:00:00.0000000Z
< Last-Modified: Sat, 01 Jan 2022 00:00:00 GMT
< ETag: "0x0000000000000001"
< Content-Length: 0

DELETE /data?restype=share&sharesnapshot=2022-01-01T00:00:00.0000000Z
* 03 00:00:00 202 Accepted
< Content-Length: 0

GET /data?restype=share&sharesnapshot=2022-01-01T00:00:00.0000000Z
* 04 00:00:00 404 Not Found
< x-ms-error-code: ShareSnapshotNotFound
< Content-Type: application/xml
< Content-Length: 117
= <?xml version="1.0" encoding="utf-8"?><Error><Code>ShareSnapshotNotFound</Code><Message>no snapshot</Message>
= </Error>

PUT /data?restype=share&comp=snapshot
> Content-Length: 0
* 05 00:00:00 201 Created
< x-ms-snapshot: 2022-01-01T00:00:00.0000001Z
< Last-Modified: Sat, 01 Jan 2022 00:00:00 GMT
< ETag: "0x0000000000000001"
< Content-Length: 0"#;

/// Each call that reads a snapshot, behind changes of the share.
const AS_IT_STOOD: &str = r#"PUT /data?restype=share
> Content-Length: 0
* 01 00:00:00 201 Created
< Last-Modified: Sat, 01 Jan 2022 00:00:00 GMT
< ETag: "0x0000000000000001"
< Content-Length: 0

PUT /data/d?restype=directory
> Content-Length: 0
> x-ms-meta-a: old
* 02 00:00:01 201 Created
< Last-Modified: Sat, 01 Jan 2022 00:00:01 GMT
< ETag: "0x0000000000000002"
< x-ms-file-attributes: Directory
< x-ms-file-creation-time: 2022-01-01T00:00:01.0000000Z
< x-ms-file-last-write-time: 2022-01-01T00:00:01.0000000Z
< x-ms-file-change-time: 2022-01-01T00:00:01.0000000Z
< x-ms-file-id: 2
< x-ms-file-parent-id: 1
< Content-Length: 0

PUT /data/d/f
> Content-Length: 0
> x-ms-type: file
> x-ms-content-length: 2
> x-ms-meta-b: old
* 03 00:00:02 201 Created
< Last-Modified: Sat, 01 Jan 2022 00:00:02 GMT
< ETag: "0x0000000000000003"
< x-ms-file-attributes: Archive
< x-ms-file-creation-time: 2022-01-01T00:00:02.0000000Z
< x-ms-file-last-write-time: 2022-01-01T00:00:02.0000000Z
< x-ms-file-change-time: 2022-01-01T00:00:02.0000000Z
< x-ms-file-id: 3
< x-ms-file-parent-id: 2
< Content-Length: 0

PUT /data/d/f?comp=range
> Content-Length: 2
> x-ms-write: update
> x-ms-range: bytes=0-1
+ hi
* 04 00:00:03 201 Created
< Last-Modified: Sat, 01 Jan 2022 00:00:03 GMT
< ETag: "0x0000000000000004"
< Content-Length: 0

PUT /data?restype=share&comp=snapshot
> Content-Length: 0
* 05 00:00:04 201 Created
< x-ms-snapshot: 2022-01-01T00:00:04.0000000Z
< Last-Modified: Sat, 01 Jan 2022 00:00:00 GMT
< ETag: "0x0000000000000001"
< Content-Length: 0

DELETE /data/d/f
* 06 00:00:05 202 Accepted
< Content-Length: 0

DELETE /data/d?restype=directory
* 07 00:00:06 202 Accepted
< Content-Length: 0

GET /data/d?restype=directory&sharesnapshot=2022-01-01T00:00:04.0000000Z
* 08 00:00:07 200 OK
< Last-Modified: Sat, 01 Jan 2022 00:00:01 GMT
< ETag: "0x0000000000000002"
< x-ms-file-attributes: Directory
< x-ms-file-creation-time: 2022-01-01T00:00:01.0000000Z
< x-ms-file-last-write-time: 2022-01-01T00:00:01.0000000Z
< x-ms-file-change-time: 2022-01-01T00:00:01.0000000Z
< x-ms-file-id: 2
< x-ms-file-parent-id: 1
< x-ms-meta-a: old
< Content-Length: 0

GET /data/d?restype=directory&comp=metadata&sharesnapshot=2022-01-01T00:00:04.0000000Z
* 09 00:00:08 200 OK
< Last-Modified: Sat, 01 Jan 2022 00:00:01 GMT
< ETag: "0x0000000000000002"
< x-ms-meta-a: old
< Content-Length: 0

GET /data/d?restype=directory&comp=list&sharesnapshot=2022-01-01T00:00:04.0000000Z
* 0a 00:00:09 200 OK
< Content-Type: application/xml
< Content-Length: 290
= <?xml version="1.0" encoding="utf-8"?><EnumerationResults><Prefix></Prefix><Marker></Marker>
= <MaxResults>5000</MaxResults><Entries><File><Name>f</Name><FileId>3</FileId><Properties>
= <Content-Length>2</Content-Length></Properties></File></Entries><NextMarker></NextMarker></EnumerationResults>

HEAD /data/d/f?sharesnapshot=2022-01-01T00:00:04.0000000Z
* 0b 00:00:10 200 OK
< Last-Modified: Sat, 01 Jan 2022 00:00:03 GMT
< ETag: "0x0000000000000004"
< Content-Type: application/octet-stream
< x-ms-type: File
< x-ms-file-attributes: Archive
< x-ms-file-creation-time: 2022-01-01T00:00:02.0000000Z
< x-ms-file-last-write-time: 2022-01-01T00:00:03.0000000Z
< x-ms-file-change-time: 2022-01-01T00:00:03.0000000Z
< x-ms-file-id: 3
< x-ms-file-parent-id: 2
< x-ms-lease-status: unlocked
< x-ms-lease-state: available
< x-ms-meta-b: old
< Content-Length: 2

GET /data/d/f?comp=metadata&sharesnapshot=2022-01-01T00:00:04.0000000Z
* 0c 00:00:11 200 OK
< Last-Modified: Sat, 01 Jan 2022 00:00:03 GMT
< ETag: "0x0000000000000004"
< x-ms-meta-b: old
< Content-Length: 0

GET /data/d/f?comp=rangelist&sharesnapshot=2022-01-01T00:00:04.0000000Z
* 0d 00:00:12 200 OK
< Last-Modified: Sat, 01 Jan 2022 00:00:03 GMT
< ETag: "0x0000000000000004"
< x-ms-content-length: 2
< Content-Type: application/xml
< Content-Length: 98
= <?xml version="1.0" encoding="utf-8"?><Ranges><Range><Start>0</Start><End>1</End></Range></Ranges>

GET /data/d/f?sharesnapshot=2022-01-01T00:00:04.0000000Z
* 0e 00:00:13 200 OK
< Last-Modified: Sat, 01 Jan 2022 00:00:03 GMT
< ETag: "0x0000000000000004"
< Content-Type: application/octet-stream
< Accept-Ranges: bytes
< x-ms-type: File
< x-ms-file-attributes: Archive
< x-ms-file-creation-time: 2022-01-01T00:00:02.0000000Z
< x-ms-file-last-write-time: 2022-01-01T00:00:03.0000000Z
< x-ms-file-change-time: 2022-01-01T00:00:03.0000000Z
< x-ms-file-id: 3
< x-ms-file-parent-id: 2
< x-ms-lease-status: unlocked
< x-ms-lease-state: available
< x-ms-meta-b: old
< Content-Length: 2
= hi

GET /data/d/f?sharesnapshot=2022-01-01T00:00:04.0000000Z
> x-ms-lease-id: 11111111-2222-3333-4444-555555555555
* 00 00:00:14 400 Bad Request
< x-ms-error-code: InvalidHeaderValue
< Content-Type: application/xml
< Content-Length: 123
= <?xml version="1.0" encoding="utf-8"?><Error><Code>InvalidHeaderValue</Code>
= <Message>header x-ms-lease-id</Message></Error>"#;

#[test]
fn a_snapshot_keeps_what_stood(rt: HostRuntime) {
    rows(&rt, rt.alloc(), 0, STOOD, 12);
}

#[test]
fn a_moment_is_given_once(rt: HostRuntime) {
    rows(&rt, rt.alloc(), 0, TICKS, 5);
}

#[test]
fn each_reading_call_reads_a_snapshot(rt: HostRuntime) {
    rows(&rt, rt.alloc(), 10_000_000, AS_IT_STOOD, 14);
}
