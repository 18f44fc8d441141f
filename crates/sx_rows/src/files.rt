//! The calls on a file, each in the state that the calls before it left.

use crate::asking::rows;

/// A file whose properties and metadata change, and which is removed.
const KEPT: &str = r#"PUT /data?restype=share
> Content-Length: 0
* 01 00:00:00 201 Created
< Last-Modified: Sat, 01 Jan 2022 00:00:00 GMT
< ETag: "0x0000000000000001"
< Content-Length: 0

PUT /data/a.txt
> Content-Length: 0
> x-ms-type: file
> x-ms-content-length: 8
> x-ms-content-type: text/plain
* 02 00:00:01 201 Created
< Last-Modified: Sat, 01 Jan 2022 00:00:01 GMT
< ETag: "0x0000000000000002"
< x-ms-file-attributes: Archive
< x-ms-file-creation-time: 2022-01-01T00:00:01.0000000Z
< x-ms-file-last-write-time: 2022-01-01T00:00:01.0000000Z
< x-ms-file-change-time: 2022-01-01T00:00:01.0000000Z
< x-ms-file-id: 2
< x-ms-file-parent-id: 1
< Content-Length: 0

PUT /data/a.txt?comp=range
> Content-Length: 8
> x-ms-write: update
> x-ms-range: bytes=0-7
+ old data
* 03 00:00:02 201 Created
< Last-Modified: Sat, 01 Jan 2022 00:00:02 GMT
< ETag: "0x0000000000000003"
< Content-Length: 0

PUT /data/a.txt?comp=properties
# A length that changes sets the last write time, and a header that is absent goes.
> Content-Length: 0
> x-ms-content-length: 3
> x-ms-content-language: de
> x-ms-file-attributes: ReadOnly
* 04 00:00:03 200 OK
< Last-Modified: Sat, 01 Jan 2022 00:00:03 GMT
< ETag: "0x0000000000000004"
< x-ms-file-attributes: ReadOnly
< x-ms-file-creation-time: 2022-01-01T00:00:01.0000000Z
< x-ms-file-last-write-time: 2022-01-01T00:00:03.0000000Z
< x-ms-file-change-time: 2022-01-01T00:00:03.0000000Z
< x-ms-file-id: 2
< x-ms-file-parent-id: 1
< Content-Length: 0

HEAD /data/a.txt
* 05 00:00:04 200 OK
< Last-Modified: Sat, 01 Jan 2022 00:00:03 GMT
< ETag: "0x0000000000000004"
< Content-Type: application/octet-stream
< Content-Language: de
< x-ms-type: File
< x-ms-file-attributes: ReadOnly
< x-ms-file-creation-time: 2022-01-01T00:00:01.0000000Z
< x-ms-file-last-write-time: 2022-01-01T00:00:03.0000000Z
< x-ms-file-change-time: 2022-01-01T00:00:03.0000000Z
< x-ms-file-id: 2
< x-ms-file-parent-id: 1
< x-ms-lease-status: unlocked
< x-ms-lease-state: available
< Content-Length: 3

PUT /data/a.txt?comp=range
> Content-Length: 1
> x-ms-write: update
> x-ms-range: bytes=0-0
+ x
* 06 00:00:05 409 Conflict
< x-ms-error-code: ReadOnlyAttribute
< Content-Type: application/xml
< Content-Length: 116
= <?xml version="1.0" encoding="utf-8"?><Error><Code>ReadOnlyAttribute</Code><Message>read-only id 2</Message>
= </Error>

DELETE /data/a.txt
* 07 00:00:06 409 Conflict
< x-ms-error-code: ReadOnlyAttribute
< Content-Type: application/xml
< Content-Length: 116
= <?xml version="1.0" encoding="utf-8"?><Error><Code>ReadOnlyAttribute</Code><Message>read-only id 2</Message>
= </Error>

PUT /data/a.txt?comp=properties
> Content-Length: 0
> x-ms-file-attributes: None
> x-ms-file-creation-time: now
> x-ms-file-last-write-time: 2020-03-01T00:00:00.0000000Z
* 08 00:00:07 200 OK
< Last-Modified: Sat, 01 Jan 2022 00:00:07 GMT
< ETag: "0x0000000000000008"
< x-ms-file-attributes: None
< x-ms-file-creation-time: 2022-01-01T00:00:07.0000000Z
< x-ms-file-last-write-time: 2020-03-01T00:00:00.0000000Z
< x-ms-file-change-time: 2022-01-01T00:00:07.0000000Z
< x-ms-file-id: 2
< x-ms-file-parent-id: 1
< Content-Length: 0

PUT /data/a.txt?comp=metadata
> Content-Length: 0
> x-ms-meta-x: y
* 09 00:00:08 200 OK
< Last-Modified: Sat, 01 Jan 2022 00:00:08 GMT
< ETag: "0x0000000000000009"
< Content-Length: 0

GET /data/a.txt?comp=metadata
* 0a 00:00:09 200 OK
< Last-Modified: Sat, 01 Jan 2022 00:00:08 GMT
< ETag: "0x0000000000000009"
< x-ms-meta-x: y
< Content-Length: 0

HEAD /data/a.txt?comp=metadata
* 0b 00:00:10 200 OK
< Last-Modified: Sat, 01 Jan 2022 00:00:08 GMT
< ETag: "0x0000000000000009"
< x-ms-meta-x: y
< Content-Length: 0

PUT /data/a.txt?comp=lease
> Content-Length: 0
> x-ms-lease-action: acquire
* 0c 00:00:11 201 Created
< Last-Modified: Sat, 01 Jan 2022 00:00:08 GMT
< ETag: "0x0000000000000009"
< x-ms-lease-id: 00000000-0000-4016-8000-000000000017
< Content-Length: 0

PUT /data/a.txt?comp=lease
> Content-Length: 0
> x-ms-lease-action: acquire
> x-ms-proposed-lease-id: aaaaaaaa-bbbb-cccc-dddd-eeeeeeeeeeee
* 0d 00:00:12 409 Conflict
< x-ms-error-code: LeaseAlreadyPresent
< Content-Type: application/xml
< Content-Length: 115
= <?xml version="1.0" encoding="utf-8"?><Error><Code>LeaseAlreadyPresent</Code><Message>lease taken</Message>
= </Error>

PUT /data/a.txt?comp=lease
> Content-Length: 0
> x-ms-lease-action: change
> x-ms-lease-id: 00000000-0000-4016-8000-000000000017
> x-ms-proposed-lease-id: {AAAAAAAA-BBBB-CCCC-DDDD-EEEEEEEEEEEE}
* 0e 00:00:13 200 OK
< Last-Modified: Sat, 01 Jan 2022 00:00:08 GMT
< ETag: "0x0000000000000009"
< x-ms-lease-id: aaaaaaaa-bbbb-cccc-dddd-eeeeeeeeeeee
< Content-Length: 0

GET /data/a.txt
> x-ms-lease-id: aaaaaaaa-bbbb-cccc-dddd-eeeeeeeeeeee
* 0f 00:00:14 200 OK
< Last-Modified: Sat, 01 Jan 2022 00:00:08 GMT
< ETag: "0x0000000000000009"
< Content-Type: application/octet-stream
< Accept-Ranges: bytes
< x-ms-type: File
< x-ms-file-attributes: None
< x-ms-file-creation-time: 2022-01-01T00:00:07.0000000Z
< x-ms-file-last-write-time: 2020-03-01T00:00:00.0000000Z
< x-ms-file-change-time: 2022-01-01T00:00:08.0000000Z
< x-ms-file-id: 2
< x-ms-file-parent-id: 1
< x-ms-lease-status: locked
< x-ms-lease-state: leased
< x-ms-lease-duration: infinite
< x-ms-meta-x: y
< Content-Length: 3
= old

GET /data/a.txt
> x-ms-lease-id: 00000000-0000-4016-8000-000000000017
* 10 00:00:15 412 Precondition Failed
< x-ms-error-code: LeaseIdMismatchWithFileOperation
< Content-Type: application/xml
< Content-Length: 130
= <?xml version="1.0" encoding="utf-8"?><Error><Code>LeaseIdMismatchWithFileOperation</Code>
= <Message>lease differs</Message></Error>

PUT /data/a.txt?comp=lease
> Content-Length: 0
> x-ms-lease-action: release
> x-ms-lease-id: 00000000-0000-4016-8000-000000000017
* 11 00:00:16 409 Conflict
< x-ms-error-code: LeaseIdMismatchWithLeaseOperation
< Content-Type: application/xml
< Content-Length: 134
= <?xml version="1.0" encoding="utf-8"?><Error><Code>LeaseIdMismatchWithLeaseOperation</Code>
= <Message>lease id differs</Message></Error>

DELETE /data/a.txt
* 12 00:00:17 412 Precondition Failed
< x-ms-error-code: LeaseIdMissing
< Content-Type: application/xml
< Content-Length: 109
= <?xml version="1.0" encoding="utf-8"?><Error><Code>LeaseIdMissing</Code><Message>lease held</Message></Error>

PUT /data/a.txt?comp=lease
> Content-Length: 0
> x-ms-lease-action: release
> x-ms-lease-id: aaaaaaaa-bbbb-cccc-dddd-eeeeeeeeeeee
* 13 00:00:18 200 OK
< Last-Modified: Sat, 01 Jan 2022 00:00:08 GMT
< ETag: "0x0000000000000009"
< Content-Length: 0

HEAD /data/a.txt
> x-ms-lease-id: aaaaaaaa-bbbb-cccc-dddd-eeeeeeeeeeee
* 14 00:00:19 412 Precondition Failed
< x-ms-error-code: LeaseNotPresentWithFileOperation
< Content-Type: application/xml
< Content-Length: 0

PUT /data/a.txt
# Create File over a file keeps its id and replaces the rest.
> Content-Length: 0
> x-ms-type: file
> x-ms-content-length: 2
> x-ms-file-attributes: Temporary
* 15 00:00:20 201 Created
< Last-Modified: Sat, 01 Jan 2022 00:00:20 GMT
< ETag: "0x0000000000000015"
< x-ms-file-attributes: Temporary
< x-ms-file-creation-time: 2022-01-01T00:00:20.0000000Z
< x-ms-file-last-write-time: 2022-01-01T00:00:20.0000000Z
< x-ms-file-change-time: 2022-01-01T00:00:20.0000000Z
< x-ms-file-id: 2
< x-ms-file-parent-id: 1
< Content-Length: 0

GET /data/A.TXT
* 16 00:00:21 200 OK
< Last-Modified: Sat, 01 Jan 2022 00:00:20 GMT
< ETag: "0x0000000000000015"
< Content-Type: application/octet-stream
< Accept-Ranges: bytes
< x-ms-type: File
< x-ms-file-attributes: Temporary
< x-ms-file-creation-time: 2022-01-01T00:00:20.0000000Z
< x-ms-file-last-write-time: 2022-01-01T00:00:20.0000000Z
< x-ms-file-change-time: 2022-01-01T00:00:20.0000000Z
< x-ms-file-id: 2
< x-ms-file-parent-id: 1
< x-ms-lease-status: unlocked
< x-ms-lease-state: available
< Content-Length: 2
= ~~

DELETE /data/a.txt
* 17 00:00:22 202 Accepted
< Content-Length: 0

GET /data/a.txt
* 18 00:00:23 404 Not Found
< x-ms-error-code: ResourceNotFound
< Content-Type: application/xml
< Content-Length: 108
= <?xml version="1.0" encoding="utf-8"?><Error><Code>ResourceNotFound</Code><Message>no name</Message></Error>"#;

#[test]
fn the_calls_on_a_file(rt: HostRuntime) {
    rows(&rt, rt.alloc(), 10_000_000, KEPT, 24);
}
