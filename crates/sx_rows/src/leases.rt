//! A file's lease, and the opens that meet it.

use crate::saying::beside_a_session;

/// A file with a lease, written without its id, with another and with its own.
const LEASED: &str = r#"PUT /data?restype=share
> Content-Length: 0
* 01 00:00:00 201 Created
< Last-Modified: Sat, 01 Jan 2022 00:00:00 GMT
< ETag: "0x0000000000000001"
< Content-Length: 0

PUT /data/a.txt
> Content-Length: 0
> x-ms-type: file
> x-ms-content-length: 512
* 02 00:00:00 201 Created
< Last-Modified: Sat, 01 Jan 2022 00:00:00 GMT
< ETag: "0x0000000000000002"
< x-ms-file-attributes: Archive
< x-ms-file-creation-time: 2022-01-01T00:00:00.0000000Z
< x-ms-file-last-write-time: 2022-01-01T00:00:00.0000000Z
< x-ms-file-change-time: 2022-01-01T00:00:00.0000000Z
< x-ms-file-id: 2
< x-ms-file-parent-id: 1
< Content-Length: 0

PUT /data/a.txt?comp=lease
> Content-Length: 0
> x-ms-lease-action: acquire
> x-ms-proposed-lease-id: 11111111-2222-3333-4444-555555555555
* 03 00:00:00 201 Created
< Last-Modified: Sat, 01 Jan 2022 00:00:00 GMT
< ETag: "0x0000000000000002"
< x-ms-lease-id: 11111111-2222-3333-4444-555555555555
< Content-Length: 0

PUT /data/a.txt?comp=range
> Content-Length: 1
> x-ms-write: update
> x-ms-range: bytes=0-0
+ x
* 04 00:00:00 412 Precondition Failed
< x-ms-error-code: LeaseIdMissing
< Content-Type: application/xml
< Content-Length: 109
= <?xml version="1.0" encoding="utf-8"?><Error><Code>LeaseIdMissing</Code><Message>lease held</Message></Error>

PUT /data/a.txt?comp=range
> Content-Length: 1
> x-ms-write: update
> x-ms-range: bytes=0-0
> x-ms-lease-id: aaaaaaaa-bbbb-cccc-dddd-eeeeeeeeeeee
+ x
* 05 00:00:00 412 Precondition Failed
< x-ms-error-code: LeaseIdMismatchWithFileOperation
< Content-Type: application/xml
< Content-Length: 130
= <?xml version="1.0" encoding="utf-8"?><Error><Code>LeaseIdMismatchWithFileOperation</Code>
= <Message>lease differs</Message></Error>

PUT /data/a.txt?comp=range
> Content-Length: 1
> x-ms-write: update
> x-ms-range: bytes=0-0
> x-ms-lease-id: 11111111-2222-3333-4444-555555555555
+ x
* 06 00:00:00 201 Created
< Last-Modified: Sat, 01 Jan 2022 00:00:00 GMT
< ETag: "0x0000000000000006"
< Content-Length: 0"#;

const HELD: &str = "open data a.txt w rwd existing file => ERR SHARING_VIOLATION 8 lease held";

/// The lease is broken.
const BROKEN: &str = r#"PUT /data/a.txt?comp=lease
> Content-Length: 0
> x-ms-lease-action: break
* 09 00:00:00 202 Accepted
< Last-Modified: Sat, 01 Jan 2022 00:00:00 GMT
< ETag: "0x0000000000000006"
< x-ms-lease-time: 0
< Content-Length: 0"#;

const OPENED: &str = "open data a.txt w rwd existing file => OK 10 open 1 opened 2 512";

/// A lease against an open that writes.
const REFUSED: &str = r#"PUT /data/a.txt?comp=lease
> Content-Length: 0
> x-ms-lease-action: acquire
* 0b 00:00:00 409 Conflict
< x-ms-error-code: SharingViolation
< Content-Type: application/xml
< Content-Length: 119
= <?xml version="1.0" encoding="utf-8"?><Error><Code>SharingViolation</Code><Message>sharing handle 1.1</Message>
= </Error>"#;

#[test]
fn a_lease_and_an_open_that_writes(rt: HostRuntime) {
    beside_a_session(
        &rt,
        rt.alloc(),
        0,
        LEASED,
        (HELD, BROKEN),
        (OPENED, REFUSED),
        12,
    );
}
