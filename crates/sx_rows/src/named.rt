//! Names, pages of names, and files in directories.

use crate::asking::rows;

/// Names are compared by their folding, and a broken rule is told with its place.
const FOLDED: &str = r#"PUT /data?restype=share
> Content-Length: 0
* 01 00:00:00 201 Created
< Last-Modified: Sat, 01 Jan 2022 00:00:00 GMT
< ETag: "0x0000000000000001"
< Content-Length: 0

PUT /data/Stra%C3%9Fe
> Content-Length: 0
> x-ms-type: file
> x-ms-content-length: 3
* 02 00:00:00 201 Created
< Last-Modified: Sat, 01 Jan 2022 00:00:00 GMT
< ETag: "0x0000000000000002"
< x-ms-file-attributes: Archive
< x-ms-file-creation-time: 2022-01-01T00:00:00.0000000Z
< x-ms-file-last-write-time: 2022-01-01T00:00:00.0000000Z
< x-ms-file-change-time: 2022-01-01T00:00:00.0000000Z
< x-ms-file-id: 2
< x-ms-file-parent-id: 1
< Content-Length: 0

HEAD /data/STRASSE
* 03 00:00:00 200 OK
< Last-Modified: Sat, 01 Jan 2022 00:00:00 GMT
< ETag: "0x0000000000000002"
< Content-Type: application/octet-stream
< x-ms-type: File
< x-ms-file-attributes: Archive
< x-ms-file-creation-time: 2022-01-01T00:00:00.0000000Z
< x-ms-file-last-write-time: 2022-01-01T00:00:00.0000000Z
< x-ms-file-change-time: 2022-01-01T00:00:00.0000000Z
< x-ms-file-id: 2
< x-ms-file-parent-id: 1
< x-ms-lease-status: unlocked
< x-ms-lease-state: available
< Content-Length: 3

HEAD /data/aaaaaaaaaaaaaaaaaaaaaaaaaaaaaaaaaaaaaaaaaaaaaaaaaaaaaaaaaaaaaaaaaaaaaaaaaaaaaaaaaaaaaaaaaaaaaaaaaaa
\ aaaaaaaaaaaaaaaaaaaaaaaaaaaaaaaaaaaaaaaaaaaaaaaaaaaaaaaaaaaaaaaaaaaaaaaaaaaaaaaaaaaaaaaaaaaaaaaaaaaaaaaaaaaaaa
\ aaaaaaaaaaaaaaaaaaaaaaaaaaaaaaaaaaaaaaaaaaaaaa
* 04 00:00:00 404 Not Found
< x-ms-error-code: ResourceNotFound
< Content-Type: application/xml
< Content-Length: 0

GET /data/aaaaaaaaaaaaaaaaaaaaaaaaaaaaaaaaaaaaaaaaaaaaaaaaaaaaaaaaaaaaaaaaaaaaaaaaaaaaaaaaaaaaaaaaaaaaaaaaaaaa
\ aaaaaaaaaaaaaaaaaaaaaaaaaaaaaaaaaaaaaaaaaaaaaaaaaaaaaaaaaaaaaaaaaaaaaaaaaaaaaaaaaaaaaaaaaaaaaaaaaaaaaaaaaaaaaa
\ aaaaaaaaaaaaaaaaaaaaaaaaaaaaaaaaaaaaaaaaaaaaaa
* 00 00:00:00 400 Bad Request
< x-ms-error-code: InvalidUri
< Content-Type: application/xml
< Content-Length: 117
= <?xml version="1.0" encoding="utf-8"?><Error><Code>InvalidUri</Code><Message>uri long part 1 at 255</Message>
= </Error>

GET /data/a.
* 00 00:00:00 400 Bad Request
< x-ms-error-code: InvalidUri
< Content-Type: application/xml
< Content-Length: 115
= <?xml version="1.0" encoding="utf-8"?><Error><Code>InvalidUri</Code><Message>uri tail part 1 at 1</Message>
= </Error>

GET /data/x/..
* 00 00:00:00 400 Bad Request
< x-ms-error-code: InvalidUri
< Content-Type: application/xml
< Content-Length: 114
= <?xml version="1.0" encoding="utf-8"?><Error><Code>InvalidUri</Code><Message>uri dot part 2 at 0</Message>
= </Error>

GET /data/a%3Ab
* 00 00:00:00 400 Bad Request
< x-ms-error-code: InvalidUri
< Content-Type: application/xml
< Content-Length: 115
= <?xml version="1.0" encoding="utf-8"?><Error><Code>InvalidUri</Code><Message>uri char part 1 at 1</Message>
= </Error>

GET /data/%FF
* 00 00:00:00 400 Bad Request
< x-ms-error-code: InvalidUri
< Content-Type: application/xml
< Content-Length: 115
= <?xml version="1.0" encoding="utf-8"?><Error><Code>InvalidUri</Code><Message>uri utf8 part 1 at 0</Message>
= </Error>

GET /data//x
* 00 00:00:00 400 Bad Request
< x-ms-error-code: InvalidUri
< Content-Type: application/xml
< Content-Length: 116
= <?xml version="1.0" encoding="utf-8"?><Error><Code>InvalidUri</Code><Message>uri empty part 1 at 0</Message>
= </Error>

GET /a--b?restype=share
* 00 00:00:00 400 Bad Request
< x-ms-error-code: InvalidUri
< Content-Type: application/xml
< Content-Length: 118
= <?xml version="1.0" encoding="utf-8"?><Error><Code>InvalidUri</Code><Message>uri hyphens part 0 at 2</Message>
= </Error>

GET /ab?restype=share
* 00 00:00:00 400 Bad Request
< x-ms-error-code: InvalidUri
< Content-Type: application/xml
< Content-Length: 116
= <?xml version="1.0" encoding="utf-8"?><Error><Code>InvalidUri</Code><Message>uri short part 0 at 0</Message>
= </Error>

GET /Data?restype=share
* 00 00:00:00 400 Bad Request
< x-ms-error-code: InvalidUri
< Content-Type: application/xml
< Content-Length: 115
= <?xml version="1.0" encoding="utf-8"?><Error><Code>InvalidUri</Code><Message>uri char part 0 at 0</Message>
= </Error>

GET /data-?restype=share
* 00 00:00:00 400 Bad Request
< x-ms-error-code: InvalidUri
< Content-Type: application/xml
< Content-Length: 115
= <?xml version="1.0" encoding="utf-8"?><Error><Code>InvalidUri</Code><Message>uri edge part 0 at 4</Message>
= </Error>"#;

/// A page of names in the order of their foldings, and the next one.
const PAGES: &str = r#"PUT /data?restype=share
> Content-Length: 0
* 01 00:00:00 201 Created
< Last-Modified: Sat, 01 Jan 2022 00:00:00 GMT
< ETag: "0x0000000000000001"
< Content-Length: 0

PUT /data/B
> Content-Length: 0
> x-ms-type: file
> x-ms-content-length: 0
* 02 00:00:00 201 Created
< Last-Modified: Sat, 01 Jan 2022 00:00:00 GMT
< ETag: "0x0000000000000002"
< x-ms-file-attributes: Archive
< x-ms-file-creation-time: 2022-01-01T00:00:00.0000000Z
< x-ms-file-last-write-time: 2022-01-01T00:00:00.0000000Z
< x-ms-file-change-time: 2022-01-01T00:00:00.0000000Z
< x-ms-file-id: 2
< x-ms-file-parent-id: 1
< Content-Length: 0

PUT /data/a
> Content-Length: 0
> x-ms-type: file
> x-ms-content-length: 0
* 03 00:00:00 201 Created
< Last-Modified: Sat, 01 Jan 2022 00:00:00 GMT
< ETag: "0x0000000000000003"
< x-ms-file-attributes: Archive
< x-ms-file-creation-time: 2022-01-01T00:00:00.0000000Z
< x-ms-file-last-write-time: 2022-01-01T00:00:00.0000000Z
< x-ms-file-change-time: 2022-01-01T00:00:00.0000000Z
< x-ms-file-id: 3
< x-ms-file-parent-id: 1
< Content-Length: 0

PUT /data/c
> Content-Length: 0
> x-ms-type: file
> x-ms-content-length: 0
* 04 00:00:00 201 Created
< Last-Modified: Sat, 01 Jan 2022 00:00:00 GMT
< ETag: "0x0000000000000004"
< x-ms-file-attributes: Archive
< x-ms-file-creation-time: 2022-01-01T00:00:00.0000000Z
< x-ms-file-last-write-time: 2022-01-01T00:00:00.0000000Z
< x-ms-file-change-time: 2022-01-01T00:00:00.0000000Z
< x-ms-file-id: 4
< x-ms-file-parent-id: 1
< Content-Length: 0

GET /data?restype=directory&comp=list&maxresults=2
* 05 00:00:00 200 OK
< Content-Type: application/xml
< Content-Length: 392
= <?xml version="1.0" encoding="utf-8"?><EnumerationResults><Prefix></Prefix><Marker></Marker>
= <MaxResults>2</MaxResults><Entries><File><Name>a</Name><FileId>3</FileId><Properties>
= <Content-Length>0</Content-Length></Properties></File><File><Name>B</Name><FileId>2</FileId><Properties>
= <Content-Length>0</Content-Length></Properties></File></Entries><NextMarker>c</NextMarker></EnumerationResults>

GET /data?restype=directory&comp=list&maxresults=2&marker=c
* 06 00:00:00 200 OK
< Content-Type: application/xml
< Content-Length: 288
= <?xml version="1.0" encoding="utf-8"?><EnumerationResults><Prefix></Prefix><Marker>c</Marker>
= <MaxResults>2</MaxResults><Entries><File><Name>c</Name><FileId>4</FileId><Properties>
= <Content-Length>0</Content-Length></Properties></File></Entries><NextMarker></NextMarker></EnumerationResults>"#;

/// A file that can only be read in a directory, and its times.
const READ_ONLY: &str = r#"PUT /data?restype=share
> Content-Length: 0
* 01 00:00:00 201 Created
< Last-Modified: Sat, 01 Jan 2022 00:00:00 GMT
< ETag: "0x0000000000000001"
< Content-Length: 0

PUT /data/x/y
> Content-Length: 0
> x-ms-type: file
> x-ms-content-length: 4
* 02 00:00:01 404 Not Found
< x-ms-error-code: ParentNotFound
< Content-Type: application/xml
< Content-Length: 110
= <?xml version="1.0" encoding="utf-8"?><Error><Code>ParentNotFound</Code><Message>no parent 1</Message></Error>

PUT /data/x?restype=directory
> Content-Length: 0
* 03 00:00:02 201 Created
< Last-Modified: Sat, 01 Jan 2022 00:00:02 GMT
< ETag: "0x0000000000000003"
< x-ms-file-attributes: Directory
< x-ms-file-creation-time: 2022-01-01T00:00:02.0000000Z
< x-ms-file-last-write-time: 2022-01-01T00:00:02.0000000Z
< x-ms-file-change-time: 2022-01-01T00:00:02.0000000Z
< x-ms-file-id: 2
< x-ms-file-parent-id: 1
< Content-Length: 0

PUT /data/X/y
> Content-Length: 0
> x-ms-type: file
> x-ms-content-length: 4
> x-ms-file-attributes: ReadOnly
* 04 00:00:03 201 Created
< Last-Modified: Sat, 01 Jan 2022 00:00:03 GMT
< ETag: "0x0000000000000004"
< x-ms-file-attributes: ReadOnly
< x-ms-file-creation-time: 2022-01-01T00:00:03.0000000Z
< x-ms-file-last-write-time: 2022-01-01T00:00:03.0000000Z
< x-ms-file-change-time: 2022-01-01T00:00:03.0000000Z
< x-ms-file-id: 3
< x-ms-file-parent-id: 2
< Content-Length: 0

PUT /data/x/y?comp=range
> Content-Length: 4
> x-ms-write: update
> x-ms-range: bytes=0-3
+ data
* 05 00:00:04 409 Conflict
< x-ms-error-code: ReadOnlyAttribute
< Content-Type: application/xml
< Content-Length: 116
= <?xml version="1.0" encoding="utf-8"?><Error><Code>ReadOnlyAttribute</Code><Message>read-only id 3</Message>
= </Error>

PUT /data/x/y?comp=properties
> Content-Length: 0
> x-ms-file-attributes: None
* 06 00:00:05 200 OK
< Last-Modified: Sat, 01 Jan 2022 00:00:05 GMT
< ETag: "0x0000000000000006"
< x-ms-file-attributes: None
< x-ms-file-creation-time: 2022-01-01T00:00:03.0000000Z
< x-ms-file-last-write-time: 2022-01-01T00:00:03.0000000Z
< x-ms-file-change-time: 2022-01-01T00:00:05.0000000Z
< x-ms-file-id: 3
< x-ms-file-parent-id: 2
< Content-Length: 0

PUT /data/x/y?comp=range
> Content-Length: 4
> x-ms-write: update
> x-ms-range: bytes=0-3
+ data
* 07 00:00:06 201 Created
< Last-Modified: Sat, 01 Jan 2022 00:00:06 GMT
< ETag: "0x0000000000000007"
< Content-Length: 0

GET /data/x
* 08 00:00:07 409 Conflict
< x-ms-error-code: ResourceTypeMismatch
< Content-Type: application/xml
< Content-Length: 119
= <?xml version="1.0" encoding="utf-8"?><Error><Code>ResourceTypeMismatch</Code><Message>directory id 2</Message>
= </Error>

PUT /data/x/y?comp=properties
> Content-Length: 0
> x-ms-file-attributes: preserve
> x-ms-file-creation-time: preserve
> x-ms-file-last-write-time: preserve
* 09 00:00:08 200 OK
< Last-Modified: Sat, 01 Jan 2022 00:00:08 GMT
< ETag: "0x0000000000000009"
< x-ms-file-attributes: None
< x-ms-file-creation-time: 2022-01-01T00:00:03.0000000Z
< x-ms-file-last-write-time: 2022-01-01T00:00:06.0000000Z
< x-ms-file-change-time: 2022-01-01T00:00:08.0000000Z
< x-ms-file-id: 3
< x-ms-file-parent-id: 2
< Content-Length: 0"#;

#[test]
fn names_are_compared_by_their_folding(rt: HostRuntime) {
    rows(&rt, rt.alloc(), 0, FOLDED, 4);
}

#[test]
fn a_page_of_names(rt: HostRuntime) {
    rows(&rt, rt.alloc(), 0, PAGES, 6);
}

#[test]
fn a_read_only_file_in_a_directory(rt: HostRuntime) {
    rows(&rt, rt.alloc(), 10_000_000, READ_ONLY, 9);
}
