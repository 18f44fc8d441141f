//! Marks and bytes of sparse files, to the greatest length.

use crate::asking::rows;

/// The last byte of a file of the greatest length.
const GREATEST: &str = r#"PUT /data?restype=share
> Content-Length: 0
* 01 00:00:00 201 Created
< Last-Modified: Sat, 01 Jan 2022 00:00:00 GMT
< ETag: "0x0000000000000001"
< Content-Length: 0

PUT /data/a.txt
> Content-Length: 0
> x-ms-type: file
> x-ms-content-length: 4398046511104
* 02 00:00:00 201 Created
< Last-Modified: Sat, 01 Jan 2022 00:00:00 GMT
< ETag: "0x0000000000000002"
< x-ms-file-attributes: Archive
< x-ms-file-creation-time: 2022-01-01T00:00:00.0000000Z
< x-ms-file-last-write-time: 2022-01-01T00:00:00.0000000Z
< x-ms-file-change-time: 2022-01-01T00:00:00.0000000Z
< x-ms-file-id: 2
< x-ms-file-parent-id: 1
< Content-Length: 0

PUT /data/a.txt?comp=range
> Content-Length: 1
> x-ms-write: update
> x-ms-range: bytes=4398046511103-4398046511103
+ x
* 03 00:00:00 201 Created
< Last-Modified: Sat, 01 Jan 2022 00:00:00 GMT
< ETag: "0x0000000000000003"
< Content-Length: 0

GET /data/a.txt?comp=rangelist
* 04 00:00:00 200 OK
< Last-Modified: Sat, 01 Jan 2022 00:00:00 GMT
< ETag: "0x0000000000000003"
< x-ms-content-length: 4398046511104
< Content-Type: application/xml
< Content-Length: 122
= <?xml version="1.0" encoding="utf-8"?><Ranges><Range><Start>4398046510592</Start><End>4398046511103</End>
= </Range></Ranges>

PUT /data/a.txt?comp=range
> Content-Length: 1
> x-ms-write: update
> x-ms-range: bytes=4398046511104-4398046511104
+ x
* 05 00:00:00 416 Range Not Satisfiable
< x-ms-error-code: InvalidRange
< Content-Type: application/xml
< Content-Length: 123
= <?xml version="1.0" encoding="utf-8"?><Error><Code>InvalidRange</Code>
= <Message>range length 4398046511104</Message></Error>

PUT /data/a.txt?comp=range
> Content-Length: 0
> x-ms-write: clear
> x-ms-range: bytes=0-4398046511103
* 06 00:00:00 201 Created
< Last-Modified: Sat, 01 Jan 2022 00:00:00 GMT
< ETag: "0x0000000000000006"
< Content-Length: 0

GET /data/a.txt?comp=rangelist
* 07 00:00:00 200 OK
< Last-Modified: Sat, 01 Jan 2022 00:00:00 GMT
< ETag: "0x0000000000000006"
< x-ms-content-length: 4398046511104
< Content-Type: application/xml
< Content-Length: 55
= <?xml version="1.0" encoding="utf-8"?><Ranges></Ranges>"#;

/// A clear that begins and ends inside granules.
const BETWEEN: &str = r#"PUT /data?restype=share
> Content-Length: 0
* 01 00:00:00 201 Created
< Last-Modified: Sat, 01 Jan 2022 00:00:00 GMT
< ETag: "0x0000000000000001"
< Content-Length: 0

PUT /data/a.txt
> Content-Length: 0
> x-ms-type: file
> x-ms-content-length: 2048
* 02 00:00:00 201 Created
< Last-Modified: Sat, 01 Jan 2022 00:00:00 GMT
< ETag: "0x0000000000000002"
< x-ms-file-attributes: Archive
< x-ms-file-creation-time: 2022-01-01T00:00:00.0000000Z
< x-ms-file-last-write-time: 2022-01-01T00:00:00.0000000Z
< x-ms-file-change-time: 2022-01-01T00:00:00.0000000Z
< x-ms-file-id: 2
< x-ms-file-parent-id: 1
< Content-Length: 0

PUT /data/a.txt?comp=range
> Content-Length: 8
> x-ms-write: update
> x-ms-range: bytes=96-103
+ abcdefgh
* 03 00:00:00 201 Created
< Last-Modified: Sat, 01 Jan 2022 00:00:00 GMT
< ETag: "0x0000000000000003"
< Content-Length: 0

PUT /data/a.txt?comp=range
> Content-Length: 4
> x-ms-write: update
> x-ms-range: bytes=512-515
+ gone
* 04 00:00:00 201 Created
< Last-Modified: Sat, 01 Jan 2022 00:00:00 GMT
< ETag: "0x0000000000000004"
< Content-Length: 0

PUT /data/a.txt?comp=range
> Content-Length: 8
> x-ms-write: update
> x-ms-range: bytes=1196-1203
+ ijklmnop
* 05 00:00:00 201 Created
< Last-Modified: Sat, 01 Jan 2022 00:00:00 GMT
< ETag: "0x0000000000000005"
< Content-Length: 0

PUT /data/a.txt?comp=range
> Content-Length: 4
> x-ms-write: update
> x-ms-range: bytes=1536-1539
+ stay
* 06 00:00:00 201 Created
< Last-Modified: Sat, 01 Jan 2022 00:00:00 GMT
< ETag: "0x0000000000000006"
< Content-Length: 0

GET /data/a.txt?comp=rangelist
* 07 00:00:00 200 OK
< Last-Modified: Sat, 01 Jan 2022 00:00:00 GMT
< ETag: "0x0000000000000006"
< x-ms-content-length: 2048
< Content-Type: application/xml
< Content-Length: 101
= <?xml version="1.0" encoding="utf-8"?><Ranges><Range><Start>0</Start><End>2047</End></Range></Ranges>

PUT /data/a.txt?comp=range
> Content-Length: 0
> x-ms-write: clear
> x-ms-range: bytes=100-1199
* 08 00:00:00 201 Created
< Last-Modified: Sat, 01 Jan 2022 00:00:00 GMT
< ETag: "0x0000000000000008"
< Content-Length: 0

GET /data/a.txt?comp=rangelist
* 09 00:00:00 200 OK
< Last-Modified: Sat, 01 Jan 2022 00:00:00 GMT
< ETag: "0x0000000000000008"
< x-ms-content-length: 2048
< Content-Type: application/xml
< Content-Length: 149
= <?xml version="1.0" encoding="utf-8"?><Ranges><Range><Start>0</Start><End>511</End></Range><Range>
= <Start>1024</Start><End>2047</End></Range></Ranges>

GET /data/a.txt
> Range: bytes=96-103
* 0a 00:00:00 206 Partial Content
< Last-Modified: Sat, 01 Jan 2022 00:00:00 GMT
< ETag: "0x0000000000000008"
< Content-Type: application/octet-stream
< Accept-Ranges: bytes
< Content-Range: bytes 96-103/2048
< x-ms-type: File
< x-ms-file-attributes: Archive
< x-ms-file-creation-time: 2022-01-01T00:00:00.0000000Z
< x-ms-file-last-write-time: 2022-01-01T00:00:00.0000000Z
< x-ms-file-change-time: 2022-01-01T00:00:00.0000000Z
< x-ms-file-id: 2
< x-ms-file-parent-id: 1
< x-ms-lease-status: unlocked
< x-ms-lease-state: available
< Content-Length: 8
= abcd~~~~

GET /data/a.txt
> Range: bytes=512-515
* 0b 00:00:00 206 Partial Content
< Last-Modified: Sat, 01 Jan 2022 00:00:00 GMT
< ETag: "0x0000000000000008"
< Content-Type: application/octet-stream
< Accept-Ranges: bytes
< Content-Range: bytes 512-515/2048
< x-ms-type: File
< x-ms-file-attributes: Archive
< x-ms-file-creation-time: 2022-01-01T00:00:00.0000000Z
< x-ms-file-last-write-time: 2022-01-01T00:00:00.0000000Z
< x-ms-file-change-time: 2022-01-01T00:00:00.0000000Z
< x-ms-file-id: 2
< x-ms-file-parent-id: 1
< x-ms-lease-status: unlocked
< x-ms-lease-state: available
< Content-Length: 4
= ~~~~

GET /data/a.txt
> Range: bytes=1196-1203
* 0c 00:00:00 206 Partial Content
< Last-Modified: Sat, 01 Jan 2022 00:00:00 GMT
< ETag: "0x0000000000000008"
< Content-Type: application/octet-stream
< Accept-Ranges: bytes
< Content-Range: bytes 1196-1203/2048
< x-ms-type: File
< x-ms-file-attributes: Archive
< x-ms-file-creation-time: 2022-01-01T00:00:00.0000000Z
< x-ms-file-last-write-time: 2022-01-01T00:00:00.0000000Z
< x-ms-file-change-time: 2022-01-01T00:00:00.0000000Z
< x-ms-file-id: 2
< x-ms-file-parent-id: 1
< x-ms-lease-status: unlocked
< x-ms-lease-state: available
< Content-Length: 8
= ~~~~mnop

GET /data/a.txt
> Range: bytes=1536-1539
* 0d 00:00:00 206 Partial Content
< Last-Modified: Sat, 01 Jan 2022 00:00:00 GMT
< ETag: "0x0000000000000008"
< Content-Type: application/octet-stream
< Accept-Ranges: bytes
< Content-Range: bytes 1536-1539/2048
< x-ms-type: File
< x-ms-file-attributes: Archive
< x-ms-file-creation-time: 2022-01-01T00:00:00.0000000Z
< x-ms-file-last-write-time: 2022-01-01T00:00:00.0000000Z
< x-ms-file-change-time: 2022-01-01T00:00:00.0000000Z
< x-ms-file-id: 2
< x-ms-file-parent-id: 1
< x-ms-lease-status: unlocked
< x-ms-lease-state: available
< Content-Length: 4
= stay"#;

/// A last granule of one byte, and a body that isn't what its digest says.
const PARTIAL: &str = r#"PUT /data?restype=share
> Content-Length: 0
* 01 00:00:00 201 Created
< Last-Modified: Sat, 01 Jan 2022 00:00:00 GMT
< ETag: "0x0000000000000001"
< Content-Length: 0

PUT /data/a.txt
> Content-Length: 0
> x-ms-type: file
> x-ms-content-length: 513
* 02 00:00:00 201 Created
< Last-Modified: Sat, 01 Jan 2022 00:00:00 GMT
< ETag: "0x0000000000000002"
< x-ms-file-attributes: Archive
< x-ms-file-creation-time: 2022-01-01T00:00:00.0000000Z
< x-ms-file-last-write-time: 2022-01-01T00:00:00.0000000Z
< x-ms-file-change-time: 2022-01-01T00:00:00.0000000Z
< x-ms-file-id: 2
< x-ms-file-parent-id: 1
< Content-Length: 0

PUT /data/a.txt?comp=range
> Content-Length: 1
> x-ms-write: update
> x-ms-range: bytes=512-512
+ x
* 03 00:00:00 201 Created
< Last-Modified: Sat, 01 Jan 2022 00:00:00 GMT
< ETag: "0x0000000000000003"
< Content-Length: 0

GET /data/a.txt?comp=rangelist
* 04 00:00:00 200 OK
< Last-Modified: Sat, 01 Jan 2022 00:00:00 GMT
< ETag: "0x0000000000000003"
< x-ms-content-length: 513
< Content-Type: application/xml
< Content-Length: 102
= <?xml version="1.0" encoding="utf-8"?><Ranges><Range><Start>512</Start><End>512</End></Range></Ranges>

PUT /data/a.txt?comp=range
> Content-Length: 0
> x-ms-write: clear
> x-ms-range: bytes=512-512
* 05 00:00:00 201 Created
< Last-Modified: Sat, 01 Jan 2022 00:00:00 GMT
< ETag: "0x0000000000000005"
< Content-Length: 0

GET /data/a.txt?comp=rangelist
* 06 00:00:00 200 OK
< Last-Modified: Sat, 01 Jan 2022 00:00:00 GMT
< ETag: "0x0000000000000005"
< x-ms-content-length: 513
< Content-Type: application/xml
< Content-Length: 55
= <?xml version="1.0" encoding="utf-8"?><Ranges></Ranges>

PUT /data/a.txt?comp=range
> Content-Length: 4
> x-ms-write: update
> x-ms-range: bytes=0-3
> Content-MD5: eV8yArF8trw9S3cdjGyerw==
+ data
* 00 00:00:00 400 Bad Request
< x-ms-error-code: Md5Mismatch
< Content-Type: application/xml
< Content-Length: 99
= <?xml version="1.0" encoding="utf-8"?><Error><Code>Md5Mismatch</Code><Message>md5</Message></Error>

GET /data/a.txt?comp=rangelist
* 07 00:00:00 200 OK
< Last-Modified: Sat, 01 Jan 2022 00:00:00 GMT
< ETag: "0x0000000000000005"
< x-ms-content-length: 513
< Content-Type: application/xml
< Content-Length: 55
= <?xml version="1.0" encoding="utf-8"?><Ranges></Ranges>"#;

#[test]
fn the_last_byte_of_the_greatest_file(rt: HostRuntime) {
    rows(&rt, rt.alloc(), 0, GREATEST, 7);
}

#[test]
fn a_clear_inside_granules(rt: HostRuntime) {
    rows(&rt, rt.alloc(), 0, BETWEEN, 13);
}

#[test]
fn a_last_granule_of_one_byte(rt: HostRuntime) {
    rows(&rt, rt.alloc(), 0, PARTIAL, 7);
}
