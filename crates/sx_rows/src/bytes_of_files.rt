//! The calls on a file's bytes, each in the state that the calls before it left.

use crate::asking::rows;

/// A file that is made, written, cleared and read.
const WRITTEN: &str = r#"PUT /data?restype=share
> Content-Length: 0
* 01 00:00:00 201 Created
< Last-Modified: Sat, 01 Jan 2022 00:00:00 GMT
< ETag: "0x0000000000000001"
< Content-Length: 0

PUT /data/a.txt
> Content-Length: 0
> x-ms-type: File
> x-ms-content-length: 1024
> x-ms-content-type: text/plain
> x-ms-content-encoding: gzip
> x-ms-content-language: en
> x-ms-cache-control: no-cache
> x-ms-content-disposition: inline
> x-ms-content-md5: MTIzNDU2Nzg5MDEyMzQ1Ng==
> x-ms-file-attributes: Archive | hidden
> x-ms-file-creation-time: 2020-02-29T23:59:59.9999999Z
> x-ms-file-last-write-time: 2020-03-01T00:00:00.0000000Z
> x-ms-meta-k: v
* 02 00:00:01 201 Created
< Last-Modified: Sat, 01 Jan 2022 00:00:01 GMT
< ETag: "0x0000000000000002"
< x-ms-file-attributes: Hidden | Archive
< x-ms-file-creation-time: 2020-02-29T23:59:59.9999999Z
< x-ms-file-last-write-time: 2020-03-01T00:00:00.0000000Z
< x-ms-file-change-time: 2022-01-01T00:00:01.0000000Z
< x-ms-file-id: 2
< x-ms-file-parent-id: 1
< Content-Length: 0

HEAD /data/a.txt
* 03 00:00:02 200 OK
< Last-Modified: Sat, 01 Jan 2022 00:00:01 GMT
< ETag: "0x0000000000000002"
< Content-Type: text/plain
< Content-Encoding: gzip
< Content-Language: en
< Cache-Control: no-cache
< Content-Disposition: inline
< Content-MD5: MTIzNDU2Nzg5MDEyMzQ1Ng==
< x-ms-type: File
< x-ms-file-attributes: Hidden | Archive
< x-ms-file-creation-time: 2020-02-29T23:59:59.9999999Z
< x-ms-file-last-write-time: 2020-03-01T00:00:00.0000000Z
< x-ms-file-change-time: 2022-01-01T00:00:01.0000000Z
< x-ms-file-id: 2
< x-ms-file-parent-id: 1
< x-ms-lease-status: unlocked
< x-ms-lease-state: available
< x-ms-meta-k: v
< Content-Length: 1024

PUT /data/a.txt?comp=range
> Content-Length: 6
> x-ms-write: update
> x-ms-range: bytes=0-5
+ hello!
* 04 00:00:03 201 Created
< Last-Modified: Sat, 01 Jan 2022 00:00:03 GMT
< ETag: "0x0000000000000004"
< Content-Length: 0

PUT /data/a.txt?comp=range
> Content-Length: 4
> x-ms-write: Update
> Range: bytes=512-515
> Content-MD5: euolUt/n64S5RDtvybpuAQ==
+ tail
* 05 00:00:04 201 Created
< Last-Modified: Sat, 01 Jan 2022 00:00:04 GMT
< ETag: "0x0000000000000005"
< Content-Length: 0

GET /data/a.txt?comp=rangelist
* 06 00:00:05 200 OK
< Last-Modified: Sat, 01 Jan 2022 00:00:04 GMT
< ETag: "0x0000000000000005"
< x-ms-content-length: 1024
< Content-Type: application/xml
< Content-Length: 101
= <?xml version="1.0" encoding="utf-8"?><Ranges><Range><Start>0</Start><End>1023</End></Range></Ranges>

PUT /data/a.txt?comp=range
# A granule that is cleared in part keeps its mark.
> Content-Length: 0
> x-ms-write: clear
> x-ms-range: bytes=2-511
* 07 00:00:06 201 Created
< Last-Modified: Sat, 01 Jan 2022 00:00:06 GMT
< ETag: "0x0000000000000007"
< Content-Length: 0

GET /data/a.txt?comp=rangelist
* 08 00:00:07 200 OK
< Last-Modified: Sat, 01 Jan 2022 00:00:06 GMT
< ETag: "0x0000000000000007"
< x-ms-content-length: 1024
< Content-Type: application/xml
< Content-Length: 101
= <?xml version="1.0" encoding="utf-8"?><Ranges><Range><Start>0</Start><End>1023</End></Range></Ranges>

PUT /data/a.txt?comp=range
> Content-Length: 0
> x-ms-write: clear
> x-ms-range: bytes=0-511
* 09 00:00:08 201 Created
< Last-Modified: Sat, 01 Jan 2022 00:00:08 GMT
< ETag: "0x0000000000000009"
< Content-Length: 0

GET /data/a.txt?comp=rangelist
> Range: bytes=100-600
* 0a 00:00:09 200 OK
< Last-Modified: Sat, 01 Jan 2022 00:00:08 GMT
< ETag: "0x0000000000000009"
< x-ms-content-length: 1024
< Content-Type: application/xml
< Content-Length: 102
= <?xml version="1.0" encoding="utf-8"?><Ranges><Range><Start>512</Start><End>600</End></Range></Ranges>

GET /data/a.txt
> x-ms-range: bytes=510-515
* 0b 00:00:10 206 Partial Content
< Last-Modified: Sat, 01 Jan 2022 00:00:08 GMT
< ETag: "0x0000000000000009"
< Content-Type: text/plain
< Content-Encoding: gzip
< Content-Language: en
< Cache-Control: no-cache
< Content-Disposition: inline
< x-ms-content-md5: MTIzNDU2Nzg5MDEyMzQ1Ng==
< Accept-Ranges: bytes
< Content-Range: bytes 510-515/1024
< x-ms-type: File
< x-ms-file-attributes: Hidden | Archive
< x-ms-file-creation-time: 2020-02-29T23:59:59.9999999Z
< x-ms-file-last-write-time: 2022-01-01T00:00:08.0000000Z
< x-ms-file-change-time: 2022-01-01T00:00:08.0000000Z
< x-ms-file-id: 2
< x-ms-file-parent-id: 1
< x-ms-lease-status: unlocked
< x-ms-lease-state: available
< x-ms-meta-k: v
< Content-Length: 6
= ~~tail

GET /data/a.txt
> Range: bytes=1020-
* 0c 00:00:11 206 Partial Content
< Last-Modified: Sat, 01 Jan 2022 00:00:08 GMT
< ETag: "0x0000000000000009"
< Content-Type: text/plain
< Content-Encoding: gzip
< Content-Language: en
< Cache-Control: no-cache
< Content-Disposition: inline
< x-ms-content-md5: MTIzNDU2Nzg5MDEyMzQ1Ng==
< Accept-Ranges: bytes
< Content-Range: bytes 1020-1023/1024
< x-ms-type: File
< x-ms-file-attributes: Hidden | Archive
< x-ms-file-creation-time: 2020-02-29T23:59:59.9999999Z
< x-ms-file-last-write-time: 2022-01-01T00:00:08.0000000Z
< x-ms-file-change-time: 2022-01-01T00:00:08.0000000Z
< x-ms-file-id: 2
< x-ms-file-parent-id: 1
< x-ms-lease-status: unlocked
< x-ms-lease-state: available
< x-ms-meta-k: v
< Content-Length: 4
= ~~~~

GET /data/a.txt
> Range: bytes=1024-
* 0d 00:00:12 416 Range Not Satisfiable
< x-ms-error-code: InvalidRange
< Content-Type: application/xml
< Content-Length: 114
= <?xml version="1.0" encoding="utf-8"?><Error><Code>InvalidRange</Code><Message>range length 1024</Message>
= </Error>

PUT /data/a.txt?comp=range
> Content-Length: 2
> x-ms-write: update
> x-ms-range: bytes=1023-1024
+ xy
* 0e 00:00:13 416 Range Not Satisfiable
< x-ms-error-code: InvalidRange
< Content-Type: application/xml
< Content-Length: 114
= <?xml version="1.0" encoding="utf-8"?><Error><Code>InvalidRange</Code><Message>range length 1024</Message>
= </Error>"#;

#[test]
fn the_calls_on_the_bytes_of_a_file(rt: HostRuntime) {
    rows(&rt, rt.alloc(), 10_000_000, WRITTEN, 14);
}
