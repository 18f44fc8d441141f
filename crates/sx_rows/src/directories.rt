//! The calls on directories, each in the state that the calls before it left.

use crate::asking::rows;

/// A directory from its making on, with what is made and removed in it.
const DIRECTORIES: &str = r#"PUT /data?restype=share
> Content-Length: 0
* 01 00:00:00 201 Created
< Last-Modified: Sat, 01 Jan 2022 00:00:00 GMT
< ETag: "0x0000000000000001"
< Content-Length: 0

PUT /data/docs?restype=directory
> Content-Length: 0
> x-ms-file-attributes: Hidden
> x-ms-file-creation-time: 2021-05-06T07:08:09.0000001Z
> x-ms-meta-kind: papers
* 02 00:00:01 201 Created
< Last-Modified: Sat, 01 Jan 2022 00:00:01 GMT
< ETag: "0x0000000000000002"
< x-ms-file-attributes: Hidden | Directory
< x-ms-file-creation-time: 2021-05-06T07:08:09.0000001Z
< x-ms-file-last-write-time: 2022-01-01T00:00:01.0000000Z
< x-ms-file-change-time: 2022-01-01T00:00:01.0000000Z
< x-ms-file-id: 2
< x-ms-file-parent-id: 1
< Content-Length: 0

GET /data/docs?restype=directory
* 03 00:00:02 200 OK
< Last-Modified: Sat, 01 Jan 2022 00:00:01 GMT
< ETag: "0x0000000000000002"
< x-ms-file-attributes: Hidden | Directory
< x-ms-file-creation-time: 2021-05-06T07:08:09.0000001Z
< x-ms-file-last-write-time: 2022-01-01T00:00:01.0000000Z
< x-ms-file-change-time: 2022-01-01T00:00:01.0000000Z
< x-ms-file-id: 2
< x-ms-file-parent-id: 1
< x-ms-meta-kind: papers
< Content-Length: 0

HEAD /data?restype=directory
* 04 00:00:03 200 OK
< Last-Modified: Sat, 01 Jan 2022 00:00:00 GMT
< ETag: "0x0000000000000001"
< x-ms-file-attributes: Directory
< x-ms-file-creation-time: 2022-01-01T00:00:00.0000000Z
< x-ms-file-last-write-time: 2022-01-01T00:00:00.0000000Z
< x-ms-file-change-time: 2022-01-01T00:00:00.0000000Z
< x-ms-file-id: 1
< x-ms-file-parent-id: 0
< Content-Length: 0

PUT /data/docs?restype=directory&comp=metadata
> Content-Length: 0
> x-ms-meta-b: 2
> x-ms-meta-a: 1
* 05 00:00:04 200 OK
< Last-Modified: Sat, 01 Jan 2022 00:00:04 GMT
< ETag: "0x0000000000000005"
< Content-Length: 0

GET /data/docs?restype=directory&comp=metadata
* 06 00:00:05 200 OK
< Last-Modified: Sat, 01 Jan 2022 00:00:04 GMT
< ETag: "0x0000000000000005"
< x-ms-meta-a: 1
< x-ms-meta-b: 2
< Content-Length: 0

HEAD /data/docs?restype=directory
* 07 00:00:06 200 OK
< Last-Modified: Sat, 01 Jan 2022 00:00:04 GMT
< ETag: "0x0000000000000005"
< x-ms-file-attributes: Hidden | Directory
< x-ms-file-creation-time: 2021-05-06T07:08:09.0000001Z
< x-ms-file-last-write-time: 2022-01-01T00:00:01.0000000Z
< x-ms-file-change-time: 2022-01-01T00:00:04.0000000Z
< x-ms-file-id: 2
< x-ms-file-parent-id: 1
< x-ms-meta-a: 1
< x-ms-meta-b: 2
< Content-Length: 0

PUT /data/Docs/deep?restype=directory
> Content-Length: 0
* 08 00:00:07 201 Created
< Last-Modified: Sat, 01 Jan 2022 00:00:07 GMT
< ETag: "0x0000000000000008"
< x-ms-file-attributes: Directory
< x-ms-file-creation-time: 2022-01-01T00:00:07.0000000Z
< x-ms-file-last-write-time: 2022-01-01T00:00:07.0000000Z
< x-ms-file-change-time: 2022-01-01T00:00:07.0000000Z
< x-ms-file-id: 3
< x-ms-file-parent-id: 2
< Content-Length: 0

PUT /data/docs/b.txt
> Content-Length: 0
> x-ms-type: file
> x-ms-content-length: 5
* 09 00:00:08 201 Created
< Last-Modified: Sat, 01 Jan 2022 00:00:08 GMT
< ETag: "0x0000000000000009"
< x-ms-file-attributes: Archive
< x-ms-file-creation-time: 2022-01-01T00:00:08.0000000Z
< x-ms-file-last-write-time: 2022-01-01T00:00:08.0000000Z
< x-ms-file-change-time: 2022-01-01T00:00:08.0000000Z
< x-ms-file-id: 4
< x-ms-file-parent-id: 2
< Content-Length: 0

PUT /data/docs/a%20%26
> Content-Length: 0
> x-ms-type: file
> x-ms-content-length: 0
* 0a 00:00:09 201 Created
< Last-Modified: Sat, 01 Jan 2022 00:00:09 GMT
< ETag: "0x000000000000000A"
< x-ms-file-attributes: Archive
< x-ms-file-creation-time: 2022-01-01T00:00:09.0000000Z
< x-ms-file-last-write-time: 2022-01-01T00:00:09.0000000Z
< x-ms-file-change-time: 2022-01-01T00:00:09.0000000Z
< x-ms-file-id: 5
< x-ms-file-parent-id: 2
< Content-Length: 0

GET /data/docs?restype=directory&comp=list
* 0b 00:00:10 200 OK
< Content-Type: application/xml
< Content-Length: 487
= <?xml version="1.0" encoding="utf-8"?><EnumerationResults><Prefix></Prefix><Marker></Marker>
= <MaxResults>5000</MaxResults><Entries><File><Name>a &amp;</Name><FileId>5</FileId><Properties>
= <Content-Length>0</Content-Length></Properties></File><File><Name>b.txt</Name><FileId>4</FileId><Properties>
= <Content-Length>5</Content-Length></Properties></File><Directory><Name>deep</Name><FileId>3</FileId><Properties>
= </Properties></Directory></Entries><NextMarker></NextMarker></EnumerationResults>

GET /data/docs?restype=directory&comp=list&maxresults=1
* 0c 00:00:11 200 OK
< Content-Type: application/xml
< Content-Length: 298
= <?xml version="1.0" encoding="utf-8"?><EnumerationResults><Prefix></Prefix><Marker></Marker>
= <MaxResults>1</MaxResults><Entries><File><Name>a &amp;</Name><FileId>5</FileId><Properties>
= <Content-Length>0</Content-Length></Properties></File></Entries><NextMarker>b.txt</NextMarker>
= </EnumerationResults>

GET /data/docs?restype=directory&comp=list&maxresults=1&marker=b.txt
* 0d 00:00:12 200 OK
< Content-Type: application/xml
< Content-Length: 300
= <?xml version="1.0" encoding="utf-8"?><EnumerationResults><Prefix></Prefix><Marker>b.txt</Marker>
= <MaxResults>1</MaxResults><Entries><File><Name>b.txt</Name><FileId>4</FileId><Properties>
= <Content-Length>5</Content-Length></Properties></File></Entries><NextMarker>deep</NextMarker>
= </EnumerationResults>

GET /data/docs?restype=directory&comp=list&prefix=D
* 0e 00:00:13 200 OK
< Content-Type: application/xml
< Content-Length: 270
= <?xml version="1.0" encoding="utf-8"?><EnumerationResults><Prefix>D</Prefix><Marker></Marker>
= <MaxResults>5000</MaxResults><Entries><Directory><Name>deep</Name><FileId>3</FileId><Properties></Properties>
= </Directory></Entries><NextMarker></NextMarker></EnumerationResults>

DELETE /data/docs?restype=directory
* 0f 00:00:14 409 Conflict
< x-ms-error-code: DirectoryNotEmpty
< Content-Type: application/xml
< Content-Length: 116
= <?xml version="1.0" encoding="utf-8"?><Error><Code>DirectoryNotEmpty</Code><Message>not empty id 2</Message>
= </Error>

DELETE /data/docs/deep?restype=directory
* 10 00:00:15 202 Accepted
< Content-Length: 0

GET /data/docs/deep?restype=directory
* 11 00:00:16 404 Not Found
< x-ms-error-code: ResourceNotFound
< Content-Type: application/xml
< Content-Length: 108
= <?xml version="1.0" encoding="utf-8"?><Error><Code>ResourceNotFound</Code><Message>no name</Message></Error>

PUT /data/docs/deep/x?restype=directory
> Content-Length: 0
* 12 00:00:17 404 Not Found
< x-ms-error-code: ParentNotFound
< Content-Type: application/xml
< Content-Length: 110
= <?xml version="1.0" encoding="utf-8"?><Error><Code>ParentNotFound</Code><Message>no parent 2</Message></Error>

PUT /data/docs?restype=directory
> Content-Length: 0
* 13 00:00:18 409 Conflict
< x-ms-error-code: ResourceAlreadyExists
< Content-Type: application/xml
< Content-Length: 116
= <?xml version="1.0" encoding="utf-8"?><Error><Code>ResourceAlreadyExists</Code><Message>there id 2</Message>
= </Error>

GET /data/docs/b.txt?restype=directory
* 14 00:00:19 409 Conflict
< x-ms-error-code: ResourceTypeMismatch
< Content-Type: application/xml
< Content-Length: 114
= <?xml version="1.0" encoding="utf-8"?><Error><Code>ResourceTypeMismatch</Code><Message>file id 4</Message>
= </Error>"#;

#[test]
fn the_calls_on_directories(rt: HostRuntime) {
    rows(&rt, rt.alloc(), 10_000_000, DIRECTORIES, 20);
}
