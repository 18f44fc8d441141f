//! The calls on a share, each in the state that the calls before it left.

use crate::asking::rows;

/// A share from its making to its end, with its lease and a snapshot.
const SHARES: &str = r#"PUT /data?restype=share
> Content-Length: 0
> x-ms-share-quota: 7
> x-ms-meta-owner: ann
* 01 00:00:00 201 Created
< Last-Modified: Sat, 01 Jan 2022 00:00:00 GMT
< ETag: "0x0000000000000001"
< Content-Length: 0

GET /data?restype=share
* 02 00:00:01 200 OK
< Last-Modified: Sat, 01 Jan 2022 00:00:00 GMT
< ETag: "0x0000000000000001"
< x-ms-share-quota: 7
< x-ms-lease-status: unlocked
< x-ms-lease-state: available
< x-ms-meta-owner: ann
< Content-Length: 0

HEAD /data?restype=share
* 03 00:00:02 200 OK
< Last-Modified: Sat, 01 Jan 2022 00:00:00 GMT
< ETag: "0x0000000000000001"
< x-ms-share-quota: 7
< x-ms-lease-status: unlocked
< x-ms-lease-state: available
< x-ms-meta-owner: ann
< Content-Length: 0

PUT /data?restype=share&comp=properties
> Content-Length: 0
> x-ms-share-quota: 9
* 04 00:00:03 200 OK
< Last-Modified: Sat, 01 Jan 2022 00:00:03 GMT
< ETag: "0x0000000000000004"
< Content-Length: 0

PUT /data?restype=share&comp=metadata
> Content-Length: 0
> x-ms-meta-team: red
> x-ms-meta-Note: two words
* 05 00:00:04 200 OK
< Last-Modified: Sat, 01 Jan 2022 00:00:04 GMT
< ETag: "0x0000000000000005"
< Content-Length: 0

GET /data?restype=share&comp=metadata
* 06 00:00:05 200 OK
< Last-Modified: Sat, 01 Jan 2022 00:00:04 GMT
< ETag: "0x0000000000000005"
< x-ms-meta-note: two words
< x-ms-meta-team: red
< Content-Length: 0

PUT /data?restype=share&comp=lease
> Content-Length: 0
> x-ms-lease-action: acquire
> x-ms-lease-duration: -1
> x-ms-proposed-lease-id: 11111111-2222-3333-4444-555555555555
* 07 00:00:06 201 Created
< Last-Modified: Sat, 01 Jan 2022 00:00:04 GMT
< ETag: "0x0000000000000005"
< x-ms-lease-id: 11111111-2222-3333-4444-555555555555
< Content-Length: 0

PUT /data?restype=share&comp=lease
> Content-Length: 0
> x-ms-lease-action: change
> x-ms-lease-id: 11111111-2222-3333-4444-555555555555
> x-ms-proposed-lease-id: aaaaaaaa-bbbb-cccc-dddd-eeeeeeeeeeee
* 08 00:00:07 200 OK
< Last-Modified: Sat, 01 Jan 2022 00:00:04 GMT
< ETag: "0x0000000000000005"
< x-ms-lease-id: aaaaaaaa-bbbb-cccc-dddd-eeeeeeeeeeee
< Content-Length: 0

GET /data?restype=share
> x-ms-lease-id: aaaaaaaa-bbbb-cccc-dddd-eeeeeeeeeeee
* 09 00:00:08 200 OK
< Last-Modified: Sat, 01 Jan 2022 00:00:04 GMT
< ETag: "0x0000000000000005"
< x-ms-share-quota: 9
< x-ms-lease-status: locked
< x-ms-lease-state: leased
< x-ms-lease-duration: infinite
< x-ms-meta-note: two words
< x-ms-meta-team: red
< Content-Length: 0

PUT /data?restype=share&comp=metadata
> Content-Length: 0
* 0a 00:00:09 412 Precondition Failed
< x-ms-error-code: LeaseIdMissing
< Content-Type: application/xml
< Content-Length: 109
= <?xml version="1.0" encoding="utf-8"?><Error><Code>LeaseIdMissing</Code><Message>lease held</Message></Error>

PUT /data?restype=share&comp=metadata
> Content-Length: 0
> x-ms-lease-id: 11111111-2222-3333-4444-555555555555
* 0b 00:00:10 412 Precondition Failed
< x-ms-error-code: LeaseIdMismatchWithShareOperation
< Content-Type: application/xml
< Content-Length: 131
= <?xml version="1.0" encoding="utf-8"?><Error><Code>LeaseIdMismatchWithShareOperation</Code>
= <Message>lease differs</Message></Error>

PUT /data?restype=share&comp=lease
> Content-Length: 0
> x-ms-lease-action: release
> x-ms-lease-id: aaaaaaaa-bbbb-cccc-dddd-eeeeeeeeeeee
* 0c 00:00:11 200 OK
< Last-Modified: Sat, 01 Jan 2022 00:00:04 GMT
< ETag: "0x0000000000000005"
< Content-Length: 0

GET /data?restype=share
> x-ms-lease-id: aaaaaaaa-bbbb-cccc-dddd-eeeeeeeeeeee
* 0d 00:00:12 412 Precondition Failed
< x-ms-error-code: LeaseNotPresentWithShareOperation
< Content-Type: application/xml
< Content-Length: 126
= <?xml version="1.0" encoding="utf-8"?><Error><Code>LeaseNotPresentWithShareOperation</Code>
= <Message>no lease</Message></Error>

PUT /data?restype=share&comp=lease
> Content-Length: 0
> x-ms-lease-action: break
* 0e 00:00:13 409 Conflict
< x-ms-error-code: LeaseNotPresentWithLeaseOperation
< Content-Type: application/xml
< Content-Length: 133
= <?xml version="1.0" encoding="utf-8"?><Error><Code>LeaseNotPresentWithLeaseOperation</Code>
= <Message>lease not there</Message></Error>

PUT /data?restype=share&comp=lease
# Without a proposed id it is made from the two random words of the call.
> Content-Length: 0
> x-ms-lease-action: acquire
* 0f 00:00:14 201 Created
< Last-Modified: Sat, 01 Jan 2022 00:00:04 GMT
< ETag: "0x0000000000000005"
< x-ms-lease-id: 00000000-0000-401c-8000-00000000001d
< Content-Length: 0

PUT /data?restype=share&comp=lease
> Content-Length: 0
> x-ms-lease-action: break
* 10 00:00:15 202 Accepted
< Last-Modified: Sat, 01 Jan 2022 00:00:04 GMT
< ETag: "0x0000000000000005"
< x-ms-lease-time: 0
< Content-Length: 0

GET /data?restype=share
* 11 00:00:16 200 OK
< Last-Modified: Sat, 01 Jan 2022 00:00:04 GMT
< ETag: "0x0000000000000005"
< x-ms-share-quota: 9
< x-ms-lease-status: unlocked
< x-ms-lease-state: broken
< x-ms-meta-note: two words
< x-ms-meta-team: red
< Content-Length: 0

PUT /data?restype=share&comp=snapshot
> Content-Length: 0
> x-ms-meta-kept: yes
* 12 00:00:17 201 Created
< x-ms-snapshot: 2022-01-01T00:00:17.0000000Z
< Last-Modified: Sat, 01 Jan 2022 00:00:04 GMT
< ETag: "0x0000000000000005"
< Content-Length: 0

PUT /data?restype=share&comp=properties
> Content-Length: 0
> x-ms-share-quota: 5
* 13 00:00:18 200 OK
< Last-Modified: Sat, 01 Jan 2022 00:00:18 GMT
< ETag: "0x0000000000000013"
< Content-Length: 0

GET /data?restype=share&sharesnapshot=2022-01-01T00:00:17.0000000Z
* 14 00:00:19 200 OK
< Last-Modified: Sat, 01 Jan 2022 00:00:04 GMT
< ETag: "0x0000000000000005"
< x-ms-share-quota: 9
< x-ms-lease-status: unlocked
< x-ms-lease-state: available
< x-ms-meta-kept: yes
< Content-Length: 0

GET /data?restype=share&comp=metadata&sharesnapshot=2022-01-01T00:00:17.0000000Z
* 15 00:00:20 200 OK
< Last-Modified: Sat, 01 Jan 2022 00:00:04 GMT
< ETag: "0x0000000000000005"
< x-ms-meta-kept: yes
< Content-Length: 0

GET /?comp=list&include=snapshots
* 16 00:00:21 200 OK
< Content-Type: application/xml
< Content-Length: 565
= <?xml version="1.0" encoding="utf-8"?><EnumerationResults><Prefix></Prefix><Marker></Marker>
= <MaxResults>5000</MaxResults><Shares><Share><Name>data</Name><Properties>
= <Last-Modified>Sat, 01 Jan 2022 00:00:18 GMT</Last-Modified><Etag>"0x0000000000000013"</Etag><Quota>5</Quota>
= </Properties></Share><Share><Name>data</Name><Snapshot>2022-01-01T00:00:17.0000000Z</Snapshot><Properties>
= <Last-Modified>Sat, 01 Jan 2022 00:00:04 GMT</Last-Modified><Etag>"0x0000000000000005"</Etag><Quota>9</Quota>
= </Properties></Share></Shares><NextMarker></NextMarker></EnumerationResults>

GET /?comp=list&prefix=da&maxresults=1&include=snapshots
* 17 00:00:22 200 OK
< Content-Type: application/xml
< Content-Length: 382
= <?xml version="1.0" encoding="utf-8"?><EnumerationResults><Prefix>da</Prefix><Marker></Marker>
= <MaxResults>1</MaxResults><Shares><Share><Name>data</Name><Properties>
= <Last-Modified>Sat, 01 Jan 2022 00:00:18 GMT</Last-Modified><Etag>"0x0000000000000013"</Etag><Quota>5</Quota>
= </Properties></Share></Shares><NextMarker>data@2022-01-01T00:00:17.0000000Z</NextMarker></EnumerationResults>

DELETE /data?restype=share
* 18 00:00:23 409 Conflict
< x-ms-error-code: ShareHasSnapshots
< Content-Type: application/xml
< Content-Length: 113
= <?xml version="1.0" encoding="utf-8"?><Error><Code>ShareHasSnapshots</Code><Message>snapshots 1</Message>
= </Error>

DELETE /data?restype=share&sharesnapshot=2022-01-01T00:00:17.0000000Z
* 19 00:00:24 202 Accepted
< Content-Length: 0

GET /data?restype=share&sharesnapshot=2022-01-01T00:00:17.0000000Z
* 1a 00:00:25 404 Not Found
< x-ms-error-code: ShareSnapshotNotFound
< Content-Type: application/xml
< Content-Length: 117
= <?xml version="1.0" encoding="utf-8"?><Error><Code>ShareSnapshotNotFound</Code><Message>no snapshot</Message>
= </Error>

DELETE /data?restype=share
* 1b 00:00:26 202 Accepted
< Content-Length: 0

HEAD /data?restype=share
* 1c 00:00:27 404 Not Found
< x-ms-error-code: ShareNotFound
< Content-Type: application/xml
< Content-Length: 0"#;

#[test]
fn the_calls_on_a_share(rt: HostRuntime) {
    rows(&rt, rt.alloc(), 10_000_000, SHARES, 28);
}
