//! Uploads of 256 MiB, and of the 1 GiB that a share's quota allows, by requests of 4 MiB.
ghost use Rattle.std.specs.Prelude.{◌≡◌};
ghost use Rattle.sx_book.specs.Passes.{IsSamePass, KeepsSessions};

use crate::asking::{asks, check, link, put, request, same, served, wanted};
use crate::opening::{Outside, begun, closes, new_year};
use std::alloc::Global;
use std::process::Abort;
use std::string::String;
use std::sync::Wait;
use sx_book::{Office, Pass};

/// A share, and a file as a client makes it.
const MADE: &str = r#"PUT /data?restype=share
> Content-Length: 0
* 01 00:00:00 201 Created
< Last-Modified: Sat, 01 Jan 2022 00:00:00 GMT
< ETag: "0x0000000000000001"
< Content-Length: 0

PUT /data/big.bin
> Content-Length: 0
> User-Agent: client/1.0
> Accept: application/xml
> x-ms-client-request-id: 7
> x-ms-type: file
> x-ms-content-length: 268435456
> x-ms-file-permission: inherit
> x-ms-file-attributes: none
> x-ms-file-creation-time: now
> x-ms-file-last-write-time: now
* 02 00:00:00 201 Created
< Last-Modified: Sat, 01 Jan 2022 00:00:00 GMT
< ETag: "0x0000000000000002"
< x-ms-file-attributes: None
< x-ms-file-creation-time: 2022-01-01T00:00:00.0000000Z
< x-ms-file-last-write-time: 2022-01-01T00:00:00.0000000Z
< x-ms-file-change-time: 2022-01-01T00:00:00.0000000Z
< x-ms-file-id: 2
< x-ms-file-parent-id: 1
< Content-Length: 0"#;

/// The file is marked whole, and its last bytes are those that were written.
const UPLOADED: &str = r#"GET /data/big.bin?comp=rangelist
* 43 00:00:00 200 OK
< Last-Modified: Sat, 01 Jan 2022 00:00:00 GMT
< ETag: "0x0000000000000042"
< x-ms-content-length: 268435456
< Content-Type: application/xml
< Content-Length: 106
= <?xml version="1.0" encoding="utf-8"?><Ranges><Range><Start>0</Start><End>268435455</End></Range></Ranges>

GET /data/big.bin
> Range: bytes=268435452-268435455
* 44 00:00:00 206 Partial Content
< Last-Modified: Sat, 01 Jan 2022 00:00:00 GMT
< ETag: "0x0000000000000042"
< Content-Type: application/octet-stream
< Accept-Ranges: bytes
< Content-Range: bytes 268435452-268435455/268435456
< x-ms-type: File
< x-ms-file-attributes: None
< x-ms-file-creation-time: 2022-01-01T00:00:00.0000000Z
< x-ms-file-last-write-time: 2022-01-01T00:00:00.0000000Z
< x-ms-file-change-time: 2022-01-01T00:00:00.0000000Z
< x-ms-file-id: 2
< x-ms-file-parent-id: 1
< x-ms-lease-status: unlocked
< x-ms-lease-state: available
< Content-Length: 4
= aaaa"#;

/// A share of 1 GiB, and a file that is a granule longer.
const SMALL_SHARE: &str = r#"PUT /data?restype=share
> Content-Length: 0
> x-ms-share-quota: 1
* 01 00:00:00 201 Created
< Last-Modified: Sat, 01 Jan 2022 00:00:00 GMT
< ETag: "0x0000000000000001"
< Content-Length: 0

PUT /data/big.bin
> Content-Length: 0
> x-ms-type: file
> x-ms-content-length: 1073742336
* 02 00:00:00 201 Created
< Last-Modified: Sat, 01 Jan 2022 00:00:00 GMT
< ETag: "0x0000000000000002"
< x-ms-file-attributes: Archive
< x-ms-file-creation-time: 2022-01-01T00:00:00.0000000Z
< x-ms-file-last-write-time: 2022-01-01T00:00:00.0000000Z
< x-ms-file-change-time: 2022-01-01T00:00:00.0000000Z
< x-ms-file-id: 2
< x-ms-file-parent-id: 1
< Content-Length: 0"#;

/// A byte more in a granule that isn't marked is refused, and one in a granule that is marked isn't.
const FULL_SHARE: &str = r#"PUT /data/big.bin?comp=range
> Content-Length: 1
> x-ms-write: update
> x-ms-range: bytes=1073741824-1073741824
+ x
* 103 00:00:00 409 Conflict
< x-ms-error-code: ShareQuotaExceeded
< Content-Type: application/xml
< Content-Length: 142
= <?xml version="1.0" encoding="utf-8"?><Error><Code>ShareQuotaExceeded</Code>
= <Message>quota used 2097152 more 1 limit 2097152</Message></Error>

PUT /data/big.bin?comp=range
> Content-Length: 1
> x-ms-write: update
> x-ms-range: bytes=1073741823-1073741823
+ x
* 104 00:00:00 201 Created
< Last-Modified: Sat, 01 Jan 2022 00:00:00 GMT
< ETag: "0x0000000000000104"
< Content-Length: 0"#;

/// The row that writes the piece of this number, but for its body. It comes behind two others.
fn piece_row(rt: &impl Abort, alloc: Global, number: u64) -> String {
    let from = number.saturating_mul(4_194_304);
    let last = from.saturating_add(4_194_303);
    let place = number.saturating_add(3);
    match format!(in alloc;
        "PUT /data/big.bin?comp=range\n> Content-Length: 4194304\n> Content-Type: application/octet-stream\n\
         > x-ms-write: update\n> x-ms-range: bytes={from}-{last}\n* {place:03x} 00:00:00 201 Created\n\
         < Last-Modified: Sat, 01 Jan 2022 00:00:00 GMT\n< ETag: \"0x{place:016X}\"\n< Content-Length: 0"
    ) {
        Ok(row) => row,
        Err(_) => panic!(rt; "no memory"),
    }
}

/// Asks the request that writes the piece of this number.
fn upload<R: Abort + Wait>(
    rt: &R,
    alloc: Global,
    office: &Office,
    pass: &mut Pass,
    outside: &mut Outside,
    number: u64,
    body: &[u8],
)
    requires own { pass.old.office ≡ office.now }
    ensures held { KeepsSessions pass.old pass.new }
    ensures same { IsSamePass pass.old pass.new }
{
    let row = piece_row(rt, alloc, number);
    let mut bytes = request(rt, alloc, &outside.account, &row);
    put(rt, &mut bytes, body);
    let taken = bytes.len() as u64;
    let mut link = link(alloc, bytes);
    let report = served(rt, alloc, office, pass, outside, &mut link);
    same(rt, &row, link.sink.bytes(), &wanted(rt, alloc, &row));
    check(rt, report, taken);
}

fn body(rt: &impl Abort, alloc: Global) -> Vec<u8> {
    let mut body = Vec::new(alloc);
    assert!(rt; body.resize(4_194_304, b'a').is_ok(), "no memory");
    body
}

/// Uploads so many pieces, one after another.
fn upload_all<R: Abort + Wait>(
    rt: &R,
    alloc: Global,
    office: &Office,
    pass: &mut Pass,
    outside: &mut Outside,
    pieces: u64,
    body: &[u8],
)
    requires own { pass.old.office ≡ office.now }
    ensures held { KeepsSessions pass.old pass.new }
    ensures same { IsSamePass pass.old pass.new }
{
    for number in 0..pieces {
        upload(rt, alloc, office, pass, outside, number, body);
    }
}

/// Uploads so many pieces between the requests of two tables. The office has so many entries then.
fn uploads<R: Abort + Wait>(
    rt: &R,
    alloc: Global,
    made: &str,
    pieces: u64,
    behind: &str,
    entries: usize,
) {
    let mut outside = new_year(rt, alloc, 0);
    let (office, mut pass) = begun(rt, alloc);
    let body = body(rt, alloc);
    asks(rt, alloc, &office, &mut pass, &mut outside, made);
    upload_all(rt, alloc, &office, &mut pass, &mut outside, pieces, &body);
    asks(rt, alloc, &office, &mut pass, &mut outside, behind);
    closes(rt, office, pass, entries);
}

#[test]
fn an_upload_of_256_mebibytes(rt: HostRuntime) {
    uploads(&rt, rt.alloc(), MADE, 64, UPLOADED, 68);
}

#[test]
fn a_share_that_is_filled_to_its_quota(rt: HostRuntime) {
    uploads(&rt, rt.alloc(), SMALL_SHARE, 256, FULL_SHARE, 260);
}
