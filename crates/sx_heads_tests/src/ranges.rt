//! Calls on the bytes of a file.
use crate::written::{Row, are_read};

const READINGS: [Row; 6] = [
    // Get File
    Row {
        asked: "GET /data/a HTTP/1.1\n\n",
        body: "",
        written: "GET /data/a HTTP/1.1\r\n\
            x-ms-version: 2020-10-02\r\n\
            content-length: 0\r\n\
            \r\n",
    },
    Row {
        asked: "GET /data/a HTTP/1.1\nx-ms-lease-id: 00000000000000000000000000000001\nRange: bytes=3-\n\n",
        body: "",
        written: "GET /data/a HTTP/1.1\r\n\
            x-ms-range: bytes=3-\r\n\
            x-ms-lease-id: 00000000-0000-0000-0000-000000000001\r\n\
            x-ms-version: 2020-10-02\r\n\
            content-length: 0\r\n\
            \r\n",
    },
    Row {
        asked: "GET /data/a?sharesnapshot=2022-01-01T00:00:00.0000000Z HTTP/1.1\n\
            Range: bytes=9-\n\
            x-ms-range: bytes=00-0099\n\n",
        body: "",
        written: "GET /data/a?sharesnapshot=2022-01-01T00%3A00%3A00.0000000Z HTTP/1.1\r\n\
            x-ms-range: bytes=0-99\r\n\
            x-ms-version: 2020-10-02\r\n\
            content-length: 0\r\n\
            \r\n",
    },
    // List Ranges
    Row {
        asked: "GET /data/a?comp=rangelist HTTP/1.1\n\n",
        body: "",
        written: "GET /data/a?comp=rangelist HTTP/1.1\r\n\
            x-ms-version: 2020-10-02\r\n\
            content-length: 0\r\n\
            \r\n",
    },
    Row {
        asked: "GET /data/a?sharesnapshot=2022-01-01T00:00:00.0000000Z&comp=RangeList HTTP/1.1\nRange: bytes=0-\n\n",
        body: "",
        written: "GET /data/a?comp=rangelist&sharesnapshot=2022-01-01T00%3A00%3A00.0000000Z HTTP/1.1\r\n\
            x-ms-range: bytes=0-\r\n\
            x-ms-version: 2020-10-02\r\n\
            content-length: 0\r\n\
            \r\n",
    },
    Row {
        asked: "GET /data/a?comp=rangelist HTTP/1.1\n\
            x-ms-lease-id: 00000000000000000000000000000001\n\
            x-ms-range: bytes=1-2\n\n",
        body: "",
        written: "GET /data/a?comp=rangelist HTTP/1.1\r\n\
            x-ms-range: bytes=1-2\r\n\
            x-ms-lease-id: 00000000-0000-0000-0000-000000000001\r\n\
            x-ms-version: 2020-10-02\r\n\
            content-length: 0\r\n\
            \r\n",
    },
];

const CHANGES: [Row; 4] = [
    // Put Range with `update`
    Row {
        asked: "PUT /data/a?comp=range HTTP/1.1\n\
            content-md5: 4vxxTEcn7pOV8yTNLn8zHw==\n\
            content-length: 04\n\
            Range: bytes=6-9\n\
            x-ms-write: UPDATE\n\n",
        body: "abcd",
        written: "PUT /data/a?comp=range HTTP/1.1\r\n\
            x-ms-write: update\r\n\
            x-ms-range: bytes=6-9\r\n\
            x-ms-version: 2020-10-02\r\n\
            content-length: 4\r\n\
            \r\n",
    },
    Row {
        asked: "PUT /data/a?comp=range HTTP/1.1\n\
            x-ms-lease-id: 00000000000000000000000000000001\n\
            x-ms-range: bytes=4398046511103-4398046511103\n\
            x-ms-write: update\n\n",
        body: "a",
        written: "PUT /data/a?comp=range HTTP/1.1\r\n\
            x-ms-write: update\r\n\
            x-ms-range: bytes=4398046511103-4398046511103\r\n\
            x-ms-lease-id: 00000000-0000-0000-0000-000000000001\r\n\
            x-ms-version: 2020-10-02\r\n\
            content-length: 1\r\n\
            \r\n",
    },
    // Put Range with `clear`
    Row {
        asked: "PUT /data/a?comp=range HTTP/1.1\n\
            x-ms-range: bytes=0-9223372036854775807\n\
            x-ms-write: Clear\n\n",
        body: "",
        written: "PUT /data/a?comp=range HTTP/1.1\r\n\
            x-ms-write: clear\r\n\
            x-ms-range: bytes=0-9223372036854775807\r\n\
            x-ms-version: 2020-10-02\r\n\
            content-length: 0\r\n\
            \r\n",
    },
    Row {
        asked: "PUT /data/a?comp=range HTTP/1.1\n\
            x-ms-lease-id: 00000000000000000000000000000001\n\
            x-ms-write: clear\n\
            Range: bytes=512-512\n\n",
        body: "",
        written: "PUT /data/a?comp=range HTTP/1.1\r\n\
            x-ms-write: clear\r\n\
            x-ms-range: bytes=512-512\r\n\
            x-ms-lease-id: 00000000-0000-0000-0000-000000000001\r\n\
            x-ms-version: 2020-10-02\r\n\
            content-length: 0\r\n\
            \r\n",
    },
];

/// Get File, List Ranges.
#[test]
fn readings_are_written(rt: HostRuntime) {
    are_read(&rt, rt.alloc(), &READINGS);
}

/// Put Range.
#[test]
fn changes_of_bytes_are_written(rt: HostRuntime) {
    are_read(&rt, rt.alloc(), &CHANGES);
}
