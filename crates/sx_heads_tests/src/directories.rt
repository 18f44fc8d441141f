//! Calls on directories and on handles.
use crate::written::{Row, are_read};

const DIRECTORIES: [Row; 10] = [
    // Create Directory
    Row {
        asked: "PUT /data/d%20e?restype=directory HTTP/1.1\n\n",
        body: "",
        written: "PUT /data/d%20e?restype=directory HTTP/1.1\r\n\
            x-ms-file-attributes: Directory\r\n\
            x-ms-version: 2020-10-02\r\n\
            content-length: 0\r\n\
            \r\n",
    },
    Row {
        asked: "PUT /data/%c3%a4/b+%7E'c?restype=DIRECTORY HTTP/1.1\n\
            x-ms-meta-b: 2\n\
            x-ms-file-creation-time: now\n\
            x-ms-file-last-write-time: 2021-12-31T23:59:59.9999999Z\n\
            x-ms-file-attributes: hidden | directory|READONLY\n\
            x-ms-meta-a: 1\n\n",
        body: "",
        written: "PUT /data/%C3%A4/b%2B~%27c?restype=directory HTTP/1.1\r\n\
            x-ms-file-attributes: ReadOnly|Hidden|Directory\r\n\
            x-ms-file-last-write-time: 2021-12-31T23:59:59.9999999Z\r\n\
            x-ms-meta-a: 1\r\n\
            x-ms-meta-b: 2\r\n\
            x-ms-version: 2020-10-02\r\n\
            content-length: 0\r\n\
            \r\n",
    },
    Row {
        asked: "PUT /data/d?restype=directory HTTP/1.1\n\
            x-ms-file-attributes: None\n\
            x-ms-file-creation-time: 1970-01-01T00:00:00.0000000Z\n\n",
        body: "",
        written: "PUT /data/d?restype=directory HTTP/1.1\r\n\
            x-ms-file-attributes: Directory\r\n\
            x-ms-file-creation-time: 1970-01-01T00:00:00.0000000Z\r\n\
            x-ms-version: 2020-10-02\r\n\
            content-length: 0\r\n\
            \r\n",
    },
    // Get Directory Properties
    Row {
        asked: "GET /data/?restype=directory HTTP/1.1\nx-ms-lease-id: none\n\n",
        body: "",
        written: "GET /data?restype=directory HTTP/1.1\r\n\
            x-ms-version: 2020-10-02\r\n\
            content-length: 0\r\n\
            \r\n",
    },
    Row {
        asked: "HEAD /data/d/?restype=directory&sharesnapshot=2022-01-01T00:00:00.0000000Z HTTP/1.1\n\n",
        body: "",
        written: "GET /data/d?restype=directory&sharesnapshot=2022-01-01T00%3A00%3A00.0000000Z HTTP/1.1\r\n\
            x-ms-version: 2020-10-02\r\n\
            content-length: 0\r\n\
            \r\n",
    },
    // Get Directory Metadata
    Row {
        asked: "HEAD /data/d?restype=directory&sharesnapshot=2022-01-01T00:00:00.0000000Z&comp=metadata HTTP/1.1\n\n",
        body: "",
        written: "GET /data/d?restype=directory&comp=metadata&sharesnapshot=2022-01-01T00%3A00%3A00.0000000Z \
            HTTP/1.1\r\n\
            x-ms-version: 2020-10-02\r\n\
            content-length: 0\r\n\
            \r\n",
    },
    Row {
        asked: "GET /data?restype=directory&comp=metadata HTTP/1.1\n\n",
        body: "",
        written: "GET /data?restype=directory&comp=metadata HTTP/1.1\r\n\
            x-ms-version: 2020-10-02\r\n\
            content-length: 0\r\n\
            \r\n",
    },
    // Set Directory Metadata
    Row {
        asked: "PUT /data/d?restype=directory&comp=metadata HTTP/1.1\n\n",
        body: "",
        written: "PUT /data/d?restype=directory&comp=metadata HTTP/1.1\r\n\
            x-ms-version: 2020-10-02\r\n\
            content-length: 0\r\n\
            \r\n",
    },
    Row {
        asked: "PUT /data/d?restype=directory&comp=metadata HTTP/1.1\nx-ms-meta-Key: a,b\nx-ms-meta-KEY:\n\n",
        body: "",
        written: "PUT /data/d?restype=directory&comp=metadata HTTP/1.1\r\n\
            x-ms-meta-key: a,b,\r\n\
            x-ms-version: 2020-10-02\r\n\
            content-length: 0\r\n\
            \r\n",
    },
    // Delete Directory
    Row {
        asked: "DELETE /data/a/b/c?restype=directory HTTP/1.1\n\n",
        body: "",
        written: "DELETE /data/a/b/c?restype=directory HTTP/1.1\r\n\
            x-ms-version: 2020-10-02\r\n\
            content-length: 0\r\n\
            \r\n",
    },
];

const LISTINGS: [Row; 2] = [
    // List Directories and Files
    Row {
        asked: "GET /data?restype=directory&comp=list HTTP/1.1\n\n",
        body: "",
        written: "GET /data?restype=directory&comp=list&prefix=&marker=&maxresults=5000 HTTP/1.1\r\n\
            x-ms-version: 2020-10-02\r\n\
            content-length: 0\r\n\
            \r\n",
    },
    Row {
        asked: "GET /data/d?maxresults=1&marker=%C3%A4%2520b&prefix=%41%26b&comp=list&restype=directory\
            &sharesnapshot=2022-01-01T00:00:00.0000000Z HTTP/1.1\n\n",
        body: "",
        written: "GET /data/d?restype=directory&comp=list&sharesnapshot=2022-01-01T00%3A00%3A00.0000000Z\
            &prefix=A%26b&marker=%25C3%25A4%2520b&maxresults=1 HTTP/1.1\r\n\
            x-ms-version: 2020-10-02\r\n\
            content-length: 0\r\n\
            \r\n",
    },
];

const HANDLES: [Row; 4] = [
    // List Handles
    Row {
        asked: "GET /data?comp=listhandles HTTP/1.1\n\n",
        body: "",
        written: "GET /data?comp=listhandles&maxresults=5000 HTTP/1.1\r\n\
            x-ms-recursive: false\r\n\
            x-ms-version: 2020-10-02\r\n\
            content-length: 0\r\n\
            \r\n",
    },
    Row {
        asked: "GET /data/d?maxresults=99999999999999999999&marker=4294967295%2E01&comp=ListHandles HTTP/1.1\n\
            x-ms-recursive: TRUE\n\n",
        body: "",
        written: "GET /data/d?comp=listhandles&marker=4294967295.1&maxresults=5000 HTTP/1.1\r\n\
            x-ms-recursive: true\r\n\
            x-ms-version: 2020-10-02\r\n\
            content-length: 0\r\n\
            \r\n",
    },
    // Force Close Handles
    Row {
        asked: "PUT /data/a.txt?comp=forceclosehandles HTTP/1.1\nx-ms-handle-id: *\n\n",
        body: "",
        written: "PUT /data/a.txt?comp=forceclosehandles HTTP/1.1\r\n\
            x-ms-handle-id: *\r\n\
            x-ms-recursive: false\r\n\
            x-ms-version: 2020-10-02\r\n\
            content-length: 0\r\n\
            \r\n",
    },
    Row {
        asked: "PUT /data?comp=forceclosehandles HTTP/1.1\nx-ms-recursive: True\nx-ms-handle-id: 10.4294967295\n\n",
        body: "",
        written: "PUT /data?comp=forceclosehandles HTTP/1.1\r\n\
            x-ms-handle-id: 10.4294967295\r\n\
            x-ms-recursive: true\r\n\
            x-ms-version: 2020-10-02\r\n\
            content-length: 0\r\n\
            \r\n",
    },
];

/// Create Directory, Get Directory Properties, Get and Set Directory Metadata, Delete Directory.
#[test]
fn calls_on_directories_are_written(rt: HostRuntime) {
    are_read(&rt, rt.alloc(), &DIRECTORIES);
}

/// List Directories and Files.
#[test]
fn listings_of_directories_are_written(rt: HostRuntime) {
    are_read(&rt, rt.alloc(), &LISTINGS);
}

/// List Handles, Force Close Handles.
#[test]
fn calls_on_handles_are_written(rt: HostRuntime) {
    are_read(&rt, rt.alloc(), &HANDLES);
}
