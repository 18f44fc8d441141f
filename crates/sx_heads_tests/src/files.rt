//! Calls on files as a whole.
use crate::written::{Row, are_read};

const CREATIONS: [Row; 2] = [
    // Create File
    Row {
        asked: "PUT /data/a.txt HTTP/1.1\nx-ms-content-length: 4398046511104\nx-ms-type: FILE\n\n",
        body: "",
        written: "PUT /data/a.txt HTTP/1.1\r\n\
            x-ms-type: file\r\n\
            x-ms-content-length: 4398046511104\r\n\
            x-ms-file-attributes: Archive\r\n\
            x-ms-version: 2020-10-02\r\n\
            content-length: 0\r\n\
            \r\n",
    },
    Row {
        asked: "PUT /data/d/a.txt HTTP/1.1\n\
            x-ms-lease-id: 0F1E2D3C4B5A69788796A5B4C3D2E1F0\n\
            x-ms-meta-b: 2\n\
            x-ms-meta-a: 1\n\
            x-ms-file-last-write-time: 2022-01-02T00:00:00.0000000Z\n\
            x-ms-file-creation-time: 2022-01-01T00:00:00.0000000Z\n\
            x-ms-file-attributes: NoScrubData|NotContentIndexed|Offline|Temporary|Archive|System|Hidden|ReadOnly\n\
            x-ms-content-md5: 1B2M2Y8AsgTpgAmY7PhCfg==\n\
            x-ms-content-disposition: inline\n\
            x-ms-cache-control: no-cache\n\
            x-ms-content-language: de, en\n\
            x-ms-content-encoding: gzip\n\
            x-ms-content-type: text/plain\n\
            x-ms-content-length: 00\n\
            x-ms-type: file\n\n",
        body: "",
        written: "PUT /data/d/a.txt HTTP/1.1\r\n\
            x-ms-type: file\r\n\
            x-ms-content-length: 0\r\n\
            x-ms-content-type: text/plain\r\n\
            x-ms-content-encoding: gzip\r\n\
            x-ms-content-language: de, en\r\n\
            x-ms-cache-control: no-cache\r\n\
            x-ms-content-disposition: inline\r\n\
            x-ms-content-md5: 1B2M2Y8AsgTpgAmY7PhCfg==\r\n\
            x-ms-file-attributes: ReadOnly|Hidden|System|Archive|Temporary|Offline|NotContentIndexed|NoScrubData\r\n\
            x-ms-file-creation-time: 2022-01-01T00:00:00.0000000Z\r\n\
            x-ms-file-last-write-time: 2022-01-02T00:00:00.0000000Z\r\n\
            x-ms-meta-a: 1\r\n\
            x-ms-meta-b: 2\r\n\
            x-ms-lease-id: 0f1e2d3c-4b5a-6978-8796-a5b4c3d2e1f0\r\n\
            x-ms-version: 2020-10-02\r\n\
            content-length: 0\r\n\
            \r\n",
    },
];

const PROPERTIES: [Row; 5] = [
    // Get File Properties
    Row {
        asked: "HEAD /data/a?sharesnapshot=2022-01-01T00:00:00.0000000Z HTTP/1.1\n\n",
        body: "",
        written: "HEAD /data/a?sharesnapshot=2022-01-01T00%3A00%3A00.0000000Z HTTP/1.1\r\n\
            x-ms-version: 2020-10-02\r\n\
            content-length: 0\r\n\
            \r\n",
    },
    Row {
        asked: "HEAD /data/a HTTP/1.0\nx-ms-lease-id: 00000000000000000000000000000001\n\n",
        body: "",
        written: "HEAD /data/a HTTP/1.1\r\n\
            x-ms-lease-id: 00000000-0000-0000-0000-000000000001\r\n\
            x-ms-version: 2020-10-02\r\n\
            content-length: 0\r\n\
            \r\n",
    },
    // Set File Properties
    Row {
        asked: "PUT /data/a?comp=properties HTTP/1.1\n\n",
        body: "",
        written: "PUT /data/a?comp=properties HTTP/1.1\r\n\
            x-ms-file-creation-time: preserve\r\n\
            x-ms-file-last-write-time: preserve\r\n\
            x-ms-version: 2020-10-02\r\n\
            content-length: 0\r\n\
            \r\n",
    },
    Row {
        asked: "PUT /data/a?comp=properties HTTP/1.1\n\
            x-ms-lease-id: 00000000000000000000000000000001\n\
            x-ms-file-last-write-time: NOW\n\
            x-ms-file-creation-time: 2022-01-01T00:00:00.0000000Z\n\
            x-ms-file-attributes: none\n\
            x-ms-content-type: text/plain; charset=utf-8\n\
            x-ms-content-length: 65536\n\n",
        body: "",
        written: "PUT /data/a?comp=properties HTTP/1.1\r\n\
            x-ms-content-length: 65536\r\n\
            x-ms-content-type: text/plain; charset=utf-8\r\n\
            x-ms-file-attributes: None\r\n\
            x-ms-file-creation-time: 2022-01-01T00:00:00.0000000Z\r\n\
            x-ms-file-last-write-time: now\r\n\
            x-ms-lease-id: 00000000-0000-0000-0000-000000000001\r\n\
            x-ms-version: 2020-10-02\r\n\
            content-length: 0\r\n\
            \r\n",
    },
    Row {
        asked: "PUT /data/a?comp=properties HTTP/1.1\n\
            x-ms-file-attributes: Preserve\n\
            x-ms-file-creation-time: now\n\
            x-ms-content-md5: 4vxxTEcn7pOV8yTNLn8zHw==\n\
            x-ms-file-last-write-time: PRESERVE\n\n",
        body: "",
        written: "PUT /data/a?comp=properties HTTP/1.1\r\n\
            x-ms-content-md5: 4vxxTEcn7pOV8yTNLn8zHw==\r\n\
            x-ms-file-creation-time: now\r\n\
            x-ms-file-last-write-time: preserve\r\n\
            x-ms-version: 2020-10-02\r\n\
            content-length: 0\r\n\
            \r\n",
    },
];

const METADATA: [Row; 4] = [
    // Get File Metadata
    Row {
        asked: "HEAD /data/a?comp=metadata&sharesnapshot=2022-01-01T00:00:00.0000000Z HTTP/1.1\n\n",
        body: "",
        written: "GET /data/a?comp=metadata&sharesnapshot=2022-01-01T00%3A00%3A00.0000000Z HTTP/1.1\r\n\
            x-ms-version: 2020-10-02\r\n\
            content-length: 0\r\n\
            \r\n",
    },
    Row {
        asked: "GET /data/a?comp=metadata HTTP/1.1\nX-MS-LEASE-ID: 00000000000000000000000000000001\n\n",
        body: "",
        written: "GET /data/a?comp=metadata HTTP/1.1\r\n\
            x-ms-lease-id: 00000000-0000-0000-0000-000000000001\r\n\
            x-ms-version: 2020-10-02\r\n\
            content-length: 0\r\n\
            \r\n",
    },
    // Set File Metadata
    Row {
        asked: "PUT /data/a?comp=metadata HTTP/1.1\n\n",
        body: "",
        written: "PUT /data/a?comp=metadata HTTP/1.1\r\n\
            x-ms-version: 2020-10-02\r\n\
            content-length: 0\r\n\
            \r\n",
    },
    Row {
        asked: "PUT /data/a?comp=metadata HTTP/1.1\n\
            x-ms-lease-id: 00000000000000000000000000000001\n\
            x-ms-meta-a: 1\n\n",
        body: "",
        written: "PUT /data/a?comp=metadata HTTP/1.1\r\n\
            x-ms-meta-a: 1\r\n\
            x-ms-lease-id: 00000000-0000-0000-0000-000000000001\r\n\
            x-ms-version: 2020-10-02\r\n\
            content-length: 0\r\n\
            \r\n",
    },
];

const DELETIONS_AND_LEASES: [Row; 6] = [
    // Delete File
    Row {
        asked: "DELETE /data/a HTTP/1.1\n\n",
        body: "",
        written: "DELETE /data/a HTTP/1.1\r\n\
            x-ms-version: 2020-10-02\r\n\
            content-length: 0\r\n\
            \r\n",
    },
    Row {
        asked: "DELETE /data/a HTTP/1.1\nx-ms-lease-id: 00000000000000000000000000000001\n\n",
        body: "",
        written: "DELETE /data/a HTTP/1.1\r\n\
            x-ms-lease-id: 00000000-0000-0000-0000-000000000001\r\n\
            x-ms-version: 2020-10-02\r\n\
            content-length: 0\r\n\
            \r\n",
    },
    // Lease File
    Row {
        asked: "PUT /data/a?comp=lease HTTP/1.1\n\
            x-ms-proposed-lease-id: 00000000000000000000000000000002\n\
            x-ms-lease-action: acquire\n\n",
        body: "",
        written: "PUT /data/a?comp=lease HTTP/1.1\r\n\
            x-ms-lease-action: acquire\r\n\
            x-ms-lease-duration: -1\r\n\
            x-ms-proposed-lease-id: 00000000-0000-0000-0000-000000000002\r\n\
            x-ms-version: 2020-10-02\r\n\
            content-length: 0\r\n\
            \r\n",
    },
    Row {
        asked: "PUT /data/a?comp=lease HTTP/1.1\n\
            x-ms-lease-id: 00000000000000000000000000000001\n\
            x-ms-proposed-lease-id: 00000000000000000000000000000002\n\
            x-ms-lease-action: change\n\n",
        body: "",
        written: "PUT /data/a?comp=lease HTTP/1.1\r\n\
            x-ms-lease-action: change\r\n\
            x-ms-lease-id: 00000000-0000-0000-0000-000000000001\r\n\
            x-ms-proposed-lease-id: 00000000-0000-0000-0000-000000000002\r\n\
            x-ms-version: 2020-10-02\r\n\
            content-length: 0\r\n\
            \r\n",
    },
    Row {
        asked: "PUT /data/a?comp=lease HTTP/1.1\n\
            x-ms-lease-id: 00000000000000000000000000000001\n\
            x-ms-lease-action: RELEASE\n\n",
        body: "",
        written: "PUT /data/a?comp=lease HTTP/1.1\r\n\
            x-ms-lease-action: release\r\n\
            x-ms-lease-id: 00000000-0000-0000-0000-000000000001\r\n\
            x-ms-version: 2020-10-02\r\n\
            content-length: 0\r\n\
            \r\n",
    },
    Row {
        asked: "PUT /data/a?comp=lease HTTP/1.1\nx-ms-lease-action: Break\n\n",
        body: "",
        written: "PUT /data/a?comp=lease HTTP/1.1\r\n\
            x-ms-lease-action: break\r\n\
            x-ms-version: 2020-10-02\r\n\
            content-length: 0\r\n\
            \r\n",
    },
];

/// Create File.
#[test]
fn new_files_are_written(rt: HostRuntime) {
    are_read(&rt, rt.alloc(), &CREATIONS);
}

/// Get and Set File Properties.
#[test]
fn properties_are_written(rt: HostRuntime) {
    are_read(&rt, rt.alloc(), &PROPERTIES);
}

/// Get and Set File Metadata.
#[test]
fn metadata_is_written(rt: HostRuntime) {
    are_read(&rt, rt.alloc(), &METADATA);
}

/// Delete File, Lease File.
#[test]
fn deletions_and_leases_are_written(rt: HostRuntime) {
    are_read(&rt, rt.alloc(), &DELETIONS_AND_LEASES);
}
