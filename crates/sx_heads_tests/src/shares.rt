//! Calls on the account and on shares.
use crate::written::{Row, are_read};

const LISTINGS: [Row; 3] = [
    Row {
        asked: "GET /?comp=list HTTP/1.0\n\n",
        body: "",
        written: "GET /?comp=list&prefix=&maxresults=5000 HTTP/1.1\r\n\
            x-ms-version: 2020-10-02\r\n\
            content-length: 0\r\n\
            \r\n",
    },
    Row {
        asked: "GET /?include=a,SNAPSHOTS&maxresults=6000&marker=data%402022-01-01T00:00:00.0000000Z&prefix=d/+\
            &COMP=List HTTP/1.1\nHost: files\nx-ms-version: 2020-10-02\n\n",
        body: "",
        written: "GET /?comp=list&prefix=d%2F%2B&marker=data%402022-01-01T00%3A00%3A00.0000000Z&maxresults=5000\
            &include=snapshots HTTP/1.1\r\n\
            x-ms-version: 2020-10-02\r\n\
            content-length: 0\r\n\
            \r\n",
    },
    Row {
        asked: "GET /?comp=list&marker=my-share-1&include=metadata&maxresults=07 HTTP/1.1\n\n",
        body: "",
        written: "GET /?comp=list&prefix=&marker=my-share-1&maxresults=7 HTTP/1.1\r\n\
            x-ms-version: 2020-10-02\r\n\
            content-length: 0\r\n\
            \r\n",
    },
];

const FACTS: [Row; 12] = [
    // Create Share
    Row {
        asked: "PUT /data?restype=share HTTP/1.1\nX-Ms-Meta-B: 2\nx-ms-meta-a:  1\t\nx-ms-meta-A: 3\n\n",
        body: "",
        written: "PUT /data?restype=share HTTP/1.1\r\n\
            x-ms-share-quota: 5120\r\n\
            x-ms-meta-a: 1,3\r\n\
            x-ms-meta-b: 2\r\n\
            x-ms-version: 2020-10-02\r\n\
            content-length: 0\r\n\
            \r\n",
    },
    Row {
        asked: "PUT /d%61ta/?RESTYPE=Share HTTP/1.1\ncontent-length: 0\nx-ms-share-quota: 007\n\n",
        body: "",
        written: "PUT /data?restype=share HTTP/1.1\r\n\
            x-ms-share-quota: 7\r\n\
            x-ms-version: 2020-10-02\r\n\
            content-length: 0\r\n\
            \r\n",
    },
    // Get Share Properties
    Row {
        asked: "HEAD /my-share-1?sharesnapshot=2022-01-01T00:00:00.0000000Z&restype=share HTTP/1.1\n\n",
        body: "",
        written: "GET /my-share-1?restype=share&sharesnapshot=2022-01-01T00%3A00%3A00.0000000Z HTTP/1.1\r\n\
            x-ms-version: 2020-10-02\r\n\
            content-length: 0\r\n\
            \r\n",
    },
    Row {
        asked: "GET /data?restype=share HTTP/1.1\nx-ms-lease-id: 0F1E2D3C4B5A69788796A5B4C3D2E1F0\n\n",
        body: "",
        written: "GET /data?restype=share HTTP/1.1\r\n\
            x-ms-lease-id: 0f1e2d3c-4b5a-6978-8796-a5b4c3d2e1f0\r\n\
            x-ms-version: 2020-10-02\r\n\
            content-length: 0\r\n\
            \r\n",
    },
    // Set Share Properties
    Row {
        asked: "PUT /data?comp=properties&restype=share HTTP/1.1\n\
            x-ms-lease-id: {0f1e2d3c-4b5a-6978-8796-a5b4c3d2e1f0}\n\
            x-ms-share-quota: 1\n\n",
        body: "",
        written: "PUT /data?restype=share&comp=properties HTTP/1.1\r\n\
            x-ms-share-quota: 1\r\n\
            x-ms-lease-id: 0f1e2d3c-4b5a-6978-8796-a5b4c3d2e1f0\r\n\
            x-ms-version: 2020-10-02\r\n\
            content-length: 0\r\n\
            \r\n",
    },
    Row {
        asked: "PUT /data?restype=share&comp=properties HTTP/1.1\nx-ms-share-quota: 5120\n\n",
        body: "",
        written: "PUT /data?restype=share&comp=properties HTTP/1.1\r\n\
            x-ms-share-quota: 5120\r\n\
            x-ms-version: 2020-10-02\r\n\
            content-length: 0\r\n\
            \r\n",
    },
    // Get Share Metadata
    Row {
        asked: "HEAD /data?restype=share&comp=METADATA&sharesnapshot=2022-01-01T00:00:00.0000000Z HTTP/1.1\n\n",
        body: "",
        written: "GET /data?restype=share&comp=metadata&sharesnapshot=2022-01-01T00%3A00%3A00.0000000Z HTTP/1.1\r\n\
            x-ms-version: 2020-10-02\r\n\
            content-length: 0\r\n\
            \r\n",
    },
    Row {
        asked: "GET /data?restype=share&comp=metadata HTTP/1.1\nx-ms-lease-id: 00000000000000000000000000000001\n\n",
        body: "",
        written: "GET /data?restype=share&comp=metadata HTTP/1.1\r\n\
            x-ms-lease-id: 00000000-0000-0000-0000-000000000001\r\n\
            x-ms-version: 2020-10-02\r\n\
            content-length: 0\r\n\
            \r\n",
    },
    // Set Share Metadata
    Row {
        asked: "PUT /data?restype=share&comp=metadata HTTP/1.1\n\
            x-ms-lease-id: urn:uuid:00000000-0000-0000-0000-000000000001\n\
            x-ms-meta-_Z9: a b\n\n",
        body: "",
        written: "PUT /data?restype=share&comp=metadata HTTP/1.1\r\n\
            x-ms-meta-_z9: a b\r\n\
            x-ms-lease-id: 00000000-0000-0000-0000-000000000001\r\n\
            x-ms-version: 2020-10-02\r\n\
            content-length: 0\r\n\
            \r\n",
    },
    Row {
        asked: "PUT /data?restype=share&comp=metadata HTTP/1.1\n\n",
        body: "",
        written: "PUT /data?restype=share&comp=metadata HTTP/1.1\r\n\
            x-ms-version: 2020-10-02\r\n\
            content-length: 0\r\n\
            \r\n",
    },
    // Delete Share
    Row {
        asked: "DELETE /data?restype=share HTTP/1.1\nx-ms-delete-snapshots: Include\n\n",
        body: "",
        written: "DELETE /data?restype=share HTTP/1.1\r\n\
            x-ms-delete-snapshots: include\r\n\
            x-ms-version: 2020-10-02\r\n\
            content-length: 0\r\n\
            \r\n",
    },
    Row {
        asked: "DELETE /data?restype=share HTTP/1.1\nx-ms-lease-id: ffffffffffffffffffffffffffffffff\n\n",
        body: "",
        written: "DELETE /data?restype=share HTTP/1.1\r\n\
            x-ms-lease-id: ffffffff-ffff-ffff-ffff-ffffffffffff\r\n\
            x-ms-version: 2020-10-02\r\n\
            content-length: 0\r\n\
            \r\n",
    },
];

const SNAPSHOTS_AND_LEASES: [Row; 8] = [
    // Delete Share of a snapshot
    Row {
        asked: "DELETE /data?restype=share&ShareSnapshot=2022-01-01T00%3a00%3a00.0000001Z HTTP/1.1\n\n",
        body: "",
        written: "DELETE /data?restype=share&sharesnapshot=2022-01-01T00%3A00%3A00.0000001Z HTTP/1.1\r\n\
            x-ms-version: 2020-10-02\r\n\
            content-length: 0\r\n\
            \r\n",
    },
    // Snapshot Share
    Row {
        asked: "PUT /data?comp=Snapshot&timeout=30&restype=share HTTP/1.1\nx-ms-meta-a: 1\n\n",
        body: "",
        written: "PUT /data?restype=share&comp=snapshot HTTP/1.1\r\n\
            x-ms-meta-a: 1\r\n\
            x-ms-version: 2020-10-02\r\n\
            content-length: 0\r\n\
            \r\n",
    },
    Row {
        asked: "PUT /data?restype=share&comp=snapshot HTTP/1.1\n\n",
        body: "",
        written: "PUT /data?restype=share&comp=snapshot HTTP/1.1\r\n\
            x-ms-version: 2020-10-02\r\n\
            content-length: 0\r\n\
            \r\n",
    },
    // Lease Share
    Row {
        asked: "PUT /data?restype=share&comp=lease HTTP/1.1\nx-ms-lease-action: ACQUIRE\n\n",
        body: "",
        written: "PUT /data?restype=share&comp=lease HTTP/1.1\r\n\
            x-ms-lease-action: acquire\r\n\
            x-ms-lease-duration: -1\r\n\
            x-ms-version: 2020-10-02\r\n\
            content-length: 0\r\n\
            \r\n",
    },
    Row {
        asked: "PUT /data?restype=share&comp=lease HTTP/1.1\n\
            x-ms-proposed-lease-id: 0f1e2d3c4b5a69788796a5b4c3d2e1f0\n\
            x-ms-lease-duration: -1\n\
            x-ms-lease-action: acquire\n\n",
        body: "",
        written: "PUT /data?restype=share&comp=lease HTTP/1.1\r\n\
            x-ms-lease-action: acquire\r\n\
            x-ms-lease-duration: -1\r\n\
            x-ms-proposed-lease-id: 0f1e2d3c-4b5a-6978-8796-a5b4c3d2e1f0\r\n\
            x-ms-version: 2020-10-02\r\n\
            content-length: 0\r\n\
            \r\n",
    },
    Row {
        asked: "PUT /data?restype=share&comp=lease HTTP/1.1\n\
            x-ms-proposed-lease-id: 00000000000000000000000000000002\n\
            x-ms-lease-id: 00000000000000000000000000000001\n\
            x-ms-lease-action: Change\n\n",
        body: "",
        written: "PUT /data?restype=share&comp=lease HTTP/1.1\r\n\
            x-ms-lease-action: change\r\n\
            x-ms-lease-id: 00000000-0000-0000-0000-000000000001\r\n\
            x-ms-proposed-lease-id: 00000000-0000-0000-0000-000000000002\r\n\
            x-ms-version: 2020-10-02\r\n\
            content-length: 0\r\n\
            \r\n",
    },
    Row {
        asked: "PUT /data?restype=share&comp=lease HTTP/1.1\n\
            x-ms-lease-id: {00000000-0000-0000-0000-00000000000A}\n\
            x-ms-lease-action: release\n\n",
        body: "",
        written: "PUT /data?restype=share&comp=lease HTTP/1.1\r\n\
            x-ms-lease-action: release\r\n\
            x-ms-lease-id: 00000000-0000-0000-0000-00000000000a\r\n\
            x-ms-version: 2020-10-02\r\n\
            content-length: 0\r\n\
            \r\n",
    },
    Row {
        asked: "PUT /data?restype=share&comp=lease HTTP/1.1\nx-ms-lease-action: break\nx-ms-lease-duration: 5\n\n",
        body: "",
        written: "PUT /data?restype=share&comp=lease HTTP/1.1\r\n\
            x-ms-lease-action: break\r\n\
            x-ms-version: 2020-10-02\r\n\
            content-length: 0\r\n\
            \r\n",
    },
];

/// List Shares.
#[test]
fn listings_of_shares_are_written(rt: HostRuntime) {
    are_read(&rt, rt.alloc(), &LISTINGS);
}

/// Create Share, Get and Set Share Properties, Get and Set Share Metadata, Delete Share.
#[test]
fn calls_on_shares_are_written(rt: HostRuntime) {
    are_read(&rt, rt.alloc(), &FACTS);
}

/// Delete Share of a snapshot, Snapshot Share, Lease Share.
#[test]
fn snapshots_and_leases_are_written(rt: HostRuntime) {
    are_read(&rt, rt.alloc(), &SNAPSHOTS_AND_LEASES);
}
