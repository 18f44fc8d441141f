//! A request of each call.

use crate::told::{Told, are_read, bare, with_body};
use sx_decode::forms::Row;

#[test]
fn listings_of_shares(rt: HostRuntime) {
    let cases = [
        bare("GET /?comp=list HTTP/1.1\n\n", Told::Call(Row::ListShares)),
        bare(
            "GET /?COMP=List&maxresults=2&include=a,snapshots&marker=data%402022-01-01T00:00:00.0000000Z HTTP/1.1\n\n",
            Told::Call(Row::ListShares),
        ),
    ];
    are_read(&rt, rt.alloc(), &cases);
}

#[test]
fn calls_on_shares(rt: HostRuntime) {
    let cases = [
        bare(
            "PUT /data?restype=share HTTP/1.1\nx-ms-version: 2020-10-02\nx-ms-share-quota: 5120\nx-ms-meta-a: 1\n\n",
            Told::Call(Row::CreateShare),
        ),
        bare(
            "GET /data/?restype=share&sharesnapshot=2022-01-01T00:00:00.0000000Z HTTP/1.1\n\n",
            Told::Call(Row::GetShareProperties),
        ),
        bare(
            "PUT /data?restype=share&comp=properties HTTP/1.1\nx-ms-share-quota: 1\n\n",
            Told::Call(Row::SetShareProperties),
        ),
        bare(
            "HEAD /data?restype=share&comp=metadata HTTP/1.1\n\n",
            Told::Call(Row::GetShareMetadata),
        ),
        bare(
            "PUT /data?restype=share&comp=metadata HTTP/1.1\nx-ms-meta-B: 1\nx-ms-meta-b: 2\n\n",
            Told::Call(Row::SetShareMetadata),
        ),
        bare(
            "DELETE /data?restype=share HTTP/1.1\nx-ms-delete-snapshots: Include\n\n",
            Told::Call(Row::DeleteShare),
        ),
        bare(
            "DELETE /data?restype=share&sharesnapshot=2022-01-01T00:00:00.0000000Z HTTP/1.1\n\n",
            Told::Call(Row::DeleteSnapshot),
        ),
        bare(
            "PUT /data?restype=share&comp=snapshot HTTP/1.1\n\n",
            Told::Call(Row::SnapshotShare),
        ),
        bare(
            "PUT /data?restype=share&comp=lease HTTP/1.1\nx-ms-lease-action: acquire\nx-ms-lease-duration: -1\n\n",
            Told::Call(Row::LeaseShare),
        ),
    ];
    are_read(&rt, rt.alloc(), &cases);
}

#[test]
fn calls_on_directories(rt: HostRuntime) {
    let cases = [
        bare(
            "PUT /data/d%20e?restype=directory HTTP/1.1\nx-ms-file-attributes: Directory | Hidden\n\n",
            Told::Call(Row::CreateDirectory),
        ),
        bare(
            "GET /data?restype=directory HTTP/1.1\n\n",
            Told::Call(Row::GetDirectoryProperties),
        ),
        bare(
            "HEAD /data/d?restype=directory&comp=metadata HTTP/1.1\n\n",
            Told::Call(Row::GetDirectoryMetadata),
        ),
        bare(
            "PUT /data/d?restype=directory&comp=metadata HTTP/1.1\n\n",
            Told::Call(Row::SetDirectoryMetadata),
        ),
        bare(
            "DELETE /data/d?restype=directory HTTP/1.1\n\n",
            Told::Call(Row::DeleteDirectory),
        ),
        bare(
            "GET /data/d?restype=directory&comp=list&marker=b%252Ftxt HTTP/1.1\n\n",
            Told::Call(Row::ListDirectory),
        ),
        bare(
            "GET /data?comp=listhandles&marker=1.2 HTTP/1.1\nx-ms-recursive: true\n\n",
            Told::Call(Row::ListHandles),
        ),
        bare(
            "PUT /data/d?comp=forceclosehandles HTTP/1.1\nx-ms-handle-id: *\n\n",
            Told::Call(Row::ForceCloseHandles),
        ),
    ];
    are_read(&rt, rt.alloc(), &cases);
}

#[test]
fn calls_on_files(rt: HostRuntime) {
    let cases = [
        bare(
            "PUT /data/a HTTP/1.1\nx-ms-type: file\nx-ms-content-length: 4398046511104\n\n",
            Told::Call(Row::CreateFile),
        ),
        bare(
            "GET /data/a HTTP/1.1\nRange: bytes=3-\n\n",
            Told::Call(Row::GetFile),
        ),
        bare(
            "HEAD /data/a HTTP/1.1\n\n",
            Told::Call(Row::GetFileProperties),
        ),
        bare(
            "PUT /data/a?comp=properties HTTP/1.1\nx-ms-file-creation-time: now\nx-ms-file-attributes: preserve\n\n",
            Told::Call(Row::SetFileProperties),
        ),
        bare(
            "GET /data/a?comp=metadata HTTP/1.1\n\n",
            Told::Call(Row::GetFileMetadata),
        ),
        bare(
            "PUT /data/a?comp=metadata HTTP/1.1\nx-ms-meta-a: 1\n\n",
            Told::Call(Row::SetFileMetadata),
        ),
        bare("DELETE /data/a HTTP/1.1\n\n", Told::Call(Row::DeleteFile)),
        bare(
            "PUT /data/a?comp=lease HTTP/1.1\nx-ms-lease-action: break\n\n",
            Told::Call(Row::LeaseFile),
        ),
    ];
    are_read(&rt, rt.alloc(), &cases);
}

#[test]
fn calls_on_ranges(rt: HostRuntime) {
    let cases = [
        with_body(
            "PUT /data/a?comp=range HTTP/1.1\nx-ms-write: UPDATE\nx-ms-range: bytes=0-3\n\
             content-md5: 4vxxTEcn7pOV8yTNLn8zHw==\n\n",
            "abcd",
            Told::Call(Row::UpdateRange),
        ),
        bare(
            "PUT /data/a?comp=range HTTP/1.1\nx-ms-write: clear\nx-ms-range: bytes=0-9223372036854775807\n\n",
            Told::Call(Row::ClearRange),
        ),
        bare(
            "GET /data/a?comp=rangelist HTTP/1.1\nx-ms-range: bytes=1-2\n\n",
            Told::Call(Row::ListRanges),
        ),
    ];
    are_read(&rt, rt.alloc(), &cases);
}
