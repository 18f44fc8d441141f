//! Each refusal of a request, in the order in which requests are asked for them.

use crate::told::{Told, are_read, bare, with_body};
use sx_names::NameRule;

#[test]
fn methods_and_versions_are_refused(rt: HostRuntime) {
    let version = Told::Header("x-ms-version");
    let cases = [
        bare("POST data HTTP/1.1\n\n", Told::Verb),
        bare("get / HTTP/1.1\n\n", Told::Verb),
        bare("GET data HTTP/1.1\nx-ms-version: 2021-04-10\n\n", version),
        bare(
            "GET / HTTP/1.1\nx-ms-version: 2020-10-02\nx-ms-version: 2020-10-02\n\n",
            version,
        ),
    ];
    are_read(&rt, rt.alloc(), &cases);
}

#[test]
fn paths_are_refused(rt: HostRuntime) {
    let cases = [
        bare("GET data HTTP/1.1\n\n", Told::Uri(NameRule::Empty, 0, 0)),
        bare("GET /da%2x/a HTTP/1.1\n\n", Told::Uri(NameRule::Utf8, 0, 2)),
        bare("GET /da HTTP/1.1\n\n", Told::Uri(NameRule::Short, 0, 0)),
        bare(
            "GET /data/a/b%FF HTTP/1.1\n\n",
            Told::Uri(NameRule::Utf8, 2, 1),
        ),
        bare(
            "GET /data/a/b% HTTP/1.1\n\n",
            Told::Uri(NameRule::Utf8, 2, 1),
        ),
        bare(
            "GET /data//b HTTP/1.1\n\n",
            Told::Uri(NameRule::Empty, 1, 0),
        ),
        bare(
            "GET /data/a%2Fb HTTP/1.1\n\n",
            Told::Uri(NameRule::Char, 1, 1),
        ),
    ];
    are_read(&rt, rt.alloc(), &cases);
}

#[test]
fn parameters_are_refused(rt: HostRuntime) {
    let cases = [
        bare(
            "GET /?restype=a&comp=%FF&RESTYPE=a HTTP/1.1\n\n",
            Told::Query("restype"),
        ),
        bare(
            "GET /?comp=%FF&maxresults=0 HTTP/1.1\n\n",
            Told::Query("comp"),
        ),
        bare(
            "GET /data?restype=directory&sharesnapshot=2022 HTTP/1.1\n\n",
            Told::Query("sharesnapshot"),
        ),
        bare("GET /?prefix=%2 HTTP/1.1\n\n", Told::Query("prefix")),
        bare("GET /?marker=%FF HTTP/1.1\n\n", Told::Query("marker")),
        bare("GET /?maxresults=0 HTTP/1.1\n\n", Told::Range("maxresults")),
        bare(
            "GET /?maxresults=-1 HTTP/1.1\n\n",
            Told::Query("maxresults"),
        ),
        bare(
            "GET /?include=a&include=b HTTP/1.1\n\n",
            Told::Query("include"),
        ),
    ];
    are_read(&rt, rt.alloc(), &cases);
}

#[test]
fn other_requests_are_no_call(rt: HostRuntime) {
    let cases = [
        bare("GET / HTTP/1.1\n\n", Told::NoCall),
        bare("GET /data HTTP/1.1\n\n", Told::NoCall),
        bare("PUT /data?restype=directory HTTP/1.1\n\n", Told::NoCall),
        bare("HEAD /?comp=list HTTP/1.1\n\n", Told::NoCall),
        bare("GET /data/a?comp=listed HTTP/1.1\n\n", Told::NoCall),
        bare(
            "PUT /data?restype=share&sharesnapshot=2022-01-01T00:00:00.0000000Z HTTP/1.1\n\n",
            Told::Query("sharesnapshot"),
        ),
    ];
    are_read(&rt, rt.alloc(), &cases);
}

#[test]
fn markers_are_refused(rt: HostRuntime) {
    let marker = Told::Query("marker");
    let cases = [
        bare("GET /?comp=list&marker=A HTTP/1.1\n\n", marker),
        bare("GET /?comp=list&marker=data%40now HTTP/1.1\n\n", marker),
        bare(
            "GET /data?restype=directory&comp=list&marker=%25FF HTTP/1.1\n\n",
            marker,
        ),
        bare("GET /data?comp=listhandles&marker=0.1 HTTP/1.1\n\n", marker),
    ];
    are_read(&rt, rt.alloc(), &cases);
}

#[test]
fn headers_are_refused(rt: HostRuntime) {
    let cases = [
        bare("PUT /data/a HTTP/1.1\n\n", Told::Missing("x-ms-type")),
        bare(
            "PUT /data/a HTTP/1.1\nx-ms-type: directory\n\n",
            Told::Header("x-ms-type"),
        ),
        bare(
            "PUT /data/a HTTP/1.1\nx-ms-type: file\nx-ms-content-length: 4398046511105\n\n",
            Told::Range("x-ms-content-length"),
        ),
        bare(
            "PUT /data?restype=share HTTP/1.1\nx-ms-share-quota: 5121\n\n",
            Told::Range("x-ms-share-quota"),
        ),
        bare(
            "PUT /data?restype=share HTTP/1.1\nx-ms-meta-1: a\n\n",
            Told::Header("x-ms-meta-1"),
        ),
    ];
    are_read(&rt, rt.alloc(), &cases);
}

#[test]
fn headers_of_ranges_and_leases_are_refused(rt: HostRuntime) {
    let cases = [
        bare(
            "PUT /data/a?comp=range HTTP/1.1\nx-ms-range: bytes=0-3\n\n",
            Told::Missing("x-ms-write"),
        ),
        bare(
            "PUT /data/a?comp=range HTTP/1.1\nx-ms-write: append\n\n",
            Told::Header("x-ms-write"),
        ),
        bare(
            "PUT /data/a?comp=range HTTP/1.1\nx-ms-write: update\nx-ms-range: bytes=0-4194304\n\n",
            Told::Range("x-ms-range"),
        ),
        bare(
            "PUT /data/a?comp=range HTTP/1.1\nx-ms-write: clear\nRange: bytes=3-2\n\n",
            Told::Header("range"),
        ),
        bare(
            "GET /data/a?sharesnapshot=2022-01-01T00:00:00.0000000Z HTTP/1.1\n\
             x-ms-lease-id: 00000000-0000-0000-0000-000000000001\n\n",
            Told::Header("x-ms-lease-id"),
        ),
        bare(
            "PUT /data/a?comp=lease HTTP/1.1\nx-ms-lease-action: change\n\
             x-ms-lease-id: 00000000-0000-0000-0000-000000000001\n\n",
            Told::Missing("x-ms-proposed-lease-id"),
        ),
    ];
    are_read(&rt, rt.alloc(), &cases);
}

#[test]
fn bodies_are_refused(rt: HostRuntime) {
    let length = Told::Header("content-length");
    let cases = [
        with_body("GET /data/a HTTP/1.1\n\n", "a", length),
        with_body(
            "PUT /data/a?comp=range HTTP/1.1\nx-ms-write: update\nx-ms-range: bytes=0-3\n\n",
            "abc",
            length,
        ),
        with_body(
            "PUT /data/a?comp=range HTTP/1.1\nx-ms-write: update\nx-ms-range: bytes=0-3\n\
             content-md5: AAAAAAAAAAAAAAAAAAAAAA==\n\n",
            "abcd",
            Told::Md5,
        ),
    ];
    are_read(&rt, rt.alloc(), &cases);
}
