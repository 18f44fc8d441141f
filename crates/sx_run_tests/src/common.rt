//! What the tests share: what the service is given, signed requests, and links in memory.

use std::alloc::Global;
use std::process::Abort;
use std::sync::Wait;
use std::thread::Threads;
use sx_base::{Listener, MemLink, MemListener, MemSink, MemSource, Sink, StepClock, StepWords};
use sx_key::Account;
use sx_run::{ServeWords, serve};

/// The moment at which the requests are signed, 2022-01-01T00:00:00Z.
pub(crate) const NOW: u64 = 16_409_952_000_000_000;

/// Signed requests for the account `acct` under the key `key`: they make a share, a file of four bytes, write `old!`
/// into it and read it. The last one closes the connection.
pub(crate) const FILE_REQUESTS: &[u8] =
    b"PUT /data?restype=share HTTP/1.1\r\nx-ms-date: Sat, 01 Jan 2022 00:00:00 GMT\r\n\
      x-ms-version: 2020-10-02\r\nContent-Length: 0\r\n\
      Authorization: SharedKey acct:Hm3iDpk0XpE8Qz1X1SM2zDr3qhyy6hF8k+ll4QtJa5I=\r\n\r\n\
      PUT /data/a.txt HTTP/1.1\r\nx-ms-date: Sat, 01 Jan 2022 00:00:00 GMT\r\n\
      x-ms-version: 2020-10-02\r\nContent-Length: 0\r\nx-ms-type: file\r\nx-ms-content-length: 4\r\n\
      x-ms-file-permission: inherit\r\nx-ms-file-attributes: none\r\nx-ms-file-creation-time: now\r\n\
      x-ms-file-last-write-time: now\r\n\
      Authorization: SharedKey acct:vImSkc2+95A+6u0slTxIpTv4RehAHrjrN9pzcEi6Kpc=\r\n\r\n\
      PUT /data/a.txt?comp=range HTTP/1.1\r\nx-ms-date: Sat, 01 Jan 2022 00:00:00 GMT\r\n\
      x-ms-version: 2020-10-02\r\nContent-Length: 4\r\nx-ms-range: bytes=0-3\r\nx-ms-write: update\r\n\
      Authorization: SharedKey acct:gYyI//hIlhaFaBwYSsrGmXWZNdv+Q/+3TfCKgDokTfw=\r\n\r\nold!\
      GET /data/a.txt HTTP/1.1\r\nx-ms-date: Sat, 01 Jan 2022 00:00:00 GMT\r\n\
      x-ms-version: 2020-10-02\r\nConnection: close\r\n\
      Authorization: SharedKey acct:AMjhWUQzLFnHM6YkesIotWae2N/N3HbGk/zPw9xFPqg=\r\n\r\n";

/// A listing of the shares, signed.
pub(crate) const LISTING: &[u8] =
    b"GET /?comp=list HTTP/1.1\r\nx-ms-date: Sat, 01 Jan 2022 00:00:00 GMT\r\n\
      x-ms-version: 2020-10-02\r\n\
      Authorization: SharedKey acct:DGRnMuofoF/9eYEegXv1fxmhppeo80ZGcoTLZf2gQ9g=\r\n\r\n";

/// How the service is to be begun: its ports, the workers of each door, the most links of each, and the history's
/// limit.
#[derive(Clone, Copy)]
pub(crate) struct Size {
    pub(crate) rest_port: u16,
    pub(crate) smb_port: u16,
    pub(crate) workers: u32,
    pub(crate) conns: u32,
    pub(crate) limit: u32,
}

pub(crate) fn account(rt: &impl Abort, alloc: Global) -> Account {
    match Account::read(alloc, b"acct", b"a2V5") {
        Ok(account) => account,
        Err(_) => panic!(rt; "no account"),
    }
}

/// Serves, at the moment at which the requests are signed, and gives the status.
pub(crate) fn status<R: Abort + Threads + Wait + Sync, K: Sink, L: Listener>(
    rt: &R,
    alloc: Global,
    size: Size,
    out: &mut K,
    rest: &mut L,
    smb: &mut L,
) -> u8
where
    L::Link: Send,
{
    assert!(rt; 1 <= size.workers && size.workers <= 30);
    let words = ServeWords {
        rest_port: size.rest_port,
        smb_port: size.smb_port,
        rest_workers: size.workers,
        smb_workers: size.workers,
        conns: size.conns,
        limit: size.limit,
        account: account(rt, alloc),
    };
    let mut clock = StepClock { at: NOW, step: 0 };
    let mut random = StepWords { at: 0 };
    serve(alloc, rt, &words, out, rest, smb, &mut clock, &mut random)
}

/// A link over these bytes, of which a read gives seven.
pub(crate) fn link(rt: &impl Abort, alloc: Global, bytes: &[u8]) -> MemLink {
    match Vec::from_slice(alloc, bytes) {
        Ok(bytes) => MemLink {
            source: MemSource::new(bytes, 7, Vec::new(alloc)),
            sink: MemSink::new(alloc, Vec::new(alloc)),
            peer: 7,
        },
        Err(_) => panic!(rt; "no memory"),
    }
}

/// A listener with a link over each of these.
pub(crate) fn listener(rt: &impl Abort, alloc: Global, inputs: &[&[u8]]) -> MemListener {
    let mut links = Vec::new(alloc);
    for input in inputs {
        assert!(rt; links.push(link(rt, alloc, input)).is_ok());
    }
    match MemListener::new(alloc, links) {
        Ok(listener) => listener,
        Err(_) => panic!(rt; "no memory"),
    }
}
