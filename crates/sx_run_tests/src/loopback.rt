//! The service over real sockets: a client in another thread reads the ports off its first lines, and dials them.

use crate::common::{FILE_REQUESTS, Size, status};
use crate::ports::{PortSink, Ports};
use std::alloc::Global;
use std::process::Abort;
use std::sync::Wait;
use std::thread::{Threads, join_mut};
use sx_base::{Dialer, Failed, Listener, LoopbackDialer, LoopbackListener, Sink, Source};

/// The most reads of one answer.
const READS: u32 = 10_000;

/// The head of a request whose body is longer than is allowed.
const LONG_HEAD: &[u8] = b"PUT /data/a.txt?comp=range HTTP/1.1\r\nContent-Length: 4194305\r\n\r\n";

/// What it is answered.
const LONG_ANSWER: &[u8] =
    b"HTTP/1.1 413 Payload Too Large\r\nx-ms-request-id: 00000000-0000-0000-0000-000000000000\r\n\
      x-ms-version: 2020-10-02\r\nDate: Sat, 01 Jan 2022 00:00:00 GMT\r\n\
      x-ms-error-code: RequestBodyTooLarge\r\nContent-Type: application/xml\r\n\
      Content-Length: 116\r\nConnection: close\r\n\r\n\
      <?xml version=\"1.0\" encoding=\"utf-8\"?><Error><Code>RequestBodyTooLarge</Code>\
      <Message>body 4194305</Message></Error>";

/// The service's listeners, and its status once it ended.
#[derive(Drop)]
struct Service<L> {
    rest: L,
    smb: L,
    status: u8,
}

/// Serves one link at each door, at free ports, which are handed on.
fn serve_one<R: Abort + Threads + Wait + Sync, L: Listener>(
    rt: &R,
    alloc: Global,
    ports: &Ports,
    service: &mut Service<L>,
)
where
    L::Link: Send,
{
    let mut out = PortSink::new(alloc, ports);
    let size = Size {
        rest_port: 0,
        smb_port: 0,
        workers: 1,
        conns: 1,
        limit: 100,
    };
    service.status = status(
        rt,
        alloc,
        size,
        &mut out,
        &mut service.rest,
        &mut service.smb,
    );
}

/// What a client sends at both doors, so many pieces of a body behind the first, and how the answers begin and end.
#[derive(Clone, Copy)]
struct Client {
    requests: &'static [u8],
    pieces: u32,
    begins: &'static [u8],
    ends: &'static [u8],
    lines: &'static [u8],
    answers: &'static [u8],
}

fn dialed<R: Abort, D: Dialer>(rt: &R, dialer: &mut D, port: u16) -> D::Link {
    match dialer.dial(port) {
        Ok(link) => link,
        Err(Failed) => panic!(rt; "no listener at this port"),
    }
}

/// Sends so many pieces of 4,096 bytes of 7.
fn send_more<R: Abort, K: Sink>(rt: &R, link: &mut K, pieces: u32) {
    let piece = [7u8; 4096];
    for _ in 0..pieces {
        assert_eq!(rt; link.put(&piece), Ok(()));
    }
}

/// Reads an answer to its end.
fn read_all<R: Abort, S: Source>(rt: &R, alloc: Global, link: &mut S) -> Vec<u8> {
    let mut answer = Vec::new(alloc);
    let mut piece = [0u8; 4096];
    for _ in 0..READS {
        match link.read(&mut piece) {
            Ok(0) => return answer,
            Ok(count) => assert!(rt; answer.extend_from_slice(&piece[..count]).is_ok()),
            Err(Failed) => panic!(rt; "a read failed"),
        }
    }
    panic!(rt; "an answer without an end")
}

/// Sends a text and pieces of a body, and gives the answer.
fn asked<R: Abort, D: Dialer>(
    rt: &R,
    alloc: Global,
    dialer: &mut D,
    port: u16,
    text: &[u8],
    pieces: u32,
) -> Vec<u8> {
    let mut link = dialed(rt, dialer, port);
    assert_eq!(rt; link.put(text), Ok(()));
    send_more(rt, &mut link, pieces);
    read_all(rt, alloc, &mut link)
}

/// Asks at one door, and then at the other.
fn ask_both<R: Abort, D: Dialer>(
    rt: &R,
    alloc: Global,
    ports: &Ports,
    client: Client,
    dialer: &mut D,
) {
    let pair = ports.told(rt);
    let answer = asked(rt, alloc, dialer, pair.rest, client.requests, client.pieces);
    assert!(rt; answer.starts_with(client.begins));
    assert!(rt; answer.ends_with(client.ends));
    let answers = asked(rt, alloc, dialer, pair.smb, client.lines, 0);
    assert_eq!(rt; answers.as_slice(), client.answers);
}

/// Lets a service and a client run at once. The service ends with 0.
fn meet<R: Abort + Threads + Wait + Sync, L: Listener, D: Dialer + Send>(
    rt: &R,
    alloc: Global,
    client: Client,
    service: &mut Service<L>,
    dialer: &mut D,
)
where
    L::Link: Send,
{
    let ports = Ports::new();
    join_mut(
        rt,
        &mut || serve_one(rt, alloc, &ports, service),
        &mut || ask_both(rt, alloc, &ports, client, dialer),
    );
    assert_eq!(rt; service.status, 0);
    assert_eq!(rt; dialer.dial_faults(), 0);
}

/// Signed requests make and read a file, and a session reads it, too.
#[test]
fn clients_of_both_doors_are_served(rt: HostRuntime) {
    let mut service = Service {
        rest: LoopbackListener::new(rt),
        smb: LoopbackListener::new(rt),
        status: 255,
    };
    let client = Client {
        requests: FILE_REQUESTS,
        pieces: 0,
        begins: b"HTTP/1.1 201 Created\r\nx-ms-request-id: 00000000-0000-0000-0000-000000000001\r\n",
        ends: b"\r\nContent-Length: 4\r\nConnection: close\r\n\r\nold!",
        lines: b"open data a.txt r rwd existing file\nread 1 0 4\nquit\n",
        answers: b"OK 6 open 1 opened 2 4\nOK 7 read 4 6f6c6421\nOK 8 end 1\n",
    };
    let mut dialer = LoopbackDialer::new(rt);
    meet(&rt, rt.alloc(), client, &mut service, &mut dialer);
}

/// A request whose body is too long is refused while its bytes still come, and its client reads the whole answer.
#[test]
fn a_refusal_is_read_behind_a_body_that_still_comes(rt: HostRuntime) {
    let mut service = Service {
        rest: LoopbackListener::new(rt),
        smb: LoopbackListener::new(rt),
        status: 255,
    };
    let client = Client {
        requests: LONG_HEAD,
        pieces: 64,
        begins: LONG_ANSWER,
        ends: LONG_ANSWER,
        lines: b"quit\n",
        answers: b"OK 2 end 0\n",
    };
    let mut dialer = LoopbackDialer::new(rt);
    meet(&rt, rt.alloc(), client, &mut service, &mut dialer);
}
