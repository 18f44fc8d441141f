//! A connection over the loopback, from its dial to its end, and the faults of ports.
use std::process::Abort;
use sx_base::{
    Dialer, Failed, Link, Listener, LoopbackDialer, LoopbackListener, Sink, Source, TcpLink,
};

/// Reads once from a link, and tells whether these bytes came.
fn came(link: &mut TcpLink, text: &[u8]) -> bool {
    let mut bytes = [0u8; 8];
    match link.read(&mut bytes) {
        Ok(count) => count <= 8 && &bytes[..count] == text,
        Err(Failed) => false,
    }
}

/// Takes the dialed link, reads `ping` from it and answers `pong!`, and finishes it.
fn answer_ping<L: Listener<Link = TcpLink>>(rt: &impl Abort, listener: &mut L) {
    match listener.accept() {
        Ok(Some(mut link)) => {
            assert!(rt; came(&mut link, b"ping"));
            assert_eq!(rt; link.put(b"pong!"), Ok(()));
            assert_eq!(rt; link.peer(), 0x7f00_0001);
            listener.finish(link);
        }
        _ => panic!(rt; "no dialed link"),
    }
}

/// Takes the dialed link by a fork of the listener.
fn answer_by_a_fork<L: Listener<Link = TcpLink>>(rt: &impl Abort, listener: &mut L) {
    match listener.fork() {
        Ok(mut fork) => {
            answer_ping(rt, &mut fork);
            listener.rejoin(fork);
        }
        Err(Failed) => panic!(rt; "no fork"),
    }
}

fn a_port<L: Listener>(rt: &impl Abort, listener: &mut L) -> u16 {
    match listener.bind(0) {
        Ok(port) => port,
        Err(Failed) => panic!(rt; "no free port"),
    }
}

fn a_link<D: Dialer>(rt: &impl Abort, dialer: &mut D, port: u16) -> D::Link {
    match dialer.dial(port) {
        Ok(link) => link,
        Err(Failed) => panic!(rt; "no listener at this port"),
    }
}

#[test]
fn a_connection_over_the_loopback(rt: HostRuntime) {
    let mut listener = LoopbackListener::new(rt);
    let mut dialer = LoopbackDialer::new(rt);
    let port = a_port(&rt, &mut listener);
    let mut dialed = a_link(&rt, &mut dialer, port);
    assert_eq!(rt; dialed.put(b"ping"), Ok(()));
    answer_by_a_fork(&rt, &mut listener);
    assert!(rt; came(&mut dialed, b"pong!"));
    assert!(rt; came(&mut dialed, b""));
    assert_eq!(rt; dialed.peer(), 0x7f00_0001);
    assert_eq!(rt; [dialed.read_faults(), dialed.write_faults()], [0, 0]);
    dialer.finish(dialed);
    assert_eq!(rt; dialer.dial_faults(), 0);
    assert_eq!(rt; listener.listen_faults(), 0);
}

/// A listener that isn't bound, a port that can't be dialed, and a port that is taken.
#[test]
fn faults_of_ports(rt: HostRuntime) {
    let mut listener = LoopbackListener::new(rt);
    assert!(rt; listener.accept().is_err());
    assert_eq!(rt; listener.listen_faults(), 1);
    let mut dialer = LoopbackDialer::new(rt);
    assert!(rt; dialer.dial(0).is_err());
    assert_eq!(rt; dialer.dial_faults(), 1);
    let port = a_port(&rt, &mut listener);
    let mut second = LoopbackListener::new(rt);
    assert_eq!(rt; second.bind(port), Err(Failed));
    listener.rejoin(second);
    assert_eq!(rt; listener.listen_faults(), 2);
}

/// A link that is finished with bytes unread, as after a request whose body is too long, has its answer read.
#[test]
fn an_answer_before_the_last_byte(rt: HostRuntime) {
    let mut listener = LoopbackListener::new(rt);
    let mut dialer = LoopbackDialer::new(rt);
    let port = a_port(&rt, &mut listener);
    let mut dialed = a_link(&rt, &mut dialer, port);
    let body = [7u8; 65_536];
    assert_eq!(rt; dialed.put(&body), Ok(()));
    match listener.accept() {
        Ok(Some(mut link)) => {
            assert_eq!(rt; link.put(b"pong!"), Ok(()));
            listener.finish(link);
        }
        _ => panic!(rt; "no dialed link"),
    }
    assert!(rt; came(&mut dialed, b"pong!"));
    assert!(rt; came(&mut dialed, b""));
    assert_eq!(rt; dialed.read_faults(), 0);
}
