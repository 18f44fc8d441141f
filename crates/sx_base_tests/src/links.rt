//! Links in memory, whose calls fail where they are told to, and the listeners and dialers that give them.
use std::alloc::Global;
use std::process::Abort;
use sx_base::{
    Both, Dialer, Failed, Link, Listener, MemDialer, MemLink, MemListener, MemSink, MemSource,
    Sink, Source,
};

/// A list of one number.
fn only(rt: &impl Abort, alloc: Global, number: u64) -> Vec<u64> {
    match vec![in alloc; number] {
        Ok(numbers) => numbers,
        Err(_) => panic!(rt; "no memory"),
    }
}

/// The bytes of a text, on the heap.
fn owned(rt: &impl Abort, alloc: Global, bytes: &[u8]) -> Vec<u8> {
    match Vec::from_slice(alloc, bytes) {
        Ok(bytes) => bytes,
        Err(_) => panic!(rt; "no memory"),
    }
}

/// A link with three bytes to read, two a call, whose second read and second put fail.
fn a_failing_link(rt: &impl Abort, alloc: Global) -> MemLink {
    MemLink {
        source: MemSource::new(owned(rt, alloc, &[1, 2, 3]), 2, only(rt, alloc, 1)),
        sink: MemSink::new(alloc, only(rt, alloc, 1)),
        peer: 0x7f00_0001,
    }
}

#[test]
fn reads_of_a_link_fail_where_they_are_told_to(rt: HostRuntime) {
    let mut link = a_failing_link(&rt, rt.alloc());
    let mut bytes = [0u8; 4];
    assert_eq!(rt; link.read(&mut bytes), Ok(2));
    assert_eq!(rt; link.read(&mut bytes), Err(Failed));
    assert_eq!(rt; link.read_faults(), 1);
    assert_eq!(rt; link.read(&mut bytes), Ok(1));
    assert_eq!(rt; link.read(&mut bytes), Ok(0));
    assert_eq!(rt; bytes, [3, 2, 0, 0]);
    assert_eq!(rt; link.peer(), 0x7f00_0001);
}

#[test]
fn puts_of_a_link_fail_where_they_are_told_to(rt: HostRuntime) {
    let mut link = a_failing_link(&rt, rt.alloc());
    assert_eq!(rt; link.put(b"ab"), Ok(()));
    assert_eq!(rt; link.put(b"cd"), Err(Failed));
    assert_eq!(rt; link.put(b"ef"), Ok(()));
    assert_eq!(rt; link.write_faults(), 1);
    assert_eq!(rt; link.read_faults(), 0);
    assert_eq!(rt; link.sink.bytes(), b"abef".as_slice());
}

#[test]
fn a_link_over_both_ends_passes_calls_on(rt: HostRuntime) {
    let mut link = a_failing_link(&rt, rt.alloc());
    let mut joined = Both {
        source: &mut link.source,
        sink: &mut link.sink,
        peer: 9,
    };
    let mut bytes = [0u8; 4];
    assert_eq!(rt; joined.read(&mut bytes), Ok(2));
    assert_eq!(rt; joined.read(&mut bytes), Err(Failed));
    assert_eq!(rt; joined.put(b"g"), Ok(()));
    assert_eq!(rt; joined.read_faults(), 1);
    assert_eq!(rt; joined.write_faults(), 0);
    assert_eq!(rt; joined.peer(), 9);
    assert_eq!(rt; link.sink.bytes(), b"g".as_slice());
}

/// A link with a byte to read, whose first put fails where that is asked for.
fn a_link(rt: &impl Abort, alloc: Global, byte: u8, fails: bool) -> MemLink {
    let failing = if fails {
        only(rt, alloc, 0)
    } else {
        Vec::new(alloc)
    };
    MemLink {
        source: MemSource::new(owned(rt, alloc, &[byte]), 1, Vec::new(alloc)),
        sink: MemSink::new(alloc, failing),
        peer: u32::from(byte),
    }
}

/// Two links, of which the second fails at its first put where that is asked for.
fn two_links(rt: &impl Abort, alloc: Global, fails: bool) -> Vec<MemLink> {
    match vec![in alloc; a_link(rt, alloc, 1, false), a_link(rt, alloc, 2, fails)] {
        Ok(links) => links,
        Err(_) => panic!(rt; "no memory"),
    }
}

fn a_listener(rt: &impl Abort, alloc: Global) -> MemListener {
    match MemListener::new(alloc, two_links(rt, alloc, false)) {
        Ok(listener) => listener,
        Err(_) => panic!(rt; "no memory"),
    }
}

fn a_dialer(rt: &impl Abort, alloc: Global) -> MemDialer {
    match MemDialer::new(alloc, two_links(rt, alloc, true)) {
        Ok(dialer) => dialer,
        Err(_) => panic!(rt; "no memory"),
    }
}

/// Answers each link that a listener gives with the byte that it reads, and tells how many there were.
fn echo_all<L: Listener>(listener: &mut L) -> u64 {
    for served in 0..100 {
        let Ok(Some(mut link)) = listener.accept() else {
            return served;
        };
        let mut byte = [0u8; 1];
        if link.read(&mut byte).is_ok() {
            let _put = link.put(&byte);
        }
        listener.finish(link);
    }
    100
}

/// How many links a fork of a listener gives, which is taken back then.
fn echoed_by_a_fork<L: Listener>(rt: &impl Abort, listener: &mut L) -> u64 {
    match listener.fork() {
        Ok(mut fork) => {
            let served = echo_all(&mut fork);
            listener.rejoin(fork);
            served
        }
        Err(Failed) => panic!(rt; "no fork"),
    }
}

/// Links of a listener in memory, which a fork of it hasn't.
#[test]
fn links_of_a_listener_in_memory(rt: HostRuntime) {
    let mut listener = a_listener(&rt, rt.alloc());
    assert_eq!(rt; listener.bind(80), Ok(80));
    assert_eq!(rt; echoed_by_a_fork(&rt, &mut listener), 0);
    assert_eq!(rt; listener.left().len(), 2);
    assert_eq!(rt; echo_all(&mut listener), 2);
    assert_eq!(rt; listener.left().len(), 0);
    assert_eq!(rt; listener.listen_faults(), 0);
    for (link, byte) in listener.finished().iter().zip([1u8, 2]) {
        assert_eq!(rt; link.sink.bytes(), [byte].as_slice());
        assert_eq!(rt; link.peer(), u32::from(byte));
    }
    assert_eq!(rt; listener.finished().len(), 2);
}

/// Dials, puts a byte to the link where there is one, and finishes it. The count of faults then.
fn dial_once<D: Dialer>(dialer: &mut D) -> u64 {
    match dialer.dial(80) {
        Ok(mut link) => {
            let _put = link.put(b"x");
            dialer.finish(link);
        }
        Err(Failed) => {}
    }
    dialer.dial_faults()
}

/// Links of a dialer in memory, the second of which fails at its first put.
#[test]
fn links_of_a_dialer_in_memory(rt: HostRuntime) {
    let mut dialer = a_dialer(&rt, rt.alloc());
    assert_eq!(rt; dial_once(&mut dialer), 0);
    assert_eq!(rt; dial_once(&mut dialer), 1);
    assert_eq!(rt; dial_once(&mut dialer), 2);
    assert_eq!(rt; dialer.left().len(), 0);
    assert_eq!(rt; dialer.finished().len(), 2);
}
