//! Requests cut in pieces, refusals of heads, and faults, with ample memory.
use std::alloc::Global;
use std::process::Abort;
use sx_base::{MemSink, MemSource};
use sx_http::{Head, HeadFacts, Long, Next, Reader, Version, print_head, read_head};

/// What a reader is to answer.
#[derive(Clone, Copy)]
enum Told {
    /// A request with this target and body.
    Whole(&'static [u8], &'static [u8]),
    End,
    Cut(u64),
    BadHead(u64),
    NoLength(u64, HeadFacts),
    BadLength(u64, HeadFacts),
    TooLong(u64, Long, u64, HeadFacts),
    Spent,
    Fault,
}

fn is_told(next: &Next, wanted: Told) -> bool {
    match wanted {
        Told::Whole(target, body) => match next {
            Next::Whole(request) => {
                request.head.target.bytes() == target && request.body.as_slice() == body
            }
            _ => false,
        },
        Told::End => matches!(next, Next::End),
        Told::Cut(count) => match next {
            Next::Cut { left } => *left == count,
            _ => false,
        },
        Told::Spent => matches!(next, Next::Spent),
        Told::Fault => matches!(next, Next::ReadFault),
        refusal => is_refused(next, refusal),
    }
}

fn is_refused(next: &Next, wanted: Told) -> bool {
    match wanted {
        Told::BadHead(place) => match next {
            Next::BadHead { at } => *at == place,
            _ => false,
        },
        Told::NoLength(place, whose) => match next {
            Next::NoLength { at, facts } => *at == place && *facts == whose,
            _ => false,
        },
        Told::BadLength(place, whose) => match next {
            Next::BadLength { at, facts } => *at == place && *facts == whose,
            _ => false,
        },
        Told::TooLong(place, limit, count, whose) => match next {
            Next::TooLong { at, what, n, facts } => {
                *at == place && *what == limit && *n == count && *facts == whose
            }
            _ => false,
        },
        _ => false,
    }
}

const PLAIN: HeadFacts = HeadFacts {
    head_only: false,
    version: None,
};

const HEAD_ONLY: HeadFacts = HeadFacts {
    head_only: true,
    version: None,
};

const NEWER: HeadFacts = HeadFacts {
    head_only: false,
    version: Some(Version::V20210410),
};

/// What a reader with a budget answers over these bytes, in pieces of any size, and how many it tells to have taken.
struct Script {
    bytes: &'static [u8],
    budget: u64,
    told: &'static [Told],
    taken: u64,
}

const SCRIPTS: [Script; 27] = [
    Script {
        bytes: b"GET /a HTTP/1.1\r\n\r\nPUT /b HTTP/1.1\r\nContent-Length: 3\r\n\r\nabc\
            PUT /c HTTP/1.0\nContent-Length: 2\n\nx",
        budget: 1_000_000,
        told: &[
            Told::Whole(b"/a", b""),
            Told::Whole(b"/b", b"abc"),
            Told::Cut(36),
            Told::End,
        ],
        taken: 96,
    },
    Script {
        bytes: b"",
        budget: 1_000_000,
        told: &[Told::End, Told::End],
        taken: 0,
    },
    Script {
        bytes: b"GET / HTTP/1.1\r\n\r\n\r\n",
        budget: 1_000_000,
        told: &[Told::Whole(b"/", b""), Told::Cut(2)],
        taken: 20,
    },
    Script {
        bytes: b"GET / HTTP/1.1\r\n\r\n(",
        budget: 1_000_000,
        told: &[Told::Whole(b"/", b""), Told::BadHead(18), Told::End],
        taken: 18,
    },
    Script {
        bytes: b"\r\n\nGET / HTTP/1.1\r\n\r\n",
        budget: 1_000_000,
        told: &[Told::Whole(b"/", b""), Told::End],
        taken: 21,
    },
    Script {
        bytes: b"\r\n\r\n(",
        budget: 1_000_000,
        told: &[Told::BadHead(0), Told::End],
        taken: 0,
    },
    Script {
        bytes: b"GET / HTTP/1.1\r\na: b\r\n c\r\n\r\n",
        budget: 1_000_000,
        told: &[Told::BadHead(0), Told::End],
        taken: 0,
    },
    Script {
        bytes: b"GET / HTTP/1.1\r\na : b\r\n\r\n",
        budget: 1_000_000,
        told: &[Told::BadHead(0)],
        taken: 0,
    },
    Script {
        bytes: b"GET / HTTP/2.0\r\n\r\n",
        budget: 1_000_000,
        told: &[Told::BadHead(0)],
        taken: 0,
    },
    Script {
        bytes: b"GET /\xff HTTP/1.1\r\n\r\n",
        budget: 1_000_000,
        told: &[Told::BadHead(0)],
        taken: 0,
    },
    Script {
        bytes: b"GET /\xff",
        budget: 1_000_000,
        told: &[Told::Cut(6)],
        taken: 6,
    },
    Script {
        bytes: b"GET / HTTP/1.1\r\na: \x01\r\n\r\n",
        budget: 1_000_000,
        told: &[Told::BadHead(0)],
        taken: 0,
    },
    Script {
        bytes: b"GET / HTTP/1.1\r\na: \xff\r\n\r\n",
        budget: 1_000_000,
        told: &[Told::Whole(b"/", b"")],
        taken: 24,
    },
    Script {
        bytes: b"PUT / HTTP/1.1\r\n\r\n",
        budget: 1_000_000,
        told: &[Told::NoLength(0, PLAIN), Told::End],
        taken: 0,
    },
    Script {
        bytes: b"PUT / HTTP/1.1\r\nX-Ms-Version: 2021-04-10\r\n\r\n",
        budget: 1_000_000,
        told: &[Told::NoLength(0, NEWER)],
        taken: 0,
    },
    Script {
        bytes: b"GET / HTTP/1.1\r\nTransfer-Encoding: chunked\r\n\r\n",
        budget: 1_000_000,
        told: &[Told::NoLength(0, PLAIN)],
        taken: 0,
    },
    Script {
        bytes: b"GET / HTTP/1.1\r\nContent-Length: 4\r\nContent-Length: 5\r\n\r\nabcde",
        budget: 1_000_000,
        told: &[Told::BadLength(0, PLAIN), Told::End],
        taken: 0,
    },
    Script {
        bytes: b"GET / HTTP/1.1\r\nContent-Length: 4\r\ncontent-length: 4\r\n\r\nabcd",
        budget: 1_000_000,
        told: &[Told::Whole(b"/", b"abcd"), Told::End],
        taken: 60,
    },
    Script {
        bytes: b"GET / HTTP/1.1\r\nContent-Length: 4\r\nContent-Length: 0000000000000000000000004\r\n\r\nabcd",
        budget: 1_000_000,
        told: &[Told::Whole(b"/", b"abcd"), Told::End],
        taken: 84,
    },
    Script {
        bytes: b"HEAD / HTTP/1.1\r\nContent-Length: \r\n\r\n",
        budget: 1_000_000,
        told: &[Told::BadLength(0, HEAD_ONLY)],
        taken: 0,
    },
    Script {
        bytes: b"GET / HTTP/1.1\r\nContent-Length: +4\r\n\r\n",
        budget: 1_000_000,
        told: &[Told::BadLength(0, PLAIN)],
        taken: 0,
    },
    Script {
        bytes: b"GET / HTTP/1.1\r\nContent-Length: 4, 4\r\n\r\n",
        budget: 1_000_000,
        told: &[Told::BadLength(0, PLAIN)],
        taken: 0,
    },
    Script {
        bytes: b"GET / HTTP/1.1\r\nContent-Length: 18446744073709551616\r\n\r\n",
        budget: 1_000_000,
        told: &[Told::BadLength(0, PLAIN)],
        taken: 0,
    },
    Script {
        bytes: b"GET / HTTP/1.1\r\nContent-Length: 18446744073709551615\r\n\r\n",
        budget: 1_000_000,
        told: &[Told::TooLong(0, Long::Body, 18_446_744_073_709_551_615, PLAIN)],
        taken: 0,
    },
    Script {
        bytes: b"HEAD / HTTP/1.1\r\nContent-Length: 4194305\r\n\r\n",
        budget: 1_000_000,
        told: &[
            Told::TooLong(0, Long::Body, 4_194_305, HEAD_ONLY),
            Told::End,
        ],
        taken: 0,
    },
    Script {
        bytes: b"GET /aaaaaaaaaaaaaaaaaaaaaaaaaaaaaaaaaaaaaaaaaaaaaaaaaaaa HTTP/1.1\r\n\r\n",
        budget: 30,
        told: &[Told::Spent, Told::End],
        taken: 30,
    },
    Script {
        bytes: b"GET / HTTP/1.1\r\n\r\n",
        budget: 18,
        told: &[Told::Whole(b"/", b""), Told::Spent],
        taken: 18,
    },
];

const CHUNKS: [usize; 6] = [1, 2, 3, 19, 40, 1000];

fn copy_of(rt: &impl Abort, alloc: Global, bytes: &[u8]) -> Vec<u8> {
    match Vec::from_slice(alloc, bytes) {
        Ok(bytes) => bytes,
        Err(_) => panic!(rt; "no memory"),
    }
}

fn calls(rt: &impl Abort, alloc: Global, failing: &[u64]) -> Vec<u64> {
    match Vec::from_slice(alloc, failing) {
        Ok(calls) => calls,
        Err(_) => panic!(rt; "no memory"),
    }
}

fn source_of(
    rt: &impl Abort,
    alloc: Global,
    bytes: &[u8],
    chunk: usize,
    failing: &[u64],
) -> MemSource {
    MemSource::new(copy_of(rt, alloc, bytes), chunk, calls(rt, alloc, failing))
}

/// One answer of a reader.
fn step(rt: &impl Abort, reader: &mut Reader, source: &mut MemSource, told: Told, chunk: usize) {
    assert!(rt; is_told(&reader.next(source), told), "in pieces of {chunk}");
}

/// The answers to a script in pieces of one size.
fn play(rt: &impl Abort, alloc: Global, script: &Script, chunk: usize) {
    let mut source = source_of(rt, alloc, script.bytes, chunk, &[]);
    let mut reader = Reader::new(alloc, script.budget);
    for told in script.told {
        step(rt, &mut reader, &mut source, *told, chunk);
    }
    assert_eq!(rt; reader.taken(), script.taken);
}

fn play_in_all_pieces(rt: &impl Abort, alloc: Global, script: &Script) {
    for chunk in &CHUNKS {
        play(rt, alloc, script, *chunk);
    }
}

#[test]
fn requests_are_the_same_in_any_pieces(rt: HostRuntime) {
    for script in &SCRIPTS {
        play_in_all_pieces(&rt, rt.alloc(), script);
    }
}

#[test]
fn a_cut_is_told_wherever_the_pieces_end(rt: HostRuntime) {
    for chunk in 1..100 {
        play(&rt, rt.alloc(), &SCRIPTS[0], chunk);
    }
}

const UPDATE: &[u8] = b"PUT / HTTP/1.1\r\nContent-Length: 3\r\n\r\nabc";

/// The answers where that read fails.
fn fail_at(rt: &impl Abort, alloc: Global, failing: u64) {
    let mut source = source_of(rt, alloc, UPDATE, 4, &[failing]);
    let mut reader = Reader::new(alloc, 100);
    step(rt, &mut reader, &mut source, Told::Fault, 4);
    step(rt, &mut reader, &mut source, Told::End, 4);
    assert_eq!(rt; reader.taken(), 0);
}

#[test]
fn a_failed_read_ends_the_reader(rt: HostRuntime) {
    for failing in 0..10 {
        fail_at(&rt, rt.alloc(), failing);
    }
}

/// The answer to bytes that are read in pieces of 65,536.
fn answers(rt: &impl Abort, alloc: Global, bytes: &[u8], told: Told) {
    let mut source = source_of(rt, alloc, bytes, 65_536, &[]);
    let mut reader = Reader::new(alloc, 10_000_000);
    step(rt, &mut reader, &mut source, told, 65_536);
}

fn add(rt: &impl Abort, bytes: &mut Vec<u8>, more: &[u8]) {
    if bytes.extend_from_slice(more).is_err() {
        panic!(rt; "no memory");
    }
}

/// So many bytes of one value.
fn fill(rt: &impl Abort, bytes: &mut Vec<u8>, count: usize) {
    for _ in 0..count {
        add(rt, bytes, b"a");
    }
}

/// The answer to so many bytes of a method.
fn method_of(rt: &impl Abort, alloc: Global, count: usize, told: Told) {
    let mut bytes = Vec::new(alloc);
    fill(rt, &mut bytes, count);
    answers(rt, alloc, &bytes, told);
}

/// The answer to a head of so many headers.
fn headers_of(rt: &impl Abort, alloc: Global, count: usize, told: Told) {
    let mut bytes = copy_of(rt, alloc, b"GET / HTTP/1.1\r\n");
    for _ in 0..count {
        add(rt, &mut bytes, b"a:\r\n");
    }
    add(rt, &mut bytes, b"\r\n");
    answers(rt, alloc, &bytes, told);
}

#[test]
fn heads_have_limits(rt: HostRuntime) {
    let long = Told::TooLong(0, Long::Head, 65_536, PLAIN);
    method_of(&rt, rt.alloc(), 65_535, Told::Cut(65_535));
    method_of(&rt, rt.alloc(), 65_536, long);
    method_of(&rt, rt.alloc(), 65_537, long);
    headers_of(&rt, rt.alloc(), 100, Told::Whole(b"/", b""));
    headers_of(
        &rt,
        rt.alloc(),
        101,
        Told::TooLong(0, Long::Headers, 101, PLAIN),
    );
}

/// A request with a body of 262,144 bytes, in pieces of one size.
fn long_body(rt: &impl Abort, alloc: Global, chunk: usize) {
    let mut bytes = copy_of(
        rt,
        alloc,
        b"PUT / HTTP/1.1\r\nContent-Length: 262144\r\n\r\n",
    );
    assert!(rt; bytes.resize(262_186, b'a').is_ok());
    let mut source = source_of(rt, alloc, &bytes, chunk, &[]);
    match Reader::new(alloc, 10_000_000).next(&mut source) {
        Next::Whole(request) => assert_eq!(rt; request.body.len(), 262_144),
        _ => panic!(rt; "no request"),
    }
}

#[test]
fn a_long_body_is_given(rt: HostRuntime) {
    long_body(&rt, rt.alloc(), 16_384);
    long_body(&rt, rt.alloc(), 1_000_000);
}

const TEXT: &[u8] = b"PUT /a?b=c HTTP/1.1\r\ncontent-length: 4\r\nx-ms-date: \xe9 x\r\n\r\n";

fn printed(rt: &impl Abort, alloc: Global, head: &Head) -> MemSink {
    let mut sink = MemSink::new(alloc, Vec::new(alloc));
    assert!(rt; print_head(&mut sink, head).is_ok());
    sink
}

fn reads_and_prints(rt: &impl Abort, alloc: Global, text: &[u8]) {
    match read_head(alloc, text) {
        Ok(Some(head)) => {
            assert_eq!(rt; printed(rt, alloc, &head).bytes(), TEXT);
            assert_eq!(rt; head.headers.len(), 2);
        }
        _ => panic!(rt; "no head"),
    }
}

fn is_no_head(rt: &impl Abort, alloc: Global, text: &[u8]) {
    match read_head(alloc, text) {
        Ok(None) => {}
        _ => panic!(rt; "a head"),
    }
}

#[test]
fn a_head_is_read_and_printed(rt: HostRuntime) {
    let text = b"PUT /a?b=c HTTP/1.1\nContent-LENGTH:4\r\nX-Ms-Date:  \xe9 x \r\n\r\n";
    reads_and_prints(&rt, rt.alloc(), text.as_slice());
    is_no_head(&rt, rt.alloc(), b"GET / HTTP/1.1\r\n\r\nx");
}
