//! Readers of lines over pieces of several sizes, with failed reads, and at the limits.

use std::alloc::Global;
use std::process::Abort;
use sx_base::MemSource;
use sx_smb_door::{LineReader, NextLine};

/// What a reader is to answer.
#[derive(Clone, Copy)]
enum Told {
    Line(&'static [u8]),
    End,
    Cut(u64),
    Spent,
    Fault,
}

fn is_told(next: &NextLine, wanted: Told) -> bool {
    match wanted {
        Told::Line(bytes) => match next {
            NextLine::Line(line) => line.as_slice() == bytes,
            _ => false,
        },
        Told::End => match next {
            NextLine::End => true,
            _ => false,
        },
        Told::Cut(count) => match next {
            NextLine::Cut { left } => *left == count,
            _ => false,
        },
        Told::Spent => match next {
            NextLine::Spent => true,
            _ => false,
        },
        Told::Fault => match next {
            NextLine::ReadFault => true,
            _ => false,
        },
    }
}

/// What is read from some bytes, of which each read gives so many, and the read of one number fails.
struct Script {
    bytes: &'static [u8],
    chunk: usize,
    failing: u64,
    budget: u64,
    told: &'static [Told],
    taken: u64,
}

const NONE: u64 = 1_000;

const SCRIPTS: [Script; 9] = [
    Script {
        bytes: b"ab\n\ncd\r\n",
        chunk: 1,
        failing: NONE,
        budget: 100,
        told: &[
            Told::Line(b"ab"),
            Told::Line(b""),
            Told::Line(b"cd\r"),
            Told::End,
            Told::End,
        ],
        taken: 8,
    },
    Script {
        bytes: b"ab\n\ncd\r\n",
        chunk: 100,
        failing: NONE,
        budget: 100,
        told: &[
            Told::Line(b"ab"),
            Told::Line(b""),
            Told::Line(b"cd\r"),
            Told::End,
            Told::End,
        ],
        taken: 8,
    },
    Script {
        bytes: b"ab\ncd",
        chunk: 2,
        failing: NONE,
        budget: 100,
        told: &[Told::Line(b"ab"), Told::Cut(2), Told::Cut(2)],
        taken: 3,
    },
    Script {
        bytes: b"ab\ncd",
        chunk: 100,
        failing: NONE,
        budget: 4,
        told: &[Told::Line(b"ab"), Told::Spent, Told::Spent],
        taken: 3,
    },
    Script {
        bytes: b"ab\ncd",
        chunk: 100,
        failing: NONE,
        budget: 6,
        told: &[Told::Line(b"ab"), Told::Cut(2)],
        taken: 3,
    },
    Script {
        bytes: b"ab\ncd",
        chunk: 100,
        failing: NONE,
        budget: 5,
        told: &[Told::Line(b"ab"), Told::Spent],
        taken: 3,
    },
    Script {
        bytes: b"",
        chunk: 100,
        failing: NONE,
        budget: 0,
        told: &[Told::Spent],
        taken: 0,
    },
    Script {
        bytes: b"",
        chunk: 100,
        failing: NONE,
        budget: 1,
        told: &[Told::End],
        taken: 0,
    },
    Script {
        bytes: b"ab\ncd\n",
        chunk: 2,
        failing: 1,
        budget: 100,
        told: &[Told::Fault, Told::Line(b"ab"), Told::Line(b"cd"), Told::End],
        taken: 6,
    },
];

fn list<T: Copy>(rt: &impl Abort, alloc: Global, items: &[T]) -> Vec<T> {
    match Vec::from_slice(alloc, items) {
        Ok(items) => items,
        Err(_) => panic!(rt; "no memory"),
    }
}

fn source_of(rt: &impl Abort, alloc: Global, script: &Script) -> MemSource {
    let bytes = list(rt, alloc, script.bytes);
    MemSource::new(bytes, script.chunk, list(rt, alloc, &[script.failing]))
}

fn gives(reader: &mut LineReader, source: &mut MemSource, wanted: Told) -> bool {
    is_told(&reader.next(source), wanted)
}

fn plays(rt: &impl Abort, alloc: Global, script: &Script) -> bool {
    let mut source = source_of(rt, alloc, script);
    let mut reader = LineReader::new(alloc, script.budget);
    for told in script.told {
        if !gives(&mut reader, &mut source, *told) {
            return false;
        }
    }
    reader.taken() == script.taken
}

#[test]
fn readers_answer(rt: HostRuntime) {
    for (number, script) in SCRIPTS.iter().enumerate() {
        assert!(rt; plays(&rt, rt.alloc(), script), "at {number}");
    }
}

/// A source of a line of so many bytes, with its line feed.
fn long_source(rt: &impl Abort, alloc: Global, count: usize) -> MemSource {
    let Ok(mut bytes) = vec![in alloc; b'a'; count] else {
        panic!(rt; "no memory");
    };
    assert!(rt; bytes.push(b'\n').is_ok());
    MemSource::new(bytes, 65_536, Vec::new(alloc))
}

fn is_line_of(next: NextLine, wanted: usize) -> bool {
    match next {
        NextLine::Line(line) => line.len() == wanted,
        _ => false,
    }
}

fn is_long(next: NextLine, wanted: u64) -> bool {
    match next {
        NextLine::Long { at } => at == wanted,
        _ => false,
    }
}

/// A line of as many bytes as the limit is given; a longer one never.
#[test]
fn lines_have_a_limit(rt: HostRuntime) {
    let alloc = rt.alloc();
    let mut reader = LineReader::new(alloc, 1_099_511_627_776);
    let mut source = long_source(&rt, alloc, 2_097_408);
    assert!(rt; is_line_of(reader.next(&mut source), 2_097_408));
    assert_eq!(rt; reader.taken(), 2_097_409);
    let mut source = long_source(&rt, alloc, 2_097_409);
    for _ in 0..2 {
        assert!(rt; is_long(reader.next(&mut source), 2_097_409));
    }
}
