//! What is listed and counted of files after some steps.
use std::alloc::Global;
use std::process::Abort;
use sx_extent::{FILE_LIMIT, PIECE_LIMIT, Piece, Ranges, Span, Spans};

/// What is done to a file.
#[derive(Clone, Copy)]
pub enum Step {
    /// So many bytes of value 7 are written from a place on, inside the file.
    Update(u64, usize),
    /// So many bytes of value 7 are written from a place on, and the file grows where it ends before them.
    Write(u64, usize),
    /// An interval is cleared.
    Clear(u64, u64),
    /// The length is set.
    Resize(u64),
}

use Step::{Clear, Resize, Update, Write};

/// A piece of so many bytes of value 7.
pub fn sevens(rt: &impl Abort, alloc: Global, count: usize) -> Piece {
    assert!(rt; 0 < count && count <= PIECE_LIMIT);
    match vec![in alloc; 7u8; count] {
        Ok(bytes) => match Piece::of(alloc, bytes) {
            Ok(piece) => piece,
            Err(_) => panic!(rt; "no memory"),
        },
        Err(_) => panic!(rt; "no memory"),
    }
}

/// Updates or writes a piece of sevens.
fn put(rt: &impl Abort, alloc: Global, file: &mut Ranges, at: u64, count: usize, grows: bool) {
    let length = if grows { FILE_LIMIT } else { file.length() };
    let piece = sevens(rt, alloc, count);
    let room = piece.bytes().len() as u64;
    assert!(rt; length <= file.length() || grows);
    assert!(rt; at <= length && room <= length - at);
    let done = if grows {
        file.write(at, &piece)
    } else {
        file.update(at, &piece)
    };
    assert!(rt; done.is_ok());
}

/// Makes a step in a file, and says that it finds memory.
pub fn take(rt: &impl Abort, alloc: Global, file: &mut Ranges, step: Step) {
    match step {
        Update(at, count) => put(rt, alloc, file, at, count, false),
        Write(at, count) => put(rt, alloc, file, at, count, true),
        Clear(from, end) => {
            assert!(rt; from <= end && end <= file.length());
            assert!(rt; file.clear(from, end).is_ok());
        }
        Resize(length) => {
            assert!(rt; length <= FILE_LIMIT);
            assert!(rt; file.resize(length).is_ok());
        }
    }
}

/// What is listed of a whole file.
fn listing(rt: &impl Abort, file: &Ranges) -> Spans {
    match file.marked(0, file.length()) {
        Ok(spans) => spans,
        Err(_) => panic!(rt; "no memory"),
    }
}

/// Compares what is listed of a file with what is wanted.
fn compare(rt: &impl Abort, file: &Ranges, wanted: &[(u64, u64)]) {
    let spans = listing(rt, file);
    assert_eq!(rt; spans.len(), wanted.len());
    for (span, (from, end)) in spans.as_slice().iter().zip(wanted) {
        let found: Span = *span;
        assert_eq!(rt; found.from, *from);
        assert_eq!(rt; found.end, *end);
    }
}

/// A file after some steps, what is listed of it and how many granules are marked.
struct Case {
    length: u64,
    steps: &'static [Step],
    listed: &'static [(u64, u64)],
    used: u64,
}

const CASES: [Case; 9] = [
    Case {
        length: FILE_LIMIT,
        steps: &[Update(4_398_046_511_103, 1)],
        listed: &[(4_398_046_510_592, 4_398_046_511_104)],
        used: 1,
    },
    Case {
        length: FILE_LIMIT,
        steps: &[
            Update(0, 513),
            Update(4_398_046_511_103, 1),
            Clear(0, 4_398_046_511_103),
        ],
        listed: &[(4_398_046_510_592, 4_398_046_511_104)],
        used: 1,
    },
    Case {
        length: FILE_LIMIT,
        steps: &[Update(4_398_046_511_103, 1), Clear(0, FILE_LIMIT)],
        listed: &[],
        used: 0,
    },
    Case {
        length: 2_048,
        steps: &[Update(0, 2_048), Clear(100, 1_200)],
        listed: &[(0, 512), (1_024, 2_048)],
        used: 3,
    },
    Case {
        length: 513,
        steps: &[Update(512, 1)],
        listed: &[(512, 513)],
        used: 1,
    },
    Case {
        length: 513,
        steps: &[Update(512, 1), Clear(512, 513)],
        listed: &[],
        used: 0,
    },
    Case {
        length: 2_000,
        steps: &[Update(0, 2_000), Resize(700), Resize(2_000)],
        listed: &[(0, 1_024)],
        used: 2,
    },
    Case {
        length: 0,
        steps: &[Write(1_000, 100)],
        listed: &[(512, 1_100)],
        used: 2,
    },
    Case {
        length: 600,
        steps: &[Write(590, 20), Write(0, 1)],
        listed: &[(0, 610)],
        used: 2,
    },
];

/// Says what a case says.
fn row(rt: &impl Abort, alloc: Global, case: &Case) {
    assert!(rt; case.length <= FILE_LIMIT);
    let mut file = Ranges::new(alloc, case.length);
    for step in case.steps {
        take(rt, alloc, &mut file, *step);
    }
    compare(rt, &file, case.listed);
    assert_eq!(rt; file.used(), case.used);
}

#[test]
fn lists_and_counts_marks(rt: HostRuntime) {
    for case in &CASES {
        row(&rt, rt.alloc(), case);
    }
}

/// A file of 4 TiB in which 1,000 granules far apart are marked, and the last one.
fn spread(rt: &impl Abort, alloc: Global) -> Ranges {
    let mut file = Ranges::new(alloc, FILE_LIMIT);
    for k in 0..1_000 {
        take(rt, alloc, &mut file, Update(k * 4_398_046_511, 1));
    }
    take(rt, alloc, &mut file, Update(FILE_LIMIT - 1, 1));
    file
}

#[test]
fn clears_a_thousand_spread_granules(rt: HostRuntime) {
    let mut file = spread(&rt, rt.alloc());
    assert_eq!(rt; file.used(), 1_001);
    assert_eq!(rt; file.length(), FILE_LIMIT);
    assert_eq!(rt; file.fresh(0, FILE_LIMIT), 8_589_933_591);
    take(&rt, rt.alloc(), &mut file, Clear(0, FILE_LIMIT - 1));
    compare(&rt, &file, &[(FILE_LIMIT - 512, FILE_LIMIT)]);
}
