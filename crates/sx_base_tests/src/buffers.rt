//! A buffer that is filled from a source in single bytes and in pieces, past its first room.
use std::alloc::Global;
use std::process::Abort;
use sx_base::{Buffer, MemSource, Refill};

/// How many bytes the source has.
const COUNT: usize = 40_000;

/// A source of bytes that count up, as many a call as are asked for.
fn a_source(rt: &impl Abort, alloc: Global, chunk: usize) -> MemSource {
    let mut bytes = Vec::new(alloc);
    for number in 0..COUNT {
        if bytes.push((number % 251) as u8).is_err() {
            panic!(rt; "no memory");
        }
    }
    MemSource::new(bytes, chunk, Vec::new(alloc))
}

/// Reads to the end, and takes a third of what is held off the front after each read. Gives how many bytes were taken
/// and held, and whether each was the one that counts on.
fn counts_on(buffer: &mut Buffer, source: &mut MemSource) -> (usize, bool) {
    let mut taken = 0;
    let mut counts = true;
    for _ in 0..2 * COUNT {
        if buffer.refill(source, 16_384) != Refill::More {
            return (buffer.held().len().saturating_add(taken), counts);
        }
        let third = buffer.held().len() / 3;
        if third > 0 {
            counts = counts && buffer.held()[0] as usize == taken % 251;
            buffer.take(third);
            taken = taken.saturating_add(third);
        }
    }
    (0, false)
}

#[test]
fn holds_what_was_read(rt: HostRuntime) {
    for chunk in [1, 7, 1_000, COUNT] {
        let mut source = a_source(&rt, rt.alloc(), chunk);
        let mut buffer = Buffer::new(rt.alloc());
        assert_eq!(rt; counts_on(&mut buffer, &mut source), (COUNT, true));
    }
}
