//! The adapters over readers and writers of std, and over the system's clock and random source.
use std::io;
use std::io::{Cursor, Read};
use sx_base::{
    Clock, Failed, GREATEST_MOMENT, Input, Output, Random, Sink, Source, SystemClock, SystemRandom,
};

/// 2020-01-01T00:00:00Z, which is 1,577,836,800 seconds after 1970.
const START_OF_2020: u64 = 15_778_368_000_000_000;

/// A reader whose every read fails.
#[derive(Drop)]
struct Broken;

impl Read for Broken {
    fn read(&mut self, _into: &mut [u8]) -> io::Result<usize> {
        Err(io::ErrorKind::Other.into())
    }
}

#[test]
fn reads_from_a_reader_of_std(rt: HostRuntime) {
    let mut input = Input::new(b"abc".as_slice());
    let mut bytes = [0u8; 2];
    assert_eq!(rt; input.read(&mut bytes), Ok(2));
    assert_eq!(rt; bytes, *b"ab");
    assert_eq!(rt; input.read(&mut bytes), Ok(1));
    assert_eq!(rt; input.read(&mut bytes), Ok(0));
    assert_eq!(rt; input.read_faults(), 0);
    let mut broken = Input::new(Broken);
    assert_eq!(rt; broken.read(&mut bytes), Err(Failed));
    assert_eq!(rt; broken.read_faults(), 1);
}

/// A writer that has room for three bytes.
#[test]
fn writes_to_a_writer_of_std(rt: HostRuntime) {
    let mut output = Output::new(Cursor::new([0u8; 3]));
    assert_eq!(rt; output.put(b"abc"), Ok(()));
    assert_eq!(rt; output.write_faults(), 0);
    assert_eq!(rt; output.put(b"d"), Err(Failed));
    assert_eq!(rt; output.write_faults(), 1);
}

#[test]
fn moments_of_the_system(rt: HostRuntime) {
    let mut clock = SystemClock::new(rt);
    let first = clock.now();
    assert!(rt; START_OF_2020 < first && first <= GREATEST_MOMENT);
    let mut forked = clock.fork();
    assert!(rt; START_OF_2020 < forked.now());
}

/// The system's words, two of which are the same once in 2^64 times.
#[test]
fn words_of_the_system(rt: HostRuntime) {
    let mut words = SystemRandom::new(rt);
    let first = words.word();
    assert!(rt; first != words.word());
    assert!(rt; first != words.fork().word());
}
