//! The ports that the service tells, handed from its output to another thread.
ghost use Rattle.std.specs.Prelude.{⊤};

use std::alloc::Global;
use std::process::Abort;
use std::sync::atomic::AtomicU64;
use std::sync::atomic::Ordering::SeqCst;
use std::thread;
use sx_base::{Failed, MemSink, Sink};

/// How often a wait looks before it is given up.
const MOST_LOOKS: u64 = 50_000_000;

/// The ports of both doors in one word, which is 0 until they were told.
#[derive(Drop)]
pub(crate) struct Ports {
    word: AtomicU64,
}

/// The ports of both doors.
#[derive(Clone, Copy)]
pub(crate) struct Pair {
    pub(crate) rest: u16,
    pub(crate) smb: u16,
}

impl Ports {
    pub(crate) fn new() -> Ports {
        Ports {
            word: AtomicU64::new(0),
        }
    }

    /// Takes the ports from the lines that tell them. Other bytes are passed over.
    fn take(&self, bytes: &[u8]) {
        if let Some(pair) = pair_of(bytes) {
            let word = u64::from(pair.rest) * 65_536 + u64::from(pair.smb);
            self.word.store(word, SeqCst);
        }
    }

    /// The ports, once they were told.
    pub(crate) fn told(&self, rt: &impl Abort) -> Pair {
        for _ in 0..MOST_LOOKS {
            let word = self.word.load(SeqCst);
            if word != 0 {
                return Pair {
                    rest: port_of(word / 65_536),
                    smb: port_of(word),
                };
            }
            thread::yield_now();
        }
        panic!(rt; "no ports were told")
    }
}

/// The low 16 bits of a word.
fn port_of(word: u64) -> u16 {
    (word % 65_536) as u16
}

/// The ports that the two lines tell.
fn pair_of(bytes: &[u8]) -> Option<Pair> {
    let text = str::from_utf8(bytes).ok()?;
    let (rest, smb) = text
        .strip_prefix("rest ")?
        .strip_suffix("\n")?
        .split_once("\nsmb ")?;
    Some(Pair {
        rest: rest.parse().ok()?,
        smb: smb.parse().ok()?,
    })
}

/// A sink into memory that hands the ports on once they stand there.
#[derive(Drop)]
pub(crate) struct PortSink<'a> {
    out: MemSink,
    ports: &'a Ports,
}

impl<'a> PortSink<'a> {
    pub(crate) fn new(alloc: Global, ports: &'a Ports) -> PortSink<'a> {
        PortSink {
            out: MemSink::new(alloc, Vec::new(alloc)),
            ports,
        }
    }
}

impl<'a> Sink for PortSink<'a> {
    ghost wrote = { λ s bytes. ⟦<MemSink as Sink>⟧.wrote s.out bytes };

    ghost write_count = { λ s. ⟦<MemSink as Sink>⟧.write_count s.out };

    ghost puts = { λ _ _. ⊤ };

    fn put(&mut self, bytes: &[u8]) -> Result<(), Failed> {
        let result = self.out.put(bytes);
        self.ports.take(self.out.bytes());
        result
    }

    fn write_faults(&self) -> u64 {
        self.out.write_faults()
    }

    ghost puts_none = { λ _. tt };

    ghost puts_more = { λ _ _ _ _ _. tt };
}
