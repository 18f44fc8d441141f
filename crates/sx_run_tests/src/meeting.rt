//! Links that wait for one another, and a listener that gives them.
//!
//! Of each link one put is marked, the first that begins with certain bytes. It is counted as it begins and as it
//! ends. It can wait until so many have begun and so many have ended, and so can the link's first read. A wait that
//! comes to no end is given up, and with it all others.
ghost use Rattle.std.specs.Prelude.{◌≡◌, None};

use std::alloc::Global;
use std::sync::atomic::AtomicU64;
use std::sync::atomic::Ordering::SeqCst;
use std::thread;
use sx_base::{Failed, Link, Listener, MemLink, MemSink, MemSource, Sink, Source};

/// How often a wait looks before it is given up.
const MOST_LOOKS: u64 = 50_000_000;

/// What has come so far.
#[derive(Drop)]
pub(crate) struct Meeting {
    begun: AtomicU64,
    ended: AtomicU64,
    given_up: AtomicU64,
    answered: AtomicU64,
}

/// How many marked puts have begun, how many have ended, how many waits were given up, and how many links were
/// finished with the answers that they were to have.
#[derive(Clone, Copy, Debug, PartialEq, Eq)]
pub(crate) struct Met {
    pub(crate) begun: u64,
    pub(crate) ended: u64,
    pub(crate) given_up: u64,
    pub(crate) answered: u64,
}

impl Meeting {
    pub(crate) fn new() -> Meeting {
        Meeting {
            begun: AtomicU64::new(0),
            ended: AtomicU64::new(0),
            given_up: AtomicU64::new(0),
            answered: AtomicU64::new(0),
        }
    }

    pub(crate) fn met(&self) -> Met {
        Met {
            begun: self.begun.load(SeqCst),
            ended: self.ended.load(SeqCst),
            given_up: self.given_up.load(SeqCst),
            answered: self.answered.load(SeqCst),
        }
    }

    fn has_come(&self, wanted: Wanted) -> bool {
        self.begun.load(SeqCst) >= wanted.begun && self.ended.load(SeqCst) >= wanted.ended
    }

    /// Waits until so many have come, or any wait is given up.
    fn wait_for(&self, wanted: Wanted) {
        for _ in 0..MOST_LOOKS {
            if self.has_come(wanted) || self.given_up.load(SeqCst) > 0 {
                return;
            }
            thread::yield_now();
        }
        self.given_up.fetch_add(1, SeqCst);
    }
}

/// How many marked puts are waited for.
#[derive(Clone, Copy)]
pub(crate) struct Wanted {
    pub(crate) begun: u64,
    pub(crate) ended: u64,
}

/// None.
pub(crate) const NONE: Wanted = Wanted { begun: 0, ended: 0 };

/// What a link is given, what its answers end with, how its marked put begins, and what its first read and its marked
/// put wait for.
#[derive(Clone, Copy)]
pub(crate) struct Part {
    pub(crate) input: &'static [u8],
    pub(crate) answers: &'static [u8],
    pub(crate) mark: &'static [u8],
    pub(crate) read: Wanted,
    pub(crate) put: Wanted,
}

/// A link that takes its part in a meeting.
#[derive(Drop)]
pub(crate) struct MeetingLink<'a, L> {
    link: L,
    meeting: &'a Meeting,
    part: Part,
    has_read: bool,
    has_put: bool,
}

impl<'a, L: Link> Source for MeetingLink<'a, L> {
    ghost left = { λ m. L.left m.link };

    ghost read_count = { λ m. L.read_count m.link };

    ghost reads = { λ a b. L.reads a.link b.link };

    fn read(&mut self, into: &mut [u8]) -> Result<usize, Failed> {
        if !self.has_read {
            self.has_read = true;
            self.meeting.wait_for(self.part.read);
        }
        self.link.read(into)
    }

    fn read_faults(&self) -> u64 {
        self.link.read_faults()
    }

    ghost reads_none = { λ a. L.reads_none a.link };

    ghost reads_more = { λ a b c h k. L.reads_more a.link b.link c.link h k };
}

impl<'a, L: Link> Sink for MeetingLink<'a, L> {
    ghost wrote = { λ m bytes. L.wrote m.link bytes };

    ghost write_count = { λ m. L.write_count m.link };

    ghost puts = { λ a b. L.puts a.link b.link };

    fn put(&mut self, bytes: &[u8]) -> Result<(), Failed> {
        if self.has_put || !bytes.starts_with(self.part.mark) {
            return self.link.put(bytes);
        }
        self.has_put = true;
        self.meeting.begun.fetch_add(1, SeqCst);
        self.meeting.wait_for(self.part.put);
        let result = self.link.put(bytes);
        self.meeting.ended.fetch_add(1, SeqCst);
        result
    }

    fn write_faults(&self) -> u64 {
        self.link.write_faults()
    }

    ghost puts_none = { λ a. L.puts_none a.link };

    ghost puts_more = { λ a b c h k. L.puts_more a.link b.link c.link h k };
}

impl<'a, L: Link> Link for MeetingLink<'a, L> {
    ghost peer_of = { λ m. L.peer_of m.link };

    ghost calls = { λ a b. L.calls a.link b.link };

    fn peer(&self) -> u32 {
        self.link.peer()
    }

    ghost calls_none = { λ a. L.calls_none a.link };

    ghost calls_more = { λ a b c h k. L.calls_more a.link b.link c.link h k };

    ghost read_calls = { λ a b h. L.read_calls a.link b.link h };

    ghost put_calls = { λ a b h. L.put_calls a.link b.link h };

    ghost read_keeps = { λ a b h. record {
      written = (L.read_keeps a.link b.link h).written;
      faults = (L.read_keeps a.link b.link h).faults;
      peer = (L.read_keeps a.link b.link h).peer;
    } };

    ghost put_keeps = { λ a b h. record {
      rest = (L.put_keeps a.link b.link h).rest;
      faults = (L.put_keeps a.link b.link h).faults;
      peer = (L.put_keeps a.link b.link h).peer;
    } };
}

/// A listener that gives links without end, and so do its forks. It tells none of them.
#[derive(Drop)]
pub(crate) struct MeetingListener<'a> {
    alloc: Global,
    meeting: &'a Meeting,
    part: Part,
    faults: u64,
}

impl<'a> MeetingListener<'a> {
    pub(crate) fn new(alloc: Global, meeting: &'a Meeting, part: Part) -> MeetingListener<'a>
        ensures { result.faults ≡ 0 }
    {
        MeetingListener {
            alloc,
            meeting,
            part,
            faults: 0,
        }
    }
}

impl<'a> Listener for MeetingListener<'a> {
    type Link = MeetingLink<'a, MemLink>;

    ghost links = { λ _. None };

    ghost listen_count = { λ l. l.faults };

    fn bind(&mut self, port: u16) -> Result<u16, Failed> {
        Ok(port)
    }

    fn accept(&mut self) -> Result<Option<MeetingLink<'a, MemLink>>, Failed> {
        match Vec::from_slice(self.alloc, self.part.input) {
            Ok(bytes) => Ok(Some(MeetingLink {
                link: MemLink {
                    source: MemSource::new(bytes, 4096, Vec::new(self.alloc)),
                    sink: MemSink::new(self.alloc, Vec::new(self.alloc)),
                    peer: 7,
                },
                meeting: self.meeting,
                part: self.part,
                has_read: false,
                has_put: false,
            })),
            Err(_) => {
                self.faults = self.faults.saturating_add(1);
                Err(Failed)
            }
        }
    }

    fn finish(&mut self, link: MeetingLink<'a, MemLink>) {
        if link.link.sink.bytes().ends_with(self.part.answers) {
            self.meeting.answered.fetch_add(1, SeqCst);
        }
    }

    fn fork(&mut self) -> Result<Self, Failed> {
        Ok(MeetingListener::new(self.alloc, self.meeting, self.part))
    }

    fn rejoin(&mut self, fork: Self) {
        if fork.faults > 0 {
            self.faults = self.faults.saturating_add(1);
        }
    }

    fn listen_faults(&self) -> u64 {
        self.faults
    }
}
