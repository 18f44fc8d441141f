//! A listener of which one kind of call fails.
ghost use Rattle.std.specs.Prelude.{◌≡◌, None};

use sx_base::{Failed, Listener, MemLink};

/// A call of a listener.
#[derive(Clone, Copy, PartialEq, Eq)]
pub(crate) enum Call {
    Bind,
    Fork,
    Accept,
}

/// A listener of which each call of one kind fails. It tells no links, and has none: an accept fails whatever the kind.
#[derive(Drop)]
pub(crate) struct FailingListener {
    failing: Call,
    faults: u64,
}

impl FailingListener {
    pub(crate) fn new(failing: Call) -> FailingListener
        ensures { result.faults ≡ 0 }
    {
        FailingListener { failing, faults: 0 }
    }
}

impl Listener for FailingListener {
    type Link = MemLink;

    ghost links = { λ _. None };

    ghost listen_count = { λ l. l.faults };

    fn bind(&mut self, port: u16) -> Result<u16, Failed> {
        if self.failing == Call::Bind {
            self.faults = self.faults.saturating_add(1);
            return Err(Failed);
        }
        Ok(port)
    }

    fn accept(&mut self) -> Result<Option<MemLink>, Failed> {
        self.faults = self.faults.saturating_add(1);
        Err(Failed)
    }

    fn finish(&mut self, _link: MemLink) {}

    fn fork(&mut self) -> Result<Self, Failed> {
        if self.failing == Call::Fork {
            self.faults = self.faults.saturating_add(1);
            return Err(Failed);
        }
        Ok(FailingListener::new(self.failing))
    }

    fn rejoin(&mut self, fork: Self) {
        if fork.faults > 0 {
            self.faults = self.faults.saturating_add(1);
        }
    }

    fn listen_faults(&self) -> u64 {
        self.faults
    }
}
