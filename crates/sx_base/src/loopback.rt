//! Links, listeners and dialers of TCP on 127.0.0.1.
ghost use Rattle.std.specs.Prelude.{◌≡◌, None, ⊤};

use crate::dialer::Dialer;
use crate::fault::Failed;
use crate::link::Link;
use crate::listener::Listener;
use crate::sink::Sink;
use crate::source::Source;
use std::io::{Read, Write};
use std::net::{Ipv4Addr, Net, Shutdown, SocketAddr, TcpListener, TcpStream};
use std::time::Duration;

/// The longest that a finished connection waits for its peer to send more or to close, in milliseconds.
const LAST_WAIT_MILLIS: u64 = 500;

/// How many reads of at most [`LAST_PIECE`] bytes a finished connection is given for what its peer still sends.
const LAST_READS: u32 = 1024;

/// The most bytes of one such read.
const LAST_PIECE: usize = 16_384;

/// A TCP connection. It tells no content.
#[derive(Drop)]
pub struct TcpLink {
    stream: TcpStream,
    peer: u32,
    read_faults: u64,
    write_faults: u64,
}

impl TcpLink {
    /// A link over a connection. Each put is sent at once.
    fn over(stream: TcpStream, peer: SocketAddr) -> TcpLink
        ensures reads { result.read_faults ≡ 0 }
        ensures writes { result.write_faults ≡ 0 }
    {
        // Where this is refused, puts are sent later, and nothing else changes.
        let _at_once = stream.set_nodelay(true);
        TcpLink {
            stream,
            peer: address_of(peer),
            read_faults: 0,
            write_faults: 0,
        }
    }

    /// Ends the sending side, and then reads and drops what the peer still sends until it closes, is silent for
    /// [`LAST_WAIT_MILLIS`], or has had [`LAST_READS`] reads (RFC 9112, section 9.6: a connection that is closed
    /// with bytes unread is reset, and its peer may lose the last answer).
    fn close_gently(mut self) {
        let wait = Duration::from_millis(LAST_WAIT_MILLIS);
        if self.stream.shutdown(Shutdown::Write).is_err()
            || self.stream.set_read_timeout(Some(wait)).is_err()
        {
            return;
        }
        let mut piece = [0u8; LAST_PIECE];
        for _ in 0..LAST_READS {
            match self.stream.read(&mut piece) {
                Ok(count) if count > 0 => {}
                _ => return,
            }
        }
    }
}

/// The number of an IPv4 address. A listener and a dialer of the loopback meet no other.
fn address_of(address: SocketAddr) -> u32 {
    match address {
        SocketAddr::V4(v4) => v4.ip().to_bits(),
        SocketAddr::V6(_) => 0,
    }
}

impl Source for TcpLink {
    ghost left = { λ _. None };

    ghost read_count = { λ l. l.read_faults };

    ghost reads = { λ a b. (b.write_faults ≡ a.write_faults) × (b.peer ≡ a.peer) };

    fn read(&mut self, into: &mut [u8]) -> Result<usize, Failed> {
        match self.stream.read(into) {
            Ok(count) => Ok(count),
            Err(_) => {
                self.read_faults = self.read_faults.saturating_add(1);
                Err(Failed)
            }
        }
    }

    fn read_faults(&self) -> u64 {
        self.read_faults
    }

    ghost use Rattle.std.proofs.Common.{refl, ◌∙◌};

    ghost reads_none = { λ _. (refl, refl) };

    ghost reads_more = { λ _ _ _ h k. (k.0 ∙ h.0, k.1 ∙ h.1) };
}

impl Sink for TcpLink {
    ghost wrote = { λ _ _. ⊤ };

    ghost write_count = { λ l. l.write_faults };

    ghost puts = { λ a b. (b.read_faults ≡ a.read_faults) × (b.peer ≡ a.peer) };

    fn put(&mut self, bytes: &[u8]) -> Result<(), Failed> {
        match self.stream.write_all(bytes) {
            Ok(()) => Ok(()),
            Err(_) => {
                self.write_faults = self.write_faults.saturating_add(1);
                Err(Failed)
            }
        }
    }

    fn write_faults(&self) -> u64 {
        self.write_faults
    }

    ghost use Rattle.std.proofs.Common.{refl, ◌∙◌};

    ghost puts_none = { λ _. (refl, refl) };

    ghost puts_more = { λ _ _ _ h k. (k.0 ∙ h.0, k.1 ∙ h.1) };
}

impl Link for TcpLink {
    ghost peer_of = { λ l. l.peer };

    ghost calls = { λ a b. b.peer ≡ a.peer };

    fn peer(&self) -> u32 {
        self.peer
    }

    ghost use Rattle.std.proofs.Common.{refl, ◌∙◌};

    ghost calls_none = { λ _. refl };

    ghost calls_more = { λ _ _ _ h k. k ∙ h };

    ghost read_calls = { λ _ _ h. h.1 };

    ghost put_calls = { λ _ _ h. h.1 };

    ghost read_keeps = { λ a b h. record { written = λ _. (λ _. tt, λ _. tt); faults = h.0; peer = h.1 } };

    ghost put_keeps = { λ a b h. record { rest = refl; faults = h.0; peer = h.1 } };
}

/// A TCP listener on 127.0.0.1. It tells none of its links.
#[derive(Drop)]
pub struct LoopbackListener<
    R: Net<Listener = TcpListener, Stream = TcpStream> + Send + Drop + Copy,
> {
    rt: R,
    bound: Option<TcpListener>,
    faults: u64,
}

impl<R: Net<Listener = TcpListener, Stream = TcpStream> + Send + Drop + Copy> LoopbackListener<R> {
    /// A listener that isn't bound, without a fault.
    pub fn new(rt: R) -> LoopbackListener<R> {
        LoopbackListener {
            rt,
            bound: None,
            faults: 0,
        }
    }
}

impl<R: Net<Listener = TcpListener, Stream = TcpStream> + Send + Drop + Copy> Listener
    for LoopbackListener<R> {
    type Link = TcpLink;

    ghost links = { λ _. None };

    ghost listen_count = { λ l. l.faults };

    fn bind(&mut self, port: u16) -> Result<u16, Failed> {
        let address = SocketAddr::from((Ipv4Addr::LOCALHOST, port));
        if let Ok(listener) = TcpListener::bind(&self.rt, address) {
            if let Ok(local) = listener.local_addr() {
                self.bound = Some(listener);
                return Ok(local.port());
            }
        }
        self.faults = self.faults.saturating_add(1);
        Err(Failed)
    }

    fn accept(&mut self) -> Result<Option<TcpLink>, Failed> {
        if let Some(listener) = &self.bound {
            if let Ok((stream, peer)) = listener.accept() {
                return Ok(Some(TcpLink::over(stream, peer)));
            }
        }
        self.faults = self.faults.saturating_add(1);
        Err(Failed)
    }

    fn finish(&mut self, link: TcpLink) {
        link.close_gently();
    }

    fn fork(&mut self) -> Result<Self, Failed> {
        if let Some(listener) = &self.bound {
            if let Ok(other) = listener.try_clone() {
                return Ok(LoopbackListener {
                    rt: self.rt,
                    bound: Some(other),
                    faults: 0,
                });
            }
        }
        self.faults = self.faults.saturating_add(1);
        Err(Failed)
    }

    fn rejoin(&mut self, fork: Self) {
        if fork.faults > 0 {
            self.faults = self.faults.saturating_add(1);
        }
    }

    fn listen_faults(&self) -> u64 {
        self.faults
    }
}

/// A TCP dialer, which dials 127.0.0.1. It tells none of its links.
#[derive(Drop)]
pub struct LoopbackDialer<R: Net<Listener = TcpListener, Stream = TcpStream> + Drop> {
    rt: R,
    faults: u64,
}

impl<R: Net<Listener = TcpListener, Stream = TcpStream> + Drop> LoopbackDialer<R> {
    /// A dialer without a fault.
    pub fn new(rt: R) -> LoopbackDialer<R> {
        LoopbackDialer { rt, faults: 0 }
    }
}

impl<R: Net<Listener = TcpListener, Stream = TcpStream> + Drop> Dialer for LoopbackDialer<R> {
    type Link = TcpLink;

    ghost links = { λ _. None };

    ghost dial_count = { λ d. d.faults };

    fn dial(&mut self, port: u16) -> Result<TcpLink, Failed> {
        let address = SocketAddr::from((Ipv4Addr::LOCALHOST, port));
        match TcpStream::connect(&self.rt, address) {
            Ok(stream) => Ok(TcpLink::over(stream, address)),
            Err(_) => {
                self.faults = self.faults.saturating_add(1);
                Err(Failed)
            }
        }
    }

    fn finish(&mut self, link: TcpLink) {
        if link.read_faults > 0 || link.write_faults > 0 {
            self.faults = self.faults.saturating_add(1);
        }
    }

    fn dial_faults(&self) -> u64 {
        self.faults
    }
}
