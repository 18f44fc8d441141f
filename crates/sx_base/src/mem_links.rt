//! Listeners and dialers in memory.
ghost use Rattle.std.specs.Prelude.{◌≡◌, ◌+◌, ◌<◌, ◌≤◌, ◌↔◌, [], IfOk, IsOk, IsOkAnd, IsTrue, OnOk, OnErr, slice_get};
ghost use Rattle.std.specs.Prelude.{Some, Ok, length};
ghost use Rattle.std.specs.Option.{option_map};
ghost use Rattle.sx_base.specs.LinkLists.{no_links, after_finished, Accepts, Dials, GivesLink};
ghost use Rattle.sx_base.specs.Causes.{HasCause};

use crate::dialer::Dialer;
use crate::fault::Failed;
use crate::listener::Listener;
use crate::memory::MemLink;
use crate::sink::Sink;
use crate::source::Source;
use std::alloc::Global;
use std::marker::Model;
use sx_memory::NoMemory;

/// Links in memory. The room for the finished ones is taken when they are made, so that finishing takes no memory.
#[derive(Drop)]
struct MemLinks {
    left: Vec<MemLink>,
    finished: Vec<MemLink>,
    given: usize,
}

impl Model for MemLinks {
    ghost use Rattle.std.specs.Prelude.{◌+◌, ◌≤◌, vec_len, vec_capacity};
    ghost use Rattle.sx_base.specs.LinkLists.{Links};
    ghost use Rattle.sx_base.specs.declared.memory.MemLink.{MemLink};

    ghost Value = { Links MemLink };

    ghost view = { λ l. record { left = l.left.items; finished = l.finished.items; given = l.given } };

    ghost invariant = { λ l. vec_len l.left + l.given + vec_len l.finished ≤ vec_capacity l.finished };
}

impl MemLinks {
    fn new(alloc: Global, left: Vec<MemLink>) -> Result<MemLinks, NoMemory>
        ensures { IfOk result (λ links. links ≡ record { left = left.items; finished = []; given = 0 }) }
    {
        let finished = Vec::with_capacity(alloc, left.len())?;
        Ok(MemLinks {
            left,
            finished,
            given: 0,
        })
    }

    /// No links. They take no memory.
    fn none(&self) -> MemLinks
        ensures { result ≡ no_links }
    {
        let alloc = *self.left.allocator();
        MemLinks {
            left: Vec::new(alloc),
            finished: Vec::new(alloc),
            given: 0,
        }
    }

    /// Gives the first link left.
    fn give(&mut self) -> MemLink
        requires { 0 < length self.old.left }
        ensures { GivesLink (Some self.old) result (Some self.new) }
    {
        self.given += 1;
        self.left.remove(0)
    }

    /// Puts a link that was given behind the finished ones.
    fn finish(&mut self, link: MemLink)
        requires { 0 < self.old.given }
        ensures { self.new ≡ after_finished link self.old }
    {
        self.given -= 1;
        self.finished.push(link).unwrap();
    }
}

/// A listener in memory, which gives the links that it has, and then none. No call of it fails, and a fork of it has
/// no link.
#[derive(Drop)]
pub struct MemListener {
    links: MemLinks,
    faults: u64,
}

impl MemListener {
    /// A listener with these links left, without a fault.
    pub fn new(alloc: Global, left: Vec<MemLink>) -> Result<MemListener, NoMemory>
        ensures links { IfOk result
            (λ listener. ⟦<MemListener as Listener>⟧.links listener ≡ Some
            (record { left = left.items; finished = []; given = 0 })) }
        ensures faults { IfOk result (λ listener. ⟦<MemListener as Listener>⟧.listen_count listener ≡ 0) }
    {
        let links = MemLinks::new(alloc, left)?;
        Ok(MemListener { links, faults: 0 })
    }

    /// The links that are left.
    pub fn left(&self) -> &[MemLink]
        ensures { option_map (λ links. links.left) (⟦<MemListener as Listener>⟧.links self.now) ≡ Some result.now }
    {
        &self.links.left
    }

    /// The links that were finished, in their order.
    pub fn finished(&self) -> &[MemLink]
        ensures { option_map (λ links. links.finished) (⟦<MemListener as Listener>⟧.links self.now) ≡ Some result.now }
    {
        &self.links.finished
    }
}

impl Listener for MemListener {
    type Link = MemLink;

    ghost links = { λ l. Some l.links };

    ghost listen_count = { λ l. l.faults };

    fn bind(&mut self, port: u16) -> Result<u16, Failed>
        ensures port { result ≡ Ok port }
        ensures same { self.new ≡ self.old }
    {
        Ok(port)
    }

    fn accept(&mut self) -> Result<Option<MemLink>, Failed>
        ensures ok { IsOk result }
        ensures links { Accepts (Some self.old.links) result (Some self.new.links) }
        ensures faults { self.new.faults ≡ self.old.faults }
    {
        if self.links.left.is_empty() {
            return Ok(None);
        }
        Ok(Some(self.links.give()))
    }

    fn finish(&mut self, link: MemLink)
        requires { 0 < self.old.links.given }
        ensures links { self.new.links ≡ after_finished link self.old.links }
        ensures faults { self.new.faults ≡ self.old.faults }
    {
        self.links.finish(link);
    }

    fn fork(&mut self) -> Result<Self, Failed>
        ensures same { self.new ≡ self.old }
        ensures fork { IsOkAnd result (λ fork. (fork.links ≡ no_links) × (fork.faults ≡ 0)) }
    {
        Ok(MemListener {
            links: self.links.none(),
            faults: 0,
        })
    }

    fn rejoin(&mut self, fork: Self) {
        if fork.faults > 0 {
            self.faults = self.faults.saturating_add(1);
        }
    }

    fn listen_faults(&self) -> u64 {
        self.faults
    }
}

/// A dialer in memory, which gives the links that it has. A dial fails where none is left, or where the first one has
/// failed before.
#[derive(Drop)]
pub struct MemDialer {
    links: MemLinks,
    faults: u64,
}

impl MemDialer {
    /// A dialer with these links left, without a fault.
    pub fn new(alloc: Global, left: Vec<MemLink>) -> Result<MemDialer, NoMemory>
        ensures links { IfOk result
            (λ dialer. ⟦<MemDialer as Dialer>⟧.links dialer ≡ Some
            (record { left = left.items; finished = []; given = 0 })) }
        ensures faults { IfOk result (λ dialer. ⟦<MemDialer as Dialer>⟧.dial_count dialer ≡ 0) }
    {
        let links = MemLinks::new(alloc, left)?;
        Ok(MemDialer { links, faults: 0 })
    }

    /// The links that are left.
    pub fn left(&self) -> &[MemLink]
        ensures { option_map (λ links. links.left) (⟦<MemDialer as Dialer>⟧.links self.now) ≡ Some result.now }
    {
        &self.links.left
    }

    /// The links that were finished, in their order.
    pub fn finished(&self) -> &[MemLink]
        ensures { option_map (λ links. links.finished) (⟦<MemDialer as Dialer>⟧.links self.now) ≡ Some result.now }
    {
        &self.links.finished
    }
}

/// Whether no call of a link has failed.
fn is_faultless(link: &MemLink) -> bool
    ensures { IsTrue result ↔
        (⟦<MemLink as Source>⟧.read_count link.now + ⟦<MemLink as Sink>⟧.write_count link.now ≡ 0) }
{
    link.read_faults() == 0 && link.write_faults() == 0
}

impl Dialer for MemDialer {
    type Link = MemLink;

    ghost links = { λ d. Some d.links };

    ghost dial_count = { λ d. d.faults };

    fn dial(&mut self, _port: u16) -> Result<MemLink, Failed>
        ensures links { Dials (Some self.old.links) result (Some self.new.links) }
        ensures reads { IfOk result (λ link. ⟦<MemLink as Source>⟧.read_count link ≡ 0) }
        ensures writes { IfOk result (λ link. ⟦<MemLink as Sink>⟧.write_count link ≡ 0) }
        ensures ok { OnOk result (self.new.faults ≡ self.old.faults) }
        ensures cause { HasCause self.old.faults self.new.faults result }
        ensures fails { OnErr result ((link : MemLink) → slice_get self.old.links.left 0 ≡ Some link
            → 0 < ⟦<MemLink as Source>⟧.read_count link + ⟦<MemLink as Sink>⟧.write_count link) }
    {
        if !self.links.left.is_empty() && is_faultless(&self.links.left[0]) {
            return Ok(self.links.give());
        }
        self.faults = self.faults.saturating_add(1);
        Err(Failed)
    }

    fn finish(&mut self, link: MemLink) {
        let faultless = is_faultless(&link);
        self.links.finish(link);
        if !faultless {
            self.faults = self.faults.saturating_add(1);
        }
    }

    fn dial_faults(&self) -> u64 {
        self.faults
    }
}
