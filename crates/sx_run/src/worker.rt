//! A worker: it serves the links of its listener, one after another.
ghost use Rattle.std.specs.Prelude.{◌≡◌, ◌≤◌, IfOk, IfErr, length};
ghost use mathlib.Core.List.{IsPrefix};
ghost use Rattle.sx_base.specs.Causes.{Rose};
ghost use Rattle.sx_base.specs.LinkLists.{GivesLink};
ghost use Rattle.sx_book.specs.OneHistory.{history_of};
ghost use Rattle.sx_book.specs.Passes.{HasOwnPlaces};
ghost use Rattle.sx_run.specs.declared.report.WorkEnd.TheVariants as WorkEnd;
ghost use Rattle.sx_run.specs.Doors.{rest_talks, smb_talks};
ghost use Rattle.sx_run.specs.Visits.{IsBelow, IsWorkEnd, Works, was_full, was_starved, with_link};

use crate::report::{WorkEnd, WorkReport};
use std::alloc::Global;
use std::sync::Wait;
use sx_base::{Clock, Listener, Random};
use sx_book::{ConnEnd, ConnReport, Office, Pass};
use sx_key::Account;
use sx_rest_door::serve_conn;
use sx_smb_door::serve_session;

/// How many bytes of one link may be taken.
pub const LINK_BUDGET: u64 = 1 << 40;

/// Whether a link was told that the history is full.
fn was_full(report: &ConnReport) -> bool
    ensures { result ≡ was_full report.now }
{
    report.full.is_some() || matches!(report.end, ConnEnd::Full(_))
}

/// Whether memory ran out for a link.
fn was_starved(report: &ConnReport) -> bool
    ensures { result ≡ was_starved report.now }
{
    report.starved || matches!(report.end, ConnEnd::NoMemory)
}

/// A worker's report with one more link.
fn add_link(work: &mut WorkReport, report: &ConnReport)
    ensures { work.new ≡ with_link work.old report.now }
{
    work.served = work.served.saturating_add(1);
    work.full = work.full || was_full(report);
    work.starved = work.starved || was_starved(report);
}

/// The next link that a worker is to serve, or why there is none.
fn next_link<L: Listener>(
    listener: &mut L,
    work: &WorkReport,
    conns: u32,
) -> Result<L::Link, WorkEnd>
    ensures given { IfOk result (λ link. GivesLink (L.links listener.old) link (L.links listener.new)
        × IsBelow work.now.served conns) }
    ensures end { IfErr result (λ end.
        ((1 ≤ conns → work.now.served ≤ conns) → IsWorkEnd conns end work.now.served (L.links listener.new))
        × (L.links listener.new ≡ L.links listener.old)
        × (end ≡ WorkEnd.ListenFault → Rose (L.listen_count listener.old) (L.listen_count listener.new))) }
    ensures later { L.listen_count listener.old ≤ L.listen_count listener.new }
{
    if conns != 0 && u64::from(conns) <= work.served {
        return Err(WorkEnd::Enough);
    }
    match listener.accept() {
        Ok(Some(link)) => Ok(link),
        Ok(None) => Err(WorkEnd::Drained),
        Err(_) => Err(WorkEnd::ListenFault),
    }
}

/// Serves the links of a listener as connections of signed requests, one after another, through a pass of its own: as
/// many as `conns`, or without end where that is 0.
pub fn rest_worker<R: Wait, L: Listener, C: Clock, W: Random>(
    alloc: Global,
    rt: &R,
    office: &Office,
    pass: &mut Pass,
    listener: &mut L,
    clock: &mut C,
    random: &mut W,
    account: &Account,
    conns: u32,
) -> WorkReport
    requires own { pass.old.office ≡ office.now }
    requires places { HasOwnPlaces pass.old }
    ensures works { Works (rest_talks C.ticks W.draws (record {
      wrote = L.Link.wrote;
      peer = L.Link.peer_of;
      left = L.Link.left;
      reads = L.Link.read_count;
      writes = L.Link.write_count;
      calls = L.Link.calls;
    }) account.now)
        (record { who = pass.old.number; history = history_of pass.new; from = length pass.old.seen }) conns
        (record {
          links = L.links listener.old;
          faults = L.listen_count listener.old;
          door = record { clock = clock.old; random = random.old };
        })
        (record {
          links = L.links listener.new;
          faults = L.listen_count listener.new;
          door = record { clock = clock.new; random = random.new };
        }) result }
    ensures history { IsPrefix pass.old.seen pass.new.seen }
    ensures places { HasOwnPlaces pass.new }
    ensures pass { pass.new ≡ record pass.old { seen = pass.new.seen; mine = pass.new.mine } }
{
    let mut work = WorkReport {
        served: 0,
        full: false,
        starved: false,
        end: WorkEnd::Drained,
    };
    for _ in rt.forever() {
        let mut link = match next_link(listener, &work, conns) {
            Ok(link) => link,
            Err(end) => return WorkReport { end, ..work },
        };
        let report = serve_conn(
            alloc,
            rt,
            office,
            pass,
            &mut link,
            clock,
            random,
            account,
            LINK_BUDGET,
        );
        listener.finish(link);
        add_link(&mut work, &report);
    }
    unreachable!()
}

/// Serves the links of a listener as sessions, one after another, through a pass of its own: as many as `conns`, or
/// without end where that is 0.
pub fn smb_worker<R: Wait, L: Listener, C: Clock>(
    alloc: Global,
    rt: &R,
    office: &Office,
    pass: &mut Pass,
    listener: &mut L,
    clock: &mut C,
    conns: u32,
) -> WorkReport
    requires own { pass.old.office ≡ office.now }
    requires places { HasOwnPlaces pass.old }
    ensures works { Works (smb_talks C.ticks (record {
      wrote = L.Link.wrote;
      peer = L.Link.peer_of;
      left = L.Link.left;
      reads = L.Link.read_count;
      writes = L.Link.write_count;
      calls = L.Link.calls;
    }))
        (record { who = pass.old.number; history = history_of pass.new; from = length pass.old.seen }) conns
        (record { links = L.links listener.old; faults = L.listen_count listener.old; door = clock.old })
        (record { links = L.links listener.new; faults = L.listen_count listener.new; door = clock.new }) result }
    ensures history { IsPrefix pass.old.seen pass.new.seen }
    ensures places { HasOwnPlaces pass.new }
    ensures pass { pass.new ≡ record pass.old { seen = pass.new.seen; mine = pass.new.mine } }
{
    let mut work = WorkReport {
        served: 0,
        full: false,
        starved: false,
        end: WorkEnd::Drained,
    };
    for _ in rt.forever() {
        let mut link = match next_link(listener, &work, conns) {
            Ok(link) => link,
            Err(end) => return WorkReport { end, ..work },
        };
        let report = serve_session(alloc, rt, office, pass, &mut link, clock, LINK_BUDGET);
        listener.finish(link);
        add_link(&mut work, &report);
    }
    unreachable!()
}
