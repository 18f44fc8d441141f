//! The workers of a door, from their hiring to their dismissal.
ghost use Rattle.std.specs.Prelude.{◌≡◌, ◌+◌, ◌≤◌, ◌∷◌, List, IsErrOf, OnOk, OnErr, vec_len};
ghost use Rattle.std.specs.List.{AllByRecursion};
ghost use Rattle.sx_base.specs.Causes.{Rose};
ghost use Rattle.sx_run.specs.Crews.{AreDismissed, AreHired, FailedSince, Told, crew_report, is_faulted, no_work};
ghost use Rattle.sx_run.specs.declared.report.WorkReport.{WorkReport};
ghost use Rattle.sx_run.specs.declared.crew.Worker.{Worker};
ghost use Rattle.sx_run.specs.declared.crew.Unhired.TheVariants as Unhired;

use crate::report::{WorkEnd, WorkReport};
use std::mem;
use std::sync::Wait;
use sx_base::{Clock, Listener, Random};
use sx_book::{Office, Pass};

/// A door, at which workers serve links.
#[derive(Clone, Copy, Debug, PartialEq, Eq)]
pub enum Door {
    /// Signed requests.
    Rest,
    /// Sessions.
    Smb,
}

/// A worker: its door, its pass, a listener, a clock and random words of its own, and the report of its work.
pub struct Worker<L, C, W> {
    /// Its door.
    pub door: Door,
    /// Its pass.
    pub pass: Pass,
    /// Its listener.
    pub listener: L,
    /// Its clock.
    pub clock: C,
    /// Its source of random words.
    pub random: W,
    /// The report of its work; that of no work before it.
    pub report: WorkReport,
}

/// Why no worker was hired.
#[derive(Clone, Copy, Debug, PartialEq, Eq)]
pub enum Unhired {
    /// The listener could not be forked.
    ListenFault,
    /// Out of memory, or the office gave no pass.
    NoMemory,
}

/// What became of the workers of a door.
#[derive(Clone, Copy, Debug, PartialEq, Eq)]
pub struct CrewReport {
    /// Whether memory ran out for a link.
    pub starved: bool,
    /// Whether a call of a listener failed.
    pub faulted: bool,
    /// Whether a link was told that the history is full.
    pub full: bool,
}

/// The report of no work.
fn no_work() -> WorkReport
    ensures { result ≡ no_work }
{
    WorkReport {
        served: 0,
        full: false,
        starved: false,
        end: WorkEnd::Drained,
    }
}

/// Hires a worker. It takes the listener, in whose place it leaves a fork.
fn hire<R: Wait, L: Listener, C: Clock, W: Random>(
    rt: &R,
    office: &Office,
    main: &mut Pass,
    door: Door,
    listener: &mut L,
    clock: &mut C,
    random: &mut W,
    workers: &mut Vec<Worker<L, C, W>>,
) -> Result<(), Unhired>
    requires own { main.old.office ≡ office.now }
    ensures main { main.new ≡ record main.old { seen = main.new.seen; known = main.new.known } }
    ensures hired { (given : Told L.Link) (before : List (Worker L C W)) →
        AreHired (λ l. record { links = L.links l; faults = L.listen_count l }) office.now main.old.limit door given
        (record { links = L.links listener.old; faults = L.listen_count listener.old }) before workers.old.items →
        AreHired (λ l. record { links = L.links l; faults = L.listen_count l }) office.now main.old.limit door given
        (record { links = L.links listener.new; faults = L.listen_count listener.new }) before workers.new.items }
    ensures more { OnOk result (vec_len workers.new ≡ vec_len workers.old + 1) }
    ensures same { OnErr result (workers.new.items ≡ workers.old.items) }
    ensures links { OnErr result (L.links listener.new ≡ L.links listener.old) }
    ensures fault { IsErrOf result Unhired.ListenFault →
        Rose (L.listen_count listener.old) (L.listen_count listener.new) }
    ensures later { OnErr result (L.listen_count listener.old ≤ L.listen_count listener.new) }
{
    let Ok(()) = workers.reserve(1) else {
        return Err(Unhired::NoMemory);
    };
    let Ok(fork) = listener.fork() else {
        return Err(Unhired::ListenFault);
    };
    let Ok(pass) = office.split(rt, main) else {
        return Err(Unhired::NoMemory);
    };
    let worker = Worker {
        door,
        pass,
        listener: mem::replace(listener, fork),
        clock: clock.fork(),
        random: random.fork(),
        report: no_work(),
    };
    let pushed = workers.push(worker);
    let Ok(()) = pushed else { unreachable!() };
    Ok(())
}

/// Hires so many workers of a door.
pub fn hire_all<R: Wait, L: Listener, C: Clock, W: Random>(
    rt: &R,
    office: &Office,
    main: &mut Pass,
    door: Door,
    listener: &mut L,
    clock: &mut C,
    random: &mut W,
    count: u32,
    workers: &mut Vec<Worker<L, C, W>>,
) -> Result<(), Unhired>
    requires own { main.old.office ≡ office.now }
    ensures main { main.new ≡ record main.old { seen = main.new.seen; known = main.new.known } }
    ensures hired { (given : Told L.Link) (before : List (Worker L C W)) →
        AreHired (λ l. record { links = L.links l; faults = L.listen_count l }) office.now main.old.limit door given
        (record { links = L.links listener.old; faults = L.listen_count listener.old }) before workers.old.items →
        AreHired (λ l. record { links = L.links l; faults = L.listen_count l }) office.now main.old.limit door given
        (record { links = L.links listener.new; faults = L.listen_count listener.new }) before workers.new.items }
    ensures more { OnOk result (vec_len workers.new ≡ vec_len workers.old + count) }
    ensures few { vec_len workers.new ≤ vec_len workers.old + count }
    ensures fault { IsErrOf result Unhired.ListenFault → (given : Told L.Link) (before : List (Worker L C W)) →
        AreHired (λ l. record { links = L.links l; faults = L.listen_count l }) office.now main.old.limit door given
        (record { links = L.links listener.old; faults = L.listen_count listener.old }) before workers.old.items →
        FailedSince (λ l. record { links = L.links l; faults = L.listen_count l }) given
        (record { links = L.links listener.new; faults = L.listen_count listener.new }) before workers.new.items }
{
    let mut left = count;
    while 0 < left {
        match hire(rt, office, main, door, listener, clock, random, workers) {
            Ok(()) => left -= 1,
            Err(unhired) => return Err(unhired),
        }
    }
    Ok(())
}

/// Whether a call of a worker's listener failed.
fn is_faulted(end: WorkEnd) -> bool
    ensures { result ≡ is_faulted end }
{
    match end {
        WorkEnd::ListenFault => true,
        WorkEnd::Enough | WorkEnd::Drained => false,
    }
}

/// Adds a worker's report to that of others.
fn add_report(crew: &mut CrewReport, report: &WorkReport)
    ensures { (rs : List WorkReport) → crew.old ≡ crew_report rs → crew.new ≡ crew_report (report.now ∷ rs) }
{
    crew.starved = report.starved || crew.starved;
    crew.faulted = is_faulted(report.end) || crew.faulted;
    crew.full = report.full || crew.full;
}

/// Dismisses the workers behind the first so many: their passes meet the first one, and each listener takes back the
/// one behind it, so that the one that was handed in stands again where it stood.
pub fn dismiss<L: Listener, C: Clock, W: Random>(
    office: &Office,
    main: &mut Pass,
    listener: &mut L,
    keep: usize,
    workers: &mut Vec<Worker<L, C, W>>,
) -> CrewReport
    requires main { main.old.office ≡ office.now }
    requires own { AllByRecursion (λ w. w.pass.office ≡ office.now) workers.old.items }
    requires keep { keep ≤ vec_len workers.old }
    ensures dismissed { AreDismissed (λ l. record { links = L.links l; faults = L.listen_count l }) main.old main.new
        (record { links = L.links listener.old; faults = L.listen_count listener.old })
        (record { links = L.links listener.new; faults = L.listen_count listener.new })
        workers.old.items workers.new.items result }
    ensures kept { vec_len workers.new ≡ keep }
{
    let mut crew = CrewReport {
        starved: false,
        faulted: false,
        full: false,
    };
    while keep < workers.len() {
        let last = workers.pop();
        let Some(worker) = last else { unreachable!() };
        let Worker {
            door: _,
            pass,
            listener: own,
            clock: _clock,
            random: _random,
            report,
        } = worker;
        office.meet(main, pass);
        let fork = mem::replace(listener, own);
        listener.rejoin(fork);
        add_report(&mut crew, &report);
    }
    crew
}
