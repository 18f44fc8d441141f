//! The service: what the command `serve` does, over any listeners, output, clock and random words.
ghost use Rattle.std.specs.Prelude.{◌≡◌, ◌+◌, [], IfOk, IfErr, IsErrOf, OnOk, vec_len};
ghost use Rattle.std.specs.List.{AllByRecursion};
ghost use Rattle.sx_base.specs.Sink.{Prints};
ghost use Rattle.sx_spec.specs.History.{IsHistory};
ghost use Rattle.sx_book.specs.Passes.{first_pass};
ghost use Rattle.sx_book.specs.Reports.{HasText};
ghost use Rattle.sx_run.specs.Crews.{AreAllDismissed, AreEngaged};
ghost use Rattle.sx_run.specs.Doors.{rest_talks, smb_talks};
ghost use Rattle.sx_run.specs.Serving.{AllWorked, HasFailed, IsAllMet, IsUnreadyBy, IsUnservedBy, Serves};
ghost use Rattle.sx_run.specs.Serving.{port_lines, crews_status, status_unserved};
ghost use Rattle.sx_run.specs.Words.{IsCrewSize};
ghost use Rattle.sx_run.specs.declared.crew.Unhired.TheVariants as Unhired;

use crate::crew::{CrewReport, Door, Unhired, Worker, dismiss, hire_all};
use crate::words::ServeWords;
use crate::working::work;
use std::alloc::Global;
use std::sync::Wait;
use std::thread::Threads;
use sx_base::{Clock, Failed, Fragment, Listener, Random, Sink, print};
use sx_book::{Book, CloseFault, Office, Pass};

/// The status where every worker served its links.
const DONE: u8 = 0;

/// The status where the ports could not be told.
const WRITE_FAULT: u8 = 4;

/// The status where memory ran out, or the office gave no pass or could not be closed.
const NO_MEMORY: u8 = 5;

/// The status where a call of a listener failed.
const LISTEN_FAULT: u8 = 6;

/// The status where the history was full.
const HISTORY_FULL: u8 = 7;

/// Tells the ports.
fn tell_ports<K: Sink>(out: &mut K, rest_port: u16, smb_port: u16) -> Result<(), Failed>
    ensures { Prints K.wrote K.write_count K.puts out.old out.new (port_lines rest_port smb_port) result }
{
    print(
        out,
        &[
            Fragment::Text(b"rest "),
            Fragment::Decimal(u64::from(rest_port)),
            Fragment::Text(b"\nsmb "),
            Fragment::Decimal(u64::from(smb_port)),
            Fragment::Text(b"\n"),
        ],
    )
}

/// Hires the workers of both doors, those of the REST door first.
fn engage<R: Wait, L: Listener, C: Clock, W: Random>(
    rt: &R,
    office: &Office,
    main: &mut Pass,
    words: &ServeWords,
    rest: &mut L,
    smb: &mut L,
    clock: &mut C,
    random: &mut W,
    workers: &mut Vec<Worker<L, C, W>>,
) -> Result<(), Unhired>
    requires own { main.old.office ≡ office.now }
    requires none { workers.old.items ≡ [] }
    ensures main { main.new ≡ record main.old { seen = main.new.seen; known = main.new.known } }
    ensures engaged { AreEngaged (λ l. record { links = L.links l; faults = L.listen_count l }) office.now
        main.old.limit words.now.rest_workers
        (record { links = L.links rest.old; faults = L.listen_count rest.old })
        (record { links = L.links rest.new; faults = L.listen_count rest.new })
        (record { links = L.links smb.old; faults = L.listen_count smb.old })
        (record { links = L.links smb.new; faults = L.listen_count smb.new }) workers.new.items }
    ensures many { OnOk result (vec_len workers.new ≡ words.now.rest_workers + words.now.smb_workers) }
    ensures fault { IsErrOf result Unhired.ListenFault → HasFailed
        (λ l. record { links = L.links l; faults = L.listen_count l }) words.now.rest_workers
        (record { links = L.links rest.old; faults = L.listen_count rest.old })
        (record { links = L.links rest.new; faults = L.listen_count rest.new })
        (record { links = L.links smb.old; faults = L.listen_count smb.old })
        (record { links = L.links smb.new; faults = L.listen_count smb.new }) workers.new.items }
{
    match hire_all(
        rt,
        office,
        main,
        Door::Rest,
        rest,
        clock,
        random,
        words.rest_workers,
        workers,
    ) {
        Ok(()) => {}
        Err(unhired) => return Err(unhired),
    }
    hire_all(
        rt,
        office,
        main,
        Door::Smb,
        smb,
        clock,
        random,
        words.smb_workers,
        workers,
    )
}

/// Dismisses the workers of both doors, of which those of the REST door stand first.
fn dismiss_all<L: Listener, C: Clock, W: Random>(
    office: &Office,
    main: &mut Pass,
    rest_workers: u32,
    rest: &mut L,
    smb: &mut L,
    workers: Vec<Worker<L, C, W>>,
) -> (CrewReport, CrewReport)
    requires main { main.old.office ≡ office.now }
    requires own { AllByRecursion (λ w. w.pass.office ≡ office.now) workers.items }
    ensures { AreAllDismissed (λ l. record { links = L.links l; faults = L.listen_count l }) main.old main.new
        rest_workers
        (record { links = L.links rest.old; faults = L.listen_count rest.old })
        (record { links = L.links rest.new; faults = L.listen_count rest.new })
        (record { links = L.links smb.old; faults = L.listen_count smb.old })
        (record { links = L.links smb.new; faults = L.listen_count smb.new }) workers.items result.0 result.1 }
{
    let mut workers = workers;
    let keep = workers.len().min(rest_workers as usize);
    let smb_report = dismiss(office, main, smb, keep, &mut workers);
    let rest_report = dismiss(office, main, rest, 0, &mut workers);
    workers.destroy_empty();
    (rest_report, smb_report)
}

/// The status by what became of the workers of both doors.
fn crews_status(rest: CrewReport, smb: CrewReport) -> u8
    ensures { result ≡ crews_status rest smb }
{
    if rest.starved || smb.starved {
        return NO_MEMORY;
    }
    if rest.faulted || smb.faulted {
        return LISTEN_FAULT;
    }
    if rest.full || smb.full {
        return HISTORY_FULL;
    }
    DONE
}

/// Why no link was served.
#[derive(Clone, Copy, Debug, PartialEq, Eq)]
pub enum Unserved {
    /// The ports could not be told.
    WriteFault,
    /// Out of memory, or the office gave no pass.
    NoMemory,
    /// A call of a listener failed.
    ListenFault,
}

/// The status where no link was served.
fn status_unserved(unserved: Unserved) -> u8
    ensures { result ≡ status_unserved unserved }
{
    match unserved {
        Unserved::WriteFault => WRITE_FAULT,
        Unserved::NoMemory => NO_MEMORY,
        Unserved::ListenFault => LISTEN_FAULT,
    }
}

/// Hires the workers of both doors, and tells the ports.
fn prepare<R: Wait, K: Sink, L: Listener, C: Clock, W: Random>(
    rt: &R,
    office: &Office,
    main: &mut Pass,
    words: &ServeWords,
    rest_port: u16,
    smb_port: u16,
    out: &mut K,
    rest: &mut L,
    smb: &mut L,
    clock: &mut C,
    random: &mut W,
    workers: &mut Vec<Worker<L, C, W>>,
) -> Result<(), Unserved>
    requires own { main.old.office ≡ office.now }
    requires none { workers.old.items ≡ [] }
    ensures main { main.new ≡ record main.old { seen = main.new.seen; known = main.new.known } }
    ensures engaged { AreEngaged (λ l. record { links = L.links l; faults = L.listen_count l }) office.now
        main.old.limit words.now.rest_workers
        (record { links = L.links rest.old; faults = L.listen_count rest.old })
        (record { links = L.links rest.new; faults = L.listen_count rest.new })
        (record { links = L.links smb.old; faults = L.listen_count smb.old })
        (record { links = L.links smb.new; faults = L.listen_count smb.new }) workers.new.items }
    ensures many { OnOk result (vec_len workers.new ≡ words.now.rest_workers + words.now.smb_workers) }
    ensures lines { OnOk result (HasText (K.wrote out.old) (K.wrote out.new) (port_lines rest_port smb_port)
        × (K.write_count out.new ≡ K.write_count out.old)) }
    ensures cause { IfErr result (IsUnreadyBy (λ l. record { links = L.links l; faults = L.listen_count l }) K.wrote
        K.write_count out.old out.new words.now.rest_workers
        (record { links = L.links rest.old; faults = L.listen_count rest.old })
        (record { links = L.links rest.new; faults = L.listen_count rest.new })
        (record { links = L.links smb.old; faults = L.listen_count smb.old })
        (record { links = L.links smb.new; faults = L.listen_count smb.new }) workers.new.items) }
{
    match engage(rt, office, main, words, rest, smb, clock, random, workers) {
        Ok(()) => {}
        Err(Unhired::NoMemory) => return Err(Unserved::NoMemory),
        Err(Unhired::ListenFault) => return Err(Unserved::ListenFault),
    }
    match tell_ports(out, rest_port, smb_port) {
        Ok(()) => Ok(()),
        Err(_) => Err(Unserved::WriteFault),
    }
}

/// Serves the links of both listeners through an office: hires the workers, tells the ports, lets the workers work, and
/// dismisses them.
fn serve_office<R: Threads + Wait + Sync, K: Sink, L: Listener, C: Clock, W: Random>(
    alloc: Global,
    rt: &R,
    office: &Office,
    main: &mut Pass,
    words: &ServeWords,
    rest_port: u16,
    smb_port: u16,
    out: &mut K,
    rest: &mut L,
    smb: &mut L,
    clock: &mut C,
    random: &mut W,
) -> Result<(CrewReport, CrewReport), Unserved>
where
    L::Link: Send,
    requires main { main.old ≡ first_pass office.now words.now.limit }
    requires rest { IsCrewSize words.now.rest_workers }
    requires smb { IsCrewSize words.now.smb_workers }
    ensures own { main.new.office ≡ office.now }
    ensures limit { main.new.limit ≡ words.now.limit }
    ensures worked { IfOk result (λ reports. IsAllMet main.new → AllWorked
        (rest_talks C.ticks W.draws (record {
          wrote = L.Link.wrote;
          peer = L.Link.peer_of;
          left = L.Link.left;
          reads = L.Link.read_count;
          writes = L.Link.write_count;
          calls = L.Link.calls;
        }) words.now.account)
        (smb_talks C.ticks (record {
          wrote = L.Link.wrote;
          peer = L.Link.peer_of;
          left = L.Link.left;
          reads = L.Link.read_count;
          writes = L.Link.write_count;
          calls = L.Link.calls;
        })) words.now main.new.seen
        (record {
          rest = record { links = L.links rest.old; faults = L.listen_count rest.old };
          smb = record { links = L.links smb.old; faults = L.listen_count smb.old };
          writes = K.write_count out.old;
        })
        (record {
          rest = record { links = L.links rest.new; faults = L.listen_count rest.new };
          smb = record { links = L.links smb.new; faults = L.listen_count smb.new };
          writes = K.write_count out.new;
        }) reports.0 reports.1) }
    ensures lines { OnOk result (HasText (K.wrote out.old) (K.wrote out.new) (port_lines rest_port smb_port)
        × (K.write_count out.new ≡ K.write_count out.old)) }
    ensures unserved { IfErr result (λ unserved. (L.links rest.new ≡ L.links rest.old)
        × (L.links smb.new ≡ L.links smb.old)
        × IsUnservedBy unserved (K.wrote out.old) (K.wrote out.new)
        (record {
          rest = record { links = L.links rest.old; faults = L.listen_count rest.old };
          smb = record { links = L.links smb.old; faults = L.listen_count smb.old };
          writes = K.write_count out.old;
        })
        (record {
          rest = record { links = L.links rest.new; faults = L.listen_count rest.new };
          smb = record { links = L.links smb.new; faults = L.listen_count smb.new };
          writes = K.write_count out.new;
        })) }
{
    let mut workers = Vec::new(alloc);
    match prepare(
        rt,
        office,
        main,
        words,
        rest_port,
        smb_port,
        out,
        rest,
        smb,
        clock,
        random,
        &mut workers,
    ) {
        Ok(()) => {
            work(alloc, rt, office, &words.account, words.conns, &mut workers);
            Ok(dismiss_all(office, main, words.rest_workers, rest, smb, workers))
        }
        Err(unserved) => {
            let _reports = dismiss_all(office, main, words.rest_workers, rest, smb, workers);
            Err(unserved)
        }
    }
}

/// The status of a closed office: its book's history is legal.
fn status_of_book(book: Book, rest: CrewReport, smb: CrewReport) -> u8
    ensures status { result ≡ crews_status rest smb }
    ensures legal { IsHistory book.limit book.entries }
{
    book.keeps();
    crews_status(rest, smb)
}

/// Lets go of what an office's close gave: its book, or the office that could not be closed.
fn let_go(closed: Result<Book, CloseFault<Office, Pass>>) {
    match closed {
        Ok(_book) => {}
        Err(fault) => {
            let _out = Office::abandon(fault);
        }
    }
}

/// Serves both doors until every worker has served as many links as it may, or its listener has none left or failed.
///
/// It listens at both ports, opens an office with the words' limit, hires the workers of each door, the first of which
/// takes the listener that is handed in and the others forks of it, and writes the lines `rest PORT` and `smb PORT`;
/// then the workers serve links at once, each through a pass of its own, and the office is closed. The status is 0
/// where every worker ended so without a fault, 4 where the ports could not be told, 5 where memory ran out, or the
/// office gave no pass or could not be closed, 6 where a call of a listener failed, 7 where the history was full.
pub fn serve<R: Threads + Wait + Sync, K: Sink, L: Listener, C: Clock, W: Random>(
    alloc: Global,
    rt: &R,
    words: &ServeWords,
    out: &mut K,
    rest: &mut L,
    smb: &mut L,
    clock: &mut C,
    random: &mut W,
) -> u8
where
    L::Link: Send,
    requires rest { IsCrewSize words.now.rest_workers }
    requires smb { IsCrewSize words.now.smb_workers }
    ensures { Serves
        (rest_talks C.ticks W.draws (record {
          wrote = L.Link.wrote;
          peer = L.Link.peer_of;
          left = L.Link.left;
          reads = L.Link.read_count;
          writes = L.Link.write_count;
          calls = L.Link.calls;
        }) words.now.account)
        (smb_talks C.ticks (record {
          wrote = L.Link.wrote;
          peer = L.Link.peer_of;
          left = L.Link.left;
          reads = L.Link.read_count;
          writes = L.Link.write_count;
          calls = L.Link.calls;
        })) words.now (K.wrote out.old) (K.wrote out.new)
        (record {
          rest = record { links = L.links rest.old; faults = L.listen_count rest.old };
          smb = record { links = L.links smb.old; faults = L.listen_count smb.old };
          writes = K.write_count out.old;
        })
        (record {
          rest = record { links = L.links rest.new; faults = L.listen_count rest.new };
          smb = record { links = L.links smb.new; faults = L.listen_count smb.new };
          writes = K.write_count out.new;
        }) result }
{
    let Ok(rest_port) = rest.bind(words.rest_port) else {
        return LISTEN_FAULT;
    };
    let Ok(smb_port) = smb.bind(words.smb_port) else {
        return LISTEN_FAULT;
    };
    let Ok((office, mut main)) = Office::begin(alloc, words.limit) else {
        return NO_MEMORY;
    };
    match serve_office(
        alloc, rt, &office, &mut main, words, rest_port, smb_port, out, rest, smb, clock, random,
    ) {
        Ok((rest_report, smb_report)) => match office.close(rt, main) {
            Ok(book) => status_of_book(book, rest_report, smb_report),
            Err(fault) => {
                let _out = Office::abandon(fault);
                NO_MEMORY
            }
        },
        Err(unserved) => {
            let_go(office.close(rt, main));
            status_unserved(unserved)
        }
    }
}
