//! The program by its words, over any input, output and clock.
ghost use Rattle.std.specs.Prelude.{◌≡◌, ◌+◌, ◌≤◌, ◌⊎◌, IfOk, OnOk, length, map};
ghost use Rattle.std.specs.String.{string_bytes};
ghost use mathlib.Core.List.{IsPrefix};
ghost use Rattle.sx_base.specs.Causes.{Rose};
ghost use Rattle.sx_base.specs.Clock.{greatest_moment};
ghost use Rattle.sx_spec.specs.History.{IsHistory};
ghost use Rattle.sx_book.specs.OneHistory.{history_of};
ghost use Rattle.sx_book.specs.Passes.{first_pass};
ghost use Rattle.sx_book.specs.Reports.{HasPrefix, HasText};
ghost use Rattle.sx_smb_door.specs.Conversation.{SessionConversation};
ghost use Rattle.sharebox.specs.Opening.{HasMade, HasOpened};
ghost use Rattle.sharebox.specs.Command.{Runs, IsSessionRun, loopback, refusal_line};
ghost use Rattle.sharebox.specs.Limits.{history_limit, input_budget, status_by_counts, status_of, status_after_close};

use crate::command::{Command, WordsFault, command_of};
use crate::conn::conn;
use std::alloc::Global;
use std::sync::Wait;
use std::thread::Threads;
use sx_base::{Both, Clock, Listener, NoMemory, Random, Sink, Source};
use sx_book::{Book, CloseFault, ConnEnd, ConnReport, Office, Pass};
use sx_call::{Call, CreateShare};
use sx_names::{Meta, Quota, ShareName};
use sx_run::serve;
use sx_smb_door::serve_session;
use sx_tool::{check_input, sign_input};

/// The status where the input was read to its end.
const DONE: u8 = 0;

/// The status where the words are no command.
const WORDS_REFUSED: u8 = 1;

/// The status where a line was over its limit or cut, or the budget of bytes was spent.
const INPUT_REFUSED: u8 = 2;

/// The status where a read failed.
const READ_FAULT: u8 = 3;

/// The status where a write failed.
const WRITE_FAULT: u8 = 4;

/// The status where memory ran out, or the office gave no pass or could not be closed.
pub(crate) const NO_MEMORY: u8 = 5;

/// The status where the history was full.
const HISTORY_FULL: u8 = 7;

/// How many places the history has.
pub(crate) const HISTORY_LIMIT: u32 = 1_000_000;

/// The quota of the session's share, in GiB.
const SHARE_QUOTA: u32 = 5_120;

/// The caller of the session or connection: the number of its pass.
pub(crate) const SESSION_CALLER: u32 = 1;

/// The address of the peer: 127.0.0.1.
pub(crate) const LOOPBACK: u32 = 0x7f00_0001;

/// How many bytes of input a session or connection may take.
pub(crate) const INPUT_BUDGET: u64 = 1 << 40;

/// Makes the share of a session.
fn create_share<R: Wait>(
    alloc: Global,
    rt: &R,
    office: &Office,
    main: &mut Pass,
    share: &ShareName,
    now: u64,
) -> Result<(), NoMemory>
    requires clock { now ≤ greatest_moment }
    requires main { main.old ≡ first_pass office.now history_limit }
    ensures ok { OnOk result (HasMade office.now share.now now main.new) }
    ensures own { main.new.office ≡ office.now }
{
    let call = Call::CreateShare(CreateShare {
        share: share.copy()?,
        quota: Quota::of(SHARE_QUOTA),
        meta: Meta::new(alloc),
    });
    match office.ask(rt, main, now, 0, None, call) {
        Ok(_) => Ok(()),
        Err(_) => Err(NoMemory),
    }
}

/// Makes the share, and takes a pass for the session, of number 1.
fn open<R: Wait>(
    alloc: Global,
    rt: &R,
    office: &Office,
    main: &mut Pass,
    share: &ShareName,
    now: u64,
) -> Result<Pass, NoMemory>
    requires clock { now ≤ greatest_moment }
    requires main { main.old ≡ first_pass office.now history_limit }
    ensures ok { IfOk result (λ pass. HasOpened office.now share.now now main.new pass) }
    ensures own { main.new.office ≡ office.now }
{
    create_share(alloc, rt, office, main, share, now)?;
    let Ok(pass) = office.split(rt, main) else {
        return Err(NoMemory);
    };
    if pass.number() != SESSION_CALLER {
        office.meet(main, pass);
        return Err(NoMemory);
    }
    Ok(pass)
}

/// Lets go of what an office's close gave: its book, or the office that could not be closed.
pub(crate) fn let_go(closed: Result<Book, CloseFault<Office, Pass>>) {
    match closed {
        Ok(_book) => {}
        Err(fault) => {
            let _out = Office::abandon(fault);
        }
    }
}

/// The status of a session whose streams did not fail.
fn status_by_counts(report: &ConnReport, status: u8) -> u8
    ensures { result ≡ status_by_counts report.now.starved report.now.full status }
{
    if report.starved {
        return NO_MEMORY;
    }
    match report.full {
        Some(_) => HISTORY_FULL,
        None => status,
    }
}

/// The status of a session's report.
fn status_of(report: &ConnReport) -> u8
    ensures { result ≡ status_of report.now }
{
    match report.end {
        ConnEnd::ReadFault => READ_FAULT,
        ConnEnd::WriteFault => WRITE_FAULT,
        ConnEnd::NoMemory => NO_MEMORY,
        ConnEnd::Full(_) => status_by_counts(report, HISTORY_FULL),
        ConnEnd::Cut { .. } | ConnEnd::Spent | ConnEnd::Closed { at: Some(_) } => {
            status_by_counts(report, INPUT_REFUSED)
        }
        ConnEnd::Ended | ConnEnd::Closed { at: None } => status_by_counts(report, DONE),
    }
}

/// The status where the office was closed, or could not be, which counts as out of memory.
pub(crate) fn status_after_close(
    closed: Result<Book, CloseFault<Office, Pass>>,
    report: ConnReport,
) -> u8
    ensures { result ≡ status_after_close closed report }
{
    match closed {
        Ok(_book) => status_of(&report),
        Err(fault) => {
            let _out = Office::abandon(fault);
            status_of(&ConnReport {
                starved: true,
                ..report
            })
        }
    }
}

/// Serves one session over input and output.
fn serve_streams<R: Wait, S: Source, K: Sink, C: Clock>(
    alloc: Global,
    rt: &R,
    office: &Office,
    pass: &mut Pass,
    input: &mut S,
    out: &mut K,
    clock: &mut C,
) -> ConnReport
    requires { pass.old.office ≡ office.now }
    ensures conversation { SessionConversation C.ticks (K.wrote out.old) (K.wrote out.new)
        (record {
          who = pass.old.number;
          peer = loopback;
          budget = input_budget;
          history = history_of pass.new;
          from = length pass.old.seen;
        })
        (record {
          sides = record { left = S.left input.old; reads = S.read_count input.old; writes = K.write_count out.old };
          clock = clock.old;
        })
        (record {
          sides = record { left = S.left input.new; reads = S.read_count input.new; writes = K.write_count out.new };
          clock = clock.new;
        }) result }
    ensures history { IsPrefix pass.old.seen pass.new.seen × IsHistory pass.new.limit pass.new.seen }
    ensures pass { pass.new ≡ record pass.old { seen = pass.new.seen; mine = pass.new.mine } }
{
    let mut link = Both {
        source: input,
        sink: out,
        peer: LOOPBACK,
    };
    serve_session(alloc, rt, office, pass, &mut link, clock, INPUT_BUDGET)
}

/// Makes the share in a new office, serves one session over input and output through a pass of its own, and
/// closes the office.
fn session<R: Wait, S: Source, K: Sink, C: Clock>(
    alloc: Global,
    rt: &R,
    share: &ShareName,
    input: &mut S,
    out: &mut K,
    clock: &mut C,
) -> u8
    ensures { IsSessionRun C.ticks share.now (K.wrote out.old) (K.wrote out.new)
        (record {
          sides = record { left = S.left input.old; reads = S.read_count input.old; writes = K.write_count out.old };
          clock = clock.old;
        })
        (record {
          sides = record { left = S.left input.new; reads = S.read_count input.new; writes = K.write_count out.new };
          clock = clock.new;
        }) result }
{
    let Ok((office, mut main)) = Office::begin(alloc, HISTORY_LIMIT) else {
        return NO_MEMORY;
    };
    let now = clock.now();
    match open(alloc, rt, &office, &mut main, share, now) {
        Ok(mut pass) => {
            let report = serve_streams(alloc, rt, &office, &mut pass, input, out, clock);
            office.meet(&mut main, pass);
            status_after_close(office.close(rt, main), report)
        }
        Err(NoMemory) => {
            let_go(office.close(rt, main));
            NO_MEMORY
        }
    }
}

/// Refuses words that are no command.
fn refuse_words<K: Sink>(out: &mut K) -> u8
    ensures status { result ≡ 1 }
    ensures written { HasText (K.wrote out.old) (K.wrote out.new) refusal_line
        ⊎ (HasPrefix (K.wrote out.old) (K.wrote out.new) refusal_line
        × Rose (K.write_count out.old) (K.write_count out.new)) }
{
    // The words are refused where this can't be written, too.
    let _written = out.put(b"words refused\n");
    WORDS_REFUSED
}

/// Does what the words of the command line say, and gives the program's status.
///
/// `session SHARE` makes the share, and serves one session over input and output: 0 where the input was read to its
/// end or to `quit`, 2 where a line was over its limit, cut, or past the budget of bytes, 3 and 4 where a read or write
/// failed, 5 where memory ran out, or the office gave no pass or could not be closed, 7 where the history was full.
/// `sign ACCOUNT KEY` and `check ACCOUNT KEY TICKS` do what `sx_tool::run_tool` says, and ask no clock. All other words
/// are refused with 1. `conn ACCOUNT KEY` serves one connection, of requests that are signed for the account, to an
/// empty account, with the statuses of a session: 0 where the input was read to its end or a request closed it, 2 where
/// a request was cut or can't be read. `serve RESTPORT SMBPORT RESTWORKERS SMBWORKERS CONNS LIMIT ACCOUNT KEY` does
/// what `sx_run::serve` says over the two listeners, which all other commands leave as they are: 6 where a call of a
/// listener failed. Only a connection and the service draw random words.
pub fn run<W: Threads + Wait + Sync, S: Source, K: Sink, C: Clock, R: Random, L: Listener>(
    alloc: Global,
    rt: &W,
    words: &[String],
    input: &mut S,
    out: &mut K,
    clock: &mut C,
    random: &mut R,
    rest: &mut L,
    smb: &mut L,
) -> u8
where
    L::Link: Send,
    ensures { Runs K.wrote C.ticks R.draws (λ l. record { links = L.links l; faults = L.listen_count l })
        (record {
          wrote = L.Link.wrote;
          peer = L.Link.peer_of;
          left = L.Link.left;
          reads = L.Link.read_count;
          writes = L.Link.write_count;
          calls = L.Link.calls;
        })
        (map string_bytes words.now)
        (record {
          sides = record { left = S.left input.old; reads = S.read_count input.old; writes = K.write_count out.old };
          out = out.old;
          clock = clock.old;
          random = random.old;
          rest = rest.old;
          smb = smb.old;
        })
        (record {
          sides = record { left = S.left input.new; reads = S.read_count input.new; writes = K.write_count out.new };
          out = out.new;
          clock = clock.new;
          random = random.new;
          rest = rest.new;
          smb = smb.new;
        }) result }
{
    match command_of(alloc, words) {
        Ok(Command::Session(share)) => session(alloc, rt, &share, input, out, clock),
        Ok(Command::Conn(account)) => conn(alloc, rt, &account, input, out, clock, random),
        Ok(Command::Serve(serving)) => serve(alloc, rt, &serving, out, rest, smb, clock, random),
        Ok(Command::Sign(account)) => sign_input(alloc, &account, input, out),
        Ok(Command::Check(account, now)) => check_input(alloc, &account, now, input, out),
        Err(WordsFault::NoMemory) => NO_MEMORY,
        Err(WordsFault::Unknown) => refuse_words(out),
    }
}
