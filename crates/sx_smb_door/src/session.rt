//! A session from its start to its end.
ghost use Rattle.std.specs.Prelude.{◌≡◌, ◌+◌, ◌<◌, ◌≤◌, ◌^◌, [], true, false, MatchOption, length};
ghost use mathlib.Core.List.{IsPrefix};
ghost use Rattle.sx_call.specs.Calls.{door_of};
ghost use Rattle.sx_call.specs.declared.doors.Door.TheVariants.{InSession};
ghost use Rattle.sx_spec.specs.History.{IsHistory};
ghost use Rattle.sx_book.specs.OneHistory.{history_of};
ghost use Rattle.sx_book.specs.Passes.{HasOwnPlaces, HoldsSession, KeepsSessions};
ghost use Rattle.sx_lines.specs.Answers.{answer_line, is_printed};
ghost use Rattle.sx_lines.specs.declared.answer.LineAnswer.TheVariants.{Core};
ghost use Rattle.sx_smb_door.specs.Asking.{caller_in, EndsAs, IsAsked, IsLineAnswered, IsFarewell, AreLinesServed};
ghost use Rattle.sx_book.specs.Reports.{no_tally, report_of, taken_at};
ghost use Rattle.sx_smb_door.specs.Asking.{SaysQuit};
ghost use Rattle.sx_smb_door.specs.Conversation.{SessionConversation, ServesLines, SessionTalk, locks_bytes};
ghost use Rattle.sx_smb_door.specs.Conversation.{end_of, unstarted_report};

use crate::lines::{LineReader, NextLine};
use std::alloc::Global;
use std::sync::Wait;
use sx_answers::session_replies_are_printed;
use sx_base::{Clock, Link, Sink};
use sx_book::{ConnEnd, ConnReport, Full, Office, Pass, Receipt, Session, Tally};
use sx_call::{Call, Stop};
use sx_lines::{Line, LineAnswer, LineFault, call_of_line, print_line};

/// Whether a call locks bytes.
fn locks_bytes(call: &Call) -> bool
    ensures { result ≡ locks_bytes call.now }
{
    matches!(call, Call::SmbLock(_))
}

/// Asks the call of a line, and gives the answer.
fn answer_call<R: Wait, C: Clock>(
    rt: &R,
    office: &Office,
    pass: &mut Pass,
    session: &Session,
    clock: &mut C,
    tally: &mut Tally,
    call: Call,
) -> LineAnswer
    requires own { pass.old.office ≡ office.now }
    requires held { HoldsSession pass.old session.now }
    requires call { door_of call ≡ InSession }
    requires asked { tally.old.asked + 1 < 2 ^ 64 }
    ensures keeps { KeepsSessions pass.old pass.new }
    ensures asked { IsAsked C.ticks session.now call
        (record { pass = pass.old; clock = clock.old; tally = tally.old })
        (record { pass = pass.new; clock = clock.new; tally = tally.new }) result }
{
    // The reply to a session's call can be printed.
    session_replies_are_printed();
    let locking = locks_bytes(&call);
    let now = clock.now();
    tally.asked += 1;
    match office.ask(rt, pass, now, 0, Some(session), call) {
        Ok(receipt) => LineAnswer::Core {
            place: receipt.place,
            reply: receipt.reply,
            locking,
        },
        Err(stop) => {
            tally.note(stop);
            LineAnswer::Stop(stop)
        }
    }
}

/// Answers one line, or gives none where it is `quit`.
fn answer_line<R: Wait, C: Clock>(
    alloc: Global,
    rt: &R,
    office: &Office,
    pass: &mut Pass,
    session: &Session,
    clock: &mut C,
    tally: &mut Tally,
    line: &[u8],
) -> Option<LineAnswer>
    requires own { pass.old.office ≡ office.now }
    requires held { HoldsSession pass.old session.now }
    requires asked { tally.old.asked + 1 < 2 ^ 64 }
    ensures keeps { KeepsSessions pass.old pass.new }
    ensures answered { MatchOption result
        (SaysQuit line.now (record { pass = pass.old; clock = clock.old; tally = tally.old })
        (record { pass = pass.new; clock = clock.new; tally = tally.new }))
        (λ answer. IsLineAnswered C.ticks (caller_in pass.old session.now) line.now
        (record { pass = pass.old; clock = clock.old; tally = tally.old })
        (record { pass = pass.new; clock = clock.new; tally = tally.new }) answer) }
{
    match call_of_line(alloc, line) {
        Ok(Line::Ask(call)) => { Some(answer_call(rt, office, pass, session, clock, tally, call)) }
        Ok(Line::Quit) => None,
        Err(LineFault::Syntax { at }) => Some(LineAnswer::Syntax { at }),
        Err(LineFault::NoMemory) => {
            tally.no_memory = true;
            Some(LineAnswer::Stop(Stop::NoMemory))
        }
    }
}

/// Answers the lines of a link until no more are given, and says how they ended, or none where it was by `quit`.
fn serve_lines<R: Wait, L: Link, C: Clock>(
    alloc: Global,
    rt: &R,
    office: &Office,
    pass: &mut Pass,
    session: &Session,
    link: &mut L,
    clock: &mut C,
    reader: &mut LineReader,
    tally: &mut Tally,
) -> Option<ConnEnd>
    requires own { pass.old.office ≡ office.now }
    requires held { HoldsSession pass.old session.now }
    requires reader { (reader.old.held ≡ []) × (reader.old.taken ≡ 0) }
    requires tally { tally.old ≡ no_tally }
    ensures served { (talk : SessionTalk) × EndsAs result talk
        × AreLinesServed C.ticks (caller_in pass.old session.now) talk
        (record { pass = pass.old; clock = clock.old; tally = tally.old })
        (record { pass = pass.new; clock = clock.new; tally = tally.new }) reader.new.taken
        × ServesLines (caller_in pass.old session.now) reader.old.budget [] talk
        (L.wrote link.old) (L.wrote link.new)
        (record { left = L.left link.old; reads = L.read_count link.old; writes = L.write_count link.old })
        (record { left = L.left link.new; reads = L.read_count link.new; writes = L.write_count link.new }) }
    ensures held { HoldsSession pass.new session.now }
    ensures keeps { KeepsSessions pass.old pass.new }
    ensures pass { pass.new ≡ record pass.old { seen = pass.new.seen; mine = pass.new.mine } }
    ensures within { reader.new.taken ≤ reader.old.budget }
    ensures calls { L.calls link.old link.new }
{
    loop {
        match reader.next(link) {
            NextLine::Line(line) => {
                // Each call that was asked took a byte or more, so that their count fits as the bytes' does.
                let _taken = reader.taken();
                let answer = answer_line(
                    alloc,
                    rt,
                    office,
                    pass,
                    session,
                    clock,
                    tally,
                    line.as_slice(),
                );
                let Some(answer) = answer else {
                    return None;
                };
                match print_line(link, &answer) {
                    Ok(()) => {}
                    Err(_) => return Some(ConnEnd::WriteFault),
                }
            }
            NextLine::Long { at } => return match print_line(link, &LineAnswer::Long) {
                Ok(()) => Some(ConnEnd::Closed { at: Some(at) }),
                Err(_) => Some(ConnEnd::WriteFault),
            },
            NextLine::End => return Some(ConnEnd::Ended),
            NextLine::Cut { left } => return Some(ConnEnd::Cut { left }),
            NextLine::Spent => return Some(ConnEnd::Spent),
            NextLine::ReadFault => return Some(ConnEnd::ReadFault),
            NextLine::NoMemory => return Some(ConnEnd::NoMemory),
        }
    }
}

/// The report of a session whose lines ended so.
fn report(end: ConnEnd, taken: u64, budget: u64, tally: Tally) -> ConnReport
    requires { taken_at end taken budget < 2 ^ 64 }
    ensures { result ≡ report_of end taken budget tally }
{
    let taken = match end {
        ConnEnd::Cut { left } => taken + left,
        ConnEnd::Spent => budget,
        _ => taken,
    };
    ConnReport {
        end,
        taken,
        asked: tally.asked,
        full: tally.full,
        starved: tally.no_memory,
    }
}

/// The report of a session that was not started.
fn unstarted_report(end: ConnEnd) -> ConnReport
    ensures { result ≡ unstarted_report end }
{
    ConnReport {
        end,
        taken: 0,
        asked: 0,
        full: None,
        starved: false,
    }
}

/// The report of a session whose start was not appended.
fn refused(stop: Stop) -> ConnReport
    ensures { result ≡ unstarted_report (end_of stop) }
{
    match stop {
        Stop::NoMemory => unstarted_report(ConnEnd::NoMemory),
        Stop::HistoryFull {
            entries,
            sessions,
            limit,
        } => unstarted_report(ConnEnd::Full(Full {
            entries,
            sessions,
            limit,
        })),
    }
}

/// Writes the answer to `quit`, which is that of the session's End, where the lines ended by it, and says how the
/// session ended.
fn say_farewell<K: Sink>(sink: &mut K, lines: Option<ConnEnd>, ended: Receipt) -> ConnEnd
    requires { is_printed (Core ended.place ended.reply false) ≡ true }
    ensures said { IsFarewell K.wrote K.write_count sink.old sink.new
        (answer_line (Core ended.place ended.reply false)) lines result }
    ensures step { K.puts sink.old sink.new }
{
    let answer = LineAnswer::Core {
        place: ended.place,
        reply: ended.reply,
        locking: false,
    };
    match lines {
        Some(end) => end,
        None => match print_line(sink, &answer) {
            Ok(()) => ConnEnd::Closed { at: None },
            Err(_) => ConnEnd::WriteFault,
        },
    }
}

/// Serves one session through an office: starts it, answers its lines until no more are given or the budget of bytes
/// is spent, and ends it. Others may ask the office meanwhile. The line `quit` ends it and is answered by its End.
///
/// Where the start is refused, no byte is read or written: the report's end is then `Full` or `NoMemory`. `WriteFault`
/// and `ReadFault` come only where the link's counts of failures rose. Every session that was started is ended, and
/// only where `quit` ended it is the End's answer written. The pass goes on holding the sessions that it held.
pub fn serve_session<R: Wait, L: Link, C: Clock>(
    alloc: Global,
    rt: &R,
    office: &Office,
    pass: &mut Pass,
    link: &mut L,
    clock: &mut C,
    budget: u64,
) -> ConnReport
    requires own { pass.old.office ≡ office.now }
    ensures conversation { SessionConversation C.ticks (L.wrote link.old) (L.wrote link.new)
        (record {
          who = pass.old.number;
          peer = L.peer_of link.old;
          budget = budget;
          history = history_of pass.new;
          from = length pass.old.seen;
        })
        (record {
          sides = record { left = L.left link.old; reads = L.read_count link.old; writes = L.write_count link.old };
          clock = clock.old;
        })
        (record {
          sides = record { left = L.left link.new; reads = L.read_count link.new; writes = L.write_count link.new };
          clock = clock.new;
        }) result }
    ensures history { IsPrefix pass.old.seen pass.new.seen × IsHistory pass.new.limit pass.new.seen }
    ensures places { HasOwnPlaces pass.new }
    ensures pass { pass.new ≡ record pass.old { seen = pass.new.seen; mine = pass.new.mine } }
    ensures held { KeepsSessions pass.old pass.new }
    ensures calls { L.calls link.old link.new }
{
    let peer = link.peer();
    let now = clock.now();
    let session = match office.start(rt, pass, now, peer) {
        Ok((session, _receipt)) => session,
        Err(stop) => return refused(stop),
    };
    let mut reader = LineReader::new(alloc, budget);
    let mut tally = Tally {
        asked: 0,
        full: None,
        no_memory: false,
    };
    let lines = serve_lines(
        alloc,
        rt,
        office,
        pass,
        &session,
        link,
        clock,
        &mut reader,
        &mut tally,
    );
    // The reply to an End can be printed.
    session_replies_are_printed();
    let now = clock.now();
    let receipt = office.end_session(rt, pass, now, session);
    let end = say_farewell(link, lines, receipt);
    report(end, reader.taken(), budget, tally)
}
