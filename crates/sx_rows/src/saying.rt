//! Lines of sessions: asked of an office one by one, or said to the session's door, and their answers.
//!
//! A table is one text, of which each line is a session's line, ` => ` and its answer, both without their line feeds.
ghost use Rattle.std.specs.Prelude.{◌≡◌, ◌≢◌, ℕ};
ghost use Rattle.sx_book.specs.Passes.{HoldsSession, IsSamePass, KeepsOtherSessions, KeepsSessions};
ghost use Rattle.sx_call.specs.Calls.{door_of};
ghost use Rattle.sx_call.specs.declared.doors.Door.TheVariants.{InSession};
ghost use Rattle.sx_lines.specs.Answers.{has_line};

use crate::asking::{SHARE, asks, link, put, same};
use crate::opening::{Outside, begun, closes, let_go, made, new_year};
use std::alloc::Global;
use std::process::Abort;
use std::sync::Wait;
use sx_base::{Clock, MemLink, MemSink};
use sx_book::{ConnEnd, ConnReport, Office, Pass, Receipt, Session};
use sx_call::{Call, Door, Reply};
use sx_lines::{Line, LineAnswer, call_of_line, print_line};
use sx_reply::word_of;
use sx_smb_door::serve_session;

/// Starts a session of the peer 127.0.0.1.
pub(crate) fn started<R: Abort + Wait>(
    rt: &R,
    office: &Office,
    pass: &mut Pass,
    outside: &mut Outside,
) -> Session
    requires own { pass.old.office ≡ office.now }
    ensures new { HoldsSession pass.new result }
    ensures other { (s : ℕ) → HoldsSession pass.old s → s ≢ result }
    ensures held { KeepsSessions pass.old pass.new }
    ensures same { IsSamePass pass.old pass.new }
{
    let now = outside.clock.now();
    match office.start(rt, pass, now, 2_130_706_433) {
        Ok((session, _)) => session,
        Err(_) => panic!(rt; "no session"),
    }
}

/// The call that a line spells.
fn call_of(rt: &impl Abort, alloc: Global, line: &str) -> Call
    ensures { door_of result ≡ InSession }
{
    match call_of_line(alloc, line.as_bytes()) {
        Ok(Line::Ask(call)) => {
            assert!(rt; call.door() == Door::InSession);
            call
        }
        Ok(Line::Quit) => panic!(rt; "a farewell"),
        Err(_) => panic!(rt; "{line} is no call"),
    }
}

/// Whether a session's answer can print the reply.
fn is_line(reply: &Reply) -> bool
    ensures { result ≡ has_line reply.now }
{
    match reply {
        Reply::Smb(_) => true,
        Reply::Refused(refusal) => word_of(refusal).len() > 0,
        _ => false,
    }
}

/// The reply as the session's door prints it.
fn printed(rt: &impl Abort, alloc: Global, receipt: Receipt, locking: bool) -> MemSink {
    assert!(rt; is_line(&receipt.reply));
    let mut sink = MemSink::new(alloc, Vec::new(alloc));
    let answer = LineAnswer::Core {
        place: receipt.place,
        reply: receipt.reply,
        locking,
    };
    let printed = print_line(&mut sink, &answer);
    let_go(answer);
    made(rt, printed);
    sink
}

/// The line of a row, and its answer.
fn parted<'a>(rt: &impl Abort, row: &'a str) -> (&'a str, &'a str) {
    match row.split_once(" => ") {
        Some(parts) => parts,
        None => panic!(rt; "{row} is no row"),
    }
}

fn put_line(rt: &impl Abort, text: &mut Vec<u8>, line: &str) {
    put(rt, text, line.as_bytes());
    put(rt, text, b"\n");
}

/// The answers of the first rows of a table, so many of them.
pub(crate) fn told(rt: &impl Abort, alloc: Global, table: &str, count: usize) -> Vec<u8> {
    let mut text = Vec::new(alloc);
    for row in table.lines().take(count) {
        put_line(rt, &mut text, parted(rt, row).1);
    }
    text
}

/// The lines of a table.
pub(crate) fn lines(rt: &impl Abort, alloc: Global, table: &str) -> Vec<u8> {
    let mut text = Vec::new(alloc);
    for row in table.lines() {
        put_line(rt, &mut text, parted(rt, row).0);
    }
    text
}

fn check(rt: &impl Abort, alloc: Global, row: &str, receipt: Receipt, locking: bool) {
    let sink = printed(rt, alloc, receipt, locking);
    let mut wanted = Vec::new(alloc);
    put_line(rt, &mut wanted, parted(rt, row).1);
    same(rt, row, sink.bytes(), &wanted);
}

/// Asks the call of one row.
fn say<R: Abort + Wait>(
    rt: &R,
    alloc: Global,
    office: &Office,
    pass: &mut Pass,
    outside: &mut Outside,
    session: &Session,
    row: &str,
)
    requires own { pass.old.office ≡ office.now }
    requires mine { HoldsSession pass.old session.now }
    ensures held { KeepsSessions pass.old pass.new }
    ensures same { IsSamePass pass.old pass.new }
{
    let call = call_of(rt, alloc, parted(rt, row).0);
    let locking = matches!(&call, Call::SmbLock(_));
    let now = outside.clock.now();
    match office.ask(rt, pass, now, 0, Some(session), call) {
        Ok(receipt) => check(rt, alloc, row, receipt, locking),
        Err(_) => panic!(rt; "no place"),
    }
}

/// Asks the calls of the lines in a session that stays live, one after another.
pub(crate) fn says<R: Abort + Wait>(
    rt: &R,
    alloc: Global,
    office: &Office,
    pass: &mut Pass,
    outside: &mut Outside,
    session: &Session,
    table: &str,
)
    requires own { pass.old.office ≡ office.now }
    requires mine { HoldsSession pass.old session.now }
    ensures held { KeepsSessions pass.old pass.new }
    ensures same { IsSamePass pass.old pass.new }
{
    for row in table.lines() {
        say(rt, alloc, office, pass, outside, session, row);
    }
}

/// Serves a session of its own over a link.
pub(crate) fn served<R: Abort + Wait>(
    rt: &R,
    alloc: Global,
    office: &Office,
    pass: &mut Pass,
    outside: &mut Outside,
    link: &mut MemLink,
) -> ConnReport
    requires own { pass.old.office ≡ office.now }
    ensures held { KeepsSessions pass.old pass.new }
    ensures same { IsSamePass pass.old pass.new }
{
    serve_session(
        alloc,
        rt,
        office,
        pass,
        link,
        &mut outside.clock,
        1_099_511_627_776,
    )
}

/// Says the lines to the session's door, from the session's start to its end.
pub(crate) fn talks<R: Abort + Wait>(
    rt: &R,
    alloc: Global,
    office: &Office,
    pass: &mut Pass,
    outside: &mut Outside,
    table: &str,
)
    requires own { pass.old.office ≡ office.now }
    ensures held { KeepsSessions pass.old pass.new }
    ensures same { IsSamePass pass.old pass.new }
{
    let mut link = link(alloc, lines(rt, alloc, table));
    let report = served(rt, alloc, office, pass, outside, &mut link);
    let wanted = told(rt, alloc, table, usize::MAX);
    same(rt, "the session", link.sink.bytes(), &wanted);
    assert!(rt; report.end == ConnEnd::Ended);
}

/// Ends a session.
pub(crate) fn ended<R: Abort + Wait>(
    rt: &R,
    office: &Office,
    pass: &mut Pass,
    outside: &mut Outside,
    session: Session,
)
    requires own { pass.old.office ≡ office.now }
    requires mine { HoldsSession pass.old session }
    ensures others { KeepsOtherSessions session pass.old pass.new }
    ensures same { IsSamePass pass.old pass.new }
{
    let now = outside.clock.now();
    let_go(office.end_session(rt, pass, now, session));
}

/// Asks the requests of a table of an office of its own, and then, by turns and twice, the lines of a table in a
/// session and the requests of a table beside it. The session is ended, and the office has so many entries then.
pub(crate) fn beside_a_session<R: Abort + Wait>(
    rt: &R,
    alloc: Global,
    step: u64,
    made: &str,
    first: (&str, &str),
    second: (&str, &str),
    entries: usize,
) {
    let mut outside = new_year(rt, alloc, step);
    let (office, mut pass) = begun(rt, alloc);
    asks(rt, alloc, &office, &mut pass, &mut outside, made);
    let session = started(rt, &office, &mut pass, &mut outside);
    says(
        rt,
        alloc,
        &office,
        &mut pass,
        &mut outside,
        &session,
        first.0,
    );
    asks(rt, alloc, &office, &mut pass, &mut outside, first.1);
    says(
        rt,
        alloc,
        &office,
        &mut pass,
        &mut outside,
        &session,
        second.0,
    );
    asks(rt, alloc, &office, &mut pass, &mut outside, second.1);
    ended(rt, &office, &mut pass, &mut outside, session);
    closes(rt, office, pass, entries);
}

/// Asks that the share is made of an office of its own, says the lines of a table to the session's door, and asks the
/// requests of a table behind it. The office has so many entries then.
pub(crate) fn before_requests<R: Abort + Wait>(
    rt: &R,
    alloc: Global,
    table: &str,
    behind: &str,
    entries: usize,
) {
    let mut outside = new_year(rt, alloc, 0);
    let (office, mut pass) = begun(rt, alloc);
    asks(rt, alloc, &office, &mut pass, &mut outside, SHARE);
    talks(rt, alloc, &office, &mut pass, &mut outside, table);
    asks(rt, alloc, &office, &mut pass, &mut outside, behind);
    closes(rt, office, pass, entries);
}
