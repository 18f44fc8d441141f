//! A connection from its first request to its end.
ghost use Rattle.std.specs.Prelude.{◌≡◌, ◌+◌, ◌≤◌, ◌<◌, ◌^◌, ◌++◌, [], true, false, length};
ghost use mathlib.Core.List.{IsPrefix};
ghost use Rattle.sx_base.specs.Clock.{greatest_moment};
ghost use Rattle.sx_base.specs.Sink.{Prints};
ghost use Rattle.sx_book.specs.OneHistory.{history_of};
ghost use Rattle.sx_book.specs.Passes.{KeepsSessions};
ghost use Rattle.sx_reply.specs.PrintedReply.{is_printed, printed};
ghost use Rattle.sx_rest_door.specs.Asking.{AreRequestsServed, IsTurn, KeepsHistory, Replies, end_at, end_behind};
ghost use Rattle.sx_rest_door.specs.Asking.{own_places_behind};
ghost use Rattle.sx_book.specs.Reports.{no_tally, taken_at};
ghost use Rattle.sx_rest_door.specs.Conversation.{RestConversation, ServesRequests, RestTalk, refusal_text};

use crate::answering::{answer_request, unplaced};
use crate::closing::shape_of;
use crate::hearing::{Heard, Unreadable, hear};
use std::alloc::Global;
use std::sync::Wait;
use sx_base::{Clock, Failed, Link, Random, Sink};
use sx_book::{ConnEnd, ConnReport, Office, Pass, Tally};
use sx_http::{Reader, Request};
use sx_key::Account;
use sx_reply::{Answer, Said, Shape, print};

/// Writes the answer to a request that can't be read, behind which the connection closes.
fn refuse<K: Sink>(sink: &mut K, now: u64, why: Unreadable) -> Result<(), Failed>
    requires { now ≤ greatest_moment }
    ensures { Prints K.wrote K.write_count K.puts sink.old sink.new
        (refusal_text (record { why = why; moment = now })) result }
{
    let shape = Shape {
        head_only: why.head_only,
        close: true,
    };
    print(sink, &unplaced(now, Said::Wire(why.text)), shape)
}

/// Prints the answer to a request.
fn print_answer<K: Sink>(sink: &mut K, answer: Answer, shape: Shape) -> Result<(), Failed>
    requires { is_printed answer.said ≡ true }
    ensures { Prints K.wrote K.write_count K.puts sink.old sink.new (printed answer shape) result }
{
    print(sink, &answer, shape)
}

/// Answers a request at a moment, and tells whether the connection closes behind the answer.
fn reply<W: Wait, K: Sink, R: Random>(
    alloc: Global,
    rt: &W,
    office: &Office,
    pass: &mut Pass,
    account: &Account,
    random: &mut R,
    tally: &mut Tally,
    sink: &mut K,
    now: u64,
    request: Request,
) -> Result<bool, Failed>
    requires own { pass.old.office ≡ office.now }
    requires clock { now ≤ greatest_moment }
    requires asked { tally.old.asked + 1 < 2 ^ 64 }
    ensures keeps { KeepsSessions pass.old pass.new }
    ensures replies { Replies K.wrote K.write_count K.puts R.draws account.now now request
        (record { pass = pass.old; random = random.old; tally = tally.old })
        (record { pass = pass.new; random = random.new; tally = tally.new }) sink.old sink.new result }
{
    let shape = shape_of(&request.head);
    let answer = answer_request(
        alloc, rt, office, pass, account, random, tally, now, request,
    );
    match print_answer(sink, answer, shape) {
        Ok(()) => Ok(shape.close),
        Err(failed) => Err(failed),
    }
}

/// How a connection goes on behind an answer: none where it stays open.
fn end_behind(printed: Result<bool, Failed>) -> Option<ConnEnd>
    ensures { result ≡ end_behind printed }
{
    match printed {
        Ok(false) => None,
        Ok(true) => Some(ConnEnd::Closed { at: None }),
        Err(_) => Some(ConnEnd::WriteFault),
    }
}

/// How a connection ends behind the answer to a request that can't be read, which begins at this byte.
fn end_at(printed: Result<(), Failed>, at: u64) -> ConnEnd
    ensures { result ≡ end_at printed at }
{
    match printed {
        Ok(()) => ConnEnd::Closed { at: Some(at) },
        Err(_) => ConnEnd::WriteFault,
    }
}

/// Answers what stands next on a link, and says how the connection ended, where it did.
fn serve_next<W: Wait, L: Link, C: Clock, R: Random>(
    alloc: Global,
    rt: &W,
    office: &Office,
    pass: &mut Pass,
    link: &mut L,
    clock: &mut C,
    random: &mut R,
    account: &Account,
    reader: &mut Reader,
    tally: &mut Tally,
) -> Option<ConnEnd>
    requires own { pass.old.office ≡ office.now }
    requires reader { reader.old.ended ≡ false }
    requires asked { tally.old.asked ≤ reader.old.given }
    ensures turn { IsTurn result C.ticks R.draws account.now (L.wrote link.old) (L.wrote link.new)
        (record {
          reader = reader.old;
          clock = clock.old;
          door = record { pass = pass.old; random = random.old; tally = tally.old };
          sides = record { left = L.left link.old; reads = L.read_count link.old; writes = L.write_count link.old };
        })
        (record {
          reader = reader.new;
          clock = clock.new;
          door = record { pass = pass.new; random = random.new; tally = tally.new };
          sides = record { left = L.left link.new; reads = L.read_count link.new; writes = L.write_count link.new };
        }) }
    ensures keeps { KeepsSessions pass.old pass.new }
    ensures within { reader.new.given + length reader.new.held ≤ reader.new.budget }
    ensures calls { L.calls link.old link.new }
{
    match hear(reader, link) {
        Heard::Asks(request) => {
            // Each call that was asked took a byte or more, so that their count fits as the bytes' does.
            let _taken = reader.taken();
            let now = clock.now();
            end_behind(reply(
                alloc, rt, office, pass, account, random, tally, link, now, request,
            ))
        }
        Heard::Refuses(why) => {
            let now = clock.now();
            Some(end_at(refuse(link, now, why), why.at))
        }
        Heard::Ends(end) => Some(end),
    }
}

/// Answers the requests of a link until no more are given or one closes it, and says how they ended.
fn serve_requests<W: Wait, L: Link, C: Clock, R: Random>(
    alloc: Global,
    rt: &W,
    office: &Office,
    pass: &mut Pass,
    link: &mut L,
    clock: &mut C,
    random: &mut R,
    account: &Account,
    reader: &mut Reader,
    tally: &mut Tally,
) -> ConnEnd
    requires own { pass.old.office ≡ office.now }
    requires reader { (reader.old.held ≡ []) × (reader.old.given ≡ 0) × (reader.old.ended ≡ false) }
    requires tally { tally.old ≡ no_tally }
    ensures served { (talk : RestTalk) × (talk.end ≡ result)
        × AreRequestsServed C.ticks R.draws talk clock.old clock.new
        (record { pass = pass.old; random = random.old; tally = tally.old })
        (record { pass = pass.new; random = random.new; tally = tally.new })
        × ServesRequests account.now (history_of pass.new) reader.old.budget talk (L.wrote link.old) (L.wrote link.new)
        (record { left = L.left link.old; reads = L.read_count link.old; writes = L.write_count link.old })
        (record { left = L.left link.new; reads = L.read_count link.new; writes = L.write_count link.new })
        × (reader.new.taken ≡ taken_at result talk.given reader.old.budget) }
    ensures keeps { KeepsSessions pass.old pass.new }
    ensures calls { L.calls link.old link.new }
{
    loop {
        let turn = serve_next(
            alloc, rt, office, pass, link, clock, random, account, reader, tally,
        );
        if let Some(end) = turn {
            return end;
        }
    }
}

/// Serves one connection through an office: answers its requests until no more are given, one closes it, or the budget
/// of bytes is spent. Others may ask the office meanwhile.
///
/// Each request is judged at one moment of the clock, asked for behind its last byte: its signature under the account's
/// key, then what it spells; then its call is asked, with two random words. A request that can't be read is answered,
/// and ends the connection as `Closed` at its first byte; HTTP/1.0 and `Connection: close` end it as `Closed` behind
/// their answer. `WriteFault` and `ReadFault` come only where the link's counts of failures rose. `asked` counts the
/// calls that were handed to the office, `full` has the last time that the history was full for one, and `starved`
/// tells that one was answered with want of memory. The pass goes on holding the sessions that it held.
pub fn serve_conn<W: Wait, L: Link, C: Clock, R: Random>(
    alloc: Global,
    rt: &W,
    office: &Office,
    pass: &mut Pass,
    link: &mut L,
    clock: &mut C,
    random: &mut R,
    account: &Account,
    budget: u64,
) -> ConnReport
    requires own { pass.old.office ≡ office.now }
    ensures conversation { RestConversation C.ticks R.draws (L.wrote link.old) (L.wrote link.new)
        (record {
          who = pass.old.number;
          account = account.now;
          budget = budget;
          history = history_of pass.new;
          from = length pass.old.seen;
        })
        (record {
          sides = record { left = L.left link.old; reads = L.read_count link.old; writes = L.write_count link.old };
          clock = clock.old;
          random = random.old;
        })
        (record {
          sides = record { left = L.left link.new; reads = L.read_count link.new; writes = L.write_count link.new };
          clock = clock.new;
          random = random.new;
        }) result }
    ensures grown { IsPrefix pass.old.seen pass.new.seen }
    ensures history { KeepsHistory pass.old pass.new }
    ensures pass { pass.new ≡ record pass.old {
      seen = pass.new.seen;
      mine = pass.old.mine ++ own_places_behind pass.old pass.new.seen;
    } }
    ensures held { KeepsSessions pass.old pass.new }
    ensures calls { L.calls link.old link.new }
{
    let mut reader = Reader::new(alloc, budget);
    let mut tally = Tally {
        asked: 0,
        full: None,
        no_memory: false,
    };
    let end = serve_requests(
        alloc,
        rt,
        office,
        pass,
        link,
        clock,
        random,
        account,
        &mut reader,
        &mut tally,
    );
    ConnReport {
        end,
        taken: reader.taken(),
        asked: tally.asked,
        full: tally.full,
        starved: tally.no_memory,
    }
}
