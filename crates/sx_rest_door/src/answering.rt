//! The answer to one request.
ghost use Rattle.std.specs.Prelude.{◌≡◌, ◌+◌, ◌<◌, ◌≤◌, ◌^◌};
ghost use Rattle.sx_base.specs.Clock.{greatest_moment};
ghost use Rattle.sx_call.specs.Calls.{door_of};
ghost use Rattle.sx_call.specs.declared.doors.Door.TheVariants.{Rest};
ghost use Rattle.sx_book.specs.Passes.{KeepsSessions};
ghost use Rattle.sx_rest_door.specs.Asking.{DrawsFresh, IsRequestAnswered, IsOutcomeOf};
ghost use Rattle.sx_rest_door.specs.Asking.{said_uncalled, tally_uncalled};
ghost use Rattle.sx_rest_door.specs.Conversation.{ComesTo};

use crate::judging::{Uncalled, judge};
use std::alloc::Global;
use std::sync::Wait;
use sx_answers::rest_replies_are_printed;
use sx_base::Random;
use sx_book::{Office, Pass, Tally};
use sx_call::{Call, Stop};
use sx_http::Request;
use sx_key::Account;
use sx_moment::Moment;
use sx_reply::{Answer, Said};

/// How many values a random word has.
const WORD: u128 = 18_446_744_073_709_551_616;

/// The random number of a call, of two words.
fn draw<R: Random>(random: &mut R) -> u128
    ensures { DrawsFresh R.draws random.old result random.new }
{
    let first = random.word();
    let second = random.word();
    first as u128 * WORD + second as u128
}

/// Asks a call at a moment, and gives the answer.
fn answer_call<W: Wait, R: Random>(
    rt: &W,
    office: &Office,
    pass: &mut Pass,
    random: &mut R,
    tally: &mut Tally,
    now: u64,
    call: Call,
) -> Answer
    requires own { pass.old.office ≡ office.now }
    requires clock { now ≤ greatest_moment }
    requires call { door_of call ≡ Rest }
    requires asked { tally.old.asked + 1 < 2 ^ 64 }
    ensures keeps { KeepsSessions pass.old pass.new }
    ensures asked { IsRequestAnswered R.draws now (IsOutcomeOf call)
        (record { pass = pass.old; random = random.old; tally = tally.old })
        (record { pass = pass.new; random = random.new; tally = tally.new }) result }
{
    // The reply to a REST call can be printed.
    rest_replies_are_printed();
    let fresh = draw(random);
    tally.asked += 1;
    match office.ask(rt, pass, now, fresh, None, call) {
        Ok(receipt) => Answer {
            place: receipt.place,
            at: Moment::of(receipt.at),
            said: Said::Core(receipt.reply),
        },
        Err(stop) => {
            tally.note(stop);
            unplaced(now, Said::Stop(stop))
        }
    }
}

/// An answer that stands in no history.
pub(crate) fn unplaced(now: u64, said: Said) -> Answer
    requires { now ≤ greatest_moment }
    ensures { result ≡ record { place = 0; at = now; said = said } }
{
    Answer {
        place: 0,
        at: Moment::of(now),
        said,
    }
}

/// The answer to a request that has no call.
fn refuse(tally: &mut Tally, now: u64, uncalled: Uncalled) -> Answer
    requires { now ≤ greatest_moment }
    ensures answer { result ≡ record { place = 0; at = now; said = said_uncalled uncalled } }
    ensures tally { tally.new ≡ tally_uncalled tally.old uncalled }
{
    match uncalled {
        Uncalled::NotSigned(text) => unplaced(now, Said::Auth(text)),
        Uncalled::NoCall(syntax) => unplaced(now, Said::Syntax(syntax)),
        Uncalled::NotRead => {
            tally.no_memory = true;
            unplaced(now, Said::Stop(Stop::NoMemory))
        }
    }
}

/// The answer to a request at a moment: to its signature, to its reading, or to its call, which is asked.
pub(crate) fn answer_request<W: Wait, R: Random>(
    alloc: Global,
    rt: &W,
    office: &Office,
    pass: &mut Pass,
    account: &Account,
    random: &mut R,
    tally: &mut Tally,
    now: u64,
    request: Request,
) -> Answer
    requires own { pass.old.office ≡ office.now }
    requires clock { now ≤ greatest_moment }
    requires asked { tally.old.asked + 1 < 2 ^ 64 }
    ensures keeps { KeepsSessions pass.old pass.new }
    ensures answered { IsRequestAnswered R.draws now (ComesTo account.now request now)
        (record { pass = pass.old; random = random.old; tally = tally.old })
        (record { pass = pass.new; random = random.new; tally = tally.new }) result }
{
    match judge(alloc, account, now, request) {
        Ok(call) => answer_call(rt, office, pass, random, tally, now, call),
        Err(uncalled) => refuse(tally, now, uncalled),
    }
}
