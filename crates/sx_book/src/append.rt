//! A call of one caller, appended to a book as an entry.
ghost use Rattle.std.specs.Prelude.{◌≡◌, ◌+◌, ◌≤◌, ◌<◌, true, IfOk, OnOk, OnErr, IsOk, Err, length, ℕ};
ghost use Rattle.sx_base.specs.Clock.{greatest_moment};
ghost use Rattle.sx_call.specs.Calls.{door_of};
ghost use Rattle.sx_call.specs.declared.calls.Call.TheVariants as Call;
ghost use Rattle.sx_call.specs.declared.refusals.Stop.TheVariants as Stop;
ghost use Rattle.sx_spec.specs.History.{IsHistory, stands_in, wants};
ghost use Rattle.sx_spec.specs.Step.{replay};
ghost use Rattle.sx_book.specs.Passes.{entry_behind, with_noted, receipt_of, fresh_for};

use crate::book::Book;
use crate::pass::Receipt;
use sx_call::{Call, Door, Entry, Stop};
use sx_moment::ClockMoment;

/// The random number that stands in the call's entry.
fn fresh_of(call: &Call, fresh: u128) -> u128
    ensures { result ≡ fresh_for call.now fresh }
{
    match call.door() {
        Door::Rest => fresh,
        Door::Starts | Door::Ends | Door::InSession => 0,
    }
}

/// Appends a call to the book, at the caller's moment or that of the entry before, where that is later.
pub(crate) fn append_call(
    book: &mut Book,
    who: u32,
    session: u32,
    now: u64,
    fresh: u128,
    call: Call,
) -> Result<Receipt, Stop>
    requires clock { now ≤ greatest_moment }
    requires session { stands_in (replay book.old.entries).store who session (door_of call) ≡ true }
    ensures entries { OnOk result (book.new ≡ record {
      entries = with_noted book.old.entries (entry_behind book.old.entries who session now fresh call);
      limit = book.old.limit;
    }) }
    ensures receipt { IfOk result (λ r.
        r ≡ receipt_of book.old.entries (entry_behind book.old.entries who session now fresh call)) }
    ensures room { OnOk result (length book.old.entries + wants (replay book.old.entries) call ≤ book.old.limit) }
    ensures full { (entries sessions limit : ℕ) → result ≡ Err (Stop.HistoryFull entries sessions limit) →
        (book.old.limit < length book.old.entries + wants (replay book.old.entries) call)
        × (entries ≡ length book.old.entries)
        × (sessions ≡ length (replay book.old.entries).store.sessions) × (limit ≡ book.old.limit) }
    ensures err { OnErr result (book.new ≡ book.old) }
    ensures legal { IsHistory book.new.limit book.new.entries }
    ensures ends { call ≡ Call.End → IsOk result }
{
    let at = book.last_moment().max(now);
    let place = book.entries().len() as u64 + 1;
    let fresh = fresh_of(&call, fresh);
    let entry = Entry {
        who,
        session,
        at: ClockMoment::of(at),
        fresh,
        call,
    };
    let answer = book.step(entry);
    book.keeps();
    match answer {
        Ok(reply) => Ok(Receipt { place, at, reply }),
        Err(stop) => Err(stop),
    }
}
