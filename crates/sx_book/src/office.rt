//! The office: one book, asked by many callers in turns.
ghost use Rattle.std.specs.Prelude.{◌≡◌, ◌+◌, ◌≤◌, ◌<◌, ◌≢◌, Some, None, IfOk, IfErr, IsOk, Err};
ghost use Rattle.std.specs.Prelude.{length, ℕ};
ghost use Rattle.std.specs.List.{AllByRecursion};
ghost use Rattle.std.specs.Option.{option_copied};
ghost use mathlib.Core.List.{IsPrefix};
ghost use Rattle.sx_base.specs.Clock.{greatest_moment};
ghost use Rattle.sx_call.specs.declared.calls.Call.TheVariants as Call;
ghost use Rattle.sx_call.specs.declared.replies.Reply.TheVariants.{Smb};
ghost use Rattle.sx_call.specs.declared.replies.SmbReply.TheVariants.{Started};
ghost use Rattle.sx_call.specs.declared.refusals.Stop.TheVariants as Stop;
ghost use Rattle.sx_turn.specs.declared.turn.SeatFault.TheVariants.{NoSeat};
ghost use Rattle.sx_book.specs.Passes.{StandsIn, MayAsk, HoldsSession, Appends, AppendsNone, SawMore};
ghost use Rattle.sx_book.specs.Passes.{GrowsByOthers, IsSamePass, KeepsSessions, KeepsOtherSessions, pass_after_look};
ghost use Rattle.sx_book.specs.Passes.{NumbersBelow, NumbersDiffer, OwnsAllNumbers, OwnsEachSeen, first_pass};
ghost use Rattle.sx_book.specs.Passes.{new_pass, pass_pairs, after_meet, HasExactPlaces, caller_of, session_or_0};
ghost use Rattle.sx_book.specs.Passes.{entries_from, start_of};

use crate::append::append_call;
use crate::book::Book;
use crate::pass::{Pass, Receipt, Session};
use crate::tail::copy_from;
use std::alloc::Global;
use std::marker::Model;
use std::sync::Wait;
use sx_base::Items;
use sx_call::{Call, Noted, Reply, SmbReply, Start, Stop};
use sx_memory::NoMemory;
use sx_turn::{CloseFault, SeatFault, Turn};

/// One book, and the turn in which its passes ask it. There are at most 64 passes, numbered 0 to 63.
/// An office ends by `close`, and can't be dropped.
pub struct Office {
    turn: Turn<Book>,
}

impl Model for Office {
    ghost use Rattle.sx_turn.specs.Seats.{TableId};

    ghost Value = { TableId };

    ghost view = { λ o. o.turn };
}

impl Office {
    /// An office whose history has no entries and a limit, and its first pass, of number 0.
    pub fn begin(alloc: Global, limit: u32) -> Result<(Office, Pass), NoMemory>
        ensures { IfOk result (λ t. t.1 ≡ first_pass t.0 limit) }
    {
        match Turn::begin(alloc, Book::new(alloc, limit)) {
            Ok((turn, seat)) => Ok((Office { turn }, Pass { seat })),
            Err(_book) => Err(NoMemory),
        }
    }

    /// Waits for the pass's turn, and appends a call in it.
    fn append_in_turn<R: Wait>(
        &self,
        rt: &R,
        pass: &mut Pass,
        session: u32,
        now: u64,
        fresh: u128,
        call: Call,
    ) -> Result<Receipt, Stop>
        requires own { pass.old.office ≡ self.now }
        requires clock { now ≤ greatest_moment }
        requires session { StandsIn pass.old session call }
        ensures ok { IfOk result (λ r. Appends pass.old session now fresh call r pass.new) }
        ensures stop { IfErr result (λ s. AppendsNone pass.old call s pass.new) }
        ensures ends { call ≡ Call.End → IsOk result }
        ensures same { IsSamePass pass.old pass.new }
    {
        let who = pass.seat.number();
        let mut held = self.turn.take(rt, &mut pass.seat);
        held.value().keeps();
        let result = append_call(held.value_mut(), who, session, now, fresh, call);
        self.turn.give(&mut pass.seat, held);
        result
    }

    /// Asks a call, and answers its place in the history, its moment and its reply.
    ///
    /// A call of REST comes without a session, and `fresh` stands in its entry. A session's call comes with a session
    /// that the pass holds. `HistoryFull` comes exactly where the entries and the live sessions are as many as the
    /// limit allows.
    pub fn ask<R: Wait>(
        &self,
        rt: &R,
        pass: &mut Pass,
        now: u64,
        fresh: u128,
        session: Option<&Session>,
        call: Call,
    ) -> Result<Receipt, Stop>
        requires own { pass.old.office ≡ self.now }
        requires clock { now ≤ greatest_moment }
        requires call { MayAsk pass.old (option_copied session) call }
        ensures ok { IfOk result (λ r.
            Appends pass.old (session_or_0 (option_copied session.entry)) now fresh call r pass.new) }
        ensures stop { IfErr result (λ s. AppendsNone pass.old call s pass.new) }
        ensures full { (entries sessions limit : ℕ) →
            result ≡ Err (Stop.HistoryFull entries sessions limit) → entries + sessions ≡ limit }
        ensures held { KeepsSessions pass.old pass.new }
        ensures same { IsSamePass pass.old pass.new }
    {
        let number = number_of(session);
        self.append_in_turn(rt, pass, number, now, fresh, call)
    }

    /// Starts a session of a peer. It needs a place, and another for the session's end: `HistoryFull` comes exactly
    /// where the limit doesn't leave both.
    pub fn start<R: Wait>(
        &self,
        rt: &R,
        pass: &mut Pass,
        now: u64,
        peer: u32,
    ) -> Result<(Session, Receipt), Stop>
        requires own { pass.old.office ≡ self.now }
        requires clock { now ≤ greatest_moment }
        ensures ok { IfOk result (λ t. Appends pass.old 0 now 0 (start_of peer) t.1 pass.new) }
        ensures session { IfOk result (λ t. HoldsSession pass.new t.0 × (t.1.reply ≡ Smb (Started t.0))) }

        // The session is none of those that the pass held.
        ensures other { IfOk result (λ t. (s : ℕ) → HoldsSession pass.old s → s ≢ t.0) }

        ensures stop { IfErr result (λ s. AppendsNone pass.old (start_of peer) s pass.new) }
        ensures held { KeepsSessions pass.old pass.new }
        ensures same { IsSamePass pass.old pass.new }
    {
        let receipt = match self.append_in_turn(rt, pass, 0, now, 0, Call::Start(Start { peer })) {
            Ok(receipt) => receipt,
            Err(stop) => return Err(stop),
        };
        let number = started_number(&receipt.reply);
        Ok((Session { number }, receipt))
    }

    /// Ends a session. It can't be refused and takes no memory: the history kept a place for it.
    pub fn end_session<R: Wait>(
        &self,
        rt: &R,
        pass: &mut Pass,
        now: u64,
        session: Session,
    ) -> Receipt
        requires own { pass.old.office ≡ self.now }
        requires clock { now ≤ greatest_moment }
        requires held { HoldsSession pass.old session }
        ensures ended { Appends pass.old session now 0 Call.End result pass.new }
        ensures others_held { KeepsOtherSessions session pass.old pass.new }
        ensures same { IsSamePass pass.old pass.new }
    {
        let Session { number } = session;
        match self.append_in_turn(rt, pass, number, now, 0, Call::End) {
            Ok(receipt) => receipt,
            Err(_) => unreachable!(),
        }
    }

    /// A new pass with a number of its own, or `NoSeat(64)` exactly where all 64 numbers were given out. It waits for
    /// a turn.
    pub fn split<R: Wait>(&self, rt: &R, pass: &mut Pass) -> Result<Pass, SeatFault>
        requires own { pass.old.office ≡ self.now }
        ensures new { IfOk result (λ q. q ≡ new_pass pass.old q.number q.seen) }

        // Its number is below 64, not among those that the pass knows of, and no entry that it has seen has it.
        ensures number { IfOk result (λ q. (q.number < 64) × (pass.old.known ≤ q.number)
            × NumbersBelow q.number pass.old × AllByRecursion (λ n. caller_of n < q.number) q.seen) }

        ensures asked { IfOk result (λ q. pass.new ≡ pass_after_look q.seen (q.number + 1) pass.old) }
        ensures refused { IfErr result (λ f. (f ≡ NoSeat 64)
            × (pass.new ≡ pass_after_look pass.new.seen 64 pass.old) × (pass.old.known ≤ 64)) }
        ensures others { GrowsByOthers pass.old.number pass.old.seen pass.new.seen }
        ensures held { KeepsSessions pass.old pass.new }
        ensures same { IsSamePass pass.old pass.new }
    {
        match self.turn.enrol(rt, &mut pass.seat) {
            Ok(seat) => Ok(Pass { seat }),
            Err(fault) => Err(fault),
        }
    }

    /// One pass takes in another, with its numbers and their places. What both have seen are beginnings of one
    /// history, and the pass then knows the longer.
    pub fn meet(&self, into: &mut Pass, from: Pass)
        requires own { (into.old.office ≡ self.now) × (from.office ≡ self.now) }
        ensures met { into.new ≡ after_meet into.old from }
        ensures seen { IsPrefix into.old.seen into.new.seen × IsPrefix from.seen into.new.seen }
        ensures exact { HasExactPlaces into.new }
        ensures differ { NumbersDiffer into.new }
        ensures held { KeepsSessions into.old into.new }
    {
        let Pass { seat } = from;
        self.turn.join(&mut into.seat, seat);
    }

    /// The noted entries from a place on, at most so many, as the history stands. Place 0 counts as 1.
    pub fn tail<R: Wait>(
        &self,
        rt: &R,
        alloc: Global,
        pass: &mut Pass,
        from: u64,
        most: u64,
    ) -> Result<Items<Noted>, NoMemory>
        requires own { pass.old.office ≡ self.now }
        ensures entries { IfOk result (λ es. es ≡ entries_from from most pass.new.seen) }
        ensures saw { SawMore pass.old pass.new }
        ensures held { KeepsSessions pass.old pass.new }
        ensures same { IsSamePass pass.old pass.new }
    {
        let held = self.turn.take(rt, &mut pass.seat);
        let copied = copy_from(alloc, held.value().entries(), from, most);
        self.turn.give(&mut pass.seat, held);
        copied
    }

    /// Waits for a turn, and gives the book, exactly where each number that was given out is the pass's or met into
    /// it. Else the office and the pass come back, and the pass has seen the history so far.
    pub fn close<R: Wait>(self, rt: &R, pass: Pass) -> Result<Book, CloseFault<Office, Pass>>
        requires own { pass.office ≡ self }
        ensures book { IfOk result (λ b. b ≡ record { entries = pass.seen; limit = pass.limit }) }
        ensures all { IfOk result (λ _. OwnsAllNumbers pass × OwnsEachSeen pass × HasExactPlaces pass
            × (pass.known ≤ length (pass_pairs pass))) }

        // `known` of the pass that comes back is how many numbers were given out.
        ensures out { IfErr result (λ f. (1 ≤ f.out) × (f.out + length (pass_pairs pass) ≡ f.token.known)) }
        ensures back { IfErr result (λ f. (f.whole ≡ self)
            × (f.token ≡ pass_after_look f.token.seen f.token.known pass)) }
        ensures numbers { IfErr result (λ f. (pass.known ≤ f.token.known)
            × NumbersBelow f.token.known pass × NumbersDiffer pass) }
        ensures others { IfErr result (λ f. GrowsByOthers pass.number pass.seen f.token.seen) }
    {
        let Office { turn } = self;
        let Pass { seat } = pass;
        match turn.close(rt, seat) {
            Ok(book) => Ok(book),
            Err(CloseFault { whole, token, out }) => Err(CloseFault {
                whole: Office { turn: whole },
                token: Pass { seat: token },
                out,
            }),
        }
    }

    /// Lets go of an office that can't be closed yet, with its book, and of the pass. It answers how many numbers are
    /// out.
    pub fn abandon(fault: CloseFault<Office, Pass>) -> u64
        ensures { result ≡ fault.out }
    {
        let CloseFault { whole, token, out } = fault;
        let Office { turn } = whole;
        let Pass { seat } = token;
        let fault = CloseFault {
            whole: turn,
            token: seat,
            out,
        };
        fault.abandon()
    }
}

/// The session's number, 0 where there is none.
fn number_of(session: Option<&Session>) -> u32
    ensures { result ≡ session_or_0 (option_copied session.entry) }
{
    match session {
        Some(session) => session.number(),
        None => 0,
    }
}

/// The number of the session that was started.
fn started_number(reply: &Reply) -> u32
    requires { (n : ℕ) × (reply.now ≡ Smb (Started n)) }
    ensures { reply.now ≡ Smb (Started result) }
{
    match reply {
        Reply::Smb(SmbReply::Started { session }) => *session,
        _ => unreachable!(),
    }
}
