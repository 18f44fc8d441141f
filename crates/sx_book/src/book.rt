//! The book: the history, with the state that it leaves.
ghost use Rattle.std.specs.Prelude.{◌≡◌, ◌+◌, ◌<◌, ◌≤◌, ◌^◌, ◌++◌, ◌∷◌, [], IfOk, OnOk, OnErr, IsOk, length, ℕ, Err};
ghost use Rattle.sx_base.specs.Clock.{greatest_moment};
ghost use Rattle.sx_call.specs.Calls.{door_of};
ghost use Rattle.sx_call.specs.declared.calls.Call.TheVariants as Call;
ghost use Rattle.sx_call.specs.declared.refusals.Stop.TheVariants as Stop;
ghost use Rattle.sx_spec.specs.History.{IsHistory, MayCome, is_refused, places_wanted, wants, last_moment};
ghost use Rattle.sx_spec.specs.Step.{step, replay};
ghost use Rattle.sx_spec.specs.Whole.{IsWhole};

use crate::apply::apply;
use std::alloc::Global;
use std::marker::Model;
use sx_call::{Call, Door, Entry, Noted, Reply, Stop};
use sx_state::State;

/// The history up to a stated limit, with the account that it leaves.
///
/// Entries and live sessions are together at most the limit, so that each live session keeps a place, and memory, for
/// its end.
#[derive(Drop)]
pub struct Book {
    state: State,
    entries: Vec<Noted>,
    limit: u32,
}

impl Model for Book {
    ghost use Rattle.sx_book.specs.History.{History};

    ghost Value = { History };

    ghost use Rattle.sx_book.specs.Book.{IsBook};

    ghost view = { λ b. record { entries = b.entries.items; limit = b.limit } };

    ghost invariant = { IsBook };
}

impl Book {
    /// A book without entries. It takes no memory.
    pub fn new(alloc: Global, limit: u32) -> Book
        ensures { result ≡ record { entries = []; limit = limit } }
    {
        Book {
            state: State::new(alloc),
            entries: Vec::new(alloc),
            limit,
        }
    }

    /// The entries, in the order of their places.
    pub fn entries(&self) -> &[Noted]
        ensures { result.now ≡ self.now.entries }
    {
        self.entries.as_slice()
    }

    /// The state of the account after the entries.
    pub fn state(&self) -> &State
        ensures { result.now ≡ (replay self.now.entries).store }
    {
        &self.state
    }

    /// How many entries there may be.
    pub fn limit(&self) -> u32
        ensures { result ≡ self.now.limit }
    {
        self.limit
    }

    /// The moment of the last entry, 0 before any.
    pub fn last_moment(&self) -> u64
        ensures moment { result ≡ last_moment self.now.entries }
        ensures clock { result ≤ greatest_moment }
    {
        match self.entries.last() {
            Some(noted) => noted.entry.at.ticks(),
            None => 0,
        }
    }

    /// How many sessions are live.
    pub fn live(&self) -> u64
        ensures { result ≡ length (replay self.now.entries).store.sessions }
    {
        self.state.live()
    }

    /// How many sessions were started.
    pub fn started(&self) -> u32
        ensures value { result ≡ (replay self.now.entries).store.started }
        ensures few { result ≤ length self.now.entries }
        ensures within { length self.now.entries ≤ self.now.limit }
    {
        self.state.started()
    }

    /// What a book keeps: its history is legal for its limit, the account that it leaves is whole, and each live
    /// session has a place left for its end. It does nothing.
    pub fn keeps(&self)
        ensures history { IsHistory self.now.limit self.now.entries }
        ensures whole { IsWhole (replay self.now.entries) }
        ensures room { length self.now.entries + length (replay self.now.entries).store.sessions ≤ self.now.limit }
    {
        let _limit = self.limit;
    }

    /// Takes one entry into the history, and answers it.
    ///
    /// `HistoryFull` comes exactly where the limit leaves no place beside the ends of the live sessions, and
    /// `NoMemory` where no memory is left; then all is as before. The end of a session is refused for neither.
    pub fn step(&mut self, entry: Entry) -> Result<Reply, Stop>
        requires { MayCome (replay self.old.entries) (last_moment self.old.entries) entry }
        ensures reply { IfOk result (λ reply. reply ≡ (step (replay self.old.entries) entry).1) }
        ensures entries { IfOk result (λ reply. self.new ≡ record {
          entries = self.old.entries ++ record { entry = entry; refused = is_refused reply } ∷ [];
          limit = self.old.limit;
        }) }
        ensures room { OnOk result
            (length self.old.entries + wants (replay self.old.entries) entry.call ≤ self.old.limit) }
        ensures full { (entries sessions limit : ℕ) → result ≡ Err (Stop.HistoryFull entries sessions limit) →
            (self.old.limit < length self.old.entries + wants (replay self.old.entries) entry.call)
            × (entries ≡ length self.old.entries)
            × (sessions ≡ length (replay self.old.entries).store.sessions) × (limit ≡ self.old.limit) }
        ensures err { OnErr result (self.new ≡ self.old) }
        ensures ends { entry.call ≡ Call.End → IsOk result }
    {
        let sessions = self.state.live();
        let entries = count(&self.entries);
        let limit = u64::from(self.limit);
        let wanted = wanted(sessions, &entry.call);
        if limit < entries + wanted {
            return Err(Stop::HistoryFull {
                entries,
                sessions,
                limit,
            });
        }
        let Ok(()) = self.entries.reserve(wanted as usize) else {
            return Err(Stop::NoMemory);
        };
        entry.call.keeps_limits();
        let Ok(reply) = apply(&mut self.state, entries, &entry) else {
            return Err(Stop::NoMemory);
        };
        let refused = is_refusal(&reply);
        self.entries.push(Noted { entry, refused }).unwrap();
        Ok(reply)
    }
}

fn count(entries: &[Noted]) -> u64
    ensures { result ≡ length entries.now }
{
    entries.len() as u64
}

/// How many places a call wants, for itself and for the ends of the sessions that are live behind it.
fn wanted(sessions: u64, call: &Call) -> u64
    requires { sessions < 2 ^ 32 }
    ensures wants { result ≡ places_wanted sessions (door_of call.now) }
    ensures few { result ≤ sessions + 2 }
{
    match call.door() {
        Door::Starts => sessions + 2,
        Door::Ends => sessions,
        Door::Rest | Door::InSession => sessions + 1,
    }
}

fn is_refusal(reply: &Reply) -> bool
    ensures { result ≡ is_refused reply.now }
{
    match reply {
        Reply::Refused(_) => true,
        _ => false,
    }
}
