//! The laws of what calls come to in one history.
ghost use Rattle.std.specs.Prelude.{◌++◌, ◌≤◌, ◌∷◌, ◌≢◌, [], ℕ, List, length};
ghost use Rattle.std.specs.List.{AllByRecursion};
ghost use Rattle.sx_call.specs.declared.calls.Call.{Call};
ghost use Rattle.sx_call.specs.declared.entries.Noted.{Noted};
ghost use Rattle.sx_call.specs.declared.refusals.Stop.TheVariants.{HistoryFull, NoMemory};
ghost use Rattle.sx_book.specs.declared.pass.Receipt.{Receipt};
ghost use Rattle.sx_book.specs.Passes.{PassView, Appends, AppendsNone, HasOwnPlaces};
ghost use Rattle.sx_book.specs.OneHistory.{AreCallsIn, Asks, CameAll, Outcome, appended, history_full, no_memory};

/// The law of growth: what calls came to in a history they came to in each longer one, and a caller's calls are its
/// calls in each history that goes on by others' entries. It does nothing.
pub fn histories_grow()
    ensures came { (limit from : ℕ) (entries more : List Noted) (os : List Outcome) →
        CameAll (record { entries = entries; limit = limit }) from os →
        CameAll (record { entries = entries ++ more; limit = limit }) from os }
    ensures calls { (limit who from : ℕ) (entries more : List Noted) (os : List Outcome) → from ≤ length entries →
        AllByRecursion (λ n. n.entry.who ≢ who) more →
        AreCallsIn (record { entries = entries; limit = limit }) who from os →
        AreCallsIn (record { entries = entries ++ more; limit = limit }) who from os }
{}

/// The law of calls: each answer of an office is a call of its pass, calls behind calls are calls, and they keep the
/// pass's places exact. It does nothing.
pub fn calls_come()
    ensures none { (p : PassView) → Asks p p [] }
    ensures join { (p q r : PassView) (os us : List Outcome) → Asks p q os → Asks q r us → Asks p r (os ++ us) }
    ensures exact { (p q : PassView) (os : List Outcome) → HasOwnPlaces p → Asks p q os → HasOwnPlaces q }
    ensures appended { (p q : PassView) (session now fresh : ℕ) (call : Call) (r : Receipt) →
        Appends p session now fresh call r q → Asks p q (record {
          asked = record { who = p.number; session = session; call = call; now = now; fresh = fresh };
          came = appended r.place r.reply;
        } ∷ []) }
    ensures full { (p q : PassView) (session now fresh : ℕ) (call : Call) (entries sessions limit : ℕ) →
        AppendsNone p call (HistoryFull entries sessions limit) q → Asks p q (record {
          asked = record { who = p.number; session = session; call = call; now = now; fresh = fresh };
          came = history_full entries sessions;
        } ∷ []) }
    ensures starved { (p q : PassView) (session now fresh : ℕ) (call : Call) →
        AppendsNone p call NoMemory q → Asks p q (record {
          asked = record { who = p.number; session = session; call = call; now = now; fresh = fresh };
          came = no_memory;
        } ∷ []) }
{}
