//! The laws on the step, each the contract of a function that does nothing.

ghost use Rattle.std.specs.Prelude.{◌≡◌, ◌↔◌, ◌≤◌, ◌+◌, ◌++◌, ◌∷◌, [], filter, length, List, None, Some, ℕ};
ghost use Rattle.sx_base.specs.Clock.{greatest_moment};
ghost use Rattle.sx_call.specs.declared.entries.Entry.{Entry};
ghost use Rattle.sx_call.specs.declared.entries.Noted.{Noted};
ghost use Rattle.sx_call.specs.declared.calls.Call.TheVariants.{End, SmbClose};
ghost use Rattle.sx_call.specs.declared.opens.Open.{Open};
ghost use Rattle.sx_call.specs.declared.refusals.Refusal.{Refusal};
ghost use Rattle.sx_call.specs.declared.refusals.Refusal.TheVariants.{NoHandle};
ghost use Rattle.sx_call.specs.declared.replies.Reply.TheVariants.{Refused, Smb};
ghost use Rattle.sx_call.specs.declared.replies.SmbReply.TheVariants.{Closed, Ended};
ghost use Rattle.sx_spec.specs.Account.{Account, empty, is_held_by, open_of};
ghost use Rattle.sx_spec.specs.Changes.{close_fate};
ghost use Rattle.sx_spec.specs.Conflicts.{ConflictLaw};
ghost use Rattle.sx_spec.specs.History.{IsHistory, MayCome, last_moment, noted_at, wants};
ghost use Rattle.sx_call.specs.CallLimits.{IsWithinLimits};
ghost use Rattle.sx_spec.specs.Step.{first_refusal, handle_in, replay, reply_at, step};
ghost use Rattle.sx_spec.specs.SnapshotLaw.{SnapshotLaw};
ghost use Rattle.sx_spec.specs.Whole.{IsWhole};

/// Refused exactly where a check applies: a reply is a refusal exactly where it is the first that applies, a refused
/// call leaves the store as it was, and every entry counts.
pub fn refused_exactly_where_a_check_applies()
    ensures reply { (a : Account) (e : Entry) (r : Refusal)
        → (((step a e).1 ≡ Refused r) ↔ (first_refusal a e ≡ Some r)) }
    ensures store { (a : Account) (e : Entry) (r : Refusal)
        → first_refusal a e ≡ Some r → (step a e).0.store ≡ a.store }
    ensures came { (a : Account) (e : Entry) → (step a e).0.came ≡ a.came + 1 }
{}

/// Conflicts are exact: in a whole account a call is refused for a conflict exactly where its place is found, it is
/// refused neither as not empty nor as read-only, and the sharing table, a lock or a lease forbids it; what is named
/// is the least open or lock that forbids.
pub fn conflicts_are_exact()
    ensures { ConflictLaw }
{}

/// One entry more: a legal history stays legal with an entry that may come and for which the limit leaves its places;
/// it leaves what the step leaves, its last reply is the step's, and each entry counts.
pub fn histories_grow()
    ensures legal { (limit : ℕ) (ns : List Noted) (e : Entry)
        → IsHistory limit ns → MayCome (replay ns) (last_moment ns) e
        → length ns + wants (replay ns) e.call ≤ limit → IsHistory limit (ns ++ noted_at (replay ns) e ∷ []) }
    ensures account { (ns : List Noted) (n : Noted) → replay (ns ++ n ∷ []) ≡ (step (replay ns) n.entry).0 }
    ensures moment { (ns : List Noted) (n : Noted) → last_moment (ns ++ n ∷ []) ≡ n.entry.at }
    ensures reply { (ns : List Noted) (n : Noted)
        → reply_at (ns ++ n ∷ []) (length ns + 1) ≡ Some (step (replay ns) n.entry).1 }
    ensures came { (ns : List Noted) → (replay ns).came ≡ length ns }
{}

/// Legal histories: a beginning of one is one, it fits the limit with the ends of its live sessions, and no moment of
/// it passes a clock's greatest.
pub fn histories_begin_and_fit()
    ensures beginning { (limit : ℕ) (ns more : List Noted) → IsHistory limit (ns ++ more) → IsHistory limit ns }
    ensures fits { (limit : ℕ) (ns : List Noted)
        → IsHistory limit ns → length ns + length (replay ns).store.sessions ≤ limit }
    ensures clock { (limit : ℕ) (ns : List Noted) → IsHistory limit ns → last_moment ns ≤ greatest_moment }
{}

/// Closing can't fail: the end of a session is answered with the number of handles that it closes, and in a whole
/// account a close is refused only where there is no such handle.
pub fn closing_cannot_fail()
    ensures end { (a : Account) (e : Entry) → e.call ≡ End
        → (step a e).1 ≡ Smb (Ended (length (filter (is_held_by e.session) a.store.opens))) }
    ensures close { (a : Account) (e : Entry) (index : ℕ) (o : Open)
        → IsWhole a → e.call ≡ SmbClose (record { index = index })
        → open_of a.store (handle_in e index) ≡ Some o → (step a e).1 ≡ Smb (Closed (close_fate o a.store)) }
    ensures absent { (a : Account) (e : Entry) (index : ℕ) → e.call ≡ SmbClose (record { index = index })
        → open_of a.store (handle_in e index) ≡ None → (step a e).1 ≡ Refused (NoHandle (handle_in e index)) }
{}

/// Snapshots read as the share stood: in a legal history a call that reads a snapshot is answered as a plain reading of
/// the share, at rest and with the metadata given with the snapshot, as the share stood when the snapshot was made, as
/// long as neither the snapshot nor the share was deleted.
pub fn snapshots_read_as_the_share_stood()
    ensures { SnapshotLaw }
{}

/// Steps keep an account whole: the empty account is whole, and so is what an entry leaves that may come and keeps
/// its limits.
pub fn steps_keep_wholeness()
    ensures empty { IsWhole empty }
    ensures steps { (a : Account) (last : ℕ) (e : Entry) → IsWhole a → MayCome a last e → IsWithinLimits e.call
        → IsWhole (step a e).0 }
{}
