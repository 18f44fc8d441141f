//! What a caller of an office has: a pass, its sessions and its receipts.
ghost use Rattle.std.specs.Prelude.{◌≡◌};

use crate::book::Book;
use std::marker::Model;
use sx_call::{Noted, Reply};
use sx_turn::{Booked, Seat};

impl Booked for Book {
    type Entry = Noted;

    ghost stands = { λ b. b.entries };

    ghost who = { λ n. n.entry.who };

    ghost lasting = { λ b. b.limit };
}

/// A caller's right to ask an office. It knows a beginning of the history, and the places there of its own entries
/// and of those of the passes that met into it. It ends by `Office::meet` or `Office::close`, and can't be dropped.
pub struct Pass {
    pub(crate) seat: Seat<Book>,
}

impl Model for Pass {
    ghost use Rattle.std.specs.Prelude.{◌≡◌, None};
    ghost use Rattle.sx_book.specs.Passes.{PassView, pass_view};

    ghost Value = { PassView };

    ghost view = { λ p. pass_view p.seat };

    ghost invariant = { λ p. p.seat.taken ≡ None };
}

impl Pass {
    /// The pass's number, by which its entries are known: 0 for an office's first pass.
    pub fn number(&self) -> u32
        ensures { result ≡ self.now.number }
    {
        self.seat.number()
    }
}

/// A live session. It is used with the pass that started it, can't be copied or dropped, and ends by
/// `Office::end_session`.
pub struct Session {
    pub(crate) number: u32,
}

impl Model for Session {
    ghost use Rattle.std.specs.Prelude.{ℕ};

    ghost Value = { ℕ };

    ghost view = { λ s. s.number };
}

impl Session {
    /// The session's number: 1 for the first that was started.
    pub fn number(&self) -> u32
        ensures { result ≡ self.now }
    {
        self.number
    }
}

/// What an office answers to a call that was appended to the history.
#[derive(Debug, Drop)]
pub struct Receipt {
    /// The place of the call's entry, counted from 1.
    pub place: u64,
    /// The entry's moment in units of 100 ns since 1970: the caller's, or that of the entry before it where that is
    /// later.
    pub at: u64,
    /// The reply of the step.
    pub reply: Reply,
}
