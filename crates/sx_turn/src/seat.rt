//! A caller's seat, and the value while its caller has it.
ghost use Rattle.std.specs.Prelude.{◌≡◌};
ghost use Rattle.std.specs.Borrow.{Lends, sem};
ghost use Rattle.sx_turn.specs.contracts.seat.Held.{the_row};

use crate::rule::{Booked, Place};
use std::marker::Model;

/// The most seats that a turn gives out, each with a number of its own, from 0.
pub const MAX_SEATS: u64 = 64;

/// A caller's right to take the value, and what it knows of the list: a beginning of it, and the places there of
/// its own entries and of those of the seats that joined it. It ends by `Turn::join` or `Turn::close`, and can't
/// be dropped.
pub struct Seat<B: Booked> {
    pub(crate) place: Place<B>,
    pub(crate) number: u32,
    // How many numbers it owns: its own, and those of the seats that joined it.
    pub(crate) owns: u64,
}

impl<B: Booked> Model for Seat<B> {
    ghost use Rattle.std.specs.Prelude.{None};
    ghost use Rattle.sx_turn.specs.Seats.{SeatView, seat_view, IsSeat};

    ghost Value = { SeatView B.Entry };

    ghost view = { λ s. seat_view s.place.table_id s.number s.place.me.0 };

    ghost invariant = { λ s. IsSeat None s.number s.owns s.place.me };
}

impl<B: Booked> Seat<B> {
    /// The seat's number, by which its entries are known: 0 for the first seat, and what `Turn::enrol` drew for others.
    pub fn number(&self) -> u32
        ensures { result ≡ self.now.number }
    {
        self.number
    }
}

/// The value, while a seat has it. It goes back by `Turn::give`, and can't be dropped.
pub struct Held<B> {
    pub(crate) value: B,
}

impl<B> Model for Held<B> {
    ghost use Rattle.std.specs.Prelude.{◌≡◌};

    ghost Value = { B };

    ghost view = { λ h. h.value };
}

impl<B> Held<B> {
    /// The value, to read.
    pub fn value(&self) -> &B
        ensures { result.now ≡ self.now }
    {
        &self.value
    }

    /// The value, to change.
    pub fn value_mut(&mut self) -> &mut B
        ensures* writes_back { sem 𝓛 (Lends (the_row B.row) B.row self.entry result (λ w. w)) }
        ensures value { result.now ≡ self.old }
    {
        &mut self.value
    }
}
