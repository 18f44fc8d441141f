//! The turn, as its callers see it.
ghost use Rattle.std.specs.Prelude.{◌≡◌, ◌<◌, ◌≤◌, ◌+◌, None, length, IfOk, IfErr};
ghost use Rattle.std.specs.List.{AllByRecursion};
ghost use mathlib.Core.List.{IsPrefix};
ghost use Rattle.sx_turn.specs.declared.seat.TheConstants.{MAX_SEATS};
ghost use Rattle.sx_turn.specs.declared.turn.SeatFault.TheVariants.{NoSeat};
ghost use Rattle.sx_turn.specs.Seats.{pairs_of, HasPlacesIn, IsExact, HasNumbersBelow, HasDistinctNumbers};
ghost use Rattle.sx_turn.specs.Seats.{HasAllNumbers, OwnsEachEntry, HasEntriesBelow, first_seat, new_seat, after_take};
ghost use Rattle.sx_turn.specs.Seats.{MayGive, after_give, after_look, after_join};

use crate::bells::Bells;
use crate::plays::Branch;
use crate::rule::{Board, Booked};
use crate::seat::{Held, MAX_SEATS, Seat};
use crate::steps::{
    draw_number, free_board, give_value, join_places, one_slot, open_board, recall, take_in,
    take_out, take_value,
};
use std::alloc::Global;
use std::marker::Model;
use std::snapshot::Snapshot;
use std::sync::Wait;

/// One value, which the callers of its seats take in turns, and one list of entries, for which it stands.
/// A turn ends by `close`, and can't be dropped.
pub struct Turn<B: Booked> {
    table: Board<B>,
    bells: Bells,
}

impl<B: Booked> Model for Turn<B> {
    ghost use Rattle.std.specs.Prelude.{◌≡◌};
    ghost use Rattle.sx_turn.specs.Seats.{TableId};
    ghost use Rattle.sx_turn.specs.Moves.{IsBoard};

    ghost Value = { TableId };

    ghost view = { λ t. t.table.shared.table_id };

    ghost invariant = { λ t. IsBoard t.table.shared.table_id };
}

/// Why there is no new seat.
#[derive(Clone, Copy, Debug, PartialEq, Eq)]
pub enum SeatFault {
    /// So many numbers were given out, 64, and there are no more.
    NoSeat(u64),
    /// There was no memory. No call of this crate says so today: `enrol` takes none.
    NoMemory,
}

/// A turn that can't be closed yet, with the seat that was to close it.
pub struct CloseFault<T, S> {
    /// The turn, still open.
    pub whole: T,
    /// The seat that was to close it.
    pub token: S,
    /// How many numbers were given out that the seat neither has nor joined, at least 1.
    pub out: u64,
}

impl<B: Booked> Turn<B> {
    /// A turn over a value, all of whose entries are of number 0, and the seat of that number.
    /// Where memory runs out the value comes back.
    pub fn begin(alloc: Global, value: B) -> Result<(Turn<B>, Seat<B>), B>
        requires { AllByRecursion (λ e. B.who e ≡ 0) (B.stands value) }
        ensures ok { IfOk result (λ t. t.1 ≡ first_seat B.who t.0 (B.lasting value) (B.stands value)) }
        ensures err { IfErr result (λ v. v ≡ value) }
    {
        let about = Snapshot::of(&value);
        let slots = one_slot(alloc, value)?;
        let (table, place) = open_board(alloc, slots, &about)?;
        let seat = Seat {
            place,
            number: 0,
            owns: 1,
        };
        let bells = Bells::new();
        Ok((Turn { table, bells }, seat))
    }

    /// A new seat with a number of its own, or `NoSeat(64)` exactly where all 64 numbers were given out.
    /// It waits for a turn, in which the number is drawn; the seat that asks then has seen the list of that turn.
    /// Numbers are given out in order, so a new one is above each that the asking seat knows of.
    pub fn enrol<R: Wait>(&self, rt: &R, seat: &mut Seat<B>) -> Result<Seat<B>, SeatFault>
        requires own { seat.old.turn ≡ self.now }
        requires idle { seat.old.taken ≡ None }

        ensures new { IfOk result (λ s. s ≡ new_seat self.now seat.old.lasting s.number s.seen) }
        ensures number { IfOk result (λ s. (s.number < MAX_SEATS) × (seat.old.known ≤ s.number)) }

        // No number that the asking seat knows of is this one, and no entry that was made by then has it.
        ensures unused { IfOk result (λ s. HasNumbersBelow s.number seat.old × HasEntriesBelow B.who s.number s.seen) }

        ensures asked { IfOk result (λ s. seat.new ≡ after_look s.seen (s.number + 1) seat.old) }
        ensures refused { IfErr result (λ f. (f ≡ NoSeat MAX_SEATS)
            × (seat.new ≡ after_look seat.new.seen MAX_SEATS seat.old) × (seat.old.known ≤ MAX_SEATS)) }

        // What the asking seat has newly seen are entries of others.
        ensures seen { IsPrefix seat.old.seen seat.new.seen × HasPlacesIn B.who seat.new.seen seat.old
            × IsExact B.who seat.old }
    {
        let board = &self.table.shared;
        recall(board, &mut seat.place);
        let mut place = board.split_seat::<Branch>(&mut seat.place);
        let callers = draw_number(rt, board, &self.bells, &mut place);
        if callers < MAX_SEATS {
            // A copy of the new seat's view tells the asking one what that has seen.
            let note = board.split_seat::<Branch>(&mut place);
            take_in(board, &mut seat.place, note);
            return Ok(Seat {
                place,
                number: callers as u32,
                owns: 1,
            });
        }
        take_in(board, &mut seat.place, place);
        Err(SeatFault::NoSeat(callers))
    }

    /// One seat takes in another, with its numbers and their places. What both have seen are beginnings of one
    /// list, and the seat then knows the longer.
    pub fn join(&self, into: &mut Seat<B>, from: Seat<B>)
        requires own { (into.old.turn ≡ self.now) × (from.turn ≡ self.now) }
        requires idle { (into.old.taken ≡ None) × (from.taken ≡ None) }

        ensures met { into.new ≡ after_join into.old from }
        ensures seen { IsPrefix into.old.seen into.new.seen × IsPrefix from.seen into.new.seen }

        // What either has newly seen are entries of others: its places are the same in both lists.
        ensures exact { IsExact B.who into.old × IsExact B.who from × IsExact B.who into.new }
        ensures distinct { HasDistinctNumbers into.new }
    {
        let Seat {
            place,
            number: _,
            owns,
        } = from;
        join_places(&self.table.shared, &mut into.place, place);
        into.owns += owns;
    }

    /// Waits for the seat's turn, and takes the value. It stands for a list that begins with what the seat has
    /// seen, in which the entries of the seat's numbers are those at the places that it kept, and no others.
    /// Its lasting number is the one that the seat knows.
    pub fn take<R: Wait>(&self, rt: &R, seat: &mut Seat<B>) -> Held<B>
        requires own { seat.old.turn ≡ self.now }
        requires idle { seat.old.taken ≡ None }

        ensures taken { seat.new ≡ after_take (B.stands result) seat.old }
        ensures seen { IsPrefix seat.old.seen (B.stands result) }
        ensures exact { HasPlacesIn B.who (B.stands result) seat.old × IsExact B.who seat.old }
        ensures lasting { B.lasting result ≡ seat.old.lasting }
    {
        let value = take_value(rt, &self.table.shared, &self.bells, &mut seat.place);
        Held { value }
    }

    /// Gives the value back, which stands for the list for which it stood at the take, or for that and one entry
    /// of the seat's number behind it, and whose lasting number is the same. The seat has then seen that list, and has
    /// the place of the new entry.
    pub fn give(&self, seat: &mut Seat<B>, held: Held<B>)
        requires own { seat.old.turn ≡ self.now }
        requires may { MayGive B.who seat.old (B.lasting held) (B.stands held) }
        ensures given { seat.new ≡ after_give (B.stands held) seat.old }
    {
        let Held { value } = held;
        give_value(&self.table.shared, &self.bells, &mut seat.place, value);
    }

    /// Waits for the seat's turn, and takes the value out for good, exactly where each number that was given out
    /// is the seat's or joined it. Else the turn and the seat come back, and the seat has seen the list so far.
    pub fn close<R: Wait>(self, rt: &R, seat: Seat<B>) -> Result<B, CloseFault<Turn<B>, Seat<B>>>
        requires own { seat.turn ≡ self }
        requires idle { seat.taken ≡ None }

        ensures value { IfOk result (λ v. (B.stands v ≡ seat.seen) × (B.lasting v ≡ seat.lasting)) }
        ensures all { IfOk result (λ _. HasAllNumbers seat × OwnsEachEntry B.who seat × IsExact B.who seat) }
        ensures known { IfOk result (λ _. seat.known ≤ length (pairs_of seat)) }

        // `known` of the seat that comes back is how many numbers were given out.
        ensures out { IfErr result (λ f. (1 ≤ f.out) × (f.out + length (pairs_of seat) ≡ f.token.known)) }
        ensures back { IfErr result (λ f. (f.whole ≡ self) × (f.token ≡ after_look f.token.seen f.token.known seat)) }
        ensures numbers { IfErr result (λ f. (seat.known ≤ f.token.known) × HasNumbersBelow f.token.known seat
            × HasDistinctNumbers seat) }

        // What it has newly seen are entries of others.
        ensures seen { IfErr result (λ f. IsPrefix seat.seen f.token.seen × HasPlacesIn B.who f.token.seen seat
            × IsExact B.who seat) }
    {
        let Turn { table, bells } = self;
        let Seat {
            mut place,
            number,
            owns,
        } = seat;
        match take_out(rt, &table.shared, &bells, &mut place, owns) {
            Ok(value) => {
                free_board(table, place);
                Ok(value)
            }
            Err(callers) => Err(CloseFault {
                whole: Turn { table, bells },
                token: Seat {
                    place,
                    number,
                    owns,
                },
                out: callers - owns,
            }),
        }
    }
}

impl<B: Booked + Drop> CloseFault<Turn<B>, Seat<B>> {
    /// Lets go of the turn and its value, and of the seat. It answers how many numbers are out.
    pub fn abandon(self) -> u64
        ensures { result ≡ self.out }
    {
        let CloseFault { whole, token, out } = self;
        let Turn { table, bells: _ } = whole;
        let Seat {
            place,
            number: _,
            owns: _,
        } = token;
        drop(table);
        drop(place);
        out
    }
}
