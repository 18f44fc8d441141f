//! The moves on the table: what each tells the seat that makes it, and how views are cut in two and made one.
use crate::rule::{Booked, View};
use atomic_table::{Join, Play, Split};

// Draws a ticket, by a compare and exchange of word 0.
pub(crate) struct Draw;

impl<B, E> Play<Option<B>, View<E>> for Draw {
    ghost use Rattle.sx_turn.specs.Moves.{DrawTells};

    ghost then = { DrawTells };
}

// Looks which ticket is served, by a load of word 1. Where it is the seat's, its turn begins.
pub(crate) struct Look;

impl<B: Booked> Play<Option<B>, View<B::Entry>> for Look {
    ghost use Rattle.sx_turn.specs.Moves.{LookTells};

    ghost then = { LookTells B.stands B.lasting B.who };
}

// Ends the turn, by adding 1 to word 1. The value is back in its slot.
pub(crate) struct Next;

impl<B: Booked> Play<Option<B>, View<B::Entry>> for Next {
    ghost use Rattle.sx_turn.specs.Moves.{NextTells};

    ghost then = { NextTells B.stands };
}

// Counts the numbers that were given out, by a load of word 2 in the turn.
pub(crate) struct Count;

impl<B: Booked> Play<Option<B>, View<B::Entry>> for Count {
    ghost use Rattle.sx_turn.specs.Moves.{CountTells};

    ghost then = { CountTells B.who };
}

// Draws a number, by adding 1 to word 2 in the turn.
pub(crate) struct Enrol;

impl<B, E> Play<Option<B>, View<E>> for Enrol {
    ghost use Rattle.sx_turn.specs.Moves.{EnrolTells};

    ghost then = { EnrolTells };
}

// Returns the slot empty, by a load of word 0 in the turn, after the value was taken out for good.
pub(crate) struct Close;

impl<B, E> Play<Option<B>, View<E>> for Close {
    ghost use Rattle.sx_turn.specs.Moves.{CloseTells};

    ghost then = { CloseTells };
}

// Tells what the rule says of the seat's own view, by a load of word 0.
pub(crate) struct Recall;

impl<B: Booked> Play<Option<B>, View<B::Entry>> for Recall {
    ghost use Rattle.sx_turn.specs.Moves.{RecallTells};

    ghost then = { RecallTells B.who };
}

// A new view without a number, beside one that stays as it is.
pub(crate) struct Branch;

impl<E> Split<View<E>> for Branch {
    ghost use Rattle.sx_turn.specs.Views.{newcomer};

    ghost left = { λ v. v };

    ghost right = { λ v. newcomer v.lasting v.seen v.known };
}

// Two views made one. The other is spent.
pub(crate) struct Merge;

impl<E> Join<View<E>> for Merge {
    ghost use Rattle.std.specs.Prelude.{[], None};
    ghost use Rattle.sx_turn.specs.Views.{merged, newcomer};

    ghost both = { merged };

    ghost spent = { newcomer None [] 0 };
}
