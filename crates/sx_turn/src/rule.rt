//! The rule of the turn, over a table of three words and one slot. Word 0 counts the tickets that were drawn, word 1
//! is the ticket that is served, and word 2 counts the numbers that were given out. The slot holds the value.
use atomic_table::{Shared, Table, TableRule};
use std::alloc::Global;
use std::collections::LinkedList;
use std::marker::PhantomData;
use std::snapshot::Snapshot;

/// A value that stands for a list of entries, each of which has its caller's number.
/// The entries are plain data. What the value has beside them is its own.
pub trait Booked: Send {
    type Entry;

    ghost use Rattle.std.specs.Prelude.{ℕ, List};

    // The list for which a value stands.
    ghost stands: { Self → List Self.Entry };

    // The number of an entry's caller.
    ghost who: { Self.Entry → ℕ };

    // A number of the value that no turn changes, as a limit; 0 where there is none.
    ghost lasting: { Self → ℕ };
}

/// What a seat knows. It exists in proofs alone.
pub struct View<E> {
    /// Its number, once it has drawn one.
    pub number: Option<u64>,
    /// A beginning of the list.
    pub seen: LinkedList<E>,
    /// The places in the list of the entries of its number, counted from 1.
    pub mine: LinkedList<u64>,
    /// The numbers of the seats that joined it, each with its places.
    pub ended: LinkedList<(u64, LinkedList<u64>)>,
    /// What both seats had seen at its last join.
    pub olds: LinkedList<LinkedList<E>>,
    /// Its ticket, from draw to next.
    pub ticket: Option<u64>,
    /// The number of the value that no turn changes. A seat that joined another has none.
    pub lasting: Option<u64>,
    /// How many numbers it knows to have been given out.
    pub known: u64,
    /// In its turn, the list for which the value stood as the turn began.
    pub turn: Option<LinkedList<E>>,
    /// It has counted the numbers in this turn.
    pub counted: bool,
    /// It has taken the value out for good.
    pub closed: bool,
}

/// The rule for a value of type `B`.
pub struct TurnRule<B> {
    value: PhantomData<B>,
}

impl<B: Booked> TableRule<Option<B>, View<B::Entry>, Snapshot<B>> for TurnRule<B> {
    ghost use Rattle.sx_turn.specs.Rules.{Kept};
    ghost use Rattle.sx_turn.specs.Views.{first_view};

    ghost holds = { λ key. Kept B.stands B.lasting (B.lasting key.value) B.who };

    ghost first = { λ key. first_view B.who (B.lasting key.value) (B.stands key.value) };
}

// The table with its memory, what threads share of it, and a seat at it.
pub(crate) type Board<B: Booked> = Table<
    Option<B>,
    View<B::Entry>,
    Snapshot<B>,
    TurnRule<B>,
    Global,
>;

pub(crate) type SharedBoard<B: Booked> = Shared<
    Option<B>,
    View<B::Entry>,
    Snapshot<B>,
    TurnRule<B>,
>;

pub(crate) type Place<B: Booked> = atomic_table::Seat<Option<B>, View<B::Entry>>;
