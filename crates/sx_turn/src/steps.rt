//! The calls' steps on the table. Each takes the shared table and a seat at it.
ghost use Rattle.std.specs.Prelude.{◌≡◌, ◌<◌, ◌∷◌, [], Some, None, ℕ, IfOk, IfErr};
ghost use Rattle.std.specs.List.{AllByRecursion};
ghost use Rattle.sx_turn.specs.Views.{with_ticket, in_turn, after_next, newcomer, first_view, merged, owned_count};
ghost use Rattle.sx_turn.specs.Views.{Extends, IsSound};
ghost use Rattle.sx_turn.specs.Moves.{IsBoard, IsIdle, TurnBegins, MayEnd, TurnEnds, MayPutBack, CountedInTurn};
ghost use Rattle.sx_turn.specs.Moves.{NumberDrawn, IsClosed, TakenOut, StillOut};

use crate::bells::Bells;
use crate::plays::{Close, Count, Draw, Enrol, Look, Merge, Next, Recall};
use crate::rule::{Board, Booked, Place, SharedBoard};
use crate::seat::MAX_SEATS;
use atomic_table::{Refused, Table};
use std::alloc::{AllocFailed, Global};
use std::snapshot::Snapshot;
use std::sync::Wait;

// Draws a ticket.
pub(crate) fn draw<B: Booked, R: Wait>(rt: &R, board: &SharedBoard<B>, place: &mut Place<B>) -> u64
    requires board { (place.old.table_id ≡ board.now.table_id) × IsBoard board.now.table_id }
    requires free { (place.old.me.0.ticket ≡ None) × (place.old.me.1 ≡ []) }
    ensures same { (place.new.table_id ≡ place.old.table_id) × (place.new.id ≡ place.old.id) }
    ensures drawn { place.new.me ≡ (with_ticket result place.old.me.0, []) }
{
    for _ in rt.forever() {
        let next = board.peek(0);
        if next == u64::MAX {
            // Behind the last ticket there is none, and the seat waits for good.
            board.park(rt, 0, u32::MAX);
        } else if board.compare_exchange::<Draw>(place, 0, next, next + 1) == next {
            return next;
        }
    }
    unreachable!()
}

// Waits until the ticket is served. The value is then in the seat's hands.
pub(crate) fn wait<B: Booked, R: Wait>(
    rt: &R,
    board: &SharedBoard<B>,
    bells: &Bells,
    place: &mut Place<B>,
    ticket: u64,
)
    requires board { (place.old.table_id ≡ board.now.table_id) × IsBoard board.now.table_id }
    requires drawn { (place.old.me.0.ticket ≡ Some ticket) × (place.old.me.0.turn ≡ None) × (place.old.me.1 ≡ []) }
    ensures same { (place.new.table_id ≡ place.old.table_id) × (place.new.id ≡ place.old.id) }
    ensures begun { TurnBegins B.stands B.lasting B.who place.old.me place.new.me }
{
    for _ in rt.forever() {
        let heard = bells.listen(ticket);
        if board.load::<Look>(place, 1) == ticket {
            return;
        }
        bells.sleep(rt, ticket, heard);
    }
    unreachable!()
}

// Ends the turn.
pub(crate) fn leave<B: Booked>(board: &SharedBoard<B>, bells: &Bells, place: &mut Place<B>)
    requires board { (place.old.table_id ≡ board.now.table_id) × IsBoard board.now.table_id }
    requires whole { MayEnd B.stands B.lasting B.who place.old.me }
    ensures same { (place.new.table_id ≡ place.old.table_id) × (place.new.id ≡ place.old.id) }
    ensures ended { TurnEnds B.stands place.old.me place.new.me }
{
    let next = board.fetch_add::<Next>(place, 1, 1).wrapping_add(1);
    // Who draws this ticket after the look finds it served.
    if board.peek(0) != next {
        bells.ring(next);
    }
}

// Waits for a turn, and takes the value in it.
pub(crate) fn take_value<B: Booked, R: Wait>(
    rt: &R,
    board: &SharedBoard<B>,
    bells: &Bells,
    place: &mut Place<B>,
) -> B
    requires board { (place.old.table_id ≡ board.now.table_id) × IsBoard board.now.table_id }
    requires idle { IsIdle place.old.me }
    ensures same { (place.new.table_id ≡ place.old.table_id) × (place.new.id ≡ place.old.id) }
    ensures taken { (t : ℕ)
        × (place.new.me ≡ (in_turn (B.stands result) (with_ticket t place.old.me.0), (0, None) ∷ [])) }
    ensures extends { Extends B.who place.old.me.0 (B.stands result) }
    ensures lasting { place.old.me.0.lasting ≡ Some (B.lasting result) }
{
    let ticket = draw(rt, board, place);
    wait(rt, board, bells, place, ticket);
    board.exchange(place, 0, None).unwrap()
}

// Puts the value back, and ends the turn.
pub(crate) fn give_value<B: Booked>(
    board: &SharedBoard<B>,
    bells: &Bells,
    place: &mut Place<B>,
    value: B,
)
    requires board { (place.old.table_id ≡ board.now.table_id) × IsBoard board.now.table_id }
    requires may { MayPutBack B.stands B.lasting B.who place.old.me value }
    ensures same { (place.new.table_id ≡ place.old.table_id) × (place.new.id ≡ place.old.id) }
    ensures given { place.new.me ≡ (after_next (B.stands value) place.old.me.0, []) }
{
    let empty = board.exchange(place, 0, Some(value));
    let None = empty else { unreachable!() };
    leave(board, bells, place);
}

// Waits for a turn, and counts the numbers that were given out in it.
pub(crate) fn count_callers<B: Booked, R: Wait>(
    rt: &R,
    board: &SharedBoard<B>,
    bells: &Bells,
    place: &mut Place<B>,
) -> u64
    requires board { (place.old.table_id ≡ board.now.table_id) × IsBoard board.now.table_id }
    requires idle { IsIdle place.old.me }
    ensures same { (place.new.table_id ≡ place.old.table_id) × (place.new.id ≡ place.old.id) }
    ensures counted { CountedInTurn B.stands B.lasting B.who place.old.me result place.new.me }
{
    let ticket = draw(rt, board, place);
    wait(rt, board, bells, place, ticket);
    board.load::<Count>(place, 2)
}

// Gives a new seat a number in a turn of its own, unless all were given out.
// Answers how many were given out before.
pub(crate) fn draw_number<B: Booked, R: Wait>(
    rt: &R,
    board: &SharedBoard<B>,
    bells: &Bells,
    place: &mut Place<B>,
) -> u64
    requires board { (place.old.table_id ≡ board.now.table_id) × IsBoard board.now.table_id }
    requires fresh { place.old.me ≡ (newcomer place.old.me.0.lasting place.old.me.0.seen place.old.me.0.known, []) }
    requires lasting { (l : ℕ) × (place.old.me.0.lasting ≡ Some l) }
    ensures same { (place.new.table_id ≡ place.old.table_id) × (place.new.id ≡ place.old.id) }
    ensures drawn { NumberDrawn B.who place.old.me.0 result place.new.me }
{
    let callers = count_callers(rt, board, bells, place);
    if callers < MAX_SEATS {
        board.fetch_add::<Enrol>(place, 2, 1);
        leave(board, bells, place);
        return callers;
    }
    leave(board, bells, place);
    callers
}

// Recalls what the seat knows.
pub(crate) fn recall<B: Booked>(board: &SharedBoard<B>, place: &mut Place<B>)
    requires board { (place.old.table_id ≡ board.now.table_id) × IsBoard board.now.table_id }
    ensures same { (place.new.table_id ≡ place.old.table_id) × (place.new.id ≡ place.old.id) }
    ensures me { place.new.me ≡ place.old.me }
    ensures sound { IsSound B.who place.new.me.0 }
{
    board.load::<Recall>(place, 0);
}

// Takes in another seat, and recalls what the seat then knows.
pub(crate) fn take_in<B: Booked>(board: &SharedBoard<B>, place: &mut Place<B>, other: Place<B>)
    requires board { (place.old.table_id ≡ board.now.table_id) × (other.table_id ≡ board.now.table_id)
        × IsBoard board.now.table_id }
    requires idle { ((n : ℕ) × (place.old.me.0.number ≡ Some n)) × (place.old.me.0.ticket ≡ None)
        × (place.old.me.1 ≡ [])
        × (other.me.0.ticket ≡ None) × (other.me.1 ≡ []) }
    ensures same { (place.new.table_id ≡ place.old.table_id) × (place.new.id ≡ place.old.id) }
    ensures met { place.new.me ≡ (merged place.old.me.0 other.me.0, []) }
    ensures sound { IsSound B.who place.new.me.0 }
{
    board.join_seat::<Merge>(place, other);
    board.load::<Recall>(place, 0);
}

// Recalls what two seats know, and takes the second in.
pub(crate) fn join_places<B: Booked>(
    board: &SharedBoard<B>,
    place: &mut Place<B>,
    mut other: Place<B>,
)
    requires board { (place.old.table_id ≡ board.now.table_id) × (other.table_id ≡ board.now.table_id)
        × IsBoard board.now.table_id }
    requires idle { ((n : ℕ) × (place.old.me.0.number ≡ Some n)) × (place.old.me.0.ticket ≡ None)
        × (place.old.me.1 ≡ [])
        × (other.me.0.ticket ≡ None) × (other.me.1 ≡ []) }
    ensures same { (place.new.table_id ≡ place.old.table_id) × (place.new.id ≡ place.old.id) }
    ensures met { place.new.me ≡ (merged place.old.me.0 other.me.0, []) }
    ensures before { IsSound B.who place.old.me.0 × IsSound B.who other.me.0 }
    ensures sound { IsSound B.who place.new.me.0 }
{
    recall(board, &mut other);
    recall(board, place);
    take_in(board, place, other);
}

// Waits for a turn, and takes the value out for good where the seat owns all numbers.
// Else the turn ends, and the answer is how many were given out.
pub(crate) fn take_out<B: Booked, R: Wait>(
    rt: &R,
    board: &SharedBoard<B>,
    bells: &Bells,
    place: &mut Place<B>,
    owns: u64,
) -> Result<B, u64>
    requires board { (place.old.table_id ≡ board.now.table_id) × IsBoard board.now.table_id }
    requires idle { IsIdle place.old.me }
    requires owns { owns ≡ owned_count place.old.me.0 }
    ensures same { (place.new.table_id ≡ place.old.table_id) × (place.new.id ≡ place.old.id) }
    ensures ok { IfOk result (λ v. TakenOut B.stands B.lasting B.who place.old.me.0 v × IsClosed place.new.me) }
    ensures err { IfErr result (λ n. StillOut B.who owns place.old.me n place.new.me) }
{
    let callers = count_callers(rt, board, bells, place);
    if callers <= owns {
        let value = board.exchange(place, 0, None).unwrap();
        board.load::<Close>(place, 0);
        return Ok(value);
    }
    leave(board, bells, place);
    Err(callers)
}

// The table's one slot, with the value in it.
pub(crate) fn one_slot<B>(alloc: Global, value: B) -> Result<Vec<Option<B>>, B>
    ensures ok { IfOk result (λ v. v.items ≡ Some value ∷ []) }
    ensures err { IfErr result (λ v. v ≡ value) }
{
    let mut slots = Vec::new(alloc);
    match slots.push(Some(value)) {
        Ok(()) => Ok(slots),
        Err(AllocFailed { value }) => {
            slots.destroy_empty();
            Err(value.unwrap())
        }
    }
}

// A table over the value in this slot, and the first seat at it. Number 0 is given out.
pub(crate) fn open_board<B: Booked>(
    alloc: Global,
    slots: Vec<Option<B>>,
    about: &Snapshot<B>,
) -> Result<(Board<B>, Place<B>), B>
    requires slots { slots.items ≡ Some about.now.value ∷ [] }
    requires own { AllByRecursion (λ e. B.who e ≡ 0) (B.stands about.now.value) }
    ensures ok { IfOk result (λ t. (t.1.table_id ≡ t.0.shared.table_id) × IsBoard t.0.shared.table_id
        × (t.1.me ≡ (first_view B.who (B.lasting about.now.value) (B.stands about.now.value), []))) }
    ensures err { IfErr result (λ v. v ≡ about.now.value) }
{
    match Table::new(alloc, &[0, 0, 1], slots, about) {
        Ok(made) => Ok(made),
        Err(Refused { mut slots }) => {
            let value = slots.pop().unwrap().unwrap();
            slots.destroy_empty();
            Err(value)
        }
    }
}

// Frees the table after the value was taken out for good.
pub(crate) fn free_board<B: Booked>(table: Board<B>, place: Place<B>)
    requires board { (place.table_id ≡ table.shared.table_id) × IsBoard table.shared.table_id }
    requires closed { IsClosed place.me }
{
    let mut closed = table.close_with(place);
    let empty = closed.take(0);
    let None = empty else { unreachable!() };
    closed.free();
}
