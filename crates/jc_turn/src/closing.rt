//! How a lock ends.

ghost use Rattle.std.specs.Prelude.{◌≡◌, ◌<◌, ◌≤◌, ◌+◌, ◌∷◌, [], length, false};
ghost use Rattle.jc_turn.specs.declared.board.LockStage.TheVariants.{Rests};
ghost use Rattle.jc_turn.specs.LockSeats.{NoSeatHolds, AreSeatsOf, BelongTo, HaveSeen, IsLock};

use crate::board::LockPlace;
use crate::histories::Booked;
use crate::seating::{LockSeat, LockSeats};
use crate::steps::{Board, learn};
use crate::turn_lock::TurnLock;

// The seat of the table that a seat of the lock has.
fn place_of<T>(seat: LockSeat) -> LockPlace<T>
    requires { seat.holds ≡ false }
    ensures place { (result.table_id ≡ seat.lock) × (result.me.1 ≡ []) }
    ensures view { (result.me.0.stage ≡ Rests) × (result.me.0.weight ≡ 1)
        × (result.me.0.seen ≡ seat.seen) }
{
    let LockSeat { badge, number: _ } = seat;
    badge.into_seat()
}

// One place that stands for all these seats, and has seen what each of them has.
fn gather<T: Booked>(board: &Board<T>, mut seats: Vec<LockSeat>) -> LockPlace<T>
    requires lock { IsLock board.now.table_id }
    requires some_seats { 0 < length seats.items }
    requires own { BelongTo board.now.table_id seats.items }
    requires free { NoSeatHolds seats.items }
    ensures place { (result.table_id ≡ board.now.table_id) × (result.me.1 ≡ []) }
    ensures view { (result.me.0.stage ≡ Rests) × (result.me.0.weight ≡ length seats.items) }
    ensures seen { HaveSeen seats.items result.me.0.seen }
{
    let Some(first) = seats.pop() else {
        unreachable!()
    };
    let mut place = place_of(first);
    while let Some(seat) = seats.pop() {
        learn(board, &mut place, place_of(seat));
    }
    place
}

impl<T: Booked> TurnLock<T> {
    /// Ends the lock, and gives its value, whose history begins with what each seat has seen. It
    /// takes no memory.
    pub fn close(self, seats: LockSeats) -> T
        requires seats { AreSeatsOf self seats }
        requires free { NoSeatHolds seats }
        ensures { HaveSeen seats (T.pasts result) }
    {
        let TurnLock { table } = self;
        let LockSeats { seats } = seats;
        let place = gather(&table.shared, seats);
        let mut closed = table.close_with(place);
        let slot = closed.take(0);
        closed.free();
        let Some(value) = slot else { unreachable!() };
        value
    }
}
