//! How a lock is made.

ghost use Rattle.std.specs.Prelude.{◌≡◌, ◌<◌, ◌≤◌, ◌+◌, ◌∷◌, [], IfOk, IfErr, Some, vec_capacity};
ghost use Rattle.jc_turn.specs.LockRules.{first_view};
ghost use Rattle.jc_turn.specs.LockSeats.{IsLock, fresh_seats};

use crate::answers::OpenWant;
use crate::board::{LockPlace, LockTable};
use crate::histories::Booked;
use crate::plays::OneSeat;
use crate::seating::{LockSeat, LockSeats};
use crate::steps::Board;
use crate::turn_lock::TurnLock;
use atomic_table::Refused;
use std::alloc::Global;

// A slot with the value.
fn in_slot<T>(alloc: Global, value: T) -> Result<Vec<Option<T>>, T>
    ensures slot { IfOk result (λ slots. slots.items ≡ Some value ∷ []) }
    ensures want { IfErr result (λ back. back ≡ value) }
{
    let Ok(mut slots) = Vec::with_capacity(alloc, 1) else {
        return Err(value);
    };
    slots.push_reserved(Some(value));
    Ok(slots)
}

// The value of that slot.
fn out_of_slot<T>(mut slots: Vec<Option<T>>) -> T
    requires { (value : T) × (slots.items ≡ Some value ∷ []) }
    ensures { slots.items ≡ Some result ∷ [] }
{
    let slot = slots.pop();
    slots.destroy_empty();
    let Some(Some(value)) = slot else {
        unreachable!()
    };
    value
}

// The table of a lock that has the value, with the place that stands for all seats.
fn lay<T: Booked>(alloc: Global, value: T, seats: u32) -> Result<(LockTable<T>, LockPlace<T>), T>
    ensures table { IfOk result (λ made.
        IsLock made.0.shared.table_id × (made.0.shared.key ≡ seats)) }
    ensures place { IfOk result (λ made. (made.1.table_id ≡ made.0.shared.table_id)
        × (made.1.me ≡ (first_view seats, []))) }
    ensures want { IfErr result (λ back. back ≡ value) }
{
    let slots = in_slot(alloc, value)?;
    match LockTable::new(alloc, &[0], slots, &seats) {
        Ok(made) => Ok(made),
        Err(Refused { slots }) => Err(out_of_slot(slots)),
    }
}

// Cuts the seats from the place that stands for all of them.
fn deal<T: Booked>(board: &Board<T>, mut place: LockPlace<T>, list: &mut Vec<LockSeat>, seats: u32)
    requires some_seats { 1 ≤ seats }
    requires lock { IsLock board.now.table_id × (place.table_id ≡ board.now.table_id) }
    requires all { place.me ≡ (first_view seats, []) }
    requires room { (list.old.items ≡ []) × (seats ≤ vec_capacity list.old) }
    ensures { list.new.items ≡ fresh_seats board.now.table_id 0 seats }
{
    for number in 0..seats - 1 {
        let one = board.split_seat::<OneSeat>(&mut place);
        list.push_reserved(LockSeat {
            badge: one.into_badge(),
            number,
        });
    }
    list.push_reserved(LockSeat {
        badge: place.into_badge(),
        number: seats - 1,
    });
}

/// A lock that has the value, and so many seats, with the numbers from 0, which hold nothing and
/// have seen nothing. There are from 1 to 16.
///
/// # Errors
/// `OpenWant` with the value, where there is no memory.
pub fn make<T: Booked>(
    alloc: Global,
    value: T,
    seats: u32,
) -> Result<(TurnLock<T>, LockSeats), OpenWant<T>>
    requires { (1 ≤ seats) × (seats ≤ 16) }
    ensures made { IfOk result (λ made. (made.0.seats ≡ seats)
        × (made.1 ≡ fresh_seats made.0.name 0 seats)) }
    ensures want { IfErr result (λ want. want.0 ≡ value) }
{
    let Ok(mut list) = Vec::with_capacity(alloc, seats as usize) else {
        return Err(OpenWant(value));
    };
    match lay(alloc, value, seats) {
        Ok((table, place)) => {
            deal(&table.shared, place, &mut list, seats);
            Ok((TurnLock { table }, LockSeats { seats: list }))
        }
        Err(value) => Err(OpenWant(value)),
    }
}
