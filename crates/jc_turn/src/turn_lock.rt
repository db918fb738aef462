//! The lock.

ghost use Rattle.std.specs.Prelude.{◌≡◌, ◌<◌, ◌≤◌, ◌+◌, ◌⊎◌, ◌↔◌, true, false, IfOk, IfErr, OnOk, OnErr};
ghost use mathlib.Core.List.{IsPrefix};
ghost use Rattle.jc_turn.specs.Answers.{IfValue, IfOut, IsOut};
ghost use Rattle.jc_turn.specs.LockSeats.{IsSameSeat};

use crate::answers::Taken;
use crate::board::LockTable;
use crate::histories::Booked;
use crate::plays::Note;
use crate::seating::LockSeat;
use crate::steps::{learn, put_back, rise, try_take};
use jc_types::Want;
use std::marker::Model;

/// A lock that holds one value, or has it out. Contracts see which lock it is, and how many seats
/// it has.
#[derive(Drop)]
pub struct TurnLock<T: Booked> {
    pub(crate) table: LockTable<T>,
}

impl<T: Booked> Model for TurnLock<T> {
    ghost use Rattle.std.specs.Prelude.{◌<◌};
    ghost use Rattle.jc_turn.specs.LockSeats.{TurnLockView, IsLock};

    ghost Value = { TurnLockView };

    ghost view = { λ t. record { name = t.table.shared.table_id; seats = t.table.shared.key } };

    ghost invariant = { λ t. IsLock t.table.shared.table_id × (0 < t.table.shared.key) };
}

impl<T: Booked> TurnLock<T> {
    /// Tries to take the value: `Out` exactly where the seat's count of tries that found the value
    /// out rose. With the value the seat has seen its history, which begins with what it had seen.
    /// It takes no memory.
    pub fn take(&self, seat: &mut LockSeat) -> Taken<T>
        requires lock { seat.old.lock ≡ self.now.name }
        requires free { seat.old.holds ≡ false }
        ensures seat { IsSameSeat seat.old seat.new }
        ensures value { IfValue result (λ value. (seat.new.holds ≡ true)
            × (seat.new.seen ≡ T.pasts value) × IsPrefix seat.old.seen (T.pasts value)
            × (seat.new.lost ≡ seat.old.lost)) }
        ensures out { IfOut result ((seat.new.holds ≡ false)
            × (seat.new.seen ≡ seat.old.seen) × (seat.new.lost ≡ seat.old.lost + 1)) }
        ensures exactly { IsOut result ↔ (seat.old.lost < seat.new.lost) }
    {
        let mut place = rise(&mut seat.badge);
        let taken = match try_take(&self.table.shared, &mut place) {
            Some(value) => Taken::Value(value),
            None => Taken::Out,
        };
        seat.badge = place.into_badge();
        taken
    }

    /// Gives the value back, whose history the seat has seen then. It takes no memory.
    pub fn give(&self, seat: &mut LockSeat, value: T)
        requires lock { seat.old.lock ≡ self.now.name }
        requires holds { seat.old.holds ≡ true }
        requires longer { IsPrefix seat.old.seen (T.pasts value) }
        ensures seat { IsSameSeat seat.old seat.new }
        ensures given { (seat.new.holds ≡ false) × (seat.new.seen ≡ T.pasts value)
            × (seat.new.lost ≡ seat.old.lost) }
    {
        let mut place = rise(&mut seat.badge);
        put_back(&self.table.shared, &mut place, value);
        seat.badge = place.into_badge();
    }

    /// Lets a seat know what another has seen: it has then seen the longer of the two histories,
    /// which begins with the other.
    ///
    /// # Errors
    /// `Want` where there is no memory; both seats are then as before.
    pub fn meet(&self, from: &mut LockSeat, to: &mut LockSeat) -> Result<(), Want>
        requires lock { (from.old.lock ≡ self.now.name) × (to.old.lock ≡ self.now.name) }
        requires free { (from.old.holds ≡ false) × (to.old.holds ≡ false) }
        ensures from { from.new ≡ from.old }
        ensures seat { IsSameSeat to.old to.new × (to.new.holds ≡ false)
            × (to.new.lost ≡ to.old.lost) }
        ensures one { OnOk result
            ((to.new.seen ≡ from.old.seen) ⊎ (to.new.seen ≡ to.old.seen)) }
        ensures both { OnOk result
            (IsPrefix from.old.seen to.new.seen × IsPrefix to.old.seen to.new.seen) }
        ensures want { OnErr result (to.new ≡ to.old) }
    {
        let mut giver = rise(&mut from.badge);
        let note = self.table.shared.split_seat::<Note>(&mut giver);
        from.badge = giver.into_badge();
        let mut learner = rise(&mut to.badge);
        learn(&self.table.shared, &mut learner, note);
        to.badge = learner.into_badge();
        Ok(())
    }
}
