//! The steps of a seat of the lock.

ghost use Rattle.std.specs.Prelude.{◌≡◌, ◌≢◌, [], ◌∷◌, ◌<◌, Some, None, MatchOption};
ghost use mathlib.Core.List.{IsPrefix};
ghost use Rattle.jc_turn.specs.declared.board.LockStage.TheVariants.{Rests, Moves, Holds};
ghost use Rattle.jc_turn.specs.LockRules.{at_stage, but_one, joined_views, lost_again, now_seen, one_of, without_old};
ghost use Rattle.jc_turn.specs.LockSeats.{IsSeat, IsLock, view_of};

use crate::board::{LockPlace, LockPlaceView, LockRule};
use crate::histories::Booked;
use crate::plays::{Compare, Empty, Home, Meet, Note, Reach, Try};
use atomic_table::{Badge, Shared};
use std::mem::replace;

// The table, as its seats share it.
pub(crate) type Board<T> = Shared<Option<T>, LockPlaceView, u32, LockRule>;

// Takes the seat of the table out of its badge.
pub(crate) fn rise<T>(badge: &mut Badge<LockPlaceView>) -> LockPlace<T>
    requires { badge.old.views ≡ view_of badge.old.views ∷ [] }
    ensures { (result.table_id ≡ badge.old.table_id) × (result.me ≡ (view_of badge.old.views, [])) }
{
    replace(badge, Badge::blank()).into_seat()
}

// Tries to take the value.
pub(crate) fn try_take<T: Booked>(board: &Board<T>, place: &mut LockPlace<T>) -> Option<T>
    requires lock { IsLock board.now.table_id × (place.old.table_id ≡ board.now.table_id) }
    requires free { (place.old.me.0.stage ≡ Rests) × (place.old.me.0.weight ≢ 0)
        × (place.old.me.1 ≡ []) }
    ensures same { place.new.table_id ≡ place.old.table_id }
    ensures taken { MatchOption result (place.new.me ≡ (lost_again place.old.me.0, []))
        (λ value. (place.new.me ≡ (now_seen Holds (T.pasts value) place.old.me.0, []))
        × IsPrefix place.old.me.0.seen (T.pasts value)) }
{
    let found = board.compare_exchange::<Try>(place, 0, 0, 1);
    if found == 0 {
        let value = board.exchange(place, 0, None);
        board.load::<Empty>(place, 0);
        return value;
    }
    None
}

// Gives the value back.
pub(crate) fn put_back<T: Booked>(board: &Board<T>, place: &mut LockPlace<T>, value: T)
    requires lock { IsLock board.now.table_id × (place.old.table_id ≡ board.now.table_id) }
    requires holds { (place.old.me.0.stage ≡ Holds) × (place.old.me.1 ≡ []) }
    requires longer { IsPrefix place.old.me.0.seen (T.pasts value) }
    ensures same { place.new.table_id ≡ place.old.table_id }
    ensures given { place.new.me ≡ (now_seen Rests (T.pasts value) place.old.me.0, []) }
{
    board.load::<Reach>(place, 0);
    let empty = board.exchange(place, 0, Some(value));
    let None = empty else { unreachable!() };
    board.store::<Home>(place, 0, 0);
}

// Joins what the other has seen.
pub(crate) fn learn<T: Booked>(board: &Board<T>, place: &mut LockPlace<T>, other: LockPlace<T>)
    requires lock { IsLock board.now.table_id × (place.old.table_id ≡ board.now.table_id)
        × (other.table_id ≡ board.now.table_id) }
    requires rest { (place.old.me.0.stage ≡ Rests) × (place.old.me.1 ≡ [])
        × (other.me.0.stage ≡ Rests) × (other.me.1 ≡ []) }
    ensures same { place.new.table_id ≡ place.old.table_id }
    ensures joined { place.new.me ≡ (without_old (joined_views place.old.me.0 other.me.0), []) }
    ensures mine { IsPrefix place.old.me.0.seen place.new.me.0.seen }
    ensures other { IsPrefix other.me.0.seen place.new.me.0.seen }
{
    board.join_seat::<Meet>(place, other);
    board.load::<Compare>(place, 0);
}
