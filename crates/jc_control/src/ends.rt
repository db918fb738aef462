//! The end of a sync.

ghost use Rattle.std.specs.Prelude.{◌≡◌, ◌+◌, ◌<◌, ◌≤◌, true};
ghost use Rattle.std.specs.List.{position};
ghost use Rattle.jc_queue.specs.Queued.{has_key, without};
ghost use Rattle.jc_types.specs.Keys.{same_key};
ghost use Rattle.jc_control.specs.ControllerCalls.{delays_after, forgets_caches};

use jc_moment::Moment;
use jc_queue::{Delays, Supply};
use jc_types::Key;

/// How a sync has ended.
#[derive(Clone, Copy)]
pub enum SyncEnd {
    /// No request is left; the key is due again at the moment, where there is one.
    Ended { next: Option<Moment> },
    /// A status write was refused, as the Job had another version.
    Retry,
    /// A status write was refused, as the Job is gone.
    Gone,
    /// A request was not answered.
    Unavailable,
}

// The place of the supply of the key.
fn place_of(supplies: &[Supply], key: &Key) -> Option<usize>
    ensures { result ≡ position (same_key key.now) supplies.now }
{
    supplies.iter().position(|supply| supply.same_key(key))
}

// Takes the supply of the key out of the list, in which there are as many as syncs.
pub(crate) fn take_supply(supplies: &mut Vec<Supply>, key: &Key) -> Supply
    requires there { has_key key.now supplies.old.items ≡ true }
    ensures supply { result ≡ key.now }
    ensures left { supplies.new.items ≡ without key.now supplies.old.items }
{
    let Some(place) = place_of(supplies.as_slice(), key) else {
        unreachable!()
    };
    supplies.remove(place)
}

// Whether the end forgets both caches.
pub(crate) fn forgets_caches(end: &SyncEnd) -> bool
    ensures { result ≡ forgets_caches end.now }
{
    matches!(end, SyncEnd::Unavailable)
}

// Delays the key as the end of its sync says, in the room that there is.
pub(crate) fn delay(delays: &mut Delays, key: &Key, supply: Supply, end: &SyncEnd, now: Moment)
    requires same { supply ≡ key.now }
    requires room { 0 < delays.old.room }
    ensures delays { delays.new.delays ≡ delays_after delays.old.delays key.now end.now now }
    ensures room { delays.old.room ≤ delays.new.room + 1 }
{
    match end {
        SyncEnd::Ended { next: None } | SyncEnd::Gone => delays.forget(key),
        SyncEnd::Ended { next: Some(moment) } => {
            delays.delay(supply.into_twice(), *moment);
            delays.forget(key);
        }
        SyncEnd::Retry | SyncEnd::Unavailable => delays.fail(supply, now),
    }
}
