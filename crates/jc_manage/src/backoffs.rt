//! How long a Job waits after failures before it makes pods again.

ghost use Rattle.std.specs.Prelude.{◌≡◌, ◌+◌, ◌<◌, ◌≤◌, ◌^◌};
ghost use Rattle.jc_moment.specs.Range.{as_moment};
ghost use Rattle.jc_manage.specs.Backoffs.{backoff_after, is_delayed_until, opening, pause};

use jc_moment::Moment;
use jc_types::{Backoff, CountIn};

// The seconds to wait after one failure.
const FIRST_SECONDS: u64 = 10;

// The most seconds to wait, however many failures there were.
const MOST_SECONDS: u64 = 360;

// So many times the wait is doubled at most: after them it is past the most seconds.
const MOST_DOUBLINGS: u64 = 6;

// The backoff after a sync that has counted so.
pub(crate) fn backoff_after(backoff: &Backoff, counted: &CountIn, now: Moment) -> Backoff
    requires fits { backoff.now.failures + counted.now.new_failed < 2 ^ 64 }
    ensures { result ≡ backoff_after backoff.now counted.now now }
{
    if counted.new_succeeded > 0 {
        return Backoff {
            failures: 0,
            last: backoff.last,
        };
    }
    if counted.new_failed > 0 {
        return Backoff {
            failures: backoff.failures + u64::from(counted.new_failed),
            last: Some(now),
        };
    }
    Backoff {
        failures: backoff.failures,
        last: backoff.last,
    }
}

// The seconds to wait after so many failures in a row.
fn pause(failures: u64) -> u64
    ensures value { result ≡ pause failures }
    ensures at_most { result ≤ 360 }
{
    let doublings = failures.saturating_sub(1).min(MOST_DOUBLINGS) as u32;
    (FIRST_SECONDS * 2_u64.pow(doublings)).min(MOST_SECONDS)
}

// The second before which no pod is made; none where there is no failure.
pub(crate) fn opening(backoff: &Backoff) -> Option<u64>
    ensures { result ≡ opening backoff.now }
{
    if backoff.failures == 0 {
        return None;
    }
    match backoff.last {
        None => None,
        Some(last) => Some(last.seconds() + pause(backoff.failures)),
    }
}

// Whether the opening has not come yet.
pub(crate) fn is_delayed_until(opening: Option<u64>, now: Moment) -> bool
    ensures { result ≡ is_delayed_until opening now }
{
    match opening {
        None => false,
        Some(second) => now.seconds() < second,
    }
}

// The opening, where it is not past the last moment.
pub(crate) fn as_moment(opening: Option<u64>) -> Option<Moment>
    ensures { result ≡ as_moment opening }
{
    match opening {
        None => None,
        Some(second) => Moment::from_seconds(second),
    }
}
