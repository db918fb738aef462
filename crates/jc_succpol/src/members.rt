//! Members of one set among those of another.

ghost use Rattle.std.specs.Prelude.{◌≡◌, false, slice_get};
ghost use Rattle.std.specs.Option.{option_map_or};
ghost use Rattle.jc_ranges.specs.Sets.{has};
ghost use Rattle.jc_succpol.specs.SuccessRules.{count_within, includes};

use jc_ranges::Ranges;

// Whether the member of a set at a place, counted from 0, is a member of the other set, too.
fn is_shared(set: &Ranges, place: u32, other: &Ranges) -> bool
    ensures { result ≡ option_map_or (λ n. has n other.now) (slice_get set.now place) false }
{
    match set.member(place) {
        None => false,
        Some(n) => other.contains(n),
    }
}

/// Whether each of the indexes is completed.
pub fn includes(completed: &Ranges, indexes: &Ranges) -> bool
    ensures { result ≡ includes completed.now indexes.now }
{
    for place in 0..indexes.len() {
        if !is_shared(indexes, place, completed) {
            return false;
        }
    }
    true
}

/// How many completed indexes are among the indexes.
pub fn count_within(indexes: &Ranges, completed: &Ranges) -> u32
    ensures { result ≡ count_within indexes.now completed.now }
{
    let mut count = 0;
    for place in 0..completed.len() {
        if is_shared(completed, place, indexes) {
            count += 1;
        }
    }
    count
}
