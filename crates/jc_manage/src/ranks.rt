//! The order in which pods go where there are too many.

ghost use Rattle.std.specs.Prelude.{◌≡◌, ◌-◌, count_by, false, length, nat_lt, not, slice_get};
ghost use Rattle.std.specs.Option.{option_map_or};
ghost use Rattle.std.specs.Ordering.{is_lt};
ghost use Rattle.jc_manage.specs.declared.ranks.Rank.{Rank};
ghost use Rattle.jc_manage.specs.Ranks.{is_below_rank, is_last, rank_of};

use jc_states::is_pending;
use jc_types::{Mode, Pod, Uid};

// The place of a pod in the order in which pods go. The greater goes first: of an Indexed Job the one of
// the greater index; else a pending one before one that runs, and then the one of the greater UID.
#[derive(Clone, Copy, PartialEq, Eq, PartialOrd, Ord)]
pub(crate) enum Rank {
    Index(Option<u32>),
    Running(Uid),
    Pending(Uid),
}

// The rank of the pod.
pub(crate) fn rank_of(mode: Mode, pod: &Pod) -> Rank
    ensures { result ≡ rank_of mode pod.now }
{
    match mode {
        Mode::Indexed => Rank::Index(pod.index),
        Mode::NonIndexed => {
            if is_pending(pod.phase) {
                Rank::Pending(pod.uid)
            } else {
                Rank::Running(pod.uid)
            }
        }
    }
}

// Whether the first rank is below the second.
pub(crate) fn is_below(left: Rank, right: Rank) -> bool
    ensures { result ≡ is_below_rank left right }
{
    left < right
}

// The item at a place.
fn item_at<T: Copy>(items: &[T], place: usize) -> Option<T>
    ensures { result ≡ slice_get items.now place }
{
    items.get(place).copied()
}

// The least of the greatest items, where so many of the least stay, and none where all stay. An item is
// among the greatest where fewer are above it than the greatest are.
fn least_of_greatest<T: Ord + Copy>(mut items: Vec<T>, staying: usize) -> Option<T>
    ensures { (x : T)
        → nat_lt (count_by (λ y. is_lt (T.cmp x y)) items.items) (length items.items - staying)
        ≡ option_map_or (λ least. not (is_lt (T.cmp x least))) result false }
{
    items.sort_unstable();
    item_at(items.as_slice(), staying)
}

// The least rank of those that go where so many stay, and none where all stay.
pub(crate) fn least_to_go(ranks: Vec<Rank>, staying: u64) -> Option<Rank>
    ensures { (rank : Rank)
        → nat_lt (count_by (λ other. is_below_rank rank other) ranks.items)
        (length ranks.items - staying)
        ≡ is_last result rank }
{
    least_of_greatest(ranks, staying as usize)
}
