//! What each step on the table tells.

ghost use Rattle.jc_marks.specs.MarkRules.{now_grown, now_compared, mark_of, met_views, blank_mark};

use crate::board::LogPlaceView;
use crate::list_tag::ListTag;
use atomic_table::{Join, Play, Split};
use std::marker::PhantomData;

/// A load by which the log has seen the list.
pub(crate) struct Grow<L: ListTag> {
    of: PhantomData<L>,
}

impl<L: ListTag> Play<(), LogPlaceView> for Grow<L> {
    ghost then = { now_grown L.list };
}

/// A load that compares the list of the mark that was joined.
pub(crate) struct CompareMark;

impl Play<(), LogPlaceView> for CompareMark {
    ghost then = { now_compared };
}

/// A mark beside the log.
pub(crate) struct Cut;

impl Split<LogPlaceView> for Cut {
    ghost left = { λ v. v };

    ghost right = { mark_of };
}

/// The log, which has met a mark.
pub(crate) struct Merge;

impl Join<LogPlaceView> for Merge {
    ghost both = { met_views };

    ghost spent = { blank_mark };
}
