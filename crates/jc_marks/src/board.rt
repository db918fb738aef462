//! The table below a log and its marks: one word, no slot, and what each of its seats knows.

use atomic_table::{Seat, TableRule};
use jc_types::Past;
use std::alloc::Global;

/// What a seat of the table knows. No value of it is made, and a contract reads its arrays as lists
/// of any length.
pub(crate) struct LogPlaceView {
    /// The list that was seen last.
    pub seen: [Past; 0],
    /// The list of the mark that was joined last, or the empty one once that was compared.
    pub met: [Past; 0],
    /// Whether it is the log's. Each other is a mark's.
    pub is_log: bool,
}

/// The rule of the table.
pub(crate) struct LogRule;

impl TableRule<(), LogPlaceView, ()> for LogRule {
    ghost use Rattle.jc_marks.specs.MarkRules.{KeepsLog, log_view};
    ghost use Rattle.std.specs.Prelude.{[]};

    ghost holds = { λ _ s. KeepsLog s.views };

    ghost first = { λ _. log_view [] };
}

/// The table. Its word says nothing: it is there for the steps.
pub(crate) type LogTable = atomic_table::Table<(), LogPlaceView, (), LogRule, Global>;

/// A seat of the table.
pub(crate) type LogPlace = Seat<(), LogPlaceView>;
