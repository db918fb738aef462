//! The log, and its marks.

ghost use Rattle.std.specs.Prelude.{◌≡◌, [], IfOk};
ghost use mathlib.Core.List.{IsPrefix};

use crate::board::{LogPlace, LogTable};
use crate::list_tag::ListTag;
use crate::plays::{CompareMark, Cut, Grow, Merge};
use jc_types::Want;
use std::alloc::Global;
use std::marker::Model;

/// A list of events that only grows, as far as its log has seen it.
#[derive(Drop)]
pub struct Log {
    table: LogTable,
    place: LogPlace,
}

impl Model for Log {
    ghost use Rattle.std.specs.Prelude.{◌≡◌, []};
    ghost use Rattle.jc_marks.specs.Views.{LogView};
    ghost use Rattle.jc_marks.specs.MarkRules.{log_view};

    ghost Value = { LogView };

    ghost view = { λ l. record { name = l.table.shared.table_id; seen = l.place.me.0.seen } };

    ghost invariant = { λ l. (l.table.shared.table_id.words ≡ 1)
        × (l.place.table_id ≡ l.table.shared.table_id)
        × (l.place.me ≡ (log_view l.place.me.0.seen, [])) };
}

/// What a log had seen at a time. It takes no memory and cannot be copied.
#[derive(Drop)]
pub struct Mark {
    place: LogPlace,
}

impl Model for Mark {
    ghost use Rattle.std.specs.Prelude.{◌≡◌, []};
    ghost use Rattle.jc_marks.specs.Views.{MarkView};

    ghost Value = { MarkView };

    ghost view = { λ m. record { name = m.place.table_id; seen = m.place.me.0.seen } };

    ghost invariant = { λ m. m.place.me.1 ≡ [] };
}

impl Log {
    /// A log that has seen nothing.
    ///
    /// # Errors
    /// `Want` where there is no memory.
    pub fn new(alloc: Global) -> Result<Log, Want>
        ensures { IfOk result (λ log. log.seen ≡ []) }
    {
        let (table, place) = LogTable::of_words(alloc, &[0], &())?;
        Ok(Log { table, place })
    }

    /// The log has now seen the list, which begins with all that it had seen. It takes no memory.
    pub fn grow<L: ListTag>(&mut self)
        requires { IsPrefix self.old.seen L.list }
        ensures seen { self.new.seen ≡ L.list }
        ensures name { self.new.name ≡ self.old.name }
    {
        let table = &self.table;
        table.shared.load::<Grow<L>>(&mut self.place, 0);
    }

    /// A mark at what the log has seen. It takes no memory.
    pub fn mark(&mut self) -> Mark
        ensures mark { (result.name ≡ self.old.name) × (result.seen ≡ self.old.seen) }
        ensures log { self.new ≡ self.old }
    {
        let table = &self.table;
        let place = table.shared.split_seat::<Cut>(&mut self.place);
        Mark { place }
    }

    /// What was marked is a beginning of what the log has seen by now. It takes no memory.
    pub fn recall(&mut self, mark: Mark)
        requires { mark.name ≡ self.old.name }
        ensures begins { IsPrefix mark.seen self.old.seen }
        ensures log { self.new ≡ self.old }
    {
        let table = &self.table;
        table.shared.join_seat::<Merge>(&mut self.place, mark.place);
        table.shared.load::<CompareMark>(&mut self.place, 0);
    }
}
