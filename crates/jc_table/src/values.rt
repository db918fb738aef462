//! The values of a table, one after another.

ghost use Rattle.std.specs.Prelude.{◌≡◌, length};
ghost use Rattle.std.specs.Iterator.{at_most};
ghost use Rattle.std.specs.Map.{values_of};
ghost use Rattle.std.specs.Map.Iter.{TakesFirst, deref};

use crate::rows::Rows;
use std::marker::Model;

/// The values that are left, in the order of the rows.
#[derive(Drop)]
pub struct Values<'a, K, V> {
    rows: Rows<'a, (K, V)>,
}

impl<'a, K, V> Model for Values<'a, K, V> {
    ghost use Rattle.std.specs.Prelude.{List};
    ghost use Rattle.std.specs.Map.{values_of};

    ghost Value = { List V };

    ghost view = { λ v. values_of v.rows };
}

impl<'a, K, V> Values<'a, K, V> {
    // Those of these rows.
    pub(crate) fn new(rows: Rows<'a, (K, V)>) -> Self
        ensures { result ≡ values_of rows.entry }
    {
        Values { rows }
    }
}

impl<'a, K, V> Iterator for Values<'a, K, V> {
    type Item = &'a V;

    ghost next_gives = { TakesFirst deref };

    ghost remaining = { λ left. at_most (length left) };

    fn next(&mut self) -> Option<&'a V> {
        match self.rows.next() {
            Some(row) => Some(&row.1),
            None => None,
        }
    }
}
