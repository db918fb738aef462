//! Rows by key, in the order in which their keys came.

ghost use Rattle.std.specs.Prelude.{◌≡◌, ◌<◌, ◌^◌, ◌↔◌, [], IsSome, IsTrue, None, OnErr, OnOk, Some, is_some, length, map};
ghost use Rattle.std.specs.List.{IsDistinct};
ghost use Rattle.std.specs.Map.{keys_of};
ghost use Rattle.std.specs.Map.Iter.{ShowsInOrder, ShowsInReverse, deref};
ghost use Rattle.std.specs.Option.{option_copied};
ghost use Rattle.jc_log.specs.Tables.{at, puts, takes, Sets};

use crate::numbered::Numbered;
use crate::rows::Rows;
use crate::values::Values;
use indexmap::IndexMap;
use jc_types::{Copied, Want};
use std::alloc::{AllocError, Global};
use std::hash::Hash;
use std::marker::Model;

/// A table: rows of a key and a value, each key in one row. A new key's row goes last, a value that
/// is written again stays in its place, and a row that is taken leaves the others in their order.
#[derive(Drop)]
pub struct Table<K: Eq + Hash, V> {
    // The rows in their order, each under a number.
    rows: Numbered<(K, V)>,
    // The number of each key's row.
    numbers: IndexMap<K, u64>,
    // The number of the next new row. All others are below it.
    next: u64,
}

impl<K: Eq + Hash, V> Model for Table<K, V> {
    ghost use Rattle.std.specs.Prelude.{List};
    ghost use Rattle.std.specs.Map.{values_of};
    ghost use Rattle.jc_table.specs.Numbered.{AreNumbered};

    ghost Value = { List (K × V) };

    ghost view = { λ t. values_of t.rows };

    ghost invariant = { λ t. AreNumbered K.eq t.rows t.numbers.entries t.next };
}

impl<K: Eq + Hash, V> Table<K, V> {
    /// The empty table. It takes no memory.
    pub fn new(alloc: Global) -> Self
        ensures { result ≡ [] }
    {
        Table {
            rows: Numbered::new(alloc),
            numbers: IndexMap::new(alloc),
            next: 0,
        }
    }

    /// The number of rows.
    pub fn len(&self) -> usize
        ensures { result ≡ length self.now }
    {
        self.rows.len()
    }

    /// Whether there is no row.
    pub fn is_empty(&self) -> bool
        ensures { IsTrue result ↔ (length self.now ≡ 0) }
    {
        self.rows.is_empty()
    }

    /// The value at the key; `None` exactly where no row has the key.
    #[inline(always)]
    pub fn get(&self, key: &K) -> Option<&V>
        ensures { option_copied result ≡ at K.eq self.now key.now }
    {
        let number = self.numbers.get(key)?;
        let (_key, value) = self.rows.get(*number)?;
        Some(value)
    }

    /// Whether a row has the key.
    pub fn contains(&self, key: &K) -> bool
        ensures { result ≡ is_some (at K.eq self.now key.now) }
    {
        self.numbers.contains_key(key)
    }

    /// All rows, in their order, from the front or from the back.
    pub fn rows(&self) -> Rows<'_, (K, V)>
        ensures rows { result ≡ self.now }
        ensures once { IsDistinct K.eq (keys_of self.now) }
        ensures runs { ShowsInOrder (deref {X = K × V}) }
        ensures runs_back { ShowsInReverse (deref {X = K × V}) }
        ensures fits { length self.now < 2 ^ 63 }
    {
        self.rows.values()
    }

    /// All values, in the order of the rows.
    pub fn values(&self) -> Values<'_, K, V>
        ensures values { result ≡ map (λ row. row.1) self.now }
        ensures runs { ShowsInOrder (deref {X = V}) }
        ensures fits { length self.now < 2 ^ 63 }
    {
        Values::new(self.rows.values())
    }
}

impl<K: Eq + Hash + Copied, V: Drop> Table<K, V> {
    /// Writes the value at the key: in the place of the one that is there, or in a new row at the
    /// end.
    ///
    /// # Errors
    /// `Want` where there is no memory for a new row; the table is then as before. So it is where
    /// 2 ^ 64 rows have come before, which no program lives to see.
    pub fn put(&mut self, key: K, value: V) -> Result<(), Want>
        ensures sets { OnOk result (Sets K.eq self.old self.new key (Some value)) }
        ensures puts { OnOk result (self.new ≡ puts K.eq self.old key value) }
        ensures kept { OnErr result (self.new ≡ self.old) }
        ensures new_key { OnErr result (at K.eq self.old key ≡ None) }
    {
        let Some(number) = self.numbers.get(&key) else {
            return self.push(key, value);
        };
        self.rows.set_second(*number, value);
        Ok(())
    }

    // Writes the value in a new row at the end.
    fn push(&mut self, key: K, value: V) -> Result<(), Want>
        requires { at K.eq self.old key ≡ None }
        ensures sets { OnOk result (Sets K.eq self.old self.new key (Some value)) }
        ensures puts { OnOk result (self.new ≡ puts K.eq self.old key value) }
        ensures kept { OnErr result (self.new ≡ self.old) }
    {
        let number = self.next;
        let Some(next) = number.checked_add(1) else {
            return Err(AllocError);
        };
        self.rows.insert(number, (key.copy()?, value))?;
        match self.numbers.insert(key, number) {
            Ok(_) => {
                self.next = next;
                Ok(())
            }
            Err(_) => {
                self.rows.remove(number);
                Err(AllocError)
            }
        }
    }
}

impl<K: Eq + Hash + Drop, V: Drop> Table<K, V> {
    /// Writes the value at a key that is there. It takes no memory.
    pub fn replace(&mut self, key: &K, value: V)
        requires { IsSome (at K.eq self.old key.now) }
        ensures sets { Sets K.eq self.old self.new key.now (Some value) }
        ensures puts { self.new ≡ puts K.eq self.old key.now value }
    {
        let Some(number) = self.numbers.get(key) else {
            unreachable!()
        };
        self.rows.set_second(*number, value);
    }

    /// Takes the row of the key out, and hands over its value; `None` exactly where no row has the
    /// key. The other rows stay in their order.
    pub fn take(&mut self, key: &K) -> Option<V>
        ensures taken { result ≡ at K.eq self.old key.now }
        ensures sets { Sets K.eq self.old self.new key.now None }
        ensures rows { self.new ≡ takes K.eq self.old key.now }
    {
        let number = self.numbers.get(key)?;
        let Some((_key, value)) = self.rows.remove(*number) else {
            unreachable!()
        };
        self.numbers.swap_remove(key);
        Some(value)
    }

    /// Takes all rows out.
    pub fn clear(&mut self)
        ensures { self.new ≡ [] }
    {
        self.rows.clear();
        self.numbers.clear();
        self.next = 0;
    }
}
