//! Values under numbers.

ghost use Rattle.std.specs.Prelude.{◌≡◌, ◌+◌, ◌/◌, ◌%◌, ◌<◌, ◌≤◌, ◌^◌, ◌↔◌, ℕ, [], IsSome, IsTrue, None, OnErr, OnOk, length, slice_get, slice_set};
ghost use Rattle.std.specs.BTreeMap.{insert_entry, is_at};
ghost use Rattle.std.specs.Map.{lookup, remove_entry, set_value, values_of};
ghost use Rattle.std.specs.Map.Iter.{ShowsInOrder, ShowsInReverse, deref};
ghost use Rattle.std.specs.Option.{IfSome, option_copied, option_flatten};
ghost use Rattle.std.specs.Ordering.{nat_cmp};
ghost use Rattle.jc_table.specs.Pages.{AreShort, paged, places};

use crate::rows::Rows;
use jc_types::Want;
use std::alloc::{AllocError, Global};
use std::marker::Model;

// The places of a page.
const PLACES: u64 = 64;

// The most values that there may be.
const MOST: usize = usize::MAX / 2;

/// Values under numbers, in ascending number. A value is found by its place: numbers stand in pages
/// of 64, so that a list of all passes over 64 numbers that are gone at a step.
#[derive(Drop)]
pub(crate) struct Numbered<V> {
    // The page p has the places of the numbers from 64 * p on, as far as one of them was wanted.
    pages: Vec<Vec<Option<V>>>,
    // The number of values.
    count: usize,
}

impl<V> Model for Numbered<V> {
    ghost use Rattle.std.specs.Prelude.{List, ℕ};
    ghost use Rattle.jc_table.specs.Pages.{ArePages, paged};

    ghost Value = { List (ℕ × V) };

    ghost view = { λ t. paged 0 t.pages.items };

    ghost invariant = { λ t. ArePages t.pages.items t.count };
}

// The page of a number.
fn page_of(number: u64) -> usize
    ensures { result ≡ number / 64 }
{
    (number / PLACES) as usize
}

// The place of a number in its page.
fn place_of(number: u64) -> usize
    ensures { result ≡ number % 64 }
{
    (number % PLACES) as usize
}

// Grows the pages until this one is there. The new ones have no place.
fn grow_pages<V: Drop>(pages: &mut Vec<Vec<Option<V>>>, page: usize) -> Result<(), Want>
    requires { AreShort pages.old.items }
    ensures same { paged 0 pages.new.items ≡ paged 0 pages.old.items }
    ensures short { AreShort pages.new.items }
    ensures there { OnOk result (page < length pages.new.items) }
    ensures missing { OnErr result (length pages.old.items ≤ page) }
{
    let alloc = *pages.allocator();
    while pages.len() <= page {
        pages.push(Vec::new(alloc))?;
    }
    Ok(())
}

// Grows a page until this place is there. The new ones have no value.
fn grow_page<V: Drop>(page: &mut Vec<Option<V>>, place: usize) -> Result<(), Want>
    requires short { length page.old.items ≤ 64 }
    requires within { place < 64 }
    ensures same { (n : ℕ) → places n page.new.items ≡ places n page.old.items }
    ensures short { length page.new.items ≤ 64 }
    ensures there { OnOk result (place < length page.new.items) }
    ensures missing { OnErr result (length page.old.items ≤ place) }
{
    while page.len() <= place {
        page.push(None)?;
    }
    Ok(())
}

// Takes the places at the end of a page that have no value, and gives the memory of a page back
// that has none.
fn trim<V: Drop>(page: &mut Vec<Option<V>>)
    ensures same { (n : ℕ) → places n page.new.items ≡ places n page.old.items }
    ensures shorter { length page.new.items ≤ length page.old.items }
{
    while let Some(None) = page.last() {
        page.pop();
    }
    if page.is_empty() {
        *page = Vec::new(*page.allocator());
    }
}

// Takes the value of a place out of a page.
fn take<V: Drop>(page: &mut Vec<Option<V>>, place: usize) -> Option<V>
    ensures value { result ≡ option_flatten (slice_get page.old.items place) }
    ensures places { (n : ℕ)
        → places n page.new.items ≡ places n (slice_set page.old.items place None) }
    ensures shorter { length page.new.items ≤ length page.old.items }
{
    if page.len() <= place {
        return None;
    }
    let value = page[place].take()?;
    trim(page);
    Some(value)
}

impl<V> Numbered<V> {
    /// No values. It takes no memory.
    pub(crate) fn new(alloc: Global) -> Self
        ensures { result ≡ [] }
    {
        Numbered {
            pages: Vec::new(alloc),
            count: 0,
        }
    }

    /// The number of values.
    pub(crate) fn len(&self) -> usize
        ensures { result ≡ length self.now }
    {
        self.count
    }

    /// Whether there is no value.
    pub(crate) fn is_empty(&self) -> bool
        ensures { IsTrue result ↔ (length self.now ≡ 0) }
    {
        self.count == 0
    }

    /// The value under the number; `None` exactly where there is none.
    pub(crate) fn get(&self, number: u64) -> Option<&V>
        ensures { option_copied result ≡ lookup (is_at (nat_cmp number)) self.now }
    {
        let page = self.pages.get(page_of(number))?;
        page.get(place_of(number))?.as_ref()
    }

    /// All values, in ascending number, from the front or from the back.
    pub(crate) fn values(&self) -> Rows<'_, V>
        ensures values { result ≡ values_of self.now }
        ensures runs { ShowsInOrder (deref {X = V}) }
        ensures runs_back { ShowsInReverse (deref {X = V}) }
        ensures fits { length self.now < 2 ^ 63 }
    {
        Rows::new(&self.pages)
    }
}

impl<V: Drop> Numbered<V> {
    /// Writes the value under a number that has one. It takes no memory.
    pub(crate) fn set(&mut self, number: u64, value: V)
        requires { IsSome (lookup (is_at (nat_cmp number)) self.old) }
        ensures { self.new ≡ set_value (is_at (nat_cmp number)) self.old value }
    {
        self.pages[page_of(number)][place_of(number)] = Some(value);
    }

    /// Writes the value under the number: in the place of the one that is there, or as a new one.
    ///
    /// # Errors
    /// `Want` where there is no memory for a new value; the values are then as before. So it is
    /// where there are 2 ^ 63 - 1 of them.
    pub(crate) fn insert(&mut self, number: u64, value: V) -> Result<(), Want>
        ensures entries { OnOk result (self.new ≡ insert_entry nat_cmp self.old number value) }
        ensures kept { OnErr result (self.new ≡ self.old) }
        ensures absent { OnErr result (lookup (is_at (nat_cmp number)) self.old ≡ None) }
    {
        let page = page_of(number);
        let place = place_of(number);
        grow_pages(&mut self.pages, page)?;
        let places = &mut self.pages[page];
        grow_page(places, place)?;
        let more = usize::from(places[place].is_none());
        if self.count + more > MOST {
            return Err(AllocError);
        }
        places[place] = Some(value);
        self.count += more;
        Ok(())
    }

    /// Takes the value under the number out; `None` exactly where there is none. It takes no
    /// memory.
    pub(crate) fn remove(&mut self, number: u64) -> Option<V>
        ensures value { result ≡ lookup (is_at (nat_cmp number)) self.old }
        ensures entries { self.new ≡ remove_entry (is_at (nat_cmp number)) self.old }
    {
        let page = page_of(number);
        if self.pages.len() <= page {
            return None;
        }
        let value = take(&mut self.pages[page], place_of(number))?;
        self.count -= 1;
        Some(value)
    }

    /// Takes all values out.
    pub(crate) fn clear(&mut self)
        ensures { self.new ≡ [] }
    {
        self.pages.clear();
        self.count = 0;
    }
}

impl<K, V: Drop> Numbered<(K, V)> {
    /// Writes the second half of the value under a number that has one. It takes no memory.
    pub(crate) fn set_second(&mut self, number: u64, second: V)
        requires { IsSome (lookup (is_at (nat_cmp number)) self.old) }
        ensures { IfSome (lookup (is_at (nat_cmp number)) self.old)
            (λ value. self.new
            ≡ set_value (is_at (nat_cmp number)) self.old (value.0, second)) }
    {
        let place = &mut self.pages[page_of(number)][place_of(number)];
        let Some(value) = place else { unreachable!() };
        value.1 = second;
    }
}
