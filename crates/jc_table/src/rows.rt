//! The values of a table under their numbers, one after another.

ghost use Rattle.std.specs.Prelude.{◌≡◌, length};
ghost use Rattle.std.specs.Iterator.{at_most};
ghost use Rattle.std.specs.Map.Iter.{TakesFirst, TakesLast, deref};
ghost use Rattle.std.specs.Slice.Iter.{iter_rest};
ghost use Rattle.jc_table.specs.Pages.{present, present_in};

use std::marker::Model;
use std::slice;

/// The values that are left, in ascending number.
#[derive(Drop)]
pub struct Rows<'a, V> {
    // What is left of the page that the front has come to.
    front: slice::Iter<'a, Option<V>>,
    // The pages that neither end has come to.
    pages: slice::Iter<'a, Vec<Option<V>>>,
    // What is left of the page that the back has come to.
    back: slice::Iter<'a, Option<V>>,
}

impl<'a, V> Model for Rows<'a, V> {
    ghost use Rattle.std.specs.Prelude.{List, ◌++◌};
    ghost use Rattle.std.specs.Slice.Iter.{iter_rest};
    ghost use Rattle.jc_table.specs.Pages.{present, present_in};

    ghost Value = { List V };

    ghost view = { λ r. present (iter_rest r.front)
        ++ (present_in (iter_rest r.pages) ++ present (iter_rest r.back)) };
}

// The first value among places, of which it and those before it are passed.
fn first<'a, V>(places: &mut slice::Iter<'a, Option<V>>) -> Option<&'a V>
    ensures { TakesFirst deref (present (iter_rest places.old)) result
        (present (iter_rest places.new)) }
{
    loop {
        if let Some(value) = places.next()? {
            return Some(value);
        }
    }
}

// The last value among places, of which it and those after it are passed.
fn last<'a, V>(places: &mut slice::Iter<'a, Option<V>>) -> Option<&'a V>
    ensures { TakesLast deref (present (iter_rest places.old)) result
        (present (iter_rest places.new)) }
{
    loop {
        if let Some(value) = places.next_back()? {
            return Some(value);
        }
    }
}

impl<'a, V> Rows<'a, V> {
    // Those of these pages.
    pub(crate) fn new(pages: &'a [Vec<Option<V>>]) -> Self
        ensures { result ≡ present_in pages.now }
    {
        let none: &'a [Option<V>] = &[];
        Rows {
            front: none.iter(),
            pages: pages.iter(),
            back: none.iter(),
        }
    }
}

impl<'a, V> Iterator for Rows<'a, V> {
    type Item = &'a V;

    ghost next_gives = { TakesFirst deref };

    ghost remaining = { λ left. at_most (length left) };

    fn next(&mut self) -> Option<&'a V> {
        loop {
            if let Some(value) = first(&mut self.front) {
                return Some(value);
            }
            match self.pages.next() {
                Some(page) => self.front = page.iter(),
                None => return first(&mut self.back),
            }
        }
    }
}

impl<'a, V> DoubleEndedIterator for Rows<'a, V> {
    ghost next_back_gives = { TakesLast deref };

    fn next_back(&mut self) -> Option<&'a V> {
        loop {
            if let Some(value) = last(&mut self.back) {
                return Some(value);
            }
            match self.pages.next_back() {
                Some(page) => self.back = page.iter(),
                None => return last(&mut self.front),
            }
        }
    }
}
