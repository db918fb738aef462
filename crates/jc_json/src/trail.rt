//! The way from a JSON document down to a value in it.

ghost use Rattle.std.specs.Prelude.{◌≡◌, [], IfOk};
ghost use Rattle.jc_json.specs.Place.{path_to, path_at};
ghost use Rattle.jc_json.specs.Trails.{spelled};

use crate::path::Path;
use std::alloc::{AllocError, Global};
use std::marker::Model;

// The steps from the whole document down to a value, the last one first.
#[derive(Drop)]
enum Chain<'p> {
    // The document itself.
    Document,
    // The member of that name, of the object that stands there.
    Member(&'p Chain<'p>, &'p str),
    // The item of that place, of the list that stands there.
    Item(&'p Chain<'p>, usize),
}

impl<'p> Chain<'p> {
    // The path that is spelled by the steps.
    fn path(&self, alloc: Global) -> Result<Path, AllocError>
        ensures { IfOk result (λ path. path ≡ spelled self.now) }
    {
        match self {
            Chain::Document => Ok(Path::new(alloc)),
            Chain::Member(object, name) => object.path(alloc)?.member(*name),
            Chain::Item(list, index) => list.path(alloc)?.item(*index),
        }
    }
}

/// The way from a JSON document down to a value in it. To a contract it is the text of its `Path`, but it takes
/// no memory: the path is spelled only for a refusal.
#[derive(Drop)]
pub struct Trail<'p> {
    alloc: Global,
    chain: Chain<'p>,
}

impl<'p> Model for Trail<'p> {
    ghost use Rattle.std.specs.Prelude.{List, ℕ};
    ghost use Rattle.jc_json.specs.Trails.{spelled};

    ghost Value = { List ℕ };

    ghost view = { λ trail. spelled trail.chain };
}

impl<'p> Trail<'p> {
    /// The way to the whole document. Paths of what stands in it are spelled in the memory of `alloc`.
    pub fn new(alloc: Global) -> Trail<'p>
        ensures { result ≡ [] }
    {
        Trail {
            alloc,
            chain: Chain::Document,
        }
    }

    /// The way on to the member of that name.
    pub fn path_to<'q>(&'q self, name: &'q str) -> Trail<'q>
        ensures { result ≡ path_to self.now name.now }
    {
        Trail {
            alloc: self.alloc,
            chain: Chain::Member(&self.chain, name),
        }
    }

    /// The way on to the item at that place of a list, counted from 0.
    pub fn path_at(&self, index: usize) -> Trail<'_>
        ensures { result ≡ path_at self.now index }
    {
        Trail {
            alloc: self.alloc,
            chain: Chain::Item(&self.chain, index),
        }
    }

    /// The path, spelled out.
    pub fn path(&self) -> Result<Path, AllocError>
        ensures { IfOk result (λ path. path ≡ self.now) }
    {
        self.path_in(self.alloc)
    }

    // The path, spelled out in the memory of `alloc`.
    pub(crate) fn path_in(&self, alloc: Global) -> Result<Path, AllocError>
        ensures { IfOk result (λ path. path ≡ self.now) }
    {
        self.chain.path(alloc)
    }
}
