//! Lists of runs that share their memory with their copies.
ghost use Rattle.std.specs.Prelude.{◌≡◌, ◌≤◌, [], false, IfOk, OnOk, OnErr};
ghost use Rattle.std.specs.List.{flat_map};
ghost use Rattle.jc_ranges.specs.Sets.{has, with_member};
ghost use Rattle.jc_ranges.specs.Texts.{numbers, StandApart};
ghost use Rattle.jc_ranges.specs.Runs.{PartsAt};

use crate::Want;
use crate::bounds::GREATEST_INDEX;
use crate::runs::{Run, put_number};
use std::alloc::Global;
use std::marker::Model;
use std::sync;

/// A list of runs. A contract sees the runs. Its copies share its memory, and the first number that
/// is put while a copy is alive copies the runs.
#[derive(Drop)]
pub struct SharedRuns {
    alloc: Global,
    shared: Option<sync::Arc<Vec<Run>>>,
}

impl Model for SharedRuns {
    ghost use Rattle.std.specs.Prelude.{List, []};
    ghost use Rattle.std.specs.Option.{option_map_or};
    ghost use Rattle.jc_ranges.specs.declared.runs.Run.{Run};

    ghost Value = { List Run };

    ghost view = { λ r. option_map_or (λ a. a.value.items) r.shared [] };
}

impl SharedRuns {
    /// No runs. It takes no memory.
    pub fn new(alloc: Global) -> SharedRuns
        ensures { result ≡ [] }
    {
        SharedRuns {
            alloc,
            shared: None,
        }
    }

    /// These runs.
    pub fn from_runs(alloc: Global, runs: Vec<Run>) -> Result<SharedRuns, Want>
        ensures { IfOk result (λ r. r ≡ runs.items) }
    {
        Ok(SharedRuns {
            alloc,
            shared: Some(sync::Arc::new(alloc, runs)?),
        })
    }

    /// The runs in their order.
    pub fn as_slice(&self) -> &[Run]
        ensures { result.now ≡ self.now }
    {
        match &self.shared {
            None => &[],
            Some(runs) => runs.as_slice(),
        }
    }

    /// The allocator that the runs take their memory from.
    pub fn allocator(&self) -> Global {
        self.alloc
    }

    /// Puts a number that none of the runs has at its place.
    pub fn put(&mut self, place: usize, n: u32) -> Result<(), Want>
        requires small { n ≤ GREATEST_INDEX }
        requires apart { StandApart 0 self.old }
        requires parted { PartsAt n self.old place }
        requires fresh { has n (flat_map numbers self.old) ≡ false }
        ensures numbers { OnOk result (flat_map numbers self.new
            ≡ with_member n (flat_map numbers self.old)) }
        ensures apart { OnOk result (StandApart 0 self.new) }
        ensures kept { OnErr result (self.new ≡ self.old) }
    {
        if let Some(shared) = &mut self.shared {
            if let Some(runs) = sync::Arc::get_mut(shared) {
                put_number(runs, place, n)?;
                return Ok(());
            }
        }
        let mut runs = Vec::from_slice(self.alloc, self.as_slice())?;
        put_number(&mut runs, place, n)?;
        self.shared = Some(sync::Arc::new(self.alloc, runs)?);
        Ok(())
    }

    /// The same runs, in the same memory.
    pub fn copy(&self) -> Result<SharedRuns, Want>
        ensures { IfOk result (λ r. r ≡ self.now) }
    {
        match &self.shared {
            None => Ok(SharedRuns::new(self.alloc)),
            Some(runs) => Ok(SharedRuns {
                alloc: self.alloc,
                shared: Some(sync::Arc::try_clone(runs)?),
            }),
        }
    }
}
