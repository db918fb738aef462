//! The course of a sync: the requests that it made, and those that it has left.

ghost use Rattle.std.specs.Prelude.{◌≡◌, ◌++◌, [], IfOk, OnOk, map, slice_get};
ghost use Rattle.jc_plan.specs.Plans.{planned};
ghost use Rattle.jc_asks.specs.declared.asks.Ask.TheVariants.{MakePod, MarkPod, ReleasePod};
ghost use Rattle.jc_asks.specs.Asks.{asks_of, course_once, first_asks, let_go_ask, second_asks};

use crate::asks::Ask;
use jc_plan::Plan;
use jc_types::{Indexes, PodVersions, Uids, Want};
use std::alloc::Global;
use std::marker::Model;

/// The requests that a sync has left to make, in their order.
#[derive(Drop)]
pub struct Asks {
    items: Vec<Ask>,
    next: usize,
}

impl Model for Asks {
    ghost use Rattle.std.specs.Prelude.{◌≤◌, drop, length, take};
    ghost use Rattle.jc_asks.specs.Asks.{Course};

    ghost Value = { Course };

    ghost view = { λ a. record {
      made = take a.next a.items.items;
      left = drop a.next a.items.items;
    } };

    ghost invariant = { λ a. a.next ≤ length a.items.items };
}

// The creations, in the order of the indexes.
fn push_creates(items: &mut Vec<Ask>, creates: &Indexes) -> Result<(), Want>
    ensures { OnOk result (items.new.items ≡ items.old.items ++ map MakePod creates.now) }
{
    for index in creates.as_slice() {
        items.push(Ask::MakePod { index: *index })?;
    }
    Ok(())
}

// The marks, in the order of the pods.
fn push_marks(items: &mut Vec<Ask>, marks: &Uids) -> Result<(), Want>
    ensures { OnOk result (items.new.items ≡ items.old.items ++ map MarkPod marks.now) }
{
    for pod in marks.as_slice() {
        items.push(Ask::MarkPod { pod: *pod })?;
    }
    Ok(())
}

// The let-goes, each with the version at which its pod was seen.
fn push_let_goes(items: &mut Vec<Ask>, let_goes: &PodVersions) -> Result<(), Want>
    ensures { OnOk result (items.new.items ≡ items.old.items ++ map let_go_ask let_goes.now) }
{
    for row in let_goes.as_slice() {
        items.push(Ask::LetPodGo {
            pod: row.0,
            version: row.1,
        })?;
    }
    Ok(())
}

// The releases, in the order of the pods.
fn push_releases(items: &mut Vec<Ask>, releases: &Uids) -> Result<(), Want>
    ensures { OnOk result (items.new.items ≡ items.old.items ++ map ReleasePod releases.now) }
{
    for pod in releases.as_slice() {
        items.push(Ask::ReleasePod { pod: *pod })?;
    }
    Ok(())
}

// The write of the first status, where the plan has one.
fn push_first(items: &mut Vec<Ask>, plan: &Plan) -> Result<(), Want>
    ensures { OnOk result (items.new.items
        ≡ items.old.items ++ first_asks (planned plan.now.basis).first) }
{
    if plan.first().is_some() {
        items.push(Ask::WriteFirst)?;
    }
    Ok(())
}

// The write of the second status, where the plan has one.
fn push_second(items: &mut Vec<Ask>, plan: &Plan) -> Result<(), Want>
    ensures { OnOk result (items.new.items
        ≡ items.old.items ++ second_asks (planned plan.now.basis).second) }
{
    if plan.second().is_some() {
        items.push(Ask::WriteSecond)?;
    }
    Ok(())
}

impl Asks {
    /// All that the plan asks, in order: creations, marks, let-goes, the first status, releases, and the
    /// second status.
    ///
    /// # Errors
    /// `Want` where there is no memory.
    pub fn new(alloc: Global, plan: &Plan) -> Result<Asks, Want>
        ensures made { IfOk result (λ asks. asks.made ≡ []) }
        ensures left { IfOk result (λ asks. asks.left ≡ asks_of (planned plan.now.basis)) }
    {
        let mut items = Vec::new(alloc);
        push_creates(&mut items, plan.creates())?;
        push_marks(&mut items, plan.marks())?;
        push_let_goes(&mut items, plan.let_goes())?;
        push_first(&mut items, plan)?;
        push_releases(&mut items, plan.releases())?;
        push_second(&mut items, plan)?;
        Ok(Asks { items, next: 0 })
    }

    /// The request that comes next; none where all were made.
    pub fn first(&self) -> Option<Ask>
        ensures { result ≡ slice_get self.now.left 0 }
    {
        if self.next < self.items.len() {
            Some(self.items[self.next])
        } else {
            None
        }
    }

    /// Goes on after the answer to the next request. Where `is_gone` says that the request has taken a
    /// finalizer, a pod that was let go is marked next.
    pub fn answered(&mut self, is_gone: bool)
        ensures { self.new ≡ course_once self.old.made self.old.left is_gone }
    {
        if self.next < self.items.len() {
            match self.items[self.next] {
                Ask::LetPodGo { pod, .. } => {
                    if is_gone {
                        self.items[self.next] = Ask::MarkPod { pod };
                    } else {
                        self.next += 1;
                    }
                }
                _ => self.next += 1,
            }
        }
    }
}
