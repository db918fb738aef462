//! The events of a run and its history.

ghost use Rattle.std.specs.Prelude.{◌≡◌, IfOk};

use crate::copies::{Copied, Want};
use crate::numbers::{Seconds, Version};
use crate::objects::Kind;
use crate::pasts::Pasts;
use crate::replies::Reply;
use jc_moment::Moment;

/// The shape of a run.
#[derive(Clone, Copy, PartialEq, Eq, Debug)]
pub struct Shape {
    /// The number of controllers, 1 to 4.
    pub controllers: u32,
    /// The number of workers of each controller, 1 to 16.
    pub workers: u32,
    /// How many entries of the log a watch can still read.
    pub window: u32,
    /// How many events the history may have, at most 200,000.
    pub events: u32,
    /// The moment at which the run begins.
    pub start: Moment,
}

/// An event that the system makes of itself.
#[derive(Clone, Copy, PartialEq, Eq, Debug)]
pub enum Sys {
    /// A controller lists the objects of a kind into its cache.
    List { controller: u32, kind: Kind },
    /// A controller's cache of a kind is given the next entry of the log.
    Deliver { controller: u32, kind: Kind },
    /// A worker begins a sync of the first key in the line.
    Begin { controller: u32, worker: u32 },
    /// A worker makes the next request of its sync.
    Step { controller: u32, worker: u32 },
    /// The node takes a pod one step further.
    Node,
    /// Seconds that pass.
    Clock { add: Seconds },
}

/// An event of a run.
#[derive(Clone, Copy, PartialEq, Eq, Debug)]
pub enum Event {
    /// The command at this place of the script, counted from 0.
    Command { lane: u8, number: u32 },
    /// An event that no command asked for.
    System(Sys),
}

/// An event that has happened.
#[derive(Drop)]
pub struct Past {
    /// The event.
    pub event: Event,
    /// What it was answered.
    pub reply: Reply,
    /// The length of the log after it.
    pub length: Version,
}

/// The history of a run.
#[derive(Drop)]
pub struct History {
    /// The events, the first one first.
    pub events: Pasts,
}

impl Copied for Event {
    fn copy(&self) -> Result<Self, Want> {
        Ok(*self)
    }
}

impl Copied for Past {
    fn copy(&self) -> Result<Self, Want> {
        Ok(Past {
            event: self.event,
            reply: self.reply.copy()?,
            length: self.length,
        })
    }
}

impl History {
    /// A history of the same events.
    ///
    /// # Errors
    /// `Want` where there is no memory for the copy.
    pub fn copy(&self) -> Result<Self, Want>
        ensures { IfOk result (λ copied. copied.events.items ≡ self.now.events.items) }
    {
        Ok(History {
            events: self.events.copy()?,
        })
    }
}

impl Copied for Shape {
    fn copy(&self) -> Result<Self, Want> {
        Ok(*self)
    }
}
