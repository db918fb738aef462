//! The events that have happened.

ghost use Rattle.std.specs.Prelude.{◌≡◌, ◌∷◌, ◌++◌, ◌+◌, ◌≤◌, ◌<◌, [], IfOk, OnErr, OnOk, length};

use crate::copies::Want;
use crate::lists::copied_slice;
use crate::runs::Past;
use std::alloc::Global;
use std::marker::Model;

/// Events that have happened, in their order. A contract sees them beside the room for more, so that an event can be
/// added, without fail, once other parts have changed.
#[derive(Drop)]
pub struct Pasts {
    events: Vec<Past>,
}

impl Model for Pasts {
    ghost use Rattle.std.specs.Prelude.{◌-◌};
    ghost use Rattle.std.specs.Vec.{vec_capacity, vec_len};
    ghost use Rattle.jc_types.specs.PastLists.{PastList};

    ghost Value = { PastList };

    ghost view = { λ p. record { items = p.events.items; room = vec_capacity p.events - vec_len p.events } };
}

impl Pasts {
    /// No events. It takes no memory.
    pub fn new(alloc: Global) -> Self
        ensures { result.items ≡ [] }
    {
        Pasts {
            events: Vec::new(alloc),
        }
    }

    /// The number of events.
    pub fn len(&self) -> usize
        ensures { result ≡ length self.now.items }
    {
        self.events.len()
    }

    /// The events in their order.
    pub fn as_slice(&self) -> &[Past]
        ensures { result.now ≡ self.now.items }
    {
        self.events.as_slice()
    }

    /// Makes room for so many more events.
    ///
    /// # Errors
    /// `Want` where there is no memory; the events are as before in any case.
    pub fn reserve(&mut self, more: usize) -> Result<(), Want>
        ensures room { OnOk result (more ≤ self.new.room) }
        ensures kept { self.new.items ≡ self.old.items }
    {
        self.events.reserve(more)?;
        Ok(())
    }

    /// Adds an event at the end, where there is room. It takes no memory.
    pub fn push_reserved(&mut self, past: Past)
        requires room { 0 < self.old.room }
        ensures added { self.new.items ≡ self.old.items ++ past ∷ [] }
        ensures room { self.old.room ≤ self.new.room + 1 }
    {
        self.events.push_reserved(past);
    }

    /// Adds an event at the end.
    ///
    /// # Errors
    /// `Want` where there is no memory; the events are then as before.
    pub fn push(&mut self, past: Past) -> Result<(), Want>
        ensures added { OnOk result (self.new.items ≡ self.old.items ++ past ∷ []) }
        ensures kept { OnErr result (self.new.items ≡ self.old.items) }
    {
        self.reserve(1)?;
        self.push_reserved(past);
        Ok(())
    }

    /// The same events, in a list of their own.
    ///
    /// # Errors
    /// `Want` where there is no memory.
    pub fn copy(&self) -> Result<Self, Want>
        ensures { IfOk result (λ copied. copied.items ≡ self.now.items) }
    {
        let alloc = *self.events.allocator();
        Ok(Pasts {
            events: copied_slice(alloc, self.events.as_slice(), 0)?,
        })
    }
}
