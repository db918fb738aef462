//! The events List and Deliver, and the command Restart: what a controller's caches have seen.

ghost use Rattle.std.specs.Prelude.{length};
ghost use Rattle.jc_log.specs.Acts as does;
ghost use Rattle.jc_machine.specs.Calls.{HappensOrKeeps, MayCome};

use crate::keeping::record;
use crate::machine::Machine;
use jc_team::{Member, ReplyText};
use jc_types::{Event, Kind, Reply, Want};

impl Machine {
    // A controller lists the objects of the kind into its cache.
    //
    // `Want` where there is no memory for it; the machine is then as before.
    pub(crate) fn list(
        &mut self,
        event: Event,
        controller: u32,
        kind: Kind,
    ) -> Result<ReplyText, Want>
        requires { MayCome self.old event (does.List controller kind) }
        ensures { HappensOrKeeps self.old self.new event result }
    {
        self.history.events.reserve(1)?;
        let member = &mut self.members[controller as usize];
        let reply = member.list(self.alloc, &self.store, kind)?;
        let length = self.store.log_len();
        let events = &mut self.history.events;
        let text = record(events, &mut self.lanes, &self.script, event, reply, length);
        Ok(text)
    }

    // A controller's cache of the kind is told of the next entry of the log.
    //
    // `Want` where there is no memory for it; the machine is then as before.
    #[inline(always)]
    pub(crate) fn deliver(
        &mut self,
        event: Event,
        controller: u32,
        kind: Kind,
    ) -> Result<ReplyText, Want>
        requires { MayCome self.old event (does.Deliver controller kind) }
        ensures { HappensOrKeeps self.old self.new event result }
    {
        self.history.events.reserve(1)?;
        let member = &mut self.members[controller as usize];
        let reply = member.deliver(&self.store, self.shape.window, kind)?;
        let length = self.store.log_len();
        let events = &mut self.history.events;
        let text = record(events, &mut self.lanes, &self.script, event, reply, length);
        Ok(text)
    }

    // A controller forgets all that it has.
    //
    // `Want` where there is no memory for it; the machine is then as before.
    pub(crate) fn restart(&mut self, event: Event, controller: u32) -> Result<ReplyText, Want>
        requires { MayCome self.old event (does.Restart controller) }
        ensures { HappensOrKeeps self.old self.new event result }
    {
        self.history.events.reserve(1)?;
        let fresh = Member::new(self.alloc, self.shape.workers as usize)?;
        let member = &mut self.members[controller as usize];
        member.become_other(fresh);
        let reply = Reply::Done;
        let length = self.store.log_len();
        let events = &mut self.history.events;
        let text = record(events, &mut self.lanes, &self.script, event, reply, length);
        Ok(text)
    }
}
