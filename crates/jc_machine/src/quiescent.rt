//! Whether anything of the system is left to do, and the own event of the command Settle.

ghost use Rattle.std.specs.Prelude.{◌≡◌, ◌<◌, ◌↔◌, ◌&&◌, IsTrue, length, nat_lt};
ghost use Rattle.jc_log.specs.Acts as does;
ghost use Rattle.jc_history.specs.Available.{is_quiescent};
ghost use Rattle.jc_history.specs.Fresh.{may_begin};
ghost use Rattle.jc_history.specs.Numbers.{number};
ghost use Rattle.jc_runs.specs.Seen.{deeds_seen, log_seen};
ghost use Rattle.jc_machine.specs.DiariesSeen.{diary_seen};
ghost use Rattle.jc_machine.specs.Idle.{AreIdle, HaveNoSyncs, IsTeamIdle, has_seen};
ghost use Rattle.jc_machine.specs.Calls.{HappensOrKeeps, MayCome};

use crate::keeping::record;
use crate::machine::Machine;
use jc_team::ReplyText;
use jc_types::{Event, Kind, Reply, Want};

impl Machine {
    // Whether the controller's cache of the kind has seen the whole log.
    fn has_seen(&self, controller: u32, kind: Kind) -> bool
        requires { controller < self.now.shape.controllers }
        ensures { result
            ≡ has_seen (log_seen self.now) (number kind (diary_seen self.now controller)) }
    {
        let end = self.store().log_len();
        match self.cache_at(controller, kind) {
            None => false,
            Some(version) => version.0 >= end.0,
        }
    }

    // Whether no worker of the controller has a sync.
    fn are_free(&self, controller: u32) -> bool
        requires { controller < self.now.shape.controllers }
        ensures { IsTrue result
            ↔ HaveNoSyncs (diary_seen self.now controller) self.now.shape.workers }
    {
        let workers = self.shape().workers;
        for worker in 0..workers {
            if !self.is_free(controller, worker) {
                return false;
            }
        }
        true
    }

    // Whether a free worker of the controller could begin a sync.
    fn can_begin(&self, controller: u32) -> bool
        requires { controller < self.now.shape.controllers }
        ensures { result ≡ (nat_lt 0 self.now.shape.workers
            && may_begin (diary_seen self.now controller) (log_seen self.now)) }
    {
        let workers = self.shape().workers;
        workers > 0 && self.may_begin(controller)
    }

    // Whether the controller has nothing to do.
    fn is_idle(&self, controller: u32) -> bool
        requires { controller < self.now.shape.controllers }
        ensures { IsTrue result ↔ IsTeamIdle (diary_seen self.now controller) (log_seen self.now)
            self.now.shape.workers }
    {
        let jobs = self.has_seen(controller, Kind::Jobs);
        if !jobs {
            return false;
        }
        let pods = self.has_seen(controller, Kind::Pods);
        if !pods {
            return false;
        }
        let free = self.are_free(controller);
        if !free {
            return false;
        }
        let begins = self.can_begin(controller);
        if begins {
            return false;
        }
        let delayed = self.next_delay(controller);
        delayed.is_none()
    }

    // Whether no controller has anything to do.
    fn are_idle(&self) -> bool
        ensures { IsTrue result ↔ AreIdle self.now }
    {
        let controllers = self.shape().controllers;
        for controller in 0..controllers {
            if !self.is_idle(controller) {
                return false;
            }
        }
        true
    }

    /// Whether the machine is quiescent: nothing of the system is available.
    pub fn is_quiescent(&self) -> bool
        ensures { result
            ≡ is_quiescent self.now.shape (deeds_seen self.now) (log_seen self.now) }
    {
        self.are_idle() && !self.node_has_step()
    }

    // Nothing of the system was left to do.
    //
    // `Want` where there is no memory for it; the machine is then as before.
    pub(crate) fn settled(&mut self, event: Event) -> Result<ReplyText, Want>
        requires { MayCome self.old event does.Settle }
        ensures { HappensOrKeeps self.old self.new event result }
    {
        self.history.events.reserve(1)?;
        let reply = Reply::Done;
        let length = self.store.log_len();
        let events = &mut self.history.events;
        let text = record(events, &mut self.lanes, &self.script, event, reply, length);
        Ok(text)
    }
}
