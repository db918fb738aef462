//! Plays: what is available until nothing is, the rest of a script, and a whole sync.

ghost use Rattle.std.specs.Prelude.{◌≡◌, ◌⊎◌, ◌<◌, ◌≤◌, Err, IfOk, OnErr, OnOk, drop, false, is_none, length, map, reverse, true};
ghost use Rattle.jc_types.specs.declared.objects.Job.{Job};
ghost use Rattle.jc_types.specs.declared.objects.KeyNames.{KeyNames as Key};
ghost use Rattle.jc_types.specs.declared.replies.Reply.TheVariants.{Ended};
ghost use Rattle.jc_history.specs.Diaries.{moment};
ghost use Rattle.jc_history.specs.Legal.{AreUsed};
ghost use Rattle.jc_history.specs.Play.{rest_played, settled_down};
ghost use Rattle.jc_history.specs.Registers.{backoff, register};
ghost use Rattle.jc_runs.specs.QuietRuns.{IsAtNext};
ghost use Rattle.jc_runs.specs.Seen.{deeds_seen, happened, log_seen, reply_seen};
ghost use Rattle.jc_play.specs.DiariesSeen.{diary_seen};
ghost use Rattle.jc_play.specs.SyncsSeen.{StartsCurrent, IsLast, IsSynced, StepsOn, StepsWithoutStatus, begin_event, next_seen, tells_begin};
ghost use Rattle.jc_play.specs.ApplyFault.TheVariants.{HistoryFull};
ghost use Rattle.jc_play.specs.Turns.{HasGoneOn, HasGrown, Reaches, is_quiescent_seen, next_to_settle, playing_of};
ghost use Rattle.jc_core.specs.Shared.{HasKeptUp, all_registers, has_holders, numbers_of, slots_told};

use crate::cluster::Cluster;
use crate::touches::{touch_all, touch_of_event};
use jc_play::{ApplyFault, Slot, play, settle};
use jc_types::{Past, Reply, Script, Shape};

// The registers, once these events have happened, in order.
fn keep_up(slots: &mut Vec<Slot>, shape: &Shape, script: &Script, events: &[Past])
    requires { map numbers_of slots.old.items ≡ all_registers shape.now }
    ensures slots { slots.new.items ≡ slots_told script.now.commands events.now slots.old.items }
    ensures numbers { map numbers_of slots.new.items ≡ map numbers_of slots.old.items }
{
    for past in events {
        let touch = touch_of_event(script, past.event);
        touch_all(slots, shape, touch, &past.reply);
    }
}

impl Cluster {
    // The registers follow the events from this place on.
    fn keep_up(&mut self, from: usize)
        requires { from ≤ length self.old.seen.pasts }
        ensures slots { self.new.slots ≡ slots_told self.old.seen.script.commands
            (drop from (reverse self.old.seen.pasts)) self.old.slots }
        ensures seen { self.new.seen ≡ self.old.seen }
    {
        let events = self.machine.history().events.as_slice();
        let machine = &self.machine;
        keep_up(
            &mut self.slots,
            machine.shape(),
            machine.script(),
            &events[from..],
        );
    }

    /// Does what is available, one event after the other in first order, until nothing is. An orderly
    /// history stays orderly. The registers follow each event.
    ///
    /// # Errors
    /// `HistoryFull` exactly where the history has as many events as the shape allows and one is still
    /// to come; `Want` where there is no memory. The events before it are kept.
    pub fn settle(&mut self) -> Result<(), ApplyFault>
        ensures reaches { Reaches result (settled_down self.old.seen.script self.old.seen.shape
            (playing_of false self.old.seen)) self.new.seen }
        ensures rests { OnOk result (is_quiescent_seen self.new.seen ≡ true) }
        ensures kept { HasGoneOn (next_to_settle self.old.seen.script self.old.seen.shape)
            self.old.seen self.new.seen }
        ensures grown { HasGrown self.old.seen self.new.seen }
        ensures slots { HasKeptUp self.old self.new }
        ensures free { has_holders self.old.slots ≡ false → has_holders self.new.slots ≡ false }
    {
        let from = self.machine.history().events.len();
        let ended = settle(&mut self.machine);
        self.keep_up(from);
        ended
    }

    /// Plays what is left of the script on one thread: the commands in the order of the file, whatever
    /// their lanes, but for those that were played. Before a command Sync its controller's cache of
    /// Jobs and then that of pods are brought on until they have seen the whole log, and where its sync
    /// begins, its worker steps until that has ended. Before a command Settle all that is available is
    /// done in first order, until nothing is. Every other command is its own event alone. The registers
    /// follow each event.
    ///
    /// With `Ok` no lane has a command left. It goes over the places of the script once.
    ///
    /// # Errors
    /// `HistoryFull` exactly where the history has as many events as the shape allows and one is still
    /// to come; `Want` where there is no memory. The events before it are kept.
    pub fn play(&mut self) -> Result<(), ApplyFault>
        ensures reaches { Reaches result (rest_played self.old.seen.script self.old.seen.shape 0
            self.old.seen.script.commands (playing_of false self.old.seen)) self.new.seen }
        ensures used { OnOk result (AreUsed self.new.seen.script.commands self.new.seen.pasts) }
        ensures grown { HasGrown self.old.seen self.new.seen }
        ensures slots { HasKeptUp self.old self.new }
        ensures free { has_holders self.old.slots ≡ false → has_holders self.new.slots ≡ false }
    {
        let from = self.machine.history().events.len();
        let ended = play(&mut self.machine);
        self.keep_up(from);
        ended
    }

    /// The worker begins a sync and, where one began, steps until it has none. The last reply is
    /// given. The registers follow each event.
    ///
    /// Where the worker is free and meets no fault, both caches have seen the whole log, and the
    /// first key in line has a Job, the last reply is `Ended`: the Job then has the status that was
    /// next at the call, and no pod of it that had ended then and was not left over for a later sync is
    /// tracked. No status is written where the Job had that status.
    ///
    /// # Errors
    /// `HistoryFull` exactly where the history has as many events as the shape allows, and one is to
    /// come: the begin, where nothing happened, else a step of the sync that the worker still has.
    /// `Want` where there is no memory. The events that happened are kept.
    pub fn sync(&mut self, controller: u32, worker: u32) -> Result<Reply, ApplyFault>
        requires of_shape { controller < self.old.seen.shape.controllers }
        requires worker { worker < self.old.seen.shape.workers }
        ensures appended { IsSynced controller worker self.old.seen self.new.seen }
        ensures last { IfOk result (λ r. IsLast r self.new.seen.pasts) }
        ensures begins { OnOk result (StepsOn controller worker
            (happened self.old.seen (begin_event controller worker)) self.new.seen) }
        ensures refused { OnOk result
            (tells_begin (reply_seen self.old.seen (begin_event controller worker)) ≡ false
            → self.new.seen ≡ happened self.old.seen (begin_event controller worker)) }
        ensures free { OnOk result
            (tells_begin (reply_seen self.old.seen (begin_event controller worker)) ≡ true
            → is_none (register worker (diary_seen self.new.seen controller)) ≡ true) }
        ensures to_come { OnErr result ((self.new.seen ≡ self.old.seen)
            ⊎ (is_none (register worker (diary_seen self.new.seen controller)) ≡ false)) }
        ensures full { result ≡ Err HistoryFull
            → self.old.seen.shape.events ≤ length self.new.seen.pasts }
        ensures exactly { OnErr result (self.old.seen.shape.events ≤ length self.new.seen.pasts
            → result ≡ Err HistoryFull) }
        ensures ended { IfOk result (λ r. (k : Key) (job : Job)
            → StartsCurrent self.old.seen controller worker k job → r ≡ Ended) }
        ensures next { OnOk result ((k : Key) (job : Job)
            → StartsCurrent self.old.seen controller worker k job
            → IsAtNext (log_seen self.new.seen) (log_seen self.old.seen)
            (moment self.old.seen.shape (deeds_seen self.old.seen))
            (backoff k (diary_seen self.old.seen controller)) k job) }
        ensures no_status { OnOk result ((k : Key) (job : Job)
            → StartsCurrent self.old.seen controller worker k job
            → next_seen self.old.seen controller k job ≡ job.status
            → StepsWithoutStatus controller worker
            (happened self.old.seen (begin_event controller worker)) self.new.seen) }
        ensures slots { HasKeptUp self.old self.new }
    {
        let from = self.machine.history().events.len();
        let ended = self.machine.sync(controller, worker);
        self.keep_up(from);
        ended
    }
}
