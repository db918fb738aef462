//! Laws on runs of a cluster. Each function does nothing: what it ensures holds of every run, and its
//! callers may cite it. A machine's world is a history of deeds and its log, both newest first,
//! with all that a machine then has.

ghost use Rattle.std.specs.Prelude.{◌≡◌, ◌≤◌, ◌^◌, ◌∷◌, [], None, IsSome, List, Some, length, slice_get, true, ℕ};
ghost use Rattle.std.specs.List.{AllByRecursion as Each};
ghost use Rattle.jc_types.specs.declared.actions.Script.{Script};
ghost use Rattle.jc_types.specs.declared.objects.Job.{Job};
ghost use Rattle.jc_types.specs.declared.objects.KeyNames.{KeyNames as Key};
ghost use Rattle.jc_types.specs.declared.replies.Reply.TheVariants as reply;
ghost use Rattle.jc_types.specs.declared.runs.Past.{Past};
ghost use Rattle.jc_types.specs.declared.runs.Shape.{Shape};
ghost use Rattle.jc_states.specs.declared.bases.Basis.{Basis};
ghost use Rattle.jc_states.specs.Bases.{CanPlan};
ghost use Rattle.jc_log.specs.Deeds.{Deed};
ghost use Rattle.jc_log.specs.Log.{job_in};
ghost use Rattle.jc_control.specs.Queued.{has_key};
ghost use Rattle.jc_plan.specs.Plans.{IsDated};
ghost use Rattle.jc_control.specs.ControllerCalls.{begun};
ghost use Rattle.jc_control.specs.declared.begins.Begin.TheVariants.{Begun};
ghost use Rattle.jc_ledger.specs.Once.{AllJustified, OnceAtEach};
ghost use Rattle.jc_asks.specs.Asks.{version_sent};
ghost use Rattle.jc_asks.specs.Steps.{Sync, answered_to};
ghost use Rattle.jc_asks.specs.declared.asks.Ask.{Ask};
ghost use Rattle.jc_history.specs.Diaries.{moment, notes};
ghost use Rattle.jc_history.specs.Legal.{IsLegal};
ghost use Rattle.jc_history.specs.Registers.{backoff};
ghost use Rattle.jc_history.specs.Replies.{log_given};
ghost use Rattle.jc_sync.specs.StepEffects.{IsLaterThan};
ghost use Rattle.jc_runs.specs.Conflicts.{AreToldLater};
ghost use Rattle.jc_runs.specs.QuietRuns.{IsAtNext, IsQuietSync, SyncRun, WritesNoStatus, backoff_at_begin, log_at_begin, log_at_end, status_due};
ghost use Rattle.jc_runs.specs.Machines.{AllAskValid, IsMachine, IsOfMachine, MachineWorld, WorksOn};
ghost use Rattle.jc_states.specs.ValidActions.{AreValidCommands};
ghost use Rattle.jc_runs.specs.Seen.{deeds_in};
ghost use Rattle.jc_runs.specs.Teams.{KnowsNothing, Team};

use jc_manifest::allowed_updates_stay_valid;

/// In a legal history of as many events as a shape allows, the failures in a row of a key count
/// pods that were made, so that they stay small; and the moment of the last is known.
pub fn failures_stay_small()
    ensures few_failures { (shape : Shape) (c : ℕ) (deeds : List Deed) → IsLegal shape deeds
        → length deeds ≤ 200000 → (k : Key)
        → (backoff k (notes shape c deeds (log_given shape deeds))).failures ≤ 2 ^ 63 }
    ensures dated { (shape : Shape) (c : ℕ) (deeds : List Deed) → IsLegal shape deeds
        → length deeds ≤ 200000 → (k : Key)
        → IsDated (backoff k (notes shape c deeds (log_given shape deeds))) }
{}

/// Controllers that know nothing, and workers without syncs, are what a history without events
/// says.
pub fn runs_start()
    ensures { (shape : Shape) (teams : List Team) → length teams ≡ shape.controllers
        → ((c : ℕ) (team : Team) → slice_get teams c ≡ Some team → KnowsNothing shape.workers team)
        → IsMachine shape [] [] teams (λ k. None) shape.start }
{}

/// In a run each sync that begins can be planned, and the key of each sync under way is processing.
pub fn syncs_can_go_on()
    ensures planned { (m : MachineWorld) → IsOfMachine m → (c : ℕ) (team : Team)
        → slice_get m.teams c ≡ Some team → length m.deeds ≤ 200000 → (basis : Basis)
        → (begun m.now team.con).answer ≡ Begun basis → IsSome basis.job → CanPlan basis }
    ensures processing { (m : MachineWorld) → IsOfMachine m
        → (c : ℕ) (team : Team) (w : ℕ) (sync : Sync) → WorksOn m c team w sync
        → has_key sync.flight.basis.key team.con.schedule.queue.processing ≡ true }
{}

/// **After each event of a run each pod was counted once (KEP-2307)**, and each finalizer that a
/// sync took of a pod of a Job that is there was taken justly: the pod was judged before, or it is
/// ignored, was active and was let go, or it has succeeded and its index was complete or past the
/// completions. So no ended pod lost its finalizer uncounted that needs a count, but by a command.
pub fn runs_count_once()
    ensures at_each { (m : MachineWorld) → IsOfMachine m → OnceAtEach m.deeds m.log }
    ensures justified { (m : MachineWorld) → IsOfMachine m
        → (k : Key) (job : Job) → job_in k m.log ≡ Some job → AllJustified job m.deeds m.log }
{}

/// In a run a status write or a let-go of a sync that is refused as a conflict is told a later
/// version than it sent.
pub fn conflicts_tell_later_versions()
    ensures { (m : MachineWorld) → IsOfMachine m
        → (c : ℕ) (team : Team) (w : ℕ) (sync : Sync) → WorksOn m c team w sync
        → (ask : Ask) (left : List Ask) → sync.left ≡ ask ∷ left → IsLaterThan
        (version_sent sync.flight.sends ask) (answered_to m.log m.now sync.flight ask) }
{}

/// Where each Job that a script creates has a valid specification, so has each that a history of it
/// creates.
pub fn valid_scripts_ask_valid()
    ensures { (script : Script) (pasts : List Past)
        → AreValidCommands script.commands
        → AllAskValid (deeds_in script pasts) }
{}

/// **In each legal history each pod is counted once, after each event (KEP-2307)**: a legal history
/// in which each Job was created with a valid specification is that of a machine.
pub fn legal_histories_count_once()
    ensures at_each { (shape : Shape) (deeds : List Deed) → IsLegal shape deeds → AllAskValid deeds
        → OnceAtEach deeds (log_given shape deeds) }
    ensures justified { (shape : Shape) (deeds : List Deed) → IsLegal shape deeds
        → AllAskValid deeds → (k : Key) (job : Job) → job_in k (log_given shape deeds) ≡ Some job
        → AllJustified job deeds (log_given shape deeds) }
{
    allowed_updates_stay_valid();
}

/// In each legal history whose Jobs were created with valid specifications a status write or a let-go
/// of a sync that is refused as a conflict is told a later version than it sent.
pub fn legal_histories_tell_later_versions()
    ensures { (shape : Shape) (deeds : List Deed) → IsLegal shape deeds → AllAskValid deeds
        → AreToldLater shape deeds }
{
    allowed_updates_stay_valid();
}

/// A sync of a legal history that begins where both caches have seen the whole log, and that meets
/// no fault, ends once all its requests are made. The Job then has the status that was next at the
/// begin, and each of its pods that had ended then and was not left over for a later sync has lost its
/// finalizer. Where the Job had its next status already, no status is written.
pub fn quiet_syncs_reach_the_next_status()
    ensures ended { (s : SyncRun) → IsQuietSync s → s.last.reply ≡ reply.Ended }
    ensures next { (s : SyncRun) → IsQuietSync s → IsAtNext (log_at_end s) (log_at_begin s)
        (moment s.shape s.past) (backoff_at_begin s) s.key s.job }
    ensures nothing { (s : SyncRun) → IsQuietSync s → status_due s ≡ s.job.status
        → Each (λ x. WritesNoStatus x.reply) (s.last ∷ s.run) }
{
    allowed_updates_stay_valid();
}
