//! Laws on steps of syncs. Each function is empty: what it ensures holds of every history, and its callers
//! may cite it.

ghost use Rattle.std.specs.Prelude.{◌≡◌, ◌<◌, ◌≤◌, ◌^◌, ◌∷◌, ◌++◌, [], List, None, Option, Some, length, slice_get, true, ℕ};
ghost use Rattle.jc_types.specs.declared.actions.Fault.{Fault};
ghost use Rattle.jc_types.specs.declared.actions.PhaseChange.{PhaseChange};
ghost use Rattle.jc_types.specs.declared.actions.SpecChange.{SpecChange};
ghost use Rattle.jc_types.specs.declared.numbers.Uid.{Uid};
ghost use Rattle.jc_types.specs.declared.numbers.Version.{Version};
ghost use Rattle.jc_types.specs.declared.objects.Entry.{Entry};
ghost use Rattle.jc_types.specs.declared.objects.Job.{Job};
ghost use Rattle.jc_types.specs.declared.objects.KeyNames.{KeyNames as Key};
ghost use Rattle.jc_types.specs.declared.replies.Answer.{Answer};
ghost use Rattle.jc_types.specs.declared.specifications.JobSpec.{JobSpec};
ghost use Rattle.jc_states.specs.declared.bases.Basis.{Basis};
ghost use Rattle.jc_states.specs.Bases.{CanPlan};
ghost use Rattle.jc_states.specs.PodLists.{IsRising};
ghost use Rattle.jc_types.specs.ValidSpecs.{IsValidSpec};
ghost use Rattle.jc_log.specs.Deeds.{Deed};
ghost use Rattle.jc_log.specs.Log.{job_in};
ghost use Rattle.jc_log.specs.Requests.{create_job_gives, delete_job_gives, mark_pod_gives, release_gives, report_phase_gives, update_spec_gives};
ghost use Rattle.jc_log.specs.Writes.{Legal, Stored};
ghost use Rattle.jc_plan.specs.Plans.{IsDated, planned};
ghost use Rattle.jc_control.specs.ControllerCalls.{begun};
ghost use Rattle.jc_control.specs.Schedules.{ControllerView, MirrorsLog};
ghost use Rattle.jc_control.specs.declared.begins.Begin.TheVariants.{Begun};
ghost use Rattle.jc_ledger.specs.EventKinds.{AppendsNoEntry};
ghost use Rattle.jc_ledger.specs.Flights.{Flies, IsBasisOf};
ghost use Rattle.jc_ledger.specs.Tied.{Tied};
ghost use Rattle.jc_ledger.specs.declared.flights.Flight.{Flight};
ghost use Rattle.jc_asks.specs.Asks.{asks_after, asks_of, unchanged_of, version_sent, writes_status};
ghost use Rattle.jc_asks.specs.Readings.{next_ask, steps_of};
ghost use Rattle.jc_asks.specs.Steps.{Sync, answered_to, as_answer, stepped, stepped_at};
ghost use Rattle.jc_asks.specs.declared.asks.Ask.{Ask};
ghost use Rattle.jc_sync.specs.SyncPlaces.{IfGoesOn, IsAt};
ghost use Rattle.jc_sync.specs.Plannable.{AppendsFit, FitsIn, IsPlannable};
ghost use Rattle.jc_sync.specs.Quiet.{EndedAreLost, HasNext, IsUndisturbed, Leaves, StaysUndisturbed, steps_left};
ghost use Rattle.jc_sync.specs.AllRegisters.{AreFree, HasBegun, HasStepped, HasSyncs, IsAnswered, Registers, TellsOfNoSync, register_at, restarted};
ghost use Rattle.jc_sync.specs.StepEffects.{IsLaterThan, StaysTied};

use jc_manifest::allowed_updates_stay_valid;

/// What ties a history stays where a sync makes a step, also where its request meets a fault; and the sync
/// goes on to its next place, with its basis.
pub fn steps_keep_what_ties()
    ensures begun { (flight : Flight) → IsRising flight.basis.pods → flight.written ≡ None
        → IsAt flight (asks_of (planned flight.basis)) }
    ensures tied { (d : Deed) (past : List Deed) (log : List Entry) (front back : List Flight)
        (flight : Flight) (now : ℕ) → Tied past log (front ++ flight ∷ back)
        → (pending : Option Fault) (left : List Ask) → IsAt flight left
        → StaysTied d past log front back flight (stepped_at now pending log flight left) }
    ensures placed { (log : List Entry) (now : ℕ) (flight : Flight) → Stored log → Flies log flight
        → (pending : Option Fault) (left : List Ask) → IsAt flight left
        → IfGoesOn (stepped_at now pending log flight left).next (λ s. IsAt s.flight s.left) }
    ensures basis { (now : ℕ) (pending : Option Fault) (log : List Entry) (flight : Flight)
        (left : List Ask)
        → IfGoesOn (stepped_at now pending log flight left).next
        (λ s. s.flight.basis ≡ flight.basis) }
{}

/// A status write or a let-go of a sync that is refused as a conflict tells of a later version than the one
/// that it sent. A status write is never answered as one that changes nothing.
pub fn conflicts_are_later()
    ensures later { (log : List Entry) (now : ℕ) (flight : Flight) → Stored log → Flies log flight
        → (ask : Ask) (left : List Ask) → IsAt flight (ask ∷ left)
        → IsLaterThan (version_sent flight.sends ask) (answered_to log now flight ask) }
    ensures changes { (log : List Entry) (now : ℕ) (flight : Flight) → Stored log → Flies log flight
        → (ask : Ask) (left : List Ask) → IsAt flight (ask ∷ left) → writes_status ask ≡ true
        → unchanged_of (as_answer (answered_to log now flight ask).reply) ≡ None }
{}

/// A sync that begins where its Job is as it saw it, and meets no fault, goes on with every answer until no
/// request is left; its Job then has the second status as a value, and all that was to be released is. In
/// a tied history that is the next status, and no own pod that had ended and was not left over for a later
/// sync has its finalizer.
pub fn quiet_syncs_come_to_the_next_status()
    ensures begun { (log : List Entry) (flight : Flight) (job : Job)
        → IsRising flight.basis.pods → flight.written ≡ None
        → job_in flight.basis.key log ≡ Some job → flight.sends ≡ job.version
        → IsUndisturbed log flight job (asks_of (planned flight.basis)) }
    ensures goes { (log : List Entry) (now : ℕ) (flight : Flight) (job : Job)
        → Stored log → Flies log flight → flight.basis.job ≡ Some job
        → (ask : Ask) (left : List Ask) → IsUndisturbed log flight job (ask ∷ left)
        → StaysUndisturbed log job (stepped_at now None log flight (ask ∷ left)) }
    ensures ends { (log : List Entry) (now : ℕ) (flight : Flight) (job : Job)
        → Stored log → Flies log flight → flight.basis.job ≡ Some job
        → IsUndisturbed log flight job [] → Leaves log flight job }
    ensures next { (deeds : List Deed) (log : List Entry) (flights : List Flight)
        (flight : Flight) (job : Job)
        → Tied deeds log flights → Flies log flight → flight.basis.job ≡ Some job
        → Leaves log flight job → HasNext log flight.basis job }
    ensures ended { (deeds : List Deed) (log : List Entry) (flights : List Flight)
        (flight : Flight) (job : Job)
        → Tied deeds log flights → Flies log flight → flight.basis.job ≡ Some job
        → Leaves log flight job → EndedAreLost log flight.basis job }
    ensures fewer { (ask : Ask) (given : Answer) (left : List Ask)
        → steps_left (asks_after ask given left) < steps_left (ask ∷ left) }
{}

/// Steps, begins, restarts and what appends nothing keep what is known of all syncs under way. It holds at the
/// start, where no worker has one.
pub fn syncs_keep_their_registers()
    ensures start { (rs : Registers) → AreFree rs → HasSyncs [] [] rs }
    ensures quiet { (d : Deed) (past : List Deed) (log : List Entry) (rs : Registers)
        → HasSyncs past log rs → AppendsNoEntry d log → TellsOfNoSync d → HasSyncs (d ∷ past) log rs }
    ensures stepped { (d : Deed) (past : List Deed) (log : List Entry) (rs : Registers)
        (c w now : ℕ) (pending : Option Fault) (sync : Sync)
        → HasSyncs past log rs → register_at c w rs ≡ Some (Some sync)
        → HasStepped d past log rs c w (stepped now pending log sync) }
    ensures begun { (d : Deed) (past : List Deed) (log : List Entry) (rs : Registers)
        (c w now : ℕ) (controller : ControllerView) (basis : Basis)
        → HasSyncs past log rs → register_at c w rs ≡ Some None → MirrorsLog log controller
        → (begun now controller).answer ≡ Begun basis → HasBegun d past log rs c w basis }
    ensures restarted { (d : Deed) (past : List Deed) (log : List Entry) (rs : Registers) (c : ℕ)
        → HasSyncs past log rs → AppendsNoEntry d log → TellsOfNoSync d
        → HasSyncs (d ∷ past) log (restarted c rs) }
    ensures next { (past : List Deed) (log : List Entry) (rs : Registers) (c w : ℕ) (sync : Sync)
        → HasSyncs past log rs → register_at c w rs ≡ Some (Some sync)
        → next_ask (planned sync.flight.basis) (steps_of c w past) ≡ slice_get sync.left 0 }
{}

/// Requests of commands and of the node keep what is known of all syncs under way.
pub fn requests_keep_the_registers()
    ensures created { (d : Deed) (past : List Deed) (log : List Entry) (rs : Registers)
        → HasSyncs past log rs → (key : Key) (spec : JobSpec) (now : ℕ) → IsValidSpec spec
        → IsAnswered d past log rs (create_job_gives log key spec now) }
    ensures updated { (d : Deed) (past : List Deed) (log : List Entry) (rs : Registers)
        → HasSyncs past log rs → (key : Key) (version : Option Version) (change : SpecChange)
        → IsAnswered d past log rs (update_spec_gives log key version change) }
    ensures deleted { (d : Deed) (past : List Deed) (log : List Entry) (rs : Registers)
        → HasSyncs past log rs → (key : Key)
        → IsAnswered d past log rs (delete_job_gives log key) }
    ensures marked { (d : Deed) (past : List Deed) (log : List Entry) (rs : Registers)
        → HasSyncs past log rs → (pod : Uid) (now : ℕ)
        → IsAnswered d past log rs (mark_pod_gives log pod now) }
    ensures stripped { (d : Deed) (past : List Deed) (log : List Entry) (rs : Registers)
        → HasSyncs past log rs → (pod : Uid)
        → IsAnswered d past log rs (release_gives log pod) }
    ensures reported { (d : Deed) (past : List Deed) (log : List Entry) (rs : Registers)
        → HasSyncs past log rs → (pod : Uid) (change : PhaseChange)
        → IsAnswered d past log rs (report_phase_gives log pod change) }
{}

/// Each sync of a tied history can be planned where the log holds fewer than 2^31 entries and the failures
/// of its key are bounded and dated; and what a sync or a command appends keeps that.
pub fn syncs_can_be_planned()
    ensures can { (deeds : List Deed) (log : List Entry) (flights : List Flight)
        (basis : Basis) (job : Job)
        → Tied deeds log flights → IsPlannable log → IsBasisOf log basis → basis.job ≡ Some job
        → length log < 2 ^ 31 → basis.backoff.failures ≤ 2 ^ 63 → IsDated basis.backoff
        → CanPlan basis }
    ensures more { (e : Entry) (log : List Entry)
        → IsPlannable log → FitsIn e → IsPlannable (e ∷ log) }
    ensures asked { (log : List Entry) (now : ℕ) (flight : Flight)
        → Legal log → IsPlannable log → Flies log flight
        → (ask : Ask) (left : List Ask) → IsAt flight (ask ∷ left)
        → AppendsFit (answered_to log now flight ask) }
    ensures created { (log : List Entry) → Legal log → IsPlannable log
        → (key : Key) (spec : JobSpec) (now : ℕ) → IsValidSpec spec
        → AppendsFit (create_job_gives log key spec now) }
    ensures updated { (log : List Entry) → Legal log → IsPlannable log
        → (key : Key) (version : Option Version) (change : SpecChange)
        → AppendsFit (update_spec_gives log key version change) }
    ensures deleted { (log : List Entry) → Legal log → IsPlannable log → (key : Key)
        → AppendsFit (delete_job_gives log key) }
    ensures marked { (log : List Entry) → Legal log → IsPlannable log → (pod : Uid) (now : ℕ)
        → AppendsFit (mark_pod_gives log pod now) }
    ensures stripped { (log : List Entry) → Legal log → IsPlannable log → (pod : Uid)
        → AppendsFit (release_gives log pod) }
    ensures reported { (log : List Entry) → Legal log → IsPlannable log
        → (pod : Uid) (change : PhaseChange)
        → AppendsFit (report_phase_gives log pod change) }
{
    allowed_updates_stay_valid();
}
