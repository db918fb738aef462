//! Laws on how many pods a settle makes. Each function does nothing: what it ensures holds of every history, and its callers
//! may cite it.

ghost use Rattle.std.specs.Prelude.{◌≡◌, ◌⊎◌, ◌+◌, ◌<◌, ◌≤◌, List, Some, filter, length, true, ℕ};
ghost use Rattle.jc_types.specs.declared.actions.End.{End};
ghost use Rattle.jc_types.specs.declared.objects.Job.{Job};
ghost use Rattle.jc_types.specs.declared.objects.Pod.{Pod};
ghost use Rattle.jc_types.specs.declared.runs.Shape.{Shape};
ghost use Rattle.jc_log.specs.Deeds.{Deed};
ghost use Rattle.jc_log.specs.Log.{made_for};
ghost use Rattle.jc_log.specs.Range.{IsMoment};
ghost use Rattle.jc_runs.specs.Available.{is_quiescent};
ghost use Rattle.jc_runs.specs.Legal.{IsLegal};
ghost use Rattle.jc_runs.specs.Machines.{AllAskValid};
ghost use Rattle.jc_runs.specs.Replies.{log_given};
ghost use Rattle.jc_making.specs.Making.{creations_left, fails, misses};
ghost use Rattle.jc_bearing.specs.AtMost.{pods_at_most};
ghost use Rattle.jc_bounded.specs.Faultless.{ComesFaultless, IsBetweenTurns, IsFaultless, PutsNoFault, SucceedsAtLast, TurnsOver, UsesUpAFault, made_on};

use jc_runs::allowed_updates_stay_valid;

/// Behind a legal history in which no fault was put, a settle comes to be calm with none pending.
pub fn settles_without_faults_calm_down()
    ensures { (shape : Shape) (past : List Deed) → 0 < shape.workers → IsMoment shape.start
        → IsLegal shape past → AllAskValid past → PutsNoFault past → ComesFaultless shape past }
{}

/// **No turn of a settle allows a Job more pods**: from a calm state where no fault is pending nothing is available, or the
/// settle goes on to another that is as calm, by a sync from its begin to its end, a deed of the node or one of the clock,
/// with what the caches are told of it (of which kind it is, `calm_settles_go_on` of `jc_calm` says). Of each Job that was
/// there, the turn's own or another, the pods that were made for it and those that may still be are together no more than
/// before, if its pods have a fate and succeed at last. Where faults are pending too, a turn uses up one of them, or it is
/// such a turn.
pub fn turns_allow_no_more_pods()
    ensures faultless { (shape : Shape) (past : List Deed) → IsFaultless shape past
        → (is_quiescent shape past (log_given shape past) ≡ true) ⊎ TurnsOver shape past }
    ensures still { (shape : Shape) (past : List Deed) → IsFaultless shape past
        → (turn : TurnsOver shape past) → IsFaultless shape turn.now }
    ensures any { (shape : Shape) (past : List Deed) → IsBetweenTurns shape past
        → (is_quiescent shape past (log_given shape past) ≡ true)
        ⊎ (UsesUpAFault shape past ⊎ TurnsOver shape past) }
{
    allowed_updates_stay_valid();
}

/// **Pods are bounded in a settle**: from a calm state where no fault is pending, however many events it goes on for, no
/// more pods were made for a Job that was there than were made before and might still be made then, if its pods succeed at
/// last. So it is in the middle of a sync too, and whatever else the settle does.
pub fn settles_make_no_pod_beyond()
    ensures { (shape : Shape) (past : List Deed) (events : ℕ) (ends : List End) (job : Job)
        → IsFaultless shape past → SucceedsAtLast shape past ends job
        → made_on shape events past job ≤ pods_at_most ends (log_given shape past) job }
{
    allowed_updates_stay_valid();
}

/// In words of completions: for a Job of n completions at most n pods may still be made, and one for each end to come that
/// is no success. So for a Job for which none was made yet a settle makes at most n pods and as many more as there are
/// failures among the ends; if all pods succeed, at most n.
pub fn completions_bound_the_pods()
    ensures left { (ends : List End) (made n : ℕ) (job : Job) (own : List Pod)
        → job.spec.completions ≡ Some n
        → creations_left ends made job own ≤ n + misses ends made own }
    ensures new { (shape : Shape) (past : List Deed) (events n : ℕ) (ends : List End) (job : Job)
        → IsFaultless shape past → SucceedsAtLast shape past ends job
        → job.spec.completions ≡ Some n → made_for job.uid (log_given shape past) ≡ 0
        → made_on shape events past job ≤ n + length (filter fails ends) }
{
    allowed_updates_stay_valid();
}
