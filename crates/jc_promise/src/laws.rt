//! Laws on the histories of a script. What each function ensures holds of every history, and its callers
//! may cite it.

ghost use Rattle.std.specs.Prelude.{◌≡◌, ◌<◌, ◌≤◌, ◌^◌, Some, false, not, true, ◌&&◌};
ghost use Rattle.std.specs.Option.{option_map, option_map_or};
ghost use Rattle.std.specs.List.{AllByRecursion as Each};
ghost use Rattle.jc_types.specs.declared.actions.Command.{Command};
ghost use Rattle.jc_types.specs.declared.actions.Script.{Script};
ghost use Rattle.jc_types.specs.declared.objects.Job.{Job};
ghost use Rattle.jc_types.specs.declared.objects.Pod.{Pod};
ghost use Rattle.jc_types.specs.declared.runs.History.{History};
ghost use Rattle.jc_types.specs.declared.runs.Shape.{Shape};
ghost use Rattle.jc_causes.specs.Conditions.{has_end};
ghost use Rattle.jc_runs.specs.ValidActions.{AreValidCommands};
ghost use Rattle.jc_rest.specs.Owners.{is_foreign};
ghost use Rattle.jc_log.specs.Deeds.{deeds};
ghost use Rattle.jc_log.specs.Log.{job_in, pod_in};
ghost use Rattle.jc_history.specs.Available.{IsOrderly, is_quiescent};
ghost use Rattle.jc_history.specs.Legal.{IsHistory, IsLegal};
ghost use Rattle.jc_history.specs.Replies.{diary, log_given};
ghost use Rattle.jc_history.specs.Samples.{pi_key, uid_of, usual_shape};
ghost use Rattle.jc_runs.specs.Once.{OnceAtEach};
ghost use Rattle.jc_history.specs.Samples.{sample_spec};
ghost use Rattle.jc_runs.specs.Conflicts.{AreToldLater};
ghost use Rattle.jc_bounds.specs.Histories.{HoldsBounds};
ghost use Rattle.jc_bounds.specs.KeptEnds.{HasNothingOpen};
ghost use Rattle.jc_causes.specs.Causes.{AreCaused};
ghost use Rattle.jc_rest.specs.Lost.{AreLostWell};
ghost use Rattle.jc_rest.specs.Orphans.{is_sure_of, last_about};
ghost use Rattle.jc_rest.specs.Stuck.{is_sure};
ghost use Rattle.jc_lines.specs.Told.{AreEvents};
ghost use Rattle.jc_promise.specs.Promises.{IsToldAlone, KeepsPromises, ReleasesWell, RestsWell, WaitsWell};
ghost use Rattle.jc_promise.specs.QuietEnds.{SyncsWell};
ghost use Rattle.jc_promise.specs.SomeDeeds.{FindsEnd, MakesPod, SomeDeed, SomeSync, one_pod_deeds, orphan_deeds, quiet_deeds, waiting_deeds};
ghost use Rattle.jc_promise.specs.Wrong.{pi_job};
ghost use Rattle.jc_promise.specs.WrongCounts.{early_release, early_total, recount, stale_pod_cache, stale_write};
ghost use Rattle.jc_promise.specs.WrongCauses.{active_released, failed_makes, index_made_twice, one_too_many, overdue_makes, same_status_written, suspended_makes, wanted_let_go, wanted_marked};
ghost use Rattle.jc_promise.specs.WrongEnds.{early_end, failed_job, skipped_command, twice_script};
ghost use Rattle.jc_promise.specs.WrongIndexes.{crowded_list, failures_anew, index_past, index_unfailed, unseen_release};
ghost use Rattle.jc_promise.specs.WrongOutcomes.{early_fail_job, finalizer_vanishes, ignored_counted, index_twice, suspended_counted};
ghost use Rattle.jc_promise.specs.WrongRests.{kept_orphan, unmarked_pod, unwritten_end, wrong_status};
ghost use Rattle.jc_promise.specs.WrongRooms.{left_over_released, many_listed};
ghost use Rattle.jc_promise.specs.WrongSyncs.{false_conflict, forgotten_pod, old_caches, stuck_job, two_syncs, two_workers};

use jc_bounds::one_controller_holds_the_bounds;
use jc_causes::requests_have_causes;
use jc_lines::lines_determine_histories;
use jc_rest::{
    finalizers_are_lost_with_a_cause, no_ended_pod_is_forgotten_at_rest, no_job_is_stuck_at_rest,
    no_orphan_is_left_at_rest,
};
use jc_runs::{
    legal_histories_count_once, legal_histories_tell_later_versions,
    quiet_syncs_reach_the_next_status, valid_scripts_ask_valid,
};

/// **Whatever the script**: of each legal history of a script whose commands are valid, in any order of
/// its lanes, with any number of controllers and workers, but one at least, and at most 200,000 events, all
/// promises hold (KEP-2307).
pub fn legal_histories_keep_the_promises()
    ensures { (script : Script) (shape : Shape) (history : History)
        → AreValidCommands script.commands
        → 0 < shape.controllers → 0 < shape.workers → shape.events ≤ 200000
        → IsHistory script shape history → KeepsPromises script shape history }
{
    valid_scripts_ask_valid();
    legal_histories_count_once();
    finalizers_are_lost_with_a_cause();
    legal_histories_tell_later_versions();
    no_ended_pod_is_forgotten_at_rest();
    no_job_is_stuck_at_rest();
    no_orphan_is_left_at_rest();
    quiet_syncs_reach_the_next_status();
    one_controller_holds_the_bounds();
    requests_have_causes();
    lines_determine_histories();
}

/// Of an orderly history of a script the numbers of all events are such as the code's types hold, where those of the
/// script and the shape are: the seconds by which the clock passes of itself are those to a moment. So what is said of
/// lines that tell such events holds of the lines of each orderly history.
#[tactic(auto, using(crate::proofs::NumberFacts::events_fit))]
pub fn orderly_histories_have_small_numbers()
    ensures { (script : Script) (shape : Shape) (history : History)
        → Each (λ (command : Command). command.lane < 2 ^ 8) script.commands
        → shape.controllers ≤ 2 ^ 32 → shape.workers ≤ 2 ^ 32 → IsHistory script shape history
        → IsOrderly shape (deeds script history) → AreEvents history.events.items }
{}

/// What is said of legal histories of one controller is said of something: in this one a pod is
/// made, and its Job has ended before the last of its events.
pub fn a_job_of_one_controller_ends()
    ensures one { usual_shape.controllers ≡ 1 }
    ensures legal { IsLegal usual_shape one_pod_deeds }
    ensures makes { SomeDeed (MakesPod usual_shape) one_pod_deeds }
    ensures ends { SomeDeed (FindsEnd usual_shape) one_pod_deeds }
{}

/// What is said of Jobs at rest is said of something: at the end of this legal history nothing is left to do,
/// its controller has added the Job's key since its pod cache last skipped entries, and the Job has not
/// ended. It waits for its pod, of which nothing says how it will end.
pub fn a_job_waits_at_rest()
    ensures legal { IsLegal usual_shape waiting_deeds }
    ensures rests { is_quiescent usual_shape waiting_deeds (log_given usual_shape waiting_deeds)
        ≡ true }
    ensures sure { is_sure pi_key (diary usual_shape 0 waiting_deeds) ≡ true }
    ensures unended { option_map (λ (job : Job). has_end job.status.conditions)
        (job_in pi_key (log_given usual_shape waiting_deeds)) ≡ Some false }
{}

/// What is said of orphans at rest is said of something: at the end of this legal history nothing is left to
/// do, a pod is there whose Job is gone and that has lost its finalizer, and its controller has added the key
/// of its owner since its cache of Jobs had seen the last entry about both.
pub fn an_orphan_is_released_at_rest()
    ensures legal { IsLegal usual_shape orphan_deeds }
    ensures rests { is_quiescent usual_shape orphan_deeds (log_given usual_shape orphan_deeds)
        ≡ true }
    ensures released { option_map_or (λ (pod : Pod).
        is_foreign (job_in pod.owner (log_given usual_shape orphan_deeds)) pod && not pod.tracked)
        (pod_in (uid_of 2) (log_given usual_shape orphan_deeds)) false ≡ true }
    ensures sure { option_map_or (λ (pod : Pod).
        is_sure_of pod (last_about pod (log_given usual_shape orphan_deeds))
        (diary usual_shape 0 orphan_deeds))
        (pod_in (uid_of 2) (log_given usual_shape orphan_deeds)) false ≡ true }
{}

/// What is said of quiet syncs is said of something: this legal history has one.
pub fn a_sync_is_quiet()
    ensures legal { IsLegal usual_shape quiet_deeds }
    ensures quiet { SomeSync usual_shape quiet_deeds (log_given usual_shape quiet_deeds) }
{}

/// Each promise says something, since it refuses a history. Each of these is what a machine makes that
/// is wrong in one place; the promise that refuses it is the clause.
/// - That each pod is counted once, after each event: finalizers that go before a list has the UID, totals that
///   rise too early, a sync on an old pod cache, a status that is written at an old version, a UID that is
///   counted again, an index that is counted twice, a failure that is ignored and counts, a pod of a suspended
///   Job that counts, a pod that fails its Job and goes before the Job has a target; failures of an index that
///   start anew, an index that does not fail at its limit, an index past the completions that is completed, a pod
///   that runs and is released as its Job was not seen yet, 501 UIDs in a list.
/// - That each finalizer was lost to a command or with a cause: the first of these, a finalizer that goes by a
///   mark, and that of a pod for which the status had no room.
/// - The bounds of one controller: a controller that goes on with its caches after a request without
///   an answer, a queue that hands out a key whose sync goes on, a Job that ends while a pod is open.
/// - That conflicts are later: one that tells the version that was sent.
/// - That lines tell one history: a lane that begins with its second command.
/// - That no ended pod is forgotten at rest: a sync that begins on what its caches held before.
/// - That no Job is stuck at rest: a sync that begins on what its caches held before they were listed, a
///   controller that marks no pod of a Job whose failure is decided, and one that does not write the end of
///   a suspended Job whose failure is decided.
/// - That no orphan is left at rest: a controller that releases none.
/// - That a quiet sync comes to the next status: one that writes another.
/// - That each request has its cause: a sync that makes a pod of a suspended Job, of one past its backoff limit or its
///   deadline, one more than is lacking, or a second one of an index; that lets go, marks or releases an active pod that
///   is wanted; that writes the status that stands.
pub fn wrong_histories_are_refused()
    ensures early_release { OnceAtEach early_release.deeds early_release.log → ⊥ }
    ensures early_release_unlost { AreLostWell (pi_job sample_spec) early_release.deeds
        early_release.log → ⊥ }
    ensures early_total { OnceAtEach early_total.deeds early_total.log → ⊥ }
    ensures stale_pod_cache { OnceAtEach stale_pod_cache.deeds stale_pod_cache.log → ⊥ }
    ensures stale_write { OnceAtEach stale_write.deeds stale_write.log → ⊥ }
    ensures recount { OnceAtEach recount.deeds recount.log → ⊥ }
    ensures index_twice { OnceAtEach index_twice.deeds index_twice.log → ⊥ }
    ensures ignored_counted { OnceAtEach ignored_counted.deeds ignored_counted.log → ⊥ }
    ensures suspended_counted { OnceAtEach suspended_counted.deeds suspended_counted.log → ⊥ }
    ensures early_fail_job { OnceAtEach early_fail_job.deeds early_fail_job.log → ⊥ }
    ensures failures_anew { OnceAtEach failures_anew.deeds failures_anew.log → ⊥ }
    ensures index_unfailed { OnceAtEach index_unfailed.deeds index_unfailed.log → ⊥ }
    ensures index_past { OnceAtEach index_past.deeds index_past.log → ⊥ }
    ensures unseen_release { OnceAtEach unseen_release.deeds unseen_release.log → ⊥ }
    ensures crowded_list { OnceAtEach crowded_list.deeds crowded_list.log → ⊥ }
    ensures finalizer_vanishes { AreLostWell (pi_job sample_spec) finalizer_vanishes.deeds
        finalizer_vanishes.log → ⊥ }
    ensures left_over_released { AreLostWell many_listed left_over_released.deeds
        left_over_released.log → ⊥ }
    ensures old_caches { HoldsBounds usual_shape old_caches → ⊥ }
    ensures two_syncs { HoldsBounds two_workers two_syncs → ⊥ }
    ensures early_end { HasNothingOpen early_end.log failed_job → ⊥ }
    ensures false_conflict { AreToldLater usual_shape false_conflict → ⊥ }
    ensures skipped_command { IsToldAlone twice_script usual_shape skipped_command → ⊥ }
    ensures forgotten_pod { RestsWell usual_shape forgotten_pod
        (log_given usual_shape forgotten_pod) → ⊥ }
    ensures stuck_job { WaitsWell usual_shape stuck_job (log_given usual_shape stuck_job) → ⊥ }
    ensures unmarked_pod { WaitsWell usual_shape unmarked_pod.deeds unmarked_pod.log → ⊥ }
    ensures unwritten_end { WaitsWell usual_shape unwritten_end.deeds unwritten_end.log → ⊥ }
    ensures kept_orphan { ReleasesWell usual_shape kept_orphan.deeds kept_orphan.log → ⊥ }
    ensures wrong_status { SyncsWell usual_shape wrong_status.deeds wrong_status.log → ⊥ }
    ensures suspended_makes { AreCaused usual_shape suspended_makes → ⊥ }
    ensures failed_makes { AreCaused usual_shape failed_makes → ⊥ }
    ensures overdue_makes { AreCaused usual_shape overdue_makes → ⊥ }
    ensures one_too_many { AreCaused usual_shape one_too_many → ⊥ }
    ensures index_made_twice { AreCaused usual_shape index_made_twice → ⊥ }
    ensures wanted_let_go { AreCaused usual_shape wanted_let_go → ⊥ }
    ensures wanted_marked { AreCaused usual_shape wanted_marked → ⊥ }
    ensures active_released { AreCaused usual_shape active_released → ⊥ }
    ensures same_status_written { AreCaused usual_shape same_status_written → ⊥ }
{}
