//! Laws on what one controller knows. What each function ensures holds of all that a controller may know,
//! and its callers may cite it.

ghost use Rattle.std.specs.Prelude.{◌≡◌, ◌∷◌, [], List, None, Option, Some, false, map, slice_get, ℕ};
ghost use Rattle.jc_cache.specs.Caches.{IsNext, TakesIn, job_rows, pods_at};
ghost use Rattle.jc_control.specs.Schedules.{ControllerView, Schedule, MirrorsLog, MirrorsJobs, MirrorsPods, backoff_of, log_end, floor_of, idle, known_of, number_of, unknown};
ghost use Rattle.jc_control.specs.ControllerCalls.{IsFresh, answered, begun, can_begin, ended, forgot, is_begun, kept_backoff, later};
ghost use Rattle.jc_control.specs.declared.begins.Begin.TheVariants.{Begun};
ghost use Rattle.jc_control.specs.declared.ends.SyncEnd.{SyncEnd};
ghost use Rattle.jc_control.specs.declared.ends.SyncEnd.TheVariants.{Unavailable};
ghost use Rattle.jc_queue.specs.Queued.{IsQueue, Queued, has_key};
ghost use Rattle.jc_types.specs.declared.numbers.Version.{Version};
ghost use Rattle.jc_types.specs.declared.objects.Entry.{Entry};
ghost use Rattle.jc_types.specs.declared.objects.Job.{Job};
ghost use Rattle.jc_types.specs.declared.objects.Kind.{Kind};
ghost use Rattle.jc_types.specs.declared.objects.Pod.{Pod};
ghost use Rattle.jc_types.specs.declared.syncs.Backoff.{Backoff};
ghost use Rattle.jc_states.specs.declared.bases.Basis.{Basis};
ghost use Rattle.jc_types.specs.declared.objects.KeyNames.{KeyNames as Key};
ghost use Rattle.jc_types.specs.Keys.{same_key};
ghost use Rattle.jc_log.specs.Log.{entry_at, jobs_after, jobs_in, pods_under};
ghost use Rattle.jc_log.specs.Writes.{Stored};

use jc_cache::{listed_jobs_fill_the_table, pods_stay_with_their_owner};

/// An answer raises the floor of its key, and a kept backoff takes the place of the old one; all else that
/// is known stays, and a begin changes nothing of it.
pub fn known_stands_by_key()
    ensures floor { (k : Key) (schedule : Schedule) (version : Version) →
        floor_of k (answered schedule k version) ≡ later (floor_of k schedule) version }
    ensures same_backoff { (k : Key) (schedule : Schedule) (version : Version) →
        backoff_of k (answered schedule k version) ≡ backoff_of k schedule }
    ensures others_answered { (k j : Key) (schedule : Schedule) (version : Version) →
        same_key k j ≡ false → known_of j (answered schedule k version) ≡ known_of j schedule }
    ensures backoff { (k : Key) (schedule : Schedule) (backoff : Backoff) →
        backoff_of k (kept_backoff schedule k backoff) ≡ backoff }
    ensures same_floor { (k : Key) (schedule : Schedule) (backoff : Backoff) →
        floor_of k (kept_backoff schedule k backoff) ≡ floor_of k schedule }
    ensures others_kept { (k j : Key) (schedule : Schedule) (backoff : Backoff) →
        same_key k j ≡ false →
        known_of j (kept_backoff schedule k backoff) ≡ known_of j schedule }
    ensures begun { (j : Key) (now : ℕ) (c : ControllerView) →
        known_of j (begun now c).schedule ≡ known_of j c.schedule }
    ensures ended { (j k : Key) (schedule : Schedule) (end : SyncEnd) (now : ℕ) →
        known_of j (ended schedule k end now) ≡ known_of j schedule }
    ensures idle { (j : Key) → known_of j idle ≡ unknown }
{}

/// A cache that is forgotten has no number, and neither has any after a restart or after a request that was
/// not answered. Nothing else is forgotten with a cache.
pub fn forgotten_caches_have_no_number()
    ensures forgot { (kind : Kind) (schedule : Schedule) →
        number_of kind (forgot schedule kind) ≡ None }
    ensures queue { (kind : Kind) (schedule : Schedule) →
        (forgot schedule kind).queue ≡ schedule.queue }
    ensures delays { (kind : Kind) (schedule : Schedule) →
        (forgot schedule kind).delays ≡ schedule.delays }
    ensures known { (kind : Kind) (schedule : Schedule) →
        (forgot schedule kind).known ≡ schedule.known }
    ensures unavailable { (kind : Kind) (schedule : Schedule) (k : Key) (now : ℕ) →
        number_of kind (ended schedule k Unavailable now) ≡ None }
    ensures idle { (kind : Kind) → number_of kind idle ≡ None }
{}

/// A sync begins on caches that have seen all that it must know, and just where the controller is ready.
pub fn syncs_begin_on_fresh_caches()
    ensures fresh { (now : ℕ) (c : ControllerView) (basis : Basis) →
        (begun now c).answer ≡ Begun basis → IsFresh c basis }
    ensures ready { (now : ℕ) (c : ControllerView) → can_begin c ≡ is_begun (begun now c).answer }
{}

/// A key that is processing is never first in line, so that no begin takes it.
pub fn no_processing_key_is_first()
    ensures { (q : Queued) (k : Key) → IsQueue q → Some k ≡ slice_get q.line 0 →
        has_key k q.processing ≡ false }
{}

/// Caches that have what a log has at their numbers have it still where one is filled with all that the log
/// has, is told of the next entry of a log of writes of the store, or is forgotten, and where the log grows.
pub fn caches_follow_the_log()
    ensures listed_jobs { (log : List Entry) →
        MirrorsJobs log (Some (log_end log)) (job_rows (map (λ row. row.1) (jobs_in log))) }
    ensures listed_pods { (log : List Entry) (rows : List (Key × List Pod)) →
        ((k : Key) → pods_at k rows ≡ pods_under k log) →
        MirrorsPods log (Some (log_end log)) rows }
    ensures told_jobs { (log : List Entry) (number : Option Version) (version : Version)
        (e : Entry) (jobs : List (Key × Job)) →
        MirrorsJobs log number jobs → IsNext number version → entry_at version.0 log ≡ Some e →
        MirrorsJobs log (Some version) (jobs_after e jobs) }
    ensures told_pods { (log : List Entry) (number : Option Version) (version : Version)
        (e : Entry) (rows new : List (Key × List Pod)) →
        Stored log → MirrorsPods log number rows → IsNext number version →
        entry_at version.0 log ≡ Some e → TakesIn e rows new →
        MirrorsPods log (Some version) new }
    ensures forgot_jobs { (log : List Entry) → MirrorsJobs log None [] }
    ensures forgot_pods { (log : List Entry) → MirrorsPods log None [] }
    ensures grown { (e : Entry) (log : List Entry) (c : ControllerView) → MirrorsLog log c →
        MirrorsLog (e ∷ log) c }
{
    listed_jobs_fill_the_table();
    pods_stay_with_their_owner();
}
