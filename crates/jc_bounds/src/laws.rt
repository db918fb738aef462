//! Laws on how many pods of a Job run at once, and on Jobs that have ended. Each function is empty:
//! what it ensures holds of every history of one controller, and its callers may cite it.

ghost use Rattle.std.specs.Prelude.{◌≡◌, ◌∷◌, ◌+◌, ◌≤◌, Bool, List, Some, length, true, ℕ};
ghost use Rattle.jc_types.specs.declared.objects.KeyNames.{KeyNames as Key};
ghost use Rattle.jc_types.specs.Keys.{same_key};
ghost use Rattle.jc_types.specs.declared.objects.Entry.{Entry};
ghost use Rattle.jc_types.specs.declared.objects.Entry.TheVariants.{PodPut};
ghost use Rattle.jc_types.specs.declared.objects.Job.{Job};
ghost use Rattle.jc_types.specs.declared.objects.Pod.{Pod};
ghost use Rattle.jc_types.specs.declared.runs.Shape.{Shape};
ghost use Rattle.jc_states.specs.Conditions.{has_end};
ghost use Rattle.jc_states.specs.ObjectChanges.{PodStep};
ghost use Rattle.jc_log.specs.Deeds.{Deed};
ghost use Rattle.jc_log.specs.Log.{Never, job_in, life, upto};
ghost use Rattle.jc_log.specs.Writes.{Legal, Stored};
ghost use Rattle.jc_history.specs.Legal.{IsLegal};
ghost use Rattle.jc_history.specs.Replies.{diary, log_given};
ghost use Rattle.jc_bounds.specs.Bounded.{IsBounded};
ghost use Rattle.jc_bounds.specs.Final.{AlwaysHaveIndexTotals, KnowsEnds};
ghost use Rattle.jc_bounds.specs.Fitting.{IsMade};
ghost use Rattle.jc_bounds.specs.Histories.{HoldsBounds};
ghost use Rattle.jc_bounds.specs.KeptEnds.{IsLeftAlone, HasNothingOpen, StatusesStand};
ghost use Rattle.jc_bounds.specs.Work.{count, last_work, pods_made};

/// What a log tells of a key since a version that is not before its last work: no pod was made for
/// it, and its Job, where it is still the same one, has the same status. And since any version: of
/// the pods that pass a test which no step turns on, there are at most as many more as were made.
pub fn logs_tell_of_work()
    ensures made { (k : Key) (m : ℕ) (log : List Entry)
        → Stored log → m ≤ length log → last_work k log ≤ m
        → pods_made k log ≡ pods_made k (upto m log) }
    ensures status { (k : Key) (m : ℕ) (log : List Entry)
        → Stored log → m ≤ length log → last_work k log ≤ m
        → (old new : Job) → job_in k (upto m log) ≡ Some old → job_in k log ≡ Some new
        → new.uid ≡ old.uid → new.status ≡ old.status }
    ensures counted { (test : Pod → Bool) (k : Key)
        → ((pod : Pod) → test pod ≡ true → same_key pod.owner k ≡ true)
        → ((old new : Pod) → PodStep old new → test new ≡ true → test old ≡ true)
        → (m : ℕ) (log : List Entry) → Stored log
        → count test log + pods_made k (upto m log)
        ≤ count test (upto m log) + pods_made k log }
{}

/// The log of a legal history of one controller is legal, and at each version the total of an
/// Indexed Job is the number of its completed indexes, and the failures of each index ascend by index.
pub fn legal_histories_have_legal_logs()
    ensures legal { (shape : Shape) (deeds : List Deed)
        → shape.controllers ≡ 1 → IsLegal shape deeds → Legal (log_given shape deeds) }
    ensures totals { (shape : Shape) (deeds : List Deed)
        → shape.controllers ≡ 1 → IsLegal shape deeds → AlwaysHaveIndexTotals (log_given shape deeds) }
{}

/// What keeps a single controller from making too many pods: each work of its syncs is seen by each
/// of its caches, or the floor of the key tells of it; and the pods that were made for a key since
/// a sync of it began are those that this sync made.
pub fn histories_are_bounded()
    ensures { (shape : Shape) (deeds : List Deed) → shape.controllers ≡ 1 → IsLegal shape deeds
        → IsBounded (log_given shape deeds) (diary shape 0 deeds) }
{}

/// No pod is made beyond the Job's parallelism (batch/v1): each pod that comes into the log is made
/// by the step of a worker whose sync's Job has fewer active pods with a finalizer than may run at
/// once; where pods are replaced only once they have ended (KEP-3939), fewer open ones with a
/// finalizer. So it is also where the reply to the creation is lost.
pub fn pods_that_are_made_fit()
    ensures { (shape : Shape) (past : List Deed) (d : Deed) (pod : Pod)
        → shape.controllers ≡ 1 → IsLegal shape (d ∷ past)
        → log_given shape (d ∷ past) ≡ PodPut pod ∷ log_given shape past
        → life pod.uid (log_given shape past) ≡ Never
        → IsMade shape d.act (log_given shape past) (diary shape 0 past) pod }
{}

/// What keeps a Job that has ended as it is: its status is final and its pods are closed, and a
/// sync that is under way makes no pod and writes no status of it any more.
pub fn histories_keep_ends()
    ensures { (shape : Shape) (deeds : List Deed) → shape.controllers ≡ 1 → IsLegal shape deeds
        → KnowsEnds (log_given shape deeds) (diary shape 0 deeds) }
{}

/// A Job that has ended stays so (batch/v1): from the write that sets Complete or Failed on, while
/// the Job is there, no UID is listed, none of its pods is open or has its finalizer, no pod is
/// made for it, and its status stays.
pub fn ended_jobs_stay()
    ensures nothing_open { (shape : Shape) (deeds : List Deed) → shape.controllers ≡ 1 → IsLegal shape deeds
        → (k : Key) (job : Job) → job_in k (log_given shape deeds) ≡ Some job
        → has_end job.status.conditions ≡ true → HasNothingOpen (log_given shape deeds) job }
    ensures kept { (shape : Shape) (past : List Deed) (d : Deed)
        → shape.controllers ≡ 1 → IsLegal shape (d ∷ past)
        → (k : Key) (job : Job) → job_in k (log_given shape past) ≡ Some job
        → has_end job.status.conditions ≡ true
        → IsLeftAlone (log_given shape past) (log_given shape (d ∷ past)) k job }
    ensures stands { (shape : Shape) (deeds : List Deed)
        → shape.controllers ≡ 1 → IsLegal shape deeds → StatusesStand (log_given shape deeds) }
{}

/// Both bounds, of a whole history: whenever a pod came into the log it fitted, and from the write
/// that ended a Job on, while that Job was there, nothing was made for it and its status stood.
pub fn one_controller_holds_the_bounds()
    ensures { (shape : Shape) (deeds : List Deed)
        → shape.controllers ≡ 1 → IsLegal shape deeds → HoldsBounds shape deeds }
{}
