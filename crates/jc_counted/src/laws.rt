//! Laws on the Jobs of histories. Each function does nothing: what it ensures holds of every history, and its callers may cite
//! it.

ghost use Rattle.std.specs.Prelude.{◌≡◌, List, Some, true};
ghost use Rattle.jc_types.specs.declared.objects.KeyNames.{KeyNames as Key};
ghost use Rattle.jc_types.specs.Keys.{same_uid};
ghost use Rattle.jc_types.specs.declared.objects.Job.{Job};
ghost use Rattle.jc_types.specs.declared.runs.Shape.{Shape};
ghost use Rattle.jc_states.specs.Bases.{own_pods};
ghost use Rattle.jc_states.specs.Conditions.{has_end, has_target};
ghost use Rattle.jc_log.specs.Deeds.{Deed};
ghost use Rattle.jc_log.specs.Log.{job_in, pods_under};
ghost use Rattle.jc_runs.specs.Legal.{IsLegal};
ghost use Rattle.jc_runs.specs.Replies.{log_given};
ghost use Rattle.jc_runs.specs.Machines.{AllAskValid};
ghost use Rattle.jc_making.specs.Making.{IsCounted};

use jc_runs::allowed_updates_stay_valid;

/// **Where a Job has ended, how it ends is decided**: in any history a target stands among the conditions of each Job with
/// an end. A new Job has neither, an update keeps the status, and a plan sets an end only behind a target.
pub fn ended_jobs_have_a_target()
    ensures { (shape : Shape) (past : List Deed) (k : Key) (job : Job)
        → job_in k (log_given shape past) ≡ Some job
        → has_end job.status.conditions ≡ true → has_target job.status.conditions ≡ true }
{}

/// In each legal history whose Jobs were created with valid specifications, Jobs that are there under different keys
/// have different UIDs.
pub fn keys_have_their_own_jobs()
    ensures { (shape : Shape) (past : List Deed) → IsLegal shape past → AllAskValid past
        → (k l : Key) (one other : Job) → job_in k (log_given shape past) ≡ Some one
        → job_in l (log_given shape past) ≡ Some other → same_uid one.uid other.uid ≡ true
        → k ≡ l }
{
    allowed_updates_stay_valid();
}

/// **What counts of each Job of a legal history whose Jobs were created with valid specifications is in order**: its
/// specification is valid, it has a target where it has ended, its completed indexes and those of its failures ascend,
/// an Indexed one lists no success and each of its pods has an index, and no pod that it lists is active.
pub fn jobs_are_counted()
    ensures { (shape : Shape) (past : List Deed) → IsLegal shape past → AllAskValid past
        → (k : Key) (job : Job) → job_in k (log_given shape past) ≡ Some job
        → IsCounted job (own_pods job (pods_under k (log_given shape past))) }
{
    allowed_updates_stay_valid();
}
