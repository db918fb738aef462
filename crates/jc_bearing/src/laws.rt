//! Laws on whole syncs of a settle. Each function does nothing: what it ensures holds of every history, and its callers may
//! cite it.

ghost use Rattle.std.specs.Prelude.{◌≡◌, ◌<◌, ◌≤◌, ◌∷◌, IfSome, List, None, Some, false, ℕ};
ghost use Rattle.jc_types.specs.Keys.{same_key, same_uid};
ghost use Rattle.jc_types.specs.declared.actions.End.{End};
ghost use Rattle.jc_types.specs.declared.objects.Entry.{Entry};
ghost use Rattle.jc_types.specs.declared.objects.Job.{Job};
ghost use Rattle.jc_types.specs.declared.runs.Shape.{Shape};
ghost use Rattle.jc_states.specs.declared.bases.Basis.{Basis};
ghost use Rattle.jc_log.specs.Acts as does;
ghost use Rattle.jc_log.specs.Deeds.{Deed};
ghost use Rattle.jc_log.specs.Log.{job_in};
ghost use Rattle.jc_runs.specs.Legal.{IsLegal};
ghost use Rattle.jc_runs.specs.Registers.{pending};
ghost use Rattle.jc_runs.specs.Replies.{diary, log_given};
ghost use Rattle.jc_runs.specs.Machines.{AllAskValid};
ghost use Rattle.jc_settle.specs.Settles.{IsCalm};
ghost use Rattle.jc_calm.specs.SettleTurns.{BeginsAlone};
ghost use Rattle.jc_making.specs.Making.{IsCountedIn, LastIsSuccess};
ghost use Rattle.jc_making.specs.Nodes.{fate};
ghost use Rattle.jc_bearing.specs.AtMost.{pods_at_most};
ghost use Rattle.jc_bearing.specs.Whole.{DoesAll, RunsWhole, SawLog};

use jc_runs::allowed_updates_stay_valid;

/// **A sync that runs alone does all that it plans, and then it is calm again**: where a settle begins a sync in a calm
/// state behind a legal history whose Jobs were created with valid specifications, and no fault is pending for its
/// worker, there are so many events, all of them lists, deliveries and steps of that sync, after which it is calm. Its
/// Job has the status that the plan leaves, and is else as it was, but for its version. The Job's own pods are those
/// that were there, as the plan has them, but for some that lost their finalizer and are gone, and behind them the new
/// ones, one for each index that the plan has, each as it is made by the Job's template. Each other Job is as it was, and
/// so are the pods that were made for Jobs of other keys. The moment is the same, and no fault is new.
pub fn whole_syncs_do_what_they_plan()
    ensures { (shape : Shape) (past : List Deed) (c w : ℕ) (basis : Basis) (begin : Deed)
        → 0 < shape.workers → IsLegal shape past → AllAskValid past → IsCalm shape past
        → BeginsAlone shape past c w basis begin → pending w (diary shape c past) ≡ None
        → RunsWhole shape past c w basis begin }
{
    allowed_updates_stay_valid();
}

/// **A whole sync makes no pod beyond those that may be made for its Job at most**: where the last of the ends is a success,
/// those that were made and those that may still be are together no more after it than before, whatever it does. Of a Job
/// of another key and another UID they are as many as before.
pub fn whole_syncs_make_no_pod_beyond()
    ensures own { (ends : List End) (log new : List Entry) (basis : Basis) (job now : Job)
        → SawLog log basis → DoesAll log basis new
        → job_in basis.key log ≡ Some job → job_in basis.key new ≡ Some now
        → IsCountedIn log basis.key job → LastIsSuccess ends
        → pods_at_most ends new now ≤ pods_at_most ends log job }
    ensures others { (ends : List End) (log new : List Entry) (basis : Basis) (job : Job)
        → DoesAll log basis new → same_key basis.key job.key ≡ false
        → IfSome basis.job (λ seen. same_uid seen.uid job.uid ≡ false)
        → pods_at_most ends new job ≡ pods_at_most ends log job }
{}

/// **A deed of the node allows no more pods of a Job**, be it to one of the Job's pods or to another, which starts,
/// restarts, succeeds, fails, or is stopped, and may be gone then: those that were made and those that may still be are
/// together no more after it, where the pods of the Job's key have fates and what counts of the Job is in order.
pub fn the_node_allows_no_more_pods()
    ensures { (shape : Shape) (past : List Deed) (d : Deed) (ends : List End) (job : Job)
        → d.act ≡ does.Node → fate past job.key ≡ Some ends
        → IsCountedIn (log_given shape past) job.key job
        → pods_at_most ends (log_given shape (d ∷ past)) job
        ≤ pods_at_most ends (log_given shape past) job }
{}
