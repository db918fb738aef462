//! The law on restarts in a settle. The function is empty: what it ensures holds of every history, and its callers may cite
//! it.

ghost use Rattle.std.specs.Prelude.{◌≡◌, ◌<◌, ◌≤◌, List, Some, false, true};
ghost use Rattle.std.specs.List.{AllByRecursion as Each};
ghost use Rattle.jc_types.specs.declared.objects.Job.{Job};
ghost use Rattle.jc_types.specs.declared.objects.Pod.{Pod};
ghost use Rattle.jc_types.specs.declared.runs.Shape.{Shape};
ghost use Rattle.jc_states.specs.Bases.{own_pods};
ghost use Rattle.jc_states.specs.Pods.{is_active};
ghost use Rattle.jc_states.specs.UidLists.{is_in};
ghost use Rattle.jc_states.specs.declared.bases.Basis.{Basis};
ghost use Rattle.jc_log.specs.Deeds.{Deed};
ghost use Rattle.jc_log.specs.Log.{pod_in};
ghost use Rattle.jc_plan.specs.Decisions.{restarts_on_failure};
ghost use Rattle.jc_plan.specs.Plans.{planned};
ghost use Rattle.jc_history.specs.Replies.{log_given};
ghost use Rattle.jc_settle.specs.Left.{first_restarts};
ghost use Rattle.jc_restarts.specs.Restarts.{HasItsJob, NeverDeleted, most_restarts, too_many};

/// **Plans stop what restarts too often**: the Job of a key that is never deleted stays there, and each pod of the key was
/// made for it and restarts its containers as the Job says. And where the Job is one of `OnFailure`, a plan marks each active
/// pod of it, tracked or not, whose first container has restarted too often: as often as the backoff limit, or once where that
/// is 0. No first container has restarted more often than the greatest number that a report gave, and once for each deed of
/// the node.
pub fn plans_stop_what_restarts_too_often()
    ensures stands { (shape : Shape) (past : List Deed) (pod : Pod)
        → pod_in pod.uid (log_given shape past) ≡ Some pod → NeverDeleted pod.owner past
        → HasItsJob (log_given shape past) pod }
    ensures limit { (basis : Basis) (job : Job) → basis.job ≡ Some job
        → restarts_on_failure job.spec.template.restart ≡ true
        → Each (λ (pod : Pod). is_active pod ≡ true → is_in pod.uid (planned basis).marks ≡ false
        → first_restarts pod < too_many job) (own_pods job basis.pods) }
    ensures counted { (shape : Shape) (past : List Deed) (pod : Pod)
        → pod_in pod.uid (log_given shape past) ≡ Some pod
        → first_restarts pod ≤ most_restarts past }
{}
