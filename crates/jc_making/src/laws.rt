//! Laws on how many pods a Job may still make. Each function is empty: what it ensures holds of every Job and its own
//! pods, and its callers may cite it.

ghost use Rattle.std.specs.Prelude.{◌≡◌, ◌++◌, ◌≤◌, ◌∷◌, List, None, Some, [], false, ℕ};
ghost use Rattle.jc_types.specs.declared.actions.End.{End};
ghost use Rattle.jc_types.specs.declared.objects.Job.{Job};
ghost use Rattle.jc_types.specs.declared.objects.Phase.TheVariants.{Failed, Succeeded};
ghost use Rattle.jc_types.specs.declared.objects.Pod.{Pod};
ghost use Rattle.jc_types.specs.declared.specifications.Mode.TheVariants.{Indexed, NonIndexed};
ghost use Rattle.jc_states.specs.declared.bases.Basis.{Basis};
ghost use Rattle.jc_states.specs.Bases.{own_pods};
ghost use Rattle.jc_states.specs.Conditions.{has_end};
ghost use Rattle.jc_states.specs.Pods.{is_tracked};
ghost use Rattle.jc_plan.specs.Plans.{planned};
ghost use Rattle.jc_making.specs.Grants.{SyncGranted, UsesUp, job_left};
ghost use Rattle.jc_making.specs.Examples.{with_phase, one_fails, runs_as, small_indexed, small_job};
ghost use Rattle.jc_making.specs.Making.{
  IsCounted,
  LastIsSuccess,
  NodeMakes,
  completed_now,
  creations_left,
  pods_succeeded,
};

/// How many pods may still be made for small Jobs of three completions, of which two may run at once, where the first pod
/// fails. Four, before any is made. Where two run it is two more, and so it is once the first has failed; one, once there is
/// another in its place, and then once one has succeeded. Of an Indexed Job only the older of two pods of one index is of
/// use.
pub fn small_jobs_are_worked_out()
    ensures none { (job : Job) (pod : Pod) → creations_left one_fails 0 (small_job job) [] ≡ 4 }
    ensures two { (job : Job) (pod : Pod) → creations_left one_fails 2 (small_job job)
        (runs_as 0 None pod ∷ runs_as 1 None pod ∷ []) ≡ 2 }
    ensures failed { (job : Job) (pod : Pod) → creations_left one_fails 2 (small_job job)
        (with_phase Failed (runs_as 0 None pod) ∷ runs_as 1 None pod ∷ []) ≡ 2 }
    ensures replaced { (job : Job) (pod : Pod) → creations_left one_fails 3 (small_job job)
        (runs_as 1 None pod ∷ runs_as 2 None pod ∷ []) ≡ 1 }
    ensures succeeded { (job : Job) (pod : Pod) → creations_left one_fails 3 (small_job job)
        (with_phase Succeeded (runs_as 1 None pod) ∷ runs_as 2 None pod ∷ []) ≡ 1 }
    ensures indexed { (job : Job) (pod : Pod) → creations_left one_fails 3 (small_indexed job)
        (with_phase Succeeded (runs_as 1 (Some 0) pod) ∷ runs_as 2 (Some 1) pod ∷ []) ≡ 1 }
    ensures doubled { (job : Job) (pod : Pod) → creations_left one_fails 3 (small_indexed job)
        (runs_as 1 (Some 0) pod ∷ runs_as 2 (Some 0) pod ∷ []) ≡ 2 }
{}

/// What counts of a Job is the same before a sync and after it, once all its requests are granted, whatever these are:
/// what moves from pods to lists and from lists to totals counts before and after. Of a Job that is not Indexed these
/// are its successes, and of an Indexed one that has not ended the completed indexes.
pub fn plans_keep_what_counts()
    ensures successes { (job : Job) (basis : Basis) (made : ℕ) (now : List Pod)
        → SyncGranted basis job made now → job.spec.mode ≡ NonIndexed
        → pods_succeeded (job_left (planned basis) job) now ≡ pods_succeeded job (own_pods job basis.pods) }
    ensures indexes { (job : Job) (basis : Basis) (made : ℕ) (now : List Pod)
        → SyncGranted basis job made now
        → job.spec.mode ≡ Indexed → has_end job.status.conditions ≡ false
        → completed_now (job_left (planned basis) job) now
        ≡ completed_now job (own_pods job basis.pods) }
{}

/// **How many pods a Job may still make is bounded, and falls with each pod that is made.** Where the last of the ends
/// is a success, a plan leaves, once all its requests are granted, at least as many fewer to be made as it makes pods;
/// and one that makes none, but lets pods go, marks or releases them, leaves no more. What that means of a settle is
/// `settles_make_no_pod_beyond` of `jc_bounded`.
pub fn plans_use_up_what_may_be_made()
    ensures { (ends : List End) (made : ℕ) (job : Job) (basis : Basis) (now : List Pod)
        → SyncGranted basis job made now → IsCounted job (own_pods job basis.pods) → LastIsSuccess ends
        → UsesUp creations_left ends made job basis now }
{}

/// Whatever the node does to one of the Job's pods, that starts, restarts, succeeds, fails, or is stopped as it was marked,
/// no more pods may be made afterwards than before: one that succeeds takes a place along, and one that fails was one of the
/// failures that were to come. A pod without its finalizer counts for nothing, so it makes no difference where it goes.
pub fn the_node_needs_no_more_pods()
    ensures acts { (ends : List End) (made : ℕ) (job : Job) (front back : List Pod) (pod after : Pod)
        → IsCounted job (front ++ pod ∷ back) → NodeMakes ends pod after
        → creations_left ends made job (front ++ after ∷ back)
        ≤ creations_left ends made job (front ++ pod ∷ back) }
    ensures gone { (ends : List End) (made : ℕ) (job : Job) (front back : List Pod) (pod : Pod)
        → is_tracked pod ≡ false → creations_left ends made job (front ++ pod ∷ back)
        ≡ creations_left ends made job (front ++ back) }
{}
