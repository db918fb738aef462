//! Laws on how many pods a Job may still make where its pods fail. Each function is empty: what it ensures holds of every
//! Job and its own pods, and its callers may cite it.

ghost use Rattle.std.specs.Prelude.{◌≡◌, ◌++◌, ◌≤◌, ◌∷◌, List, None, [], false, ℕ};
ghost use Rattle.std.specs.List.{AllByRecursion as Each};
ghost use Rattle.jc_types.specs.declared.actions.End.{End};
ghost use Rattle.jc_types.specs.declared.objects.Job.{Job};
ghost use Rattle.jc_types.specs.declared.objects.Phase.TheVariants.{Failed};
ghost use Rattle.jc_types.specs.declared.objects.Pod.{Pod};
ghost use Rattle.jc_states.specs.declared.bases.Basis.{Basis};
ghost use Rattle.jc_states.specs.Bases.{own_pods};
ghost use Rattle.jc_states.specs.Pods.{is_tracked};
ghost use Rattle.jc_plan.specs.Plans.{planned};
ghost use Rattle.jc_making.specs.Examples.{runs_as, with_phase};
ghost use Rattle.jc_making.specs.Grants.{LooksNew, SyncGranted, UsesUp, job_left};
ghost use Rattle.jc_making.specs.Making.{IsCounted, NodeMakes};
ghost use Rattle.jc_retries.specs.RetrySamples.{all_fail, once_more_job};
ghost use Rattle.jc_retries.specs.Retries.{CountsAtLast, creations_allowed, pods_failed};

/// A failure that counts goes on to count: once all requests of a plan are granted no fewer of the Job's pods have failed
/// than before, whether the status says it already or not.
pub fn plans_keep_failures()
    ensures { (job : Job) (basis : Basis) (made : ℕ) (now : List Pod) → SyncGranted basis job made now
        → pods_failed job (own_pods job basis.pods) ≤ pods_failed (job_left (planned basis) job) now }
{}

/// **How many pods a Job may still make is bounded where its pods fail too, and falls with each pod that is made**: where
/// the last of the ends is no failure that its policy ignores, a plan leaves, once all its requests are granted, at least
/// as many fewer to be made as it makes pods; and one that makes none leaves no more.
pub fn plans_use_up_retries()
    ensures { (ends : List End) (made : ℕ) (job : Job) (basis : Basis) (now : List Pod)
        → IsCounted job (own_pods job basis.pods) → CountsAtLast ends job.spec
        → (it : SyncGranted basis job made now) → Each (LooksNew job.spec.template) it.all.fresh
        → UsesUp creations_allowed ends made job basis now }
{}

/// Whatever the node does to one of the Job's pods, no more pods may be made afterwards than before: one that succeeds
/// takes a place along, and one that fails was one of the failures that were left, or of the ends that are ignored. A pod
/// without its finalizer counts for nothing, so it makes no difference where it goes.
pub fn the_node_uses_up_retries()
    ensures acts { (ends : List End) (made : ℕ) (job : Job) (front back : List Pod) (pod after : Pod)
        → IsCounted job (front ++ pod ∷ back) → NodeMakes ends pod after
        → creations_allowed ends made job (front ++ after ∷ back)
        ≤ creations_allowed ends made job (front ++ pod ∷ back) }
    ensures gone { (ends : List End) (made : ℕ) (job : Job) (front back : List Pod) (pod : Pod)
        → is_tracked pod ≡ false → creations_allowed ends made job (front ++ pod ∷ back)
        ≡ creations_allowed ends made job (front ++ back) }
{}

/// How many pods may still be made for a small Job of three completions, of which two may run at once, where one failure is
/// allowed and all pods fail. Six, before any is made: three, two for the failures that are left, and one for the end, which
/// might be ignored. Three, where two run, and so it is once one has failed; and none once both have. A third pod, that no
/// plan makes, leaves as many to be made, and so it is once it was let go: a machine that makes pods and lets them go in
/// turns lowers nothing, and would go on for ever.
pub fn retries_are_worked_out()
    ensures none { (job : Job) (pod : Pod) → creations_allowed all_fail 0 (once_more_job job) [] ≡ 6 }
    ensures two { (job : Job) (pod : Pod) → creations_allowed all_fail 2 (once_more_job job)
        (runs_as 0 None pod ∷ runs_as 1 None pod ∷ []) ≡ 3 }
    ensures failed { (job : Job) (pod : Pod) → creations_allowed all_fail 2 (once_more_job job)
        (with_phase Failed (runs_as 0 None pod) ∷ runs_as 1 None pod ∷ []) ≡ 3 }
    ensures surplus { (job : Job) (pod : Pod) → creations_allowed all_fail 3 (once_more_job job)
        (runs_as 0 None pod ∷ runs_as 1 None pod ∷ runs_as 2 None pod ∷ []) ≡ 3 }
    ensures let_go { (job : Job) (pod : Pod) → creations_allowed all_fail 3 (once_more_job job)
        (runs_as 0 None pod ∷ runs_as 1 None pod ∷ []) ≡ 3 }
    ensures spent { (job : Job) (pod : Pod) → creations_allowed all_fail 2 (once_more_job job)
        (with_phase Failed (runs_as 0 None pod) ∷ with_phase Failed (runs_as 1 None pod) ∷ []) ≡ 0 }
{}
