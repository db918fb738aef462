//! Laws on what a sync wants. Each function is empty: what it ensures holds of every Job and its pods,
//! and its callers may cite it.

ghost use Rattle.std.specs.Prelude.{◌≡◌, ◌≢◌, ◌⊎◌, ◌+◌, ◌-◌, ◌<◌, ◌≤◌, ℕ, All, AllPairs, Bool, IsSome, List, None, Option, Some, false, length};
ghost use Rattle.jc_types.specs.declared.objects.Job.{Job};
ghost use Rattle.jc_types.specs.declared.objects.Pod.{Pod};
ghost use Rattle.jc_types.specs.declared.specifications.Replacement.TheVariants.{FailedOnly};
ghost use Rattle.jc_types.specs.declared.syncs.Backoff.{Backoff};
ghost use Rattle.jc_types.specs.declared.syncs.CountIn.{CountIn};
ghost use Rattle.jc_states.specs.PodLists.{IsRising};
ghost use Rattle.jc_states.specs.Pods.{ending_pods, tracked_active_pods};
ghost use Rattle.jc_states.specs.UidLists.{Ascends, is_in};
ghost use Rattle.jc_manage.specs.Backoffs.{backoff_after};
ghost use Rattle.jc_manage.specs.Creations.{creatable, creates, free, holds, is_done_index, IsIndexFor, job_lacks, job_wants, wanted};
ghost use Rattle.jc_manage.specs.LetGoes.{let_goes, marks, seen_uids};
ghost use Rattle.jc_manage.specs.SeenPods.{IsSeen};

/// No more pods are made than are lacking: so at most as many as are wanted less those that are active
/// and tracked, and where pods are replaced only once they have ended less those that are ending, too.
/// With completions no more pods are wanted than may run at once; without, as many as may run at once or
/// as many as there are. So where pods are made, those that are made and those that are active and
/// tracked are together no more than may run at once; also with those that are ending, where pods are
/// replaced only once they have ended.
pub fn creations_stay_within_bounds()
    ensures lacking { (target : Bool) (job : Job) (own : List Pod) (counted : CountIn)
        → length (creatable target job own counted) ≤ job_lacks job own counted }
    ensures held { (opening : Option ℕ) (now : ℕ) (made : List (Option ℕ))
        → length (creates opening now made) ≤ length made }
    ensures active { (job : Job) (own : List Pod) (counted : CountIn)
        → job_lacks job own counted
        ≤ job_wants job own counted - length (tracked_active_pods own) }
    ensures ending { (job : Job) (own : List Pod) (counted : CountIn)
        → job.spec.replacement ≡ FailedOnly → job_lacks job own counted
        ≡ job_wants job own counted - length (tracked_active_pods own) - length (ending_pods own) }
    ensures completions { (parallelism completions succeeded failed a : ℕ)
        → wanted parallelism (Some completions) succeeded failed a ≤ parallelism }
    ensures queue { (parallelism succeeded failed a : ℕ)
        → (wanted parallelism None succeeded failed a ≡ parallelism)
        ⊎ (wanted parallelism None succeeded failed a ≡ a) }
    ensures fit { (target : Bool) (job : Job) (own : List Pod) (counted : CountIn)
        → 0 < length (creatable target job own counted)
        → length (creatable target job own counted) + length (tracked_active_pods own)
        ≤ job.spec.parallelism }
    ensures fit_ending { (target : Bool) (job : Job) (own : List Pod) (counted : CountIn)
        → job.spec.replacement ≡ FailedOnly → 0 < length (creatable target job own counted)
        → length (creatable target job own counted) + length (tracked_active_pods own)
        + length (ending_pods own) ≤ job.spec.parallelism }
{}

/// A pod that an Indexed Job makes has an index below its completions.
pub fn creations_are_numbered()
    ensures creatable { (target : Bool) (job : Job) (own : List Pod) (counted : CountIn)
        → All (IsIndexFor job) (creatable target job own counted) }
    ensures held { (job : Job) (opening : Option ℕ) (now : ℕ) (made : List (Option ℕ))
        → All (IsIndexFor job) made → All (IsIndexFor job) (creates opening now made) }
{}

/// An index that is free is neither completed nor has it failed, and no pod keeps it.
pub fn free_indexes_are_free()
    ensures settled { (completions : ℕ) (counted : CountIn) (kept : List Pod)
        → All (λ n. is_done_index counted n ≡ false) (free completions counted kept) }
    ensures kept { (completions : ℕ) (counted : CountIn) (kept : List Pod)
        → All (λ n. holds kept n ≡ false) (free completions counted kept) }
{}

/// The pods that are let go are active tracked ones of the Job, at their versions, and none of them is
/// marked at once.
pub fn pods_go_one_way()
    ensures seen { (target : Bool) (job : Job) (own : List Pod) (counted : CountIn)
        → All (λ row. IsSeen own row) (let_goes target job own counted) }
    ensures apart { (target : Bool) (job : Job) (own : List Pod) (counted : CountIn)
        → AllPairs (λ pod other. pod.uid ≢ other.uid) own
        → All (λ row. is_in row.0 (marks target own) ≡ false) (let_goes target job own counted) }
{}

/// The pods that are marked and those that are let go stand in the order of the Job's pods: where the
/// UIDs of these ascend, so do theirs.
pub fn pods_go_in_order()
    ensures marks { (target : Bool) (own : List Pod) → IsRising own → Ascends (marks target own) }
    ensures let_goes { (target : Bool) (job : Job) (own : List Pod) (counted : CountIn)
        → IsRising own → Ascends (seen_uids (let_goes target job own counted)) }
{}

/// The failures in a row rise by the new ones at most, and where there are failures there is the moment
/// of the last of them. Without a new one and without a success the backoff stays as it is.
pub fn failures_are_bounded()
    ensures failures { (backoff : Backoff) (counted : CountIn) (now : ℕ)
        → (backoff_after backoff counted now).failures ≤ backoff.failures + counted.new_failed }
    ensures last { (backoff : Backoff) (counted : CountIn) (now : ℕ)
        → (0 < backoff.failures → IsSome backoff.last)
        → 0 < (backoff_after backoff counted now).failures
        → IsSome (backoff_after backoff counted now).last }
    ensures left { (backoff : Backoff) (counted : CountIn) (now : ℕ)
        → counted.new_failed ≡ 0 → counted.new_succeeded ≡ 0
        → backoff_after backoff counted now ≡ backoff }
{}
