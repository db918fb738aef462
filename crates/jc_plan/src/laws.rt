//! Laws on plans. Each function is empty: what it ensures holds of every basis, and its callers may cite
//! it.

ghost use Rattle.std.specs.Prelude.{◌≡◌, ◌≢◌, ◌↔◌, ◌+◌, ◌<◌, ◌≤◌, ◌&&◌, [], All, None, Option, Some, false, find, length, true};
ghost use Rattle.std.specs.List.{Contains, list_any};
ghost use Rattle.jc_types.specs.declared.limits.TheConstants.{GREATEST_PARALLELISM};
ghost use Rattle.jc_types.specs.declared.numbers.Uid.{Uid};
ghost use Rattle.jc_types.specs.declared.objects.Job.{Job};
ghost use Rattle.jc_types.specs.declared.objects.Pod.{Pod};
ghost use Rattle.jc_types.specs.declared.policies.Action.TheVariants.{FailJob};
ghost use Rattle.jc_types.specs.declared.policies.FailurePolicy.{FailurePolicy};
ghost use Rattle.jc_types.specs.declared.specifications.Replacement.TheVariants.{FailedOnly};
ghost use Rattle.jc_types.specs.declared.statuses.CondKind.{CondKind};
ghost use Rattle.jc_types.specs.declared.statuses.CondKind.TheVariants.{Suspended};
ghost use Rattle.jc_states.specs.declared.bases.Basis.{Basis};
ghost use Rattle.jc_types.specs.Keys.{same_uid};
ghost use Rattle.jc_states.specs.Bases.{own_pods};
ghost use Rattle.jc_states.specs.Conditions.{has_target, stands};
ghost use Rattle.jc_states.specs.PodLists.{IsRising};
ghost use Rattle.jc_states.specs.Pods.{active_pods, is_open, is_tracked};
ghost use Rattle.jc_states.specs.UidLists.{Ascends, is_in};
ghost use Rattle.jc_account.specs.Accounts.{counted_in};
ghost use Rattle.jc_account.specs.Judged.{fits, left_over};
ghost use Rattle.jc_failpol.specs.declared.outcomes.Outcome.TheVariants.{Failed};
ghost use Rattle.jc_failpol.specs.FailJob.{fails_job};
ghost use Rattle.jc_failpol.specs.Outcomes.{outcome_of};
ghost use Rattle.jc_failpol.specs.Rules.{action_of};
ghost use Rattle.jc_manage.specs.Creations.{IsIndexFor};
ghost use Rattle.jc_manage.specs.LetGoes.{seen_uids};
ghost use Rattle.jc_plan.specs.PodCounts.{created_for, running_of, stopping_of};
ghost use Rattle.jc_plan.specs.Finishes.{GainsEnd, HasFinished, IsFinalStatus, IsIdle, LeavesNoPod};
ghost use Rattle.jc_plan.specs.Next.{ListsNoSuccess, next_value};
ghost use Rattle.jc_plan.specs.Plans.{IsDated, WritesNothing, last_status, planned, planned_for};
ghost use Rattle.jc_plan.specs.PodNumbers.{stopped_by};
ghost use Rattle.jc_plan.specs.Releases.{ReleasedPod, is_released};
ghost use Rattle.jc_plan.specs.Statuses.{accounted, first_released, first_value, second_value, wants_in};

/// The first status counts in: its lists, totals and sets are those that the sync has counted.
pub fn first_status_counts_in()
    ensures failed_list { (job : Job) (basis : Basis)
        → (first_value job basis).uncounted_failed ≡ (counted_in job basis.pods).uncounted_failed }
    ensures succeeded_list { (job : Job) (basis : Basis)
        → (first_value job basis).uncounted_succeeded
        ≡ (counted_in job basis.pods).uncounted_succeeded }
    ensures failed { (job : Job) (basis : Basis)
        → (first_value job basis).failed ≡ (counted_in job basis.pods).failed }
    ensures succeeded { (job : Job) (basis : Basis)
        → (first_value job basis).succeeded ≡ (counted_in job basis.pods).succeeded }
    ensures completed { (job : Job) (basis : Basis)
        → (first_value job basis).completed ≡ (counted_in job basis.pods).completed }
    ensures failed_indexes { (job : Job) (basis : Basis)
        → (first_value job basis).failed_indexes ≡ (accounted job basis).failed_indexes }
    ensures index_failures { (job : Job) (basis : Basis)
        → (first_value job basis).index_failures ≡ (accounted job basis).index_failures }
{}

/// The second status counts out: its lists and totals are those of the first without the released pods,
/// so that its lists are empty; its sets are those of the first. Where no own pod is released both are
/// equal.
pub fn second_status_counts_out()
    ensures failed_list { (job : Job) (basis : Basis)
        → (second_value job basis).uncounted_failed ≡ (first_released job basis).uncounted_failed }
    ensures succeeded_list { (job : Job) (basis : Basis)
        → (second_value job basis).uncounted_succeeded
        ≡ (first_released job basis).uncounted_succeeded }
    ensures failed { (job : Job) (basis : Basis)
        → (second_value job basis).failed ≡ (first_released job basis).failed }
    ensures succeeded { (job : Job) (basis : Basis)
        → (second_value job basis).succeeded ≡ (first_released job basis).succeeded }
    ensures completed { (job : Job) (basis : Basis)
        → (second_value job basis).completed ≡ (counted_in job basis.pods).completed }
    ensures failed_indexes { (job : Job) (basis : Basis)
        → (second_value job basis).failed_indexes ≡ (accounted job basis).failed_indexes }
    ensures index_failures { (job : Job) (basis : Basis)
        → (second_value job basis).index_failures ≡ (accounted job basis).index_failures }
    ensures no_failed { (job : Job) (basis : Basis)
        → (second_value job basis).uncounted_failed ≡ [] }
    ensures no_succeeded { (job : Job) (basis : Basis)
        → (second_value job basis).uncounted_succeeded ≡ [] }
    ensures same { (job : Job) (basis : Basis) → (counted_in job basis.pods).releases ≡ []
        → second_value job basis ≡ first_value job basis }
{}

/// Where no first status is needed, the Job's own status is the first value, and the backoff stays.
pub fn unneeded_first_changes_nothing()
    ensures status { (job : Job) (basis : Basis)
        → basis.job ≡ Some job → (planned basis).first ≡ None
        → first_value job basis ≡ job.status }
    ensures backoff { (job : Job) (basis : Basis)
        → basis.job ≡ Some job → (planned basis).first ≡ None
        → (planned basis).backoff ≡ basis.backoff }
{}

/// The failures in a row rise by the pods at most, and where there are some the moment of the last of
/// them stays known.
pub fn failures_are_bounded()
    ensures few_failures { (basis : Basis)
        → (planned basis).backoff.failures ≤ basis.backoff.failures + length basis.pods }
    ensures dated { (basis : Basis) → IsDated basis.backoff → IsDated (planned basis).backoff }
{}

/// The pods that lose their finalizer: the tracked own ones that have ended or are listed, and orphans.
/// So all that the Job counts are among them, and where the pods ascend each is found by its UID, and is
/// counted by the Job or an orphan.
pub fn releases_are_of_pods()
    ensures member { (u : Uid) (basis : Basis)
        → is_in u (planned basis).releases
        ≡ list_any (λ pod. is_released basis pod && same_uid pod.uid u) basis.pods }
    ensures counted { (u : Uid) (job : Job) (basis : Basis) → basis.job ≡ Some job
        → is_in u (counted_in job basis.pods).releases ≡ true
        → is_in u (planned basis).releases ≡ true }
    ensures seen { (u : Uid) (basis : Basis)
        → IsRising basis.pods → is_in u (planned basis).releases ≡ true → ReleasedPod basis u }
{}

/// Where the pods of the basis stand in ascending UID, each is found by its UID, and so ascend the pods
/// that are marked, that are let go, and that lose their finalizer.
pub fn pods_ascend()
    ensures found { (basis : Basis) (pod : Pod) → IsRising basis.pods → Contains basis.pods pod
        → find (λ (p : Pod). same_uid p.uid pod.uid) basis.pods ≡ Some pod }
    ensures marks { (basis : Basis) → IsRising basis.pods → Ascends (planned basis).marks }
    ensures let_goes { (basis : Basis)
        → IsRising basis.pods → Ascends (seen_uids (planned basis).let_goes) }
    ensures releases { (basis : Basis) → IsRising basis.pods → Ascends (planned basis).releases }
{}

/// A tracked own pod for which the failure policy fails the Job brings a target: one that has failed, where
/// the policy's action for it is FailJob.
pub fn failed_jobs_get_a_target()
    ensures failing { (job : Job) (basis : Basis) (pod : Pod)
        → Contains (own_pods job basis.pods) pod → is_tracked pod ≡ true
        → fails_job job.spec pod ≡ true → has_target (first_value job basis).conditions ≡ true }
    ensures policy { (job : Job) (basis : Basis) (policy : FailurePolicy) (pod : Pod)
        → Contains (own_pods job basis.pods) pod → is_tracked pod ≡ true
        → outcome_of job.spec pod ≡ Failed → job.spec.failure ≡ Some policy
        → action_of policy pod ≡ FailJob → has_target (first_value job basis).conditions ≡ true }
{}

/// A target or an end that stood still stands in both statuses, and an end that is new in one of them
/// finds all own pods closed.
pub fn ends_are_final()
    ensures first_keeps { (job : Job) (basis : Basis) (kind : CondKind)
        → kind ≢ Suspended → stands kind job.status.conditions ≡ true
        → stands kind (first_value job basis).conditions ≡ true }
    ensures second_keeps { (job : Job) (basis : Basis) (kind : CondKind)
        → kind ≢ Suspended → stands kind job.status.conditions ≡ true
        → stands kind (second_value job basis).conditions ≡ true }
    ensures first_closed { (job : Job) (basis : Basis) → GainsEnd job (first_value job basis)
        → list_any is_open (own_pods job basis.pods) ≡ false }
    ensures second_closed { (job : Job) (basis : Basis) → GainsEnd job (second_value job basis)
        → list_any is_open (own_pods job basis.pods) ≡ false }
{}

/// An end follows a target, and finds nothing to do: a status in which it is new has a target, lists no UID
/// and tells of no pod, no pod is left over, and the plan makes none. Where it is new in the first status no own pod is to be
/// released, and the second status is the first.
pub fn ends_leave_nothing()
    ensures first_leaves_no_pod { (job : Job) (basis : Basis)
        → GainsEnd job (first_value job basis) → LeavesNoPod job basis }
    ensures first_is_final { (job : Job) (basis : Basis)
        → GainsEnd job (first_value job basis) → IsFinalStatus (first_value job basis) }
    ensures first_released { (job : Job) (basis : Basis)
        → GainsEnd job (first_value job basis) → (counted_in job basis.pods).releases ≡ [] }
    ensures first_same { (job : Job) (basis : Basis)
        → GainsEnd job (first_value job basis) → second_value job basis ≡ first_value job basis }
    ensures second_leaves_no_pod { (job : Job) (basis : Basis)
        → GainsEnd job (second_value job basis) → LeavesNoPod job basis }
    ensures second_is_final { (job : Job) (basis : Basis)
        → GainsEnd job (second_value job basis) → IsFinalStatus (second_value job basis) }
{}

/// Over a Job that has ended, with nothing listed, no pod told of, and all own pods closed and released, a
/// plan asks for nothing and writes nothing.
pub fn ended_jobs_are_left_alone()
    ensures { (job : Job) (basis : Basis)
        → basis.job ≡ Some job → HasFinished job basis → IsIdle basis }
{}

/// The status that a sync leaves where all its requests are made: the second where it is written, else
/// the first where it is written, and else that of the Job. It is the second value, and so the next
/// status of the Job where the pods stand in ascending UID and of an Indexed Job no success is listed.
/// Nothing is written exactly where the Job has its next status already.
pub fn last_status_is_next()
    ensures last { (job : Job) (basis : Basis) → basis.job ≡ Some job
        → last_status (planned basis) job.status ≡ second_value job basis }
    ensures next { (job : Job) (basis : Basis) → IsRising basis.pods → ListsNoSuccess job
        → second_value job basis ≡ next_value job basis }
    ensures unwritten { (job : Job) (basis : Basis)
        → basis.job ≡ Some job → IsRising basis.pods → ListsNoSuccess job
        → WritesNothing (planned basis) ↔ (next_value job basis ≡ job.status) }
{}

/// A plan is that for the Job of its basis, or for none. It marks and lets go no more pods than are active,
/// so the numbers of its statuses are exact, and makes at most as many as one Job may run at once.
pub fn plans_are_of_their_job()
    ensures parts { (basis : Basis) (job : Option Job)
        → basis.job ≡ job → planned_for basis job ≡ planned basis }
    ensures going { (job : Job) (basis : Basis)
        → stopped_by (wants_in job basis) ≤ length (active_pods (own_pods job basis.pods)) }
    ensures created { (job : Job) (basis : Basis) → job.spec.parallelism ≤ GREATEST_PARALLELISM
        → created_for job basis ≤ GREATEST_PARALLELISM }
{}

/// Creations fit: where a plan makes pods, those are with the active tracked ones of the Job no more than may
/// run at once; also with those that are ending, where pods are replaced only once they have ended. Each
/// new pod of an Indexed Job has an index below its completions.
pub fn creations_fit()
    ensures fit { (job : Job) (basis : Basis) → 0 < created_for job basis
        → created_for job basis + running_of job basis ≤ job.spec.parallelism }
    ensures fit_ending { (job : Job) (basis : Basis)
        → 0 < created_for job basis → job.spec.replacement ≡ FailedOnly
        → created_for job basis + running_of job basis + stopping_of job basis
        ≤ job.spec.parallelism }
    ensures numbered { (job : Job) (basis : Basis)
        → All (IsIndexFor job) (wants_in job basis).creates }
{}

/// A plan that writes no status leaves no pod over for a later sync: there is room for each, since the
/// lists of its Job are empty before and after it.
pub fn plans_without_writes_leave_nothing()
    ensures fits { (job : Job) (basis : Basis)
        → basis.job ≡ Some job → IsRising basis.pods → WritesNothing (planned basis)
        → (pod : Pod) → fits job (own_pods job basis.pods) pod ≡ true }
    ensures none { (job : Job) (basis : Basis)
        → basis.job ≡ Some job → IsRising basis.pods → WritesNothing (planned basis)
        → left_over job (own_pods job basis.pods) ≡ [] }
{}
