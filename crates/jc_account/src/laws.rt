//! Laws on what is counted. Each function is empty: what it ensures holds of every Job and all pods, and
//! its callers may cite it. `own` are the Job's own pods among those that a sync sees.

ghost use Rattle.std.specs.Prelude.{◌≡◌, ◌+◌, ◌<◌, ◌≤◌, ◌&&◌, ◌||◌, [], All, List, ℕ, false, filter, length, not, true, unwrap_or};
ghost use Rattle.std.specs.List.{list_any};
ghost use Rattle.jc_ranges.specs.Sets.{has};
ghost use Rattle.jc_types.specs.declared.limits.TheConstants.{MOST_UNCOUNTED};
ghost use Rattle.jc_types.specs.declared.numbers.Uid.{Uid};
ghost use Rattle.jc_types.specs.declared.objects.Job.{Job};
ghost use Rattle.jc_types.specs.declared.objects.Pod.{Pod};
ghost use Rattle.jc_types.specs.declared.specifications.Mode.TheVariants.{Indexed, NonIndexed};
ghost use Rattle.jc_types.specs.declared.statuses.JobStatus.{JobStatus};
ghost use Rattle.jc_states.specs.Bases.{own_pods};
ghost use Rattle.jc_states.specs.Conditions.{has_end};
ghost use Rattle.jc_types.specs.Keys.{same_uid};
ghost use Rattle.jc_states.specs.PodLists.{IsRising};
ghost use Rattle.jc_states.specs.UidLists.{Ascends, is_in, uids_of};
ghost use Rattle.jc_failpol.specs.declared.outcomes.Outcome.{Outcome};
ghost use Rattle.jc_failpol.specs.declared.outcomes.Outcome.TheVariants.{Failed, Succeeded};
ghost use Rattle.jc_account.specs.Accounts.{HasListsApart, SameButCounts, counted_in, counted_out, is_completed_now, is_stayed, left, new_uids, stays_completed};
ghost use Rattle.jc_states.specs.Listed.{is_listed};
ghost use Rattle.jc_account.specs.Judged.{fits, has_come_to, has_tracked, has_verdict, is_to_release, judged_now, left_over, left_with};
ghost use Rattle.jc_account.specs.Judged.{newly, room, stayed, staying};
ghost use Rattle.jc_account.specs.Rooms.{takes_room};
ghost use Rattle.jc_failpol.specs.Outcomes.{is_verdict};
ghost use Rattle.jc_account.specs.Modes.{gained};

/// The newly judged pods: a UID is among them exactly where a tracked own pod that has succeeded or
/// failed has it, it is not listed and there is room for the pod; where there is none the pod is left
/// over. Those of one outcome are those of them that have this outcome, and their UIDs ascend where the
/// pods do. Of those that are to be judged as many are judged as there is room for, if so many there are.
/// The pods that stay are those that are listed and tracked, as many as UIDs that stay in the two lists.
pub fn newly_judged_are_filters()
    ensures judged { (u : Uid) (job : Job) (own : List Pod)
        → is_in u (uids_of (judged_now job own))
        ≡ (not (is_listed job.status u)
        && list_any (λ pod. (has_verdict job pod && fits job own pod) && same_uid pod.uid u) own) }
    ensures left { (u : Uid) (job : Job) (own : List Pod)
        → is_in u (uids_of (left_over job own))
        ≡ (not (is_listed job.status u)
        && list_any (λ pod. (has_verdict job pod && not (fits job own pod)) && same_uid pod.uid u) own) }
    ensures member { (u : Uid) (job : Job) (own : List Pod) (outcome : Outcome)
        → is_verdict outcome ≡ true → is_in u (uids_of (newly job own outcome))
        ≡ (not (is_listed job.status u)
        && list_any (λ pod. (has_come_to job outcome pod && fits job own pod) && same_uid pod.uid u)
        own) }
    ensures none { (job : Job) (own : List Pod) (outcome : Outcome)
        → is_verdict outcome ≡ false → newly job own outcome ≡ [] }
    ensures order { (job : Job) (pods : List Pod) (outcome : Outcome)
        → IsRising pods → Ascends (new_uids job pods outcome) }
    ensures few_judged { (job : Job) (pods : List Pod) → IsRising pods
        → length (filter (takes_room job.spec) (judged_now job (own_pods job pods)))
        ≤ room job (own_pods job pods) }
    ensures staying { (u : Uid) (job : Job) (own : List Pod)
        → is_in u (uids_of (staying job own)) ≡ (is_listed job.status u && has_tracked own u) }
    ensures staying_length { (job : Job) (pods : List Pod)
        → IsRising pods → HasListsApart job
        → length (staying job (own_pods job pods))
        ≡ length (stayed (own_pods job pods) job.status.uncounted_succeeded)
        + length (stayed (own_pods job pods) job.status.uncounted_failed) }
{}

/// The two lists afterwards: what stays and what is newly judged, and nothing else. A success of an
/// Indexed Job joins no list. Together they hold at most as many as they may, if they did before.
pub fn lists_are_counted_in()
    ensures failed { (u : Uid) (job : Job) (pods : List Pod)
        → is_in u (counted_in job pods).uncounted_failed
        ≡ (is_stayed job pods job.status.uncounted_failed u || is_in u (new_uids job pods Failed)) }
    ensures succeeded { (u : Uid) (job : Job) (pods : List Pod) → job.spec.mode ≡ NonIndexed
        → is_in u (counted_in job pods).uncounted_succeeded
        ≡ (is_stayed job pods job.status.uncounted_succeeded u
        || is_in u (new_uids job pods Succeeded)) }
    ensures indexed { (job : Job) (pods : List Pod) → job.spec.mode ≡ Indexed
        → (counted_in job pods).uncounted_succeeded
        ≡ stayed (own_pods job pods) job.status.uncounted_succeeded }
    ensures empty { (job : Job) (pods : List Pod) → job.spec.mode ≡ Indexed
        → job.status.uncounted_succeeded ≡ [] → (counted_in job pods).uncounted_succeeded ≡ [] }
    ensures failed_order { (job : Job) (pods : List Pod)
        → Ascends job.status.uncounted_failed → Ascends (counted_in job pods).uncounted_failed }
    ensures succeeded_order { (job : Job) (pods : List Pod)
        → Ascends job.status.uncounted_succeeded
        → Ascends (counted_in job pods).uncounted_succeeded }
    ensures failed_length { (job : Job) (pods : List Pod) → IsRising pods
        → length (counted_in job pods).uncounted_failed
        ≡ length (stayed (own_pods job pods) job.status.uncounted_failed)
        + length (newly job (own_pods job pods) Failed) }
    ensures succeeded_length { (job : Job) (pods : List Pod)
        → job.spec.mode ≡ NonIndexed → IsRising pods
        → length (counted_in job pods).uncounted_succeeded
        ≡ length (stayed (own_pods job pods) job.status.uncounted_succeeded)
        + length (newly job (own_pods job pods) Succeeded) }
    ensures apart { (u : Uid) (job : Job) (pods : List Pod) → IsRising pods
        → (is_in u job.status.uncounted_succeeded && is_in u job.status.uncounted_failed) ≡ false
        → (is_in u (counted_in job pods).uncounted_succeeded
        && is_in u (counted_in job pods).uncounted_failed) ≡ false }
    ensures few_listed { (job : Job) (pods : List Pod) → IsRising pods → HasListsApart job
        → length job.status.uncounted_succeeded + length job.status.uncounted_failed
        ≤ MOST_UNCOUNTED
        → length (counted_in job pods).uncounted_succeeded
        + length (counted_in job pods).uncounted_failed ≤ MOST_UNCOUNTED }
{}

/// The totals afterwards: each is raised by those that left its list, so that total and list together
/// rise by those that are newly judged. The succeeded total of an Indexed Job is the size of its set.
/// What is left over is counted beside them; of an Indexed Job no success is.
pub fn totals_are_counted_in()
    ensures stay_or_leave { (own : List Pod) (uids : List Uid)
        → length (stayed own uids) + left own uids ≡ length uids }
    ensures failed { (job : Job) (pods : List Pod)
        → (counted_in job pods).failed
        ≡ job.status.failed + left (own_pods job pods) job.status.uncounted_failed }
    ensures succeeded { (job : Job) (pods : List Pod) → job.spec.mode ≡ NonIndexed
        → (counted_in job pods).succeeded
        ≡ job.status.succeeded + left (own_pods job pods) job.status.uncounted_succeeded }
    ensures indexed { (job : Job) (pods : List Pod) → job.spec.mode ≡ Indexed
        → (counted_in job pods).succeeded ≡ length (counted_in job pods).completed }
    ensures failed_sum { (job : Job) (pods : List Pod) → IsRising pods
        → (counted_in job pods).failed + length (counted_in job pods).uncounted_failed
        ≡ job.status.failed + length job.status.uncounted_failed
        + length (newly job (own_pods job pods) Failed) }
    ensures succeeded_sum { (job : Job) (pods : List Pod)
        → job.spec.mode ≡ NonIndexed → IsRising pods
        → (counted_in job pods).succeeded + length (counted_in job pods).uncounted_succeeded
        ≡ job.status.succeeded + length job.status.uncounted_succeeded
        + length (newly job (own_pods job pods) Succeeded) }
    ensures new_failed { (job : Job) (pods : List Pod)
        → (counted_in job pods).new_failed ≡ length (newly job (own_pods job pods) Failed) }
    ensures new_succeeded { (job : Job) (pods : List Pod) → job.spec.mode ≡ NonIndexed
        → (counted_in job pods).new_succeeded ≡ length (newly job (own_pods job pods) Succeeded) }
    ensures new_indexes { (job : Job) (pods : List Pod) → job.spec.mode ≡ Indexed
        → (counted_in job pods).new_succeeded
        ≡ gained job.status.completed (counted_in job pods).completed }
    ensures judged_failed { (job : Job) (pods : List Pod)
        → (counted_in job pods).judged_failed ≡ new_uids job pods Failed }
    ensures few_failed { (job : Job) (pods : List Pod)
        → (counted_in job pods).new_failed ≤ length pods }
    ensures left_failed { (job : Job) (pods : List Pod)
        → (counted_in job pods).left_failed ≡ length (left_with job (own_pods job pods) Failed) }
    ensures left_succeeded { (job : Job) (pods : List Pod)
        → (counted_in job pods).left_succeeded
        ≡ length (left_with job (own_pods job pods) Succeeded) }
    ensures left_indexed { (job : Job) (pods : List Pod)
        → job.spec.mode ≡ Indexed → (counted_in job pods).left_succeeded ≡ 0 }
{}

/// The completed indexes afterwards: those of an Indexed Job that stay, with the indexes below its
/// completions of its newly judged successes. Where the Job has not ended, those stay that are below its
/// completions. The set of a Job that is not Indexed stays as it is.
pub fn indexes_are_counted_in()
    ensures indexed { (n : ℕ) (job : Job) (pods : List Pod) → job.spec.mode ≡ Indexed
        → has n (counted_in job pods).completed
        ≡ (stays_completed job n || is_completed_now job pods n) }
    ensures below { (job : Job) (pods : List Pod) → job.spec.mode ≡ Indexed
        → has_end job.status.conditions ≡ false
        → All (λ n. n < unwrap_or job.spec.completions 0) (counted_in job pods).completed }
    ensures plain { (job : Job) (pods : List Pod) → job.spec.mode ≡ NonIndexed
        → (counted_in job pods).completed ≡ job.status.completed }
{}

/// The pods to release: the tracked own pods that are listed, or have ended and are not left over. Their
/// UIDs ascend where the pods do, and each UID that is listed afterwards is among them.
pub fn releases_hold_the_lists()
    ensures member { (u : Uid) (job : Job) (pods : List Pod)
        → is_in u (counted_in job pods).releases
        ≡ list_any (λ pod. is_to_release job (own_pods job pods) pod && same_uid pod.uid u)
        (own_pods job pods) }
    ensures order { (job : Job) (pods : List Pod)
        → IsRising pods → Ascends (counted_in job pods).releases }
    ensures failed { (u : Uid) (job : Job) (pods : List Pod)
        → is_in u (counted_in job pods).uncounted_failed ≡ true
        → is_in u (counted_in job pods).releases ≡ true }
    ensures succeeded { (u : Uid) (job : Job) (pods : List Pod)
        → is_in u (counted_in job pods).uncounted_succeeded ≡ true
        → is_in u (counted_in job pods).releases ≡ true }
{}

/// What is counted out: the released UIDs leave their lists and raise their totals, and nothing else
/// changes. A total and its list together stay the same.
pub fn totals_are_counted_out()
    ensures failed { (u : Uid) (status : JobStatus) (released : List Uid)
        → is_in u (counted_out status released).uncounted_failed
        ≡ (is_in u status.uncounted_failed && not (is_in u released)) }
    ensures succeeded { (u : Uid) (status : JobStatus) (released : List Uid)
        → is_in u (counted_out status released).uncounted_succeeded
        ≡ (is_in u status.uncounted_succeeded && not (is_in u released)) }
    ensures failed_order { (status : JobStatus) (released : List Uid)
        → Ascends status.uncounted_failed → Ascends (counted_out status released).uncounted_failed }
    ensures succeeded_order { (status : JobStatus) (released : List Uid)
        → Ascends status.uncounted_succeeded
        → Ascends (counted_out status released).uncounted_succeeded }
    ensures failed_sum { (status : JobStatus) (released : List Uid)
        → (counted_out status released).failed
        + length (counted_out status released).uncounted_failed
        ≡ status.failed + length status.uncounted_failed }
    ensures succeeded_sum { (status : JobStatus) (released : List Uid)
        → (counted_out status released).succeeded
        + length (counted_out status released).uncounted_succeeded
        ≡ status.succeeded + length status.uncounted_succeeded }
    ensures others { (status : JobStatus) (released : List Uid)
        → SameButCounts status (counted_out status released) }
{}

/// Once all that are to be released are, what was counted in is counted out: a list that was counted in
/// is empty, and its total has risen by its length.
pub fn released_lists_end_empty()
    ensures failed_list { (job : Job) (pods : List Pod) (status : JobStatus)
        → status.uncounted_failed ≡ (counted_in job pods).uncounted_failed
        → (counted_out status (counted_in job pods).releases).uncounted_failed ≡ [] }
    ensures succeeded_list { (job : Job) (pods : List Pod) (status : JobStatus)
        → status.uncounted_succeeded ≡ (counted_in job pods).uncounted_succeeded
        → (counted_out status (counted_in job pods).releases).uncounted_succeeded ≡ [] }
    ensures failed { (job : Job) (pods : List Pod) (status : JobStatus)
        → status.uncounted_failed ≡ (counted_in job pods).uncounted_failed
        → (counted_out status (counted_in job pods).releases).failed
        ≡ status.failed + length status.uncounted_failed }
    ensures succeeded { (job : Job) (pods : List Pod) (status : JobStatus)
        → status.uncounted_succeeded ≡ (counted_in job pods).uncounted_succeeded
        → (counted_out status (counted_in job pods).releases).succeeded
        ≡ status.succeeded + length status.uncounted_succeeded }
{}
