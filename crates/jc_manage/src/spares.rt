//! Whether a Job has pods of no use, or too many. None of these goes over the pods.

ghost use Rattle.std.specs.Prelude.{◌≡◌, ◌<◌, ◌^◌, [], All, false, length, nat_lt, unwrap_or};
ghost use Rattle.std.specs.List.{list_any};
ghost use Rattle.std.specs.Option.{option_map_or};
ghost use Rattle.jc_ranges.specs.Sets.{has};
ghost use Rattle.jc_types.specs.Counts.{counts as counts_of};
ghost use Rattle.jc_states.specs.Bases.{own_pods};
ghost use Rattle.jc_states.specs.Holders.{has_index_in};
ghost use Rattle.jc_states.specs.Pods.{tracked_active_pods};
ghost use Rattle.jc_states.specs.Tallies.{pods_for};
ghost use Rattle.jc_manage.specs.Creations.{is_done_index, job_wants};
ghost use Rattle.jc_manage.specs.LetGoes.{is_needless, is_spare, own_tracked, surplus};

use crate::creations::wanted_beside;
use jc_ranges::{Ranges, Run};
use jc_states::{Pods, count_tracked_active};
use jc_types::{CountIn, Job, Mode, Uid};

// Whether an active tracked pod of the owner has an index in one of the runs.
fn has_pod_in_run(owner: Uid, pods: &Pods, runs: &[Run]) -> bool
    ensures { result ≡ list_any (λ run. list_any (has_index_in run.first run.last)
        (tracked_active_pods (pods_for owner pods.now))) runs.now }
{
    runs.iter()
        .any(|run| pods.holds_between(owner, run.first, run.last))
}

// Whether an active tracked pod of the owner has one of the indexes.
fn has_one_of(owner: Uid, pods: &Pods, indexes: &Ranges) -> bool
    ensures { result
        ≡ list_any (λ pod. option_map_or (λ index. has index indexes.now) pod.index false)
        (tracked_active_pods (pods_for owner pods.now)) }
{
    has_pod_in_run(owner, pods, indexes.runs())
}

// Whether an active tracked pod of the owner has an index that is completed or has failed.
fn has_done(owner: Uid, pods: &Pods, counted: &CountIn) -> bool
    ensures { result
        ≡ list_any (λ pod. option_map_or (is_done_index counted.now) pod.index false)
        (tracked_active_pods (pods_for owner pods.now)) }
{
    has_one_of(owner, pods, &counted.completed) || has_one_of(owner, pods, &counted.failed_indexes)
}

// Whether an active tracked pod of the Job has an index of which none is of use.
fn has_needless(job: &Job, pods: &Pods, counted: &CountIn) -> bool
    ensures { result ≡ list_any (λ pod. option_map_or
        (is_needless (unwrap_or job.now.spec.completions 0) counted.now) pod.index false)
        (own_tracked job.now pods.now) }
{
    let completions = job.spec.completions.unwrap_or(0);
    has_done(job.uid, pods, counted) || pods.holds_from(job.uid, completions)
}

// Whether a pod of the Job may be spare.
fn may_be_spare(job: &Job, pods: &Pods, counted: &CountIn) -> bool
    ensures { result ≡ false → All (λ pod. is_spare job.now.spec.mode
        (is_needless (unwrap_or job.now.spec.completions 0) counted.now)
        (own_tracked job.now pods.now) pod ≡ false) (own_tracked job.now pods.now) }
{
    match job.spec.mode {
        Mode::NonIndexed => false,
        Mode::Indexed => pods.shares_index(job.uid) || has_needless(job, pods, counted),
    }
}

// Whether more pods are active and tracked than the Job should have.
fn are_too_many(job: &Job, pods: &Pods, counted: &CountIn) -> bool
    requires failed { (counts_of counted.now).0 < 2 ^ 64 }
    requires succeeded { (counts_of counted.now).1 < 2 ^ 64 }
    ensures { result ≡ nat_lt (job_wants job.now (own_pods job.now pods.now) counted.now)
        (length (own_tracked job.now pods.now)) }
{
    let active = count_tracked_active(job, pods) as u64;
    wanted_beside(job, counted, active) < active
}

// Whether an active tracked pod may be spare or too many. Almost always it is plain that none is.
pub(crate) fn may_go(job: &Job, pods: &Pods, counted: &CountIn) -> bool
    requires failed { (counts_of counted.now).0 < 2 ^ 64 }
    requires succeeded { (counts_of counted.now).1 < 2 ^ 64 }
    ensures { result ≡ false → surplus job.now.spec.mode
        (is_needless (unwrap_or job.now.spec.completions 0) counted.now)
        (job_wants job.now (own_pods job.now pods.now) counted.now)
        (own_tracked job.now pods.now) ≡ [] }
{
    are_too_many(job, pods, counted) || may_be_spare(job, pods, counted)
}
