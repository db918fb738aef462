//! Which pods a Job stops.

ghost use Rattle.std.specs.Prelude.{◌≡◌, ◌<◌, ◌^◌, ◌&&◌, ◌||◌, ℕ, [], IfOk, OnOk, false, map, nat_eq, unwrap_or};
ghost use Rattle.std.specs.Option.{option_map_or};
ghost use Rattle.std.specs.HashMap.{get};
ghost use Rattle.jc_types.specs.declared.specifications.Mode.TheVariants.{Indexed};
ghost use Rattle.jc_states.specs.Bases.{is_own, own_pods};
ghost use Rattle.jc_types.specs.Counts.{counts as counts_of};
ghost use Rattle.jc_states.specs.Pods.{is_tracked_active};
ghost use Rattle.jc_manage.specs.Creations.{job_wants};
ghost use Rattle.jc_manage.specs.LetGoes.{is_earlier, is_needless, is_to_mark, let_goes, marks, own_tracked, seen, surplus};
ghost use Rattle.jc_manage.specs.Ranks.{AreOldest, goes_by, gone_by, has_older, is_spare_by, ranks_in};

use crate::creations::{is_done_index, job_wants};
use crate::lists::list_of;
use crate::ranks::{Rank, is_below, least_to_go, rank_of};
use crate::spares::may_go;
use jc_states::{Pods, is_active, is_own, is_tracked_active};
use jc_types::{Arc, CountIn, Job, JobSpec, Mode, Pod, PodVersions, Uid, Uids, Version, Want};
use std::alloc::Global;
use std::collections::HashMap;

// Whether the pod is marked at once.
fn is_to_mark(target: bool, pod: &Pod) -> bool
    ensures { result ≡ is_to_mark target pod.now }
{
    is_active(pod) && (target || !pod.tracked)
}

// The UIDs of the Job's own pods that are marked at once.
fn marked(alloc: Global, target: bool, job: &Job, pods: &[Arc<Pod>]) -> Result<Vec<Uid>, Want>
    ensures { IfOk result (λ uids. uids.items ≡ marks target (own_pods job.now pods.now)) }
{
    pods.iter()
        .filter(|pod| is_own(job, pod))
        .filter(|pod| is_to_mark(target, pod))
        .map(|pod| pod.uid)
        .collect(alloc)
}

// Whether one of the Job's own pods is active without the finalizer. It goes over no pod.
fn has_stray(job: &Job, pods: &Pods) -> bool
    ensures { result ≡ false → marks false (own_pods job.now pods.now) ≡ [] }
{
    let tally = pods.tally(job.uid);
    tally.active_tracked < tally.active
}

// The UIDs of the Job's own pods that are marked for deletion at once: the active ones without the
// finalizer, and all active ones where the Job's end is decided.
//
// # Errors
// `Want` where there is no memory for them.
pub(crate) fn marks(alloc: Global, target: bool, job: &Job, pods: &Pods) -> Result<Uids, Want>
    ensures { IfOk result (λ uids. uids ≡ marks target (own_pods job.now pods.now)) }
{
    if target {
        let uids = marked(alloc, target, job, pods.as_slice())?;
        return list_of(alloc, uids.as_slice());
    }
    if !has_stray(job, pods) {
        return Ok(Uids::new(alloc));
    }
    // An active pod without the finalizer is to look at.
    let noted = pods.to_look_at(job.uid, &[], &[])?;
    let uids = marked(alloc, target, job, noted.as_slice())?;
    list_of(alloc, uids.as_slice())
}

// Takes the pod for the holder of its index, where it has one and no pod of smaller UID holds it.
fn claim(holders: &mut HashMap<u32, Uid>, pod: &Pod) -> Result<(), Want>
    ensures { OnOk result ((index uid : ℕ)
        → has_older (get nat_eq holders.new index) uid
        ≡ (is_earlier index uid pod.now || has_older (get nat_eq holders.old index) uid)) }
{
    let Some(index) = pod.index else {
        return Ok(());
    };
    let oldest = match holders.get(&index) {
        Some(holder) if *holder < pod.uid => *holder,
        _ => pod.uid,
    };
    holders.insert(index, oldest)?;
    Ok(())
}

// Takes the pod for the holder of its index, where the pod is the Job's own, active and tracked.
fn claim_own(holders: &mut HashMap<u32, Uid>, job: &Job, pod: &Pod) -> Result<(), Want>
    ensures { OnOk result ((index uid : ℕ)
        → has_older (get nat_eq holders.new index) uid
        ≡ ((is_own job.now pod.now && (is_tracked_active pod.now && is_earlier index uid pod.now))
        || has_older (get nat_eq holders.old index) uid)) }
{
    if !(is_own(job, pod) && is_tracked_active(pod)) {
        return Ok(());
    }
    claim(holders, pod)
}

// Of each index the active tracked pod of smallest UID that holds it.
fn oldest_holders(alloc: Global, job: &Job, pods: &[Arc<Pod>]) -> Result<HashMap<u32, Uid>, Want>
    ensures { IfOk result (λ holders.
        AreOldest (own_tracked job.now pods.now) (λ index. get nat_eq holders index)) }
{
    let mut holders = HashMap::new(alloc);
    for pod in pods {
        claim_own(&mut holders, job, pod)?;
    }
    Ok(holders)
}

// Of each index of an Indexed Job the active tracked pod of smallest UID that holds it.
fn holders_of(alloc: Global, job: &Job, pods: &[Arc<Pod>]) -> Result<HashMap<u32, Uid>, Want>
    ensures { IfOk result (λ holders. job.now.spec.mode ≡ Indexed
        → AreOldest (own_tracked job.now pods.now) (λ index. get nat_eq holders index)) }
{
    match job.spec.mode {
        Mode::NonIndexed => Ok(HashMap::new(alloc)),
        Mode::Indexed => oldest_holders(alloc, job, pods),
    }
}

// Whether a pod of smaller UID holds the index of the pod.
fn is_doubled(holders: &HashMap<u32, Uid>, pod: &Pod) -> bool
    ensures { result ≡ option_map_or
        (λ index. has_older (get nat_eq holders.now index) pod.now.uid.0) pod.now.index false }
{
    let Some(index) = pod.index else {
        return false;
    };
    match holders.get(&index) {
        None => false,
        Some(holder) => *holder < pod.uid,
    }
}

// Whether no pod of the index is of use, where so many completions are wanted.
fn is_needless(completions: u32, counted: &CountIn, index: u32) -> bool
    ensures { result ≡ is_needless completions counted.now index }
{
    is_done_index(counted, index) || completions <= index
}

// Whether the pod has an index of which none is of use.
fn has_needless_index(completions: u32, counted: &CountIn, pod: &Pod) -> bool
    ensures { result ≡ option_map_or (is_needless completions counted.now) pod.now.index false }
{
    match pod.index {
        None => false,
        Some(index) => is_needless(completions, counted, index),
    }
}

// Whether the pod is spare, where these are the oldest holders of the indexes.
fn is_spare(spec: &JobSpec, counted: &CountIn, holders: &HashMap<u32, Uid>, pod: &Pod) -> bool
    ensures { result ≡ is_spare_by spec.now.mode
        (is_needless (unwrap_or spec.now.completions 0) counted.now)
        (λ index. get nat_eq holders.now index) pod.now }
{
    match spec.mode {
        Mode::NonIndexed => false,
        Mode::Indexed => {
            has_needless_index(spec.completions.unwrap_or(0), counted, pod)
                || is_doubled(holders, pod)
        }
    }
}

// The ranks of the active tracked pods that are not spare.
fn ranks_of(
    alloc: Global,
    job: &Job,
    pods: &[Arc<Pod>],
    counted: &CountIn,
    holders: &HashMap<u32, Uid>,
) -> Result<Vec<Rank>, Want>
    ensures { IfOk result (λ ranks. ranks.items
        ≡ ranks_in job.now.spec.mode
        (is_needless (unwrap_or job.now.spec.completions 0) counted.now)
        (λ index. get nat_eq holders.now index) (own_tracked job.now pods.now)) }
{
    let mode = job.spec.mode;
    pods.iter()
        .filter(|pod| is_own(job, pod))
        .filter(|pod| is_tracked_active(pod))
        .filter(|pod| !is_spare(&job.spec, counted, holders, pod))
        .map(|pod| rank_of(mode, pod))
        .collect(alloc)
}

// Whether the pod goes, where these are the oldest holders of the indexes and the least rank that goes.
fn goes(
    spec: &JobSpec,
    counted: &CountIn,
    holders: &HashMap<u32, Uid>,
    least: Option<Rank>,
    pod: &Pod,
) -> bool
    ensures { result ≡ goes_by spec.now.mode
        (is_needless (unwrap_or spec.now.completions 0) counted.now)
        (λ index. get nat_eq holders.now index) least pod.now }
{
    if is_spare(spec, counted, holders, pod) {
        return true;
    }
    match least {
        None => false,
        Some(least) => !is_below(rank_of(spec.mode, pod), least),
    }
}

// The pod with the version at which it was seen.
fn seen(pod: &Pod) -> (Uid, Version)
    ensures { result ≡ seen pod.now }
{
    (pod.uid, pod.version)
}

// The active tracked pods that go, where these are the oldest holders and the least rank that goes.
fn going(
    alloc: Global,
    job: &Job,
    pods: &[Arc<Pod>],
    counted: &CountIn,
    holders: &HashMap<u32, Uid>,
    least: Option<Rank>,
) -> Result<Vec<(Uid, Version)>, Want>
    ensures { IfOk result (λ going. going.items
        ≡ gone_by job.now.spec.mode
        (is_needless (unwrap_or job.now.spec.completions 0) counted.now)
        (λ index. get nat_eq holders.now index) least (own_tracked job.now pods.now)) }
{
    pods.iter()
        .filter(|pod| is_own(job, pod))
        .filter(|pod| is_tracked_active(pod))
        .filter(|pod| goes(&job.spec, counted, holders, least, pod))
        .map(|pod| seen(pod))
        .collect(alloc)
}

// The active tracked pods that are spare or too many.
fn surplus(
    alloc: Global,
    job: &Job,
    pods: &Pods,
    counted: &CountIn,
) -> Result<Vec<(Uid, Version)>, Want>
    requires failed { (counts_of counted.now).0 < 2 ^ 64 }
    requires succeeded { (counts_of counted.now).1 < 2 ^ 64 }
    ensures { IfOk result (λ going. going.items
        ≡ map seen (surplus job.now.spec.mode
        (is_needless (unwrap_or job.now.spec.completions 0) counted.now)
        (job_wants job.now (own_pods job.now pods.now) counted.now)
        (own_tracked job.now pods.now))) }
{
    if !may_go(job, pods, counted) {
        return Ok(Vec::new(alloc));
    }
    let listed = pods.as_slice();
    let holders = holders_of(alloc, job, listed)?;
    let ranks = ranks_of(alloc, job, listed, counted, &holders)?;
    let least = least_to_go(ranks, job_wants(job, pods, counted));
    going(alloc, job, listed, counted, &holders, least)
}

// All active tracked pods.
fn all_tracked(alloc: Global, job: &Job, pods: &[Arc<Pod>]) -> Result<Vec<(Uid, Version)>, Want>
    ensures { IfOk result (λ going. going.items ≡ map seen (own_tracked job.now pods.now)) }
{
    pods.iter()
        .filter(|pod| is_own(job, pod))
        .filter(|pod| is_tracked_active(pod))
        .map(|pod| seen(pod))
        .collect(alloc)
}

// The Job's own pods whose finalizer goes before they are marked, each at the version at which it was
// seen.
//
// # Errors
// `Want` where there is no memory for them.
pub(crate) fn let_goes(
    alloc: Global,
    target: bool,
    job: &Job,
    pods: &Pods,
    counted: &CountIn,
) -> Result<PodVersions, Want>
    requires failed { (counts_of counted.now).0 < 2 ^ 64 }
    requires succeeded { (counts_of counted.now).1 < 2 ^ 64 }
    ensures { IfOk result (λ going.
        going ≡ let_goes target job.now (own_pods job.now pods.now) counted.now) }
{
    if target {
        return Ok(PodVersions::new(alloc));
    }
    if job.spec.suspend {
        let going = all_tracked(alloc, job, pods.as_slice())?;
        return list_of(alloc, going.as_slice());
    }
    let going = surplus(alloc, job, pods, counted)?;
    list_of(alloc, going.as_slice())
}
