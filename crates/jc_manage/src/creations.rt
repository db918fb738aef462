//! Which pods a Job makes.

ghost use Rattle.std.specs.Prelude.{◌≡◌, ◌==◌, ◌<◌, ◌^◌, ◌&&◌, ◌||◌, ◌∷◌, ◌++◌, [], ℕ, IfOk, None, OnOk, Some, false, filter, get_or, if◌then◌else◌, length, map, nat_lt, not, replicate, take, unwrap_or};
ghost use Rattle.std.specs.List.{range_with_len};
ghost use Rattle.jc_states.specs.Indexes.{has_index};
ghost use Rattle.jc_states.specs.Bases.{is_own, own_pods};
ghost use Rattle.jc_types.specs.Counts.{counts as counts_of};
ghost use Rattle.jc_manage.specs.Creations.{creatable, free, foremost, holds, is_done_index, job_lacks, job_wants, keepers, keeps, keeps_own, lacking, looked_for, wanted};

use crate::unheld::{are_kept_as_held, unheld_indexes};
use jc_states::{Pods, count_tracked_active, is_active, is_ending, is_own};
use jc_types::{Arc, CountIn, Indexes, Job, JobSpec, Mode, Pod, Replacement, Want, counts};
use std::alloc::Global;

// How many active pods there should be, where so many have succeeded, so many indexes have failed and so
// many are active.
fn wanted(spec: &JobSpec, succeeded: u64, failed: u64, active: u64) -> u64
    ensures { result ≡ wanted spec.now.parallelism spec.now.completions succeeded failed active }
{
    let parallelism = u64::from(spec.parallelism);
    match spec.completions {
        Some(completions) => {
            let left = u64::from(completions).saturating_sub(succeeded);
            parallelism.min(left.saturating_sub(failed))
        }
        None => { if succeeded == 0 { parallelism } else { active } }
    }
}

// How many pods are to be made, where so many are active and so many are ending.
fn lacking(replacement: Replacement, wanted: u64, active: u64, ending: u64) -> u64
    ensures { result ≡ lacking replacement wanted active ending }
{
    match replacement {
        Replacement::TerminatingOrFailed => wanted.saturating_sub(active),
        Replacement::FailedOnly => wanted.saturating_sub(active).saturating_sub(ending),
    }
}

// How many active tracked pods the Job should have, where it has so many.
pub(crate) fn wanted_beside(job: &Job, counted: &CountIn, active: u64) -> u64
    requires failed { (counts_of counted.now).0 < 2 ^ 64 }
    requires succeeded { (counts_of counted.now).1 < 2 ^ 64 }
    ensures { result ≡ wanted job.now.spec.parallelism job.now.spec.completions
        (counts_of counted.now).1 (length counted.now.failed_indexes) active }
{
    let (_, succeeded) = counts(counted);
    let failed = u64::from(counted.failed_indexes.len());
    wanted(&job.spec, succeeded, failed, active)
}

// How many active tracked pods the Job should have.
pub(crate) fn job_wants(job: &Job, pods: &Pods, counted: &CountIn) -> u64
    requires failed { (counts_of counted.now).0 < 2 ^ 64 }
    requires succeeded { (counts_of counted.now).1 < 2 ^ 64 }
    ensures { result ≡ job_wants job.now (own_pods job.now pods.now) counted.now }
{
    wanted_beside(job, counted, count_tracked_active(job, pods) as u64)
}

// How many pods the Job is to make.
fn job_lacks(job: &Job, pods: &Pods, counted: &CountIn) -> u64
    requires failed { (counts_of counted.now).0 < 2 ^ 64 }
    requires succeeded { (counts_of counted.now).1 < 2 ^ 64 }
    ensures { result ≡ job_lacks job.now (own_pods job.now pods.now) counted.now }
{
    let tally = pods.tally(job.uid);
    let active = u64::from(tally.active_tracked);
    let ending = u64::from(tally.open_marked);
    lacking(
        job.spec.replacement,
        wanted_beside(job, counted, active),
        active,
        ending,
    )
}

// Whether the pod keeps its index from new pods.
fn keeps(replacement: Replacement, pod: &Pod) -> bool
    ensures { result ≡ keeps replacement pod.now }
{
    match replacement {
        Replacement::TerminatingOrFailed => is_active(pod),
        Replacement::FailedOnly => is_active(pod) || is_ending(pod),
    }
}

// Sets the flag of the index, where it has one.
fn set_flag(flags: &mut [bool], index: u32)
    ensures count { length flags.new ≡ length flags.old }
    ensures flags { (n : ℕ) → n < length flags.old
        → get_or flags.new n false ≡ (index == n || get_or flags.old n false) }
{
    let place = index as usize;
    if place < flags.len() {
        flags[place] = true;
    }
}

// Whether the flag of the index is set.
fn is_set(flags: &[bool], index: u32) -> bool
    ensures { result ≡ get_or flags.now index false }
{
    match flags.get(index as usize) {
        None => false,
        Some(flag) => *flag,
    }
}

// Sets the flag of the pod's index, where the pod is the Job's own and keeps it.
fn flag_index(kept: &mut [bool], job: &Job, pod: &Pod)
    ensures count { length kept.new ≡ length kept.old }
    ensures flags { (n : ℕ) → n < length kept.old
        → get_or kept.new n false
        ≡ (keeps_own job.now n pod.now || get_or kept.old n false) }
{
    if !(is_own(job, pod) && keeps(job.spec.replacement, pod)) {
        return;
    }
    let Some(index) = pod.index else {
        return;
    };
    set_flag(kept, index);
}

// For each index below `completions` whether the Job's pods keep it from new ones.
fn kept_indexes(
    alloc: Global,
    job: &Job,
    pods: &[Arc<Pod>],
    completions: u32,
) -> Result<Vec<bool>, Want>
    ensures { IfOk result (λ kept. (n : ℕ) → n < completions
        → get_or kept.items n false
        ≡ holds (keepers job.now.spec.replacement (own_pods job.now pods.now)) n) }
{
    let mut kept = vec![in alloc; false; completions as usize]?;
    for pod in pods {
        flag_index(kept.as_mut_slice(), job, pod);
    }
    Ok(kept)
}

// Whether the index is completed or has failed.
pub(crate) fn is_done_index(counted: &CountIn, index: u32) -> bool
    ensures { result ≡ is_done_index counted.now index }
{
    counted.completed.contains(index) || counted.failed_indexes.contains(index)
}

// Adds the index, where it is neither done nor kept and there are not so many yet.
fn offer(
    indexes: &mut Indexes,
    index: u32,
    counted: &CountIn,
    kept: &[bool],
    most: u64,
) -> Result<(), Want>
    ensures { OnOk result (indexes.new ≡ (
        if not (is_done_index counted.now index) && not (get_or kept.now index false)
        then (if nat_lt (length indexes.old) most
        then indexes.old ++ Some index ∷ [] else indexes.old)
        else indexes.old)) }
{
    if is_done_index(counted, index) || is_set(kept, index) {
        return Ok(());
    }
    if (indexes.len() as u64) < most {
        indexes.push(Some(index))?;
    }
    Ok(())
}

// The least indexes below `completions` that are neither done nor kept, and at most so many.
fn free_indexes(
    alloc: Global,
    completions: u32,
    counted: &CountIn,
    kept: &[bool],
    most: u64,
) -> Result<Indexes, Want>
    ensures { IfOk result (λ indexes. indexes ≡ map (λ n. Some n) (take most
        (filter (λ n. not (is_done_index counted.now n) && not (get_or kept.now n false))
        (range_with_len 0 completions)))) }
{
    let mut indexes = Indexes::new(alloc);
    for index in 0..completions {
        // The least ones are found, and greater ones are not wanted.
        if indexes.len() as u64 == most {
            return Ok(indexes);
        }
        offer(&mut indexes, index, counted, kept, most)?;
    }
    Ok(indexes)
}

// So many pods without an index.
fn without_index(alloc: Global, count: u64) -> Result<Indexes, Want>
    ensures { IfOk result (λ indexes. indexes ≡ replicate count None) }
{
    let mut indexes = Indexes::new(alloc);
    for _ in 0..count {
        indexes.push(None)?;
    }
    Ok(indexes)
}

// The least free indexes of the Job, and at most so many.
fn least_free(
    alloc: Global,
    job: &Job,
    pods: &[Arc<Pod>],
    counted: &CountIn,
    most: u64,
) -> Result<Indexes, Want>
    ensures { IfOk result (λ indexes. indexes ≡ map (λ n. Some n) (take most
        (free (unwrap_or job.now.spec.completions 0) counted.now
        (keepers job.now.spec.replacement (own_pods job.now pods.now))))) }
{
    if most == 0 {
        return Ok(Indexes::new(alloc));
    }
    let completions = job.spec.completions.unwrap_or(0);
    let kept = kept_indexes(alloc, job, pods, completions)?;
    free_indexes(alloc, completions, counted, kept.as_slice(), most)
}

// The least free indexes of the Job, and at most so many. It goes over the pods only where active ones are
// not tracked, or ending ones keep their indexes.
fn first_free(
    alloc: Global,
    job: &Job,
    pods: &Pods,
    counted: &CountIn,
    most: u64,
) -> Result<Indexes, Want>
    ensures { IfOk result (λ indexes. indexes ≡ map (λ n. Some n) (take most
        (free (unwrap_or job.now.spec.completions 0) counted.now
        (keepers job.now.spec.replacement (own_pods job.now pods.now))))) }
{
    if are_kept_as_held(job, pods) {
        let completions = job.spec.completions.unwrap_or(0);
        return unheld_indexes(alloc, completions, job.uid, pods, counted, most);
    }
    least_free(alloc, job, pods.as_slice(), counted, most)
}

// How many of so many are looked for: where it matters only whether there is one, at most that one.
fn looked_for(one: bool, lacking: u64) -> u64
    ensures { result ≡ looked_for one lacking }
{
    if one && lacking > 0 { 1 } else { lacking }
}

// What the Job would make at once, if nothing held it back; where it matters only whether there is one, the
// first of it alone.
//
// # Errors
// `Want` where there is no memory for it.
#[tactic(auto, using(crate::proofs::Fronts::front_pods))]
pub(crate) fn creatable(
    alloc: Global,
    one: bool,
    target: bool,
    job: &Job,
    pods: &Pods,
    counted: &CountIn,
) -> Result<Indexes, Want>
    requires failed { (counts_of counted.now).0 < 2 ^ 64 }
    requires succeeded { (counts_of counted.now).1 < 2 ^ 64 }
    ensures { IfOk result (λ indexes.
        indexes ≡ foremost one (creatable target job.now (own_pods job.now pods.now) counted.now)) }
{
    if target || job.spec.suspend {
        return Ok(Indexes::new(alloc));
    }
    let lacking = looked_for(one, job_lacks(job, pods, counted));
    match job.spec.mode {
        Mode::NonIndexed => without_index(alloc, lacking),
        Mode::Indexed => first_free(alloc, job, pods, counted, lacking),
    }
}
