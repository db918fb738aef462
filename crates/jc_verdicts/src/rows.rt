//! What is kept of the judged pods of a Job.

ghost use Rattle.std.specs.Prelude.{◌≡◌, ◌<◌, ◌≤◌, ◌^◌, ◌∷◌, [], IfOk, None, OnOk, Some, false, filter, if◌then◌else◌, is_some, length, map, nat_lt, take};
ghost use Rattle.std.specs.Option.{option_and_then, option_copied, option_map_or, option_or, unwrap_or};
ghost use Rattle.jc_ranges.specs.Sets.{IsIncreasing, with_member};
ghost use Rattle.jc_types.specs.declared.numbers.Uid.{Uid};
ghost use Rattle.jc_types.specs.declared.objects.Job.{Job};
ghost use Rattle.jc_types.specs.declared.specifications.Mode.TheVariants.{NonIndexed};
ghost use Rattle.jc_types.specs.Keys.{same_uid};
ghost use Rattle.jc_log.specs.Tables.{at};
ghost use Rattle.jc_states.specs.PodLists.{IsRising};
ghost use Rattle.jc_states.specs.UidLists.{join};
ghost use Rattle.jc_failpol.specs.declared.outcomes.Outcome.TheVariants.{Failed};
ghost use Rattle.jc_failpol.specs.Outcomes.{is_succeeded, same_outcome};
ghost use Rattle.jc_account.specs.declared.judgements.Judgement.{Judgement as Row};
ghost use Rattle.jc_account.specs.Rooms.{joins_list};
ghost use Rattle.jc_ledger.specs.Ledger.{is_within, kept as kept_of};
ghost use Rattle.jc_verdicts.specs.Verdicts.{EndsAt, done_by, fresh_row, has_joined_list, is_success_by, outcome_in, row_for, rows_for, space_by};
ghost use Rattle.jc_verdicts.specs.Verdicts.{success_index, success_indexes, waiting};

use indexmap::IndexMap;
use jc_account::{Judgement as Row, first_beyond, joins_list, retain_within};
use jc_failpol::{Outcome, is_verdict, outcome};
use jc_states::has_end;
use jc_types::{Arc, Job, JobSpec, MOST_UNCOUNTED, Mode, Phase, Pod, Uid, Want};
use std::alloc::Global;

/// Whether a pod that was judged so, if it was, joined a list.
fn has_joined(mode: Mode, outcome: Option<&Outcome>) -> bool
    ensures { result
        ≡ option_map_or (λ outcome. joins_list mode outcome) (option_copied outcome.entry) false }
{
    match outcome {
        Some(outcome) => joins_list(mode, *outcome),
        None => false,
    }
}

/// Whether the pod is tracked, and was judged so that it joined a list.
fn has_joined_list(spec: &JobSpec, known: &IndexMap<Uid, Outcome>, pod: &Pod) -> bool
    ensures { result ≡ has_joined_list spec.now (at same_uid known.now.entries) pod.now }
{
    pod.tracked && has_joined(spec.mode, known.get(&pod.uid))
}

/// How many UIDs may join the lists: one less for each pod that is tracked and joined one. It goes over
/// no pods but those that may have been judged: they stand in front.
fn space(spec: &JobSpec, known: &IndexMap<Uid, Outcome>, last: Uid, pods: &[Arc<Pod>]) -> usize
    requires rising { IsRising pods.now }
    requires last { EndsAt last (at same_uid known.now.entries) }
    ensures { result ≡ space_by spec.now (at same_uid known.now.entries) pods.now }
{
    let mut space = MOST_UNCOUNTED as usize;
    for pod in pods {
        if pod.uid.0 > last.0 {
            return space;
        }
        if has_joined_list(spec, known, pod) {
            space = space.saturating_sub(1);
        }
    }
    space
}

/// Whether a pod of the UID was judged. Of one that is greater than each that was, nothing is looked up.
fn was_judged(known: &IndexMap<Uid, Outcome>, last: Uid, uid: Uid) -> bool
    requires { EndsAt last (at same_uid known.now.entries) }
    ensures { result ≡ is_some (at same_uid known.now.entries uid) }
{
    uid.0 <= last.0 && known.contains_key(&uid)
}

/// The row of a pod, where the pod is still to be judged. Of one that was judged no policy is asked.
fn fresh_row(spec: &JobSpec, known: &IndexMap<Uid, Outcome>, last: Uid, pod: &Pod) -> Option<Row>
    requires { EndsAt last (at same_uid known.now.entries) }
    ensures { result ≡ fresh_row spec.now (at same_uid known.now.entries) pod.now }
{
    if !pod.tracked || was_judged(known, last, pod.uid) {
        return None;
    }
    let outcome = outcome(spec, pod);
    if !is_verdict(outcome) {
        return None;
    }
    Some(Row {
        uid: pod.uid,
        outcome,
        index: pod.index,
    })
}

/// The rows of the first of the pods that are still to be judged: their UIDs are not known yet.
#[inline(always)]
fn waiting_rows(
    alloc: Global,
    spec: &JobSpec,
    known: &IndexMap<Uid, Outcome>,
    last: Uid,
    pods: &[Arc<Pod>],
    most: usize,
) -> Result<Vec<Row>, Want>
    requires { EndsAt last (at same_uid known.now.entries) }
    ensures { IfOk result (λ new. new.items
        ≡ take most (map (row_for spec.now) (waiting spec.now (at same_uid known.now.entries) pods.now))) }
{
    let mut new = Vec::new(alloc);
    for pod in pods {
        if new.len() >= most {
            return Ok(new);
        }
        if let Some(row) = fresh_row(spec, known, last, pod) {
            new.push(row)?;
        }
    }
    Ok(new)
}

/// The rows of the pods that a write judges, where each joins a list: the first of those that are still to
/// be judged. It goes over no more of them than the lists can hold.
#[inline(always)]
fn first_rows(
    alloc: Global,
    spec: &JobSpec,
    known: &IndexMap<Uid, Outcome>,
    last: Uid,
    pods: &[Arc<Pod>],
) -> Result<Vec<Row>, Want>
    requires mode { spec.now.mode ≡ NonIndexed }
    requires rising { IsRising pods.now }
    requires last { EndsAt last (at same_uid known.now.entries) }
    ensures { IfOk result (λ new. new.items
        ≡ rows_for spec.now (at same_uid known.now.entries) pods.now) }
{
    let mut rows = waiting_rows(alloc, spec, known, last, pods, MOST_UNCOUNTED as usize)?;
    if rows.as_slice().is_empty() {
        return Ok(rows);
    }
    let space = space(spec, known, last, pods);
    rows.truncate(space);
    Ok(rows)
}

/// The rows of the pods that a write judges, where some may join no list: it goes over all.
fn fitting_rows(
    alloc: Global,
    spec: &JobSpec,
    known: &IndexMap<Uid, Outcome>,
    last: Uid,
    pods: &[Arc<Pod>],
) -> Result<Vec<Row>, Want>
    requires rising { IsRising pods.now }
    requires last { EndsAt last (at same_uid known.now.entries) }
    ensures { IfOk result (λ new. new.items
        ≡ rows_for spec.now (at same_uid known.now.entries) pods.now) }
{
    let mut rows = waiting_rows(alloc, spec, known, last, pods, pods.len())?;
    if rows.as_slice().is_empty() {
        return Ok(rows);
    }
    let space = space(spec, known, last, pods);
    let first = first_beyond(spec.mode, rows.as_slice(), space);
    retain_within(&mut rows, spec.mode, first);
    Ok(rows)
}

/// The rows of the pods that a write judges: of those that are still to be judged, as many as there is
/// room for.
pub fn new_rows(
    alloc: Global,
    spec: &JobSpec,
    known: &IndexMap<Uid, Outcome>,
    last: Uid,
    pods: &[Arc<Pod>],
) -> Result<Vec<Row>, Want>
    requires rising { IsRising pods.now }
    requires last { EndsAt last (at same_uid known.now.entries) }
    ensures { IfOk result (λ new. new.items
        ≡ rows_for spec.now (at same_uid known.now.entries) pods.now) }
{
    match spec.mode {
        Mode::NonIndexed => first_rows(alloc, spec, known, last, pods),
        Mode::Indexed => fitting_rows(alloc, spec, known, last, pods),
    }
}

/// Notes the outcome of a row, where its UID has none. Mostly it has none, so it is looked for only
/// once; an outcome that it had is put back.
fn add_outcome(known: &mut IndexMap<Uid, Outcome>, row: &Row) -> Result<(), Want>
    ensures { OnOk result ((u : Uid) → at same_uid known.new.entries u
        ≡ option_or (at same_uid known.old.entries u) (outcome_in (row.now ∷ []) u)) }
{
    if let Some(before) = known.insert(row.uid, row.outcome)? {
        known.insert(row.uid, before)?;
    }
    Ok(())
}

/// The greater of the UIDs.
fn greater(left: Uid, right: Uid) -> Uid
    ensures left { left.0 ≤ result.0 }
    ensures right { right.0 ≤ result.0 }
{
    if left.0 < right.0 { right } else { left }
}

/// Notes the outcomes of new rows, and the greatest UID that has one.
pub fn add_outcomes(
    known: &mut IndexMap<Uid, Outcome>,
    last: &mut Uid,
    rows: &[Row],
) -> Result<(), Want>
    requires { EndsAt last.old (at same_uid known.old.entries) }
    ensures outcomes { OnOk result ((u : Uid) → at same_uid known.new.entries u
        ≡ option_or (at same_uid known.old.entries u) (outcome_in rows.now u)) }
    ensures last { OnOk result (EndsAt last.new (at same_uid known.new.entries)) }
{
    for row in rows {
        add_outcome(known, row)?;
        *last = greater(*last, row.uid);
    }
    Ok(())
}

/// Whether a pod that was judged so, if it was, was judged Failed.
fn has_failed(outcome: Option<&Outcome>) -> bool
    ensures { result
        ≡ option_map_or (λ outcome. same_outcome outcome Failed) (option_copied outcome.entry) false }
{
    match outcome {
        Some(outcome) => *outcome == Outcome::Failed,
        None => false,
    }
}

/// Whether the phase is Succeeded.
fn is_succeeded(phase: Phase) -> bool
    ensures { result ≡ is_succeeded phase }
{
    match phase {
        Phase::Succeeded => true,
        Phase::Pending | Phase::Running | Phase::Failed => false,
    }
}

/// Whether the pod is tracked and has succeeded, and was not judged Failed. Its phase says whether it
/// has succeeded, by whatever policies.
#[tactic(auto, using(crate::proofs::VerdictRows::succeeded_is))]
fn is_success(known: &IndexMap<Uid, Outcome>, pod: &Pod) -> bool
    ensures { (job : Job) → result ≡ is_success_by job (at same_uid known.now.entries) pod.now }
{
    pod.tracked && is_succeeded(pod.phase) && !has_failed(known.get(&pod.uid))
}

/// The number of completions of the Job.
fn completions(job: &Job) -> u32
    ensures { result ≡ unwrap_or job.now.spec.completions 0 }
{
    job.spec.completions.unwrap_or(0)
}

/// The index, where it is below the number of completions.
fn index_within(job: &Job, index: Option<u32>) -> Option<u32>
    ensures { result
        ≡ option_and_then (λ index. if is_within job.now.spec index then Some index else None) index }
{
    match index {
        Some(index) if index < completions(job) => Some(index),
        _ => None,
    }
}

/// The index of a pod that has succeeded, where it is below the number of completions. Of a pod without one
/// nothing is looked up.
fn success_index(job: &Job, known: &IndexMap<Uid, Outcome>, pod: &Pod) -> Option<u32>
    ensures { result ≡ success_index job.now (at same_uid known.now.entries) pod.now }
{
    let index = index_within(job, pod.index)?;
    if is_success(known, pod) {
        Some(index)
    } else {
        None
    }
}

/// How many of the indexes are below the number of completions: they stand in front.
fn count_within(done: &[u32], completions: u32) -> usize
    requires { IsIncreasing done.now }
    ensures { filter (λ n. nat_lt n completions) done.now ≡ take result done.now }
{
    done.partition_point(|index| *index < completions)
}

/// Keeps the indexes that stay: those below the number of completions, or all where an end stands.
fn retain_indexes(done: &mut Vec<u32>, job: &Job)
    requires { IsIncreasing done.old.items }
    ensures { done.new.items ≡ kept_of job.now done.old.items }
{
    if !has_end(&job.status.conditions) {
        let count = count_within(done.as_slice(), completions(job));
        done.truncate(count);
    }
}

/// Puts an index in its place; a list that has it stays as it is.
fn put_index(done: &mut Vec<u32>, index: u32) -> Result<(), Want>
    requires { IsIncreasing done.old.items }
    ensures { OnOk result (done.new.items ≡ with_member index done.old.items) }
{
    if let Err(place) = done.as_slice().binary_search(&index) {
        done.insert(place, index)?;
    }
    Ok(())
}

/// Puts the index of a pod in its place, where the pod has succeeded and was not judged Failed.
fn put_success(
    done: &mut Vec<u32>,
    job: &Job,
    known: &IndexMap<Uid, Outcome>,
    pod: &Pod,
) -> Result<(), Want>
    requires { IsIncreasing done.old.items }
    ensures { OnOk result (done.new.items ≡ join done.old.items
        (success_indexes job.now (at same_uid known.now.entries) (pod.now ∷ []))) }
{
    match success_index(job, known, pod) {
        Some(index) => put_index(done, index),
        None => Ok(()),
    }
}

/// Puts the indexes of such pods in their places. They mostly come behind those that are there.
fn put_successes(
    done: &mut Vec<u32>,
    job: &Job,
    known: &IndexMap<Uid, Outcome>,
    pods: &[Arc<Pod>],
) -> Result<(), Want>
    requires { IsIncreasing done.old.items }
    ensures { OnOk result (done.new.items ≡ join done.old.items
        (success_indexes job.now (at same_uid known.now.entries) pods.now)) }
{
    for pod in pods {
        put_success(done, job, known, pod)?;
    }
    Ok(())
}

/// Makes of the indexes those after a write that saw the pods: the old ones that stay, with those
/// of the pods that have succeeded. Where all stay and none is new, it goes over none.
pub fn take_successes(
    done: &mut Vec<u32>,
    job: &Job,
    known: &IndexMap<Uid, Outcome>,
    pods: &[Arc<Pod>],
) -> Result<(), Want>
    requires { IsIncreasing done.old.items }
    ensures done { OnOk result (done.new.items
        ≡ done_by job.now (at same_uid known.now.entries) done.old.items pods.now) }
    ensures order { OnOk result (IsIncreasing done.new.items) }
{
    retain_indexes(done, job);
    put_successes(done, job, known, pods)?;
    Ok(())
}

/// How many rows have the outcome.
pub fn count(rows: &[Row], want: Outcome) -> u32
    requires { length rows.now < 2 ^ 32 }
    ensures { result ≡ length (filter (λ (row : Row). same_outcome row.outcome want) rows.now) }
{
    rows.iter().filter(|row| row.outcome == want).count() as u32
}
