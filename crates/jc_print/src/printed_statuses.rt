//! The texts of statuses: compact JSON, members in byte order.

ghost use Rattle.std.specs.Prelude.{◌≡◌, ◌++◌, IfOk, OnOk, codes, map, option_map};
ghost use Rattle.serde_json.specs.Data.{boolean, number, string, no_members};
ghost use Rattle.serde_json.specs.View.{view, members_view};
ghost use Rattle.serde_json.specs.Written.{compact_text};
ghost use Rattle.jc_print.specs.PrintedMembers.{unless_zero, unless_empty};
ghost use Rattle.jc_print.specs.PrintedStatuses.{kind_word, reason_word, status_word, moment_data, uid_data, unless_no_index, with_kind, condition_data, uncounted_data, given_uncounted, unless_false, index_count_data, with_pods};
ghost use Rattle.jc_print.specs.PrintedStatuses.{with_totals, with_failures, with_times, with_lists, status_data};

use crate::members::{
    Members, put_given, put_given_bool, put_number, put_text, put_unless_zero, put_value,
};
use jc_moment::Moment;
use jc_ranges::Ranges;
use jc_types::{
    CondKind, Condition, IndexCount, IndexCounts, JobStatus, Reason, Text, Uid, Want, uid_text,
};
use serde_json::{Map, Value};
use std::alloc::Global;

fn kind_word(kind: CondKind) -> &'static str
    ensures { result.now ≡ kind_word kind }
{
    match kind {
        CondKind::Suspended => "Suspended",
        CondKind::FailureTarget => "FailureTarget",
        CondKind::SuccessCriteriaMet => "SuccessCriteriaMet",
        CondKind::Failed => "Failed",
        CondKind::Complete => "Complete",
    }
}

fn reason_word(reason: Reason) -> &'static str
    ensures { result.now ≡ reason_word reason }
{
    match reason {
        Reason::BackoffLimitExceeded => "BackoffLimitExceeded",
        Reason::DeadlineExceeded => "DeadlineExceeded",
        Reason::PodFailurePolicy => "PodFailurePolicy",
        Reason::SuccessPolicy => "SuccessPolicy",
        Reason::CompletionsReached => "CompletionsReached",
        Reason::JobSuspended => "JobSuspended",
        Reason::JobResumed => "JobResumed",
        Reason::MaxFailedIndexesExceeded => "MaxFailedIndexesExceeded",
        Reason::FailedIndexes => "FailedIndexes",
    }
}

fn status_word(status: bool) -> &'static str
    ensures { result.now ≡ status_word status }
{
    if status { "True" } else { "False" }
}

// The text of a set, or nothing for the empty one.
fn indexes_unless_none(set: &Ranges) -> Result<Option<Value>, Want>
    ensures { IfOk result (λ o. option_map view o ≡ unless_no_index set.now) }
{
    if set.len() == 0 {
        return Ok(None);
    }
    Ok(Some(Value::String(set.text()?)))
}

// A moment that may be given, as its text.
fn given_moment(alloc: Global, moment: Option<Moment>) -> Result<Option<Value>, Want>
    ensures { IfOk result (λ o. option_map view o ≡ option_map moment_data moment) }
{
    match moment {
        None => Ok(None),
        Some(moment) => Ok(Some(Value::String(moment.text(alloc)?))),
    }
}

// A list, or nothing for the empty one.
fn list_unless_empty(values: Vec<Value>) -> Option<Value>
    ensures { option_map view result ≡ unless_empty (map view values.items) }
{
    if values.is_empty() {
        return None;
    }
    Some(Value::Array(values))
}

// UIDs as texts.
fn uid_values(alloc: Global, uids: &[Uid]) -> Result<Vec<Value>, Want>
    ensures { IfOk result (λ values. map view values.items ≡ map uid_data uids.now) }
{
    let mut values = Vec::new(alloc);
    for uid in uids {
        let text = uid_text(alloc, *uid)?;
        values.push(Value::try_from_str(alloc, text.as_str())?)?;
    }
    Ok(values)
}

fn put_kind(members: &mut Members, alloc: Global, condition: &Condition) -> Result<(), Want>
    ensures { OnOk result (members_view members.new.entries
        ≡ with_kind condition.now (members_view members.old.entries)) }
{
    put_text(members, alloc, "status", status_word(condition.status))?;
    put_text(members, alloc, "type", kind_word(condition.kind))?;
    Ok(())
}

#[tactic(auto, unfolding(crate::specs::PrintedStatuses::condition_data))]
fn condition_value(alloc: Global, condition: &Condition) -> Result<Value, Want>
    ensures { IfOk result (λ v. view v ≡ condition_data condition.now) }
{
    let mut members = Map::new(alloc);
    let since = Value::String(condition.since.text(alloc)?);
    put_value(&mut members, alloc, "lastTransitionTime", since)?;
    put_text(&mut members, alloc, "reason", reason_word(condition.reason))?;
    put_kind(&mut members, alloc, condition)?;
    Ok(Value::Object(members))
}

fn condition_values(alloc: Global, conditions: &[Condition]) -> Result<Vec<Value>, Want>
    ensures { IfOk result (λ values. map view values.items ≡ map condition_data conditions.now) }
{
    let mut values = Vec::new(alloc);
    for condition in conditions {
        values.push(condition_value(alloc, condition)?)?;
    }
    Ok(values)
}

#[tactic(auto, unfolding(crate::specs::PrintedStatuses::uncounted_data))]
fn uncounted_value(alloc: Global, failed: &[Uid], succeeded: &[Uid]) -> Result<Value, Want>
    ensures { IfOk result (λ v. view v ≡ uncounted_data failed.now succeeded.now) }
{
    let mut members = Map::new(alloc);
    let failed = list_unless_empty(uid_values(alloc, failed)?);
    put_given(&mut members, alloc, "failed", failed)?;
    let succeeded = list_unless_empty(uid_values(alloc, succeeded)?);
    put_given(&mut members, alloc, "succeeded", succeeded)?;
    Ok(Value::Object(members))
}

// The uncounted UIDs, or nothing where there are none.
fn given_uncounted(alloc: Global, failed: &[Uid], succeeded: &[Uid]) -> Result<Option<Value>, Want>
    ensures { IfOk result (λ o. option_map view o ≡ given_uncounted failed.now succeeded.now) }
{
    if failed.len() == 0 && succeeded.len() == 0 {
        return Ok(None);
    }
    Ok(Some(uncounted_value(alloc, failed, succeeded)?))
}

// True, or nothing.
fn true_or_none(truth: bool) -> Option<bool>
    ensures { option_map boolean result ≡ unless_false truth }
{
    if truth { Some(true) } else { None }
}

#[tactic(auto, unfolding(crate::specs::PrintedStatuses::index_count_data))]
fn index_count_value(alloc: Global, count: &IndexCount) -> Result<Value, Want>
    ensures { IfOk result (λ v. view v ≡ index_count_data count.now) }
{
    let mut members = Map::new(alloc);
    put_value(&mut members, alloc, "count", Value::from(count.failures))?;
    put_given_bool(&mut members, alloc, "fail", true_or_none(count.fail))?;
    put_number(&mut members, alloc, "index", count.index)?;
    Ok(Value::Object(members))
}

// AddsTokens the values of the counts of a piece.
fn put_index_counts(
    values: &mut Vec<Value>,
    alloc: Global,
    counts: &[IndexCount],
) -> Result<(), Want>
    ensures { OnOk result (map view values.new.items
        ≡ map view values.old.items ++ map index_count_data counts.now) }
{
    for count in counts {
        values.push(index_count_value(alloc, count)?)?;
    }
    Ok(())
}

fn index_count_values(alloc: Global, counts: &IndexCounts) -> Result<Vec<Value>, Want>
    ensures { IfOk result (λ values. map view values.items ≡ map index_count_data counts.now) }
{
    let mut values = Vec::new(alloc);
    let pieces = counts.pieces();
    for piece in pieces {
        put_index_counts(&mut values, alloc, piece.as_slice())?;
    }
    Ok(values)
}

#[tactic(auto, unfolding(crate::specs::PrintedStatuses::with_pods))]
fn put_pods(members: &mut Members, alloc: Global, status: &JobStatus) -> Result<(), Want>
    ensures { OnOk result (members_view members.new.entries
        ≡ with_pods status.now (members_view members.old.entries)) }
{
    put_unless_zero(members, alloc, "active", u64::from(status.active))?;
    put_unless_zero(members, alloc, "ready", u64::from(status.ready))?;
    put_unless_zero(members, alloc, "terminating", u64::from(status.terminating))?;
    Ok(())
}

fn put_totals(members: &mut Members, alloc: Global, status: &JobStatus) -> Result<(), Want>
    ensures { OnOk result (members_view members.new.entries
        ≡ with_totals status.now (members_view members.old.entries)) }
{
    let completed = indexes_unless_none(&status.completed)?;
    put_given(members, alloc, "completedIndexes", completed)?;
    put_unless_zero(members, alloc, "failed", status.failed)?;
    put_unless_zero(members, alloc, "succeeded", status.succeeded)?;
    Ok(())
}

fn put_failures(members: &mut Members, alloc: Global, status: &JobStatus) -> Result<(), Want>
    ensures { OnOk result (members_view members.new.entries
        ≡ with_failures status.now (members_view members.old.entries)) }
{
    let failed = indexes_unless_none(&status.failed_indexes)?;
    put_given(members, alloc, "failedIndexes", failed)?;
    let counts = index_count_values(alloc, &status.index_failures)?;
    put_given(members, alloc, "indexFailures", list_unless_empty(counts))?;
    Ok(())
}

#[tactic(auto, unfolding(crate::specs::PrintedStatuses::with_times))]
fn put_times(members: &mut Members, alloc: Global, status: &JobStatus) -> Result<(), Want>
    ensures { OnOk result (members_view members.new.entries
        ≡ with_times status.now (members_view members.old.entries)) }
{
    let completion = given_moment(alloc, status.completion)?;
    put_given(members, alloc, "completionTime", completion)?;
    let start = given_moment(alloc, status.start)?;
    put_given(members, alloc, "startTime", start)?;
    Ok(())
}

#[tactic(auto, unfolding(crate::specs::PrintedStatuses::with_lists))]
fn put_lists(members: &mut Members, alloc: Global, status: &JobStatus) -> Result<(), Want>
    ensures { OnOk result (members_view members.new.entries
        ≡ with_lists status.now (members_view members.old.entries)) }
{
    let conditions = condition_values(alloc, status.conditions.as_slice())?;
    let conditions = list_unless_empty(conditions);
    put_given(members, alloc, "conditions", conditions)?;
    let failed = status.uncounted_failed.as_slice();
    let succeeded = status.uncounted_succeeded.as_slice();
    let uncounted = given_uncounted(alloc, failed, succeeded)?;
    put_given(members, alloc, "uncountedTerminatedPods", uncounted)?;
    Ok(())
}

#[tactic(auto, unfolding(crate::specs::PrintedStatuses::status_data))]
fn status_value(alloc: Global, status: &JobStatus) -> Result<Value, Want>
    ensures { IfOk result (λ v. view v ≡ status_data status.now) }
{
    let mut members = Map::new(alloc);
    put_pods(&mut members, alloc, status)?;
    put_totals(&mut members, alloc, status)?;
    put_failures(&mut members, alloc, status)?;
    put_times(&mut members, alloc, status)?;
    put_lists(&mut members, alloc, status)?;
    Ok(Value::Object(members))
}

/// The status as compact JSON, its members in byte order of their names. A number that is 0, an empty list, an empty
/// set, an absent moment and a mark that is not set are left out.
///
/// # Errors
///
/// Want of memory.
#[tactic(auto, using(crate::proofs::NoFloats::status_has_no_float))]
pub fn print_status(alloc: Global, status: &JobStatus) -> Result<Text, Want>
    ensures { IfOk result (λ text. text ≡ compact_text (status_data status.now)) }
{
    let value = status_value(alloc, status)?;
    let text = value.to_string(alloc)?;
    Text::from_string(text)
}
