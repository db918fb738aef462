//! The conditions of a Job after a sync.

ghost use Rattle.std.specs.Prelude.{◌≡◌, ◌⊎◌, ◌∷◌, ◌++◌, [], IfOk, IfSome, IsSome, IsTrue, false, find, map, true};
ghost use Rattle.std.specs.List.{list_any};
ghost use Rattle.std.specs.Option.{option_copied};
ghost use Rattle.jc_states.specs.Conditions.{has_target};
ghost use Rattle.jc_types.specs.Equality.{same_kind};
ghost use Rattle.jc_finish.specs.Settled.{end_kind, end_of, in_place, is_suspension, is_target, is_target_kind, settled_of, settled_suspended, suspension, true_since, with_end, with_suspension, with_target};

use jc_moment::Moment;
use jc_states::{Basis, has_end, has_target, stands};
use jc_types::{CondKind, Condition, Conditions, Copied, Reason, Want};
use std::alloc::Global;

// A condition of the kind, true since then.
fn true_since(since: Moment, kind: CondKind, reason: Reason) -> Condition
    ensures { result ≡ true_since since kind reason }
{
    Condition {
        kind,
        status: true,
        reason,
        since,
    }
}

// The condition of a Job that is suspended, or resumed, since then.
fn suspension(since: Moment, suspend: bool) -> Condition
    ensures { result ≡ suspension since suspend }
{
    let reason = if suspend {
        Reason::JobSuspended
    } else {
        Reason::JobResumed
    };
    Condition {
        kind: CondKind::Suspended,
        status: suspend,
        reason,
        since,
    }
}

// Whether the kinds are the same.
fn same_kind(left: CondKind, right: CondKind) -> bool
    ensures { result ≡ same_kind left right }
{
    left == right
}

// Whether a Suspended condition is among them.
fn has_suspension(conditions: &Conditions) -> bool
    ensures { result ≡ list_any is_suspension conditions.now }
{
    conditions
        .as_slice()
        .iter()
        .any(|condition| same_kind(condition.kind, CondKind::Suspended))
}

// The conditions with another at the end.
fn with_one_more(conditions: Conditions, last: Condition) -> Result<Conditions, Want>
    ensures { IfOk result (λ r. r ≡ conditions ++ last ∷ []) }
{
    let mut settled = conditions;
    settled.push(last)?;
    Ok(settled)
}

// The Suspended condition in the place of an older one.
fn in_place(new: &Condition, condition: &Condition) -> Condition
    ensures { result ≡ in_place new.now condition.now }
{
    if same_kind(condition.kind, CondKind::Suspended) {
        *new
    } else {
        *condition
    }
}

// The conditions with the Suspended condition in the place of each older one.
fn with_suspension_changed(
    alloc: Global,
    conditions: &Conditions,
    new: &Condition,
) -> Result<Conditions, Want>
    ensures { IfOk result (λ r. r ≡ map (in_place new.now) conditions.now) }
{
    let mut settled = Conditions::new(alloc);
    for condition in conditions.as_slice() {
        settled.push(in_place(new, condition))?;
    }
    Ok(settled)
}

// The conditions with the Suspended condition in the place of an older one, or at the end.
fn with_suspension(
    alloc: Global,
    conditions: &Conditions,
    new: Condition,
) -> Result<Conditions, Want>
    ensures { IfOk result (λ r. r ≡ with_suspension new conditions.now) }
{
    if has_suspension(conditions) {
        with_suspension_changed(alloc, conditions, &new)
    } else {
        with_one_more(conditions.copy()?, new)
    }
}

// The conditions with a Suspended condition that is true just where the Job is suspended, while how the
// Job will end is open.
fn with_suspended(
    alloc: Global,
    now: Moment,
    suspend: bool,
    is_decided: bool,
    conditions: &Conditions,
) -> Result<Conditions, Want>
    ensures { IfOk result (λ r. r ≡ settled_suspended now suspend is_decided conditions.now) }
{
    if is_decided || has_target(conditions) || suspend == stands(CondKind::Suspended, conditions) {
        return conditions.copy();
    }
    with_suspension(alloc, conditions, suspension(now, suspend))
}

// The conditions with the target at the end, where one is decided.
fn with_target(
    now: Moment,
    target: Option<(CondKind, Reason)>,
    conditions: Conditions,
) -> Result<Conditions, Want>
    ensures { IfOk result (λ r. r ≡ with_target now target conditions) }
{
    match target {
        None => Ok(conditions),
        Some((kind, reason)) => with_one_more(conditions, true_since(now, kind, reason)),
    }
}

// Whether a condition of the kind decides how a Job will end.
fn is_target_kind(kind: CondKind) -> bool
    ensures { result ≡ is_target_kind kind }
{
    match kind {
        CondKind::FailureTarget | CondKind::SuccessCriteriaMet => true,
        CondKind::Suspended | CondKind::Failed | CondKind::Complete => false,
    }
}

// Whether the condition is a target that stands.
fn is_target(condition: &Condition) -> bool
    ensures { result ≡ is_target condition.now }
{
    is_target_kind(condition.kind) && condition.status
}

// The first target that stands.
fn first_target(conditions: &Conditions) -> Option<&Condition>
    ensures { option_copied result ≡ find is_target conditions.now }
{
    conditions
        .as_slice()
        .iter()
        .find(|condition| is_target(condition))
}

// The end that follows a target.
fn end_kind(target: CondKind) -> CondKind
    ensures { result ≡ end_kind target }
{
    match target {
        CondKind::FailureTarget => CondKind::Failed,
        _ => CondKind::Complete,
    }
}

// The end that follows the first target that stands.
fn end_of(now: Moment, conditions: &Conditions) -> Option<Condition>
    ensures { result ≡ end_of now conditions.now }
{
    let target = first_target(conditions)?;
    Some(true_since(now, end_kind(target.kind), target.reason))
}

// The conditions with that end, where it is due and none stands.
fn with_end(now: Moment, due: bool, conditions: Conditions) -> Result<Conditions, Want>
    ensures { IfOk result (λ r. r ≡ with_end now due conditions) }
{
    if !due || has_end(&conditions) {
        return Ok(conditions);
    }
    match end_of(now, &conditions) {
        None => Ok(conditions),
        Some(end) => with_one_more(conditions, end),
    }
}

/// The conditions of the basis's Job after the sync (batch/v1, KEP-3998). `target` is the target that the
/// sync decided, and `end` says that the end of the Job is due. New conditions are true since the moment
/// of the sync and stand last.
///
/// While no target stands or is decided, a suspended Job without a true Suspended condition gets one
/// (`JobSuspended`), and a Job that is not suspended and has a true one gets it false (`JobResumed`). A
/// Suspended condition that is there keeps its place, and changes since the moment of the sync. Then the
/// decided target is added. Where the end is due and none stands, `Failed` follows the target
/// `FailureTarget`, and `Complete` the target `SuccessCriteriaMet`, for the same reason.
///
/// # Errors
/// `Want` where there is no memory for them.
pub fn settle_conditions(
    alloc: Global,
    basis: &Basis,
    target: Option<(CondKind, Reason)>,
    end: bool,
) -> Result<Conditions, Want>
    requires kind { IfSome target (λ pair. is_target_kind pair.0 ≡ true) }
    requires fresh { IsSome target
        → IfSome basis.now.job (λ job. has_target job.status.conditions ≡ false) }
    requires due { IsTrue end
        → IfSome basis.now.job (λ job. (has_target job.status.conditions ≡ true) ⊎ IsSome target) }
    ensures { IfOk result (λ r. r ≡ settled_of basis.entry.now target end) }
{
    let now = basis.now;
    let Some(job) = &basis.job else {
        return Ok(Conditions::new(alloc));
    };
    let conditions = &job.status.conditions;
    let settled = with_suspended(alloc, now, job.spec.suspend, target.is_some(), conditions)?;
    let settled = with_target(now, target, settled)?;
    with_end(now, end, settled)
}
