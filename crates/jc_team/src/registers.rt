//! What a begin puts into a worker's register, and what the end of a sync leaves there.

ghost use Rattle.std.specs.Prelude.{◌≡◌, ◌<◌, IfOk, IsSome, None, OnErr, OnOk, length, set, if◌then◌else◌};
ghost use Rattle.jc_states.specs.declared.bases.Basis.{Basis};
ghost use Rattle.jc_states.specs.Bases.{CanPlan};
ghost use Rattle.jc_control.specs.ControllerCalls.{begun};
ghost use Rattle.jc_control.specs.declared.begins.Begin.TheVariants.{Begun};
ghost use Rattle.jc_runs.specs.Replies.{reply_of_begin};
ghost use Rattle.jc_runs.specs.Teams.{begun_sync, with_sync};

use crate::places::{put_at, put_given_at};
use crate::started::Started;
use crate::told::{ReplyText, Told};
use jc_control::{Begin, Controller};
use jc_moment::Moment;
use jc_states::Basis;
use jc_types::{Copied, Reply, Want};

// Begins a sync of the controller: the reply, and the sync where one begins. Changes of pods that waited for
// a sync to end are made before, so that this one copies none.
//
// `Want` where there is no memory for it; the controller is then as before.
pub(crate) fn begin(
    controller: &mut Controller,
    now: Moment,
) -> Result<(Told, Option<Started>), Want>
    requires { (basis : Basis) → (begun now controller.old).answer ≡ Begun basis
        → IsSome basis.job → CanPlan basis }
    ensures schedule { OnOk result (controller.new.schedule ≡ (begun now controller.old).schedule) }
    ensures jobs { OnOk result (controller.new.jobs ≡ controller.old.jobs) }
    ensures rows { OnOk result (controller.new.rows ≡ controller.old.rows) }
    ensures kept { OnErr result (controller.new ≡ controller.old) }
    ensures reply { IfOk result (λ r. r.0 ≡ reply_of_begin (begun now controller.old).answer) }
    ensures sync { IfOk result (λ r. r.1 ≡ begun_sync (begun now controller.old).answer) }
{
    controller.apply_pending();
    let answer = controller.peek(now)?;
    let left = prepared(&answer)?;
    controller.begin_as(now, &answer)?;
    Ok(left)
}

// What a begin of that answer leaves: the reply, and the sync where one begins.
//
// `Want` where there is no memory for it.
fn prepared(answer: &Begin) -> Result<(Told, Option<Started>), Want>
    requires { (basis : Basis) → answer.now ≡ Begun basis → IsSome basis.job → CanPlan basis }
    ensures reply { IfOk result (λ r. r.0 ≡ reply_of_begin answer.now) }
    ensures sync { IfOk result (λ r. r.1 ≡ begun_sync answer.now) }
{
    let told = told_to(answer)?;
    let sync = sync_of(answer)?;
    Ok((told, sync))
}

// The sync that begins, where one does.
//
// `Want` where there is no memory for it.
fn sync_of(answer: &Begin) -> Result<Option<Started>, Want>
    requires { (basis : Basis) → answer.now ≡ Begun basis → IsSome basis.job → CanPlan basis }
    ensures { IfOk result (λ sync. sync ≡ begun_sync answer.now) }
{
    match answer {
        Begin::Begun(basis) => Ok(Some(Started::new(basis.copy()?))),
        Begin::NotSynced | Begin::NoKey | Begin::Behind { .. } => Ok(None),
    }
}

// The reply to a begin, with its text.
//
// `Want` where there is no memory for it.
fn told_to(answer: &Begin) -> Result<Told, Want>
    ensures { IfOk result (λ r. r ≡ reply_of_begin answer.now) }
{
    match answer {
        Begin::NotSynced => Ok(Told::of(Reply::NotSynced)),
        Begin::NoKey => Ok(Told::of(Reply::NoKey)),
        Begin::Behind { kind, need, have } => Ok(Told::of(Reply::Behind {
            kind: *kind,
            need: *need,
            have: *have,
        })),
        Begin::Begun(basis) => told_begun(basis),
    }
}

// The reply to the begin of a sync, with its text.
//
// `Want` where there is no memory for it.
fn told_begun(basis: &Basis) -> Result<Told, Want>
    ensures { IfOk result (λ r. r ≡ reply_of_begin (Begun basis.entry.now)) }
{
    let reply = Reply::Begun {
        key: basis.key.copy()?,
        jobs_at: basis.jobs_at,
        pods_at: basis.pods_at,
    };
    let text = ReplyText::Key(basis.key.copy()?);
    Ok(Told::with(reply, text))
}

// Puts the sync into the worker's register, where one begins.
pub(crate) fn start(registers: &mut Vec<Option<Started>>, worker: usize, sync: Option<Started>)
    requires { worker < length registers.old.items }
    ensures { registers.new.items ≡ with_sync registers.old.items worker sync }
{
    put_given_at(registers, worker, sync);
}

// Makes the worker's register free, where its sync is over.
pub(crate) fn close(registers: &mut Vec<Option<Started>>, worker: usize, is_over: bool)
    requires { worker < length registers.old.items }
    ensures { registers.new.items
        ≡ (if is_over then set registers.old.items worker None else registers.old.items) }
{
    if is_over {
        put_at(registers, worker, None);
    }
}
