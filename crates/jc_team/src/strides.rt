//! What a step of a worker's sync does to its controller.

ghost use Rattle.std.specs.Prelude.{◌≡◌, ◌<◌, ◌-◌, ◌^◌, IfOk, OnErr, OnOk, List, Some, length, false, true, is_some};
ghost use Rattle.jc_types.specs.declared.objects.Entry.{Entry};
ghost use Rattle.jc_log.specs.Requests.{grown};
ghost use Rattle.jc_queue.specs.Queued.{has_key};
ghost use Rattle.jc_control.specs.Schedules.{MirrorsLog};
ghost use Rattle.jc_sync.specs.Steps.{floor_given, stepped};
ghost use Rattle.jc_sync.specs.AllRegisters.{register_of};
ghost use Rattle.jc_runs.specs.Teams.{end_of_next, fault_left, is_first_written, noted_told, stride_by};

use jc_control::{Controller, SyncEnd};
use jc_moment::Moment;
use jc_sync::{Ask, Progress, Syncing};
use jc_types::{Answer, Backoff, Fault, Key, Reply, Version, Want};
use jc_watch::Store;

// What a step of a sync gives.
#[derive(Drop)]
pub(crate) struct Taken {
    pub reply: Reply,
    pub is_over: bool,
    pub fault: Option<Fault>,
}

// Makes the next request of the sync, and takes note of the answer and of its end.
//
// `Want` where there is no memory for it; all is then as before.
pub(crate) fn step_sync(
    controller: &mut Controller,
    sync: &mut Syncing,
    store: &mut Store,
    pending: Option<Fault>,
    now: Moment,
) -> Result<Taken, Want>
    requires busy { has_key sync.old.flight.basis.key controller.old.schedule.queue.processing ≡ true }
    requires room { length store.old < 2 ^ 32 - 1 }
    ensures reply { IfOk result (λ r. r.reply ≡ (stepped now pending store.old sync.old).reply) }
    ensures log { OnOk result
        (store.new ≡ grown store.old (stepped now pending store.old sync.old).entry) }
    ensures over { IfOk result (λ r. r.is_over
        ≡ is_some (end_of_next (stepped now pending store.old sync.old).next)) }
    ensures goes { IfOk result (λ r. r.is_over ≡ false
        → register_of (stepped now pending store.old sync.old).next ≡ Some sync.new) }
    ensures fault { IfOk result (λ r. r.fault
        ≡ fault_left (end_of_next (stepped now pending store.old sync.old).next) pending) }
    ensures basis { sync.new.flight.basis ≡ sync.old.flight.basis }
    ensures schedule { OnOk result (controller.new.schedule
        ≡ (stride_by now pending controller.old.schedule sync.old
        (stepped now pending store.old sync.old)).schedule) }
    ensures holds { OnOk result
        ((log : List Entry) → MirrorsLog log controller.old → MirrorsLog log controller.new) }
    ensures kept { OnErr result (controller.new ≡ controller.old) }
    ensures sync_kept { OnErr result (sync.new ≡ sync.old) }
    ensures log_kept { OnErr result (store.new ≡ store.old) }
{
    let ask = sync.first();
    let backoff = sync.backoff();
    let Progress { reply, end: how } = sync.step(store, now, pending)?;
    let key = &sync.basis().key;
    note(controller, key, ask, &reply, backoff);
    match how {
        None => Ok(Taken {
            reply,
            is_over: false,
            fault: pending,
        }),
        Some(how) => {
            let fault = fault_left(&how, pending);
            controller.end(key, how, now);
            Ok(Taken {
                reply,
                is_over: true,
                fault,
            })
        }
    }
}

// The fault that is pending after the end: one is used up by a request that was not answered.
fn fault_left(end: &SyncEnd, pending: Option<Fault>) -> Option<Fault>
    ensures { result ≡ fault_left (Some end.now) pending }
{
    match end {
        SyncEnd::Unavailable => None,
        SyncEnd::Ended { .. } | SyncEnd::Retry | SyncEnd::Gone => pending,
    }
}

// The version that raises the floor of the key, where the answer has one.
fn floor_given(answer: &Answer) -> Option<Version>
    ensures { result ≡ floor_given answer.now }
{
    match answer {
        Answer::Created { version, .. }
        | Answer::Written { version }
        | Answer::Unchanged { version }
        | Answer::Released { version } => Some(*version),
        _ => None,
    }
}

// Whether the first status was written.
fn is_first_written(ask: Ask, answer: &Answer) -> bool
    ensures { result ≡ is_first_written ask answer.now }
{
    match ask {
        Ask::WriteFirst => matches!(answer, Answer::Written { .. }),
        _ => false,
    }
}

// Takes note of the reply to the request. It takes no memory.
fn note(controller: &mut Controller, key: &Key, ask: Option<Ask>, reply: &Reply, backoff: Backoff)
    requires processing { has_key key.now controller.old.schedule.queue.processing ≡ true }
    ensures schedule { controller.new.schedule
        ≡ noted_told controller.old.schedule key.now ask reply.now backoff }
    ensures queue { controller.new.schedule.queue ≡ controller.old.schedule.queue }
    ensures jobs_at { controller.new.schedule.jobs_at ≡ controller.old.schedule.jobs_at }
    ensures pods_at { controller.new.schedule.pods_at ≡ controller.old.schedule.pods_at }
    ensures jobs { controller.new.jobs ≡ controller.old.jobs }
    ensures rows { controller.new.rows ≡ controller.old.rows }
{
    let Some(ask) = ask else {
        return;
    };
    let Reply::Stepped { answer, .. } = reply else {
        return;
    };
    if let Some(version) = floor_given(answer) {
        controller.answered(key, version);
    }
    if is_first_written(ask, answer) {
        controller.keep_backoff(key, backoff);
    }
}
