//! A sync that has its plan.

ghost use Rattle.std.specs.Prelude.{◌≡◌, ◌<◌, ◌-◌, ◌^◌, ◌||◌, IfOk, OnErr, Some, is_some, length, option_copied, slice_get};
ghost use Rattle.jc_control.specs.declared.ends.SyncEnd.TheVariants as ends;
ghost use Rattle.jc_types.specs.declared.replies.Answer.TheVariants as answer;
ghost use Rattle.jc_types.specs.declared.replies.Reply.TheVariants.{Ended, Stepped};
ghost use Rattle.jc_log.specs.Requests.{GivesOrKeeps};
ghost use Rattle.jc_plan.specs.Plans.{planned};
ghost use Rattle.jc_asks.specs.Asks.{first_written, is_gone, as_request};
ghost use Rattle.jc_asks.specs.Sends.{new_sync};
ghost use Rattle.jc_asks.specs.Steps.{IsStepped, as_answer, answered_at, answered_to, end_given, stepped, written_gives};

use jc_asks::{Ask, Asks};
use jc_control::SyncEnd;
use jc_moment::Moment;
use jc_plan::Plan;
use jc_states::Basis;
use jc_store::Store;
use jc_types::{Answer, Arc, Backoff, Fault, JobStatus, Reply, Request, Version, Want};
use std::alloc::Global;
use std::marker::Model;

/// A sync that has its plan: what was done of it, and what is left (KEP-2307). What the ledger sees of it
/// is read from these, and takes no memory of its own.
#[derive(Drop)]
pub struct Syncing {
    plan: Plan,
    asks: Asks,
    // Whether the first status is written.
    is_written: bool,
    // The version that the next write of the status sends.
    sends: Version,
}

impl Model for Syncing {
    ghost use Rattle.std.specs.Prelude.{if◌then◌else◌, None};
    ghost use Rattle.jc_plan.specs.Plans.{planned};
    ghost use Rattle.jc_asks.specs.Asks.{released_in};
    ghost use Rattle.jc_asks.specs.Steps.{Sync};

    ghost Value = { Sync };

    ghost view = { λ s. record {
      flight = record {
        basis = s.plan.basis;
        written = if s.is_written then (planned s.plan.basis).first else None;
        sends = s.sends;
        released = released_in s.asks.made;
      };
      left = s.asks.left;
    } };
}

/// The store's reply, as it answers a sync. A reply of no request is as no answer.
pub fn as_answer(reply: Reply) -> Answer
    ensures { result ≡ as_answer reply }
{
    match reply {
        Reply::Created { uid, version } => Answer::Created { uid, version },
        Reply::Written { version } => Answer::Written { version },
        Reply::Unchanged { version } => Answer::Unchanged { version },
        Reply::Released { version } => Answer::Released { version },
        Reply::Removed { version } => Answer::Removed { version },
        Reply::Conflict { current } => Answer::Conflict { current },
        Reply::NotFound => Answer::NotFound,
        Reply::AlreadyExists => Answer::AlreadyExists,
        Reply::Immutable { field } => Answer::Immutable { field },
        Reply::Invalid { field } => Answer::Invalid { field },
        Reply::Final { phase } => Answer::Final { phase },
        Reply::BadStep { from, to } => Answer::BadStep { from, to },
        Reply::NoContainer { name } => Answer::NoContainer { name },
        Reply::NotTracked => Answer::NotTracked,
        _ => Answer::Unavailable,
    }
}

/// What a step of a sync gives.
#[derive(Drop)]
pub struct Progress {
    /// What was asked, and how it was answered; or that the sync has ended.
    pub reply: Reply,
    /// How the sync has ended, where it has.
    pub end: Option<SyncEnd>,
}

// What a reply tells of a request.
fn as_request(ask: Ask) -> Request
    ensures { result ≡ as_request ask }
{
    match ask {
        Ask::MakePod { index } => Request::CreatePod { index },
        Ask::MarkPod { pod } => Request::MarkPod { pod },
        Ask::LetPodGo { pod, .. } => Request::LetGo { pod },
        Ask::WriteFirst | Ask::WriteSecond => Request::Status,
        Ask::ReleasePod { pod } => Request::Release { pod },
    }
}

// How the answer to the request ends the sync, if it does: a write of the status that is refused.
fn end_given(ask: Ask, answer: &Answer) -> Option<SyncEnd>
    ensures { result ≡ end_given ask answer.now }
{
    match ask {
        Ask::WriteFirst | Ask::WriteSecond => {
            match answer {
                Answer::Conflict { .. } => Some(SyncEnd::Retry),
                Answer::NotFound => Some(SyncEnd::Gone),
                _ => None,
            }
        }
        _ => None,
    }
}

// A request that was answered so.
fn progress_by(ask: Ask, answer: Answer) -> Progress
    ensures reply { result.reply ≡ Stepped (as_request ask) answer }
    ensures end { result.end ≡ end_given ask answer }
{
    let end = end_given(ask, &answer);
    Progress {
        reply: Reply::Stepped {
            request: as_request(ask),
            answer,
        },
        end,
    }
}

// A request that was not answered.
fn unanswered(ask: Ask) -> Progress
    ensures reply { result.reply ≡ Stepped (as_request ask) answer.Unavailable }
    ensures end { result.end ≡ Some ends.Unavailable }
{
    Progress {
        reply: Reply::Stepped {
            request: as_request(ask),
            answer: Answer::Unavailable,
        },
        end: Some(SyncEnd::Unavailable),
    }
}

// The end of a sync that has no request left.
fn over(next: Option<Moment>) -> Progress
    ensures reply { result.reply ≡ Ended }
    ensures end { result.end ≡ Some (ends.Ended next) }
{
    Progress {
        reply: Reply::Ended,
        end: Some(SyncEnd::Ended { next }),
    }
}

impl Syncing {
    /// A sync that begins with its plan.
    ///
    /// # Errors
    /// `Want` where there is no memory.
    #[inline(always)]
    pub fn new(alloc: Global, plan: Plan) -> Result<Syncing, Want>
        ensures { IfOk result (λ sync. sync ≡ new_sync plan.basis) }
    {
        let asks = Asks::new(alloc, &plan)?;
        let sends = match &plan.basis().job {
            None => Version(0),
            Some(job) => job.version,
        };
        Ok(Syncing {
            plan,
            asks,
            is_written: false,
            sends,
        })
    }

    /// What the sync began with.
    pub fn basis(&self) -> &Basis
        ensures { result.now ≡ self.now.flight.basis }
    {
        &**self.plan.basis()
    }

    /// The backoff that its key has once the first status is written.
    pub fn backoff(&self) -> Backoff
        ensures { result ≡ (planned self.now.flight.basis).backoff }
    {
        let backoff = self.plan.backoff();
        Backoff {
            failures: backoff.failures,
            last: backoff.last,
        }
    }

    /// The request that comes next.
    pub fn first(&self) -> Option<Ask>
        ensures { result ≡ slice_get self.now.left 0 }
    {
        self.asks.first()
    }

    /// Makes the next request, where one is left, and goes on after its answer. Under a pending fault the
    /// request is not answered, and with `Drop` it is not made. Where no request is left the sync ends.
    ///
    /// # Errors
    /// `Want` where there is no memory; nothing has changed then.
    pub fn step(
        &mut self,
        store: &mut Store,
        now: Moment,
        pending: Option<Fault>,
    ) -> Result<Progress, Want>
        requires room { length store.old < 2 ^ 32 - 1 }
        ensures ok { IfOk result (λ progress. IsStepped (stepped now pending store.old self.old)
            progress.reply progress.end store.old store.new self.new) }
        ensures basis { self.new.flight.basis ≡ self.old.flight.basis }
        ensures log { OnErr result (store.new ≡ store.old) }
        ensures sync { OnErr result (self.new ≡ self.old) }
    {
        let Some(ask) = self.asks.first() else {
            return Ok(over(self.plan.next()));
        };
        match pending {
            Some(Fault::Drop) => Ok(unanswered(ask)),
            Some(Fault::Lose) => {
                self.ask(store, ask, now)?;
                Ok(unanswered(ask))
            }
            None => {
                let reply = self.ask(store, ask, now)?;
                let answer = as_answer(reply);
                self.answered(&answer);
                Ok(progress_by(ask, answer))
            }
        }
    }

    // Writes a status of the plan, where it has one.
    fn write(&self, store: &mut Store, status: Option<&Arc<JobStatus>>) -> Result<Reply, Want>
        ensures { GivesOrKeeps store.old store.new
            (written_gives store.old self.now.flight (option_copied status.entry)) result }
    {
        let Some(status) = status else {
            return Ok(Reply::NotFound);
        };
        let basis = self.plan.basis();
        let Some(job) = &basis.job else {
            return Ok(Reply::NotFound);
        };
        store.write_status(&basis.key, job.uid, self.sends, status)
    }

    /// Makes the request of this sync.
    ///
    /// # Errors
    /// `Want` where there is no memory; nothing has changed then.
    pub fn ask(&self, store: &mut Store, ask: Ask, now: Moment) -> Result<Reply, Want>
        requires room { length store.old < 2 ^ 32 - 1 }
        ensures { GivesOrKeeps store.old store.new
            (answered_to store.old now self.now.flight ask) result }
    {
        match ask {
            Ask::MakePod { index } => {
                match &self.plan.basis().job {
                    None => Ok(Reply::NotFound),
                    Some(job) => store.create_pod(job, index, now),
                }
            }
            Ask::MarkPod { pod } => store.mark_pod(pod, now),
            Ask::LetPodGo { pod, version } => store.let_go(pod, version),
            Ask::WriteFirst => self.write(store, self.plan.first()),
            Ask::ReleasePod { pod } => store.release(pod),
            Ask::WriteSecond => self.write(store, self.plan.second()),
        }
    }

    /// Goes on after the answer to the next request.
    pub fn answered(&mut self, answer: &Answer)
        ensures sync { self.new ≡ answered_at self.old.flight self.old.left answer.now }
        ensures basis { self.new.flight.basis ≡ self.old.flight.basis }
    {
        let written = first_written(self.asks.first(), answer);
        self.is_written = is_written_after(written, self.is_written);
        self.sends = written.unwrap_or(self.sends);
        self.asks.answered(is_gone(answer));
    }
}

// Whether the first status is written, now or before.
fn is_written_after(written: Option<Version>, before: bool) -> bool
    ensures { result ≡ (is_some written || before) }
{
    written.is_some() || before
}

// The version at which the first status was written by the request.
fn first_written(ask: Option<Ask>, answer: &Answer) -> Option<Version>
    ensures { result ≡ first_written ask answer.now }
{
    match ask {
        Some(Ask::WriteFirst) => {
            match answer {
                Answer::Written { version } => Some(*version),
                _ => None,
            }
        }
        _ => None,
    }
}

// Whether the answer says that a finalizer was taken.
fn is_gone(answer: &Answer) -> bool
    ensures { result ≡ is_gone answer.now }
{
    matches!(answer, Answer::Released { .. })
}
