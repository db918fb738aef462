//! The top call: it reads, plays and writes, on one thread or on several.

ghost use Rattle.std.specs.Prelude.{◌≡◌, ◌↔◌, ◌⊎◌, IfSome, IsTrue, None, Some, map, string_bytes};
ghost use Rattle.jc_types.specs.declared.runs.Shape.{Shape};
ghost use Rattle.jc_words.specs.Words.{order_of};
ghost use Rattle.jc_words.specs.declared.words.Order.{Order};
ghost use Rattle.jc_words.specs.declared.words.Order.TheVariants.{Audit};
ghost use Rattle.jc_words.specs.FitOrders.{IsFitOrder};
ghost use Rattle.jc_audit.specs.declared.verdicts.Verdict.TheVariants.{Yes};
ghost use Rattle.jc_single.specs.RunEnds.{change};
ghost use Rattle.jc_single.specs.Played.{OfPlayed, staging_of};
ghost use Rattle.jc_single.specs.RunAnswers.{IsSingle};
ghost use Rattle.jc_single.specs.Headlines.{TellsHistory, ends_full};
ghost use Rattle.jc_ctl.specs.Asked.{HasThreads, order_asked};
ghost use Rattle.jc_ctl.specs.Audited.{IsPromised, PassesAudit, TellsVerdict};
ghost use Rattle.jc_ctl.specs.Done.{HasDone};

use crate::audited::audit_report;
use crate::laws::{audited_reports_keep_the_promises, written_reports_pass_audits};
use crate::threaded::run_threaded;
use jc_io::{Sink, Source};
use jc_shared::{Gate, Host};
use jc_single::{Status, run_order, runs_tell_their_history};
use jc_types::Shape;
use jc_words::{LockKind, Order, orders_fit, read_words};
use std::alloc::Global;
use std::sync::Wait;
use std::thread::Threads;

// What is asked for that is done on no single thread.
#[derive(Clone, Copy)]
enum Asked {
    // A run on threads.
    Threads {
        threads: u32,
        lock: LockKind,
        shape: Shape,
    },
    // An audit.
    Audit {
        shape: Shape,
    },
}

// Which run on threads or which audit the order is, where it is one.
fn asked_for(order: &Order) -> Option<Asked>
    ensures of_order { IfSome result (λ asked. order.now ≡ order_asked asked) }
    ensures threads { IfSome result HasThreads }
    ensures none { result ≡ None → IsSingle order.now }
{
    match order {
        Order::Run {
            threads,
            lock,
            shape,
        } if *threads > 0 => Some(Asked::Threads {
            threads: *threads,
            lock: *lock,
            shape: *shape,
        }),
        Order::Audit { shape } => Some(Asked::Audit { shape: *shape }),
        _ => None,
    }
}

/// Whether the words ask for no threads and no audit, so that `run_single` does what they ask for.
pub fn is_single(words: &[String]) -> bool
    ensures { IsTrue result ↔ ((order : Order) → order_of (map string_bytes words.now) ≡ Some order
        → IsSingle order) }
{
    match read_words(words) {
        Some(order) => asked_for(&order).is_none(),
        None => true,
    }
}

// Does what the order asks for: what it has read and written, by how it has ended.
fn run_asked<R: Threads + Wait + Sync, S: Source, K: Sink, G: Gate + Sync>(
    host: &Host<'_, R, G>,
    order: &Order,
    source: &mut S,
    sink: &mut K,
) -> Status
    requires { IsFitOrder order.now }
    ensures { HasDone (Some order.now)
        (change (S.left source.old) (S.left source.new) (S.faults source.old) (S.faults source.new))
        (change (K.held sink.old) (K.held sink.new) (K.faults sink.old) (K.faults sink.new)) result }
{
    match asked_for(order) {
        Some(
            Asked::Threads {
                threads,
                lock,
                shape,
            },
        ) => run_threaded(host, lock, &shape, threads, source, sink),
        Some(Asked::Audit { shape }) => audit_report(host.alloc, &shape, source, sink),
        None => run_order(host.alloc, order, source, sink),
    }
}

// Does what the words ask for: what it has read and written, by how it has ended.
fn run_words<R: Threads + Wait + Sync, S: Source, K: Sink, G: Gate + Sync>(
    rt: &R,
    alloc: Global,
    words: &[String],
    source: &mut S,
    sink: &mut K,
    gate: &G,
) -> Status
    ensures { HasDone (order_of (map string_bytes words.now))
        (change (S.left source.old) (S.left source.new) (S.faults source.old) (S.faults source.new))
        (change (K.held sink.old) (K.held sink.new) (K.faults sink.old) (K.faults sink.new)) result }
{
    orders_fit();
    let host = Host { rt, gate, alloc };
    match read_words(words) {
        Some(order) => run_asked(&host, &order, source, sink),
        None => Status::BadWords,
    }
}

/// Does what the words ask for. `words` are those after the program's name.
///
/// `run` with its options reads a script of at most 67,108,864 bytes from the source, plays it, and
/// writes the report; `reap` plays it with a settle behind it, goes on with the commands behind that
/// which a reaper gives to what is left, and writes the report of all; `audit` reads a
/// report, and writes whether it is one; `generate` with three numbers plays a generated script,
/// and writes the summary. With `--threads` from 1 on as many seats play the script, and make their
/// plans beside each other; `gate` is told of each plan. They share the cluster by the lock that
/// the words ask for, and what is promised is the same of both. The answers are tested in the order
/// words, reading, script, writing.
///
/// **The headline (KEP-2307)**: whatever the script and the number of threads, with `Ok` and with
/// `HistoryFull` what `run` or `reap` has written is the report of a history of the script that was played
/// last, and this history is legal and orderly. After each of its events each pod of each Job was counted
/// once, and each finalizer that a sync took had its cause. Its lines tell it, and the statuses that are
/// printed are those of its log. With one controller each pod that is made fits what its Job allows, and a Job
/// that has ended stays as it is. Where the script is played on threads or ends in a settle, and the history
/// is not full, nothing is left to do and no ended pod is forgotten. With `WriteFault` what went out is the
/// front of such a report. What `run` or `reap` has written whole is what `audit` with the same options
/// says yes to, if it is no longer than an input may be.
///
/// On one thread the history is that of the play. On threads it may wait, and what it promises holds if it
/// returns; which of the possible histories it is, is not said.
///
/// The memory of what a `run` or a `reap` has played last is not given back, as the program ends then: who calls it again
/// and again loses it each time.
pub fn run_program<R: Threads + Wait + Sync, S: Source, K: Sink, G: Gate + Sync>(
    rt: &R,
    alloc: Global,
    words: &[String],
    source: &mut S,
    sink: &mut K,
    gate: &G,
) -> Status
    // What it has read and written, by how it has ended: `runs_end_as_told` says what that means.
    ensures done { HasDone (order_of (map string_bytes words.now))
        (change (S.left source.old) (S.left source.new) (S.faults source.old) (S.faults source.new))
        (change (K.held sink.old) (K.held sink.new) (K.faults sink.old) (K.faults sink.new)) result }
    // The headline.
    ensures headline { (result ≡ Status.Ok) ⊎ (result ≡ Status.HistoryFull)
        → (order : Order) → order_of (map string_bytes words.now) ≡ Some order
        → OfPlayed order (S.left source.old) (λ staging script.
        TellsHistory staging.threads script staging.shape (ends_full result)
        (K.held sink.old) (K.held sink.new)) }
    // What `run` or `reap` has written whole is what an audit in the same shape says yes to.
    ensures passes { (result ≡ Status.Ok) ⊎ (result ≡ Status.HistoryFull)
        → (order : Order) → order_of (map string_bytes words.now) ≡ Some order
        → IfSome (staging_of order) (λ staging. IfSome (S.left source.old) (λ input.
        PassesAudit staging.shape (K.held sink.old) (K.held sink.new))) }
    // With Ok what an audit has read is a report, and all promises hold of the history that it tells. That was written.
    ensures yes { result ≡ Status.Ok → (shape : Shape)
        → order_of (map string_bytes words.now) ≡ Some (Audit shape) → IfSome (S.left source.old) (λ input.
        TellsVerdict shape input Yes (K.held sink.old) (K.held sink.new) × IsPromised shape input) }
{
    orders_fit();
    audited_reports_keep_the_promises();
    written_reports_pass_audits();
    runs_tell_their_history();
    run_words(rt, alloc, words, source, sink, gate)
}
