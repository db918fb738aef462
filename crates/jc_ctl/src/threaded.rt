//! A run on threads: its script is read, played by the seats, and written.

ghost use Rattle.std.specs.Prelude.{◌≡◌, ◌<◌, ◌≤◌, ◌^◌, Err, IfOk, IfSome, IsErrOf, IsOkAnd, false, length, true, ℕ};
ghost use Rattle.std.specs.List.{AllByRecursion as Each};
ghost use Rattle.jc_types.specs.declared.actions.Command.{Command};
ghost use Rattle.jc_single.specs.ValidActions.{AreValidCommands};
ghost use Rattle.jc_single.specs.Available.{IsOrderly};
ghost use Rattle.jc_single.specs.Plays.{IsScriptFor};
ghost use Rattle.jc_single.specs.Seen.{deeds_seen};
ghost use Rattle.jc_shared.specs.SharedEnds.{EndsRun, IsEndOfRun};
ghost use Rattle.jc_shared.specs.Shared.{Shared};
ghost use Rattle.jc_shared.specs.declared.faults.ThreadsFault.{ThreadsFault};
ghost use Rattle.jc_script.specs.Scripts.{most_bytes, script_of};
ghost use Rattle.jc_script.specs.Cause.{Cause};
ghost use Rattle.jc_words.specs.FitOrders.{IsFitShape};
ghost use Rattle.jc_words.specs.declared.words.Order.TheVariants.{Run};
ghost use Rattle.jc_single.specs.RunEnds.{RunHasEnded, HasMade, change};
ghost use Rattle.jc_ctl.specs.Done.{IsPlayedBy};
ghost use Rattle.jc_single.specs.Headlines.{IsReport};
ghost use Rattle.jc_single.specs.RunAnswers.{writing_text};

use jc_io::{ReadEnd, Sink, Source, read_all};
use jc_script::{ScriptFault, read_script, scripts_fit_their_shape};
use jc_shared::{Cluster, Gate, Host, Play, ThreadsFault, run_threads, run_turn};
use jc_single::{
    MOST_BYTES, Output, Status, Writing, legal_histories_keep_the_promises,
    orderly_histories_have_small_numbers, report_of_machine, write_output,
};
use jc_types::{Shape, Want};
use jc_words::LockKind;
use std::alloc::{AllocError, Global};
use std::sync::Wait;
use std::thread::Threads;

// What is printed of the cluster of a run on threads that has ended.
fn told(alloc: Global, cluster: Cluster, full: bool) -> Result<Output, Want>
    requires valid_actions { AreValidCommands cluster.seen.script.commands }
    requires some_controllers { 0 < cluster.seen.shape.controllers }
    requires some_workers { 0 < cluster.seen.shape.workers }
    requires few_events { cluster.seen.shape.events ≤ 200000 }
    requires lanes { Each (λ (command : Command). command.lane < 2 ^ 8)
        cluster.seen.script.commands }
    requires few_controllers { cluster.seen.shape.controllers ≤ 4 }
    requires few_workers { cluster.seen.shape.workers ≤ 16 }
    requires ended { IsEndOfRun cluster.seen.script cluster.seen.shape cluster.seen full }
    ensures full { IfOk result (λ output. output.full ≡ full) }
    ensures report { IfOk result (λ output. (threads : ℕ) → 1 ≤ threads
        → IsReport threads cluster.seen.script cluster.seen.shape full
        (writing_text output.text)) }
{
    legal_histories_keep_the_promises();
    orderly_histories_have_small_numbers();
    let _history = cluster.history();
    let report = report_of_machine(alloc, cluster.into_machine(), full)?;
    Ok(Output {
        text: Writing::Drafted(report),
        full,
    })
}

// The cluster of a run on threads that has ended, and whether its history had no room for an event that was to come.
#[derive(Drop)]
struct Ended {
    cluster: Cluster,
    full: bool,
}

// The run on threads that share the cluster by the lock. Both locks promise the same.
//
// As `run_threads`.
fn run_locked<R: Threads + Wait + Sync, G: Gate + Sync>(
    host: &Host<'_, R, G>,
    lock: LockKind,
    play: Play<'_>,
) -> Result<Cluster, ThreadsFault>
    requires valid_actions { AreValidCommands play.script.now.commands }
    requires fits_shape { IsScriptFor play.script.now play.shape.now }
    ensures { EndsRun play.entry.script.now play.entry.shape.now result }
{
    match lock {
        LockKind::Mutex => run_threads(
            host.rt,
            host.alloc,
            play.script,
            play.shape,
            play.threads,
            host.gate,
        ),
        LockKind::Turn => run_turn(
            host.rt,
            host.alloc,
            play.script,
            play.shape,
            play.threads,
            host.gate,
        ),
    }
}

// The same, with one cluster in its answer, so that it is dropped in one place.
fn run_by<R: Threads + Wait + Sync, G: Gate + Sync>(
    host: &Host<'_, R, G>,
    lock: LockKind,
    play: Play<'_>,
) -> Result<Ended, Want>
    requires valid_actions { AreValidCommands play.script.now.commands }
    requires fits_shape { IsScriptFor play.script.now play.shape.now }
    ensures { IfOk result (λ ended.
        IsEndOfRun play.entry.script.now play.entry.shape.now ended.cluster.seen ended.full) }
{
    match run_locked(host, lock, play) {
        Ok(cluster) => Ok(Ended {
            cluster,
            full: false,
        }),
        Err(ThreadsFault::Full(cluster)) => Ok(Ended {
            cluster,
            full: true,
        }),
        Err(ThreadsFault::Want) => Err(AllocError),
    }
}

// The report of a run of the script on threads.
fn threaded_report<R: Threads + Wait + Sync, G: Gate + Sync>(
    host: &Host<'_, R, G>,
    lock: LockKind,
    play: Play<'_>,
) -> Result<Output, Want>
    requires valid_actions { AreValidCommands play.script.now.commands }
    requires fits_shape { IsScriptFor play.script.now play.shape.now }
    requires lanes { Each (λ (command : Command). command.lane < 2 ^ 8) play.script.now.commands }
    requires fit_shape { IsFitShape play.shape.now }
    ensures { IfOk result (λ output.
        IsReport play.entry.threads play.entry.script.now play.entry.shape.now output.full (writing_text output.text)) }
{
    let ended = run_by(host, lock, play)?;
    told(host.alloc, ended.cluster, ended.full)
}

// The report of a run on threads of the script in the input.
fn threaded_answer<R: Threads + Wait + Sync, G: Gate + Sync>(
    host: &Host<'_, R, G>,
    lock: LockKind,
    shape: &Shape,
    threads: u32,
    input: &[u8],
) -> Result<Output, ScriptFault>
    requires some_threads { 1 ≤ threads }
    requires few_threads { threads ≤ 16 }
    requires fit_shape { IsFitShape shape.now }
    requires short { length input.now ≤ most_bytes }
    ensures report { IfOk result (λ output. IsOkAnd (script_of shape.now input.now) (λ commands.
        IsReport threads (record { commands = commands }) shape.now output.full
        (writing_text output.text))) }
    ensures bad_line { (number : ℕ) (cause : Cause)
        → IsErrOf result (ScriptFault.BadLine number cause)
        → script_of shape.now input.now ≡ Err (record { number = number; cause = cause }) }
{
    scripts_fit_their_shape();
    let script = read_script(host.alloc, input, shape)?;
    let play = Play {
        script: &script,
        shape,
        threads,
    };
    Ok(threaded_report(host, lock, play)?)
}

// The report of a run on threads of what the source has, or how the run ends that has nothing to write.
fn threaded_made<R: Threads + Wait + Sync, S: Source, G: Gate + Sync>(
    host: &Host<'_, R, G>,
    lock: LockKind,
    shape: &Shape,
    threads: u32,
    source: &mut S,
) -> Result<Output, Status>
    requires some_threads { 1 ≤ threads }
    requires few_threads { threads ≤ 16 }
    requires fit_shape { IsFitShape shape.now }
    ensures { HasMade (Run threads lock shape.now)
        (change (S.left source.old) (S.left source.new) (S.faults source.old) (S.faults source.new))
        (IsPlayedBy threads shape.now) result }
{
    let input = match read_all(host.alloc, source, MOST_BYTES) {
        Ok(bytes) => bytes,
        Err(ReadEnd::ReadFault) => return Err(Status::ReadFault),
        Err(ReadEnd::TooLong) => return Err(Status::TooLong),
        Err(ReadEnd::Want) => return Err(Status::Want),
    };
    match threaded_answer(host, lock, shape, threads, &input) {
        Ok(output) => Ok(output),
        Err(ScriptFault::BadLine { number, cause }) => Err(Status::BadScript {
            line: number,
            cause,
        }),
        Err(ScriptFault::Want) => Err(Status::Want),
    }
}

/// Reads a script, plays it on threads, and writes the report.
pub(crate) fn run_threaded<R: Threads + Wait + Sync, S: Source, K: Sink, G: Gate + Sync>(
    host: &Host<'_, R, G>,
    lock: LockKind,
    shape: &Shape,
    threads: u32,
    source: &mut S,
    sink: &mut K,
) -> Status
    requires some_threads { 1 ≤ threads }
    requires few_threads { threads ≤ 16 }
    requires fit_shape { IsFitShape shape.now }
    ensures { RunHasEnded (Run threads lock shape.now)
        (change (S.left source.old) (S.left source.new) (S.faults source.old) (S.faults source.new))
        (change (K.held sink.old) (K.held sink.new) (K.faults sink.old) (K.faults sink.new))
        (IsPlayedBy threads shape.now) result }
{
    match threaded_made(host, lock, shape, threads, source) {
        Ok(output) => write_output(output, sink),
        Err(status) => status,
    }
}
