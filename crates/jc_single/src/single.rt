//! The top call on one thread: it reads, plays and writes.

ghost use Rattle.std.specs.Prelude.{◌≡◌, ◌≢◌, ◌≤◌, ◌+◌, ◌⊎◌, Err, IfOk, IsErrOf, None, Ok, OnErr, OnOk, Some, if◌then◌else◌, map, string_bytes, vec_len};
ghost use Rattle.std.specs.Io.KnownBytes.{Appends, Keeps};
ghost use Rattle.jc_io.specs.Faults.{HasCause, Rose};
ghost use Rattle.jc_io.specs.Moved.{AppendsFront, TakesAtMost, TakesCount};
ghost use Rattle.jc_script.specs.Scripts.{most_bytes};
ghost use Rattle.jc_words.specs.Words.{order_of};
ghost use Rattle.jc_words.specs.declared.words.Order.{Order};
ghost use Rattle.jc_words.specs.FitOrders.{IsFitOrder};
ghost use Rattle.jc_single.specs.RunEnds.{Answers, HasMade, HasRun, HasWritten, IsUnread, RunHasEnded, change};
ghost use Rattle.jc_single.specs.Played.{OfPlayed};
ghost use Rattle.jc_single.specs.RunAnswers.{IsSingle, OfInput, printed_by, writing_text};
ghost use Rattle.jc_single.specs.Headlines.{TellsHistory, ends_full};

use crate::laws::runs_tell_their_history;
use crate::orders::{Output, Writing, answer};
use crate::status::Status;
use jc_io::{Bytes, ReadEnd, Sink, Source, WriteFault, read_all, write_all};
use jc_report::write_report;
use jc_script::ScriptFault;
use jc_words::{Order, orders_fit, read_words};
use std::alloc::Global;

/// A script, and a report, has at most this many bytes.
pub const MOST_BYTES: u64 = 67_108_864;

// Reads all that the order needs: the whole source for a script or a report, and nothing for a generated one.
fn read_input<S: Source>(alloc: Global, order: &Order, source: &mut S) -> Result<Bytes, ReadEnd>
    ensures all { IfOk result
        (λ bytes. OfInput order.now (S.left source.old) (λ input. input ≡ bytes.items)) }
    ensures within { IfOk result (λ bytes. vec_len bytes ≤ most_bytes) }
    ensures generates { IsUnread order.now → Keeps (S.left source.old) (S.left source.new) }
    ensures never_fails { IsUnread order.now → OnErr result ⊥ }
    ensures fault { IsErrOf result ReadEnd.ReadFault
        → Rose (S.faults source.old) (S.faults source.new) }
    ensures too_long { IsErrOf result ReadEnd.TooLong
        → TakesCount (S.left source.old) (S.left source.new) (most_bytes + 1) }
    ensures not_too_long { result ≢ Err ReadEnd.TooLong
        → TakesAtMost (S.left source.old) (S.left source.new) most_bytes }
{
    match order {
        Order::Run { .. } | Order::Reap { .. } | Order::Audit { .. } => {
            read_all(alloc, source, MOST_BYTES)
        }
        Order::Generate { .. } => Ok(Vec::new(alloc)),
    }
}

/// The status of a run that has written all.
fn ended(full: bool) -> Status
    ensures { result ≡ (if full then Status.HistoryFull else Status.Ok) }
{
    if full {
        return Status::HistoryFull;
    }
    Status::Ok
}

// What the order asks for, or how the run ends that has nothing to write.
fn made<S: Source>(alloc: Global, order: &Order, source: &mut S) -> Result<Output, Status>
    requires fits { IsFitOrder order.now }
    requires single { IsSingle order.now }
    ensures { HasMade order.now
        (change (S.left source.old) (S.left source.new) (S.faults source.old) (S.faults source.new))
        (Answers order.now) result }
{
    let input = match read_input(alloc, order, source) {
        Ok(bytes) => bytes,
        Err(ReadEnd::ReadFault) => return Err(Status::ReadFault),
        Err(ReadEnd::TooLong) => return Err(Status::TooLong),
        Err(ReadEnd::Want) => return Err(Status::Want),
    };
    match answer(alloc, order, &input) {
        Ok(output) => Ok(output),
        Err(ScriptFault::BadLine { number, cause }) => Err(Status::BadScript {
            line: number,
            cause,
        }),
        Err(ScriptFault::Want) => Err(Status::Want),
    }
}

// Writes the text.
//
// As `write_all`.
fn write_text<K: Sink>(text: Writing, sink: &mut K) -> Result<(), WriteFault>
    ensures all { OnOk result (Appends (K.held sink.old) (K.held sink.new) (writing_text text)) }
    ensures fault { HasCause (K.faults sink.old) (K.faults sink.new) result }
    ensures front { OnErr result
        (AppendsFront (K.held sink.old) (K.held sink.new) (writing_text text)) }
{
    match text {
        Writing::Whole(bytes) => write_all(sink, bytes.as_slice()),
        Writing::Drafted(report) => write_report(report, sink),
    }
}

/// Writes the text, and says how the run ends.
pub fn write_output<K: Sink>(output: Output, sink: &mut K) -> Status
    ensures { HasWritten (printed_by output)
        (change (K.held sink.old) (K.held sink.new) (K.faults sink.old) (K.faults sink.new)) result }
{
    let Output { text, full } = output;
    match write_text(text, sink) {
        Ok(()) => ended(full),
        Err(WriteFault) => Status::WriteFault,
    }
}

/// Does what the order asks for, where that is no run on threads and no audit. The memory of what a `run` or a `reap` has
/// played last is not given back.
pub fn run_order<S: Source, K: Sink>(
    alloc: Global,
    order: &Order,
    source: &mut S,
    sink: &mut K,
) -> Status
    requires fits { IsFitOrder order.now }
    requires single { IsSingle order.now }
    ensures { RunHasEnded order.now
        (change (S.left source.old) (S.left source.new) (S.faults source.old) (S.faults source.new))
        (change (K.held sink.old) (K.held sink.new) (K.faults sink.old) (K.faults sink.new))
        (Answers order.now) result }
{
    match made(alloc, order, source) {
        Ok(output) => write_output(output, sink),
        Err(status) => status,
    }
}

// Does what the words ask for: what it has read and written, by how it has ended.
fn run_words<S: Source, K: Sink>(
    alloc: Global,
    words: &[String],
    source: &mut S,
    sink: &mut K,
) -> Status
    requires { (order : Order) → order_of (map string_bytes words.now) ≡ Some order → IsSingle order }
    ensures { HasRun (order_of (map string_bytes words.now))
        (change (S.left source.old) (S.left source.new) (S.faults source.old) (S.faults source.new))
        (change (K.held sink.old) (K.held sink.new) (K.faults sink.old) (K.faults sink.new)) result }
{
    orders_fit();
    match read_words(words) {
        Some(order) => run_order(alloc, &order, source, sink),
        None => Status::BadWords,
    }
}

/// Does what the words ask for, where they ask for no threads and no audit: it waits for nobody. `words` are those after
/// the program's name. It is `run_program` for such words, which says more of it. The memory of what a `run` or a `reap` has
/// played last is not given back, as the program ends then: who calls it again and again loses it each time.
pub fn run_single<S: Source, K: Sink>(
    alloc: Global,
    words: &[String],
    source: &mut S,
    sink: &mut K,
) -> Status
    requires { (order : Order) → order_of (map string_bytes words.now) ≡ Some order → IsSingle order }
    // What it has read and written, by how it has ended: `single_runs_end_as_told` says what that means.
    ensures done { HasRun (order_of (map string_bytes words.now))
        (change (S.left source.old) (S.left source.new) (S.faults source.old) (S.faults source.new))
        (change (K.held sink.old) (K.held sink.new) (K.faults sink.old) (K.faults sink.new)) result }
    // The headline.
    ensures headline { (result ≡ Status.Ok) ⊎ (result ≡ Status.HistoryFull)
        → (order : Order) → order_of (map string_bytes words.now) ≡ Some order
        → OfPlayed order (S.left source.old) (λ staging script.
        TellsHistory staging.threads script staging.shape (ends_full result)
        (K.held sink.old) (K.held sink.new)) }
{
    orders_fit();
    runs_tell_their_history();
    run_words(alloc, words, source, sink)
}
