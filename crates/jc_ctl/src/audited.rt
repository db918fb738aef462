//! The audit of a report: it is read, and what is to be said of it is written.

ghost use Rattle.std.specs.Prelude.{◌≡◌, ◌≢◌, ◌<◌, ◌≤◌, ◌+◌, ◌⊎◌, IfOk, IfSome, length, string_bytes, ℕ};
ghost use Rattle.std.specs.Io.KnownBytes.{Appends, Keeps};
ghost use Rattle.jc_io.specs.Faults.{Rose};
ghost use Rattle.jc_io.specs.Moved.{AppendsFront, TakesAtMost, TakesCount};
ghost use Rattle.jc_script.specs.Scripts.{most_bytes};
ghost use Rattle.jc_script.specs.Cause.{Cause};
ghost use Rattle.jc_audit.specs.declared.verdicts.Verdict.TheVariants.{No, Yes};
ghost use Rattle.jc_words.specs.FitOrders.{IsFitShape};
ghost use Rattle.jc_single.specs.RunEnds.{change};
ghost use Rattle.jc_ctl.specs.Audited.{IsAudited, TellsVerdict, TellsVerdictFront, verdict_status, verdict_text};
ghost use Rattle.jc_ctl.specs.Done.{HasAudited, HasJudged, HasSaid};

use jc_audit::{Verdict, audit};
use jc_io::{ReadEnd, Sink, Source, WriteFault, read_all, write_all};
use jc_single::{MOST_BYTES, Status};
use jc_types::{Shape, Want};
use std::alloc::Global;

// What is written of the verdict.
fn verdict_text(alloc: Global, verdict: Verdict) -> Result<String, Want>
    ensures { IfOk result (λ text. string_bytes text ≡ verdict_text verdict) }
{
    match verdict {
        Verdict::Yes => String::from_str(alloc, "yes\n"),
        Verdict::No { line } => format!(in alloc; "no {line}\n"),
    }
}

// How the run ends that has written it.
fn verdict_status(verdict: Verdict) -> Status
    ensures { result ≡ verdict_status verdict }
{
    match verdict {
        Verdict::Yes => Status::Ok,
        Verdict::No { line } => Status::AuditNo { line },
    }
}

// Writes the verdict.
fn write_verdict<K: Sink>(alloc: Global, verdict: Verdict, sink: &mut K) -> Status
    ensures { HasSaid verdict
        (change (K.held sink.old) (K.held sink.new) (K.faults sink.old) (K.faults sink.new)) result }
{
    let text = match verdict_text(alloc, verdict) {
        Ok(text) => text,
        Err(_) => return Status::Want,
    };
    match write_all(sink, text.as_bytes()) {
        Ok(()) => verdict_status(verdict),
        Err(WriteFault) => Status::WriteFault,
    }
}

// What is to be said of what the source has, or how the run ends that has nothing to write.
fn judged<S: Source>(alloc: Global, shape: &Shape, source: &mut S) -> Result<Verdict, Status>
    requires { IsFitShape shape.now }
    ensures { HasJudged shape.now
        (change (S.left source.old) (S.left source.new) (S.faults source.old) (S.faults source.new)) result }
{
    let input = match read_all(alloc, source, MOST_BYTES) {
        Ok(bytes) => bytes,
        Err(ReadEnd::ReadFault) => return Err(Status::ReadFault),
        Err(ReadEnd::TooLong) => return Err(Status::TooLong),
        Err(ReadEnd::Want) => return Err(Status::Want),
    };
    match audit(alloc, &input, *shape) {
        Ok(verdict) => Ok(verdict),
        Err(_) => Err(Status::Want),
    }
}

/// As `run_audit`, with all that it promises in one word.
pub(crate) fn audit_report<S: Source, K: Sink>(
    alloc: Global,
    shape: &Shape,
    source: &mut S,
    sink: &mut K,
) -> Status
    requires { IsFitShape shape.now }
    ensures { HasAudited shape.now
        (change (S.left source.old) (S.left source.new) (S.faults source.old) (S.faults source.new))
        (change (K.held sink.old) (K.held sink.new) (K.faults sink.old) (K.faults sink.new)) result }
{
    match judged(alloc, shape, source) {
        Ok(verdict) => write_verdict(alloc, verdict, sink),
        Err(status) => status,
    }
}

/// Reads a report, and writes whether it is one that a run in the shape prints: `yes`, or `no N` with the number of
/// the first line that differs. It waits for nobody. `run_program` does it where the words are `audit` and options.
pub fn run_audit<S: Source, K: Sink>(
    alloc: Global,
    shape: &Shape,
    source: &mut S,
    sink: &mut K,
) -> Status
    requires { IsFitShape shape.now }
    // With Ok the input is a report; with AuditNo it is none, and the line is the first that differs. That was written.
    ensures yes { result ≡ Status.Ok → IfSome (S.left source.old) (λ input.
        TellsVerdict shape.now input Yes (K.held sink.old) (K.held sink.new)) }
    ensures no { (line : ℕ) → result ≡ Status.AuditNo line → IfSome (S.left source.old) (λ input.
        TellsVerdict shape.now input (No line) (K.held sink.old) (K.held sink.new)) }
    ensures front { result ≡ Status.WriteFault → IfSome (S.left source.old) (λ input.
        TellsVerdictFront shape.now input (K.held sink.old) (K.held sink.new)) }
    // Of an audit no words are bad, no script is, and no history is full.
    ensures good_words { result ≢ Status.BadWords }
    ensures no_script { (line : ℕ) (cause : Cause) → result ≢ Status.BadScript line cause }
    ensures not_full { result ≢ Status.HistoryFull }
    ensures read_fault { result ≡ Status.ReadFault → Rose (S.faults source.old) (S.faults source.new) }
    ensures write_fault { result ≡ Status.WriteFault → Rose (K.faults sink.old) (K.faults sink.new) }
    ensures too_long { result ≡ Status.TooLong
        → TakesCount (S.left source.old) (S.left source.new) (most_bytes + 1) }
    ensures not_too_long { result ≢ Status.TooLong
        → TakesAtMost (S.left source.old) (S.left source.new) most_bytes }
    ensures nothing_written { result ≢ Status.Ok → ((line : ℕ) → result ≢ Status.AuditNo line)
        → result ≢ Status.WriteFault → Keeps (K.held sink.old) (K.held sink.new) }
    // An input that is not too long and no fault give what is to be said, or want of memory.
    ensures complete { ¬ Rose (S.faults source.old) (S.faults source.new)
        → ¬ Rose (K.faults sink.old) (K.faults sink.new)
        → IfSome (S.left source.old) (λ input. length input ≤ most_bytes
        → IsAudited shape.now input result ⊎ (result ≡ Status.Want)) }
    ensures complete_too_long { ¬ Rose (S.faults source.old) (S.faults source.new)
        → IfSome (S.left source.old) (λ input. most_bytes < length input
        → (result ≡ Status.TooLong) ⊎ (result ≡ Status.Want)) }
{
    audit_report(alloc, shape, source, sink)
}
