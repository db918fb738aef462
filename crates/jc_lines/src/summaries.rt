//! What was judged of a Job, and the summary of a run.

ghost use Rattle.std.specs.Prelude.{◌≡◌, ◌++◌, OnErr, OnOk, codes, decimal, string_bytes, true};
ghost use Rattle.jc_lines.specs.Summaries.{all_failed, all_succeeded, jobs_summary, pods_summary};
ghost use Rattle.jc_lines.specs.Summaries.{full_line, indexes_text, summary_text, verdicts_line};
ghost use Rattle.jc_lines.specs.Summaries.{with_condition};

use jc_print::put_decimal;
use jc_states::stands;
use jc_texts::print_key;
use jc_types::{Arc, CondKind, Job, Mode, Want};
use std::alloc::Global;

// A number behind its words.
fn print_count(out: &mut String, words: &str, count: u128) -> Result<(), Want>
    ensures { OnOk result (string_bytes out.new
        ≡ string_bytes out.old ++ (words.now ++ decimal count)) }
{
    out.push_str(words)?;
    put_decimal(out, count)
}

// How many indexes are completed, where the Job is Indexed.
fn print_indexes(out: &mut String, mode: Mode, indexes: u32) -> Result<(), Want>
    ensures { OnOk result (string_bytes out.new
        ≡ string_bytes out.old ++ indexes_text mode indexes) }
{
    match mode {
        Mode::NonIndexed => Ok(()),
        Mode::Indexed => print_count(out, " indexes ", u128::from(indexes)),
    }
}

// How many pods were judged to have succeeded and to have failed.
fn print_judged(out: &mut String, succeeded: u32, failed: u32) -> Result<(), Want>
    ensures { OnOk result (string_bytes out.new ≡ string_bytes out.old ++ (codes " succeeded "
        ++ (decimal succeeded ++ (codes " failed " ++ decimal failed)))) }
{
    print_count(out, " succeeded ", u128::from(succeeded))?;
    print_count(out, " failed ", u128::from(failed))
}

// The whole line on a Job's verdicts.
fn put_verdicts(
    out: &mut String,
    job: &Job,
    succeeded: u32,
    failed: u32,
    indexes: u32,
) -> Result<(), Want>
    ensures { OnOk result (string_bytes out.new
        ≡ string_bytes out.old ++ verdicts_line job.now succeeded failed indexes) }
{
    out.push_str("verdicts ")?;
    print_key(out, &job.key)?;
    print_judged(out, succeeded, failed)?;
    print_indexes(out, job.spec.mode, indexes)?;
    out.push_str("\n")?;
    Ok(())
}

/// Puts the line on how many of a Job's pods were judged behind the text.
///
/// # Errors
///
/// Want of memory; the text is then as before.
pub fn print_verdicts(
    out: &mut String,
    alloc: Global,
    job: &Job,
    succeeded: u32,
    failed: u32,
    indexes: u32,
) -> Result<(), Want>
    ensures line { OnOk result (string_bytes out.new
        ≡ string_bytes out.old ++ verdicts_line job.now succeeded failed indexes) }
    ensures kept { OnErr result (string_bytes out.new ≡ string_bytes out.old) }
{
    let mut line = String::new(alloc);
    put_verdicts(&mut line, job, succeeded, failed, indexes)?;
    out.push_str(line.as_str())
}

/// Puts the line that a full history ends with behind the text, where it is one.
///
/// # Errors
///
/// Want of memory; the text is then as before.
pub fn print_full(out: &mut String, full: bool) -> Result<(), Want>
    ensures line { OnOk result (string_bytes out.new ≡ string_bytes out.old ++ full_line full) }
    ensures kept { OnErr result (string_bytes out.new ≡ string_bytes out.old) }
{
    if full {
        return out.push_str("full\n");
    }
    Ok(())
}

// How many Jobs have a true condition of the kind.
fn with_condition(kind: CondKind, jobs: &[Arc<Job>]) -> usize
    ensures { result ≡ with_condition kind jobs.now }
{
    jobs.iter()
        .filter(|job| stands(kind, &job.status.conditions))
        .count()
}

// How many pods the Jobs have counted as succeeded. A sum of so many numbers of 64 bits has at most
// 128.
fn all_succeeded(jobs: &[Arc<Job>]) -> u128
    ensures { result ≡ all_succeeded jobs.now }
{
    let mut sum: u128 = 0;
    for job in jobs {
        sum += u128::from(job.status.succeeded);
    }
    sum
}

// How many they have counted as failed.
fn all_failed(jobs: &[Arc<Job>]) -> u128
    ensures { result ≡ all_failed jobs.now }
{
    let mut sum: u128 = 0;
    for job in jobs {
        sum += u128::from(job.status.failed);
    }
    sum
}

fn print_jobs_summary(out: &mut String, jobs: &[Arc<Job>]) -> Result<(), Want>
    ensures { OnOk result (string_bytes out.new ≡ string_bytes out.old ++ jobs_summary jobs.now) }
{
    let complete = with_condition(CondKind::Complete, jobs);
    let failed = with_condition(CondKind::Failed, jobs);
    print_count(out, "jobs ", jobs.len() as u128)?;
    print_count(out, "\ncomplete ", complete as u128)?;
    print_count(out, "\nfailed ", failed as u128)?;
    out.push_str("\n")
}

// A number behind its words, and another behind others, at the end of a line.
fn print_counts(
    out: &mut String,
    words: &str,
    count: u128,
    more_words: &str,
    more: u128,
) -> Result<(), Want>
    ensures { OnOk result (string_bytes out.new ≡ string_bytes out.old ++ (words.now
        ++ (decimal count ++ (more_words.now ++ (decimal more ++ codes "\n"))))) }
{
    print_count(out, words, count)?;
    print_count(out, more_words, more)?;
    out.push_str("\n")
}

fn print_pods_summary(out: &mut String, jobs: &[Arc<Job>]) -> Result<(), Want>
    ensures { OnOk result (string_bytes out.new ≡ string_bytes out.old ++ pods_summary jobs.now) }
{
    let succeeded = all_succeeded(jobs);
    let failed = all_failed(jobs);
    print_counts(out, "pods succeeded ", succeeded, "\npods failed ", failed)
}

// All lines of the summary.
fn put_summary(out: &mut String, jobs: &[Arc<Job>], full: bool) -> Result<(), Want>
    ensures { OnOk result (string_bytes out.new
        ≡ string_bytes out.old ++ summary_text jobs.now full) }
{
    print_jobs_summary(out, jobs)?;
    print_pods_summary(out, jobs)?;
    print_full(out, full)?;
    Ok(())
}

/// Puts the summary of the Jobs that are there behind the text: how many there are, are complete and
/// have failed, how many pods they have counted, and whether the history is full.
///
/// # Errors
///
/// Want of memory; the text is then as before.
pub fn print_summary(
    out: &mut String,
    alloc: Global,
    jobs: &[Arc<Job>],
    full: bool,
) -> Result<(), Want>
    ensures lines { OnOk result (string_bytes out.new
        ≡ string_bytes out.old ++ summary_text jobs.now full) }
    ensures kept { OnErr result (string_bytes out.new ≡ string_bytes out.old) }
{
    let mut lines = String::new(alloc);
    put_summary(&mut lines, jobs, full)?;
    out.push_str(lines.as_str())
}
