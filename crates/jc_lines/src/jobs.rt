//! The line of a Job.

ghost use Rattle.std.specs.Prelude.{◌≡◌, ◌++◌, OnErr, OnOk, codes, string_bytes};
ghost use Rattle.serde_json.specs.Written.{compact_text};
ghost use Rattle.jc_print.specs.PrintedStatuses.{status_data};
ghost use Rattle.jc_lines.specs.Jobs.{job_line, uid_words};
ghost use Rattle.jc_texts.specs.ReportWords.{version_text};

use jc_print::print_status;
use jc_texts::{print_key, print_version};
use jc_types::{Job, Want, uid_text};
use std::alloc::Global;

// Its UID and its version, between blanks.
fn print_identity(out: &mut String, alloc: Global, job: &Job) -> Result<(), Want>
    ensures { OnOk result (string_bytes out.new ≡ string_bytes out.old ++ (codes " "
        ++ (uid_words job.now.uid ++ (codes " " ++ (version_text job.now.version ++ codes " "))))) }
{
    let uid = uid_text(alloc, job.uid)?;
    out.push_str(" ")?;
    out.push_str(uid.as_str())?;
    print_version(out, " v", job.version)?;
    out.push_str(" ")
}

// The whole line.
fn put_job(out: &mut String, alloc: Global, job: &Job) -> Result<(), Want>
    ensures { OnOk result (string_bytes out.new ≡ string_bytes out.old ++ job_line job.now) }
{
    let status = print_status(alloc, &*job.status)?;
    out.push_str("job ")?;
    print_key(out, &job.key)?;
    print_identity(out, alloc, job)?;
    out.push_str(status.as_str())?;
    out.push_str("\n")?;
    Ok(())
}

/// Puts the line of a Job behind the text: its key, its UID, its version and its status.
///
/// # Errors
///
/// Want of memory; the text is then as before.
pub fn print_job(out: &mut String, alloc: Global, job: &Job) -> Result<(), Want>
    ensures line { OnOk result (string_bytes out.new ≡ string_bytes out.old ++ job_line job.now) }
    ensures kept { OnErr result (string_bytes out.new ≡ string_bytes out.old) }
{
    let mut line = String::new(alloc);
    put_job(&mut line, alloc, job)?;
    out.push_str(line.as_str())
}
