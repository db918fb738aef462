//! `jobctl`: plays a script of a cluster, read from standard input, and prints the report; or audits such a report; or
//! plays a generated script, and prints its summary.
#![tactic(auto)]

#[cfg(test)]
mod tests;

use jc_ctl::{FreeGate, Status, run_program};
use jc_io::{StdSink, StdSource};
use jc_script::Cause;
use std::process::ExitCode;
use std::{env, io};

// The words after the program's name.
fn words(rt: &HostRuntime) -> io::Result<Vec<String>> {
    let mut args = env::args(rt)?;
    let _program = args.next();
    Ok(args.collect(rt.alloc())?)
}

// Says on standard error why a script is bad.
fn tell_bad(rt: &HostRuntime, line: u32, cause: &Cause) {
    let _told = match cause.text(rt.alloc()) {
        Ok(text) => eprintln!(rt; "jobctl: line {line}: {text}"),
        Err(_) => eprintln!(rt; "jobctl: line {line}"),
    };
}

// Says on standard error why a run did not end well. That line may be lost without harm.
fn tell(rt: &HostRuntime, status: &Status) {
    let _told = match status {
        Status::Ok => Ok(()),
        Status::BadWords => eprintln!(rt; "jobctl: bad words"),
        Status::ReadFault => eprintln!(rt; "jobctl: read fault"),
        Status::WriteFault => eprintln!(rt; "jobctl: write fault"),
        Status::BadScript { line, cause } => {
            tell_bad(rt, *line, cause);
            Ok(())
        }
        Status::HistoryFull => eprintln!(rt; "jobctl: history full"),
        Status::AuditNo { line } => eprintln!(rt; "jobctl: no at line {line}"),
        Status::Want => eprintln!(rt; "jobctl: no memory"),
        Status::TooLong => eprintln!(rt; "jobctl: input too long"),
    };
}

// The status with which the process ends.
fn value(status: &Status) -> u8 {
    match status {
        Status::Ok => 0,
        Status::BadWords => 2,
        Status::ReadFault => 3,
        Status::WriteFault => 4,
        Status::BadScript { .. } => 5,
        Status::HistoryFull => 6,
        Status::Want => 7,
        Status::TooLong => 8,
        Status::AuditNo { .. } => 9,
    }
}

fn main(rt: HostRuntime) -> ExitCode {
    let status = match words(&rt) {
        Ok(words) => {
            let mut source = StdSource::new(rt.stdin());
            let mut sink = StdSink::new(rt.stdout());
            run_program(&rt, rt.alloc(), &words, &mut source, &mut sink, &FreeGate)
        }
        Err(error) if error.kind() == io::ErrorKind::OutOfMemory => Status::Want,
        // A word is not UTF-8.
        Err(_) => Status::BadWords,
    };
    tell(&rt, &status);
    ExitCode::from(value(&status))
}
