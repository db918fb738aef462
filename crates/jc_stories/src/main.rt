//! `jc_stories`: answers the cases of its input, and prints each answer behind the label of its case.
//!
//! A line `== LABEL WORDS` begins a run of the program with those words. The lines up to the next such line, or to the next
//! question, are the script; those among them that begin with `= ` are settings of the run (`runs`). What is printed is the
//! label with how the run ended, and then what it wrote and a line feed. A line `? QUESTION` asks one of the parts
//! (`questions`), and is printed with the answer.
#![tactic(auto)]

mod generated;
mod keys;
mod members;
mod moments;
mod questions;
mod runs;
mod sets;

use questions::answer;
use runs::Run;
use std::alloc::Global;
use std::io;
use std::io::{BufRead, BufReader, BufWriter, Write};
use std::sync::Wait;
use std::thread::Threads;

// Prints the run's label, how it ends and what it writes.
fn tell<R: Threads + Wait + Sync, W: Write>(
    rt: &R,
    alloc: Global,
    run: &Option<Run>,
    out: &mut W,
) -> io::Result<()> {
    if let Some(run) = run {
        out.write_all(&run.told(rt, alloc)?)?;
    }
    Ok(())
}

fn main(rt: HostRuntime) -> io::Result<()> {
    let alloc = rt.alloc();
    let mut out = BufWriter::new(alloc, rt.stdout())?;
    let mut run: Option<Run> = None;
    for line in BufReader::new(alloc, rt.stdin())?.split(alloc, b'\n') {
        let line = line?;
        let text = str::from_utf8(&line).unwrap_or("");
        if let Some(head) = text.strip_prefix("== ") {
            tell(&rt, alloc, &run, &mut out)?;
            run = Some(Run::of(alloc, head)?);
        } else if let Some(question) = text.strip_prefix("? ") {
            tell(&rt, alloc, &run, &mut out)?;
            run = None;
            writeln!(out, "? {question}: {}", answer(alloc, question)?)?;
        } else if let Some(run) = &mut run {
            run.add(alloc, &line)?;
        }
    }
    tell(&rt, alloc, &run, &mut out)?;
    out.flush()
}
