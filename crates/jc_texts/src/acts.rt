//! The texts of acts: what the command of a script does, and what an event of the system does.

ghost use Rattle.std.specs.Prelude.{◌≡◌, ◌+◌, ◌++◌, OnOk, codes, decimal, false, length, string_bytes, true};
ghost use Rattle.jc_log.specs.Acts as does;
ghost use Rattle.jc_log.specs.Deeds.{act_of_action, act_of_system};
ghost use Rattle.jc_print.specs.Puts.{PutsAtMost};
ghost use Rattle.jc_texts.specs.Short.{is_short_act};
ghost use Rattle.jc_texts.specs.ActTexts.{act_text, wanted_text, worker_text};
ghost use Rattle.jc_texts.specs.ReportWords.{key_text, objects_word};

use crate::changes::{print_ends, print_phase_change};
use crate::keys::{print_key, print_pod, print_version};
use crate::short::is_short_action;
use crate::words::fault_word;
use jc_print::{print_change, print_spec, put_decimal, put_small};
use jc_types::{
    Action1, Ends, Fault, JobSpec, Key, Kind, PhaseChange, SpecChange, Sys, Uid, Version, Want,
};
use std::alloc::Global;

fn print_create(out: &mut String, alloc: Global, key: &Key, spec: &JobSpec) -> Result<(), Want>
    ensures { OnOk result (string_bytes out.new
        ≡ string_bytes out.old ++ act_text (does.Create key.now spec.now)) }
{
    out.push_str("create ")?;
    print_key(out, key)?;
    out.push_str(" ")?;
    print_spec(out, alloc, spec)?;
    Ok(())
}

// The version that an update needs, between blanks.
fn print_wanted(out: &mut String, version: Option<Version>) -> Result<(), Want>
    ensures { OnOk result (string_bytes out.new
        ≡ string_bytes out.old ++ (codes " " ++ (wanted_text version ++ codes " "))) }
{
    match version {
        None => out.push_str(" any "),
        Some(version) => {
            print_version(out, " v", version)?;
            out.push_str(" ")
        }
    }
}

fn print_update(
    out: &mut String,
    alloc: Global,
    key: &Key,
    version: Option<Version>,
    change: &SpecChange,
) -> Result<(), Want>
    ensures { OnOk result (string_bytes out.new
        ≡ string_bytes out.old ++ act_text (does.Update key.now version change.now)) }
{
    out.push_str("update ")?;
    print_key(out, key)?;
    print_wanted(out, version)?;
    print_change(out, alloc, change)?;
    Ok(())
}

fn print_delete(out: &mut String, key: &Key) -> Result<(), Want>
    ensures text { OnOk result (string_bytes out.new
        ≡ string_bytes out.old ++ act_text (does.Delete key.now)) }
    ensures most { PutsAtMost (length (key_text key.now) + 10) out.old out.new result }
{
    out.push_str("delete ")?;
    print_key(out, key)?;
    Ok(())
}

fn print_finish(out: &mut String, pod: Uid, exit: i32) -> Result<(), Want>
    ensures text { OnOk result (string_bytes out.new
        ≡ string_bytes out.old ++ act_text (does.Finish pod exit)) }
    ensures most { PutsAtMost 100 out.old out.new result }
{
    print_pod(out, "finish ", pod)?;
    out.push_str(" ")?;
    put_decimal(out, exit)
}

fn print_report(out: &mut String, alloc: Global, pod: Uid, change: &PhaseChange) -> Result<(), Want>
    ensures { OnOk result (string_bytes out.new
        ≡ string_bytes out.old ++ act_text (does.Report pod change.now)) }
{
    print_pod(out, "report ", pod)?;
    out.push_str(" ")?;
    print_phase_change(out, alloc, change)?;
    Ok(())
}

fn print_fate(out: &mut String, alloc: Global, key: &Key, ends: &Ends) -> Result<(), Want>
    ensures { OnOk result (string_bytes out.new
        ≡ string_bytes out.old ++ act_text (does.Fate key.now ends.now)) }
{
    out.push_str("fate ")?;
    print_key(out, key)?;
    out.push_str(" ")?;
    print_ends(out, alloc, ends.as_slice())?;
    Ok(())
}

fn print_clock(out: &mut String, add: u64) -> Result<(), Want>
    ensures text { OnOk result (string_bytes out.new
        ≡ string_bytes out.old ++ act_text (does.Clock add)) }
    ensures most { PutsAtMost 60 out.old out.new result }
{
    out.push_str("clock ")?;
    put_decimal(out, add)
}

// A kind's word behind a blank.
fn print_kind(out: &mut String, kind: Kind) -> Result<(), Want>
    ensures text { OnOk result (string_bytes out.new
        ≡ string_bytes out.old ++ (codes " " ++ objects_word kind)) }
    ensures most { PutsAtMost 10 out.old out.new result }
{
    match kind {
        Kind::Jobs => out.push_str(" jobs"),
        Kind::Pods => out.push_str(" pods"),
    }
}

// A controller's cache of a kind.
fn print_cache(out: &mut String, controller: u32, kind: Kind) -> Result<(), Want>
    ensures text { OnOk result (string_bytes out.new ≡ string_bytes out.old
        ++ (decimal controller ++ (codes " " ++ objects_word kind))) }
    ensures most { PutsAtMost 60 out.old out.new result }
{
    put_small(out, controller)?;
    print_kind(out, kind)
}

// A controller's worker.
fn print_worker(out: &mut String, controller: u32, worker: u32) -> Result<(), Want>
    ensures text { OnOk result (string_bytes out.new
        ≡ string_bytes out.old ++ worker_text controller worker) }
    ensures most { PutsAtMost 90 out.old out.new result }
{
    put_small(out, controller)?;
    out.push_str(" ")?;
    put_small(out, worker)
}

fn print_restart(out: &mut String, controller: u32) -> Result<(), Want>
    ensures text { OnOk result (string_bytes out.new
        ≡ string_bytes out.old ++ act_text (does.Restart controller)) }
    ensures most { PutsAtMost 60 out.old out.new result }
{
    out.push_str("restart ")?;
    put_small(out, controller)
}

fn print_fault(out: &mut String, controller: u32, worker: u32, fault: Fault) -> Result<(), Want>
    ensures text { OnOk result (string_bytes out.new
        ≡ string_bytes out.old ++ act_text (does.PutFault controller worker fault)) }
    ensures most { PutsAtMost 150 out.old out.new result }
{
    out.push_str("fault ")?;
    print_worker(out, controller, worker)?;
    out.push_str(" ")?;
    out.push_str(fault_word(fault))
}

/// Puts what a command does behind the text, where that is short: it takes no memory where the text has room for 400
/// bytes. A sync is printed as the begin that is its own event.
///
/// # Errors
///
/// Want of memory.
pub fn print_short_action(out: &mut String, action: &Action1) -> Result<(), Want>
    requires short { is_short_act (act_of_action action.now) ≡ true }
    ensures text { OnOk result (string_bytes out.new
        ≡ string_bytes out.old ++ act_text (act_of_action action.now)) }
    ensures most { PutsAtMost 400 out.old out.new result }
{
    match action {
        Action1::Create { .. }
        | Action1::Update { .. }
        | Action1::Report { .. }
        | Action1::Fate { .. } => unreachable!(),
        Action1::Delete { key } => print_delete(out, key),
        Action1::Mark { pod } => print_pod(out, "mark ", *pod),
        Action1::Strip { pod } => print_pod(out, "strip ", *pod),
        Action1::Finish { pod, exit } => print_finish(out, *pod, *exit),
        Action1::Clock { add } => print_clock(out, *add),
        Action1::List { controller, kind } => {
            out.push_str("list ")?;
            print_cache(out, *controller, *kind)
        }
        Action1::Deliver { controller, kind } => {
            out.push_str("deliver ")?;
            print_cache(out, *controller, *kind)
        }
        Action1::Begin { controller, worker } => {
            out.push_str("begin ")?;
            print_worker(out, *controller, *worker)
        }
        Action1::Sync { controller, worker } => {
            out.push_str("begin ")?;
            print_worker(out, *controller, *worker)
        }
        Action1::Step { controller, worker } => {
            out.push_str("step ")?;
            print_worker(out, *controller, *worker)
        }
        Action1::Node => out.push_str("node"),
        Action1::Restart { controller } => print_restart(out, *controller),
        Action1::PutFault {
            controller,
            worker,
            fault,
        } => { print_fault(out, *controller, *worker, *fault) }
        Action1::Settle => out.push_str("settled"),
    }
}

// What a command does, where that is not short.
fn print_long_action(out: &mut String, alloc: Global, action: &Action1) -> Result<(), Want>
    requires { is_short_act (act_of_action action.now) ≡ false }
    ensures { OnOk result (string_bytes out.new
        ≡ string_bytes out.old ++ act_text (act_of_action action.now)) }
{
    match action {
        Action1::Create { key, spec } => print_create(out, alloc, key, &**spec),
        Action1::Update {
            key,
            version,
            change,
        } => { print_update(out, alloc, key, *version, change) }
        Action1::Report { pod, change } => print_report(out, alloc, *pod, change),
        Action1::Fate { key, ends } => print_fate(out, alloc, key, ends),
        Action1::Delete { key } => print_delete(out, key),
        _ => unreachable!(),
    }
}

/// Puts what a command does behind the text. A sync is printed as the begin that is its own event.
///
/// # Errors
///
/// Want of memory.
pub fn print_action(out: &mut String, alloc: Global, action: &Action1) -> Result<(), Want>
    ensures { OnOk result (string_bytes out.new
        ≡ string_bytes out.old ++ act_text (act_of_action action.now)) }
{
    if is_short_action(action) {
        return print_short_action(out, action);
    }
    print_long_action(out, alloc, action)
}

/// Puts what an event of the system does behind the text.
///
/// # Errors
///
/// Want of memory.
pub fn print_system(out: &mut String, system: &Sys) -> Result<(), Want>
    ensures text { OnOk result (string_bytes out.new
        ≡ string_bytes out.old ++ act_text (act_of_system system.now)) }
    ensures most { PutsAtMost 100 out.old out.new result }
{
    match system {
        Sys::List { controller, kind } => {
            out.push_str("list ")?;
            print_cache(out, *controller, *kind)
        }
        Sys::Deliver { controller, kind } => {
            out.push_str("deliver ")?;
            print_cache(out, *controller, *kind)
        }
        Sys::Begin { controller, worker } => {
            out.push_str("begin ")?;
            print_worker(out, *controller, *worker)
        }
        Sys::Step { controller, worker } => {
            out.push_str("step ")?;
            print_worker(out, *controller, *worker)
        }
        Sys::Node => out.push_str("node"),
        Sys::Clock { add } => print_clock(out, add.as_u64()),
    }
}

// What an event of the system does, from the blank behind its number up to the reply, in its pieces.
#[inline(never)]
fn put_pieces(out: &mut String, system: &Sys) -> Result<(), Want>
    ensures text { OnOk result (string_bytes out.new ≡ string_bytes out.old
        ++ (codes " - " ++ (act_text (act_of_system system.now) ++ codes " -> "))) }
    ensures most { PutsAtMost 120 out.old out.new result }
{
    out.push_str(" - ")?;
    print_system(out, system)?;
    out.push_str(" -> ")
}

// Most events of the system are of the first controller and its first worker: their words are put in one piece.
#[inline(always)]
fn put_first_deliver(out: &mut String, kind: Kind) -> Result<(), Want>
    ensures text { OnOk result (string_bytes out.new ≡ string_bytes out.old
        ++ (codes " - " ++ (act_text (does.Deliver 0 kind) ++ codes " -> "))) }
    ensures most { PutsAtMost 40 out.old out.new result }
{
    match kind {
        Kind::Jobs => out.push_str(" - deliver 0 jobs -> "),
        Kind::Pods => out.push_str(" - deliver 0 pods -> "),
    }
}

#[inline(always)]
fn put_first_begin(out: &mut String) -> Result<(), Want>
    ensures text { OnOk result (string_bytes out.new ≡ string_bytes out.old
        ++ (codes " - " ++ (act_text (does.Begin 0 0) ++ codes " -> "))) }
    ensures most { PutsAtMost 40 out.old out.new result }
{
    out.push_str(" - begin 0 0 -> ")
}

#[inline(always)]
fn put_first_step(out: &mut String) -> Result<(), Want>
    ensures text { OnOk result (string_bytes out.new ≡ string_bytes out.old
        ++ (codes " - " ++ (act_text (does.Step 0 0) ++ codes " -> "))) }
    ensures most { PutsAtMost 40 out.old out.new result }
{
    out.push_str(" - step 0 0 -> ")
}

#[inline(always)]
fn put_node(out: &mut String) -> Result<(), Want>
    ensures text { OnOk result (string_bytes out.new ≡ string_bytes out.old
        ++ (codes " - " ++ (act_text does.Node ++ codes " -> "))) }
    ensures most { PutsAtMost 40 out.old out.new result }
{
    out.push_str(" - node -> ")
}

/// Puts what an event of the system does behind the text, from the blank behind the event's number up to
/// its reply.
///
/// # Errors
///
/// Want of memory.
#[inline(always)]
pub fn put_system(out: &mut String, system: &Sys) -> Result<(), Want>
    ensures text { OnOk result (string_bytes out.new ≡ string_bytes out.old
        ++ (codes " - " ++ (act_text (act_of_system system.now) ++ codes " -> "))) }
    ensures most { PutsAtMost 120 out.old out.new result }
{
    match system {
        Sys::Deliver {
            controller: 0,
            kind,
        } => put_first_deliver(out, *kind),
        Sys::Begin {
            controller: 0,
            worker: 0,
        } => put_first_begin(out),
        Sys::Step {
            controller: 0,
            worker: 0,
        } => put_first_step(out),
        Sys::Node => put_node(out),
        other => put_pieces(out, other),
    }
}
