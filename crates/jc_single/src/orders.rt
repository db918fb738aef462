//! What is asked for, made of what was read.

ghost use Rattle.std.specs.Prelude.{◌≡◌, ◌<◌, ◌≤◌, ◌^◌, Err, IfOk, IsErrOf, Ok, length, reverse, ℕ};
ghost use Rattle.jc_promise.specs.ValidActions.{AreValidCommands};
ghost use Rattle.jc_promise.specs.Plays.{IsScriptFor};
ghost use Rattle.jc_promise.specs.Seen.{log_seen};
ghost use Rattle.jc_report.specs.Reports.{report_text, summary_of};
ghost use Rattle.jc_gen.specs.Generated.{generated};
ghost use Rattle.jc_script.specs.Scripts.{most_bytes, script_of};
ghost use Rattle.jc_script.specs.Cause.{Cause};
ghost use Rattle.jc_words.specs.FitOrders.{IsFitOrder, IsFitShape};
ghost use Rattle.jc_words.specs.Words.{default_shape};
ghost use Rattle.jc_single.specs.Played.{as_script};
ghost use Rattle.jc_single.specs.RunAnswers.{IsSingle, answer_of, printed_by, report_printed, reported, summary_printed, writing_text};

use crate::plays::{Played, play_whole};
use crate::reaps::reap_answer;
use jc_gen::{generate, generated_commands_are_valid, generated_scripts_are_fit};
use jc_io::Bytes;
use jc_report::{Report, report_of_machine, summary_of_machine};
use jc_script::{Cause, ScriptFault, read_script, scripts_fit_their_shape};
use jc_types::{Script, Shape, Want};
use jc_words::{Order, default_shape, orders_fit};
use std::alloc::Global;

/// A text that is to be written, in UTF-8.
#[derive(Drop)]
pub enum Writing {
    /// It is there as a whole.
    Whole(Bytes),
    /// It is put together as it is written.
    Drafted(Report),
}

/// What a run writes.
#[derive(Drop)]
pub struct Output {
    /// The text.
    pub text: Writing,
    /// Whether the history is full.
    pub full: bool,
}

/// The report of a play.
pub(crate) fn print_report(alloc: Global, played: Played) -> Result<Output, Want>
    ensures text { IfOk result (λ output. writing_text output.text
        ≡ report_text played.machine.script (reverse played.machine.pasts)
        (log_seen played.machine) played.full) }
    ensures full { IfOk result (λ output. output.full ≡ played.full) }
{
    let Played { machine, full } = played;
    let report = report_of_machine(alloc, machine, full)?;
    Ok(Output {
        text: Writing::Drafted(report),
        full,
    })
}

// The summary of a play.
fn print_summary(alloc: Global, played: &Played) -> Result<Output, Want>
    ensures text { IfOk result (λ output. writing_text output.text
        ≡ summary_of (log_seen played.now.machine) played.now.full) }
    ensures full { IfOk result (λ output. output.full ≡ played.now.full) }
{
    let text = summary_of_machine(alloc, &played.machine, played.full)?;
    Ok(Output {
        text: Writing::Whole(text),
        full: played.full,
    })
}

// The report of the play of a script.
fn script_answer(alloc: Global, script: Script, shape: Shape) -> Result<Output, Want>
    requires valid_actions { AreValidCommands script.commands }
    requires fits_shape { IsScriptFor script shape }
    requires fits { length script.commands < 2 ^ 32 }
    requires few_events { shape.events ≤ 200000 }
    ensures { IfOk result (λ output. printed_by output ≡ report_printed script shape) }
{
    let played = play_whole(alloc, script, shape)?;
    print_report(alloc, played)
}

// The report of the play of the script in the input.
#[tactic(auto, using(crate::proofs::WholeFacts::reported_is))]
fn run_answer(alloc: Global, shape: Shape, input: &[u8]) -> Result<Output, ScriptFault>
    requires few_bytes { length input.now ≤ most_bytes }
    requires fits { IsFitShape shape }
    ensures text { IfOk result
        (λ output. reported shape (as_script (script_of shape input.now)) ≡ Ok (printed_by output)) }
    ensures bad_line { (number : ℕ) (cause : Cause)
        → IsErrOf result (ScriptFault.BadLine number cause)
        → script_of shape input.now ≡ Err (record { number = number; cause = cause }) }
{
    scripts_fit_their_shape();
    let script = read_script(alloc, input, &shape)?;
    Ok(script_answer(alloc, script, shape)?)
}

// The summary of the play of a generated script.
fn generate_answer(alloc: Global, number: u32, jobs: u32, pods: u32) -> Result<Output, Want>
    requires some_jobs { 1 ≤ jobs }
    requires few_jobs { jobs ≤ 100 }
    requires some_pods { 1 ≤ pods }
    requires few_pods { pods ≤ 20 }
    ensures { IfOk result (λ output.
        printed_by output ≡ summary_printed (generated number jobs pods) default_shape) }
{
    generated_scripts_are_fit();
    generated_commands_are_valid();
    orders_fit();
    let script = generate(alloc, number, jobs, pods)?;
    let played = play_whole(alloc, script, default_shape())?;
    print_summary(alloc, &played)
}

/// What the order asks for, of what was read.
#[tactic(auto, unfolding(crate::specs::RunAnswers::answer_of))]
pub(crate) fn answer(alloc: Global, order: &Order, input: &[u8]) -> Result<Output, ScriptFault>
    requires few_bytes { length input.now ≤ most_bytes }
    requires fits { IsFitOrder order.now }
    requires single { IsSingle order.now }
    ensures text { IfOk result (λ output. answer_of order.now input.now ≡ Ok (printed_by output)) }
    ensures bad_line { (number : ℕ) (cause : Cause)
        → IsErrOf result (ScriptFault.BadLine number cause)
        → answer_of order.now input.now ≡ Err (record { number = number; cause = cause }) }
{
    match order {
        Order::Run { shape, .. } => run_answer(alloc, *shape, input),
        Order::Reap { shape } => reap_answer(alloc, *shape, input),
        Order::Audit { .. } => unreachable!(),
        Order::Generate { number, jobs, pods } => Ok(generate_answer(
            alloc, *number, *jobs, *pods,
        )?),
    }
}
