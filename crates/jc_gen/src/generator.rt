//! The generated script, command by command.

ghost use Rattle.std.specs.Prelude.{◌≡◌, ◌+◌, ◌*◌, ◌%◌, ◌≤◌, ◌↔◌, IfOk, IsTrue};
ghost use Rattle.jc_gen.specs.Generated.{creation, end_with, fate_command, generated, job_ends, job_key, job_mode, job_spec};

use jc_types::{
    Action1, Arc, Command, Commands, End, Ends, JobSpec, Key, KeyNames, Label, Mode, Name, Names,
    Replacement, Restart, Script, Template, Want,
};
use std::alloc::Global;

/// The greatest number of Jobs that a script is generated with.
const MOST_JOBS: u32 = 100;

/// The greatest number of pods that a generated Job has to complete.
const MOST_PODS: u32 = 20;

/// Whether a script of so many Jobs of so many pods can be generated: 1 to 100 Jobs, 1 to 20 pods.
pub fn are_sizes(jobs: u32, pods: u32) -> bool
    ensures { IsTrue result ↔ ((1 ≤ jobs) × (jobs ≤ 100) × (1 ≤ pods) × (pods ≤ 20)) }
{
    1 <= jobs && jobs <= MOST_JOBS && 1 <= pods && pods <= MOST_PODS
}

fn job_key(alloc: Global, i: u32) -> Result<Key, Want>
    ensures { IfOk result (λ key. key ≡ job_key i) }
{
    let name = format!(in alloc; "g{i}")?;
    let namespace = Label::from_text(alloc, "default")?;
    let name = Label::from_string(name);
    Key::new(alloc, KeyNames { namespace, name })
}

fn job_mode(number: u32, i: u32) -> Mode
    ensures { result ≡ job_mode number i }
{
    if (u64::from(number) + u64::from(i)) % 2 == 1 {
        return Mode::Indexed;
    }
    Mode::NonIndexed
}

fn parallelism(number: u32, pods: u32, i: u32) -> u32
    requires some_pods { 1 ≤ pods }
    requires few_pods { pods ≤ 20 }
    ensures { result ≡ 1 + (number + 3 * i) % pods }
{
    let mixed = (u64::from(number) + 3 * u64::from(i)) % u64::from(pods);
    1 + mixed as u32
}

fn job_spec(alloc: Global, number: u32, pods: u32, i: u32) -> Result<JobSpec, Want>
    requires some_pods { 1 ≤ pods }
    requires few_pods { pods ≤ 20 }
    ensures { IfOk result (λ spec. spec ≡ job_spec number pods i) }
{
    let mut containers = Names::new(alloc);
    containers.push(Name::from_text(alloc, "main")?)?;
    Ok(JobSpec {
        parallelism: parallelism(number, pods, i),
        completions: Some(pods),
        mode: job_mode(number, i),
        suspend: false,
        backoff_limit: 6,
        per_index: None,
        max_failed: None,
        deadline: None,
        replacement: Replacement::TerminatingOrFailed,
        failure: None,
        success: None,
        template: Template {
            restart: Restart::Never,
            containers,
            inits: Names::new(alloc),
        },
    })
}

// A pod's end with the exit code.
fn end_with(exit: i32) -> End
    ensures { result ≡ end_with exit }
{
    End {
        exit,
        restarts: 0,
        condition: None,
    }
}

fn job_ends(alloc: Global, number: u32, i: u32) -> Result<Ends, Want>
    ensures { IfOk result (λ ends. ends ≡ job_ends number i) }
{
    let failures = (u64::from(number) + u64::from(i)) % 4;
    let mut ends = Ends::new(alloc);
    for _failure in 0..failures {
        ends.push(end_with(1))?;
    }
    ends.push(end_with(0))?;
    Ok(ends)
}

// The creation of a Job.
fn creation(alloc: Global, number: u32, pods: u32, i: u32) -> Result<Command, Want>
    requires some_pods { 1 ≤ pods }
    requires few_pods { pods ≤ 20 }
    ensures { IfOk result (λ command. command ≡ creation number pods i) }
{
    let spec = job_spec(alloc, number, pods, i)?;
    Ok(Command {
        lane: 0,
        action: Action1::Create {
            key: job_key(alloc, i)?,
            spec: Arc::new(alloc, spec)?,
        },
    })
}

// How the pods of a Job are to end.
fn fate(alloc: Global, number: u32, i: u32) -> Result<Command, Want>
    ensures { IfOk result (λ command. command ≡ fate_command number i) }
{
    Ok(Command {
        lane: 0,
        action: Action1::Fate {
            key: job_key(alloc, i)?,
            ends: job_ends(alloc, number, i)?,
        },
    })
}

/// The generated script: the creation and the fate of each Job, and at last a settle, all on the lane 0.
///
/// # Errors
///
/// Want of memory.
pub fn generate(alloc: Global, number: u32, jobs: u32, pods: u32) -> Result<Script, Want>
    requires some_jobs { 1 ≤ jobs }
    requires few_jobs { jobs ≤ 100 }
    requires some_pods { 1 ≤ pods }
    requires few_pods { pods ≤ 20 }
    ensures { IfOk result (λ script. script ≡ generated number jobs pods) }
{
    let mut commands = Commands::new(alloc);
    for i in 0..jobs {
        commands.push(creation(alloc, number, pods, i)?)?;
        commands.push(fate(alloc, number, i)?)?;
    }
    commands.push(Command {
        lane: 0,
        action: Action1::Settle,
    })?;
    Ok(Script { commands })
}
