//! What the members of a line say.

ghost use Rattle.std.specs.Prelude.{◌≡◌};
ghost use Rattle.jc_json.specs.View.{view};
ghost use Rattle.jc_members.specs.LineCauses.{Says};
ghost use Rattle.jc_script.specs.Commands.{kind_named, fault_of, kind_in, fault_kind_in, create_in, update_in, delete_in, fate_in, mark_in, strip_in, finish_in, phase_in, clock_in, list_command_in, deliver_in, begin_in, sync_in, step_in};
ghost use Rattle.jc_script.specs.Commands.{restart_command_in, fault_in, action_said, lane_in, command_in, object_says, value_says};

use crate::updates::{read_change, read_version};
use crate::verbs::{Verb, read_verb};
use jc_json::{Path, Trail, Value, may_number, need_number, need_text};
use jc_manifest::read_job;
use jc_members::{
    Cause, LineFault, broken, read_controller, read_ends, read_key, read_number, read_object,
    read_pod, read_report, read_seat, read_times,
};
use jc_types::{Action1, Arc, Command, Fault, Kind, Shape};
use std::alloc::Global;

/// What a line says: a command, and how often it is given.
#[derive(Drop)]
pub struct Said {
    pub command: Command,
    pub times: u32,
}

// The kind of objects of that word.
fn kind_named(text: &str) -> Option<Kind>
    ensures { result ≡ kind_named text.now }
{
    match text {
        "jobs" => Some(Kind::Jobs),
        "pods" => Some(Kind::Pods),
        _ => None,
    }
}

// The fault of that word.
fn fault_of(text: &str) -> Option<Fault>
    ensures { result ≡ fault_of text.now }
{
    match text {
        "drop" => Some(Fault::Drop),
        "lose" => Some(Fault::Lose),
        _ => None,
    }
}

// The kind of objects.
#[tactic(auto, unfolding(jc_members::specs::Members::word_in, crate::specs::Commands::kind_in))]
fn read_kind(alloc: Global, value: &Value) -> Result<Kind, LineFault>
    ensures { Says (λ kind. kind) result (kind_in (view value.now)) }
{
    let path = Trail::new(alloc);
    let text = need_text(alloc, value, &path, "kind")?;
    match kind_named(text) {
        Some(kind) => Ok(kind),
        None => Err(broken(&path, "kind", 29)),
    }
}

// The fault that befalls a request.
#[tactic(auto, unfolding(jc_members::specs::Members::word_in, crate::specs::Commands::fault_kind_in))]
fn read_fault_kind(alloc: Global, value: &Value) -> Result<Fault, LineFault>
    ensures { Says (λ fault. fault) result (fault_kind_in (view value.now)) }
{
    let path = Trail::new(alloc);
    let text = need_text(alloc, value, &path, "kind")?;
    match fault_of(text) {
        Some(fault) => Ok(fault),
        None => Err(broken(&path, "kind", 29)),
    }
}

// Creates a Job.
#[tactic(auto, unfolding(crate::specs::Commands::create_in))]
fn read_create(alloc: Global, value: &Value) -> Result<Action1, LineFault>
    ensures { Says (λ action. action) result (create_in (view value.now)) }
{
    let path = Trail::new(alloc);
    let job = read_object(alloc, value, &path, "job")?;
    let (key, spec) = read_job(alloc, job, &path.path_to("job"))?;
    let spec = Arc::new(alloc, spec)?;
    Ok(Action1::Create { key, spec })
}

// Changes a Job's specification.
#[tactic(auto, unfolding(crate::specs::Commands::update_in))]
fn read_update(alloc: Global, value: &Value) -> Result<Action1, LineFault>
    ensures { Says (λ action. action) result (update_in (view value.now)) }
{
    let key = read_key(alloc, value)?;
    let version = read_version(alloc, value)?;
    let change = read_change(alloc, value)?;
    Ok(Action1::Update {
        key,
        version,
        change,
    })
}

// Deletes a Job.
#[tactic(auto, unfolding(crate::specs::Commands::delete_in))]
fn read_delete(alloc: Global, value: &Value) -> Result<Action1, LineFault>
    ensures { Says (λ action. action) result (delete_in (view value.now)) }
{
    let key = read_key(alloc, value)?;
    Ok(Action1::Delete { key })
}

// Decides how the pods of a Job are to end.
#[tactic(auto, unfolding(crate::specs::Commands::fate_in))]
fn read_fate(alloc: Global, value: &Value) -> Result<Action1, LineFault>
    ensures { Says (λ action. action) result (fate_in (view value.now)) }
{
    let key = read_key(alloc, value)?;
    let ends = read_ends(alloc, value)?;
    Ok(Action1::Fate { key, ends })
}

// Marks a pod for deletion.
#[tactic(auto, unfolding(crate::specs::Commands::mark_in))]
fn read_mark(alloc: Global, value: &Value) -> Result<Action1, LineFault>
    ensures { Says (λ action. action) result (mark_in (view value.now)) }
{
    let pod = read_pod(alloc, value)?;
    Ok(Action1::Mark { pod })
}

// Takes a pod's finalizer.
#[tactic(auto, unfolding(crate::specs::Commands::strip_in))]
fn read_strip(alloc: Global, value: &Value) -> Result<Action1, LineFault>
    ensures { Says (λ action. action) result (strip_in (view value.now)) }
{
    let pod = read_pod(alloc, value)?;
    Ok(Action1::Strip { pod })
}

// Ends a pod with an exit code.
#[tactic(auto, unfolding(crate::specs::Commands::finish_in))]
fn read_finish(alloc: Global, value: &Value) -> Result<Action1, LineFault>
    ensures { Says (λ action. action) result (finish_in (view value.now)) }
{
    let pod = read_pod(alloc, value)?;
    let exit = need_number(alloc, value, &Trail::new(alloc), "exit", 0, 255)?;
    Ok(Action1::Finish {
        pod,
        exit: exit as i32,
    })
}

// Reports a pod's phase.
#[tactic(auto, unfolding(crate::specs::Commands::phase_in))]
fn read_phase(alloc: Global, value: &Value) -> Result<Action1, LineFault>
    ensures { Says (λ action. action) result (phase_in (view value.now)) }
{
    let pod = read_pod(alloc, value)?;
    let change = read_report(alloc, value)?;
    Ok(Action1::Report { pod, change })
}

// Lets seconds pass.
#[tactic(auto, unfolding(crate::specs::Commands::clock_in))]
fn read_clock(alloc: Global, value: &Value) -> Result<Action1, LineFault>
    ensures { Says (λ action. action) result (clock_in (view value.now)) }
{
    let add = read_number(alloc, value, &Trail::new(alloc), "add", 0, 4_294_967_295)?;
    Ok(Action1::Clock {
        add: u64::from(add),
    })
}

// Lists the objects of a kind.
#[tactic(auto, unfolding(crate::specs::Commands::list_command_in))]
fn read_list(alloc: Global, value: &Value, shape: &Shape) -> Result<Action1, LineFault>
    ensures { Says (λ action. action) result (list_command_in shape.now (view value.now)) }
{
    let controller = read_controller(alloc, value, shape)?;
    let kind = read_kind(alloc, value)?;
    Ok(Action1::List { controller, kind })
}

// Gives a cache the next entry of the log.
#[tactic(auto, unfolding(crate::specs::Commands::deliver_in))]
fn read_deliver(alloc: Global, value: &Value, shape: &Shape) -> Result<Action1, LineFault>
    ensures { Says (λ action. action) result (deliver_in shape.now (view value.now)) }
{
    let controller = read_controller(alloc, value, shape)?;
    let kind = read_kind(alloc, value)?;
    Ok(Action1::Deliver { controller, kind })
}

// Begins a sync.
#[tactic(auto, unfolding(crate::specs::Commands::begin_in))]
fn read_begin(alloc: Global, value: &Value, shape: &Shape) -> Result<Action1, LineFault>
    ensures { Says (λ action. action) result (begin_in shape.now (view value.now)) }
{
    let seat = read_seat(alloc, value, shape)?;
    Ok(Action1::Begin {
        controller: seat.controller,
        worker: seat.worker,
    })
}

// Makes a whole sync.
#[tactic(auto, unfolding(crate::specs::Commands::sync_in))]
fn read_sync(alloc: Global, value: &Value, shape: &Shape) -> Result<Action1, LineFault>
    ensures { Says (λ action. action) result (sync_in shape.now (view value.now)) }
{
    let seat = read_seat(alloc, value, shape)?;
    Ok(Action1::Sync {
        controller: seat.controller,
        worker: seat.worker,
    })
}

// Makes the next request of a sync.
#[tactic(auto, unfolding(crate::specs::Commands::step_in))]
fn read_step(alloc: Global, value: &Value, shape: &Shape) -> Result<Action1, LineFault>
    ensures { Says (λ action. action) result (step_in shape.now (view value.now)) }
{
    let seat = read_seat(alloc, value, shape)?;
    Ok(Action1::Step {
        controller: seat.controller,
        worker: seat.worker,
    })
}

// Makes a controller forget all that it has.
#[tactic(auto, unfolding(crate::specs::Commands::restart_command_in))]
fn read_restart(alloc: Global, value: &Value, shape: &Shape) -> Result<Action1, LineFault>
    ensures { Says (λ action. action) result (restart_command_in shape.now (view value.now)) }
{
    let controller = read_controller(alloc, value, shape)?;
    Ok(Action1::Restart { controller })
}

// Puts a fault in the way of the next request of a worker.
#[tactic(auto, unfolding(crate::specs::Commands::fault_in))]
fn read_fault(alloc: Global, value: &Value, shape: &Shape) -> Result<Action1, LineFault>
    ensures { Says (λ action. action) result (fault_in shape.now (view value.now)) }
{
    let seat = read_seat(alloc, value, shape)?;
    let fault = read_fault_kind(alloc, value)?;
    Ok(Action1::PutFault {
        controller: seat.controller,
        worker: seat.worker,
        fault,
    })
}

// What the command does.
fn read_action(
    alloc: Global,
    value: &Value,
    shape: &Shape,
    verb: Verb,
) -> Result<Action1, LineFault>
    ensures { Says (λ action. action) result (action_said shape.now verb (view value.now)) }
{
    match verb {
        Verb::Create => read_create(alloc, value),
        Verb::Update => read_update(alloc, value),
        Verb::Delete => read_delete(alloc, value),
        Verb::Mark => read_mark(alloc, value),
        Verb::Strip => read_strip(alloc, value),
        Verb::Finish => read_finish(alloc, value),
        Verb::Phase => read_phase(alloc, value),
        Verb::Fate => read_fate(alloc, value),
        Verb::Clock => read_clock(alloc, value),
        Verb::List => read_list(alloc, value, shape),
        Verb::Deliver => read_deliver(alloc, value, shape),
        Verb::Begin => read_begin(alloc, value, shape),
        Verb::Sync => read_sync(alloc, value, shape),
        Verb::Step => read_step(alloc, value, shape),
        Verb::Node => Ok(Action1::Node),
        Verb::Restart => read_restart(alloc, value, shape),
        Verb::Fault => read_fault(alloc, value, shape),
        Verb::Settle => Ok(Action1::Settle),
    }
}

// The lane of a command; the first where none is given.
#[tactic(auto, unfolding(jc_members::specs::Members::given_number_in, crate::specs::Commands::lane_in))]
fn read_lane(alloc: Global, value: &Value) -> Result<u8, LineFault>
    ensures { Says (λ lane. lane) result (lane_in (view value.now)) }
{
    match may_number(alloc, value, &Trail::new(alloc), "lane", 0, 15)? {
        None => Ok(0),
        Some(lane) => Ok(lane as u8),
    }
}

// The command with its lane.
#[tactic(auto, unfolding(crate::specs::Commands::command_in))]
fn read_command(
    alloc: Global,
    value: &Value,
    shape: &Shape,
    verb: Verb,
) -> Result<Command, LineFault>
    ensures { Says (λ command. command) result (command_in shape.now verb (view value.now)) }
{
    let lane = read_lane(alloc, value)?;
    let action = read_action(alloc, value, shape, verb)?;
    Ok(Command { lane, action })
}

// What the members of an object say.
#[tactic(auto, unfolding(crate::specs::Commands::object_says))]
fn read_members(alloc: Global, value: &Value, shape: &Shape) -> Result<Said, LineFault>
    ensures { Says (λ said. said) result (object_says shape.now (view value.now)) }
{
    let verb = read_verb(alloc, value)?;
    let command = read_command(alloc, value, shape, verb)?;
    let times = read_times(alloc, value)?;
    Ok(Said { command, times })
}

/// What the value of a line says.
#[tactic(auto, unfolding(crate::specs::Commands::value_says))]
pub fn read_value(alloc: Global, value: &Value, shape: &Shape) -> Result<Said, LineFault>
    ensures { Says (λ said. said) result (value_says shape.now (view value.now)) }
{
    if !value.is_object() {
        return Err(LineFault::Bad {
            cause: Cause::WrongType {
                path: Path::new(alloc),
            },
        });
    }
    read_members(alloc, value, shape)
}
