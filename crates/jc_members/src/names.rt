//! What a line names: Jobs, pods, controllers and workers.

ghost use Rattle.jc_json.specs.View.{view};
ghost use Rattle.jc_members.specs.LineCauses.{Says};
ghost use Rattle.jc_members.specs.Named.{job_name_in, job_namespace_in, job_key_in, pod_named, controller_in, worker_in, seat_in, times_in};

use crate::causes::{LineFault, broken};
use crate::members::{read_given_number, read_number};
use jc_json::{Trail, Value, may_text, need_text};
use jc_rows::{is_label, is_subdomain};
use jc_types::{Key, KeyNames, Label, Shape, Uid};
use std::alloc::Global;

/// A worker of a controller.
#[derive(Clone, Copy)]
pub struct Seat {
    pub controller: u32,
    pub worker: u32,
}

// The name of a Job.
#[tactic(auto, unfolding(crate::specs::Members::text_in, crate::specs::Named::job_name_in))]
fn read_name(alloc: Global, value: &Value) -> Result<Label, LineFault>
    ensures { Says (λ name. name) result (job_name_in (view value.now)) }
{
    let path = Trail::new(alloc);
    let text = need_text(alloc, value, &path, "name")?;
    if !is_subdomain(text.as_bytes()) {
        return Err(broken(&path, "name", 3));
    }
    Ok(Label::from_text(alloc, text)?)
}

// The namespace of a Job.
#[tactic(auto, unfolding(crate::specs::Members::given_text_in, crate::specs::Named::job_namespace_in))]
fn read_namespace(alloc: Global, value: &Value) -> Result<Label, LineFault>
    ensures { Says (λ name. name) result (job_namespace_in (view value.now)) }
{
    let path = Trail::new(alloc);
    let Some(text) = may_text(alloc, value, &path, "namespace")? else {
        return Ok(Label::from_text(alloc, "default")?);
    };
    if !is_label(text.as_bytes()) {
        return Err(broken(&path, "namespace", 4));
    }
    Ok(Label::from_text(alloc, text)?)
}

/// The key of a Job.
#[tactic(auto, unfolding(crate::specs::Named::job_key_in))]
pub fn read_key(alloc: Global, value: &Value) -> Result<Key, LineFault>
    ensures { Says (λ key. key) result (job_key_in (view value.now)) }
{
    let name = read_name(alloc, value)?;
    let namespace = read_namespace(alloc, value)?;
    Ok(Key::new(alloc, KeyNames { namespace, name })?)
}

/// A pod by its number.
#[tactic(auto, unfolding(crate::specs::Named::pod_named))]
pub fn read_pod(alloc: Global, value: &Value) -> Result<Uid, LineFault>
    ensures { Says (λ pod. pod) result (pod_named (view value.now)) }
{
    let number = read_number(alloc, value, &Trail::new(alloc), "pod", 1, 4_294_967_295)?;
    Ok(Uid(number))
}

/// A controller of the shape; the first where none is given.
#[tactic(auto, unfolding(crate::specs::Named::controller_in))]
pub fn read_controller(alloc: Global, value: &Value, shape: &Shape) -> Result<u32, LineFault>
    ensures { Says (λ controller. controller) result (controller_in shape.now (view value.now)) }
{
    let greatest = shape.controllers.saturating_sub(1);
    let controller = read_given_number(
        alloc,
        value,
        &Trail::new(alloc),
        "controller",
        0,
        greatest,
    )?;
    Ok(controller.unwrap_or(0))
}

// A worker of each controller of the shape; the first where none is given.
#[tactic(auto, unfolding(crate::specs::Named::worker_in))]
fn read_worker(alloc: Global, value: &Value, shape: &Shape) -> Result<u32, LineFault>
    ensures { Says (λ worker. worker) result (worker_in shape.now (view value.now)) }
{
    let greatest = shape.workers.saturating_sub(1);
    let worker = read_given_number(alloc, value, &Trail::new(alloc), "worker", 0, greatest)?;
    Ok(worker.unwrap_or(0))
}

/// A worker of a controller of the shape.
#[tactic(auto, unfolding(crate::specs::Named::seat_in))]
pub fn read_seat(alloc: Global, value: &Value, shape: &Shape) -> Result<Seat, LineFault>
    ensures { Says (λ seat. seat) result (seat_in shape.now (view value.now)) }
{
    let controller = read_controller(alloc, value, shape)?;
    let worker = read_worker(alloc, value, shape)?;
    Ok(Seat { controller, worker })
}

/// How often a command is given; once where nothing is said.
#[tactic(auto, unfolding(crate::specs::Named::times_in))]
pub fn read_times(alloc: Global, value: &Value) -> Result<u32, LineFault>
    ensures { Says (λ times. times) result (times_in (view value.now)) }
{
    let times = read_given_number(alloc, value, &Trail::new(alloc), "times", 1, 10_000)?;
    Ok(times.unwrap_or(1))
}
