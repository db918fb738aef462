//! What a line reports of a pod.

ghost use Rattle.std.specs.Prelude.{◌≡◌, codes};
ghost use Rattle.jc_json.specs.View.{view};
ghost use Rattle.jc_members.specs.LineCauses.{Says};
ghost use Rattle.jc_members.specs.Members.{word_in};
ghost use Rattle.jc_members.specs.Phases.{phase_of, report_in};

use crate::causes::{LineFault, broken};
use crate::conditions::read_conditions;
use crate::containers::read_containers;
use jc_json::{Trail, Value, need_text};
use jc_types::{Phase, PhaseChange};
use std::alloc::Global;

// The phase of that word.
fn phase_of(text: &str) -> Option<Phase>
    ensures { result ≡ phase_of text.now }
{
    match text {
        "Pending" => Some(Phase::Pending),
        "Running" => Some(Phase::Running),
        "Succeeded" => Some(Phase::Succeeded),
        "Failed" => Some(Phase::Failed),
        _ => None,
    }
}

// How far the pod has come.
#[tactic(auto, unfolding(crate::specs::Members::word_in))]
fn read_phase(alloc: Global, value: &Value, path: &Trail) -> Result<Phase, LineFault>
    ensures { Says (λ phase. phase) result
        (word_in path.now (codes "phase") phase_of (view value.now)) }
{
    let text = need_text(alloc, value, path, "phase")?;
    match phase_of(text) {
        Some(phase) => Ok(phase),
        None => Err(broken(path, "phase", 29)),
    }
}

/// What is reported of a pod: its phase, its containers and its conditions.
#[tactic(auto, unfolding(crate::specs::Phases::report_in))]
pub fn read_report(alloc: Global, value: &Value) -> Result<PhaseChange, LineFault>
    ensures { Says (λ change. change) result (report_in (view value.now)) }
{
    let phase = read_phase(alloc, value, &Trail::new(alloc))?;
    let containers = read_containers(alloc, value)?;
    let conditions = read_conditions(alloc, value)?;
    Ok(PhaseChange {
        phase,
        containers,
        conditions,
    })
}
