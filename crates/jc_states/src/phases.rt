//! How far a pod has come, as its phase tells (core/v1).

ghost use Rattle.std.specs.Prelude.{◌≡◌};
ghost use Rattle.jc_types.specs.Equality.{same_phase};
ghost use Rattle.jc_states.specs.Pods.{is_final, is_pending};

use jc_types::Phase;

/// Whether a pod never leaves the phase: it has succeeded or failed.
pub fn is_final(phase: Phase) -> bool
    ensures { result ≡ is_final phase }
{
    match phase {
        Phase::Pending | Phase::Running => false,
        Phase::Succeeded | Phase::Failed => true,
    }
}

/// Whether the phase is that of a pod that has not begun.
pub fn is_pending(phase: Phase) -> bool
    ensures { result ≡ is_pending phase }
{
    match phase {
        Phase::Pending => true,
        Phase::Running | Phase::Succeeded | Phase::Failed => false,
    }
}

/// Whether both phases are the same.
pub fn same_phase(left: Phase, right: Phase) -> bool
    ensures { result ≡ same_phase left right }
{
    left == right
}
