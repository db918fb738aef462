//! The words of a report that stand for one thing.

ghost use Rattle.std.specs.Prelude.{◌≡◌, ◌≤◌, length};
ghost use Rattle.jc_print.specs.PrintedSpecs.{truth_word};
ghost use Rattle.jc_texts.specs.ReportWords.{fault_word, field_word, objects_word, phase_word};

use jc_types::{Fault, Field, Kind, Phase, Truth};

/// The word of a phase.
pub fn phase_word(phase: Phase) -> &'static str
    ensures word { result.now ≡ phase_word phase }
    ensures short { length result.now ≤ 30 }
{
    match phase {
        Phase::Pending => "Pending",
        Phase::Running => "Running",
        Phase::Succeeded => "Succeeded",
        Phase::Failed => "Failed",
    }
}

/// The word of a kind of objects.
pub fn objects_word(kind: Kind) -> &'static str
    ensures word { result.now ≡ objects_word kind }
    ensures short { length result.now ≤ 30 }
{
    match kind {
        Kind::Jobs => "jobs",
        Kind::Pods => "pods",
    }
}

/// The word of a fault.
pub fn fault_word(fault: Fault) -> &'static str
    ensures word { result.now ≡ fault_word fault }
    ensures short { length result.now ≤ 30 }
{
    match fault {
        Fault::Drop => "drop",
        Fault::Lose => "lose",
    }
}

/// The name of a member of a specification.
pub fn field_word(field: Field) -> &'static str
    ensures word { result.now ≡ field_word field }
    ensures short { length result.now ≤ 30 }
{
    match field {
        Field::Completions => "completions",
        Field::Parallelism => "parallelism",
        Field::BackoffLimit => "backoffLimit",
        Field::Deadline => "activeDeadlineSeconds",
    }
}

/// The word of a condition's truth.
pub fn truth_word(truth: Truth) -> &'static str
    ensures { result.now ≡ truth_word truth }
{
    match truth {
        Truth::True => "True",
        Truth::False => "False",
        Truth::Unknown => "Unknown",
    }
}
