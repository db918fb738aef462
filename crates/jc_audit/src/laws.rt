//! Laws on reports. What each function ensures holds of all bytes, and its callers may cite it.

ghost use Rattle.std.specs.Prelude.{◌≡◌, ◌≤◌, Bool, List, ℕ};
ghost use Rattle.jc_history.specs.Replies.{log_given};
ghost use Rattle.jc_reading.specs.Proper.{IsProperAction};
ghost use Rattle.jc_log.specs.Deeds.{deeds};
ghost use Rattle.jc_lines.specs.Reports.{report_text};
ghost use Rattle.jc_runs.specs.ValidActions.{IsValidAction};
ghost use Rattle.jc_types.specs.declared.actions.Action1.{Action1};
ghost use Rattle.jc_types.specs.declared.actions.Script.{Script};
ghost use Rattle.jc_types.specs.declared.runs.History.{History};
ghost use Rattle.jc_types.specs.declared.runs.Shape.{Shape};
ghost use Rattle.jc_audit.specs.Audits.{IsRecognised, VerdictHolds};
ghost use Rattle.jc_audit.specs.Reported.{IsPrintable, IsReported};
ghost use Rattle.jc_audit.specs.declared.verdicts.Verdict.{Verdict};

use jc_reading::printed_fronts_are_read_back;

/// Of a script whose commands are proper, each legal and orderly history prints as a report.
pub fn histories_print_reports()
    ensures { (script : Script) (shape : Shape) (history : History) (full : Bool)
        → IsPrintable script shape history full
        → IsRecognised shape
        (report_text script history.events.items (log_given shape (deeds script history)) full) }
{}

/// A report is what a legal and orderly history of a script whose commands are proper prints as.
pub fn reports_are_of_histories()
    ensures { (shape : Shape) (bytes : List ℕ) → IsRecognised shape bytes → IsReported shape bytes }
{}

/// One thing alone is to be said of bytes: so those of which Yes is said are the reports, and of all
/// others one line is named.
pub fn verdicts_are_unique()
    ensures { (shape : Shape) → shape.controllers ≤ 4 → shape.workers ≤ 16
        → shape.events ≤ 200000 → (bytes : List ℕ) (v w : Verdict)
        → VerdictHolds shape bytes v → VerdictHolds shape bytes w → v ≡ w }
{
    printed_fronts_are_read_back();
}

/// A proper act of a command is valid: so a script of such commands can be played.
#[tactic(auto, using(crate::proofs::ValidFacts::proper_is_valid))]
pub fn proper_actions_are_valid()
    ensures { (action : Action1) → IsProperAction action → IsValidAction action }
{}
