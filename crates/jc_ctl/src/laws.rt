//! Laws on audits, and on how runs end. Each function does nothing: what it ensures holds of all bytes, and its callers may
//! cite it.

ghost use Rattle.std.specs.Prelude.{◌≡◌, ◌≢◌, ◌≤◌, ◌⊎◌, Bool, IfSome, IsOkAnd, List, Ok, Option, Some, length, ℕ};
ghost use Rattle.std.specs.Io.KnownBytes.{Keeps};
ghost use Rattle.std.specs.List.{AllByRecursion as Each};
ghost use Rattle.jc_types.specs.declared.actions.Script.{Script};
ghost use Rattle.jc_types.specs.declared.runs.Shape.{Shape};
ghost use Rattle.jc_audit.specs.Audits.{VerdictHolds};
ghost use Rattle.jc_audit.specs.Proper.{IsProperCommand};
ghost use Rattle.jc_audit.specs.declared.verdicts.Verdict.TheVariants.{No, Yes};
ghost use Rattle.jc_words.specs.FitOrders.{IsFitOrder, IsFitShape};
ghost use Rattle.jc_script.specs.Cause.{Cause};
ghost use Rattle.jc_script.specs.Scripts.{most_bytes, script_of};
ghost use Rattle.jc_words.specs.Words.{order_of};
ghost use Rattle.jc_words.specs.declared.words.LockKind.{LockKind};
ghost use Rattle.jc_words.specs.declared.words.Order.{Order};
ghost use Rattle.jc_words.specs.declared.words.Order.TheVariants.{Audit, Run};
ghost use Rattle.jc_single.specs.Played.{OfPlayed, script_played, staging_of};
ghost use Rattle.jc_single.specs.EndsTold.{EndsAsTold};
ghost use Rattle.jc_single.specs.InTime.{IsDoneInTime};
ghost use Rattle.jc_single.specs.RunAnswers.{IsSingle, MayEnd};
ghost use Rattle.jc_single.specs.Headlines.{TellsFront, TellsHistory};
ghost use Rattle.jc_ctl.specs.Audited.{IsAudited, IsPromised, OfAudit, PassesAudit, TellsVerdict, TellsVerdictFront};
ghost use Rattle.jc_ctl.specs.Done.{MeetsNoFault, ProgramRun};

use jc_audit::{
    histories_print_reports, proper_actions_are_valid, read_scripts_are_proper,
    reports_are_of_histories,
};
use jc_script::scripts_fit_their_shape;
use jc_single::{
    Status, legal_histories_keep_the_promises, orderly_histories_have_small_numbers,
    plays_are_orderly_histories, reaped_commands_can_be_said, reaped_commands_fit,
    runs_tell_their_history, single_runs_end_as_told,
};
use jc_words::orders_fit;

/// **Of what an audit says yes to, all promises hold (KEP-2307)**: it tells a legal and orderly history of a script, and
/// they hold of that one, whoever printed it.
pub fn audited_reports_keep_the_promises()
    ensures { (shape : Shape) (input : List ℕ) → IsFitShape shape → VerdictHolds shape input Yes
        → IsPromised shape input }
{
    reports_are_of_histories();
    legal_histories_keep_the_promises();
    orderly_histories_have_small_numbers();
    proper_actions_are_valid();
}

/// The commands of the script that is played last are proper: they were read, or a settle and a reaper's commands stand
/// behind those that were.
pub fn played_scripts_are_proper()
    ensures { (order : Order) (input : List ℕ) (script : Script) → IsFitOrder order
        → script_played order input ≡ Ok script
        → IfSome (staging_of order) (λ staging. Each IsProperCommand script.commands) }
{
    read_scripts_are_proper();
    scripts_fit_their_shape();
    plays_are_orderly_histories();
    reaped_commands_fit();
    reaped_commands_can_be_said();
}

/// **What `run` or `reap` has written whole, an audit says yes to**: it is the report of a legal and orderly history of
/// a script whose commands are proper.
pub fn written_reports_pass_audits()
    ensures { (order : Order) (input : List ℕ) (full : Bool) (old new : Option (List ℕ)) → IsFitOrder order
        → IfSome (staging_of order) (λ staging. IsOkAnd (script_played order input) (λ script.
        TellsHistory staging.threads script staging.shape full old new) → PassesAudit staging.shape old new) }
{
    played_scripts_are_proper();
    histories_print_reports();
}

/// **How a run ends**: what each status says of what was read and written, and which statuses a run has that meets no
/// fault.
pub fn runs_end_as_told()
    ensures told { (run : ProgramRun) → EndsAsTold IsSingle run.words run.source run.sink run.ended }
    // Where the sink failed, what went out is the front of the report of a history of which all promises hold.
    ensures headline_front { (run : ProgramRun) (words : List (List ℕ)) (order : Order)
        → order_of words ≡ Some order → run.words ≡ Some order
        → run.ended ≡ Status.WriteFault → OfPlayed order run.source.old (λ staging script.
        TellsFront staging.threads script staging.shape run.sink.old run.sink.new) }
    // Without threads, where its play ends and the words allow so many events, it is not full.
    ensures in_time { (run : ProgramRun) (lock : LockKind) (shape : Shape)
        → run.words ≡ Some (Run 0 lock shape)
        → IsDoneInTime lock shape run.source.old run.ended }
    ensures nothing_written { (run : ProgramRun) → run.ended ≢ Status.Ok → run.ended ≢ Status.HistoryFull
        → ((line : ℕ) → run.ended ≢ Status.AuditNo line) → run.ended ≢ Status.WriteFault
        → Keeps run.sink.old run.sink.new }
    // With AuditNo what was read is no report, and the line is the first that differs. AuditNo comes of an audit alone.
    ensures no { (run : ProgramRun) (line : ℕ) → run.ended ≡ Status.AuditNo line
        → IfSome run.words (λ order. OfAudit order (λ shape. IfSome run.source.old (λ input.
        TellsVerdict shape input (No line) run.sink.old run.sink.new))) }
    ensures verdict_front { (run : ProgramRun) (shape : Shape) → run.words ≡ Some (Audit shape)
        → run.ended ≡ Status.WriteFault
        → IfSome run.source.old (λ input. TellsVerdictFront shape input run.sink.old run.sink.new) }
    // Of an audit no history is full, and no script is bad.
    ensures audit_not_full { (run : ProgramRun) (shape : Shape) → run.words ≡ Some (Audit shape)
        → run.ended ≢ Status.HistoryFull }
    ensures audit_no_script { (run : ProgramRun) (shape : Shape) → run.words ≡ Some (Audit shape)
        → (line : ℕ) (cause : Cause) → run.ended ≢ Status.BadScript line cause }
    // A report that is not too long and no fault give what is to be said of it, or want of memory.
    ensures complete_audit { (run : ProgramRun) (shape : Shape) → run.words ≡ Some (Audit shape) → MeetsNoFault run
        → IfSome run.source.old (λ input. length input ≤ most_bytes
        → IsAudited shape input run.ended ⊎ (run.ended ≡ Status.Want)) }
    // On threads it ends as on one, with the report of some history.
    ensures complete_on_threads { (run : ProgramRun) (threads : ℕ) (lock : LockKind) (shape : Shape)
        → run.words ≡ Some (Run threads lock shape) → 1 ≤ threads → MeetsNoFault run
        → IfSome run.source.old (λ input. length input ≤ most_bytes
        → MayEnd (script_of shape input) run.ended ⊎ (run.ended ≡ Status.Want)) }
{
    orders_fit();
    runs_tell_their_history();
    single_runs_end_as_told();
}
