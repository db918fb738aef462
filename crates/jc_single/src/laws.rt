//! Laws on what runs write. Each function does nothing: what it ensures holds of every script, and its callers may cite it.

ghost use Rattle.std.specs.Prelude.{◌≡◌, ◌≢◌, IfSome, IsOkAnd, List, Ok, Option, Some, ℕ};
ghost use Rattle.std.specs.Io.KnownBytes.{Keeps};
ghost use Rattle.jc_types.specs.declared.actions.Command.{Command};
ghost use Rattle.jc_types.specs.declared.actions.Script.{Script};
ghost use Rattle.jc_types.specs.declared.runs.History.{History};
ghost use Rattle.jc_types.specs.declared.runs.Shape.{Shape};
ghost use Rattle.jc_promise.specs.Deeds.{deeds};
ghost use Rattle.jc_promise.specs.Play.{is_full, play_of};
ghost use Rattle.jc_promise.specs.Replies.{log_given};
ghost use Rattle.jc_promise.specs.Stuck.{NoneIsStuck};
ghost use Rattle.jc_reap.specs.TtlLines.{ttls_of};
ghost use Rattle.jc_script.specs.Scripts.{script_of};
ghost use Rattle.jc_words.specs.Words.{order_of};
ghost use Rattle.jc_words.specs.declared.words.LockKind.{LockKind};
ghost use Rattle.jc_words.specs.declared.words.Order.{Order};
ghost use Rattle.jc_words.specs.declared.words.Order.TheVariants.{Reap, Run};
ghost use Rattle.jc_words.specs.FitOrders.{IsFitOrder};
ghost use Rattle.jc_single.specs.Played.{CollectsDue, OfPlayed, at_rest, script_played, staging_of};
ghost use Rattle.jc_single.specs.EndsTold.{AnyOrder, EndsAsTold};
ghost use Rattle.jc_single.specs.InTime.{IsDoneInTime, IsSettledPlay};
ghost use Rattle.jc_single.specs.RunEnds.{SingleRun};
ghost use Rattle.jc_single.specs.RunAnswers.{IsSingle, Printed, answer_of, report_printed};
ghost use Rattle.jc_single.specs.Headlines.{HasSmallNumbers, IsPlayable, IsReport, IsReportOf, TellsFront};

use crate::status::Status;
use jc_promise::{
    legal_histories_keep_the_promises, orderly_histories_have_small_numbers,
    plays_are_orderly_histories, settled_plays_are_at_rest,
};
use jc_reap::{collecting_plays_are_due, reaped_commands_fit};
use jc_script::scripts_fit_their_shape;
use jc_words::orders_fit;

/// **The report of the play of a script on one thread is that of a legal history of it, of which all
/// promises hold (KEP-2307).** Where the script and the shape are such as the code's types hold, its lines tell that
/// history and no other.
pub fn plays_tell_their_history()
    ensures history { (script : Script) (shape : Shape) (history : History)
        → IsPlayable script shape → history.events.items ≡ play_of script shape
        → IsReportOf history 0 script shape (is_full script shape)
        (report_printed script shape).text }
    ensures report { (script : Script) (shape : Shape)
        → IsPlayable script shape → HasSmallNumbers script shape
        → IsReport 0 script shape (is_full script shape) (report_printed script shape).text }
{
    plays_are_orderly_histories();
    legal_histories_keep_the_promises();
    orderly_histories_have_small_numbers();
    settled_plays_are_at_rest();
}

/// So is what is printed of a text that is a script, also with a reaper's commands behind it.
pub fn runs_tell_their_history()
    ensures { (order : Order) (input : List ℕ) (printed : Printed)
        → IsFitOrder order → answer_of order input ≡ Ok printed
        → IfSome (staging_of order) (λ staging. IsOkAnd (script_played order input) (λ script.
        IsReport 0 script staging.shape printed.full printed.text)) }
{
    plays_tell_their_history();
    scripts_fit_their_shape();
    reaped_commands_fit();
}

/// **No Job is stuck where a play ends**: where the play of a script ends, has events enough and its last command is a
/// settle, each Job that is there at its end has ended, or waits for what only the outside can give; so it is for each
/// controller that has added its key since its pod cache last skipped entries of the log. Of which scripts it is so that
/// the play ends, `plays_end` of `jc_playing_out` says by their text.
pub fn jobs_end_or_wait()
    ensures { (script : Script) (shape : Shape) (history : History)
        → IsSettledPlay script shape history
        → NoneIsStuck shape (deeds script history) (log_given shape (deeds script history)) }
{
    settled_plays_are_at_rest();
    plays_are_orderly_histories();
    legal_histories_keep_the_promises();
}

/// **What a reaper's commands find (`ttlSecondsAfterFinished` of batch/v1)**: where the words ask for a reaper,
/// and the text is a script that gives these TTLs, each delete that was made behind the first play removed a Job
/// that had ended and whose TTL had passed, and each mark found a pod whose Job was gone. Unless the history is full,
/// all was collected that was due at the end of the first play.
pub fn reapers_collect_what_is_due()
    ensures { (words : List (List ℕ)) (shape : Shape) (input : List ℕ) (commands : List Command)
        (ttls : List (Option ℕ)) → order_of words ≡ Some (Reap shape)
        → script_of shape input ≡ Ok commands → ttls_of shape input ≡ Ok ttls
        → CollectsDue (at_rest commands) shape ttls }
{
    orders_fit();
    scripts_fit_their_shape();
    collecting_plays_are_due();
}

/// **How a run on one thread ends**: what each status says of what was read and written, and which statuses a run has
/// that meets no fault.
pub fn single_runs_end_as_told()
    ensures told { (run : SingleRun) → EndsAsTold AnyOrder run.words run.source run.sink run.ended }
    // Where the sink failed, what went out is the front of the report of a history of which all promises hold.
    ensures headline_front { (run : SingleRun) (words : List (List ℕ)) (order : Order)
        → order_of words ≡ Some order → run.words ≡ Some order → IsSingle order
        → run.ended ≡ Status.WriteFault → OfPlayed order run.source.old (λ staging script.
        TellsFront staging.threads script staging.shape run.sink.old run.sink.new) }
    // Where its play ends, and the words allow so many events, it is not full.
    ensures in_time { (run : SingleRun) (lock : LockKind) (shape : Shape)
        → run.words ≡ Some (Run 0 lock shape)
        → IsDoneInTime lock shape run.source.old run.ended }
    ensures no_audit { (run : SingleRun) (line : ℕ) → run.ended ≢ Status.AuditNo line }
    ensures nothing_written { (run : SingleRun)
        → run.ended ≢ Status.Ok → run.ended ≢ Status.HistoryFull → run.ended ≢ Status.WriteFault
        → Keeps run.sink.old run.sink.new }
{
    orders_fit();
    runs_tell_their_history();
}
