//! Laws on the commands of a reaper. Each function does nothing: what it ensures holds of every list, and its callers may
//! cite it.

ghost use Rattle.std.specs.Prelude.{◌≡◌, ◌<◌, ◌≤◌, ◌+◌, ◌^◌, ◌++◌, ℕ, Bool, Err, List, Ok, Option, false, length, true};
ghost use Rattle.std.specs.List.{AllByRecursion as Each, Contains, list_any};
ghost use Rattle.std.specs.List.Sorted.{IsStrictlySortedBy};
ghost use Rattle.std.specs.Map.{keys_of};
ghost use Rattle.jc_types.specs.declared.actions.Command.{Command};
ghost use Rattle.jc_types.specs.declared.actions.Script.{Script};
ghost use Rattle.jc_types.specs.declared.numbers.Uid.{Uid};
ghost use Rattle.jc_types.specs.declared.objects.Entry.{Entry};
ghost use Rattle.jc_types.specs.declared.objects.KeyNames.{KeyNames as Key};
ghost use Rattle.jc_types.specs.declared.runs.Shape.{Shape};
ghost use Rattle.jc_log.specs.Acts.{Act};
ghost use Rattle.jc_log.specs.Deeds.{Deed, act_of_action};
ghost use Rattle.jc_log.specs.Log.{jobs_in};
ghost use Rattle.jc_runs.specs.ValidActions.{AreValidCommands};
ghost use Rattle.jc_runs.specs.Legal.{IsLegal, IsOfShape};
ghost use Rattle.jc_runs.specs.Play.{Playing, deeds_played, is_command, rest_played, whole_play};
ghost use Rattle.jc_core.specs.Plays.{IsScriptFor};
ghost use Rattle.jc_runs.specs.Machines.{AllAskValid};
ghost use Rattle.jc_runs.specs.Seen.{Seen, deeds_seen};
ghost use Rattle.jc_script.specs.Scripts.{BadLine, script_of};
ghost use Rattle.jc_reap.specs.declared.expiries.Expiry.{Expiry};
ghost use Rattle.jc_reap.specs.Expiries.{MayGo, expired, expiry_order};
ghost use Rattle.jc_reap.specs.Finds.{AreDue, CollectsSeen, IsToReap, seen_at_end};
ghost use Rattle.jc_reap.specs.ReapedCommands.{AllCanBeSaid, AllCreate, IsSmallTtl};
ghost use Rattle.jc_reap.specs.Reaping.{AskReaped, reap_list, reaped_script, ttl_seen};
ghost use Rattle.jc_reap.specs.TtlLines.{RefusesTtl, ttls_of};

use jc_runs::{allowed_updates_stay_valid, valid_scripts_ask_valid};

/// The commands that a reaper gives are valid, and name no controller and no worker that a shape does not have: so a
/// script that can be played can be played with them behind it. They stand on lane 0.
pub fn reaped_commands_fit()
    ensures valid { (seen : Seen) (ttls : List (Option ℕ))
        → AreValidCommands (reap_list seen ttls) }
    ensures within { (shape : Shape) (seen : Seen) (ttls : List (Option ℕ))
        → Each (λ (command : Command). IsOfShape shape (act_of_action command.action))
        (reap_list seen ttls) }
    ensures lane { (seen : Seen) (ttls : List (Option ℕ))
        → Each (λ (command : Command). command.lane ≡ 0) (reap_list seen ttls) }
{}

/// The commands of a reaper are such as a script may have: they delete Jobs by keys that create commands gave, mark
/// pods by numbers of 32 bits, and wait for fewer seconds than 32 bits hold, since no Job has ended later than now and
/// each TTL is a number of 31 bits.
pub fn reaped_commands_can_be_said()
    ensures commands { (test : Key → Bool) (seen : Seen) (ttls : List (Option ℕ))
        → AllCreate (λ key. test key ≡ true) seen.script.commands
        → length seen.pasts < 2 ^ 32 → Each IsSmallTtl ttls
        → AllCanBeSaid (λ key. test key ≡ true) (reap_list seen ttls) }
    ensures ttls { (shape : Shape) (text : List ℕ) (ttls : List (Option ℕ))
        → ttls_of shape text ≡ Ok ttls → Each IsSmallTtl ttls }
{}

/// The list of the Jobs that may go is in order, by the moment and then by the key, and has exactly
/// the Jobs that have ended, were given a TTL, and whose end and TTL are not past the last moment: so
/// no Job that has not ended, and none before its time.
pub fn expired_jobs_are_listed()
    ensures order { (ttl : Uid → Option ℕ) (log : List Entry)
        → IsStrictlySortedBy expiry_order (keys_of (expired ttl (jobs_in log))) }
    ensures due { (ttl : Uid → Option ℕ) (log : List Entry)
        → Each (MayGo ttl log) (expired ttl (jobs_in log)) }
    ensures all { (ttl : Uid → Option ℕ) (log : List Entry) (row : Expiry × Uid)
        → MayGo ttl log row → Contains (expired ttl (jobs_in log)) row }
{}

/// A script that was read gives as many TTLs as it has commands, or else what is refused of it is a
/// TTL.
pub fn as_many_ttls_as_commands()
    ensures many { (shape : Shape) (text : List ℕ) (commands : List Command)
        (ttls : List (Option ℕ)) → script_of shape text ≡ Ok commands
        → ttls_of shape text ≡ Ok ttls → length ttls ≡ length commands }
    ensures refused { (shape : Shape) (text : List ℕ) (commands : List Command) (bad : BadLine)
        → script_of shape text ≡ Ok commands → ttls_of shape text ≡ Err bad
        → RefusesTtl bad.cause }
{}

/// Where a legal history goes on with a front of the commands of a reaper, and nothing comes between
/// them, each delete that was made removed a Job: one that had ended, and whose TTL had passed since
/// its end. And each mark found a pod whose Job was gone.
pub fn reaped_is_due()
    ensures { (seen : Seen) (ttls : List (Option ℕ)) (more : List Deed) (left : List Act)
        → AllAskValid (deeds_seen seen) → IsLegal seen.shape (more ++ deeds_seen seen)
        → AskReaped seen ttls more left
        → AreDue (ttl_seen seen ttls) seen.shape (deeds_seen seen) more }
{
    allowed_updates_stay_valid();
}

/// So in the play of a script that ends in the commands of a reaper, from where the play of those
/// before them has come to what the reaper saw: each delete and each mark that was made from there on
/// found this, also where the play is full before its end. Where it is not full, all was collected:
/// each Job that may go was deleted, and each pod whose Job is gone, or went so, was marked.
pub fn reaped_plays()
    ensures { (script : Script) (seen : Seen) (ttls : List (Option ℕ)) (place : ℕ) (p : Playing)
        → IsToReap script seen ttls place p
        → CollectsSeen seen ttls script
        (rest_played script seen.shape place (reap_list seen ttls) p) }
{
    allowed_updates_stay_valid();
}

/// The play of a script with more commands behind it is that of its first ones, and then that of the
/// others: the first ones are played as if nothing came behind them.
pub fn longer_scripts_play_on()
    ensures whole { (front more : List Command) (shape : Shape)
        → whole_play (record { commands = front ++ more }) shape
        ≡ rest_played (record { commands = front ++ more }) shape (length front) more
        (whole_play (record { commands = front }) shape) }
    ensures deeds { (front more : List Command) (shape : Shape)
        → deeds_played (record { commands = front })
        (whole_play (record { commands = front }) shape)
        ≡ deeds_played (record { commands = front ++ more })
        (whole_play (record { commands = front }) shape) }
    ensures fresh { (front : List Command) (shape : Shape) (n : ℕ) → length front ≤ n
        → list_any (is_command n) (whole_play (record { commands = front }) shape).pasts
        ≡ false }
{}

/// **What a reaper's commands find, end to end**: a script is played, and then the script with the
/// commands that a reaper gives for the end of this play. In the second play, behind the events of the
/// first, each delete that was made removed a Job that had ended and whose TTL had passed, and each
/// mark found a pod whose Job was gone; also where that play is full before its end. Where it is not
/// full, all was collected that was due at the end of the first play: each Job that had ended, was
/// given a TTL, and whose end and TTL are not past the last moment was deleted; and each pod whose Job
/// was gone, or was deleted so, was marked.
pub fn collecting_plays_are_due()
    ensures { (front : List Command) (shape : Shape) (ttls : List (Option ℕ))
        → IsScriptFor (record { commands = front }) shape
        → AreValidCommands front
        → let seen = seen_at_end (record { commands = front }) shape in
        CollectsSeen seen ttls (reaped_script seen ttls)
        (whole_play (reaped_script seen ttls) shape) }
{
    allowed_updates_stay_valid();
    valid_scripts_ask_valid();
}
