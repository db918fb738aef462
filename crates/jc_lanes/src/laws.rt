//! Laws on scripts that grow. The function is empty: what it ensures holds of every history, and its callers may cite it.

ghost use Rattle.std.specs.Prelude.{◌≡◌, List, map, ℕ};
ghost use Rattle.jc_types.specs.declared.actions.Command.{Command};
ghost use Rattle.jc_types.specs.declared.actions.Script.{Script};
ghost use Rattle.jc_types.specs.declared.runs.Past.{Past};
ghost use Rattle.jc_log.specs.Deeds.{deed};
ghost use Rattle.jc_history.specs.Legal.{InLanes, next_command};
ghost use Rattle.jc_lanes.specs.LongerScripts.{longer, longer_place};

/// A history of a script is one of the script with a command more at its end: each command came as its lane's next one,
/// and the deeds are the same. A lane's next command stays, and where it had none, the new command is its next one.
#[tactic(auto, using(crate::proofs::LongerScripts::still_in_lanes, crate::proofs::LongerScripts::same_deeds, crate::proofs::LongerScripts::longer_next))]
pub fn longer_scripts_keep_histories()
    ensures lanes { (script : Script) (command : Command) (events : List Past)
        → InLanes script.commands events → InLanes (longer script command).commands events }
    ensures deeds { (script : Script) (command : Command) (events : List Past)
        → InLanes script.commands events
        → map (deed (longer script command)) events ≡ map (deed script) events }
    ensures next { (script : Script) (command : Command) (lane : ℕ) (events : List Past)
        → InLanes script.commands events
        → next_command (longer script command).commands lane events
        ≡ longer_place script.commands command lane events }
{}
