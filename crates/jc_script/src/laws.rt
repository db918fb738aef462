//! What the commands of a script keep. The function is empty: what it ensures holds of every script, and its callers may
//! cite it.

ghost use Rattle.std.specs.Prelude.{◌≡◌, ◌<◌, ◌≤◌, ℕ, List, Ok, length};
ghost use Rattle.std.specs.List.{AllByRecursion as Each};
ghost use Rattle.jc_types.specs.declared.actions.Command.{Command};
ghost use Rattle.jc_types.specs.declared.runs.Shape.{Shape};
ghost use Rattle.jc_states.specs.ValidActions.{AreValidCommands};
ghost use Rattle.jc_script.specs.Fits.{NamesShape};
ghost use Rattle.jc_script.specs.Scripts.{most_commands, script_of};

/// The commands of a script are valid, name only controllers and workers of the shape, stand on
/// one of 16 lanes, and are at most 200,000.
pub fn scripts_fit_their_shape()
    ensures valid { (shape : Shape) (text : List ℕ) (commands : List Command)
        → script_of shape text ≡ Ok commands
        → AreValidCommands commands }
    ensures within { (shape : Shape) (text : List ℕ) (commands : List Command)
        → 0 < shape.controllers → 0 < shape.workers → script_of shape text ≡ Ok commands
        → Each (λ (command : Command). NamesShape shape command.action) commands }
    ensures lanes { (shape : Shape) (text : List ℕ) (commands : List Command)
        → script_of shape text ≡ Ok commands
        → Each (λ (command : Command). command.lane < 16) commands }
    ensures few_commands { (shape : Shape) (text : List ℕ) (commands : List Command)
        → script_of shape text ≡ Ok commands → length commands ≤ most_commands }
{}
