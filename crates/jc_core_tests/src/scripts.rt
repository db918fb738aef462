//! Scripts of a text, and the shape for which they are read.

ghost use Rattle.std.specs.Prelude.{IfOk, IsTrue};
ghost use Rattle.jc_log.specs.Deeds.{act_of_action};
ghost use Rattle.jc_history.specs.Available.{IsOrderly};
ghost use Rattle.jc_history.specs.Legal.{IsOfShape};
ghost use Rattle.jc_runs.specs.Seen.{deeds_seen};
ghost use Rattle.jc_runs.specs.ValidActions.{AreValidCommands};
ghost use Rattle.jc_shared.specs.Plays.{IsScriptFor};

use jc_moment::Moment;
use jc_script::{read_script, scripts_fit_their_shape};
use jc_shared::Cluster;
use jc_types::{Action1, Script, Shape};
use std::alloc::Global;
use std::process::Abort;
use std::test::Fail;

// One controller with one worker, from 2024-01-01T00:00:00Z on.
//
// `Fail` where that is no moment.
fn shape() -> Result<Shape, Fail> {
    Ok(Shape {
        controllers: 1,
        workers: 1,
        window: 1_000,
        events: 1_000,
        start: Moment::from_seconds(1_704_067_200).ok_or("a moment")?,
    })
}

// Whether the action creates, or lists for a controller of the shape.
fn is_within(action: &Action1, shape: &Shape) -> bool
    ensures { IsTrue result → IsOfShape shape.now (act_of_action action.now) }
{
    match action {
        Action1::Create { .. } => true,
        Action1::List { controller, .. } => *controller < shape.controllers,
        _ => false,
    }
}

// Whether all commands do, so that the script can be played on the shape.
fn is_proper(script: &Script, shape: &Shape) -> bool
    ensures { IsTrue result → IsScriptFor script.now shape.now }
{
    for command in script.commands.as_slice() {
        if !is_within(&command.action, shape) {
            return false;
        }
    }
    true
}

// The script of the text. Its commands create and list, and no more.
//
// `Fail` where it is none.
fn script_of(rt: &impl Abort, alloc: Global, text: &str, shape: &Shape) -> Result<Script, Fail>
    ensures valid_actions { IfOk result (λ script.
        AreValidCommands script.commands) }
    ensures fits_shape { IfOk result (λ script. IsScriptFor script shape.now) }
{
    assert!(rt; text.len() < 1_000_000, "the script is short");
    scripts_fit_their_shape();
    match read_script(alloc, text.as_bytes(), shape) {
        Ok(script) => {
            assert!(rt; is_proper(&script, shape), "the commands are of the shape");
            Ok(script)
        }
        Err(_) => Err(Fail::new("the script")),
    }
}

/// A new cluster of the script of the text.
///
/// # Errors
/// `Fail` where that is none, or there is no memory.
pub fn cluster_of(rt: &impl Abort, alloc: Global, text: &str) -> Result<Cluster, Fail>
    ensures { IfOk result (λ cluster. IsOrderly cluster.seen.shape (deeds_seen cluster.seen)) }
{
    let shape = shape()?;
    let script = script_of(rt, alloc, text, &shape)?;
    assert!(rt; script.commands.len() < 1_000 && shape.events <= 200_000);
    Ok(Cluster::new(alloc, script, shape)?)
}
