//! The lanes of commands.

ghost use Rattle.std.specs.Prelude.{◌<◌, ◌≤◌};
ghost use Rattle.jc_core.specs.Places.{most_lanes};
ghost use Rattle.jc_seats.specs.Names.{AreLanes, AreLanesBelow, AreUsedFrom};

use jc_core::Cluster;
use jc_types::Command;

// The lane of the command is a byte.
fn lane_is_byte(command: &Command)
    ensures { command.now.lane < most_lanes }
{
    let _lane = command.lane;
}

/// The lanes of the commands are bytes. Each is read, since the range of a number behind a reference
/// is known only once it was read.
pub fn lanes_are_bytes(commands: &[Command])
    ensures { AreLanes commands.now }
{
    for command in commands {
        lane_is_byte(command);
    }
}

// How many lanes there are up to the greatest one of the commands.
pub(crate) fn lanes_of(commands: &[Command]) -> u32
    ensures below { AreLanesBelow result commands.now }
    ensures few_lanes { result ≤ most_lanes }
{
    let mut lanes = 0;
    for command in commands {
        let lane = command.lane as u32;
        if lanes <= lane {
            lanes = lane + 1;
        }
    }
    lanes
}

// How many lanes there are up to the greatest one that has a command left; it is looked for from this many down.
pub(crate) fn lanes_left(cluster: &Cluster, lanes: u32) -> u32
    requires used { AreUsedFrom lanes cluster.now.seen }
    requires few_lanes { lanes ≤ most_lanes }
    ensures used { AreUsedFrom result cluster.now.seen }
    ensures fewer { result ≤ lanes }
{
    for lane in (0..lanes).rev() {
        if cluster.next_command(lane as u8).is_some() {
            return lane + 1;
        }
    }
    0
}
