//! Clusters that are shared: a new one, and one of which nobody holds anything any more.

ghost use Rattle.std.specs.Prelude.{◌≡◌};
ghost use Rattle.jc_runs.specs.ValidActions.{AreValidCommands};
ghost use Rattle.jc_seats.specs.Plays.{IsScriptFor};
ghost use Rattle.jc_history.specs.Available.{IsOrderly};
ghost use Rattle.jc_runs.specs.Seen.{deeds_seen};
ghost use Rattle.jc_seats.specs.Names.{IsOfName};

use crate::play::Play;
use jc_seats::{Cluster, Kept, Naming, keep};
use jc_types::{Copied, Want};
use std::alloc::Global;

// A cluster of the script and the shape in which nothing has happened, and nobody holds anything.
//
// `Want` where there is no memory for it.
pub(crate) fn new_kept<J: Naming>(alloc: Global, play: Play<'_>) -> Result<Kept<J>, Want>
    requires script { play.script.now ≡ J.script }
    requires shape { play.shape.now ≡ J.shape }
    requires valid_actions { AreValidCommands play.script.now.commands }
    requires fits_shape { IsScriptFor play.script.now play.shape.now }
{
    let cluster = Cluster::new(alloc, play.script.copy()?, *play.shape)?;
    Ok(keep(cluster))
}

// The cluster, of which no register is held any more.
pub(crate) fn freed<J: Naming>(kept: Kept<J>) -> Cluster
    ensures named { IsOfName J.script J.shape result.seen }
    ensures orderly { IsOrderly result.seen.shape (deeds_seen result.seen) }
{
    let mut cluster = kept.into_cluster();
    cluster.free_all();
    cluster
}
