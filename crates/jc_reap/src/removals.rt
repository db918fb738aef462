//! The removal of Jobs whose time is over.

ghost use Rattle.std.specs.Prelude.{◌≡◌, ◌++◌, OnOk};
ghost use Rattle.jc_reap.specs.Reaping.{clock_to, later_moment, removal, removals};

use crate::expiries::Expiry;
use crate::marking::{give, mark_all};
use jc_core::{Moment, Store};
use jc_types::{Action1, Commands, Uid, Want};
use std::collections::BTreeMap;

// The later of two moments.
fn later_moment(reached: Moment, due: Moment) -> Moment
    ensures { result ≡ later_moment reached due }
{
    if reached < due { due } else { reached }
}

// Adds a clock to the moment, where it is later than the one that was reached.
fn wait(commands: &mut Commands, reached: Moment, due: Moment) -> Result<(), Want>
    ensures { OnOk result (commands.new ≡ commands.old ++ clock_to reached due) }
{
    if reached < due {
        let add = due.since(&reached);
        give(commands, Action1::Clock { add })
    } else {
        Ok(())
    }
}

// Adds the delete of a Job, and marks of its pods.
fn remove(commands: &mut Commands, store: &Store, expiry: Expiry, uid: Uid) -> Result<(), Want>
    ensures { OnOk result (commands.new ≡ commands.old ++ removal store.now (expiry, uid)) }
{
    let pods = store.pods_of(uid)?;
    give(commands, Action1::Delete { key: expiry.key })?;
    mark_all(commands, pods.as_slice())
}

// Adds the removals of all these Jobs, in their order, each at its moment.
pub(crate) fn remove_all(
    commands: &mut Commands,
    store: &Store,
    now: Moment,
    rows: BTreeMap<Expiry, Uid>,
) -> Result<(), Want>
    ensures { OnOk result (commands.new
        ≡ commands.old ++ removals store.now now rows.entries) }
{
    let mut reached = now;
    for (expiry, uid) in rows {
        let due = expiry.moment;
        wait(commands, reached, due)?;
        reached = later_moment(reached, due);
        remove(commands, store, expiry, uid)?;
    }
    Ok(())
}
