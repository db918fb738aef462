//! The commands that a reaper gives to a machine at rest, and to a cluster.

ghost use Rattle.std.specs.Prelude.{◌≡◌, ◌≤◌, IfOk, OnOk, length, true};
ghost use Rattle.jc_log.specs.Log.{jobs_in};
ghost use Rattle.jc_runs.specs.Available.{is_quiescent};
ghost use Rattle.jc_runs.specs.Seen.{deeds_seen, log_seen};
ghost use Rattle.jc_reap.specs.Expiries.{expired};
ghost use Rattle.jc_reap.specs.Reaping.{reap_list, then_settle, ttl_seen, unsettled};

use crate::expiries::{Expiry, expired};
use crate::makers::makers;
use crate::marking::{give, mark_all_ownerless};
use crate::removals::remove_all;
use crate::ttls::Ttls;
use jc_core::{Cluster, Machine};
use jc_types::{Action1, Commands, Uid, Want};
use std::alloc::Global;
use std::collections::BTreeMap;

// The Jobs that may go, in the order in which they go.
fn due(alloc: Global, machine: &Machine, ttls: &Ttls) -> Result<BTreeMap<Expiry, Uid>, Want>
    ensures { IfOk result (λ rows. rows.entries
        ≡ expired (ttl_seen machine.now ttls.now) (jobs_in (log_seen machine.now))) }
{
    let store = machine.store();
    let script = machine.script();
    let events = machine.history().events.as_slice();
    let makers = makers(alloc, script.commands.as_slice(), events)?;
    let rows = expired(alloc, store.jobs(), &makers, ttls.as_slice())?;
    Ok(rows)
}

// All commands but the settle at the end.
fn unsettled(alloc: Global, machine: &Machine, ttls: &Ttls) -> Result<Commands, Want>
    ensures { IfOk result (λ commands. commands ≡ unsettled machine.now ttls.now) }
{
    let rows = due(alloc, machine, ttls)?;
    let store = machine.store();
    let mut commands = Commands::new(alloc);
    mark_all_ownerless(alloc, &mut commands, store.jobs(), store.pods())?;
    remove_all(&mut commands, store, machine.moment(), rows)?;
    Ok(commands)
}

// Adds a settle at the end, where there is a command.
fn settle(commands: &mut Commands) -> Result<(), Want>
    ensures { OnOk result (commands.new ≡ then_settle commands.old) }
{
    if commands.is_empty() {
        return Ok(());
    }
    give(commands, Action1::Settle)
}

/// The commands that remove what is done with from a machine at rest, as the TTL controller and the
/// garbage collector of Kubernetes do: marks of the pods whose Job is gone, in ascending UID; then, in
/// the order of the moments at which they may go and of their keys, each finished Job to which the
/// command that made it gave a TTL, where its end and the TTL are not past the last moment: a clock to
/// that moment where it is not reached, the delete of the Job, and marks of its pods in ascending UID;
/// and a settle, where there is anything to do. All are of lane 0.
///
/// The machine stays as it is. A command past the last entry of the TTLs has none.
///
/// # Errors
/// `Want` where there is no memory.
pub fn reap_machine(alloc: Global, machine: &Machine, ttls: &Ttls) -> Result<Commands, Want>
    requires rest { is_quiescent machine.now.shape (deeds_seen machine.now)
        (log_seen machine.now) ≡ true }
    requires few_ttls { length ttls.now ≤ length machine.now.script.commands }
    ensures { IfOk result (λ commands. commands ≡ reap_list machine.now ttls.now) }
{
    let mut commands = unsettled(alloc, machine, ttls)?;
    settle(&mut commands)?;
    Ok(commands)
}

/// The commands that remove what is done with from a cluster at rest: those of its machine.
///
/// # Errors
/// `Want` where there is no memory.
pub fn reap(alloc: Global, cluster: &Cluster, ttls: &Ttls) -> Result<Commands, Want>
    requires rest { is_quiescent cluster.now.seen.shape (deeds_seen cluster.now.seen)
        (log_seen cluster.now.seen) ≡ true }
    requires few_ttls { length ttls.now ≤ length cluster.now.seen.script.commands }
    ensures { IfOk result (λ commands. commands ≡ reap_list cluster.now.seen ttls.now) }
{
    reap_machine(alloc, cluster.machine(), ttls)
}
