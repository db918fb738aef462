//! Marks of pods for deletion.

ghost use Rattle.std.specs.Prelude.{◌≡◌, ◌∷◌, ◌++◌, [], IfOk, List, OnOk, filter, map};
ghost use Rattle.jc_types.specs.declared.objects.Job.{Job};
ghost use Rattle.jc_reap.specs.Reaping.{HasUids, command, is_ownerless, mark_commands};

use jc_table::{PodTable, Table};
use jc_types::{Action1, Arc, Command, Commands, Job, Key, Pod, Uid, Want};
use std::alloc::Global;

// Adds the command of lane 0 that does this.
pub(crate) fn give(commands: &mut Commands, action: Action1) -> Result<(), Want>
    ensures { OnOk result (commands.new ≡ commands.old ++ command action ∷ []) }
{
    commands.push(Command { lane: 0, action })
}

// Adds a mark of the pod.
fn mark(commands: &mut Commands, pod: &Pod) -> Result<(), Want>
    ensures { OnOk result (commands.new ≡ commands.old ++ mark_commands (pod.now ∷ [])) }
{
    give(commands, Action1::Mark { pod: pod.uid })
}

// Adds marks of all these pods.
pub(crate) fn mark_all(commands: &mut Commands, pods: &[Arc<Pod>]) -> Result<(), Want>
    ensures { OnOk result (commands.new ≡ commands.old ++ mark_commands pods.now) }
{
    for pod in pods {
        mark(commands, pod)?;
    }
    Ok(())
}

// The UIDs of the Jobs that are there.
fn present(alloc: Global, jobs: &Table<Key, Arc<Job>>) -> Result<Table<Uid, ()>, Want>
    ensures { IfOk result (λ uids. HasUids uids (map (λ row. row.1) jobs.now)) }
{
    let mut uids = Table::new(alloc);
    for job in jobs.values() {
        uids.put(job.uid, ())?;
    }
    Ok(uids)
}

// Whether none of the Jobs with these UIDs made the pod.
fn is_ownerless(uids: &Table<Uid, ()>, pod: &Pod) -> bool
    ensures { (jobs : List Job) → HasUids uids.now jobs → result ≡ is_ownerless jobs pod.now }
{
    !uids.contains(&pod.owner_uid)
}

// Adds a mark of the pod, where its Job is gone.
fn mark_ownerless(commands: &mut Commands, uids: &Table<Uid, ()>, pod: &Pod) -> Result<(), Want>
    ensures { OnOk result ((jobs : List Job) → HasUids uids.now jobs
        → commands.new ≡ commands.old ++ mark_commands (filter (is_ownerless jobs) (pod.now ∷ []))) }
{
    if is_ownerless(uids, pod) {
        mark(commands, pod)
    } else {
        Ok(())
    }
}

// Adds marks of all pods whose Job is gone.
pub(crate) fn mark_all_ownerless(
    alloc: Global,
    commands: &mut Commands,
    jobs: &Table<Key, Arc<Job>>,
    pods: &PodTable,
) -> Result<(), Want>
    ensures { OnOk result (commands.new ≡ commands.old
        ++ mark_commands (filter (is_ownerless (map (λ row. row.1) jobs.now)) pods.now)) }
{
    let uids = present(alloc, jobs)?;
    for pod in pods.values() {
        mark_ownerless(commands, &uids, pod)?;
    }
    Ok(())
}
