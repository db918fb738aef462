//! The report of a machine, and its summary, as bytes that go out; and those of a cluster.

ghost use Rattle.std.specs.Prelude.{◌≡◌, IfOk, reverse};
ghost use Rattle.jc_lines.specs.Reports.{report_text, summary_of};
ghost use Rattle.jc_runs.specs.Seen.{log_seen};

use jc_core::{Cluster, Machine};
use jc_io::{Bytes, Want};
use jc_lines::{report_of_parts, summary_of_parts};
use std::alloc::Global;

// The report of what happened to the machine, as `report_of_machine`, in memory as a whole.
//
// `Want` where there is no memory for it.
#[tactic(auto, using(jc_lines::proofs::PlaceFacts::numbered))]
fn whole_report(alloc: Global, machine: &Machine, full: bool) -> Result<Bytes, Want>
    ensures { IfOk result (λ bytes. bytes.items ≡ report_text machine.now.script
        (reverse machine.now.pasts) (log_seen machine.now) full) }
{
    // (the shape's number of events is of 32 bits: so the history is short, and its log is)
    let _most = machine.shape().events;
    let store = machine.store();
    let text = report_of_parts(
        alloc,
        machine.script(),
        machine.history(),
        store.log(),
        store.jobs(),
        full,
    )?;
    Ok(text.into_bytes())
}

/// The report of what happened to the cluster, as `report_of_machine` says, in memory as a whole.
///
/// # Errors
///
/// Want of memory.
pub fn report(alloc: Global, cluster: &Cluster, full: bool) -> Result<Bytes, Want>
    ensures { IfOk result (λ bytes. bytes.items ≡ report_text cluster.now.seen.script
        (reverse cluster.now.seen.pasts) (log_seen cluster.now.seen) full) }
{
    whole_report(alloc, cluster.machine(), full)
}

/// The summary of what became of the machine's Jobs, in UTF-8: how many there are, are complete and have
/// failed (conditions of batch/v1), and how many pods their statuses have counted as succeeded and as
/// failed. Where the history is `full`, as the caller knows, a line says so at last. Each line ends with
/// a line feed.
///
/// # Errors
///
/// Want of memory.
pub fn summary_of_machine(alloc: Global, machine: &Machine, full: bool) -> Result<Bytes, Want>
    ensures { IfOk result (λ bytes. bytes.items ≡ summary_of (log_seen machine.now) full) }
{
    let store = machine.store();
    let text = summary_of_parts(alloc, store.log(), store.jobs(), full)?;
    Ok(text.into_bytes())
}

/// The summary of what became of the cluster's Jobs: that of its machine.
///
/// # Errors
///
/// Want of memory.
pub fn summary(alloc: Global, cluster: &Cluster, full: bool) -> Result<Bytes, Want>
    ensures { IfOk result (λ bytes. bytes.items ≡ summary_of (log_seen cluster.now.seen) full) }
{
    summary_of_machine(alloc, cluster.machine(), full)
}
