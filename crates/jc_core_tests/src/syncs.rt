//! A whole sync in one call, where both caches have seen that a Job was made. What is expected comes from a second
//! implementation of the rules, and not from the code.

ghost use Rattle.std.specs.Prelude.{◌≡◌, ◌<◌, ◌^◌, IsTrue, length};
ghost use Rattle.jc_lines.specs.Verdicts.{IsPlace};

use crate::scripts::cluster_of;
use jc_lines::print_event;
use jc_shared::{Actor, Cluster};
use jc_types::{Event, Past, Reply, Script};
use std::alloc::Global;
use std::process::Abort;
use std::test::Fail;

// A Job of one pod is made, and the controller lists all Jobs and all pods.
const SCRIPT: &str = concat!(
    r#"{"do":"create","job":{"apiVersion":"batch/v1","kind":"Job","metadata":{"name":"pi"},"#,
    r#""spec":{"template":{"spec":{"restartPolicy":"Never","containers":[{"name":"main"}]}}}}}"#,
    "\n",
    r#"{"do":"list","kind":"jobs"}"#,
    "\n",
    r#"{"do":"list","kind":"pods"}"#,
);

// All that has happened after the sync.
const HISTORY: &str = concat!(
    r#"1 @0 create default/pi {"backoffLimit":6,"completionMode":"NonIndexed","completions":1,"#,
    r#""parallelism":1,"podReplacementPolicy":"TerminatingOrFailed","suspend":false,"#,
    r#""template":{"containers":["main"],"initContainers":[],"restartPolicy":"Never"}} -> "#,
    "created 1 v1\n",
    "2 @0 list 0 jobs -> listed v1\n",
    "3 @0 list 0 pods -> listed v1\n",
    "4 - begin 0 0 -> begun default/pi jobs v1 pods v1\n",
    "5 - step 0 0 -> create-pod - created 2 v2\n",
    "6 - step 0 0 -> status written v3\n",
    "7 - step 0 0 -> ended\n",
);

// The lane's next command happens, whatever it is answered.
fn command(cluster: &mut Cluster) -> Result<(), Fail> {
    let event = cluster
        .available(Actor::Lane(0))
        .ok_or("a command is left")?;
    match cluster.apply(event) {
        Ok(_) => Ok(()),
        Err(_) => Err(Fail::new("an event")),
    }
}

// Whether the event's command, if it is one, is one of the script.
fn has_place(script: &Script, event: &Event) -> bool
    ensures { IsTrue result → IsPlace script.now.commands event.now }
{
    match event {
        Event::Command { number, .. } => (*number as usize) < script.commands.len(),
        Event::System(_) => true,
    }
}

// The line of the event.
fn tell(
    rt: &impl Abort,
    alloc: Global,
    told: &mut String,
    script: &Script,
    number: usize,
    past: &Past,
) -> Result<(), Fail> {
    assert!(rt; has_place(script, &past.event));
    print_event(told, alloc, script, number as u64, past)?;
    Ok(())
}

// The lines of the history are those that are expected.
fn check_history(rt: &impl Abort, alloc: Global, cluster: &Cluster) -> Result<(), Fail> {
    let mut told = String::new(alloc);
    for (place, past) in cluster.history().events.as_slice().iter().enumerate() {
        let number = place.saturating_add(1);
        tell(rt, alloc, &mut told, cluster.script(), number, past)?;
    }
    assert_eq!(rt; told.as_str(), HISTORY);
    Ok(())
}

// All three commands happen, and then the sync.
fn sync(rt: &impl Abort, alloc: Global, cluster: &mut Cluster) -> Result<(), Fail> {
    for _ in 0..3u32 {
        command(cluster)?;
    }
    assert!(rt; cluster.lanes_done());
    assert!(rt; cluster.shape().controllers == 1 && cluster.shape().workers == 1);
    assert!(rt; matches!(cluster.sync(0, 0), Ok(Reply::Ended)));
    check_history(rt, alloc, cluster)
}

#[test]
fn syncs_in_one_call(rt: HostRuntime) -> Result<(), Fail> {
    let alloc = rt.alloc();
    let mut cluster = cluster_of(&rt, alloc, SCRIPT)?;
    sync(&rt, alloc, &mut cluster)
}
