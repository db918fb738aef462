//! What a list of pods knows of the pods of an owner while pods are put and taken.

use crate::samples::{POD, PodRow, key, main_container, moment, pod_conditions, pod_of};
use jc_states::{Pods, Tally};
use jc_types::{Arc, Phase, Pod, Truth, Uid};
use std::alloc::Global;
use std::process::Abort;
use std::test::Fail;

// A change of the list.
#[derive(Clone, Copy)]
enum Step {
    // Five pods of the Job of UID 1 are put, of the UIDs from 2 on.
    Five,
    // The pod of the UID is put as marked.
    Mark(u32),
    // It is put as running and ready, its container was restarted so often.
    Run(u32, u32),
    // It is put as ended.
    End(u32),
    // It is put for the Job of another UID.
    Give(u32, u32),
    // It is taken; and whether it was there.
    Take(u32, bool),
}

// Pods, open, active, active and tracked, open and marked, ready, restarts.
type Numbers = (u32, u32, u32, u32, u32, u32, u128);

// A change, and the numbers of the Job of UID 1 after it.
const STEPS: &[(Step, Numbers)] = &[
    (Step::Take(2, false), (0, 0, 0, 0, 0, 0, 0)),
    (Step::Five, (5, 5, 5, 5, 0, 0, 0)),
    (Step::Mark(3), (5, 5, 4, 4, 1, 0, 0)),
    (Step::Take(3, true), (4, 4, 4, 4, 0, 0, 0)),
    (Step::Take(3, false), (4, 4, 4, 4, 0, 0, 0)),
    (Step::Run(4, 2), (4, 4, 4, 4, 0, 1, 2)),
    (Step::Run(5, 3), (4, 4, 4, 4, 0, 2, 5)),
    (Step::Run(4, 7), (4, 4, 4, 4, 0, 2, 10)),
    (Step::End(5), (4, 3, 3, 3, 0, 1, 7)),
    (Step::Give(6, 9), (3, 2, 2, 2, 0, 1, 7)),
    (Step::Take(4, true), (2, 1, 1, 1, 0, 0, 0)),
];

fn plain(alloc: Global, row: PodRow) -> Result<Arc<Pod>, Fail> {
    Ok(Arc::new(alloc, pod_of(alloc, key(alloc)?, moment(0)?, row))?)
}

fn running(alloc: Global, uid: u32, restarts: u32) -> Result<Arc<Pod>, Fail> {
    let row = PodRow {
        uid,
        phase: Phase::Running,
        ..POD
    };
    let mut pod = pod_of(alloc, key(alloc)?, moment(0)?, row);
    pod.containers.push(main_container(alloc, None, restarts)?)?;
    pod.conditions = pod_conditions(alloc, &[("Ready", Truth::True)])?;
    Ok(Arc::new(alloc, pod)?)
}

// Puts a pod among the few that a test has.
fn put(rt: &impl Abort, pods: &mut Pods, pod: Arc<Pod>) -> Result<(), Fail> {
    assert!(rt; pods.len() < 100);
    pods.put(pod)?;
    Ok(())
}

fn put_five(rt: &impl Abort, alloc: Global, pods: &mut Pods) -> Result<(), Fail> {
    for uid in [4u32, 2, 6, 3, 5] {
        put(rt, pods, plain(alloc, PodRow { uid, ..POD })?)?;
    }
    Ok(())
}

fn take_step(rt: &impl Abort, alloc: Global, pods: &mut Pods, step: Step) -> Result<(), Fail> {
    match step {
        Step::Five => put_five(rt, alloc, pods)?,
        Step::Mark(uid) => {
            let row = PodRow {
                uid,
                marked: true,
                ..POD
            };
            put(rt, pods, plain(alloc, row)?)?;
        }
        Step::Run(uid, restarts) => put(rt, pods, running(alloc, uid, restarts)?)?,
        Step::End(uid) => {
            let row = PodRow {
                uid,
                phase: Phase::Failed,
                ..POD
            };
            put(rt, pods, plain(alloc, row)?)?;
        }
        Step::Give(uid, owner) => {
            put(rt, pods, plain(alloc, PodRow { uid, owner, ..POD })?)?;
        }
        Step::Take(uid, there) => {
            let taken = pods.take(Uid(uid)).map(|pod| pod.uid.0);
            assert_eq!(rt; taken.is_some(), there, "the pod {uid}");
        }
    }
    Ok(())
}

fn numbers(tally: &Tally) -> Numbers {
    (
        tally.pods,
        tally.open_pods,
        tally.active,
        tally.active_tracked,
        tally.open_marked,
        tally.ready,
        tally.restarts,
    )
}

fn take_all(rt: &impl Abort, alloc: Global, pods: &mut Pods) -> Result<(), Fail> {
    for (step, wanted) in STEPS {
        take_step(rt, alloc, pods, *step)?;
        let tally = pods.tally(Uid(1));
        assert_eq!(rt; tally.owner, Uid(1));
        assert_eq!(rt; numbers(&tally), *wanted);
    }
    assert_eq!(rt; numbers(&pods.tally(Uid(9))), (1, 1, 1, 1, 0, 0, 0));
    assert_eq!(rt; numbers(&pods.tally(Uid(8))), (0, 0, 0, 0, 0, 0, 0));
    Ok(())
}

#[test]
fn tallies_follow_the_pods(rt: HostRuntime) -> Result<(), Fail> {
    let mut pods = Pods::new(rt.alloc());
    take_all(&rt, rt.alloc(), &mut pods)
}
