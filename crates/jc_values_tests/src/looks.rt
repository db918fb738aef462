//! At which pods a sync looks, and which indexes they hold, while pods are put.

use crate::samples::{POD, PodRow, key, moment, pod_of};
use jc_states::Pods;
use jc_types::{Arc, Phase, Pod, Uid, Want};
use std::alloc::Global;
use std::process::Abort;
use std::test::Fail;

// A pod that is put: its UID, that of its Job, its index, its phase, whether it is marked, and whether it has
// the finalizer.
type Made = (u32, u32, u32, Phase, bool, bool);

// What is then so of the Job of UID 1: the UIDs of the pods at which a sync looks, whether two pods share an
// index, whether one has an index from 3 to 5, and the least index from 3 to 9 that none has.
type Told = (&'static [u32], bool, bool, u32);

const ROWS: &[(Made, Told)] = &[
    (
        (2, 1, 3, Phase::Pending, false, true),
        (&[], false, true, 4),
    ),
    (
        (3, 1, 4, Phase::Running, false, true),
        (&[], false, true, 5),
    ),
    ((4, 1, 3, Phase::Pending, false, true), (&[], true, true, 5)),
    (
        (2, 1, 3, Phase::Failed, false, true),
        (&[2], false, true, 5),
    ),
    (
        (3, 1, 4, Phase::Running, true, true),
        (&[2, 3], false, true, 4),
    ),
    (
        (4, 1, 3, Phase::Pending, false, false),
        (&[2, 3, 4], false, false, 3),
    ),
    (
        (2, 1, 3, Phase::Failed, false, false),
        (&[3, 4], false, false, 3),
    ),
    (
        (9, 7, 5, Phase::Pending, false, true),
        (&[3, 4, 9], false, false, 3),
    ),
];

fn row_of(made: Made) -> PodRow {
    let (uid, owner, index, phase, marked, tracked) = made;
    PodRow {
        uid,
        owner,
        index: Some(index),
        phase,
        marked,
        tracked,
        ..POD
    }
}

// The UIDs of the pods at which a sync of the Job of UID 1 looks, where these are listed.
fn noted(alloc: Global, pods: &Pods, listed: &[Uid]) -> Result<Vec<u32>, Want> {
    let noted = pods.to_look_at(Uid(1), listed, &[])?;
    noted.iter().map(|pod| pod.uid.0).collect(alloc)
}

// Puts a pod among the few that the test has.
fn put(rt: &impl Abort, pods: &mut Pods, pod: Arc<Pod>) -> Result<(), Fail> {
    assert!(rt; pods.len() < 100);
    pods.put(pod)?;
    Ok(())
}

fn check_rows(rt: &impl Abort, alloc: Global, pods: &mut Pods) -> Result<(), Fail> {
    for (made, (wanted, shares, holds, free)) in ROWS {
        let pod = pod_of(alloc, key(alloc)?, moment(0)?, row_of(*made));
        put(rt, pods, Arc::new(alloc, pod)?)?;
        assert!(rt; noted(alloc, pods, &[])?.as_slice() == *wanted);
        assert_eq!(rt; pods.shares_index(Uid(1)), *shares);
        assert_eq!(rt; pods.holds_between(Uid(1), 3, 5), *holds);
        assert_eq!(rt; pods.first_unheld(Uid(1), 3, 10), *free);
    }
    Ok(())
}

fn check_found(rt: &impl Abort, alloc: Global, pods: &Pods) -> Result<(), Fail> {
    let listed = noted(alloc, pods, &[Uid(2), Uid(5)])?;
    assert!(rt; listed.as_slice() == [2, 3, 4, 9].as_slice());
    assert!(rt; pods.get(Uid(2)).is_some() && pods.get(Uid(5)).is_none());
    assert!(rt; pods.holds_between(Uid(7), 5, 5) && !pods.holds_between(Uid(7), 6, 9));
    assert_eq!(rt; pods.first_unheld(Uid(7), 5, 6), 6);
    assert_eq!(rt; pods.first_unheld(Uid(7), 4, 6), 4);
    Ok(())
}

#[test]
fn syncs_look_at_few_pods(rt: HostRuntime) -> Result<(), Fail> {
    let mut pods = Pods::new(rt.alloc());
    check_rows(&rt, rt.alloc(), &mut pods)?;
    check_found(&rt, rt.alloc(), &pods)
}
