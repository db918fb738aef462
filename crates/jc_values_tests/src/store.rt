//! Requests that no script makes of a store: a status at a version or for a UID that is not the Job's, a pod that is let
//! go more than once, and a change that a script may not name.

use crate::samples::{key, moment, no_status, spec};
use jc_moment::Moment;
use jc_store::Store;
use jc_types::{Arc, Copied, Field, JobStatus, Key, Reply, SpecChange, Uid, Version, Want};
use std::alloc::Global;
use std::process::Abort;
use std::test::Fail;

// Makes the Job `pi` and one pod of it.
fn fill(alloc: Global, store: &mut Store, pi: &Key, now: Moment) -> Result<(), Fail> {
    store.create_job(pi, Arc::new(alloc, spec(alloc)?)?, now)?;
    let owner = store.job(pi).ok_or("the Job")?.copy()?;
    if store.log_len().0 < 1_000 {
        store.create_pod(&owner, None, now)?;
    }
    Ok(())
}

// What a request was answered.
#[derive(Clone, Copy, PartialEq, Eq, Debug)]
enum Answered {
    Written(u32),
    Unchanged(u32),
    Released(u32),
    Conflict(u32),
    NotFound,
    NotTracked,
    BadParallelism,
    Other,
}

// What the reply says.
fn told(reply: Result<Reply, Want>) -> Answered {
    match reply {
        Ok(Reply::Written { version }) => Answered::Written(version.0),
        Ok(Reply::Unchanged { version }) => Answered::Unchanged(version.0),
        Ok(Reply::Released { version }) => Answered::Released(version.0),
        Ok(Reply::Conflict { current }) => Answered::Conflict(current.0),
        Ok(Reply::NotFound) => Answered::NotFound,
        Ok(Reply::NotTracked) => Answered::NotTracked,
        Ok(
            Reply::Invalid {
                field: Field::Parallelism,
            },
        ) => Answered::BadParallelism,
        _ => Answered::Other,
    }
}

// A request.
#[derive(Clone, Copy)]
enum Ask {
    // The status is written for the Job of that UID at that version.
    Write(u32, u32),
    // The pod of that UID is let go at that version.
    LetGo(u32, u32),
    // The Job is to have so many pods at once.
    Parallelism(u32),
}

// Requests, and what each is answered.
const ASKS: &[(Ask, Answered)] = &[
    (Ask::Write(1, 1), Answered::Written(3)),
    (Ask::Write(1, 1), Answered::Conflict(3)),
    (Ask::Write(2, 3), Answered::NotFound),
    (Ask::Write(1, 3), Answered::Unchanged(3)),
    (Ask::LetGo(9, 9), Answered::NotFound),
    (Ask::LetGo(2, 1), Answered::Conflict(2)),
    (Ask::LetGo(2, 2), Answered::Released(4)),
    (Ask::LetGo(2, 4), Answered::NotTracked),
    (Ask::Parallelism(5_001), Answered::BadParallelism),
];

// The change to so many pods at once.
fn parallelism(count: u32) -> SpecChange {
    SpecChange {
        parallelism: Some(count),
        completions: None,
        suspend: None,
        deadline: None,
        backoff_limit: None,
    }
}

// What the request is answered.
fn answer_of(store: &mut Store, pi: &Key, status: &Arc<JobStatus>, ask: Ask) -> Answered {
    match ask {
        Ask::Write(uid, version) => {
            told(store.write_status(pi, Uid(uid), Version(version), status))
        }
        Ask::LetGo(uid, version) => told(store.let_go(Uid(uid), Version(version))),
        Ask::Parallelism(count) => told(store.update_spec(pi, None, &parallelism(count))),
    }
}

// The requests are made one after the other, the statuses with one active pod.
fn ask_all(rt: &impl Abort, store: &mut Store, pi: &Key, status: &Arc<JobStatus>) {
    for (ask, wanted) in ASKS {
        assert_eq!(rt; answer_of(store, pi, status, *ask), *wanted);
    }
}

#[test]
fn answers_as_the_rules_say(rt: HostRuntime) -> Result<(), Fail> {
    let alloc = rt.alloc();
    let now = moment(1_704_067_200)?;
    let pi = key(alloc)?;
    let mut status = no_status(alloc);
    status.active = 1;
    let status = Arc::new(alloc, status)?;
    let mut store = Store::new(alloc);
    let filled = fill(alloc, &mut store, &pi, now);
    ask_all(&rt, &mut store, &pi, &status);
    filled
}
