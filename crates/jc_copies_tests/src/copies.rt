//! One copy of each type with lists or texts that no run copies, with something in it where that can be.

ghost use Rattle.std.specs.Prelude.{◌≡◌, IfOk, None};

use jc_cache::{JobCache, PodCache};
use jc_ledger::Flight;
use jc_manage::Wants;
use jc_moment::Moment;
use jc_node::Fates;
use jc_plan::plan;
use jc_queue::Delays;
use jc_script::Cause;
use jc_states::{Basis, Pods};
use jc_types::{
    Arc, Backoff, Copied, End, Ends, Indexes, Jobs, Key, KeyNames, Label, PodVersions, Text, Uid,
    Uids, Version, Want,
};
use std::alloc::Global;
use std::test::Fail;

// Whether there was memory for a copy. That it is equal, its contract says.
fn is_copied<T: Copied>(value: &T) -> bool {
    value.copy().is_ok()
}

// The key of the Job `pi` in the namespace `default`.
fn key(alloc: Global) -> Result<Key, Want> {
    let namespace = Label::from_text(alloc, "default")?;
    let name = Label::from_text(alloc, "pi")?;
    Key::new(alloc, KeyNames { namespace, name })
}

// One pod's UID.
fn one_uid(alloc: Global) -> Result<Uids, Want> {
    let mut uids = Uids::new(alloc);
    uids.push(Uid(2))?;
    Ok(uids)
}

// What a sync of a key without a Job and without pods begins with.
fn basis(alloc: Global, now: Moment) -> Result<Arc<Basis>, Want>
    ensures { IfOk result (λ basis. basis.job ≡ None) }
{
    let key = key(alloc)?;
    let pods = Arc::new(alloc, Pods::new(alloc))?;
    Arc::new(
        alloc,
        Basis {
            key,
            job: None,
            pods,
            jobs_at: Version(1),
            pods_at: Version(1),
            now,
            backoff: Backoff {
                failures: 1,
                last: Some(now),
            },
        },
    )
}

// Caches that were told of all that there is.
fn copies_caches(alloc: Global) -> Result<bool, Want> {
    let mut jobs = JobCache::empty(alloc);
    jobs.replace(Jobs::new(alloc), Version(1))?;
    let mut pods = PodCache::empty(alloc);
    pods.replace(Pods::new(alloc), Version(1))?;
    Ok(is_copied(&jobs) && is_copied(&pods))
}

// Delays with a key that is delayed.
fn copies_delays(alloc: Global, now: Moment) -> Result<bool, Want> {
    let mut delays = Delays::new(alloc);
    delays.add_after(&key(alloc)?, now)?;
    Ok(is_copied(&delays))
}

// Fates of a key whose pods exit with 3.
fn copies_fates(alloc: Global) -> Result<bool, Want> {
    let mut ends = Ends::new(alloc);
    ends.push(End {
        exit: 3,
        restarts: 0,
        condition: Some(Text::from_str(alloc, "DisruptionTarget")?),
    })?;
    let mut fates = Fates::new(alloc);
    fates.set(&key(alloc)?, ends)?;
    Ok(is_copied(&fates))
}

// The plan of a sync, and the sync under way.
fn copies_plan(alloc: Global, now: Moment) -> Result<bool, Want> {
    let basis = basis(alloc, now)?;
    let is_plan_copied = is_copied(&plan(alloc, &basis)?);
    let flight = Flight {
        basis,
        written: None,
        sends: Version(1),
        released: one_uid(alloc)?,
    };
    Ok(is_plan_copied && is_copied(&flight))
}

// What a sync wants: a pod that is marked.
fn copies_wants(alloc: Global) -> Result<bool, Want> {
    let wants = Wants {
        creates: Indexes::new(alloc),
        marks: one_uid(alloc)?,
        let_goes: PodVersions::new(alloc),
        next: None,
        backoff: Backoff {
            failures: 0,
            last: None,
        },
    };
    Ok(is_copied(&wants))
}

#[test]
fn what_a_controller_keeps_is_copied(rt: HostRuntime) -> Result<(), Fail> {
    let alloc = rt.alloc();
    let now = Moment::from_seconds(60).ok_or("a moment")?;
    assert!(rt; copies_caches(alloc)?);
    assert!(rt; copies_delays(alloc, now)?);
    assert!(rt; copies_fates(alloc)?);
    Ok(())
}

#[test]
fn what_a_sync_makes_is_copied(rt: HostRuntime) -> Result<(), Fail> {
    let alloc = rt.alloc();
    let now = Moment::from_seconds(60).ok_or("a moment")?;
    assert!(rt; copies_plan(alloc, now)?);
    assert!(rt; copies_wants(alloc)?);
    assert!(rt; is_copied(&Cause::NotJson));
    Ok(())
}
