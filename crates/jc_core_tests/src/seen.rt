//! What two seats of a turn lock see of the one history of a cluster.

ghost use Rattle.std.specs.Prelude.{◌≡◌, ◌≤◌, ◌<◌, ◌^◌, false, length};
ghost use Rattle.jc_history.specs.Available.{IsOrderly};
ghost use Rattle.jc_runs.specs.Seen.{deeds_seen};
ghost use Rattle.jc_shared.specs.Names.{IsOfName};
ghost use Rattle.jc_turn.specs.LockSeats.{IsSameSeat};

use crate::scripts::cluster_of;
use jc_shared::{ApplyFault, Cluster, Kept, Naming, SeenReply, apply_seen, keep};
use jc_turn::{Booked, LockSeat, Taken, TurnLock, make};
use jc_types::{Event, Kind, Reply, Sys, Uid, Version};
use std::alloc::Global;
use std::marker::Brand;
use std::process::Abort;
use std::test::Fail;

// The first command creates a Job.
const ONE_JOB: &str = concat!(
    r#"{"do":"create","job":{"apiVersion":"batch/v1","kind":"Job","metadata":{"name":"pi"},"#,
    r#""spec":{"template":{"spec":{"restartPolicy":"Never","containers":[{"name":"main"}]}}}}}"#,
);

// What was answered.
#[derive(Clone, Copy, PartialEq, Eq, Debug)]
enum Answered {
    Created,
    Listed,
    NotNow,
    Out,
    Other,
}

// What the answer is.
fn told(answer: Result<SeenReply, ApplyFault>) -> Answered {
    match answer {
        Ok(
            SeenReply::Reply(
                Reply::Created {
                    uid: Uid(1),
                    version: Version(1),
                },
            ),
        ) => Answered::Created,
        Ok(SeenReply::Reply(Reply::Listed { at: Version(1) })) => Answered::Listed,
        Ok(SeenReply::NotNow) => Answered::NotNow,
        Ok(SeenReply::Out) => Answered::Out,
        _ => Answered::Other,
    }
}

// Does the event, and tells what was answered.
fn told_of<J: Naming>(lock: &TurnLock<Kept<J>>, seat: &mut LockSeat, event: Event) -> Answered
    requires lock { seat.old.lock ≡ lock.now.name }
    requires free { seat.old.holds ≡ false }
    ensures { IsSameSeat seat.old seat.new × (seat.new.holds ≡ false) }
{
    told(apply_seen(lock, seat, event))
}

// What the seat is answered while the other has the cluster, and how many events that one finds.
fn while_out<J: Naming>(
    lock: &TurnLock<Kept<J>>,
    holder: &mut LockSeat,
    other: &mut LockSeat,
    event: Event,
) -> Option<(Answered, usize)>
    requires lock { (holder.old.lock ≡ lock.now.name) × (other.old.lock ≡ lock.now.name) }
    requires free { (holder.old.holds ≡ false) × (other.old.holds ≡ false) }
    ensures holder { IsSameSeat holder.old holder.new × (holder.new.holds ≡ false) }
    ensures other { IsSameSeat other.old other.new × (other.new.holds ≡ false) }
{
    let Taken::Value(kept) = lock.take(holder) else {
        return None;
    };
    let found = kept.history().events.len();
    let out = told_of(lock, other, event);
    lock.give(holder, kept);
    Some((out, found))
}

// The command that creates the Job.
fn create() -> Event {
    Event::Command { lane: 0, number: 0 }
}

// The first seat creates the Job, and tells the second, which lists the Jobs then. The command cannot
// come again. While the first has the cluster, the second finds it out.
fn play_seen<J: Naming>(
    rt: &impl Abort,
    lock: &TurnLock<Kept<J>>,
    a: &mut LockSeat,
    b: &mut LockSeat,
) -> Result<(), Fail>
    requires lock { (a.old.lock ≡ lock.now.name) × (b.old.lock ≡ lock.now.name) }
    requires free { (a.old.holds ≡ false) × (b.old.holds ≡ false) }
    ensures first { IsSameSeat a.old a.new × (a.new.holds ≡ false) }
    ensures second { IsSameSeat b.old b.new × (b.new.holds ≡ false) }
{
    let list = Event::System(Sys::List {
        controller: 0,
        kind: Kind::Jobs,
    });
    assert_eq!(rt; told_of(lock, a, create()), Answered::Created);
    lock.meet(a, b)?;
    assert_eq!(rt; told_of(lock, b, list), Answered::Listed);
    assert_eq!(rt; told_of(lock, a, create()), Answered::NotNow);
    let seen = while_out(lock, a, b, create());
    assert_eq!(rt; seen, Some((Answered::Out, 2)));
    Ok(())
}

// How many events its cluster has.
fn events_in<J: Naming>(kept: Kept<J>) -> usize {
    kept.history().events.len()
}

// What two seats see of the one history of the cluster, which has two events in the end.
fn see_one_history<J: Naming>(rt: &impl Abort, alloc: Global, cluster: Cluster) -> Result<(), Fail>
    requires named { IsOfName J.script J.shape cluster.seen }
    requires orderly { IsOrderly cluster.seen.shape (deeds_seen cluster.seen) }
{
    let Ok((lock, mut seats)) = make(alloc, keep::<J>(cluster), 2) else {
        return Err(Fail::new("no memory"));
    };
    let (first, second) = seats.as_mut_slice().split_at_mut(1);
    let seen = play_seen(rt, &lock, &mut first[0], &mut second[0]);
    assert_eq!(rt; events_in(lock.close(seats)), 2);
    seen
}

// The same, of the script and the shape of the cluster.
fn share(rt: &impl Abort, alloc: Global, cluster: Cluster) -> Result<(), Fail>
    requires { IsOrderly cluster.seen.shape (deeds_seen cluster.seen) }
{
    see_one_history::<Brand>(rt, alloc, cluster)
}

#[test]
fn seats_see_one_history(rt: HostRuntime) -> Result<(), Fail> {
    let alloc = rt.alloc();
    share(&rt, alloc, cluster_of(&rt, alloc, ONE_JOB)?)
}
