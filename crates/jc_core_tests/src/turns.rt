//! What two seats of a turn lock see of a history that is all that the lock holds.

ghost use Rattle.std.specs.Prelude.{◌≡◌, ◌++◌, ◌∷◌, [], false, OnOk, OnErr};
ghost use Rattle.jc_turn.specs.LockSeats.{IsSameSeat};

use jc_turn::{Booked, LockSeat, Taken, TurnLock, make};
use jc_types::{Event, History, Past, Pasts, Reply, Version, Want};
use std::process::Abort;
use std::test::Fail;

// A value that is nothing but its history.
#[derive(Drop)]
struct Diary {
    history: History,
}

impl Booked for Diary {
    ghost pasts = { λ d. d.history.events.items };

    fn history(&self) -> &History {
        &self.history
    }
}

// Notes one thing more.
fn note(diary: &mut Diary, number: u32) -> Result<(), Want>
    ensures more { OnOk result ((past : _) × (diary.new.history.events.items
        ≡ diary.old.history.events.items ++ past ∷ [])) }
    ensures kept { OnErr result
        (diary.new.history.events.items ≡ diary.old.history.events.items) }
{
    diary.history.events.push(Past {
        event: Event::Command { lane: 0, number },
        reply: Reply::NotFound,
        length: Version(0),
    })
}

// Takes the value, notes one thing more, and gives it back. `None` where the value was out.
fn note_by(lock: &TurnLock<Diary>, seat: &mut LockSeat, number: u32) -> Result<Option<usize>, Want>
    requires lock { seat.old.lock ≡ lock.now.name }
    requires free { seat.old.holds ≡ false }
    ensures seat { IsSameSeat seat.old seat.new × (seat.new.holds ≡ false) }
{
    let Taken::Value(mut diary) = lock.take(seat) else {
        return Ok(None);
    };
    let noted = note(&mut diary, number);
    let len = diary.history().events.len();
    lock.give(seat, diary);
    noted?;
    Ok(Some(len))
}

// What two seats see of one history: the first notes a thing, and tells the second, which notes
// another; while the first has the value, the second finds it out.
fn play(
    rt: &impl Abort,
    lock: &TurnLock<Diary>,
    a: &mut LockSeat,
    b: &mut LockSeat,
) -> Result<(), Fail>
    requires lock { (a.old.lock ≡ lock.now.name) × (b.old.lock ≡ lock.now.name) }
    requires free { (a.old.holds ≡ false) × (b.old.holds ≡ false) }
    ensures first { IsSameSeat a.old a.new × (a.new.holds ≡ false) }
    ensures second { IsSameSeat b.old b.new × (b.new.holds ≡ false) }
{
    assert_eq!(rt; note_by(lock, a, 0)?, Some(1));
    lock.meet(a, b)?;
    assert_eq!(rt; note_by(lock, b, 1)?, Some(2));
    let Taken::Value(diary) = lock.take(a) else {
        return Err(Fail::new("the value was out"));
    };
    let found = note_by(lock, b, 2);
    lock.give(a, diary);
    assert_eq!(rt; found?, None);
    Ok(())
}

#[test]
fn seats_see_one_diary(rt: HostRuntime) -> Result<(), Fail> {
    let diary = Diary {
        history: History {
            events: Pasts::new(rt.alloc()),
        },
    };
    let Ok((lock, mut seats)) = make(rt.alloc(), diary, 2) else {
        return Err(Fail::new("no memory"));
    };
    let (first, second) = seats.as_mut_slice().split_at_mut(1);
    let played = play(&rt, &lock, &mut first[0], &mut second[0]);
    let diary = lock.close(seats);
    assert_eq!(rt; diary.history().events.len(), 2);
    played
}
