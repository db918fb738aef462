//! One event, done by a seat of a turn lock that knows what came before.

ghost use Rattle.std.specs.Prelude.{◌≡◌, ◌<◌, ◌↔◌, false};
ghost use Rattle.jc_seats.specs.Names.{IsOfName};
ghost use Rattle.jc_turn.specs.LockSeats.{IsSameSeat};
ghost use Rattle.jc_shared.specs.SeenReplies.{SeatIsAnswered, IsDone, IsOutAnswer, IsSeenHistory, lost_after};

use jc_seats::{ApplyFault, Kept, Naming};
use jc_turn::{LockSeat, Taken, TurnLock};
use jc_types::{Event, Reply};

/// What a seat is answered to an event.
#[derive(Drop)]
pub enum SeenReply {
    /// The event has happened, and this is the reply.
    Reply(Reply),
    /// The event cannot come now.
    NotNow,
    /// The cluster was out.
    Out,
}

// What the type of the cluster keeps: whose it is, and that its history stands.
fn keeps<J: Naming>(kept: &Kept<J>)
    ensures named { IsOfName J.script J.shape kept.now.seen }
    ensures stands { IsSeenHistory kept.now.seen }
{
    kept.keeps();
    let _history = kept.cluster().history();
}

// Does the event, where it can come, and answers it.
fn done<J: Naming>(kept: &mut Kept<J>, event: Event) -> Result<SeenReply, ApplyFault>
    ensures { IsDone kept.old.seen event result kept.new.seen }
{
    let _history = kept.cluster().history();
    if !kept.cluster().fits(&event) {
        return Ok(SeenReply::NotNow);
    }
    Ok(SeenReply::Reply(kept.apply(event)?))
}

/// Does the event on the cluster of the lock, where the cluster is there and the event can come.
/// The history that was found begins with all that the seat had seen; it is a legal and orderly one
/// of the script, and has counted once. The seat has then seen it, with the event where it was
/// done, and the cluster is back. `Out` comes exactly where the seat's count of tries that found
/// the cluster out rose; it has risen by one then, and is else as before. With `Out` the seat has seen
/// what it had seen; `NotNow` comes exactly where the event cannot come after the history that was found.
///
/// # Errors
/// `HistoryFull` exactly where the event can come, and the history that was found has as many
/// events as the shape allows; `Want` where there is no memory.
pub fn apply_seen<J: Naming>(
    lock: &TurnLock<Kept<J>>,
    seat: &mut LockSeat,
    event: Event,
) -> Result<SeenReply, ApplyFault>
    requires lock { seat.old.lock ≡ lock.now.name }
    requires free { seat.old.holds ≡ false }
    ensures seat { IsSameSeat seat.old seat.new × (seat.new.holds ≡ false) }
    ensures out { IsOutAnswer result ↔ (seat.old.lost < seat.new.lost) }
    ensures lost { seat.new.lost ≡ lost_after result seat.old.lost }
    ensures answer { SeatIsAnswered J.script J.shape event result seat.old.seen seat.new.seen }
{
    let Taken::Value(mut kept) = lock.take(seat) else {
        return Ok(SeenReply::Out);
    };
    keeps(&kept);
    let answer = done(&mut kept, event);
    lock.give(seat, kept);
    answer
}
