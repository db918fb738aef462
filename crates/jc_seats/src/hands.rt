//! How a seat hands in what it was to plan.

ghost use Rattle.std.specs.Prelude.{◌≡◌, IfOk, Some, is_ok};
ghost use Rattle.jc_history.specs.Registers.{register};
ghost use Rattle.jc_core.specs.DiariesSeen.{diary_seen};
ghost use Rattle.jc_core.specs.Since.{seen_at};
ghost use Rattle.jc_seats.specs.Hands.{IsHandedIn, offered};

use crate::kept::Kept;
use crate::naming::Naming;
use jc_core::Work;
use jc_plan::Plan;
use jc_types::Want;

/// Hands in the plan, where it was made; else puts the register back. False where it was not made. The seat
/// took the work when so many events had happened: the plan is compared only where one since then is of the
/// register.
pub fn hand_in<J: Naming>(
    kept: &mut Kept<J>,
    seat: u32,
    work: &Work,
    events: usize,
    made: Result<Plan, Want>,
) -> bool
    requires begun { IfOk made (λ plan. register work.now.worker
        (diary_seen (seen_at events kept.old.seen) work.now.controller) ≡ Some plan.basis) }
    ensures made { result ≡ is_ok made }
    ensures hands { IsHandedIn seat work.now.controller work.now.worker (offered made)
        kept.old kept.new }
{
    let Ok(plan) = made else {
        kept.put_back(seat, work.controller, work.worker);
        return false;
    };
    kept.submit(seat, work.controller, work.worker, plan, events);
    true
}
