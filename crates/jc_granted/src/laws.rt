//! Laws on the requests of a sync that began in a settle. Each function does nothing: what it ensures holds of every history,
//! and its callers may cite it.

ghost use Rattle.std.specs.Prelude.{◌≡◌, ◌∷◌, ◌++◌, List, None, Some, length, ℕ};
ghost use Rattle.jc_types.specs.declared.objects.Entry.{Entry};
ghost use Rattle.jc_types.specs.declared.objects.Job.{Job};
ghost use Rattle.jc_types.specs.declared.replies.Reply.TheVariants as reply;
ghost use Rattle.jc_types.specs.declared.runs.Shape.{Shape};
ghost use Rattle.jc_states.specs.declared.bases.Basis.{Basis};
ghost use Rattle.jc_log.specs.Acts as does;
ghost use Rattle.jc_log.specs.Deeds.{Deed};
ghost use Rattle.jc_log.specs.Writes.{Stored};
ghost use Rattle.jc_history.specs.Legal.{IsLegal, IsLegalNext};
ghost use Rattle.jc_history.specs.Registers.{pending, register};
ghost use Rattle.jc_history.specs.Replies.{diary, log_given};
ghost use Rattle.jc_ledger.specs.Tied.{Tied};
ghost use Rattle.jc_plan.specs.Plans.{planned};
ghost use Rattle.jc_sync.specs.Ask.{Ask};
ghost use Rattle.jc_sync.specs.Asks.{as_request, asks_of};
ghost use Rattle.jc_sync.specs.Flight.{Flight};
ghost use Rattle.jc_sync.specs.Flights.{Flies};
ghost use Rattle.jc_sync.specs.SyncPlaces.{IsAt};
ghost use Rattle.jc_sync.specs.Quiet.{EndedAreLost, HasNext};
ghost use Rattle.jc_sync.specs.Sends.{sent_first};
ghost use Rattle.jc_sync.specs.Steps.{answered_to, stepped_at};
ghost use Rattle.jc_granted.specs.SyncsDone.{EndsInSettle, HasItsPlan, SyncsInSettle};
ghost use Rattle.jc_granted.specs.Granted.{GrantsOne, IsGranted};
ghost use Rattle.jc_granted.specs.Ready.{AreReady, Grants, StayReady};

use jc_runs::allowed_updates_stay_valid;

/// A request that finds what it asks for is granted, where each that is left does and no two of them are about one
/// pod; and then so it is of those that are left after it, with the mark behind a let-go.
pub fn ready_requests_are_granted()
    ensures granted { (log : List Entry) (now : ℕ) (flight : Flight) (ask : Ask) (left : List Ask)
        → Stored log → Flies log flight → IsAt flight (ask ∷ left)
        → AreReady log flight (ask ∷ left)
        → Grants (as_request ask) (answered_to log now flight ask) }
    ensures stay { (log : List Entry) (now : ℕ) (flight : Flight) (ask : Ask) (left : List Ask)
        → Stored log → Flies log flight → IsAt flight (ask ∷ left)
        → AreReady log flight (ask ∷ left)
        → StayReady log (stepped_at now None log flight (ask ∷ left)) }
{}

/// So it is of all that a plan asks, where its sync saw the whole log: a pod to mark is active, one to let go is active
/// and has the finalizer, one to release has it, and no pod is asked for twice.
pub fn plans_on_the_whole_log_are_ready()
    ensures { (deeds : List Deed) (log : List Entry) (flights : List Flight) (flight : Flight)
        → Tied deeds log flights → Flies log flight → flight.basis.jobs_at.0 ≡ length log
        → flight.basis.pods_at.0 ≡ length log → flight.sends ≡ sent_first flight.basis.job
        → AreReady log flight (asks_of (planned flight.basis)) }
{}

/// A sync goes on with each request that is granted, in every legal history; it ends where none is left.
pub fn granted_syncs_go_on()
    ensures on { (shape : Shape) (past : List Deed) (d : Deed) (c w : ℕ) (basis : Basis)
        → IsLegal shape past → d.act ≡ does.Step c w
        → register w (diary shape c past) ≡ Some basis → GrantsOne d
        → register w (diary shape c (d ∷ past)) ≡ Some basis }
    ensures ends { (shape : Shape) (past : List Deed) (d : Deed) (c w : ℕ) (basis : Basis)
        → IsLegal shape past → d.act ≡ does.Step c w
        → register w (diary shape c past) ≡ Some basis → d.reply ≡ reply.Ended
        → register w (diary shape c (d ∷ past)) ≡ None }
{}

/// **In a settle no request is refused without a fault**, behind each legal history whose Jobs were created with valid
/// specifications: of a sync that began there, and before whose next request no fault is pending, the next step's
/// request is granted and its entry appended, or none is left and the sync ends. So it meets no conflict, no object
/// that is gone, and none that it would leave as it is.
pub fn requests_in_a_settle_are_granted()
    ensures { (shape : Shape) (run past : List Deed) (c w : ℕ) (basis : Basis) (d : Deed)
        → SyncsInSettle shape run past c w basis
        → pending w (diary shape c (run ++ past)) ≡ None
        → IsLegalNext shape (run ++ past) d → d.act ≡ does.Step c w
        → IsGranted shape (run ++ past) d }
{
    allowed_updates_stay_valid();
}

/// **Where a sync that began in a settle ends, all that it planned is so**, behind each legal history whose Jobs were
/// created with valid specifications: each pod to mark is marked, each to let go has lost its finalizer and is marked,
/// each to release has lost it; so many pods more of its Job were made as it was to make; and its Job has the second
/// status of what it saw. That is the next status of the Job, and no own pod that had ended and was not left over has
/// its finalizer.
pub fn syncs_in_a_settle_do_what_they_plan()
    ensures plan { (shape : Shape) (run past : List Deed) (c w : ℕ) (basis : Basis) (d : Deed)
        → EndsInSettle shape run past c w basis d
        → HasItsPlan (log_given shape (run ++ past)) basis }
    ensures next { (shape : Shape) (run past : List Deed) (c w : ℕ) (basis : Basis) (d : Deed)
        (job : Job) → EndsInSettle shape run past c w basis d → basis.job ≡ Some job
        → HasNext (log_given shape (run ++ past)) basis job }
    ensures ended { (shape : Shape) (run past : List Deed) (c w : ℕ) (basis : Basis) (d : Deed)
        (job : Job) → EndsInSettle shape run past c w basis d → basis.job ≡ Some job
        → EndedAreLost (log_given shape (run ++ past)) basis job }
{
    allowed_updates_stay_valid();
}
