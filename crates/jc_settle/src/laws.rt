//! Laws on what happens in a settle. Each function is empty: what it ensures holds of every history, and its callers may
//! cite it.

ghost use Rattle.std.specs.Prelude.{◌≡◌, ◌+◌, ◌++◌, ◌∷◌, ◌<◌, List, None, Option, Some, false, true, ℕ};
ghost use Rattle.jc_types.specs.declared.runs.Event.TheVariants.{System};
ghost use Rattle.jc_types.specs.declared.runs.Shape.{Shape};
ghost use Rattle.jc_types.specs.declared.runs.Sys.{Sys};
ghost use Rattle.jc_types.specs.declared.runs.Sys.TheVariants as sys;
ghost use Rattle.jc_log.specs.Deeds.{Deed};
ghost use Rattle.jc_history.specs.Available.{available, is_quiescent};
ghost use Rattle.jc_history.specs.Legal.{IsLegal, IsLegalNext};
ghost use Rattle.jc_history.specs.Play.{Playing, deeds_played, first_event, settled_down};
ghost use Rattle.jc_history.specs.Registers.{register};
ghost use Rattle.jc_history.specs.Replies.{diary, log_given};
ghost use Rattle.jc_history.specs.Nodes.{NodeAct, act_on, change_by};
ghost use Rattle.jc_log.specs.Requests.{with_mark, with_report, without_finalizer};
ghost use Rattle.jc_moment.specs.declared.moment.Moment.{Moment};
ghost use Rattle.jc_states.specs.Pods.{is_marked, is_open};
ghost use Rattle.jc_types.specs.declared.actions.End.{End};
ghost use Rattle.jc_types.specs.declared.objects.Entry.{Entry};
ghost use Rattle.jc_types.specs.declared.objects.KeyNames.{KeyNames as Key};
ghost use Rattle.jc_types.specs.declared.objects.Pod.{Pod};
ghost use Rattle.jc_settle.specs.Comes.{Comes, SeesAll};
ghost use Rattle.jc_settle.specs.Left.{ComesTo, pod_left};
ghost use Rattle.jc_settle.specs.Serial.{HasSync, IsAlone, IsOldOrAlone, IsSettling, SettlesTo};
ghost use Rattle.jc_settle.specs.Settles.{CalmsDown, CatchesUp, ComesToRest, next_of_settle, settled_on};
ghost use Rattle.jc_order.specs.Plays.{IsPlayed};
ghost use Rattle.jc_types.specs.declared.actions.Script.{Script};
ghost use Rattle.jc_states.specs.declared.bases.Basis.{Basis};

/// What is known where an event is the first that is available: nothing is delivered before each cache has
/// a number, no sync steps before each cache has seen the whole log, none begins while another is under
/// way, the node acts where no key is in line, and the clock moves where the node does nothing.
pub fn what_comes_first()
    ensures { (shape : Shape) (past : List Deed) (event : Sys) → IsLegal shape past
        → 0 < shape.workers
        → first_event (available shape past (log_given shape past)) ≡ Some (System event)
        → Comes shape past (log_given shape past) event }
{}

/// So a sync that begins there has no other beside it, and sees the whole log.
pub fn begins_see_all()
    ensures { (shape : Shape) (past : List Deed) (c w : ℕ) → IsLegal shape past
        → 0 < shape.workers
        → first_event (available shape past (log_given shape past)) ≡ Some (System (sys.Begin c w))
        → SeesAll shape past c }
{}

/// What a play does in a settle is, event by event, the first that was available.
pub fn plays_do_what_comes_first()
    ensures { (script : Script) (shape : Shape) (start : List Deed) (p : Playing)
        → IsPlayed script shape start p
        → SettlesTo shape (deeds_played script p)
        (deeds_played script (settled_down script shape p)) }
{}

/// **A settle is serial**: behind any legal history, each sync that is under way in a settle went on from before it, and
/// none has begun since; or it began in the settle, where no other was under way. Such a sync saw the whole log, and
/// runs alone: what was written since its begin are its own steps, and no other sync is under way. So of the registers
/// that were free when the settle began at most one is in use at any moment, and then no other is.
pub fn settles_are_serial()
    ensures syncs { (shape : Shape) (run past : List Deed) → IsLegal shape (run ++ past)
        → 0 < shape.workers → IsSettling shape run past
        → (c w : ℕ) (basis : Basis) → c < shape.controllers → w < shape.workers
        → register w (diary shape c (run ++ past)) ≡ Some basis
        → IsOldOrAlone shape run past c w basis }
    ensures alone { (shape : Shape) (run past : List Deed) → IsLegal shape (run ++ past)
        → 0 < shape.workers → IsSettling shape run past
        → (c w : ℕ) → c < shape.controllers → w < shape.workers
        → register w (diary shape c past) ≡ None → HasSync shape (run ++ past) c w
        → IsAlone shape (run ++ past) c w }
{}

/// A settle goes on: its next deed is what the table of events gives, so it stays legal, and what it adds is a settle;
/// so many events and so many more are as many together. Where there is no next deed nothing is available; and what comes
/// to rest after some of its events does before them.
pub fn settles_go_on()
    ensures next { (shape : Shape) (past : List Deed) (d : Deed)
        → next_of_settle shape past ≡ Some d → IsLegalNext shape past d }
    ensures legal { (shape : Shape) (n : ℕ) (past : List Deed)
        → IsLegal shape past → IsLegal shape (settled_on shape n past) }
    ensures settling { (shape : Shape) (n : ℕ) (past : List Deed)
        → SettlesTo shape past (settled_on shape n past) }
    ensures adds { (shape : Shape) (n m : ℕ) (past : List Deed)
        → settled_on shape (n + m) past ≡ settled_on shape m (settled_on shape n past) }
    ensures none { (shape : Shape) (past : List Deed) → next_of_settle shape past ≡ None
        → is_quiescent shape past (log_given shape past) ≡ true }
    ensures before { (shape : Shape) (past : List Deed) (d : Deed)
        → next_of_settle shape past ≡ Some d → ComesToRest shape (d ∷ past)
        → ComesToRest shape past }
    ensures earlier { (shape : Shape) (n : ℕ) (past : List Deed)
        → ComesToRest shape (settled_on shape n past) → ComesToRest shape past }
{}

/// **A settle comes to be calm**: behind any legal history there are so many events after which the caches have seen the
/// whole log and no sync is under way. On the way each deed is a list, a delivery or a step of a sync that was under way;
/// so nothing begins, the node does nothing and the moment stays. First each cache is told of all.
pub fn settles_calm_down()
    ensures caches { (shape : Shape) (past : List Deed) → IsLegal shape past → 0 < shape.workers
        → CatchesUp shape past }
    ensures calm { (shape : Shape) (past : List Deed) → IsLegal shape past → 0 < shape.workers
        → CalmsDown shape past }
{}

/// Each write of a pod leaves less to write of it: what the node does to it, its mark, and the loss of its
/// finalizer. Where its containers restart after a failure, and its end is one, it has restarted less often
/// than the bound.
pub fn writes_leave_less_of_a_pod()
    ensures node { (most : ℕ) (fates : Key → Option (List End)) (log : List Entry) (pod : Pod) (act : NodeAct)
        → ComesTo most fates pod → act_on fates pod ≡ Some act
        → pod_left most fates (with_report log pod (change_by pod act)) < pod_left most fates pod }
    ensures mark { (most : ℕ) (fates : Key → Option (List End)) (log : List Entry) (now : Moment) (pod : Pod)
        → is_open pod ≡ true → is_marked pod ≡ false
        → pod_left most fates (with_mark log pod now) < pod_left most fates pod }
    ensures release { (most : ℕ) (fates : Key → Option (List End)) (log : List Entry) (pod : Pod)
        → pod.tracked ≡ true → pod_left most fates (without_finalizer log pod) < pod_left most fates pod }
{}
