//! Laws on how a settle ends. Each function is empty: what it ensures holds of every history, and its callers may cite it.

ghost use Rattle.std.specs.Prelude.{◌≡◌, ◌<◌, ◌≤◌, ◌∷◌, List, Option, Some, [], length, ℕ};
ghost use Rattle.jc_types.specs.declared.actions.End.{End};
ghost use Rattle.jc_types.specs.declared.objects.Entry.{Entry};
ghost use Rattle.jc_types.specs.declared.objects.KeyNames.{KeyNames as Key};
ghost use Rattle.jc_types.specs.declared.runs.Shape.{Shape};
ghost use Rattle.jc_log.specs.Acts as does;
ghost use Rattle.jc_log.specs.Deeds.{Deed};
ghost use Rattle.jc_log.specs.Log.{pods_in};
ghost use Rattle.jc_plan.specs.Plans.{planned};
ghost use Rattle.jc_runs.specs.Legal.{IsLegal};
ghost use Rattle.jc_runs.specs.Replies.{log_given};
ghost use Rattle.jc_states.specs.declared.bases.Basis.{Basis};
ghost use Rattle.jc_settle.specs.Settles.{next_of_settle};
ghost use Rattle.jc_calm.specs.SettleTurns.{pods_asked};
ghost use Rattle.jc_retries.specs.Nodes.{fate};
ghost use Rattle.jc_bearing.specs.Whole.{DoesAll, SawLog};
ghost use Rattle.jc_remaining.specs.Remaining.{AllCome, FitsAll, HasEach, LastEndsCount, all_creations, all_left, still_left};

/// **A whole sync leaves less to be written of pods.** If no Job ignores the last end of its fate, no more pods may be made
/// for all Jobs after it, and fewer where it makes some. Where it makes none, less is left of the pods that are there if it
/// marks one, lets one go or releases one.
pub fn whole_syncs_leave_less()
    ensures none_more { (fates : Key → Option (List End)) (keys : List Key) (log new : List Entry) (basis : Basis)
        → LastEndsCount fates log → FitsAll log → SawLog log basis → DoesAll log basis new
        → all_creations fates new keys ≤ all_creations fates log keys }
    ensures fewer { (fates : Key → Option (List End)) (keys : List Key) (log new : List Entry) (basis : Basis)
        → LastEndsCount fates log → FitsAll log → SawLog log basis → DoesAll log basis new
        → HasEach keys log → 0 < length (planned basis).creates
        → all_creations fates new keys < all_creations fates log keys }
    ensures same { (most : ℕ) (fates : Key → Option (List End)) (log new : List Entry) (basis : Basis)
        → SawLog log basis → DoesAll log basis new → (planned basis).creates ≡ []
        → all_left most fates (pods_in new) ≤ all_left most fates (pods_in log) }
    ensures less { (most : ℕ) (fates : Key → Option (List End)) (log new : List Entry) (basis : Basis)
        → SawLog log basis → DoesAll log basis new → (planned basis).creates ≡ []
        → 0 < pods_asked (planned basis)
        → all_left most fates (pods_in new) < all_left most fates (pods_in log) }
{}

/// **And so does the node**: each of its deeds in a settle is written, leaves less of the pods that are there, and allows no
/// more of them, where each pod whose container restarts after failures has restarted less often than a bound.
pub fn the_node_leaves_less()
    ensures left { (shape : Shape) (past : List Deed) (d : Deed) (most : ℕ) → IsLegal shape past
        → 0 < shape.workers → next_of_settle shape past ≡ Some d → d.act ≡ does.Node
        → AllCome most shape past
        → still_left most (fate past) shape (d ∷ past) < still_left most (fate past) shape past }
    ensures creations { (shape : Shape) (past : List Deed) (d : Deed) (keys : List Key)
        → d.act ≡ does.Node → FitsAll (log_given shape past)
        → all_creations (fate past) (log_given shape (d ∷ past)) keys
        ≤ all_creations (fate past) (log_given shape past) keys }
{}
