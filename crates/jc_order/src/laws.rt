//! Laws on histories at rest, on the play of a script, and on what is left to do. Each function is
//! empty: what it ensures holds of every history, and its callers may cite it.

ghost use Rattle.std.specs.Prelude.{◌≡◌, ◌∷◌, ◌<◌, ◌≤◌, ◌⊎◌, List, None, false, length, reverse, true, ℕ};
ghost use Rattle.std.specs.List.{AllByRecursion as Each};
ghost use Rattle.jc_types.specs.declared.actions.Script.{Script};
ghost use Rattle.jc_types.specs.declared.numbers.Uid.{Uid};
ghost use Rattle.jc_types.specs.declared.objects.Entry.{Entry};
ghost use Rattle.jc_types.specs.declared.objects.KeyNames.{KeyNames as Key};
ghost use Rattle.jc_types.specs.declared.objects.Kind.{Kind};
ghost use Rattle.jc_types.specs.declared.objects.Kind.TheVariants.{Jobs, Pods};
ghost use Rattle.jc_types.specs.declared.runs.History.{History};
ghost use Rattle.jc_types.specs.declared.runs.Shape.{Shape};
ghost use Rattle.jc_log.specs.Deeds.{Deed, deeds};
ghost use Rattle.jc_control.specs.Schedules.{log_end};
ghost use Rattle.jc_control.specs.declared.begins.Begin.TheVariants.{Begun};
ghost use Rattle.jc_history.specs.Available.{IsOrderly, is_quiescent};
ghost use Rattle.jc_history.specs.Fresh.{begin, cache_lag};
ghost use Rattle.jc_history.specs.Legal.{AreUsed, IsHistory, IsLegal};
ghost use Rattle.jc_history.specs.Lines.{line};
ghost use Rattle.jc_history.specs.Notes.{Note};
ghost use Rattle.jc_history.specs.Numbers.{number};
ghost use Rattle.jc_history.specs.Play.{Playing, deeds_played, is_full, play_of, rest_played, settled_down, whole_play};
ghost use Rattle.jc_history.specs.Registers.{AllFit, floor};
ghost use Rattle.jc_history.specs.Replies.{diary, log_given};
ghost use Rattle.jc_order.specs.Ends.{IsAtMost, IsUpToDate, Placed, basis_at_end};
ghost use Rattle.jc_order.specs.Plays.{IsPlayed, IsScriptFor, ends_in_settle};
ghost use Rattle.jc_order.specs.Rest.{HasComeToRest, IsSystemAtRest};
ghost use Rattle.jc_order.specs.Restless.{AllAddOrRetry, AllEndRestless, FailsIf, HasCacheSeen, IsBusy, StandTogether, Stands, has_forgotten, has_job_of};

/// Floors and the numbers of caches are places of the log. So where both caches of a controller
/// have seen the whole log no cache is behind for any key, and a begin starts a sync of the first
/// key in line.
pub fn caches_at_the_end_are_fresh()
    ensures placed { (shape : Shape) (deeds : List Deed) → Placed (log_given shape deeds) }
    ensures floors { (shape : Shape) (c : ℕ) (deeds : List Deed) → IsLegal shape deeds
        → (k : Key) → (floor k (diary shape c deeds)).0 ≤ length (log_given shape deeds) }
    ensures numbers { (shape : Shape) (c : ℕ) (deeds : List Deed) → IsLegal shape deeds
        → (kind : Kind)
        → IsAtMost (length (log_given shape deeds)) (number kind (diary shape c deeds)) }
    ensures fresh { (shape : Shape) (c : ℕ) (deeds : List Deed) → IsLegal shape deeds → (k : Key)
        → cache_lag (diary shape c deeds) (log_given shape deeds) k
        (log_end (log_given shape deeds)) (log_end (log_given shape deeds)) ≡ None }
    ensures begins { (shape : Shape) (c : ℕ) (deeds : List Deed)
        → let log = log_given shape deeds in let notes = diary shape c deeds in
        IsLegal shape deeds → IsUpToDate notes log
        → (now : ℕ) (k : Key) (rest : List Key) → line notes ≡ k ∷ rest
        → begin notes log now ≡ Begun (basis_at_end notes log now k) }
{}

/// Nothing is available just where both caches of each controller have seen the whole log, no sync
/// is under way, no key is in line or delayed, and the node has nothing to do.
pub fn quiescent_is_at_rest()
    ensures rest { (shape : Shape) (past : List Deed) → IsLegal shape past → 0 < shape.workers
        → is_quiescent shape past (log_given shape past) ≡ true
        → IsSystemAtRest shape past (log_given shape past) }
    ensures quiescent { (shape : Shape) (past : List Deed) (log : List Entry)
        → IsSystemAtRest shape past log → is_quiescent shape past log ≡ true }
{}

/// The play of a script is a legal and orderly history of it. It is full only where it has all its
/// events, and where it is not the commands of each lane are used up.
pub fn plays_are_orderly_histories()
    ensures history { (script : Script) (shape : Shape) → IsScriptFor script shape
        → (history : History) → history.events.items ≡ play_of script shape
        → IsHistory script shape history }
    ensures orderly { (script : Script) (shape : Shape) → IsScriptFor script shape
        → (history : History) → history.events.items ≡ play_of script shape
        → IsOrderly shape (deeds script history) }
    ensures log { (script : Script) (shape : Shape) → IsScriptFor script shape
        → (history : History) → history.events.items ≡ play_of script shape
        → (whole_play script shape).log ≡ log_given shape (deeds script history) }
    ensures full { (script : Script) (shape : Shape) → IsScriptFor script shape
        → is_full script shape ≡ true → length (play_of script shape) ≡ shape.events }
    ensures used { (script : Script) (shape : Shape) → IsScriptFor script shape
        → is_full script shape ≡ false
        → AreUsed script.commands (reverse (play_of script shape)) }
{}

/// The play of a script that ends in a settle ends at rest, where it is not full.
pub fn settled_plays_are_at_rest()
    ensures { (script : Script) (shape : Shape) → IsScriptFor script shape
        → (history : History) → history.events.items ≡ play_of script shape
        → is_full script shape ≡ false → ends_in_settle script.commands ≡ true
        → is_quiescent shape (deeds script history)
        (log_given shape (deeds script history)) ≡ true }
{}

/// So is the play of the rest of a script after a history of it; where that was orderly, it is
/// still.
pub fn the_rest_is_played()
    ensures played { (script : Script) (shape : Shape) (start : List Deed) (p : Playing)
        → IsScriptFor script shape → IsPlayed script shape start p
        → IsPlayed script shape start (rest_played script shape 0 script.commands p) }
    ensures used { (script : Script) (shape : Shape) (start : List Deed) (p : Playing)
        → IsScriptFor script shape → IsPlayed script shape start p
        → (rest_played script shape 0 script.commands p).full ≡ false
        → AreUsed script.commands (rest_played script shape 0 script.commands p).pasts }
    ensures history { (script : Script) (shape : Shape) (start : List Deed) (p : Playing)
        → IsPlayed script shape start p
        → (history : History) → history.events.items ≡ reverse p.pasts
        → IsHistory script shape history }
{}

/// What is available is done, one after the other, until nothing is or the history is full.
pub fn histories_settle()
    ensures settled { (script : Script) (shape : Shape) (start : List Deed) (p : Playing)
        → IsPlayed script shape start p
        → IsPlayed script shape start (settled_down script shape p) }
    ensures rests { (script : Script) (shape : Shape) (start : List Deed) (p : Playing)
        → IsPlayed script shape start p
        → ((settled_down script shape p).full ≡ true)
        ⊎ (is_quiescent shape (deeds_played script (settled_down script shape p))
        (settled_down script shape p).log ≡ true) }
{}

/// No ended pod of a Job that is there is forgotten (KEP-2307): from when a controller has seen
/// both, the key is dirty, delayed or under way until a sync that saw both succeeds. So where all
/// such syncs fail, the system does not come to rest.
pub fn no_ended_pod_is_forgotten()
    ensures since { (k : Key) (j u : Uid) (log : List Entry) → has_job_of k log ≡ true
        → has_forgotten k j u log ≡ true → StandTogether k j u log }
    ensures busy { (k : Key) (a b : ℕ) (notes : List Note) → AllFit notes → AllAddOrRetry k a b notes
        → HasCacheSeen (number Jobs notes) a → HasCacheSeen (number Pods notes) b
        → IsBusy k a b notes }
    ensures adds_or_retries { (k : Key) (a b : ℕ) (shape : Shape) (c : ℕ) (deeds : List Deed)
        → IsLegal shape deeds → Stands k a b (log_given shape deeds)
        → AllEndRestless k a b (diary shape c deeds) → AllAddOrRetry k a b (diary shape c deeds) }
    ensures rest { (shape : Shape) (deeds : List Deed) → HasComeToRest shape deeds
        → (c : ℕ) → c < shape.controllers
        → (k : Key) (j u : Uid) (both : StandTogether k j u (log_given shape deeds))
        → Each (FailsIf k both.job_from both.pod_from) (diary shape c deeds) → ⊥ }
{}
