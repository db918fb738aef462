//! Laws on histories. Each function is empty: what it ensures holds of every history, and its callers
//! may cite it. An occasion is a deed that comes after others, and a controller that may note it. A
//! cluster's world is a history of deeds and its log, both newest first, with the controllers.

ghost use Rattle.std.specs.Prelude.{◌≡◌, ◌∷◌, ◌++◌, [], List, None, Option, Some, length, ℕ, set, true};
ghost use Rattle.jc_asks.specs.Readings.{steps_of};
ghost use Rattle.jc_asks.specs.Steps.{Sync, stepped};
ghost use Rattle.jc_control.specs.ControllerCalls.{all_added, begun, clocked, delivered, ended, forgot, job_keys, listed_jobs, listed_pods, pod_owners, told};
ghost use Rattle.jc_control.specs.Schedules.{ControllerView, MirrorsLog, Schedule, idle, log_end};
ghost use Rattle.jc_control.specs.declared.ends.SyncEnd.{SyncEnd};
ghost use Rattle.jc_control.specs.declared.ends.SyncEnd.TheVariants as how;
ghost use Rattle.jc_ledger.specs.EventKinds.{began};
ghost use Rattle.jc_ledger.specs.Syncs.{sync_of};
ghost use Rattle.jc_log.specs.Acts as does;
ghost use Rattle.jc_log.specs.Deeds.{Deed};
ghost use Rattle.jc_log.specs.Log.{entry_at, pods_in};
ghost use Rattle.jc_plan.specs.Plans.{planned};
ghost use Rattle.jc_queue.specs.Queued.{IsQueue, finished, got, has_key, sent_back};
ghost use Rattle.jc_types.specs.declared.actions.Fault.{Fault};
ghost use Rattle.jc_types.specs.declared.actions.Script.{Script};
ghost use Rattle.jc_types.specs.declared.numbers.Version.{Version};
ghost use Rattle.jc_types.specs.declared.objects.Entry.{Entry};
ghost use Rattle.jc_types.specs.declared.objects.Job.{Job};
ghost use Rattle.jc_types.specs.declared.objects.KeyNames.{KeyNames as Key};
ghost use Rattle.jc_types.specs.declared.objects.Kind.{Kind};
ghost use Rattle.jc_types.specs.declared.objects.Kind.TheVariants.{Jobs, Pods};
ghost use Rattle.jc_types.specs.declared.objects.Pod.{Pod};
ghost use Rattle.jc_types.specs.declared.replies.Answer.{Answer};
ghost use Rattle.jc_types.specs.declared.replies.Reply.{Reply};
ghost use Rattle.jc_types.specs.declared.replies.Reply.TheVariants as reply;
ghost use Rattle.jc_types.specs.declared.replies.Request.{Request};
ghost use Rattle.jc_types.specs.declared.runs.Shape.{Shape};
ghost use Rattle.jc_states.specs.declared.bases.Basis.{Basis};
ghost use Rattle.jc_history.specs.ActsAlone.{SameActs};
ghost use Rattle.jc_history.specs.Agrees.{IsScheduleOf, IsQueued};
ghost use Rattle.jc_history.specs.Available.{IsOrderly};
ghost use Rattle.jc_history.specs.Bounds.{AreTold};
ghost use Rattle.jc_history.specs.Diaries.{all_jobs, moment, notes, on_step};
ghost use Rattle.jc_history.specs.Follows.{Agrees, AllAgree, ClusterWorld, FollowsHistory, TakesNoNote, cluster_after};
ghost use Rattle.jc_history.specs.Fresh.{begin};
ghost use Rattle.jc_history.specs.Legal.{IsLegal, IsLegalNext};
ghost use Rattle.jc_history.specs.Lines.{OnlyAdds, line, waits};
ghost use Rattle.jc_history.specs.Notes.{Began, Ended, Expired, Faulted, Listed, Note, SentBack, Ticked, Told};
ghost use Rattle.jc_history.specs.Numbers.{number};
ghost use Rattle.jc_history.specs.Occasions.{Exchange, GoesOver, HasDeed, HasLegalPast, IsExchanged, Occasion, WorkerPast, begin_before, diary_asked, diary_before, diary_with, end_asked, log_before, log_with, moment_before, notes_read};
ghost use Rattle.jc_history.specs.Occasions.{register_read};
ghost use Rattle.jc_history.specs.Play.{nothing, whole_play};
ghost use Rattle.jc_history.specs.Registers.{AllFit, HaveOwnKeys, made, pending, register};
ghost use Rattle.jc_history.specs.SoFar.{HasMadeSteps};
ghost use Rattle.jc_history.specs.Replies.{diary, log_given, notes_with_begin, reply_of_begin, step_done, step_gives};

/// At first nothing is there.
pub fn notes_say()
    ensures line { line [] ≡ [] }
    ensures number { (kind : Kind) → number kind [] ≡ None }
    ensures register { (w : ℕ) → register w [] ≡ None }
    ensures pending { (w : ℕ) → pending w [] ≡ None }
    ensures made { (w : ℕ) → made w [] ≡ [] }
    ensures moment { (shape : Shape) → moment shape [] ≡ shape.start }
    ensures notes { (shape : Shape) (c : ℕ) → notes shape c [] [] ≡ [] }
    ensures log { (shape : Shape) → log_given shape [] ≡ [] }
    ensures legal { (shape : Shape) → IsLegal shape [] }
    ensures orderly { (shape : Shape) → IsOrderly shape [] }
{}

/// What a controller has at first is what no notes say.
pub fn idle_has_no_notes()
    ensures { IsScheduleOf [] idle }
{}

/// A note that adds keys, as they are listed, told or due, that gets one, sends one back or ends a sync: what a
/// controller's queue is after the turn is what the notes say.
pub fn queue_follows_the_notes()
    ensures added { (note : Note) (older : List Note) (keys : List Key) (old new : Schedule)
        → OnlyAdds note older keys → IsQueued older old
        → new.queue ≡ all_added old.queue keys → IsQueued (note ∷ older) new }
    ensures began { (older : List Note) (old new : Schedule) (k : Key) (rest : List Key)
        (worker : ℕ) (basis : Basis) → IsQueue old.queue → IsQueued older old
        → line older ≡ k ∷ rest → basis.key ≡ k → new.queue ≡ got old.queue
        → IsQueued (Began worker basis ∷ older) new }
    ensures sent { (older : List Note) (old new : Schedule) (k : Key) (rest : List Key)
        → IsQueue old.queue → IsQueued older old → line older ≡ k ∷ rest
        → new.queue ≡ sent_back old.queue → IsQueued (SentBack k ∷ older) new }
    ensures ended { (older : List Note) (old new : Schedule) (worker : ℕ) (basis : Basis)
        (end : SyncEnd) (now : ℕ) → IsQueue old.queue → IsQueued older old
        → has_key basis.key old.queue.processing ≡ true
        → new.queue ≡ finished old.queue basis.key
        → IsQueued (Ended worker basis end now ∷ older) new }
{}

/// What a controller has goes over from note to note, by the turns of a controller.
pub fn notes_are_kept()
    ensures listed_jobs { (older : List Note) (schedule : Schedule) (jobs : List Job) (at : Version)
        → IsScheduleOf older schedule
        → IsScheduleOf (Listed Jobs at (job_keys jobs) ∷ older) (listed_jobs schedule jobs at) }
    ensures listed_pods { (older : List Note) (schedule : Schedule) (pods : List Pod) (at : Version)
        → IsScheduleOf older schedule
        → IsScheduleOf (Listed Pods at (pod_owners pods) ∷ older) (listed_pods schedule pods at) }
    ensures told { (older : List Note) (schedule : Schedule) (kind : Kind) (entry : Entry)
        (version : Version) → IsScheduleOf older schedule
        → IsScheduleOf (Told kind version (told kind entry) ∷ older)
        (delivered schedule kind entry version) }
    ensures expired { (older : List Note) (schedule : Schedule) (kind : Kind)
        → IsScheduleOf older schedule → IsScheduleOf (Expired kind ∷ older) (forgot schedule kind) }
    ensures ticked { (older : List Note) (schedule : Schedule) (now : ℕ)
        → IsScheduleOf older schedule → IsScheduleOf (Ticked now ∷ older) (clocked schedule now) }
    ensures faulted { (older : List Note) (schedule : Schedule) (worker : ℕ) (fault : Fault)
        → IsScheduleOf older schedule → IsScheduleOf (Faulted worker fault ∷ older) schedule }
    ensures ended { (older : List Note) (schedule : Schedule) (worker : ℕ) (basis : Basis)
        (end : SyncEnd) (now : ℕ) → IsScheduleOf older schedule
        → has_key basis.key schedule.queue.processing ≡ true
        → IsScheduleOf (Ended worker basis end now ∷ older) (ended schedule basis.key end now) }
{}

/// A begin is answered as the notes say, and what it leaves is what they then say.
pub fn begins_follow_the_notes()
    ensures answer { (notes : List Note) (log : List Entry) (now : ℕ) (con : ControllerView)
        (worker : ℕ) → IsScheduleOf notes con.schedule → MirrorsLog log con
        → (begun now con).answer ≡ begin notes log now }
    ensures schedule { (notes : List Note) (log : List Entry) (now : ℕ) (con : ControllerView)
        (worker : ℕ) → IsScheduleOf notes con.schedule → MirrorsLog log con
        → IsScheduleOf (notes_with_begin worker now log notes) (begun now con).schedule }
{}

/// In line are just the keys that are dirty and not processing.
pub fn who_waits_is_in_line()
    ensures { (notes : List Note) (schedule : Schedule) → IsScheduleOf notes schedule
        → (k : Key) → has_key k (line notes) ≡ waits k notes }
{}

/// In notes that fit, each sync under way has its key processing, and no two have the same key. The notes of
/// a begin and of a step fit.
pub fn syncs_have_their_own_keys()
    ensures apart { (notes : List Note) → AllFit notes → HaveOwnKeys notes }
    ensures begin { (notes : List Note) (log : List Entry) (now worker : ℕ)
        → register worker notes ≡ None → AllFit notes
        → AllFit (notes_with_begin worker now log notes) }
    ensures step { (notes : List Note) (now worker : ℕ) (o : Option Basis)
        → register worker notes ≡ o → (r : Reply) → AllFit notes
        → AllFit (on_step worker now o r ++ notes) }
{}

/// In a legal history the versions that were told are places of its log, and no note changes where the
/// log grows by a deed.
pub fn notes_stay_as_the_log_grows()
    ensures told { (shape : Shape) (deeds : List Deed) → IsLegal shape deeds
        → AreTold (length (log_given shape deeds)) deeds }
    ensures stays { (o : Occasion) → HasLegalPast o
        → notes o.shape o.controller o.past (log_with o) ≡ diary_before o }
{}

/// The notes of a legal history fit.
pub fn legal_notes_fit()
    ensures { (shape : Shape) (c : ℕ) (deeds : List Deed) → IsLegal shape deeds
        → AllFit (diary shape c deeds) }
{}

/// What a controller has goes over from deed to deed of a legal history.
pub fn deeds_are_kept()
    ensures untouched { (o : Occasion) (old : Schedule) → HasLegalPast o
        → TakesNoNote o.shape o.past o.deed o.controller → GoesOver o old old }
    ensures restarted { (o : Occasion) → HasLegalPast o
        → o.deed.act ≡ does.Restart o.controller → IsScheduleOf (diary_with o) idle }
    ensures listed_jobs { (o : Occasion) (old : Schedule)
        → HasDeed o (does.List o.controller Jobs) (reply.Listed (log_end (log_before o)))
        → log_with o ≡ log_before o → GoesOver o old
        (listed_jobs old (all_jobs (log_before o)) (log_end (log_before o))) }
    ensures listed_pods { (o : Occasion) (old : Schedule)
        → HasDeed o (does.List o.controller Pods) (reply.Listed (log_end (log_before o)))
        → log_with o ≡ log_before o → GoesOver o old
        (listed_pods old (pods_in (log_before o)) (log_end (log_before o))) }
    ensures told { (o : Occasion) (old : Schedule) (kind : Kind) (version : Version)
        (entry : Entry) → HasDeed o (does.Deliver o.controller kind) (reply.Delivered version)
        → entry_at version.0 (log_with o) ≡ Some entry
        → GoesOver o old (delivered old kind entry version) }
    ensures expired { (o : Occasion) (old : Schedule) (kind : Kind) (floor : Version)
        → HasDeed o (does.Deliver o.controller kind) (reply.Expired floor)
        → GoesOver o old (forgot old kind) }
    ensures began { (o : Occasion) (con : ControllerView) (worker : ℕ)
        → HasDeed o (does.Begin o.controller worker) (reply_of_begin (begin_before o))
        → log_with o ≡ log_before o → MirrorsLog (log_before o) con
        → GoesOver o con.schedule (begun (moment_before o) con).schedule }
    ensures ticked { (o : Occasion) (old : Schedule) (add now : ℕ)
        → HasDeed o (does.Clock add) (reply.Now now) → GoesOver o old (clocked old now) }
    ensures finished { (o : Occasion) (old : Schedule) (worker : ℕ) (basis : Basis)
        → HasDeed o (does.Step o.controller worker) reply.Ended
        → register worker (diary_before o) ≡ Some basis → GoesOver o old
        (ended old basis.key (how.Ended (planned basis).next) (moment_before o)) }
    ensures goes_on { (o : Occasion) (x : Exchange) (old : Schedule) → IsExchanged o x
        → end_asked x ≡ None → IsScheduleOf (diary_asked o x) old → IsScheduleOf (diary_with o) old }
    ensures breaks_off { (o : Occasion) (x : Exchange) (old : Schedule) (end : SyncEnd)
        → IsExchanged o x → end_asked x ≡ Some end → IsScheduleOf (diary_asked o x) old
        → has_key x.basis.key old.queue.processing ≡ true
        → IsScheduleOf (diary_with o) (ended old x.basis.key end (moment_before o)) }
{}

/// A cluster follows its history: one law for the events of which no controller takes note, one for
/// those of one controller, and one for those of all.
pub fn clusters_follow_their_history()
    ensures store { (w : ClusterWorld) (d : Deed) → FollowsHistory w
        → IsLegalNext w.shape w.deeds d → ((c : ℕ) → TakesNoNote w.shape w.deeds d c)
        → FollowsHistory (cluster_after d w w.cons) }
    ensures one { (w : ClusterWorld) (d : Deed) (i : ℕ) (new : ControllerView)
        → FollowsHistory w → IsLegalNext w.shape w.deeds d
        → ((c : ℕ) → (c ≡ i → ⊥) → TakesNoNote w.shape w.deeds d c)
        → Agrees (cluster_after d w (set w.cons i new)) i new
        → FollowsHistory (cluster_after d w (set w.cons i new)) }
    ensures all { (w : ClusterWorld) (d : Deed) (news : List ControllerView)
        → FollowsHistory w → IsLegalNext w.shape w.deeds d
        → AllAgree (cluster_after d w news) → FollowsHistory (cluster_after d w news) }
{}

/// The acts of a legal history determine it.
pub fn acts_determine_a_history()
    ensures { (shape : Shape) (xs ys : List Deed) → IsLegal shape xs → IsLegal shape ys
        → SameActs xs ys → xs ≡ ys }
{}

/// The sync of a worker's register is the one that the ledger takes for the worker's, and what it has
/// made is what the deeds tell of the worker since its last begin.
pub fn registers_are_the_ledgers_syncs()
    ensures sync { (p : WorkerPast) (basis : Basis) → register_read p ≡ Some basis
        → sync_of p.controller p.worker p.deeds ≡ Some (began basis) }
    ensures made { (p : WorkerPast) (basis : Basis) → register_read p ≡ Some basis
        → made p.worker (notes_read p) ≡ steps_of p.controller p.worker p.deeds }
{}

/// A sync that sends the version of these steps, and whose next request is theirs, makes its step as the table of
/// events says of a worker that has made them.
pub fn steps_are_those_of_the_table()
    ensures { (log : List Entry) (now : ℕ) (pending : Option Fault) (sync : Sync)
        (steps : List (Request × Answer)) → HasMadeSteps sync steps
        → step_gives log now steps pending (Some sync.flight.basis)
        ≡ step_done (stepped now pending log sync) }
{}

/// The play of no commands is empty.
pub fn nothing_is_played()
    ensures { (script : Script) (shape : Shape) → script.commands ≡ []
        → whole_play script shape ≡ nothing }
{}
