//! Laws on what is still to come where no pod is written. Each function is empty: what it ensures holds of every log, all
//! notes and every plan, and its callers may cite it.

ghost use Rattle.std.specs.Prelude.{◌≡◌, ◌<◌, ◌≤◌, ◌∷◌, List, [], None, Some, false, true, ℕ};
ghost use Rattle.jc_types.specs.declared.objects.Entry.{Entry};
ghost use Rattle.jc_types.specs.declared.objects.Entry.TheVariants.{JobPut};
ghost use Rattle.jc_types.specs.declared.objects.Job.{Job};
ghost use Rattle.jc_types.specs.declared.objects.KeyNames.{KeyNames as Key};
ghost use Rattle.jc_types.specs.declared.statuses.JobStatus.{JobStatus};
ghost use Rattle.jc_states.specs.declared.bases.Basis.{Basis};
ghost use Rattle.jc_states.specs.Bases.{own_pods};
ghost use Rattle.jc_log.specs.Log.{job_in};
ghost use Rattle.jc_log.specs.Range.{end_of_moments};
ghost use Rattle.jc_log.specs.Requests.{with_status};
ghost use Rattle.jc_control.specs.Schedules.{log_end};
ghost use Rattle.jc_plan.specs.Plans.{planned};
ghost use Rattle.jc_history.specs.Delays.{least_delay};
ghost use Rattle.jc_history.specs.Fresh.{basis};
ghost use Rattle.jc_history.specs.Lines.{line};
ghost use Rattle.jc_history.specs.Notes.{Note, Ticked};
ghost use Rattle.jc_coming.specs.Drafts.{AsksForNoPod, WritesOnly, is_draft, next_quiet, showing, statuses_to_come};
ghost use Rattle.jc_coming.specs.Moments.{
  ShowsAll,
  TicksIdly,
  empty_sync,
  is_moment_to_come,
  keys_to_come,
  moments_to_come,
};

/// What a sync starts from, where both caches have seen the whole log, shows all that the log and the notes say of its
/// key.
pub fn bases_of_the_whole_log_show_all()
    ensures { (notes : List Note) (log : List Entry) (now : ℕ) (key : Key)
        → ShowsAll notes log (basis notes log now key (log_end log) (log_end log)) }
{}

/// **A written status is no draft any more.** Where a plan makes, marks, lets go and releases no pod its first status
/// is the next one of its Job; with it written fewer statuses are to come, and nothing is left to write: no second
/// status, and no other first one.
pub fn a_written_status_is_no_draft()
    ensures fewer { (log : List Entry) (job : Job) (basis : Basis) (status : JobStatus)
        → WritesOnly log basis job status → job_in basis.key log ≡ Some job
        → statuses_to_come basis.now (JobPut (with_status log job status) ∷ log)
        < statuses_to_come basis.now log }
    ensures next { (log : List Entry) (job : Job) (basis : Basis) (status : JobStatus)
        → WritesOnly log basis job status
        → next_quiet basis.now (with_status log job status) (own_pods job basis.pods) ≡ status }
    ensures once { (basis : Basis) → AsksForNoPod (planned basis) → (planned basis).second ≡ None }
{}

/// Where a plan writes no status, the moment that it names is one to come: the Job's deadline, or that before which
/// the controller holds its pods back.
pub fn unwritten_plans_name_moments_to_come()
    ensures { (notes : List Note) (log : List Entry) (basis : Basis) (m : ℕ)
        → ShowsAll notes log basis → (planned basis).first ≡ None
        → (planned basis).next ≡ Some m
        → is_moment_to_come basis.now log notes basis.key m ≡ true }
{}

/// **The clock brings nothing new.** With it no more statuses are to come, up to the last moment, since a status
/// becomes a draft only where a deadline has passed that was ahead, and no more moments. Where no key is in line and no
/// moment has passed, no more keys are to come, and fewer where a delay was due.
pub fn the_clock_brings_nothing_new()
    ensures statuses { (now later : ℕ) (log : List Entry) → now ≤ later → later < end_of_moments
        → statuses_to_come later log ≤ statuses_to_come now log }
    ensures moments { (now later : ℕ) (log : List Entry) (notes : List Note) → now ≤ later
        → moments_to_come later log (Ticked later ∷ notes) ≤ moments_to_come now log notes }
    ensures keys { (now later : ℕ) (log : List Entry) (notes : List Note)
        → TicksIdly now later log notes
        → keys_to_come later log (Ticked later ∷ notes) ≤ keys_to_come now log notes }
    ensures due { (now later : ℕ) (log : List Entry) (notes : List Note) (due : ℕ)
        → TicksIdly now later log notes → least_delay notes ≡ Some due → due ≤ later
        → keys_to_come later log (Ticked later ∷ notes) < keys_to_come now log notes }
{}

/// **An empty sync takes a key.** A sync of the first key in line that saw the whole log and writes no status leaves
/// the moments to come as they were, and fewer keys: its key leaves the line, and is delayed to a moment to come if at
/// all.
pub fn empty_syncs_take_a_key()
    ensures moments { (now w ended : ℕ) (log : List Entry) (notes : List Note) (basis : Basis)
        → moments_to_come now log (empty_sync w basis ended notes) ≡ moments_to_come now log notes }
    ensures keys { (w ended : ℕ) (log : List Entry) (notes : List Note) (basis : Basis)
        (rest : List Key) → line notes ≡ basis.key ∷ rest → ShowsAll notes log basis
        → (planned basis).first ≡ None
        → keys_to_come basis.now log (empty_sync w basis ended notes)
        < keys_to_come basis.now log notes }
{}

/// **Wrong statuses are drafts**, worked out. A machine that writes another status at each sync leaves a draft each time:
/// here the number of active pods of a Job that has none, 1 and then 2, where 0 is no draft. And a moment that has passed
/// is none to come, so a clock that rings for it brings nothing nearer.
pub fn wrong_statuses_are_drafts()
    ensures right { (job : Job) → is_draft 0 (showing 0 job) [] ≡ false }
    ensures first { (job : Job) → is_draft 0 (showing 1 job) [] ≡ true }
    ensures second { (job : Job) → is_draft 0 (showing 2 job) [] ≡ true }
    ensures passed { (now m : ℕ) (log : List Entry) (notes : List Note) (key : Key) → m ≤ now
        → is_moment_to_come now log notes key m ≡ false }
{}
