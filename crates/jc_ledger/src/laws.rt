//! Laws on what is counted once. Each function is empty: what it ensures holds of every history, and
//! its callers may cite it. A world is a history of deeds and its log, both newest first, with the syncs
//! under way.

ghost use Rattle.std.specs.Prelude.{◌≡◌, ◌≤◌, ℕ, List, length};
ghost use Rattle.std.specs.List.{AllByRecursion as Each, IsDistinct};
ghost use Rattle.jc_types.specs.declared.numbers.Uid.{Uid};
ghost use Rattle.jc_types.specs.declared.objects.Entry.{Entry};
ghost use Rattle.jc_types.specs.Keys.{same_uid};
ghost use Rattle.jc_log.specs.Deeds.{Deed};
ghost use Rattle.jc_log.specs.Log.{upto};
ghost use Rattle.jc_ledger.specs.Ledger.{judged_uids, ledger_of};
ghost use Rattle.jc_ledger.specs.Once.{Once, OnceAtEach};
ghost use Rattle.jc_ledger.specs.LawRuns.{IsRun, IsTied, Step, World, start};
ghost use Rattle.jc_ledger.specs.Tied.{PodsHaveIndexes, TotalsAreWithin};

/// At the start, where nothing has happened, all is tied.
pub fn the_start_is_tied()
    ensures { IsTied start }
{}

/// **Each event of a known kind keeps what ties**: where nothing is appended, where a Job or a pod is
/// written, where a sync begins, where it writes a status or takes a finalizer, and where syncs come to
/// their end.
pub fn steps_keep_what_ties()
    ensures { (w next : World) → Step w next → IsTied w → IsTied next }
{}

/// **Whatever is tied counts once (KEP-2307)**: each Job that is there counts each of its pods once, and
/// so it was after each of the deeds. Every world of a run is tied, and so counts once.
pub fn each_pod_is_counted_once()
    ensures tied { (w : World) → IsTied w → Once w.deeds w.log }
    ensures at_each { (w : World) → IsTied w → OnceAtEach w.deeds w.log }
    ensures run { (ws : List World) → IsRun ws → Each (λ (w : World). Once w.deeds w.log) ws }
{}

/// In every history a ledger has one record of a pod, and at most as many records as the log has
/// entries.
pub fn pods_are_judged_once()
    ensures distinct { (j : Uid) (deeds : List Deed) (log : List Entry)
        → IsDistinct same_uid (judged_uids (ledger_of j deeds log).records) }
    ensures few_records { (j : Uid) (deeds : List Deed) (log : List Entry)
        → length (ledger_of j deeds log).records ≤ length log }
{}

/// What a sync may be planned from holds at every version, since its caches may lag behind: each pod of
/// an Indexed Job has an index, and each total of a Job with its list is at most the number of the
/// entries, and so are the failures of each index.
pub fn each_version_can_be_planned()
    ensures indexes { (w : World) → IsTied w → (v : ℕ) → PodsHaveIndexes (upto v w.log) }
    ensures totals { (w : World) → IsTied w → TotalsAreWithin w.log }
{}
