//! Laws on caches and logs. Each function is empty: what it ensures holds of every log, and its callers
//! may cite it.

ghost use Rattle.std.specs.Prelude.{◌≡◌, ◌∷◌, List, map};
ghost use Rattle.jc_types.specs.declared.objects.Entry.{Entry};
ghost use Rattle.jc_types.specs.declared.objects.KeyNames.{KeyNames as Key};
ghost use Rattle.jc_log.specs.Log.{jobs_in, pods_under};
ghost use Rattle.jc_log.specs.Writes.{Stored};
ghost use Rattle.jc_cache.specs.Caches.{AreApart, owned_after, job_rows};

/// No write of the store gives a pod another owner. So one more entry leaves among a log's pods, under
/// each owner key, what a delivery of it leaves among a cache's.
pub fn pods_stay_with_their_owner()
    ensures { (k : Key) (e : Entry) (older : List Entry) → Stored (e ∷ older) →
        pods_under k (e ∷ older) ≡ owned_after k e (pods_under k older) }
{}

/// The Jobs that a log has may fill a cache, and fill it with the log's table.
pub fn listed_jobs_fill_the_table()
    ensures apart { (log : List Entry) → AreApart (map (λ row. row.1) (jobs_in log)) }
    ensures filled { (log : List Entry) →
        job_rows (map (λ row. row.1) (jobs_in log)) ≡ jobs_in log }
{}
