//! Laws on logs and histories. Each function is empty: what it ensures holds of every log, and its
//! callers may cite it.

ghost use Rattle.std.specs.Prelude.{◌≡◌, ◌+◌, ◌≤◌, ◌++◌, ◌∷◌, [], IfSome, List, ℕ, false, find, length, reverse, slice_get, suc, take, true};
ghost use Rattle.jc_ranges.specs.Sets.{has};
ghost use Rattle.jc_types.specs.declared.actions.Script.{Script};
ghost use Rattle.jc_types.specs.declared.numbers.Uid.{Uid};
ghost use Rattle.jc_types.specs.declared.objects.Entry.{Entry};
ghost use Rattle.jc_types.specs.declared.objects.Entry.TheVariants.{JobPut, PodPut};
ghost use Rattle.jc_types.specs.declared.objects.Job.{Job};
ghost use Rattle.jc_types.specs.declared.objects.Pod.{Pod};
ghost use Rattle.jc_types.specs.declared.runs.History.{History};
ghost use Rattle.jc_types.specs.declared.runs.Past.{Past};
ghost use Rattle.jc_log.specs.Deeds.{deed, deeds};
ghost use Rattle.jc_types.specs.declared.objects.KeyNames.{KeyNames as Key};
ghost use Rattle.jc_types.specs.Keys.{same_key, same_uid};
ghost use Rattle.jc_log.specs.Log.{Gone, Live, Never, RowsRise, entry_at, has_job, is_born, is_job_of, is_lost, job_in, jobs_in, life, next_uid, pod_in, pods_in, upto};
ghost use Rattle.jc_states.specs.PodLists.{IsRising, put_pod};
ghost use Rattle.jc_log.specs.PlainReadings.{job_at, pod_at};
ghost use Rattle.jc_log.specs.Tables.{at};
ghost use Rattle.jc_log.specs.Writes.{Legal, Stored, version_of};

/// A log newest first says of an object what the last entry about it says in the log oldest first,
/// also among the first n entries; the entry of version i + 1 is the i-th, counted from 0.
pub fn logs_read_plainly()
    ensures appended { (es : List Entry) (e : Entry) → reverse (es ++ e ∷ []) ≡ e ∷ reverse es }
    ensures job { (n : ℕ) (k : Key) (es : List Entry)
        → job_in k (upto n (reverse es)) ≡ job_at n k es }
    ensures pod { (n : ℕ) (u : Uid) (es : List Entry)
        → pod_in u (upto n (reverse es)) ≡ pod_at n u es }
    ensures entry { (i : ℕ) (es : List Entry) → entry_at (suc i) (reverse es) ≡ slice_get es i }
    ensures table { (k : Key) (log : List Entry) → at same_key (jobs_in log) k ≡ job_in k log }
{}

/// What stands in a log at a version is fixed: later entries change neither the entry of that
/// version nor what the first entries say.
pub fn prefix_is_fixed()
    ensures prefix { (n : ℕ) (e : Entry) (older : List Entry)
        → n ≤ length older → upto n (e ∷ older) ≡ upto n older }
    ensures entry { (v : ℕ) (e : Entry) (older : List Entry)
        → v ≤ length older → entry_at v (e ∷ older) ≡ entry_at v older }
    ensures newest { (e : Entry) (older : List Entry)
        → entry_at (length (e ∷ older)) (e ∷ older) ≡ Some e }
{}

/// In a log of writes of the store an object's version is the place of its entry, and a pod that
/// has lost its finalizer, or is gone, stays so at every later version.
pub fn writes_last()
    ensures version { (v : ℕ) (log : List Entry) (e : Entry)
        → Stored log → entry_at v log ≡ Some e → version_of e ≡ v }
    ensures lost { (u : Uid) (m n : ℕ) (log : List Entry)
        → Stored log → m ≤ n
        → is_lost (life u (upto m log)) ≡ true → is_lost (life u (upto n log)) ≡ true }
    ensures stored { (log : List Entry) → Legal log → Stored log }
{}

/// The list of pods of a log is ascending, and has of each UID the pod of that UID.
pub fn pods_are_listed()
    ensures rising { (log : List Entry) → IsRising (pods_in log) }
    ensures found { (u : Uid) (log : List Entry)
        → find (λ pod. same_uid pod.uid u) (pods_in log) ≡ pod_in u log }
{}

/// One more event of a history is one more deed in front of the older ones, and the deeds of the
/// first events are the first deeds.
pub fn deeds_grow()
    ensures more { (script : Script) (old new : History) (past : Past)
        → new.events.items ≡ old.events.items ++ past ∷ []
        → deeds script new ≡ deed script past ∷ deeds script old }
    ensures prefix { (script : Script) (whole front : History) (n : ℕ)
        → front.events.items ≡ take n whole.events.items
        → upto n (deeds script whole) ≡ deeds script front }
    ensures count { (script : Script) (history : History)
        → length (deeds script history) ≡ length history.events.items }
{}

/// In a log of writes of the store the UID of a creation is none that a Job or a pod had; a Job
/// that is there was there at each version since it was put; and in a legal log a pod's Job was put
/// before it.
pub fn uids_never_return()
    ensures job { (j : Uid) (log : List Entry)
        → Stored log → j ≡ next_uid log → is_born j log ≡ false }
    ensures pod { (u : Uid) (log : List Entry)
        → Stored log → u ≡ next_uid log → life u log ≡ Never }
    ensures interval { (j : Uid) (k : Key) (m n : ℕ) (log : List Entry)
        → Stored log → m ≤ n
        → is_born j (upto m log) ≡ true → is_job_of j (job_in k (upto n log)) ≡ true
        → is_job_of j (job_in k (upto m log)) ≡ true }
    ensures owner { (u : Uid) (log : List Entry)
        → Legal log
        → IfSome (pod_in u log) (λ pod. has_job pod.owner_uid pod.owner log ≡ true) }
{}

/// An object that is there is the one in the entry of its version, and stood so at that version; a
/// pod that is gone stays gone.
pub fn objects_stand_at_their_versions()
    ensures job { (k : Key) (log : List Entry) (job : Job)
        → Stored log → job_in k log ≡ Some job
        → entry_at job.version.0 log ≡ Some (JobPut job) }
    ensures job_stood { (k : Key) (log : List Entry) (job : Job)
        → Stored log → job_in k log ≡ Some job
        → job_in k (upto job.version.0 log) ≡ Some job }
    ensures pod { (u : Uid) (log : List Entry) (pod : Pod)
        → Stored log → life u log ≡ Live pod
        → entry_at pod.version.0 log ≡ Some (PodPut pod) }
    ensures pod_stood { (u : Uid) (log : List Entry) (pod : Pod)
        → Stored log → life u log ≡ Live pod
        → life u (upto pod.version.0 log) ≡ Live pod }
    ensures gone { (u : Uid) (m n : ℕ) (log : List Entry)
        → Stored log → m ≤ n
        → life u (upto m log) ≡ Gone → life u (upto n log) ≡ Gone }
{}

/// The table of Jobs of a log of writes of the store is in ascending UID, and a new pod comes last in
/// the list of pods.
pub fn what_is_new_comes_last()
    ensures jobs { (log : List Entry) → Stored log → RowsRise 0 (jobs_in log) }
    ensures pod { (log : List Entry) (pod : Pod)
        → Stored log → pod.uid ≡ next_uid log
        → put_pod pod (pods_in log) ≡ pods_in log ++ pod ∷ [] }
{}
