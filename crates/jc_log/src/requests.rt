//! Laws on what the store answers to requests, and on how objects change and how many they are in a
//! log of its writes. Each function is empty: what it ensures holds of every log, and its callers
//! may cite it.

ghost use Rattle.std.specs.Prelude.{◌≡◌, ◌≤◌, List, Option, ℕ, Some, length, true};
ghost use Rattle.jc_types.specs.declared.actions.PhaseChange.{PhaseChange};
ghost use Rattle.jc_types.specs.declared.actions.SpecChange.{SpecChange};
ghost use Rattle.jc_types.specs.declared.numbers.Uid.{Uid};
ghost use Rattle.jc_types.specs.declared.numbers.Version.{Version};
ghost use Rattle.jc_types.specs.declared.objects.Entry.{Entry};
ghost use Rattle.jc_types.specs.declared.objects.Job.{Job};
ghost use Rattle.jc_types.specs.declared.objects.KeyNames.{KeyNames as Key};
ghost use Rattle.jc_types.specs.declared.objects.Pod.{Pod};
ghost use Rattle.jc_types.specs.declared.specifications.JobSpec.{JobSpec};
ghost use Rattle.jc_types.specs.declared.statuses.JobStatus.{JobStatus};
ghost use Rattle.jc_log.specs.Log.{Live, births, has_job, job_in, life, made_for, pods_in, upto};
ghost use Rattle.jc_log.specs.StoredAnswers.{StaysLegal, StaysStored};
ghost use Rattle.jc_log.specs.Requests.{create_job_gives, create_pod_gives, delete_job_gives, let_go_gives, mark_pod_gives, release_gives, report_phase_gives, update_spec_gives, write_status_gives};
ghost use Rattle.jc_log.specs.Writes.{Legal, Stored};
ghost use Rattle.jc_states.specs.ObjectChanges.{JobStep, PodStep};

/// What a request appends may follow the log: a log of writes of the store stays one.
pub fn requests_are_writes()
    ensures create_job { (log : List Entry) → Stored log → (key : Key) (spec : JobSpec) (now : ℕ)
        → StaysStored log (create_job_gives log key spec now) }
    ensures update_spec { (log : List Entry) → Stored log
        → (key : Key) (version : Option Version) (change : SpecChange)
        → StaysStored log (update_spec_gives log key version change) }
    ensures write_status { (log : List Entry) → Stored log
        → (key : Key) (uid : Uid) (version : Version) (status : JobStatus)
        → StaysStored log (write_status_gives log key uid version status) }
    ensures delete_job { (log : List Entry) → Stored log → (key : Key)
        → StaysStored log (delete_job_gives log key) }
    ensures create_pod { (log : List Entry) → Stored log
        → (owner : Job) (index : Option ℕ) (now : ℕ)
        → StaysStored log (create_pod_gives log owner index now) }
    ensures mark_pod { (log : List Entry) → Stored log → (pod : Uid) (now : ℕ)
        → StaysStored log (mark_pod_gives log pod now) }
    ensures release { (log : List Entry) → Stored log → (pod : Uid)
        → StaysStored log (release_gives log pod) }
    ensures let_go { (log : List Entry) → Stored log → (pod : Uid) (version : Version)
        → StaysStored log (let_go_gives log pod version) }
    ensures report_phase { (log : List Entry) → Stored log → (pod : Uid) (change : PhaseChange)
        → StaysStored log (report_phase_gives log pod change) }
{}

/// A legal log stays one with what a request appends: each entry is a write of the store, and the pod
/// that a creation makes has its Job where that Job was put under its key.
pub fn requests_keep_logs_legal()
    ensures create_job { (log : List Entry) → Legal log → (key : Key) (spec : JobSpec) (now : ℕ)
        → StaysLegal log (create_job_gives log key spec now) }
    ensures update_spec { (log : List Entry) → Legal log
        → (key : Key) (version : Option Version) (change : SpecChange)
        → StaysLegal log (update_spec_gives log key version change) }
    ensures write_status { (log : List Entry) → Legal log
        → (key : Key) (uid : Uid) (version : Version) (status : JobStatus)
        → StaysLegal log (write_status_gives log key uid version status) }
    ensures delete_job { (log : List Entry) → Legal log → (key : Key)
        → StaysLegal log (delete_job_gives log key) }
    ensures create_pod { (log : List Entry) → Legal log
        → (owner : Job) (index : Option ℕ) (now : ℕ) → has_job owner.uid owner.key log ≡ true
        → StaysLegal log (create_pod_gives log owner index now) }
    ensures mark_pod { (log : List Entry) → Legal log → (pod : Uid) (now : ℕ)
        → StaysLegal log (mark_pod_gives log pod now) }
    ensures release { (log : List Entry) → Legal log → (pod : Uid)
        → StaysLegal log (release_gives log pod) }
    ensures let_go { (log : List Entry) → Legal log → (pod : Uid) (version : Version)
        → StaysLegal log (let_go_gives log pod version) }
    ensures report_phase { (log : List Entry) → Legal log → (pod : Uid) (change : PhaseChange)
        → StaysLegal log (report_phase_gives log pod change) }
{}

/// A log makes at most one object with each entry, an owner has at most as many pods as were made,
/// and at most as many pods are there.
pub fn births_are_bounded()
    ensures births { (log : List Entry) → births log ≤ length log }
    ensures made { (owner : Uid) (log : List Entry) → made_for owner log ≤ births log }
    ensures pods { (log : List Entry) → Stored log → length (pods_in log) ≤ births log }
{}

/// A Job that is read was put under its key; and what is read of an object at a later version is a
/// step from what was read of it at an earlier one.
pub fn objects_change_by_steps()
    ensures put { (k : Key) (log : List Entry) (job : Job)
        → job_in k log ≡ Some job → has_job job.uid k log ≡ true }
    ensures job { (k : Key) (m n : ℕ) (log : List Entry) → Stored log → m ≤ n → (old new : Job)
        → job_in k (upto m log) ≡ Some old → job_in k (upto n log) ≡ Some new
        → new.uid ≡ old.uid → JobStep old new }
    ensures pod { (u : Uid) (m n : ℕ) (log : List Entry) → Stored log → m ≤ n → (old new : Pod)
        → life u (upto m log) ≡ Live old → life u (upto n log) ≡ Live new → PodStep old new }
{}
