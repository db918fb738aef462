//! The store, what can be read of it, and how entries are appended.
ghost use Rattle.std.specs.Prelude.{◌≡◌, ◌<◌, ◌≤◌, ◌+◌, ◌-◌, ◌^◌, ◌∷◌, ◌++◌, [], reverse, length, map, option_copied, find, nat_le, ◌&&◌, false, true, IfOk, IsSome, OnOk, OnErr, None, Some};
ghost use Rattle.jc_types.specs.declared.numbers.Uid.{Uid};
ghost use Rattle.jc_types.specs.declared.objects.Entry.TheVariants.{JobGone, JobPut, PodGone, PodPut};
ghost use Rattle.jc_log.specs.Requests.{changed_container, new_containers, pod_entry};
ghost use Rattle.jc_types.specs.Keys.{same_key, same_uid};
ghost use Rattle.jc_log.specs.Log.{RowsRise, births, entry_at, job_in, jobs_in, life, made_for, next_uid, next_version, pod_in, pods_in, pods_of};
ghost use Rattle.jc_states.specs.PodLists.{put_pod};
ghost use Rattle.jc_states.specs.Pods.{goes, is_open};
ghost use Rattle.jc_log.specs.Tables.{Sets, at, puts};
ghost use Rattle.jc_log.specs.Writes.{CanEnd, CanGo, IsNewJob, IsNewPod, StepsFrom, Stored};
ghost use Rattle.jc_store.specs.Kept.{count_of};

use super::containers::{NewContainers, ReportedContainers};
use super::pod_table::owned;
use indexmap::IndexMap;
use jc_states::goes;
use jc_table::{PodTable, StoredPods, Table};
use jc_types::{
    Arc, ContainerChanges, Containers, Copied, Entries, Entry, Job, Key, ListOf, Pod, Template,
    Uid, Version, Want,
};
use std::alloc::{AllocError, Global};
use std::marker::Model;

/// The store. Contracts see it as its log, newest first.
#[derive(Drop)]
pub struct Store {
    // Where the memory of new objects comes from.
    alloc: Global,
    // Oldest first.
    log: Entries,
    // How many Jobs and pods were made.
    born: u32,
    // The Jobs that are there.
    jobs: Table<Key, Arc<Job>>,
    // The pods that are there.
    pods: StoredPods,
    // How many pods were made for each owner that had one.
    made: IndexMap<Uid, u32>,
    // The containers of the pod that was made last.
    fresh: NewContainers,
    // The containers of the pod that was last reported of.
    reported: ReportedContainers,
}

impl Model for Store {
    ghost use Rattle.std.specs.Prelude.{List, reverse};
    ghost use Rattle.jc_types.specs.declared.objects.Entry.{Entry};
    ghost use Rattle.jc_store.specs.Kept.{IsKept};

    ghost Value = { List Entry };

    ghost view = { λ s. reverse s.log };

    ghost invariant = { λ s. IsKept s.born s.jobs s.pods s.made.entries (reverse s.log) };
}

// Makes a row for the owner's count, without a change of any count. An owner that was counted has one.
fn reserve_count(made: &mut IndexMap<Uid, u32>, owner: Uid, count: u32) -> Result<(), Want>
    requires { count ≡ count_of made.old.entries owner }
    ensures counts { (other : Uid)
        → count_of made.new.entries other ≡ count_of made.old.entries other }
    ensures row { OnOk result (IsSome (at same_uid made.new.entries owner)) }
{
    if count > 0 {
        return Ok(());
    }
    made.insert(owner, count)?;
    Ok(())
}

// Writes the count of an owner that has a row.
fn put_count(made: &mut IndexMap<Uid, u32>, owner: Uid, count: u32)
    requires { IsSome (at same_uid made.old.entries owner) }
    ensures { Sets same_uid made.old.entries made.new.entries owner (Some count) }
{
    let Some(place) = made.get_mut(&owner) else {
        unreachable!()
    };
    *place = count;
}

// Writes the row of a new key, and its entry. Row and entry may be of any type, so that the proof needs not
// follow what is dropped where memory is wanted.
fn add_row<R: Drop, E: Copied + Drop>(
    rows: &mut Table<Key, R>,
    log: &mut ListOf<E>,
    key: &Key,
    row: R,
    entry: E,
) -> Result<(), Want>
    requires { at same_key rows.old key.now ≡ None }
    ensures row { OnOk result (rows.new ≡ puts same_key rows.old key.now row) }
    ensures entry { OnOk result (log.new ≡ log.old ++ entry ∷ []) }
    ensures row_kept { OnErr result (rows.new ≡ rows.old) }
    ensures entry_kept { OnErr result (log.new ≡ log.old) }
{
    rows.put(key.copy()?, row)?;
    match log.push(entry) {
        Ok(()) => Ok(()),
        Err(want) => {
            rows.take(key);
            Err(want)
        }
    }
}

// Writes the row of a key that is there, and its entry.
fn put_row<R: Drop, E: Copied + Drop>(
    rows: &mut Table<Key, R>,
    log: &mut ListOf<E>,
    key: &Key,
    row: R,
    entry: E,
) -> Result<(), Want>
    requires { IsSome (at same_key rows.old key.now) }
    ensures row { OnOk result (rows.new ≡ puts same_key rows.old key.now row) }
    ensures entry { OnOk result (log.new ≡ log.old ++ entry ∷ []) }
    ensures row_kept { OnErr result (rows.new ≡ rows.old) }
    ensures entry_kept { OnErr result (log.new ≡ log.old) }
{
    log.push(entry)?;
    rows.replace(key, row);
    Ok(())
}

// Writes a new pod, which is open, and its entry, which may be of any type too.
fn add_pod<E: Copied + Drop>(
    pods: &mut StoredPods,
    log: &mut ListOf<E>,
    pod: Arc<Pod>,
    entry: E,
) -> Result<(), Want>
    requires absent { find (λ p. same_uid p.uid pod.uid) pods.old ≡ None }
    requires begins_open { is_open pod ≡ true }
    ensures row { OnOk result (pods.new ≡ put_pod pod pods.old) }
    ensures entry { OnOk result (log.new ≡ log.old ++ entry ∷ []) }
    ensures row_kept { OnErr result (pods.new ≡ pods.old) }
    ensures entry_kept { OnErr result (log.new ≡ log.old) }
{
    let uid = pod.uid;
    pods.add(pod)?;
    match log.push(entry) {
        Ok(()) => Ok(()),
        Err(want) => {
            pods.take(uid);
            Err(want)
        }
    }
}

impl Store {
    /// The store with an empty log. It takes no memory.
    pub fn new(alloc: Global) -> Store
        ensures { result ≡ [] }
    {
        Store {
            alloc,
            log: Entries::new(alloc),
            born: 0,
            jobs: Table::new(alloc),
            pods: StoredPods::new(alloc),
            made: IndexMap::new(alloc),
            fresh: NewContainers::new(alloc),
            reported: ReportedContainers::new(alloc),
        }
    }

    /// The version of the last write: how many entries the log has.
    pub fn log_len(&self) -> Version
        ensures { result.0 ≡ length self.now }
    {
        Version(self.entries())
    }

    /// The log, oldest first. Each of its entries is a write of the store.
    pub fn log(&self) -> &Entries
        ensures entries { reverse result.now ≡ self.now }
        ensures stored { Stored self.now }
        ensures few_entries { length self.now < 2 ^ 32 - 1 }
    {
        &self.log
    }

    /// The entry of a version. There is none at 0 or past the log.
    pub fn entry(&self, version: Version) -> Option<&Entry>
        ensures { option_copied result ≡ entry_at version.0 self.now }
    {
        if version.0 == 0 {
            return None;
        }
        self.log.as_slice().get((version.0 - 1) as usize)
    }

    /// The Job of a key, as its last write left it.
    pub fn job(&self, key: &Key) -> Option<&Arc<Job>>
        ensures { option_copied result ≡ job_in key.now self.now }
    {
        self.jobs.get(key)
    }

    /// The pod of a UID, as its last write left it.
    pub fn pod(&self, pod: Uid) -> Option<&Arc<Pod>>
        ensures { option_copied result ≡ pod_in pod self.now }
    {
        self.pods.all().get(pod)
    }

    /// The open pod with the least UID from this one on. There is none where each that is there is
    /// below it or has ended.
    pub fn open_pod_from(&self, uid: Uid) -> Option<&Arc<Pod>>
        ensures { option_copied result
            ≡ find (λ pod. nat_le uid.0 pod.uid.0 && is_open pod) (pods_in self.now) }
    {
        self.pods.open_from(uid)
    }

    /// The Jobs that are there, by key, in ascending UID.
    pub fn jobs(&self) -> &Table<Key, Arc<Job>>
        ensures rows { result.now ≡ jobs_in self.now }
        ensures rising { RowsRise 0 result.now }
    {
        &self.jobs
    }

    /// The pods that are there, in ascending UID, fewer than 2 ^ 32.
    pub fn pods(&self) -> &PodTable
        ensures pods { result.now ≡ pods_in self.now }
        ensures few_pods { length (pods_in self.now) < 2 ^ 32 }
    {
        self.pods.all()
    }

    /// The pods of an owner that are there, in ascending UID.
    ///
    /// # Errors
    /// `Want` where there is no memory.
    pub fn pods_of(&self, owner: Uid) -> Result<Vec<Arc<Pod>>, Want>
        ensures { IfOk result (λ pods. pods.items ≡ pods_of owner self.now) }
    {
        owned(self.alloc, self.pods.all(), owner)
    }

    // The containers of a new pod of the template.
    pub(super) fn containers_of(&mut self, template: &Template) -> Result<Containers, Want>
        ensures kept { self.new ≡ self.old }
        ensures containers { IfOk result (λ r. r ≡ new_containers template.now) }
    {
        self.fresh.of(self.alloc, template)
    }

    // The containers as a report says. Most reports name none, and the pod's are then shared.
    pub(super) fn containers_after(
        &mut self,
        containers: &Containers,
        changes: &ContainerChanges,
    ) -> Result<Containers, Want>
        ensures kept { self.new ≡ self.old }
        ensures containers { IfOk result
            (λ r. r ≡ map (changed_container changes.now) containers.now) }
    {
        if changes.is_empty() {
            return containers.copy();
        }
        self.reported.of(self.alloc, containers, changes)
    }

    // Where the memory of new objects comes from.
    pub(super) fn allocator(&self) -> Global {
        self.alloc
    }

    // The version of the next write; `Want` where 32 bits would not count one more.
    pub(super) fn next_version(&self) -> Result<Version, Want>
        ensures next { IfOk result (λ version. version ≡ next_version self.now) }
        ensures room { OnOk result (length self.now < 2 ^ 32 - 2) }
        ensures full { OnErr result (2 ^ 32 - 2 ≤ length self.now) }
    {
        let count = self.entries();
        if count >= u32::MAX - 1 {
            return Err(AllocError);
        }
        Ok(Version(count + 1))
    }

    // The UID of the next Job or pod.
    pub(super) fn next_uid(&self) -> Uid
        ensures { result ≡ next_uid self.now }
    {
        Uid(self.births() + 1)
    }

    // How many pods were made for an owner.
    pub(super) fn made_for(&self, owner: Uid) -> u32
        ensures { result ≡ made_for owner self.now }
    {
        self.made.get(&owner).copied().unwrap_or(0)
    }

    // Makes a Job, where its key has none.
    pub(super) fn make_job(&mut self, job: Job) -> Result<(), Want>
        requires room { length self.old < 2 ^ 32 - 2 }
        requires version { job.version ≡ next_version self.old }
        requires new_job { IsNewJob self.old job }
        requires absent { job_in job.key self.old ≡ None }
        ensures added { OnOk result (self.new ≡ JobPut job ∷ self.old) }
        ensures kept { OnErr result (self.new ≡ self.old) }
    {
        let born = self.births() + 1;
        let job = Arc::new(self.alloc, job)?;
        let entry = Entry::JobPut(job.copy()?);
        let made = job.copy()?;
        add_row(&mut self.jobs, &mut self.log, &made.key, job, entry)?;
        self.born = born;
        Ok(())
    }

    // Writes a Job that is there.
    pub(super) fn put_job(&mut self, job: Arc<Job>) -> Result<(), Want>
        requires room { length self.old < 2 ^ 32 - 2 }
        requires version { job.version ≡ next_version self.old }
        requires step { StepsFrom (job_in job.key self.old) job }
        ensures added { OnOk result (self.new ≡ JobPut job ∷ self.old) }
        ensures kept { OnErr result (self.new ≡ self.old) }
    {
        let entry = Entry::JobPut(job.copy()?);
        let written = job.copy()?;
        put_row(&mut self.jobs, &mut self.log, &written.key, job, entry)?;
        Ok(())
    }

    // Takes a Job away. Its last state is as it was, but for the version.
    pub(super) fn end_job(&mut self, job: Job) -> Result<(), Want>
        requires room { length self.old < 2 ^ 32 - 2 }
        requires version { job.version ≡ next_version self.old }
        requires end { CanEnd (job_in job.key self.old) job }
        ensures added { OnOk result (self.new ≡ JobGone job ∷ self.old) }
        ensures kept { OnErr result (self.new ≡ self.old) }
    {
        let gone = Arc::new(self.alloc, job)?;
        let entry = Entry::JobGone(gone.copy()?);
        self.log.push(entry)?;
        self.jobs.take(&gone.key);
        Ok(())
    }

    // Makes a pod.
    pub(super) fn make_pod(&mut self, pod: Pod) -> Result<(), Want>
        requires room { length self.old < 2 ^ 32 - 2 }
        requires version { pod.version ≡ next_version self.old }
        requires new_pod { IsNewPod self.old pod }
        ensures added { OnOk result (self.new ≡ PodPut pod ∷ self.old) }
        ensures kept { OnErr result (self.new ≡ self.old) }
    {
        let born = self.births() + 1;
        let owner = pod.owner_uid;
        let count = self.made_for(owner);
        let more = count + 1;
        reserve_count(&mut self.made, owner, count)?;
        let pod = Arc::new(self.alloc, pod)?;
        let entry = Entry::PodPut(pod.copy()?);
        add_pod(&mut self.pods, &mut self.log, pod, entry)?;
        put_count(&mut self.made, owner, more);
        self.born = born;
        Ok(())
    }

    // Writes a pod that is there. Where it is then marked, has ended and has no finalizer, it goes.
    pub(super) fn put_pod(&mut self, pod: Arc<Pod>) -> Result<(), Want>
        requires room { length self.old < 2 ^ 32 - 2 }
        requires version { pod.version ≡ next_version self.old }
        requires step { CanGo (life pod.uid self.old) pod }
        ensures added { OnOk result (self.new ≡ pod_entry pod ∷ self.old) }
        ensures kept { OnErr result (self.new ≡ self.old) }
    {
        if goes(&pod) {
            self.end_pod(pod)
        } else {
            self.write_pod(pod)
        }
    }

    // Writes a pod that is there and stays.
    fn write_pod(&mut self, pod: Arc<Pod>) -> Result<(), Want>
        requires room { length self.old < 2 ^ 32 - 2 }
        requires version { pod.version ≡ next_version self.old }
        requires step { CanGo (life pod.uid self.old) pod }
        requires stays { goes pod ≡ false }
        ensures added { OnOk result (self.new ≡ PodPut pod ∷ self.old) }
        ensures kept { OnErr result (self.new ≡ self.old) }
    {
        let entry = Entry::PodPut(pod.copy()?);
        self.log.push(entry)?;
        self.pods.replace(pod);
        Ok(())
    }

    // Takes a pod away.
    fn end_pod(&mut self, pod: Arc<Pod>) -> Result<(), Want>
        requires room { length self.old < 2 ^ 32 - 2 }
        requires version { pod.version ≡ next_version self.old }
        requires step { CanGo (life pod.uid self.old) pod }
        requires goes { goes pod ≡ true }
        ensures added { OnOk result (self.new ≡ PodGone pod ∷ self.old) }
        ensures kept { OnErr result (self.new ≡ self.old) }
    {
        let uid = pod.uid;
        self.log.push(Entry::PodGone(pod))?;
        self.pods.take(uid);
        Ok(())
    }

    // How many Jobs and pods were made. Each has an entry.
    fn births(&self) -> u32
        ensures value { result ≡ births self.now }
        ensures small { result + 1 < 2 ^ 32 }
    {
        self.born
    }

    // How many entries the log has.
    fn entries(&self) -> u32
        ensures { result ≡ length self.now }
    {
        self.log.as_slice().len() as u32
    }
}
