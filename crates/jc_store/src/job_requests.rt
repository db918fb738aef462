//! The requests about Jobs.
ghost use Rattle.std.specs.Prelude.{◌≡◌, None, IfOk};
ghost use Rattle.jc_log.specs.Requests.{GivesOrKeeps, create_job_at, create_job_gives, delete_job_gives, update_spec_gives, write_status_gives};
ghost use Rattle.jc_log.specs.Log.{job_in};

use super::Store;
use super::new_objects::new_job;
use super::spec_changes::{changed_spec, is_other, same_limits, update_refusal};
use super::statuses::same_status;
use jc_moment::Moment;
use jc_types::{Arc, Copied, Job, JobSpec, JobStatus, Key, Reply, SpecChange, Uid, Version, Want};
use std::alloc::Global;

impl Store {
    /// Creates a Job with an empty status, and replies `Created`. Where a Job has the key, it
    /// replies `AlreadyExists`.
    ///
    /// # Errors
    /// `Want` where there is no memory, or a log of 2 ^ 32 - 2 entries; the log is then as before.
    pub fn create_job(&mut self, key: &Key, spec: Arc<JobSpec>, now: Moment) -> Result<Reply, Want>
        ensures { GivesOrKeeps self.old self.new
            (create_job_gives self.old key.now spec now) result }
    {
        match self.job(key) {
            Some(_) => Ok(Reply::AlreadyExists),
            None => self.create_new_job(key, spec, now),
        }
    }

    // Creates a Job, where no Job has the key.
    fn create_new_job(&mut self, key: &Key, spec: Arc<JobSpec>, now: Moment) -> Result<Reply, Want>
        requires { job_in key.now self.old ≡ None }
        ensures { GivesOrKeeps self.old self.new
            (create_job_at self.old key.now spec now None) result }
    {
        let uid = self.next_uid();
        let version = self.next_version()?;
        let job = new_job(self.allocator(), key, uid, version, spec, now)?;
        self.make_job(job)?;
        Ok(Reply::Created { uid, version })
    }

    /// Changes the members of a Job's specification that are given, and replies `Written`, or
    /// `Unchanged` where they are as before.
    ///
    /// It replies `NotFound` where no Job has the key, `Conflict` where a version is given that is
    /// not the Job's, and `Immutable` or `Invalid` where the change may not be made.
    ///
    /// # Errors
    /// `Want` where there is no memory, or a log of 2 ^ 32 - 2 entries; the log is then as before.
    pub fn update_spec(
        &mut self,
        key: &Key,
        version: Option<Version>,
        change: &SpecChange,
    ) -> Result<Reply, Want>
        ensures { GivesOrKeeps self.old self.new
            (update_spec_gives self.old key.now version change.now) result }
    {
        let Some(job) = self.job(key) else {
            return Ok(Reply::NotFound);
        };
        if is_other(version, job.version) {
            return Ok(Reply::Conflict {
                current: job.version,
            });
        }
        if let Some(reply) = update_refusal(&*job.spec, change) {
            return Ok(reply);
        }
        let spec = changed_spec(&*job.spec, change)?;
        if same_limits(&*job.spec, &spec) {
            return Ok(Reply::Unchanged {
                version: job.version,
            });
        }
        let version = self.next_version()?;
        let alloc = self.allocator();
        let changed = with_spec(alloc, job, version, Arc::new(alloc, spec)?)?;
        self.put_job(changed)?;
        Ok(Reply::Written { version })
    }

    /// Writes a Job's status, and replies `Written`, or `Unchanged` where the Job has that status
    /// already.
    ///
    /// It replies `NotFound` where no Job has the key and the UID, and `Conflict` where the Job has
    /// another version: the optimistic lock of Kubernetes' API.
    ///
    /// # Errors
    /// `Want` where there is no memory, or a log of 2 ^ 32 - 2 entries; the log is then as before.
    pub fn write_status(
        &mut self,
        key: &Key,
        uid: Uid,
        version: Version,
        status: &Arc<JobStatus>,
    ) -> Result<Reply, Want>
        ensures { GivesOrKeeps self.old self.new
            (write_status_gives self.old key.now uid version status.now) result }
    {
        let Some(job) = self.job(key) else {
            return Ok(Reply::NotFound);
        };
        if job.uid.0 != uid.0 {
            return Ok(Reply::NotFound);
        }
        if job.version.0 != version.0 {
            return Ok(Reply::Conflict {
                current: job.version,
            });
        }
        if same_status(&*job.status, &**status) {
            return Ok(Reply::Unchanged {
                version: job.version,
            });
        }
        let version = self.next_version()?;
        let changed = with_status(self.allocator(), job, version, status)?;
        self.put_job(changed)?;
        Ok(Reply::Written { version })
    }

    /// Deletes a Job, and replies `Removed`; its pods stay. Where no Job has the key, it replies
    /// `NotFound`.
    ///
    /// # Errors
    /// `Want` where there is no memory, or a log of 2 ^ 32 - 2 entries; the log is then as before.
    pub fn delete_job(&mut self, key: &Key) -> Result<Reply, Want>
        ensures { GivesOrKeeps self.old self.new (delete_job_gives self.old key.now) result }
    {
        let Some(job) = self.job(key) else {
            return Ok(Reply::NotFound);
        };
        let version = self.next_version()?;
        let gone = with_version(job, version)?;
        self.end_job(gone)?;
        Ok(Reply::Removed { version })
    }
}

// The Job at a version.
fn with_version(job: &Job, version: Version) -> Result<Job, Want>
    ensures { IfOk result (λ r. r ≡ record job.now { version = version }) }
{
    let mut changed = job.copy()?;
    changed.version = version;
    Ok(changed)
}

// The Job with another specification.
fn with_spec(
    alloc: Global,
    job: &Job,
    version: Version,
    spec: Arc<JobSpec>,
) -> Result<Arc<Job>, Want>
    ensures { IfOk result (λ r. r ≡ record job.now { version = version; spec = spec }) }
{
    Arc::new(
        alloc,
        Job {
            key: job.key.copy()?,
            uid: job.uid,
            version,
            created: job.created,
            spec,
            status: job.status.copy()?,
        },
    )
}

// The Job with another status.
fn with_status(
    alloc: Global,
    job: &Job,
    version: Version,
    status: &Arc<JobStatus>,
) -> Result<Arc<Job>, Want>
    ensures { IfOk result (λ r. r ≡ record job.now { version = version; status = status.now }) }
{
    Arc::new(
        alloc,
        Job {
            key: job.key.copy()?,
            uid: job.uid,
            version,
            created: job.created,
            spec: job.spec.copy()?,
            status: status.copy()?,
        },
    )
}
