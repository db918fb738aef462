//! The requests about pods.
ghost use Rattle.std.specs.Prelude.{◌<◌, ◌-◌, ◌^◌, length};
ghost use Rattle.jc_log.specs.Requests.{GivesOrKeeps, create_pod_gives, let_go_gives, mark_pod_gives, release_gives, report_phase_gives};

use super::Store;
use super::new_objects::new_pod;
use super::pod_writes::{with_mark, without_finalizer};
use super::reports::{first_unnamed, is_step_back, same_course_of, with_report};
use jc_moment::Moment;
use jc_states::{is_final, is_marked};
use jc_types::{Copied, Job, Phase, PhaseChange, Reply, Uid, Version, Want};

impl Store {
    /// Creates a pod of a Job, Pending and with the finalizer of KEP-2307, and replies `Created`.
    /// It is accepted also where the Job is gone. The log has fewer than 2^32 - 1 entries, so that
    /// the pod's serial fits.
    ///
    /// # Errors
    /// `Want` where there is no memory, or a log of 2 ^ 32 - 2 entries; the log is then as before.
    pub fn create_pod(
        &mut self,
        owner: &Job,
        index: Option<u32>,
        now: Moment,
    ) -> Result<Reply, Want>
        requires { length self.old < 2 ^ 32 - 1 }
        ensures { GivesOrKeeps self.old self.new
            (create_pod_gives self.old owner.now index now) result }
    {
        let containers = self.containers_of(&owner.spec.template)?;
        let uid = self.next_uid();
        let version = self.next_version()?;
        let serial = self.made_for(owner.uid);
        let alloc = self.allocator();
        let pod = new_pod(alloc, owner, containers, index, serial, uid, version, now)?;
        self.make_pod(pod)?;
        Ok(Reply::Created { uid, version })
    }

    /// Marks a pod for deletion, and replies `Written`, or `Unchanged` where it is marked already.
    /// Where there is no such pod, it replies `NotFound`.
    ///
    /// # Errors
    /// `Want` where there is no memory, or a log of 2 ^ 32 - 2 entries; the log is then as before.
    pub fn mark_pod(&mut self, pod: Uid, now: Moment) -> Result<Reply, Want>
        ensures { GivesOrKeeps self.old self.new (mark_pod_gives self.old pod now) result }
    {
        let Some(found) = self.pod(pod) else {
            return Ok(Reply::NotFound);
        };
        if is_marked(found) {
            return Ok(Reply::Unchanged {
                version: found.version,
            });
        }
        let version = self.next_version()?;
        let marked = with_mark(self.allocator(), found, version, now)?;
        self.put_pod(marked)?;
        Ok(Reply::Written { version })
    }

    /// Takes a pod's finalizer, and replies `Released`. Where no pod with a finalizer has the UID,
    /// it replies `NotTracked`.
    ///
    /// # Errors
    /// `Want` where there is no memory, or a log of 2 ^ 32 - 2 entries; the log is then as before.
    pub fn release(&mut self, pod: Uid) -> Result<Reply, Want>
        ensures { GivesOrKeeps self.old self.new (release_gives self.old pod) result }
    {
        let Some(found) = self.pod(pod) else {
            return Ok(Reply::NotTracked);
        };
        if !found.tracked {
            return Ok(Reply::NotTracked);
        }
        let version = self.next_version()?;
        let released = without_finalizer(self.allocator(), found, version)?;
        self.put_pod(released)?;
        Ok(Reply::Released { version })
    }

    /// Takes a pod's finalizer where the pod has the version, and replies `Released`.
    ///
    /// It replies `NotFound` where there is no such pod, `Conflict` where it has another version,
    /// and `NotTracked` where it has no finalizer.
    ///
    /// # Errors
    /// `Want` where there is no memory, or a log of 2 ^ 32 - 2 entries; the log is then as before.
    pub fn let_go(&mut self, pod: Uid, version: Version) -> Result<Reply, Want>
        ensures { GivesOrKeeps self.old self.new (let_go_gives self.old pod version) result }
    {
        let Some(found) = self.pod(pod) else {
            return Ok(Reply::NotFound);
        };
        if found.version.0 != version.0 {
            return Ok(Reply::Conflict {
                current: found.version,
            });
        }
        if !found.tracked {
            return Ok(Reply::NotTracked);
        }
        let version = self.next_version()?;
        let released = without_finalizer(self.allocator(), found, version)?;
        self.put_pod(released)?;
        Ok(Reply::Released { version })
    }

    /// Reports a pod's phase, with exit codes, restarts and conditions, and replies `Written`, or
    /// `Unchanged` where all are as before.
    ///
    /// It replies `NotFound` where no pod has the UID, `Final` where the pod has succeeded or
    /// failed, `BadStep` where it would go from Running back to Pending, and `NoContainer` with the
    /// first name that is none of its containers'.
    ///
    /// # Errors
    /// `Want` where there is no memory, or a log of 2 ^ 32 - 2 entries; the log is then as before.
    pub fn report_phase(&mut self, pod: Uid, change: &PhaseChange) -> Result<Reply, Want>
        ensures { GivesOrKeeps self.old self.new
            (report_phase_gives self.old pod change.now) result }
    {
        let Some(found) = self.pod(pod) else {
            return Ok(Reply::NotFound);
        };
        let found = found.copy()?;
        if is_final(found.phase) {
            return Ok(Reply::Final { phase: found.phase });
        }
        if is_step_back(found.phase, change.phase) {
            return Ok(Reply::BadStep {
                from: Phase::Running,
                to: Phase::Pending,
            });
        }
        if let Some(unnamed) = first_unnamed(&found, change.containers.as_slice()) {
            let name = unnamed.name.copy()?;
            return Ok(Reply::NoContainer { name });
        }
        let containers = self.containers_after(&found.containers, &change.containers)?;
        let version = self.next_version()?;
        let changed = with_report(self.allocator(), &found, version, change, containers)?;
        if same_course_of(&found, &changed) {
            return Ok(Reply::Unchanged {
                version: found.version,
            });
        }
        self.put_pod(changed)?;
        Ok(Reply::Written { version })
    }
}
