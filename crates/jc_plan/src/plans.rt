//! The plan of a sync.

ghost use Rattle.std.specs.Prelude.{◌≡◌};
ghost use Rattle.std.specs.Option.{option_copied};
ghost use Rattle.jc_plan.specs.Plans.{planned};

use jc_moment::Moment;
use jc_states::Basis;
use jc_types::{Arc, Backoff, Copied, Indexes, JobStatus, PodVersions, Uids, Want};
use std::marker::Model;

/// What a sync does, in the order in which it does it, and what it leaves behind.
#[derive(Drop)]
pub struct Planned {
    /// The indexes of the pods to make; none for a pod of a Job that is not Indexed.
    pub creates: Indexes,
    /// The pods to mark for deletion.
    pub marks: Uids,
    /// The pods whose finalizer goes before they are marked.
    pub let_goes: PodVersions,
    /// The first status, where it is to be written.
    pub first: Option<Arc<JobStatus>>,
    /// The pods whose finalizer is to go.
    pub releases: Uids,
    /// The second status, where it is to be written.
    pub second: Option<Arc<JobStatus>>,
    /// The failures in a row after the sync.
    pub backoff: Backoff,
    /// When the key is to be synced again.
    pub next: Option<Moment>,
}

/// The plan of a sync: the requests that it makes, and what it leaves behind. It is that of its own basis.
/// Copies share it.
#[derive(Drop)]
pub struct Plan {
    basis: Arc<Basis>,
    parts: Arc<Planned>,
}

impl Model for Plan {
    ghost use Rattle.std.specs.Prelude.{◌≡◌};
    ghost use Rattle.jc_plan.specs.Plans.{PlanOf, planned};

    ghost Value = { PlanOf };

    ghost view = { λ p. record { basis = p.basis; parts = p.parts } };

    ghost invariant = { λ p. p.parts ≡ planned p.basis };
}

impl Copied for Plan {
    fn copy(&self) -> Result<Self, Want> {
        let basis = self.basis.copy()?;
        let parts = self.parts.copy()?;
        Ok(Plan { basis, parts })
    }
}

impl Plan {
    // The plan with the parts of its basis.
    pub(crate) fn new(basis: Arc<Basis>, parts: Arc<Planned>) -> Plan
        requires { parts ≡ planned basis }
        ensures basis { result.basis ≡ basis }
        ensures parts { result.parts ≡ parts }
    {
        Plan { basis, parts }
    }

    /// What the sync starts from.
    pub fn basis(&self) -> &Arc<Basis>
        ensures { result.now ≡ self.now.basis }
    {
        &self.basis
    }

    /// The indexes of the pods to make, ascending; none for a pod of a Job that is not Indexed.
    pub fn creates(&self) -> &Indexes
        ensures { result.now ≡ (planned self.now.basis).creates }
    {
        &self.parts.creates
    }

    /// The pods to mark for deletion, in the order of the pods: ascending where these do.
    pub fn marks(&self) -> &Uids
        ensures { result.now ≡ (planned self.now.basis).marks }
    {
        &self.parts.marks
    }

    /// The pods that are let go, in the order of the pods, each at the version at which it was seen: they
    /// lose their finalizer, and are marked where they did.
    pub fn let_goes(&self) -> &PodVersions
        ensures { result.now ≡ (planned self.now.basis).let_goes }
    {
        &self.parts.let_goes
    }

    /// The first status to write (KEP-2307): what is counted in. None where the Job has it already.
    pub fn first(&self) -> Option<&Arc<JobStatus>>
        ensures { option_copied result ≡ (planned self.now.basis).first }
    {
        self.parts.first.as_ref()
    }

    /// The pods that lose their finalizer, in the order of the pods: the Job's own that are counted or
    /// need no count, and orphans.
    pub fn releases(&self) -> &Uids
        ensures { result.now ≡ (planned self.now.basis).releases }
    {
        &self.parts.releases
    }

    /// The second status to write (KEP-2307): what is counted out, once all pods are released. None where
    /// the first is the same.
    pub fn second(&self) -> Option<&Arc<JobStatus>>
        ensures { option_copied result ≡ (planned self.now.basis).second }
    {
        self.parts.second.as_ref()
    }

    /// The failures of the key in a row after the sync.
    pub fn backoff(&self) -> &Backoff
        ensures { result.now ≡ (planned self.now.basis).backoff }
    {
        &self.parts.backoff
    }

    /// When the key is to be synced again after a sync that has made all its requests: at the moment that
    /// held pods back, or at the deadline of the Job, whichever is earlier. None where there is neither.
    pub fn next(&self) -> Option<Moment>
        ensures { result ≡ (planned self.now.basis).next }
    {
        self.parts.next
    }
}
