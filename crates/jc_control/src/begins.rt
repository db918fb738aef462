//! The begin of a sync.

ghost use Rattle.std.specs.Prelude.{◌≡◌};
ghost use Rattle.std.specs.Option.{option_copied};
ghost use Rattle.jc_control.specs.ControllerCalls.{behind, first_lag, later, pods_need};
ghost use Rattle.jc_types.specs.declared.objects.Kind.TheVariants.{Jobs, Pods};

use jc_states::Basis;
use jc_types::{Arc, Job, Kind, Version};

/// The answer of a begin.
#[derive(Drop)]
pub enum Begin {
    /// A cache has no number.
    NotSynced,
    /// No key waits.
    NoKey,
    /// This cache has not seen all that the key's next sync must know.
    Behind {
        kind: Kind,
        /// How far it must have seen the log.
        need: Version,
        /// How far it has.
        have: Version,
    },
    /// A sync begins with this basis.
    Begun(Arc<Basis>),
}

/// A cache that is behind what the next sync of a key must know.
#[derive(Clone, Copy)]
pub struct Lag {
    pub kind: Kind,
    /// How far it must have seen the log.
    pub need: Version,
    /// How far it has.
    pub have: Version,
}

// The later of two versions.
pub(crate) fn later(left: Version, right: Version) -> Version
    ensures { result ≡ later left right }
{
    Version(left.0.max(right.0))
}

// The cache, where it is behind what it must have seen.
fn behind(kind: Kind, need: Version, have: Version) -> Option<Lag>
    ensures { result ≡ behind kind need have }
{
    if have.0 < need.0 {
        Some(Lag { kind, need, have })
    } else {
        None
    }
}

// The first cache that is behind what the next sync of a key must know, whose floor and cached Job these
// are: Jobs before Pods.
pub(crate) fn first_lag(
    floor: Version,
    job: Option<&Arc<Job>>,
    jobs_at: Version,
    pods_at: Version,
) -> Option<Lag>
    ensures { result ≡ first_lag (behind Jobs floor jobs_at)
        (behind Pods (pods_need floor (option_copied job.entry)) pods_at) }
{
    if let Some(lag) = behind(Kind::Jobs, floor, jobs_at) {
        return Some(lag);
    }
    let need = match job {
        None => floor,
        Some(job) => later(floor, job.version),
    };
    behind(Kind::Pods, need, pods_at)
}
