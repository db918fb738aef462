//! What a pod of a Job may have come to.

ghost use Rattle.std.specs.Prelude.{◌≡◌};
ghost use Rattle.jc_failpol.specs.Outcomes.{is_verdict, same_outcome};

/// What a pod has come to, as its Job counts it.
#[derive(Clone, Copy, PartialEq, Eq, Debug)]
pub enum Outcome {
    /// It has not ended.
    Alive,
    /// It counts as a success.
    Succeeded,
    /// It counts as a failure.
    Failed,
    /// It has failed, and the failure policy says not to count it.
    Ignored,
}

/// Whether the outcomes are the same.
pub fn same_outcome(left: Outcome, right: Outcome) -> bool
    ensures { result ≡ same_outcome left right }
{
    left == right
}

/// Whether the outcome is one that a Job counts for good (KEP-2307): `Succeeded` or `Failed`.
pub fn is_verdict(outcome: Outcome) -> bool
    ensures { result ≡ is_verdict outcome }
{
    match outcome {
        Outcome::Succeeded | Outcome::Failed => true,
        Outcome::Alive | Outcome::Ignored => false,
    }
}
