//! The pod failure policy (KEP-3329) and the success policy (KEP-3998) of a Job.

use crate::copies::{Copied, Same, Want};
use crate::lists::ListOf;
use crate::texts::{Name, Text};
use jc_ranges::Ranges;

/// What a rule of a pod failure policy does with a failed pod.
#[derive(Clone, Copy, PartialEq, Eq, Debug)]
pub enum Action {
    /// The whole Job fails.
    FailJob,
    /// The pod counts neither as failed nor towards the backoff limit.
    Ignore,
    /// The pod counts as failed.
    Count,
    /// The pod's index fails (KEP-3850).
    FailIndex,
}

/// How exit codes are compared with the values of a rule.
#[derive(Clone, Copy, PartialEq, Eq, Debug)]
pub enum Operator {
    /// The code is one of the values (`In`).
    Within,
    /// The code is none of the values (`NotIn`).
    NotWithin,
}

/// The status of a pod's condition.
#[derive(Clone, Copy, PartialEq, Eq, Debug)]
pub enum Truth {
    /// It holds.
    True,
    /// It does not hold.
    False,
    /// It is not known whether it holds.
    Unknown,
}

/// What a rule of a pod failure policy looks for among the conditions of a pod, and such a condition
/// itself.
#[derive(Drop)]
pub struct Pattern {
    /// The condition's type, as `DisruptionTarget`.
    pub kind: Text,
    /// The condition's status.
    pub truth: Truth,
}

/// The patterns of a rule, in their order.
pub type Patterns = ListOf<Pattern>;

/// A condition of a pod (`status.conditions` of core/v1).
pub type PodCondition = Pattern;

/// The conditions of a pod.
pub type PodConditions = ListOf<PodCondition>;

/// Exit codes.
pub type Codes = ListOf<i32>;

/// What a pod has to show for a rule to match.
#[derive(Drop)]
pub enum Requirement {
    /// An exit code that is not 0, of the named container or of any (`onExitCodes`).
    ExitCodes {
        container: Option<Name>,
        operator: Operator,
        values: Codes,
    },
    /// One of the conditions (`onPodConditions`).
    Conditions {
        patterns: Patterns,
    },
}

/// A rule of a pod failure policy.
#[derive(Drop)]
pub struct FailureRule {
    /// What the rule does.
    pub action: Action,
    /// When it matches.
    pub requirement: Requirement,
}

/// The rules of a pod failure policy, in their order.
pub type FailureRules = ListOf<FailureRule>;

/// A pod failure policy: the first rule that matches decides.
#[derive(Drop)]
pub struct FailurePolicy {
    /// The rules, in the order in which they are tried.
    pub rules: FailureRules,
}

/// A rule of a success policy.
#[derive(Drop)]
pub struct SuccessRule {
    /// The indexes that count, or all (`succeededIndexes`).
    pub indexes: Option<Ranges>,
    /// How many have to succeed, or all (`succeededCount`).
    pub count: Option<u32>,
}

/// The rules of a success policy, in their order.
pub type SuccessRules = ListOf<SuccessRule>;

/// A success policy: the first rule that is met decides.
#[derive(Drop)]
pub struct SuccessPolicy {
    /// The rules, in the order in which they are tried.
    pub rules: SuccessRules,
}

impl Copied for Pattern {
    fn copy(&self) -> Result<Self, Want> {
        Ok(Pattern {
            kind: self.kind.copy()?,
            truth: self.truth,
        })
    }
}

impl Copied for Requirement {
    fn copy(&self) -> Result<Self, Want> {
        match self {
            Requirement::ExitCodes {
                container,
                operator,
                values,
            } => {
                Ok(Requirement::ExitCodes {
                    container: container.copy()?,
                    operator: *operator,
                    values: values.copy()?,
                })
            }
            Requirement::Conditions { patterns } => Ok(Requirement::Conditions {
                patterns: patterns.copy()?,
            }),
        }
    }
}

impl Copied for FailureRule {
    fn copy(&self) -> Result<Self, Want> {
        Ok(FailureRule {
            action: self.action,
            requirement: self.requirement.copy()?,
        })
    }
}

impl Copied for FailurePolicy {
    fn copy(&self) -> Result<Self, Want> {
        Ok(FailurePolicy {
            rules: self.rules.copy()?,
        })
    }
}

impl Copied for SuccessRule {
    fn copy(&self) -> Result<Self, Want> {
        Ok(SuccessRule {
            indexes: self.indexes.copy()?,
            count: self.count,
        })
    }
}

impl Copied for SuccessPolicy {
    fn copy(&self) -> Result<Self, Want> {
        Ok(SuccessPolicy {
            rules: self.rules.copy()?,
        })
    }
}

impl Same for Pattern {
    fn is_same(&self, other: &Self) -> bool {
        self.kind.is_same(&other.kind) && self.truth == other.truth
    }
}

impl Same for Requirement {
    fn is_same(&self, other: &Self) -> bool {
        match (self, other) {
            (
                Requirement::ExitCodes {
                    container,
                    operator,
                    values,
                },
                Requirement::ExitCodes {
                    container: container2,
                    operator: operator2,
                    values: values2,
                },
            ) => container.is_same(container2)
                && *operator == *operator2
                && values.is_same(values2),
            (
                Requirement::Conditions { patterns },
                Requirement::Conditions {
                    patterns: patterns2,
                },
            ) => { patterns.is_same(patterns2) }
            _ => false,
        }
    }
}

impl Same for FailureRule {
    fn is_same(&self, other: &Self) -> bool {
        self.action == other.action && self.requirement.is_same(&other.requirement)
    }
}

impl Same for FailurePolicy {
    fn is_same(&self, other: &Self) -> bool {
        self.rules.is_same(&other.rules)
    }
}

impl Same for SuccessRule {
    fn is_same(&self, other: &Self) -> bool {
        self.indexes.is_same(&other.indexes) && self.count == other.count
    }
}

impl Same for SuccessPolicy {
    fn is_same(&self, other: &Self) -> bool {
        self.rules.is_same(&other.rules)
    }
}
