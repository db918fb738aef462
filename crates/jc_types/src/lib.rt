//! The plain data of the Job controller: Jobs, pods and the entries of their log (Kubernetes batch/v1
//! and core/v1), the commands of a script, and the events, replies and history of a run.
//!
//! A contract sees a list as the list of its items, a text or a name as its bytes, and an `Arc` as
//! the value behind it. So two values are equal where their parts are, whatever memory they stand in.
#![tactic(auto)]

mod actions;
mod copies;
mod laws;
mod letters;
mod limits;
mod lists;
mod numbers;
mod objects;
mod pasts;
mod pieces;
mod policies;
mod replies;
mod runs;
mod shared;
mod specifications;
mod statuses;
mod syncs;
mod texts;
mod uid_words;

pub use actions::{
    Action1, Command, Commands, ContainerChange, ContainerChanges, End, Ends, Fault, PhaseChange,
    Script, SpecChange,
};
pub use copies::{Bytes, Copied, Same, Want};
pub use laws::tests_are_exact;
pub use limits::{
    GREATEST_COMPLETIONS, GREATEST_LIMIT, GREATEST_PARALLELISM, MOST_CONTAINERS, MOST_UNCOUNTED,
};
pub use lists::ListOf;
pub use numbers::{Seconds, Uid, Uids, Version};
pub use objects::{
    Container, Containers, Entries, Entry, Job, Jobs, Key, KeyNames, Kind, Phase, Pod,
};
pub use pasts::Pasts;
pub use pieces::{IndexCounts, Piece};
pub use policies::{
    Action, Codes, FailurePolicy, FailureRule, FailureRules, Operator, Pattern, Patterns,
    PodCondition, PodConditions, Requirement, SuccessPolicy, SuccessRule, SuccessRules, Truth,
};
pub use replies::{Answer, Field, Reply, Request};
pub use runs::{Event, History, Past, Shape, Sys};
pub use shared::Arc;
pub use specifications::{JobSpec, Mode, Replacement, Restart, Template};
pub use statuses::{CondKind, Condition, Conditions, IndexCount, JobStatus, Reason};
pub use syncs::{Backoff, CountIn, Indexes, PodVersions, counts};
pub use texts::{Label, Name, Names, Text};
pub use uid_words::uid_text;
