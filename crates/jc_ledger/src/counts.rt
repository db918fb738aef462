//! How much the ledger of a Job has counted.

/// What the ledger of a Job has counted.
#[derive(Clone, Copy, PartialEq, Eq, Debug)]
pub struct Verdicts {
    /// How many distinct pods the accepted writes of the Job's status have judged Succeeded.
    pub succeeded: u32,
    /// How many they have judged Failed.
    pub failed: u32,
    /// How many indexes the pods that were judged Succeeded have.
    pub indexes: u32,
}
