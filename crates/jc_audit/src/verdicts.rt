//! What the auditor says.

/// What the auditor says of bytes.
#[derive(Clone, Copy, Debug, PartialEq, Eq)]
pub enum Verdict {
    /// They are a report.
    Yes,
    /// They are none, and this line is the first that differs, counted from 1.
    No { line: u32 },
}
