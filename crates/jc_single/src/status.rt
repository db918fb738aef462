//! How a run of the program ends.

use jc_script::Cause;

/// How a run of the program ends.
#[derive(Debug, Drop)]
pub enum Status {
    /// The script was read to its end, all its commands were played, and the whole report was written; or the
    /// whole summary; or what was read is a report, and that was written.
    Ok,
    /// The words are not in the grammar. Nothing was read or written.
    BadWords,
    /// The source failed. Nothing was written.
    ReadFault,
    /// The sink failed. What went out is a prefix of the report, or of what an audit says.
    WriteFault,
    /// The line of that number, from 1, is the script's first bad one. Nothing was written.
    BadScript { line: u32, cause: Cause },
    /// The history has as many events as it may have, and one was to come. The whole report was written.
    HistoryFull,
    /// What was read is no report, and the line of that number, from 1, is the first that differs. That was
    /// written.
    AuditNo { line: u32 },
    /// Memory ran out. Nothing was written.
    Want,
    /// The input has more than 67,108,864 bytes. Nothing was written.
    TooLong,
}
