use crate::outcome::Audit;
use cluster_file::Refusal;

/// What a text comes to that is to hold a cluster file, a line `=====` and a printed trace (this project).
#[derive(Debug, Drop)]
pub enum AuditedText {
    /// No line of it is exactly `=====`.
    NoTrace,
    /// What stands before that line is refused as a cluster file.
    Refused(Refusal),
    /// What stands behind it is no printed trace, and this line of it, counted from 1, is the first that is no record's.
    BadLine(usize),
    /// The trace comes to that for the described cluster.
    Audited(Audit),
}
