use cluster_file::Refusal;
use one_kernel::Verdict;

/// What a text comes to that is to hold a cluster file, a line `=====` and a printed history (this project).
#[derive(Debug, Drop)]
pub enum Judgement {
    /// No line of it is exactly `=====`.
    NoHistory,
    /// What stands before that line is refused as a cluster file.
    Refused(Refusal),
    /// What stands behind it is no printed history, and this line of it, counted from 1, is the first that is no entry's.
    BadLine(usize),
    /// The history comes to that for the described cluster.
    Judged(Verdict),
}
