use cluster_file::Refusal;

/// Why a text isn't parted into a cluster and what stands behind it (this project).
#[derive(Debug, Drop)]
pub enum PartsEnd {
    /// No line is exactly `=====`.
    NoBody,
    /// What stands before the first such line is refused as a cluster file.
    Refused(Refusal),
    /// Memory ran out.
    NoMemory,
}
