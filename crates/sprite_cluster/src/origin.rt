use std::snapshot::Snapshot;
use unix_calls::Description;

/// What never changes of a cluster: what is run, and the link as it was when the cluster was booted (this project).
#[derive(Drop)]
pub struct Origin<L> {
    /// What is run.
    pub description: Description,
    /// The link before the boot.
    pub link: Snapshot<L>,
}
