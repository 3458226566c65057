use cluster_wire::Said;

/// What became of a burst, with what the kernel took after it.
#[derive(Debug, Drop)]
pub enum BurstOutcome {
    /// It is lost.
    Stale,
    /// The process did it and goes on.
    Done,
    /// The process did it and came to something that its kernel took.
    Took(Said),
}
