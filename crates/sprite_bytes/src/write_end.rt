use thiserror::Error;

/// A sink failed before all bytes were written (this project).
#[derive(Clone, Copy, Debug, PartialEq, Eq, Error)]
#[error("writing failed after {written} bytes: {before} faults before, {now} now")]
pub struct WriteEnd {
    /// How many of the bytes, from the first on, the sink took; fewer than all.
    pub written: usize,
    /// The sink's count of faults when the call began.
    pub before: u64,
    /// The count when it ended. It rose since then or stands at `u64::MAX`.
    pub now: u64,
}
