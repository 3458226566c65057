use thiserror::Error;

/// A source gave no byte or a sink took none, though it was asked to. No reason is told: what can be known of it is
/// the count of faults (this project).
#[derive(Clone, Copy, Debug, PartialEq, Eq, Error)]
#[error("reading or writing failed")]
pub struct Failed;
