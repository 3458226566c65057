use crate::promise::Promise;

/// What a trace comes to (this project).
#[derive(Clone, Copy, Debug, PartialEq, Eq)]
pub enum Audit {
    /// It keeps every promise.
    Holds,
    /// This promise is the first that it breaks.
    Fails(Promise),
    /// One Unix kernel gives the entries before this one, counted from 1, and the instructions up to its call make the sum pass the
    /// bound; one more than there are entries where those behind the last one do.
    Steps(u32),
}
