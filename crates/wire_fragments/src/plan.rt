/// What becomes of a frame.
#[derive(Clone, Copy, Debug, PartialEq, Eq)]
pub enum Plan {
    /// It came before, or its message was given.
    Known,
    /// Its message is kept in part with that other count of frames.
    Differs(u16),
    /// There is no room for its message.
    Full,
    /// It is the only frame of its message, which is given.
    Alone,
    /// It is the first that comes of its message, and is kept.
    First,
    /// It is a further one of its message, and is kept.
    Next,
    /// It is the last that was missing of its message, which is given.
    Last,
}
