use process_machine::Reply;

/// What a call comes to.
#[derive(Debug, Drop)]
pub enum Came {
    /// It has this reply, and the state is the one after it.
    Answered(Reply),
    /// It goes to the master of the device that the entry at that place made; nothing has changed.
    GoesTo(u32),
    /// It waits; nothing has changed.
    Waits,
}
