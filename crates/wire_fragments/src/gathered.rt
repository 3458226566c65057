use sprite_ids::{Bytes, Kernel};

/// What taking a frame answers (this project). Where several hold, the first of them in this order is given, but `Whole`
/// goes before `Kept`. All but the last two change nothing.
#[derive(Debug, PartialEq, Eq, Drop)]
pub enum Gathered {
    /// The bytes spell no frame.
    Bad,
    /// The message was given before, or this frame of it is kept.
    Known,
    /// The message is kept in part with another count of frames: the one that is kept, and the one that came.
    Differs(u16, u16),
    /// So many messages are kept in part, which is all the room, and this one would be a further one.
    Full(u16),
    /// It was the last frame that was missing. This is the message.
    Whole {
        /// The kernel that sent it.
        from: Kernel,
        /// The kernel that it is for.
        to: Kernel,
        /// Its number.
        id: u32,
        /// Its bytes.
        message: Bytes,
    },
    /// The frame is kept, and others are missing.
    Kept,
}
