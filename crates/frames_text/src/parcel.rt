use sprite_ids::{Bytes, Kernel};

/// A packet that is to be sent in frames (this project).
#[derive(Drop)]
pub struct Parcel {
    /// The kernel that sends it.
    pub from: Kernel,
    /// The kernel that it is for.
    pub to: Kernel,
    /// The bytes that spell it.
    pub bytes: Bytes,
}
