use file_views::Entered;
use sprite_ids::Kernel;

/// What comes of a step of one file whose server may stop (this project).
#[derive(Debug, PartialEq, Eq, Drop)]
pub enum Outcome {
    /// Something took effect.
    Event {
        entered: Entered,
    },
    /// What the kernel kept was taken, at the server's version.
    Granted {
        kernel: Kernel,
        version: u32,
    },
    /// The kernel's dirty blocks were of another version than the server's, and are gone.
    Refused {
        kernel: Kernel,
        /// The kernel's version.
        own: u32,
        /// The server's.
        server: u32,
    },
}
