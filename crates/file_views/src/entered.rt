use crate::body::FileBody;
use crate::step::FileStep;
use sprite_ids::Kernel;

/// A reading, writing, append or open that takes effect (this project).
#[derive(Debug, PartialEq, Eq, Drop)]
pub struct Entered {
    /// Where it takes effect: a client, in its cache, or the server.
    pub kernel: Kernel,
    /// What the process does.
    pub step: FileStep,
    /// What its process is answered.
    pub reply: FileBody,
}
