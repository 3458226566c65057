use file_views::FileStep;
use sprite_ids::Kernel;

/// A step of one file whose server may stop and come back (this project).
#[derive(Debug, PartialEq, Eq, Drop)]
pub enum RestartStep {
    /// A step of the file.
    File { step: FileStep },
    /// The server stops and comes back: its bytes and its version survive.
    Stop,
    /// The kernel tells the server what it kept.
    Claim { kernel: Kernel },
    /// The least unfinished call whose request or reply can come comes, as long as there is one.
    Settle,
}
