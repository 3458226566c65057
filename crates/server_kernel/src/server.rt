use crate::asked::{Asked, CallOut};
use file_store::Store;
use kernel_steps::{Out, Queue};
use server_names::Names;
use shadow_streams::Shadows;
use sprite_ids::{FileId, Items, Kernel, TxNo};
use sprite_paths::Path;
use swap_pages::Swap;
use version_table::Versions;

/// A domain that the server serves (Welch and Ousterhout 1986).
#[derive(Debug, Drop)]
pub struct Domain {
    /// Where it hangs in the tree of names.
    pub root: Path,
    /// Its names, by their whole paths. The directories above the root are there too, each with the one entry on the way to
    /// the root, so that a walk begins at `/` (this project).
    pub names: Names,
}

/// What a file server keeps between two steps, and what the step that runs has said so far (this project).
#[derive(Debug, Drop)]
pub struct Server {
    /// The server's own number.
    pub kernel: Kernel,
    /// Where the domains of the whole cluster hang.
    pub roots: Items<Path>,
    /// The domains that this server serves; of two, the one with the longer root stands first.
    pub domains: Items<Domain>,
    /// The files' bytes.
    pub store: Store,
    /// Who has the files open.
    pub versions: Versions,
    /// The offsets of shared streams (Douglis and Ousterhout 1991).
    pub shadows: Shadows,
    /// The pages of processes that move.
    pub swap: Swap,
    /// The number of the next file that is made.
    pub next_file: u32,
    /// The files that have no name any more and are still open.
    pub unlinked: Items<FileId>,
    /// The opens and moves whose callbacks are out, each under its file, which is busy until they are answered.
    pub asking: Queue<FileId, Asked>,
    /// What waits for busy files, each under its file, in order of arrival.
    pub waiting: Queue<FileId, Asked>,
    /// The callbacks that have no answer yet, each under its remote call.
    pub callbacks: Queue<TxNo, CallOut>,
    /// What the step that runs has said so far; nothing between two steps.
    pub out: Out,
}
