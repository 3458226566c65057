use crate::call::{Carry, FileCall};
use crate::client::Client;
use crate::grant::FileGrant;
use crate::opens::Open;
use sprite_ids::{Bytes, CacheMode, Items, Kernel, StreamNo};

/// One file: what its server keeps of it, what the clients keep of it, and the calls on it that aren't finished (this
/// project). The clients are the kernels from 1 on, as many as there are items in `clients`, and the server is kernel 16.
#[derive(Debug, PartialEq, Eq, Drop)]
pub struct View {
    /// The bytes that the server has.
    pub bytes: Bytes,
    /// Raised where blocks that a client kept may be out of date (Nelson, Welch and Ousterhout 1988).
    pub version: u32,
    /// The client that may have dirty blocks.
    pub holder: Option<Kernel>,
    /// Whether each operation goes to the server.
    pub uncached: bool,
    /// Who has the file open.
    pub opens: Items<Open>,
    /// The streams with references on more than one kernel.
    pub shared: Items<StreamNo>,
    /// For each client the stamp of its last grant or callback, 0 at first.
    pub stamps: Items<u32>,
    /// For each client the mode given last.
    pub modes: Items<CacheMode>,
    /// For each client the grant given last, with size 0.
    pub given: Items<Option<FileGrant>>,
    /// The number of the next call, from 1 on.
    pub next: u32,
    pub clients: Items<Client>,
    /// The unfinished calls. Those that wait at the server, which are taken and have no reply, stand in the order in which
    /// they came.
    pub calls: Items<FileCall>,
    /// The streams that a process in transit carries.
    pub carried: Items<Carry>,
}
