ghost use Rattle.std.specs.Prelude.{◌≡◌, [], None};

use indexmap::{IndexMap, IndexSet};
use sprite_ids::{FileId, Items, Kernel, Mode, StreamNo};
use std::alloc::Global;

/// A stream that a kernel has open (this project).
#[derive(Clone, Copy, Debug, PartialEq, Eq)]
pub(crate) struct OpenedAt {
    pub(crate) stream: StreamNo,
    pub(crate) kernel: Kernel,
    pub(crate) mode: Mode,
}

/// A stamp of a file, given to a kernel (this project).
#[derive(Clone, Copy, Debug, PartialEq, Eq, Hash)]
pub(crate) struct StampAt {
    pub(crate) file: FileId,
    pub(crate) kernel: Kernel,
    pub(crate) stamp: u32,
}

/// The open that the last record tells (this project).
#[derive(Clone, Copy, Debug, PartialEq, Eq)]
pub(crate) struct Opening {
    pub(crate) file: FileId,
    pub(crate) stream: StreamNo,
    /// Whether the file was open before it.
    pub(crate) was_open: bool,
    /// Whether a grant or a stop waits for a licence that stands behind this open at the latest.
    pub(crate) is_due: bool,
}

/// What the records so far tell of files (this project). A licence to stop a file's caching is a moment when it is shared for writing,
/// a stream of it that becomes shared, or an open that truncates it while it is open.
#[derive(Drop)]
pub(crate) struct Sharing {
    /// Where each file is open.
    pub(crate) opens: IndexMap<FileId, Items<OpenedAt>>,
    /// The files for which a licence stands since they were open nowhere.
    pub(crate) licensed: IndexSet<FileId>,
    /// The files with a grant that turns caching off and waits for a licence.
    pub(crate) grants: IndexSet<FileId>,
    /// The files with a stop that waits for a licence, should they be opened later.
    pub(crate) stops: IndexSet<FileId>,
    /// The files that were called back since they were opened last.
    pub(crate) called: IndexSet<FileId>,
    /// The stamps by which a server turned caching off.
    pub(crate) stopped: IndexSet<StampAt>,
    pub(crate) last: Option<Opening>,
}

impl Sharing {
    /// Before the first record.
    pub(crate) fn new(alloc: Global) -> Sharing
        ensures opens { result.opens.entries ≡ [] }
        ensures licensed { result.licensed.keys ≡ [] }
        ensures grants { result.grants.keys ≡ [] }
        ensures stops { result.stops.keys ≡ [] }
        ensures called { result.called.keys ≡ [] }
        ensures stopped { result.stopped.keys ≡ [] }
        ensures last { result.last ≡ None }
    {
        Sharing {
            opens: IndexMap::new(alloc),
            licensed: IndexSet::new(alloc),
            grants: IndexSet::new(alloc),
            stops: IndexSet::new(alloc),
            called: IndexSet::new(alloc),
            stopped: IndexSet::new(alloc),
            last: None,
        }
    }
}
