use crate::moves::Report;
use crate::pending::Pending;
use crate::works::WriteBackOut;
use block_cache::Cache;
use kernel_steps::{Out, Queue};
use prefix_table::Prefixes;
use sprite_ids::{Items, Kernel, Pid, StreamNo, TxNo};
use sprite_paths::Path;
use stream_table::Streams;
use write_delay::Delays;

/// What a client kernel keeps of names, streams, cached data and delayed writes between two steps, and what the step that
/// runs has said so far (this project).
#[derive(Debug, Drop)]
pub struct ClientFiles {
    /// The kernel's own number.
    pub kernel: Kernel,
    /// The servers of the cluster, in ascending order: to these a broadcast goes (Welch and Ousterhout 1986).
    pub servers: Items<Kernel>,
    /// How many bytes a file may have (this project).
    pub limit: u32,
    /// The prefixes that this kernel has learned (Welch and Ousterhout 1986).
    pub prefixes: Prefixes,
    /// The blocks that it caches (Nelson, Welch and Ousterhout 1988).
    pub cache: Cache,
    /// Which dirty blocks wait to be written back, and since when (Nelson, Welch and Ousterhout 1988).
    pub delay: Delays,
    /// The descriptors of the processes here, their streams and these streams' locks (Welch 1986).
    pub streams: Streams,
    /// The working directory of each process here.
    pub cwds: Queue<Pid, Path>,
    /// The number of the next stream that this kernel makes.
    pub next_stream: u32,
    /// What waits for something, at most one a process, in the order in which it began to wait for that.
    pub pending: Queue<Pid, Pending>,
    /// The remote calls for whose answer an operation waits, each with the operation's process. A write-back is here only
    /// where it is a `sync`'s own.
    pub txs: Queue<TxNo, Pid>,
    /// The write-backs that have no answer yet, each under its remote call.
    pub write_backs: Queue<TxNo, WriteBackOut>,
    /// The processes that wait for locks, each under its stream, in order of arrival.
    pub lock_waits: Queue<StreamNo, Pid>,
    /// The processes whose reading or writing needs blocks that aren't here: the first one fills, the others wait for their
    /// turn (this project).
    pub fillers: Items<Pid>,
    /// The processes whose operations look at everything anew in this step, in that order; none between two steps.
    pub ready: Items<Pid>,
    /// What the processes' side of the kernel is told beside the replies; nothing between two steps.
    pub results: Items<Report>,
    /// The kernel's count of recorded steps, the one that runs among them.
    pub step: u64,
    /// What the step that runs has said so far; nothing between two steps.
    pub out: Out,
}
