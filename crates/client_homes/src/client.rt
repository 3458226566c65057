use crate::process::Proc;
use client_file_tables::ClientFiles;
use home_table::Home;
use kernel_steps::{Queue, Table};
use migrate_freeze::MoveStep;
use pseudo_device::Device;
use sprite_ids::{Items, Kernel, Pid, TxNo};
use unix_calls::{About, KernelLine, ProgramLine};

/// A process that is frozen here and leaves (Douglis and Ousterhout 1991).
#[derive(Debug, Drop)]
pub struct Leaving {
    /// The process, and how far the moves of its streams have come.
    pub step: MoveStep,
    /// Its own `migrate` or `rexec`; None where it is evicted.
    pub about: Option<About>,
}

/// A `wait` that is parked at its process's home until a child ends.
#[derive(Clone, Copy, Debug, PartialEq, Eq)]
pub struct Parked {
    /// The number of the call.
    pub number: u32,
    /// The remote call that asked for it; None where the process runs here.
    pub tx: Option<TxNo>,
}

/// What a home does about the kill of a process of its own that runs elsewhere (this project).
#[derive(Clone, Copy, Debug, PartialEq, Eq)]
pub enum KillState {
    /// The kernel where it was last known is told, and has not answered.
    Out {
        /// Whether the process has come to another kernel since.
        placed: bool,
    },
    /// It is on its way: the kernel that it comes to is told.
    Waits,
}

/// What a remote call of this kernel is for, of those that it makes for its processes; those of its files stand there.
#[derive(Clone, Copy, Debug, PartialEq, Eq)]
pub enum Unfinished {
    /// It puts a page of a process that leaves.
    PageOut(Pid),
    /// It fetches a page of a process.
    PageIn(Pid),
    /// It asks a home for a call of that process.
    Home(Pid),
    /// It asks a pseudo-device of another kernel for that process.
    Ask(Pid),
    /// It tells a home that its process dies.
    Death(Pid),
    /// It tells a home that its process has come here.
    Place(Pid),
    /// It tells another kernel of a kill of that process.
    Killed(Pid),
    /// It sends that process to another kernel.
    Transfer(Pid),
}

/// What a client's kernel keeps of its processes between two steps, with what it keeps of their files, in which stands also
/// what the step that runs has said so far (this project).
#[derive(Debug, Drop)]
pub struct ClientProcs {
    /// The kernel's own number.
    pub kernel: Kernel,
    /// The kernels of the cluster, from number 1.
    pub kernels: Items<KernelLine>,
    /// The programs of the cluster, from number 1.
    pub programs: Items<ProgramLine>,
    /// The server that keeps the pages of processes that move.
    pub swap_server: Kernel,
    /// The files, streams and names.
    pub files: ClientFiles,
    /// The processes that were born with this kernel as their home.
    pub home: Home,
    /// The processes that are here.
    pub procs: Table<Pid, Proc>,
    /// The processes that are frozen here.
    pub leaving: Queue<Pid, Leaving>,
    /// The pseudo-devices that were made here, each under its number.
    pub devices: Table<u32, Device>,
    /// The masters that wait in `pd_get`, each under its device, in order.
    pub getters: Queue<u32, Pid>,
    /// Who waits for the answer of an ask of a device here: the remote call that brought it, or a process of this kernel.
    pub asked: Queue<About, Option<TxNo>>,
    /// The device of each process that is inside `pd_make`.
    pub making: Queue<Pid, u32>,
    /// The number of the next device that is made.
    pub next_device: u32,
    /// The `wait`s that are parked here, each under its process.
    pub waits: Queue<Pid, Parked>,
    /// The kills of processes of this home that run elsewhere or are on their way.
    pub kills: Queue<Pid, KillState>,
    /// The remote calls that ask a home for a `fork`, each with that home.
    pub forks: Queue<TxNo, Kernel>,
    /// The processes that were killed before they came, each with every `fork` that may bring it.
    pub early: Queue<Pid, TxNo>,
    /// The remote calls that this kernel makes for its processes and that have no answer.
    pub unfinished: Queue<TxNo, Unfinished>,
    /// How many calls the processes came to here.
    pub issues: u32,
    /// At which of these the processes of other homes are to leave.
    pub evicts: Items<u32>,
}
