use sprite_ids::{Kernel, Pid, TxNo};

/// The first kill of a process that was away from its home: the number of the home, the kernel where the process was, and the call
/// that killed it (this project).
#[derive(Clone, Copy, Debug, PartialEq, Eq, Hash)]
pub(crate) struct KillAt {
    pub(crate) home: u64,
    pub(crate) to: Kernel,
    pub(crate) pid: Pid,
    pub(crate) number: u32,
}

/// A remote call whose request goes to a kernel (this project).
#[derive(Clone, Copy, Debug, PartialEq, Eq, Hash)]
pub(crate) struct RequestAt {
    pub(crate) kernel: Kernel,
    pub(crate) tx: TxNo,
}

/// A process whose kill is known at a kernel (this project).
#[derive(Clone, Copy, Debug, PartialEq, Eq, Hash)]
pub(crate) struct KnownAt {
    pub(crate) kernel: Kernel,
    pub(crate) pid: u64,
}
