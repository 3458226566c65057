use sprite_ids::{Kernel, Pid};

/// A call whose request was taken at a kernel (this project).
#[derive(Clone, Copy, Debug, PartialEq, Eq, Hash)]
pub(crate) struct RequestAt {
    pub(crate) kernel: Kernel,
    pub(crate) pid: Pid,
    pub(crate) number: u32,
}
