use sprite_ids::{Kernel, Pid};

/// What a bar is of.
#[derive(Clone, Copy)]
pub enum BarKind {
    /// The followed file is cached.
    CachingOn,
    /// The followed file is used without a cache.
    CachingOff,
    /// A process on a kernel.
    Stay,
    /// A call that goes on.
    Call,
}

/// What stands along a lane from a record to a record, by their places from 0 (this project).
#[derive(Clone, Copy)]
pub struct Bar {
    pub kind: BarKind,
    pub pid: Option<Pid>,
    pub kernel: Kernel,
    /// How far its middle is from the lane's left edge, in pixels.
    pub across: u8,
    pub first: usize,
    pub last: usize,
}

/// What an arrow is of.
#[derive(Clone, Copy)]
pub enum Kind {
    Request,
    Reply,
    Lost,
    Move,
}

/// What goes from a record at a kernel to a record at another one, by their places from 0: a packet or a process (this project).
#[derive(Clone, Copy)]
pub struct Arrow {
    pub kind: Kind,
    /// A packet that was late, or comes once more.
    pub repeated: bool,
    pub pid: Option<Pid>,
    pub first: usize,
    pub source: Kernel,
    /// Where a process was in its lane and where it comes to, in pixels from the lane's left edge; a packet's are 0.
    pub start: u8,
    pub last: usize,
    pub target: Kernel,
    pub end: u8,
}
