use crate::copying::Copying;
use crate::no_memory::NoMemory;
use std::alloc::Global;

/// How often a remote call is sent before it is given up (Welch 1986; the numbers are this project's).
#[derive(Clone, Copy, Debug, PartialEq, Eq, Hash)]
pub enum Tries {
    /// Eight times: an echo or the broadcast of a prefix.
    Eight,
    /// Until it is answered.
    Always,
}

impl Copying for Tries {
    fn copy(&self, _alloc: Global) -> Result<Tries, NoMemory> {
        Ok(*self)
    }
}

/// How a process ended.
#[derive(Clone, Copy, Debug, PartialEq, Eq, Hash)]
pub enum Ending {
    /// By `exit`, with a code from 0 to 255.
    Exit(u8),
    /// By a bad step.
    Bad,
    /// By a kill.
    Killed,
}

impl Copying for Ending {
    fn copy(&self, _alloc: Global) -> Result<Ending, NoMemory> {
        Ok(*self)
    }
}

/// How a run stands.
#[derive(Clone, Copy, Debug, PartialEq, Eq, Hash)]
pub enum Finish {
    /// Memory was wanting in a step.
    OutOfMemory,
    /// Every process has ended.
    AllEnded,
    /// The budget is spent and a process lives.
    Budget,
    /// A process lives, and nothing can happen any more.
    Stalled,
    /// None of these.
    Running,
}

impl Copying for Finish {
    fn copy(&self, _alloc: Global) -> Result<Finish, NoMemory> {
        Ok(*self)
    }
}
