ghost use Rattle.std.specs.Prelude.{◌≡◌};
ghost use Rattle.home_table.specs.Home.{is_child, is_living, is_ended, is_unwaited, is_pending, status_of};

use sprite_ids::{Ending, Kernel, Pid};

/// How far a process has come.
#[derive(Clone, Copy, Debug, PartialEq, Eq)]
pub enum Life {
    /// It lives.
    Living {
        /// Whether a kill is pending.
        killed: bool,
    },
    /// It has ended, and no `wait` was told so.
    Ended(Ending),
    /// It has ended, and a `wait` of its parent was told so.
    Waited(Ending),
}

/// A process of this home.
#[derive(Clone, Copy, Debug, PartialEq, Eq)]
pub struct Birth {
    /// None for a process that was started when the cluster was.
    pub parent: Option<Pid>,
    /// The kernel at which the process is.
    pub place: Kernel,
    pub life: Life,
}

impl Birth {
    // Whether it is a child of that process.
    pub(crate) fn is_child(&self, parent: Pid) -> bool
        ensures { result ≡ is_child parent self.now }
    {
        match self.parent {
            Some(known) => known == parent,
            None => false,
        }
    }
}

impl Life {
    // Whether the process lives.
    pub(crate) fn is_living(self) -> bool
        ensures { result ≡ is_living self }
    {
        matches!(self, Life::Living { .. })
    }

    // Whether the process has ended, and no `wait` was told so.
    pub(crate) fn is_ended(self) -> bool
        ensures { result ≡ is_ended self }
    {
        matches!(self, Life::Ended(_))
    }

    // Whether no `wait` was told that the process has ended.
    pub(crate) fn is_unwaited(self) -> bool
        ensures { result ≡ is_unwaited self }
    {
        !matches!(self, Life::Waited(_))
    }

    // Whether the process lives and a kill is pending.
    pub(crate) fn is_pending(self) -> bool
        ensures { result ≡ is_pending self }
    {
        matches!(self, Life::Living { killed: true })
    }
}

// What a `wait` is told of an ending.
pub(crate) fn status_of(ending: Ending) -> u16
    ensures { result ≡ status_of ending }
{
    match ending {
        Ending::Exit(code) => u16::from(code),
        Ending::Bad => 256,
        Ending::Killed => 257,
    }
}
