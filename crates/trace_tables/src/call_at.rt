ghost use Rattle.std.specs.Prelude.{◌≡◌};
ghost use Rattle.trace_tables.specs.Calls.{call_of};

use sprite_ids::Pid;
use unix_calls::About;

/// A call of a process, by its number (this project).
#[derive(Clone, Copy, Debug, PartialEq, Eq, Hash)]
pub struct CallAt {
    /// The process.
    pub pid: Pid,
    /// The call's number.
    pub number: u32,
}

/// The call for whose sake a packet goes (this project).
pub fn call_of(about: &About) -> CallAt
    ensures { result ≡ call_of about.now }
{
    CallAt {
        pid: about.pid,
        number: about.number,
    }
}
