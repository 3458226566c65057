ghost use Rattle.reached_operations.specs.Unfinished.{OwnCallsAreUnfinished, WriteBacksAreUnfinished};

use link_plan::Link;

/// A law: in each reached cluster, each remote call for which an operation of a client waits that is its own is unfinished, so that its reply
/// wasn't handed out yet; it is this client's, and asks what the operation sent (this project).
pub fn own_calls_are_unfinished<L: Link>()
    ensures { OwnCallsAreUnfinished L.faults L.asked }
{}

/// A law: and so is each write-back that is out.
pub fn write_backs_are_unfinished<L: Link>()
    ensures { WriteBacksAreUnfinished L.faults L.asked }
{}
