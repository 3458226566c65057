ghost use Rattle.reached_locks.specs.Locks.{LocksStayHeld};

use link_plan::Link;

/// A law: in each reached cluster, who has the lock of a stream at a client has an operation there that has it, and a process that leaves
/// one has the descriptors of its streams until they move, one after the other (Douglis and Ousterhout 1991; this project).
pub fn locks_stay_held<L: Link>()
    ensures { LocksStayHeld L.faults L.asked }
{}
