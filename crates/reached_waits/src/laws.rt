ghost use Rattle.reached_waits.specs.Waits.{OperationsStayWaiting};

use link_plan::Link;

/// A law: in each reached cluster, each process has at most one operation on files at a client, which waits for something (this project): no
/// sync looks at its blocks; a close wants a lock or an answer; what waits for anything but a lock has that of its stream; who waits for one
/// stands once in its queue, in which nobody else stands, and that lock is another's; and who needs blocks has one turn to fill them. Nothing
/// could go on, and nothing is to be told.
pub fn operations_stay_waiting<L: Link>()
    ensures { OperationsStayWaiting L.faults L.asked }
{}
