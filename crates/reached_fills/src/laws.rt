ghost use Rattle.reached_fills.specs.Fills.{FillsStayInOrder, OperationsStayShort};

use link_plan::Link;

/// A law: no operation on files of a client of a reached cluster moves more bytes than a program's call may (this project).
pub fn operations_stay_short<L: Link>()
    ensures { OperationsStayShort L.faults L.asked }
{}

/// A law: in each cluster that a run reaches, the first of those operations of each client that need blocks fills: it waits for room or for
/// a block, and all others wait for their turn (this project). A lawful description gives its clients a cache of eight blocks or more, of
/// which one operation needs five at most, or none, with which no operation fills.
pub fn fills_stay_in_order<L: Link>()
    ensures { FillsStayInOrder L.faults L.asked }
{}
