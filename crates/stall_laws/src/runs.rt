ghost use Rattle.stall_laws.specs.Runs.{StalledLeavesWaits, StalledStandsStill, StillCantGoOn};

use link_plan::Link;

/// A law: a reached cluster in which nothing can happen can't go on: each packet in flight goes to one of its kernels (this project).
pub fn still_cant_go_on<L: Link>()
    ensures { StillCantGoOn L.faults L.asked }
{}

/// A law: where the run of a reached cluster stands stalled, that cluster can't go on: nothing is in flight, no timer may fire, no block is
/// due, and no process can run (this project).
pub fn stalled_stands_still<L: Link>()
    ensures { StalledStandsStill L.faults L.asked }
{}

/// A law: a run of a lawful description that stands stalled has nothing left at its servers, and of all remote calls only `wait`s and asks
/// of pseudo-devices are unfinished, each kept at its client; where callbacks that are out are unfinished calls (this project).
pub fn stalled_leaves_waits<L: Link>()
    ensures { StalledLeavesWaits L.faults L.asked }
{}
