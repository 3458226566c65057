ghost use Rattle.stalled_clusters.specs.Stalled.{StalledHasNoOperation, StalledHasOnlyWaits};

use link_plan::Link;

/// A law: where the run of a lawful description stands stalled, nothing is left at its file servers, no callback is out, and all unfinished
/// remote calls are `wait`s and asks of pseudo-devices, each kept at its client (this project).
pub fn stalled_has_only_waits<L: Link>()
    ensures { StalledHasOnlyWaits L.faults L.asked }
{}

/// A law: and no operation on files is pending at any client (this project).
pub fn stalled_has_no_operation<L: Link>()
    ensures { StalledHasNoOperation L.faults L.asked }
{}
