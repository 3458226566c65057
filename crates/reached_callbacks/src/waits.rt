ghost use Rattle.reached_callbacks.specs.Waits.{OnlyWaitsAreLeft};

use link_plan::Link;

/// A law: where a reached cluster of a lawful description can't go on, nothing is left at its servers, and of all remote calls only `wait`s
/// and asks of pseudo-devices are unfinished, each kept at its client (Nelson, Welch and Ousterhout 1988; Welch and Ousterhout 1988; this
/// project).
pub fn only_waits_are_left<L: Link>()
    ensures { OnlyWaitsAreLeft L.faults L.asked }
{}
