ghost use Rattle.client_facts.specs.GoingOn.{GoingOnKeeps, StepKeepsRest, TurnsAreEnough};

/// A law: where a process has at most one operation and one turn to fill blocks, and a close at most 16 descriptors, the turns of
/// `go_on` are enough: nobody is left who was woken and could go on.
pub fn turns_are_enough()
    ensures { TurnsAreEnough }
{}

/// A law: `go_on` keeps this, and that nobody stands in a lock's queue twice.
pub fn going_on_keeps()
    ensures { GoingOnKeeps }
{}

/// A law: each step of the files' side keeps it, and leaves nobody who could go on, where a process that comes to a call has no
/// operation then.
pub fn step_keeps_rest()
    ensures { StepKeepsRest }
{}
