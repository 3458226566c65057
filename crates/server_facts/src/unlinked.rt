ghost use Rattle.server_facts.specs.Steps.{AlwaysHolds, BootHas, StepKeeps};
ghost use Rattle.server_facts.specs.Unlinked.{UnlinkedStand};
ghost use Rattle.server_kernel.specs.Facts.{UnlinkedAreOpen};

/// A law: every step of a server keeps how often files are named and which have no name, whatever comes (this project).
pub fn step_keeps_unlinked()
    ensures { StepKeeps UnlinkedStand }
{}

/// A law: and it is so when the cluster begins.
pub fn boot_has_unlinked()
    ensures { BootHas UnlinkedStand }
{}

/// A law: so at all times a file that has no name is there, and somebody has it open (this project).
pub fn unlinked_is_open()
    ensures { AlwaysHolds UnlinkedAreOpen }
{}
