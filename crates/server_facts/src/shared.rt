ghost use Rattle.server_facts.specs.Shared.{HoldsWhereFit, SharedGrantsAreCounted, SharedStand, StepKeepsWhereFit};
ghost use Rattle.server_facts.specs.Steps.{BootHas};

/// A law: every step of a server keeps that the grants of shared streams are counted, where the requests that it serves fit what the
/// server keeps of their streams (this project).
pub fn step_keeps_shared()
    ensures { StepKeepsWhereFit SharedStand }
{}

/// A law: and it is so when the cluster begins.
pub fn boot_has_shared()
    ensures { BootHas SharedStand }
{}

/// A law: so while requests fit, the grants of a shared stream by its shadow are those that the table of opens has (Douglis and
/// Ousterhout 1991).
pub fn shared_is_counted()
    ensures { HoldsWhereFit SharedGrantsAreCounted }
{}
