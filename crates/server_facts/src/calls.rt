ghost use Rattle.server_facts.specs.Calls.{BusyIsCalled, BusyStands, CallsStand, KernelsAreCalled};
ghost use Rattle.server_facts.specs.Steps.{AlwaysHolds, BootHas, StepKeeps};

/// A law: every step of a server keeps which callbacks are out, whatever comes (this project).
pub fn step_keeps_calls()
    ensures { StepKeeps CallsStand }
{}

/// A law: and it is so when the cluster begins.
pub fn boot_has_calls()
    ensures { BootHas CallsStand }
{}

/// A law: so at all times a callback of a file is out to a kernel exactly where it is among those that have no answer (Nelson, Welch and
/// Ousterhout 1988).
pub fn calls_are_out()
    ensures { AlwaysHolds KernelsAreCalled }
{}

/// A law: every step of a server keeps that a file is busy exactly where a callback of it is out, whatever comes (this project).
pub fn step_keeps_busy()
    ensures { StepKeeps BusyStands }
{}

/// A law: and it is so when the cluster begins.
pub fn boot_has_busy()
    ensures { BootHas BusyStands }
{}

/// A law: so at all times a file is busy exactly where a callback of it is out (Nelson, Welch and Ousterhout 1988).
pub fn busy_is_called()
    ensures { AlwaysHolds BusyIsCalled }
{}
