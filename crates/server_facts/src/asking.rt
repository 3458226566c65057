ghost use Rattle.server_facts.specs.Asking.{AskingIsAction, AskingStands};
ghost use Rattle.server_facts.specs.Steps.{AlwaysHolds, BootHas, StepKeeps};
ghost use Rattle.server_kernel.specs.Facts.{BusyAreWaitedFor, BusyIsAsking};

/// A law: every step of a server keeps which files are busy and what waits for them, whatever comes (this project).
pub fn step_keeps_asking()
    ensures { StepKeeps AskingStands }
{}

/// A law: and it is so when the cluster begins.
pub fn boot_has_asking()
    ensures { BootHas AskingStands }
{}

/// A law: so at all times a file is busy exactly where an open or a move of it is kept until callbacks are answered (Nelson, Welch and
/// Ousterhout 1988).
pub fn busy_is_asking()
    ensures { AlwaysHolds BusyIsAsking }
{}

/// A law: and requests wait for busy files alone (this project).
pub fn busy_is_waited_for()
    ensures { AlwaysHolds BusyAreWaitedFor }
{}

/// A law: and what waits in the table of opens for callbacks is what the request asks that is kept for that file (this project).
pub fn asking_is_action()
    ensures { AlwaysHolds AskingIsAction }
{}
