ghost use Rattle.lock_facts.specs.LockSteps.{StepKeepsLockFacts, StepKeepsWaitFacts};
ghost use Rattle.lock_facts.specs.TurnFacts.{BeginsWithTurnFacts, ImageKeepsTurnFacts, StepKeepsTurnFacts};

/// A law: each step of the whole kernel keeps the facts of locks and turns, its rounds included, whatever comes (this project).
pub fn step_keeps_lock_facts()
    ensures { StepKeepsLockFacts }
{}

/// A law: and those of who waits for a lock.
pub fn step_keeps_wait_facts()
    ensures { StepKeepsWaitFacts }
{}

/// A law: and the order in which operations fill blocks: who stands among those that fill needs blocks, and all but the first wait for
/// their turn (this project).
pub fn step_keeps_turn_facts()
    ensures { StepKeepsTurnFacts }
{}

/// A law: so it is when the cluster begins.
pub fn begins_with_turn_facts()
    ensures { BeginsWithTurnFacts }
{}

/// A law: and what a process does between two calls keeps it.
pub fn image_keeps_turn_facts()
    ensures { ImageKeepsTurnFacts }
{}
