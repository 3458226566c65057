ghost use Rattle.lock_holders.specs.HolderFacts.{BeginsWithHolderFacts, ImageKeepsHolderFacts, StepKeepsHolderFacts};

/// A law: a client's kernel begins without streams, so who has the lock of one has an operation that has it (this project).
pub fn begins_with_holder_facts()
    ensures { BeginsWithHolderFacts }
{}

/// A law: each step of the whole kernel keeps it that can take what comes, beside the facts of locks, queues and turns, its rounds included.
pub fn step_keeps_holder_facts()
    ensures { StepKeepsHolderFacts }
{}

/// A law: and so does what a process does between two calls.
pub fn image_keeps_holder_facts()
    ensures { ImageKeepsHolderFacts }
{}
