ghost use Rattle.move_facts.specs.MoveFacts.{BeginsWithMoveFacts, ImageKeepsMoveFacts, StepKeepsMoveFacts};

/// A law: a client's kernel begins with no process that leaves, and without streams, so the streams of each that leaves move in turn, and
/// who has the lock of a stream has an operation that has it (this project).
pub fn begins_with_move_facts()
    ensures { BeginsWithMoveFacts }
{}

/// A law: each step of the whole kernel keeps it that can take what comes, its rounds included.
pub fn step_keeps_move_facts()
    ensures { StepKeepsMoveFacts }
{}

/// A law: and so does what a process does between two calls.
pub fn image_keeps_move_facts()
    ensures { ImageKeepsMoveFacts }
{}
