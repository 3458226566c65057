ghost use Rattle.file_facts.specs.CallFacts.{BeginsWithCallFacts, FileStepKeepsCallFacts, GrowingKeepsCallFacts, ImageKeepsCallFacts};

/// A law: a client's kernel begins without remote calls, so each that an operation waits for is kept, once, and has a lower number than
/// the next one, and each write-back that one waits for has no answer yet (this project).
pub fn begins_with_call_facts()
    ensures { BeginsWithCallFacts }
{}

/// A law: this stays so where the next call has a higher number.
pub fn growing_keeps_call_facts()
    ensures { GrowingKeepsCallFacts }
{}

/// A law: each step of the files' side keeps it, with the number of the next call that the step leaves, where an answer is of the kind
/// that its operation takes, and none but broadcasts and signs of life are given up.
pub fn file_step_keeps_call_facts()
    ensures { FileStepKeepsCallFacts }
{}

/// A law: and so does what a process does between two calls.
pub fn image_keeps_call_facts()
    ensures { ImageKeepsCallFacts }
{}
