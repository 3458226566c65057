ghost use Rattle.lock_facts.specs.WaitFacts.{BeginsWithWaitFacts, FileStepKeepsWaitFacts, ImageKeepsWaitFacts};

/// A law: a client's kernel begins without operations, so each on a file's data is at a descriptor that leads to its stream, who waits for
/// a lock stands in its queue, and the stream table is one (this project).
pub fn begins_with_wait_facts()
    ensures { BeginsWithWaitFacts }
{}

/// A law: each step of the files' side keeps it.
pub fn file_step_keeps_wait_facts()
    ensures { FileStepKeepsWaitFacts }
{}

/// A law: and so does what a process does between two calls.
pub fn image_keeps_wait_facts()
    ensures { ImageKeepsWaitFacts }
{}
