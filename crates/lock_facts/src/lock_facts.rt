ghost use Rattle.lock_facts.specs.LockFacts.{BeginsWithLockFacts, FileStepKeepsLockFacts, ImageKeepsLockFacts};

/// A law: a client's kernel begins without operations, so what waits for anything but a lock has the lock of its stream, a lock with a
/// queue is another's, and who needs blocks has a turn to fill them (this project).
pub fn begins_with_lock_facts()
    ensures { BeginsWithLockFacts }
{}

/// A law: each step of the files' side keeps it.
pub fn file_step_keeps_lock_facts()
    ensures { FileStepKeepsLockFacts }
{}

/// A law: and so does what a process does between two calls.
pub fn image_keeps_lock_facts()
    ensures { ImageKeepsLockFacts }
{}
