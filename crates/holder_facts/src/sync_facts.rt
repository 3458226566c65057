ghost use Rattle.holder_facts.specs.SyncFacts.{BeginsWithSyncFacts, FileStepKeepsSyncFacts, ImageKeepsSyncFacts, StepKeepsSyncFacts};

/// A law: a client's kernel begins without operations, so no sync looks at its blocks between two steps: each waits for the answer to a
/// write-back (this project).
pub fn begins_with_sync_facts()
    ensures { BeginsWithSyncFacts }
{}

/// A law: each step of the files' side keeps it.
pub fn file_step_keeps_sync_facts()
    ensures { FileStepKeepsSyncFacts }
{}

/// A law: each step of the whole kernel does, its rounds included, whatever comes.
pub fn step_keeps_sync_facts()
    ensures { StepKeepsSyncFacts }
{}

/// A law: and so does what a process does between two calls.
pub fn image_keeps_sync_facts()
    ensures { ImageKeepsSyncFacts }
{}
