ghost use Rattle.holder_facts.specs.QueueFacts.{BeginsWithQueueFacts, ImageKeepsQueueFacts, StepKeepsQueueFacts};

/// A law: a client's kernel begins without operations, so who stands in the queue of a lock waits for that lock (this project).
pub fn begins_with_queue_facts()
    ensures { BeginsWithQueueFacts }
{}

/// A law: each step of the whole kernel keeps it, beside the facts of locks, queues and turns, its rounds included, whatever comes.
pub fn step_keeps_queue_facts()
    ensures { StepKeepsQueueFacts }
{}

/// A law: and so does what a process does between two calls.
pub fn image_keeps_queue_facts()
    ensures { ImageKeepsQueueFacts }
{}
