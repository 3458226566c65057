ghost use Rattle.fill_facts.specs.NoCache.{BeginsWithNoCache, ImageKeepsNoCache, NoTurnsAreInOrder, StepKeepsNoCache};

/// A law: a client whose cache has room for no block caches no file, and none of its operations fills blocks: each step of its kernel keeps
/// that, whatever it is granted (this project).
pub fn step_keeps_no_cache()
    ensures { StepKeepsNoCache }
{}

/// A law: so it is when a cluster begins whose clients have no cache.
pub fn begins_with_no_cache()
    ensures { BeginsWithNoCache }
{}

/// A law: and what a process does between two calls keeps it.
pub fn image_keeps_no_cache()
    ensures { ImageKeepsNoCache }
{}

/// A law: then the first of those that fill would do so and all others wait for their turn, since there are none.
pub fn no_turns_are_in_order()
    ensures { NoTurnsAreInOrder }
{}
