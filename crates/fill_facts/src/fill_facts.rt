ghost use Rattle.fill_facts.specs.FillFacts.{BeginsWithFillFacts, FillsAreInOrder, ImageKeepsFillFacts, StepKeepsFillFacts};

/// A law: where a client's cache has room for eight blocks or more, it holds none twice and no more than it has room for, and the first of
/// those operations that fill blocks does so, unless it moves more bytes than a program's call may: each step of its kernel keeps that
/// (this project).
pub fn step_keeps_fill_facts()
    ensures { StepKeepsFillFacts }
{}

/// A law: so it is when a cluster begins whose caches are that large.
pub fn begins_with_fill_facts()
    ensures { BeginsWithFillFacts }
{}

/// A law: and what a process does between two calls keeps it.
pub fn image_keeps_fill_facts()
    ensures { ImageKeepsFillFacts }
{}

/// A law: then the first fills and all others wait for their turn, where no operation moves more bytes than a program's call may.
pub fn fills_are_in_order()
    ensures { FillsAreInOrder }
{}
