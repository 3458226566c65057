ghost use Rattle.fill_facts.specs.ShortFacts.{BeginsShort, ImageKeepsShort, StepKeepsShort};

/// A law: no operation of a client's files' side moves more bytes than a program's call may: each step of its kernel keeps that, where a
/// call that comes is within its limits (this project).
pub fn step_keeps_short()
    ensures { StepKeepsShort }
{}

/// A law: so it is when the cluster begins.
pub fn begins_short()
    ensures { BeginsShort }
{}

/// A law: and what a process does between two calls keeps it.
pub fn image_keeps_short()
    ensures { ImageKeepsShort }
{}
