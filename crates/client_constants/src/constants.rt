ghost use Rattle.client_constants.specs.Constants.{BeginsKnowing, ImageKeepsKnowing, StepKeepsKnowing};

/// A law: a client's kernel begins with its number, the kernels and programs of its cluster, the server that keeps pages, and as the
/// home of its processes (this project).
pub fn begins_knowing()
    ensures { BeginsKnowing }
{}

/// A law: each step of it, whatever comes, leaves these.
pub fn step_keeps_knowing()
    ensures { StepKeepsKnowing }
{}

/// A law: and so does what a process does between two calls.
pub fn image_keeps_knowing()
    ensures { ImageKeepsKnowing }
{}
