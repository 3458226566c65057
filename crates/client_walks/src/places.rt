ghost use Rattle.client_walks.specs.PlacesOnce.{BeginsWithPlaces, ImageKeepsPlaces, StepKeepsPlaces};

/// A law: each step of a client's kernel, whatever comes, keeps each process here once or leaving once, and not both, and each of
/// this home born; where a process that comes was born, and the child that an answered `fork` brings is new here (this project).
pub fn step_keeps_places()
    ensures { StepKeepsPlaces }
{}

/// A law: so it is when the cluster begins.
pub fn begins_with_places()
    ensures { BeginsWithPlaces }
{}

/// A law: and what a process does between two calls keeps it.
pub fn image_keeps_places()
    ensures { ImageKeepsPlaces }
{}
