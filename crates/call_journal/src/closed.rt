use crate::trace::Trace;
use sprite_ids::Finish;
use unix_calls::Description;

/// A run that has come to its end: what was run, all that was recorded, and how it stands (this project).
#[derive(Debug, Drop)]
pub struct Closed {
    pub description: Description,
    pub trace: Trace,
    pub finish: Finish,
}
