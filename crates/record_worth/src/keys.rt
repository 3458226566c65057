use sprite_ids::{FileId, StreamNo};

/// A stream of a file (this project).
#[derive(Clone, Copy, Debug, PartialEq, Eq, Hash)]
pub(crate) struct StreamOf {
    pub(crate) file: FileId,
    pub(crate) stream: StreamNo,
}
