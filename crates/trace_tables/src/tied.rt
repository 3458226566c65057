use sprite_ids::{FileId, StreamNo};

/// The file and the stream behind a descriptor, as the file's server names them (this project).
#[derive(Clone, Copy, Debug, PartialEq, Eq)]
pub struct Tied {
    pub file: FileId,
    pub stream: StreamNo,
}
