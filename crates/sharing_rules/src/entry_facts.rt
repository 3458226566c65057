use sprite_ids::FileId;

/// What the entry of a record does to files, by the one-kernel Unix before and behind it (this project).
#[derive(Clone, Copy, Debug, PartialEq, Eq)]
pub struct EntryFacts {
    /// Of a whole reading, writing or asking for the size, which enters with a value at its process's own kernel: the bytes it uses.
    pub local: Option<LocalUse>,
    /// Whether it is an open that makes a stream of a file, and truncates.
    pub truncates: bool,
}

/// A range of a file's bytes that a call uses, the file as its server names it.
#[derive(Clone, Copy, Debug, PartialEq, Eq)]
pub struct LocalUse {
    pub file: FileId,
    /// Where the range begins, in bytes from the file's start.
    pub from: u64,
    /// How many bytes it has; none where the size is asked for.
    pub length: u64,
}
