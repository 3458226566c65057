use sprite_ids::{BlockNo, CopyNo, FileId, TxNo};

/// What may happen next at a kernel, apart from its processes (this project).
#[derive(Clone, Copy, Debug, PartialEq, Eq)]
pub enum Choice {
    /// The copy of a packet comes (Welch 1986).
    Deliver(CopyNo),
    /// The timer of a remote call fires (Welch 1986).
    Expire(TxNo),
    /// A dirty block that was delayed long enough is written back (Nelson, Welch and Ousterhout 1988).
    WriteBack(FileId, BlockNo),
}
