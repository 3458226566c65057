/// How a call of the program ended. The numbers are the program's exit statuses (this project).
#[derive(Clone, Copy)]
pub(crate) enum Status {
    /// 0: a picture was written.
    Drawn,
    /// 1: there is no picture of what was read; a line that says why was written.
    Refused,
    /// 1: more bytes came than may be read.
    TooLong,
    /// 2: the words ask for nothing that there is.
    Usage,
    /// 3: the source failed.
    ReadFault,
    /// 6: memory was wanting; nothing was written.
    NoMemory,
    /// 7: the sink failed; a part of what was due was written.
    WriteFault,
}

impl Status {
    /// The exit status.
    pub(crate) fn number(self) -> u8 {
        match self {
            Status::Drawn => 0,
            Status::Refused | Status::TooLong => 1,
            Status::Usage => 2,
            Status::ReadFault => 3,
            Status::NoMemory => 6,
            Status::WriteFault => 7,
        }
    }
}
