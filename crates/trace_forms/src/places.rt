ghost use Rattle.std.specs.Prelude.{◌≡◌};
ghost use Rattle.trace_forms.specs.Opens.{mode_number};

use sprite_ids::{FileId, Kernel, Mode, Pid, StreamNo};

/// A kernel to which a request of that number was sent (this project).
#[derive(Clone, Copy, Debug, PartialEq, Eq, Hash)]
pub(crate) struct Receiver {
    pub(crate) tx: u32,
    pub(crate) to: Kernel,
}

/// A process that was frozen at a kernel (Douglis and Ousterhout 1991).
#[derive(Clone, Copy, Debug, PartialEq, Eq, Hash)]
pub(crate) struct FrozenAt {
    pub(crate) kernel: Kernel,
    pub(crate) pid: Pid,
}

/// A file, and the kernel for which it was granted or opened (Nelson, Welch and Ousterhout 1988).
#[derive(Clone, Copy, Debug)]
pub(crate) struct FileFor {
    pub(crate) file: FileId,
    pub(crate) to: Kernel,
}

/// A stream of a file that was opened with the mode of that number (this project).
#[derive(Clone, Copy, Debug, PartialEq, Eq, Hash)]
pub(crate) struct OpenedAs {
    pub(crate) file: FileId,
    pub(crate) stream: StreamNo,
    pub(crate) mode: u8,
}

/// A stream of a file that a kernel has open, with the mode of that number (this project).
#[derive(Clone, Copy, Debug, PartialEq, Eq, Hash)]
pub struct OpenAt {
    pub file: FileId,
    pub stream: StreamNo,
    pub kernel: Kernel,
    pub mode: u8,
}

/// That stream of the file, open at that kernel with that mode.
pub fn open_at(file: &FileId, stream: &StreamNo, kernel: Kernel, mode: Mode) -> OpenAt
    ensures { result ≡ record { file = file.now; stream = stream.now; kernel = kernel; mode = mode_number mode } }
{
    OpenAt {
        file: *file,
        stream: *stream,
        kernel,
        mode: mode_number(mode),
    }
}

/// A mode's number.
pub(crate) fn mode_number(mode: Mode) -> u8
    ensures { result ≡ mode_number mode }
{
    match mode {
        Mode::Read => 0,
        Mode::Write => 1,
        Mode::Both => 2,
    }
}
