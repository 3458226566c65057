use sprite_ids::{BlockNo, Bytes, Kernel, Mode, Pid, StreamNo};

/// A step of one file: what a client does with it, or what comes to whom it is for.
#[derive(Debug, PartialEq, Eq, Drop)]
pub enum FileStep {
    /// A process opens a new stream.
    Opening {
        pid: Pid,
        number: u32,
        kernel: Kernel,
        stream: StreamNo,
        mode: Mode,
        /// Whether the file is emptied.
        truncate: bool,
    },
    /// The last reference to the stream at the kernel is closed.
    Closing {
        kernel: Kernel,
        stream: StreamNo,
    },
    /// The stream moves with a process (Douglis and Ousterhout 1991).
    Moving {
        stream: StreamNo,
        from: Kernel,
        to: Kernel,
        /// Whether references stay at the source; the stream is then shared.
        kept: bool,
    },
    /// A process reads as many bytes from there on.
    Reading {
        pid: Pid,
        number: u32,
        kernel: Kernel,
        stream: StreamNo,
        from: u32,
        length: u32,
    },
    /// A process writes the bytes from there on.
    Writing {
        pid: Pid,
        number: u32,
        kernel: Kernel,
        stream: StreamNo,
        from: u32,
        bytes: Bytes,
    },
    /// A process writes the bytes at the file's end.
    Append {
        pid: Pid,
        number: u32,
        kernel: Kernel,
        stream: StreamNo,
        bytes: Bytes,
    },
    /// A client sends a dirty block to the server, or drops a clean one.
    WritingBack {
        kernel: Kernel,
        block: BlockNo,
    },
    /// The call's request or reply comes to its receiver, whichever is next; a move's third one brings the stream and its
    /// grant to the target.
    Delivering {
        call: u32,
    },
    /// The call is sent again, which changes nothing.
    Expiring {
        call: u32,
    },
}
