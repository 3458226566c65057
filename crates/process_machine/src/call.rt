use sprite_ids::{Bytes, Copying, Errno, NoMemory};
use std::alloc::Global;

/// A system call with its values: texts and data as bytes, read from the caller's pages (this project).
///
/// Descriptors, flags, lengths and the like are any 64-bit numbers; whether a number is lawful is the call's own matter.
#[derive(Debug, PartialEq, Eq, Drop)]
pub enum Call {
    /// Writes the bytes, at most 16,384, to the console.
    Print { bytes: Bytes },
    /// Ends the process; the code is 0 to 255.
    Exit { code: u64 },
    /// The process's number.
    Getpid,
    /// Its parent's number.
    Getppid,
    /// The name of its home kernel, in at most `max` bytes.
    Host { max: u64 },
    /// Counts up at the home kernel.
    Tick,
    /// Makes a child.
    Fork,
    /// Makes a fresh image of the program of that name.
    Exec { name: Bytes, arg: u64 },
    /// Waits for a child's end.
    Wait,
    /// Ends a process.
    Kill { pid: u64 },
    /// Opens a file or a pseudo-device.
    OpenFile { path: Bytes, flags: u64 },
    /// Closes a descriptor.
    Close { fd: u64 },
    /// Makes a second descriptor of a stream.
    Dup { fd: u64 },
    /// Reads at most `length` bytes.
    Read { fd: u64, length: u64 },
    /// Writes the bytes.
    Write { fd: u64, bytes: Bytes },
    /// Puts a stream's offset there.
    Seek { fd: u64, offset: u64 },
    /// A file's size.
    Size { fd: u64 },
    /// Writes a file's delayed blocks back.
    Sync { fd: u64 },
    /// What a path names.
    Stat { path: Bytes },
    /// Makes a directory.
    Mkdir { path: Bytes },
    /// Takes an empty directory away.
    Rmdir { path: Bytes },
    /// Takes a name away.
    Unlink { path: Bytes },
    /// Gives a file or directory another name.
    Rename { old: Bytes, new: Bytes },
    /// A directory's names, in at most `max` bytes.
    List { path: Bytes, max: u64 },
    /// Changes the working directory.
    Chdir { path: Bytes },
    /// Moves the process to the kernel of that name (Douglis and Ousterhout 1991).
    Migrate { name: Bytes },
    /// Makes a pseudo-device (Welch and Ousterhout 1988).
    PdMake { path: Bytes },
    /// Takes a pseudo-device's next ask, of at most `max` bytes.
    PdGet { fd: u64, max: u64 },
    /// Answers the ask in hand.
    PdPut { fd: u64, bytes: Bytes, errno: u64 },
    /// Hands a command to a pseudo-device's master.
    Ioctl { fd: u64, command: u64, bytes: Bytes },
    /// Makes a fresh image of the program of that name on the kernel of that name (Douglis and Ousterhout 1991).
    Rexec { name: Bytes, host: Bytes },
    /// A call whose arguments were refused before it began.
    Refused { errno: Errno },
    /// A step that no machine can do; it ends the process.
    BadStep,
}

/// The answer to a system call (this project).
#[derive(Debug, PartialEq, Eq, Drop)]
pub enum Reply {
    /// Its two values and its bytes; what a call does not give is 0, and no bytes.
    Value {
        first: u64,
        second: u64,
        bytes: Bytes,
    },
    /// A refusal.
    Error(Errno),
}

impl Copying for Call {
    fn copy(&self, alloc: Global) -> Result<Call, NoMemory> {
        Ok(match self {
            Call::Print { bytes } => Call::Print {
                bytes: bytes.copy(alloc)?,
            },
            Call::Exit { code } => Call::Exit { code: *code },
            Call::Getpid => Call::Getpid,
            Call::Getppid => Call::Getppid,
            Call::Host { max } => Call::Host { max: *max },
            Call::Tick => Call::Tick,
            Call::Fork => Call::Fork,
            Call::Exec { name, arg } => Call::Exec {
                name: name.copy(alloc)?,
                arg: *arg,
            },
            Call::Wait => Call::Wait,
            Call::Kill { pid } => Call::Kill { pid: *pid },
            Call::OpenFile { path, flags } => Call::OpenFile {
                path: path.copy(alloc)?,
                flags: *flags,
            },
            Call::Close { fd } => Call::Close { fd: *fd },
            Call::Dup { fd } => Call::Dup { fd: *fd },
            Call::Read { fd, length } => Call::Read {
                fd: *fd,
                length: *length,
            },
            Call::Write { fd, bytes } => Call::Write {
                fd: *fd,
                bytes: bytes.copy(alloc)?,
            },
            Call::Seek { fd, offset } => Call::Seek {
                fd: *fd,
                offset: *offset,
            },
            Call::Size { fd } => Call::Size { fd: *fd },
            Call::Sync { fd } => Call::Sync { fd: *fd },
            Call::Stat { path } => Call::Stat {
                path: path.copy(alloc)?,
            },
            Call::Mkdir { path } => Call::Mkdir {
                path: path.copy(alloc)?,
            },
            Call::Rmdir { path } => Call::Rmdir {
                path: path.copy(alloc)?,
            },
            Call::Unlink { path } => Call::Unlink {
                path: path.copy(alloc)?,
            },
            Call::Rename { old, new } => {
                let old = old.copy(alloc)?;
                let new = new.copy(alloc)?;
                Call::Rename { old, new }
            }
            Call::List { path, max } => Call::List {
                path: path.copy(alloc)?,
                max: *max,
            },
            Call::Chdir { path } => Call::Chdir {
                path: path.copy(alloc)?,
            },
            Call::Migrate { name } => Call::Migrate {
                name: name.copy(alloc)?,
            },
            Call::PdMake { path } => Call::PdMake {
                path: path.copy(alloc)?,
            },
            Call::PdGet { fd, max } => Call::PdGet { fd: *fd, max: *max },
            Call::PdPut { fd, bytes, errno } => Call::PdPut {
                fd: *fd,
                bytes: bytes.copy(alloc)?,
                errno: *errno,
            },
            Call::Ioctl { fd, command, bytes } => Call::Ioctl {
                fd: *fd,
                command: *command,
                bytes: bytes.copy(alloc)?,
            },
            Call::Rexec { name, host } => {
                let name = name.copy(alloc)?;
                let host = host.copy(alloc)?;
                Call::Rexec { name, host }
            }
            Call::Refused { errno } => Call::Refused { errno: *errno },
            Call::BadStep => Call::BadStep,
        })
    }
}

impl Copying for Reply {
    fn copy(&self, alloc: Global) -> Result<Reply, NoMemory> {
        match self {
            Reply::Value {
                first,
                second,
                bytes,
            } => Ok(Reply::Value {
                first: *first,
                second: *second,
                bytes: bytes.copy(alloc)?,
            }),
            Reply::Error(errno) => Ok(Reply::Error(*errno)),
        }
    }
}
