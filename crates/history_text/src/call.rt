ghost use Rattle.field_reader.specs.Reads.{Takes};
ghost use Rattle.history_text.specs.Formats.{row_read};
ghost use Rattle.history_text.specs.Calls.{call_format, stream_rows, path_rows, other_rows};

use crate::field::{Field, put_form, put_pair, put_triple, spaced};
use field_reader::{FieldEnd, Reader};
use process_machine::Call;
use sprite_ids::{Bytes, Errno, NoMemory};
use std::alloc::Global;

impl Field for Call {
    ghost format = { call_format };

    fn put(&self, alloc: Global, out: &mut Vec<u8>) -> Result<(), NoMemory> {
        match self {
            Call::Print { bytes } => put_form(alloc, out, b"print", bytes),
            Call::Exit { code } => put_form(alloc, out, b"exit", code),
            Call::Getpid => Ok(out.extend_from_slice(b"getpid")?),
            Call::Getppid => Ok(out.extend_from_slice(b"getppid")?),
            Call::Host { max } => put_form(alloc, out, b"host", max),
            Call::Tick => Ok(out.extend_from_slice(b"tick")?),
            Call::Fork => Ok(out.extend_from_slice(b"fork")?),
            Call::Exec { name, arg } => put_pair(alloc, out, b"exec", name, arg),
            Call::Wait => Ok(out.extend_from_slice(b"wait")?),
            Call::Kill { pid } => put_form(alloc, out, b"kill", pid),
            Call::OpenFile { path, flags } => put_pair(alloc, out, b"open", path, flags),
            Call::Close { fd } => put_form(alloc, out, b"close", fd),
            Call::Dup { fd } => put_form(alloc, out, b"dup", fd),
            Call::Read { fd, length } => put_pair(alloc, out, b"read", fd, length),
            Call::Write { fd, bytes } => put_pair(alloc, out, b"write", fd, bytes),
            Call::Seek { fd, offset } => put_pair(alloc, out, b"seek", fd, offset),
            Call::Size { fd } => put_form(alloc, out, b"size", fd),
            Call::Sync { fd } => put_form(alloc, out, b"sync", fd),
            Call::Stat { path } => put_form(alloc, out, b"stat", path),
            Call::Mkdir { path } => put_form(alloc, out, b"mkdir", path),
            Call::Rmdir { path } => put_form(alloc, out, b"rmdir", path),
            Call::Unlink { path } => put_form(alloc, out, b"unlink", path),
            Call::Rename { old, new } => put_pair(alloc, out, b"rename", old, new),
            Call::List { path, max } => put_pair(alloc, out, b"list", path, max),
            Call::Chdir { path } => put_form(alloc, out, b"chdir", path),
            Call::Migrate { name } => put_form(alloc, out, b"migrate", name),
            Call::PdMake { path } => put_form(alloc, out, b"pd_make", path),
            Call::PdGet { fd, max } => put_pair(alloc, out, b"pd_get", fd, max),
            Call::PdPut { fd, bytes, errno } => put_triple(alloc, out, b"pd_put", fd, bytes, errno),
            Call::Ioctl { fd, command, bytes } => put_triple(
                alloc, out, b"ioctl", fd, command, bytes,
            ),
            Call::Rexec { name, host } => put_pair(alloc, out, b"rexec", name, host),
            Call::Refused { errno } => put_form(alloc, out, b"refused", errno),
            Call::BadStep => Ok(out.extend_from_slice(b"bad")?),
        }
    }

    fn read_from(alloc: Global, from: &mut Reader) -> Result<Call, FieldEnd> {
        let name = from.word();
        if name == b"print".as_slice() {
            Ok(Call::Print {
                bytes: spaced::<Bytes>(alloc, from)?,
            })
        } else if name == b"exit".as_slice() {
            Ok(Call::Exit {
                code: spaced::<u64>(alloc, from)?,
            })
        } else if name == b"getpid".as_slice() {
            Ok(Call::Getpid)
        } else if name == b"getppid".as_slice() {
            Ok(Call::Getppid)
        } else if name == b"host".as_slice() {
            Ok(Call::Host {
                max: spaced::<u64>(alloc, from)?,
            })
        } else if name == b"tick".as_slice() {
            Ok(Call::Tick)
        } else if name == b"fork".as_slice() {
            Ok(Call::Fork)
        } else if name == b"exec".as_slice() {
            let (name, arg) = spaced::<(Bytes, u64)>(alloc, from)?;
            Ok(Call::Exec { name, arg })
        } else if name == b"wait".as_slice() {
            Ok(Call::Wait)
        } else if name == b"kill".as_slice() {
            Ok(Call::Kill {
                pid: spaced::<u64>(alloc, from)?,
            })
        } else {
            read_stream_call(alloc, name, from)
        }
    }
}

/// Reads the values of the call of that name, on descriptors, or of a later kind.
fn read_stream_call(alloc: Global, name: &[u8], from: &mut Reader) -> Result<Call, FieldEnd>
    ensures { Takes (row_read stream_rows name.now from.old) result from.new }
{
    if name == b"open".as_slice() {
        let (path, flags) = spaced::<(Bytes, u64)>(alloc, from)?;
        Ok(Call::OpenFile { path, flags })
    } else if name == b"close".as_slice() {
        Ok(Call::Close {
            fd: spaced::<u64>(alloc, from)?,
        })
    } else if name == b"dup".as_slice() {
        Ok(Call::Dup {
            fd: spaced::<u64>(alloc, from)?,
        })
    } else if name == b"read".as_slice() {
        let (fd, length) = spaced::<(u64, u64)>(alloc, from)?;
        Ok(Call::Read { fd, length })
    } else if name == b"write".as_slice() {
        let (fd, bytes) = spaced::<(u64, Bytes)>(alloc, from)?;
        Ok(Call::Write { fd, bytes })
    } else if name == b"seek".as_slice() {
        let (fd, offset) = spaced::<(u64, u64)>(alloc, from)?;
        Ok(Call::Seek { fd, offset })
    } else if name == b"size".as_slice() {
        Ok(Call::Size {
            fd: spaced::<u64>(alloc, from)?,
        })
    } else if name == b"sync".as_slice() {
        Ok(Call::Sync {
            fd: spaced::<u64>(alloc, from)?,
        })
    } else {
        read_path_call(alloc, name, from)
    }
}

/// Reads the values of the call of that name, on paths, or of a later kind.
fn read_path_call(alloc: Global, name: &[u8], from: &mut Reader) -> Result<Call, FieldEnd>
    ensures { Takes (row_read path_rows name.now from.old) result from.new }
{
    if name == b"stat".as_slice() {
        Ok(Call::Stat {
            path: spaced::<Bytes>(alloc, from)?,
        })
    } else if name == b"mkdir".as_slice() {
        Ok(Call::Mkdir {
            path: spaced::<Bytes>(alloc, from)?,
        })
    } else if name == b"rmdir".as_slice() {
        Ok(Call::Rmdir {
            path: spaced::<Bytes>(alloc, from)?,
        })
    } else if name == b"unlink".as_slice() {
        Ok(Call::Unlink {
            path: spaced::<Bytes>(alloc, from)?,
        })
    } else if name == b"rename".as_slice() {
        let (old, new) = spaced::<(Bytes, Bytes)>(alloc, from)?;
        Ok(Call::Rename { old, new })
    } else if name == b"list".as_slice() {
        let (path, max) = spaced::<(Bytes, u64)>(alloc, from)?;
        Ok(Call::List { path, max })
    } else if name == b"chdir".as_slice() {
        Ok(Call::Chdir {
            path: spaced::<Bytes>(alloc, from)?,
        })
    } else {
        read_other_call(alloc, name, from)
    }
}

/// Reads the values of the call of that name, that moves a process or drives a pseudo-device, or of a refused one or a bad step.
fn read_other_call(alloc: Global, name: &[u8], from: &mut Reader) -> Result<Call, FieldEnd>
    ensures { Takes (row_read other_rows name.now from.old) result from.new }
{
    if name == b"migrate".as_slice() {
        Ok(Call::Migrate {
            name: spaced::<Bytes>(alloc, from)?,
        })
    } else if name == b"pd_make".as_slice() {
        Ok(Call::PdMake {
            path: spaced::<Bytes>(alloc, from)?,
        })
    } else if name == b"pd_get".as_slice() {
        let (fd, max) = spaced::<(u64, u64)>(alloc, from)?;
        Ok(Call::PdGet { fd, max })
    } else if name == b"pd_put".as_slice() {
        let (fd, (bytes, errno)) = spaced::<(u64, (Bytes, u64))>(alloc, from)?;
        Ok(Call::PdPut { fd, bytes, errno })
    } else if name == b"ioctl".as_slice() {
        let (fd, (command, bytes)) = spaced::<(u64, (u64, Bytes))>(alloc, from)?;
        Ok(Call::Ioctl { fd, command, bytes })
    } else if name == b"rexec".as_slice() {
        let (name, host) = spaced::<(Bytes, Bytes)>(alloc, from)?;
        Ok(Call::Rexec { name, host })
    } else if name == b"refused".as_slice() {
        Ok(Call::Refused {
            errno: spaced::<Errno>(alloc, from)?,
        })
    } else if name == b"bad".as_slice() {
        Ok(Call::BadStep)
    } else {
        Err(FieldEnd::NotSpelled)
    }
}
