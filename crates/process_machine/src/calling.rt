ghost use Rattle.std.specs.Prelude.{◌≡◌, ◌<◌, ◌+◌, ◌^◌, IfOk};
ghost use Rattle.process_machine.specs.Machine.{Machine, ArePages};
ghost use Rattle.process_machine.specs.Steps.{step_of, AtCall};
ghost use Rattle.process_machine.specs.Calls.{call_at, call_with, named_call};

use crate::arguments::Arguments;
use crate::call::Call;
use crate::image::Image;
use crate::instruction::{Instruction, SyscallName};
use crate::memory::bytes_at;
use crate::parts::{parts_of, refusal};
use crate::program::Program;
use sprite_ids::{Bytes, NoMemory};
use std::alloc::Global;

/// The system call at which the image stands.
///
/// It is `Refused` where a length, a text's length or an address is unlawful (in that order over all arguments): data
/// over 16,384 bytes, an ask of a pseudo-device over 16,392 and a text of none or over 255 bytes, and a part of at least
/// one byte that leaves the pages. The one error is want of memory.
pub fn call_of(alloc: Global, program: &Program, image: &Image) -> Result<Call, NoMemory>
    requires { step_of program.now image.now ≡ AtCall }
    ensures { IfOk result (λ call. call ≡ call_at program.now image.now) }
{
    let code = program.code.as_slice();
    let place = image.counter() as usize;
    if place < code.len() {
        if let Instruction::Sys { name, operands } = &code[place] {
            return call_with(alloc, *name, image.arguments(operands), image.pages());
        }
    }
    Ok(Call::BadStep)
}

// The call of that name, or its refusal.
fn call_with(
    alloc: Global,
    name: SyscallName,
    arguments: Arguments,
    pages: &[Option<Bytes>],
) -> Result<Call, NoMemory>
    requires { ArePages pages.now }
    ensures { IfOk result (λ call. call ≡ call_with name arguments pages.now) }
{
    match refusal(pages, parts_of(name, arguments)) {
        Some(errno) => Ok(Call::Refused { errno }),
        None => named_call(alloc, name, arguments, pages),
    }
}

// The call of that name, with its values read from the pages.
fn named_call(
    alloc: Global,
    name: SyscallName,
    arguments: Arguments,
    pages: &[Option<Bytes>],
) -> Result<Call, NoMemory>
    requires pages { ArePages pages.now }
    ensures { IfOk result (λ call. call ≡ named_call name arguments pages.now) }
{
    let Arguments {
        first,
        second,
        third,
        fourth,
    } = arguments;
    Ok(match name {
        SyscallName::Print => Call::Print {
            bytes: bytes_at(alloc, pages, first, second)?,
        },
        SyscallName::Exit => Call::Exit { code: first % 256 },
        SyscallName::Getpid => Call::Getpid,
        SyscallName::Getppid => Call::Getppid,
        SyscallName::Host => Call::Host { max: second },
        SyscallName::Tick => Call::Tick,
        SyscallName::Fork => Call::Fork,
        SyscallName::Exec => Call::Exec {
            name: bytes_at(alloc, pages, first, second)?,
            arg: third,
        },
        SyscallName::Wait => Call::Wait,
        SyscallName::Kill => Call::Kill { pid: first },
        SyscallName::Open => Call::OpenFile {
            path: bytes_at(alloc, pages, first, second)?,
            flags: third,
        },
        SyscallName::Close => Call::Close { fd: first },
        SyscallName::Dup => Call::Dup { fd: first },
        SyscallName::Read => Call::Read {
            fd: first,
            length: third,
        },
        SyscallName::Write => Call::Write {
            fd: first,
            bytes: bytes_at(alloc, pages, second, third)?,
        },
        SyscallName::Seek => Call::Seek {
            fd: first,
            offset: second,
        },
        SyscallName::Size => Call::Size { fd: first },
        SyscallName::Sync => Call::Sync { fd: first },
        SyscallName::Stat => Call::Stat {
            path: bytes_at(alloc, pages, first, second)?,
        },
        SyscallName::Mkdir => Call::Mkdir {
            path: bytes_at(alloc, pages, first, second)?,
        },
        SyscallName::Rmdir => Call::Rmdir {
            path: bytes_at(alloc, pages, first, second)?,
        },
        SyscallName::Unlink => Call::Unlink {
            path: bytes_at(alloc, pages, first, second)?,
        },
        SyscallName::Rename => {
            let old = bytes_at(alloc, pages, first, second)?;
            let new = bytes_at(alloc, pages, third, fourth)?;
            Call::Rename { old, new }
        }
        SyscallName::List => Call::List {
            path: bytes_at(alloc, pages, first, second)?,
            max: fourth,
        },
        SyscallName::Chdir => Call::Chdir {
            path: bytes_at(alloc, pages, first, second)?,
        },
        SyscallName::Migrate => Call::Migrate {
            name: bytes_at(alloc, pages, first, second)?,
        },
        SyscallName::PdMake => Call::PdMake {
            path: bytes_at(alloc, pages, first, second)?,
        },
        SyscallName::PdGet => Call::PdGet {
            fd: first,
            max: third,
        },
        SyscallName::PdPut => Call::PdPut {
            fd: first,
            bytes: bytes_at(alloc, pages, second, third)?,
            errno: fourth,
        },
        SyscallName::Ioctl => Call::Ioctl {
            fd: first,
            command: second,
            bytes: bytes_at(alloc, pages, third, fourth)?,
        },
        SyscallName::Rexec => {
            let name = bytes_at(alloc, pages, first, second)?;
            let host = bytes_at(alloc, pages, third, fourth)?;
            Call::Rexec { name, host }
        }
    })
}
