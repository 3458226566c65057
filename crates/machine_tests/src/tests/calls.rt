use super::{MAX, Machine, Row, all_hold, loaded, register};
use process_machine::{
    BurstEnd, Call, Instruction, Operand, Register, SyscallName, burst, call_of,
};
use sprite_ids::{Bytes, Copying, Errno, NoMemory};
use std::alloc::Global;

/// What a call is to be.
#[derive(Clone, Copy)]
pub enum Wanted {
    /// The call of that name whose arguments are 1, 2, 3 and 4, and what a copy of it is.
    Named(SyscallName),
    /// A `seek` with that descriptor and offset.
    Seek(u64, u64),
    /// A call that is refused for that, or that isn't refused.
    Refused(Option<Errno>),
}

fn is_wanted(alloc: Global, call: &Call, wanted: Wanted) -> bool {
    match wanted {
        Wanted::Named(name) => {
            name_of(call) == Some(name) && has_its_value(call) && is_copied(alloc, call)
        }
        Wanted::Seek(fd, offset) => is_seek(call, fd, offset),
        Wanted::Refused(errno) => is_refused(call, errno),
    }
}

fn tells(alloc: Global, call: Result<Call, NoMemory>, wanted: Wanted) -> bool {
    match call {
        Ok(call) => {
            let is_so = is_wanted(alloc, &call, wanted);
            drop(call);
            is_so
        }
        Err(_) => false,
    }
}

/// Whether the machine stands at a call that is as it is to be.
pub fn stands_at(alloc: Global, machine: &mut Machine, wanted: Wanted) -> bool {
    match burst(&machine.program, &mut machine.image, 1) {
        (0, BurstEnd::Call) => {
            let call = call_of(alloc, &machine.program, &machine.image);
            tells(alloc, call, wanted)
        }
        _ => false,
    }
}

fn is_text(bytes: &Bytes, text: &[u8]) -> bool {
    bytes.as_slice() == text
}

fn is_two(bytes: &Bytes) -> bool {
    is_text(bytes, b"bc")
}

fn is_three(bytes: &Bytes) -> bool {
    is_text(bytes, b"cde")
}

fn is_four(bytes: &Bytes) -> bool {
    is_text(bytes, b"defg")
}

// The call's name, if it is a call that has one.
fn name_of(call: &Call) -> Option<SyscallName> {
    match call {
        Call::Print { .. } => Some(SyscallName::Print),
        Call::Exit { .. } => Some(SyscallName::Exit),
        Call::Getpid => Some(SyscallName::Getpid),
        Call::Getppid => Some(SyscallName::Getppid),
        Call::Host { .. } => Some(SyscallName::Host),
        Call::Tick => Some(SyscallName::Tick),
        Call::Fork => Some(SyscallName::Fork),
        Call::Exec { .. } => Some(SyscallName::Exec),
        Call::Wait => Some(SyscallName::Wait),
        Call::Kill { .. } => Some(SyscallName::Kill),
        Call::OpenFile { .. } => Some(SyscallName::Open),
        Call::Close { .. } => Some(SyscallName::Close),
        Call::Dup { .. } => Some(SyscallName::Dup),
        Call::Read { .. } => Some(SyscallName::Read),
        Call::Write { .. } => Some(SyscallName::Write),
        Call::Seek { .. } => Some(SyscallName::Seek),
        Call::Size { .. } => Some(SyscallName::Size),
        Call::Sync { .. } => Some(SyscallName::Sync),
        Call::Stat { .. } => Some(SyscallName::Stat),
        Call::Mkdir { .. } => Some(SyscallName::Mkdir),
        Call::Rmdir { .. } => Some(SyscallName::Rmdir),
        Call::Unlink { .. } => Some(SyscallName::Unlink),
        Call::Rename { .. } => Some(SyscallName::Rename),
        Call::List { .. } => Some(SyscallName::List),
        Call::Chdir { .. } => Some(SyscallName::Chdir),
        Call::Migrate { .. } => Some(SyscallName::Migrate),
        Call::PdMake { .. } => Some(SyscallName::PdMake),
        Call::PdGet { .. } => Some(SyscallName::PdGet),
        Call::PdPut { .. } => Some(SyscallName::PdPut),
        Call::Ioctl { .. } => Some(SyscallName::Ioctl),
        Call::Rexec { .. } => Some(SyscallName::Rexec),
        Call::Refused { .. } | Call::BadStep => None,
    }
}

// Whether the call has the values of the arguments 1, 2, 3 and 4, in pages that begin with `abcdefgh`, if it has one value.
fn has_its_value(call: &Call) -> bool {
    match call {
        Call::Getpid | Call::Getppid | Call::Tick | Call::Fork | Call::Wait => true,
        Call::Host { max } => *max == 2,
        Call::Exit { code: number }
        | Call::Kill { pid: number }
        | Call::Close { fd: number }
        | Call::Dup { fd: number }
        | Call::Size { fd: number }
        | Call::Sync { fd: number } => *number == 1,
        Call::Print { bytes: text }
        | Call::Stat { path: text }
        | Call::Mkdir { path: text }
        | Call::Rmdir { path: text }
        | Call::Unlink { path: text }
        | Call::Chdir { path: text }
        | Call::Migrate { name: text }
        | Call::PdMake { path: text } => is_two(text),
        _ => has_its_values(call),
    }
}

// The same for the calls with several values.
fn has_its_values(call: &Call) -> bool {
    match call {
        Call::Seek { fd, offset } => (*fd, *offset) == (1, 2),
        Call::Read { fd, length } | Call::PdGet { fd, max: length } => (*fd, *length) == (1, 3),
        Call::Exec {
            name: text,
            arg: number,
        }
        | Call::OpenFile {
            path: text,
            flags: number,
        } => { is_two(text) && *number == 3 }
        Call::List { path, max } => is_two(path) && *max == 4,
        Call::Rename { old, new }
        | Call::Rexec {
            name: old,
            host: new,
        } => { is_two(old) && is_four(new) }
        Call::Write { fd, bytes } => *fd == 1 && is_three(bytes),
        Call::PdPut { fd, bytes, errno } => (*fd, *errno) == (1, 4) && is_three(bytes),
        Call::Ioctl { fd, command, bytes } => (*fd, *command) == (1, 2) && is_four(bytes),
        _ => false,
    }
}

static NAMES: [SyscallName; 31] = [
    SyscallName::Print,
    SyscallName::Exit,
    SyscallName::Getpid,
    SyscallName::Getppid,
    SyscallName::Host,
    SyscallName::Tick,
    SyscallName::Fork,
    SyscallName::Exec,
    SyscallName::Wait,
    SyscallName::Kill,
    SyscallName::Open,
    SyscallName::Close,
    SyscallName::Dup,
    SyscallName::Read,
    SyscallName::Write,
    SyscallName::Seek,
    SyscallName::Size,
    SyscallName::Sync,
    SyscallName::Stat,
    SyscallName::Mkdir,
    SyscallName::Rmdir,
    SyscallName::Unlink,
    SyscallName::Rename,
    SyscallName::List,
    SyscallName::Chdir,
    SyscallName::Migrate,
    SyscallName::PdMake,
    SyscallName::PdGet,
    SyscallName::PdPut,
    SyscallName::Ioctl,
    SyscallName::Rexec,
];

// Registers 1 to 4 hold 1 to 4, and are the call's arguments, and the page begins with `abcdefgh`.
impl Row for SyscallName {
    fn load(&self, alloc: Global) -> Result<Machine, NoMemory> {
        let call = Instruction::Sys {
            name: *self,
            operands: [None; 4],
        };
        loaded(alloc, &[call], [0, 1, 2, 3, 4, 0, 0, 0], b"*")
    }

    fn goes(&self, alloc: Global, machine: &mut Machine) -> bool {
        stands_at(alloc, machine, Wanted::Named(*self))
    }
}

fn is_copied(alloc: Global, call: &Call) -> bool {
    match call.copy(alloc) {
        Ok(copy) => {
            let is_same = copy == *call;
            drop(copy);
            is_same
        }
        Err(_) => false,
    }
}

#[test]
fn calls_have_their_values(rt: HostRuntime) {
    all_hold(&rt, rt.alloc(), &NAMES);
}

fn is_seek(call: &Call, wanted: u64, from: u64) -> bool {
    match call {
        Call::Seek { fd, offset } => *fd == wanted && *offset == from,
        _ => false,
    }
}

fn is_refused(call: &Call, wanted: Option<Errno>) -> bool {
    match call {
        Call::Refused { errno } => wanted == Some(*errno),
        _ => wanted.is_none(),
    }
}

// A `seek`, and its descriptor and offset, where register k holds 10k.
#[derive(Clone, Copy)]
struct Sought(Instruction, u64, u64);

impl Row for Sought {
    fn load(&self, alloc: Global) -> Result<Machine, NoMemory> {
        loaded(alloc, &[self.0], [0, 10, 20, 30, 40, 50, 60, 70], b"a")
    }

    fn goes(&self, alloc: Global, machine: &mut Machine) -> bool {
        stands_at(alloc, machine, Wanted::Seek(self.1, self.2))
    }
}

fn seek(operands: [Option<Operand>; 4]) -> Instruction {
    let name = SyscallName::Seek;
    Instruction::Sys { name, operands }
}

fn seek_rows(three: Register, seven: Register) -> [Sought; 4] {
    let three = Some(Operand::Register(three));
    let seven = Some(Operand::Register(seven));
    let most = Some(Operand::Number(MAX));
    let six = Some(Operand::Number(6));
    [
        Sought(seek([None, None, None, None]), 10, 20),
        Sought(seek([seven, None, None, None]), 70, 20),
        Sought(seek([most, three, None, None]), MAX, 30),
        Sought(seek([None, six, None, None]), 10, 6),
    ]
}

#[test]
fn arguments_are_operands_or_registers(rt: HostRuntime) {
    all_hold(&rt, rt.alloc(), &seek_rows(register(3), register(7)));
}
