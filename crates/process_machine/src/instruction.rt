use crate::register::Register;
use sprite_ids::{Copying, NoMemory};
use std::alloc::Global;

/// An argument of a system call, as an instruction gives it.
#[derive(Clone, Copy, Debug, PartialEq, Eq, Hash)]
pub enum Operand {
    /// What the register holds.
    Register(Register),
    Number(u64),
}

/// The name of a system call. What each call does, and what its arguments mean, is told at `Call`.
#[derive(Clone, Copy, Debug, PartialEq, Eq, Hash)]
pub enum SyscallName {
    Print,
    Exit,
    Getpid,
    Getppid,
    Host,
    Tick,
    Fork,
    Exec,
    Wait,
    Kill,
    Open,
    Close,
    Dup,
    Read,
    Write,
    Seek,
    Size,
    Sync,
    Stat,
    Mkdir,
    Rmdir,
    Unlink,
    Rename,
    List,
    Chdir,
    Migrate,
    PdMake,
    PdGet,
    PdPut,
    Ioctl,
    Rexec,
}

/// One instruction (this project). Registers are named first to last, the one that changes first. Each instruction but
/// a jump and `Sys` moves the counter on by one. The counter counts instructions from 0.
#[derive(Clone, Copy, Debug, PartialEq, Eq, Hash)]
pub enum Instruction {
    /// Puts the number into the register.
    Set(Register, u64),
    /// Copies the second register into the first.
    Mov(Register, Register),
    /// Adds the second register to the first, modulo 2^64.
    Add(Register, Register),
    /// Takes the second register from the first, modulo 2^64.
    Sub(Register, Register),
    /// Multiplies the first register by the second, modulo 2^64.
    Mul(Register, Register),
    /// Adds the number to the register, modulo 2^64.
    Addi(Register, u64),
    /// Divides the first register by the second, rounding down. A divisor of 0 is a bad step.
    Div(Register, Register),
    /// Puts the rest of that division into the first register. A divisor of 0 is a bad step.
    Mod(Register, Register),
    /// Loads into the first register the byte at the address that the second holds.
    Ldb(Register, Register),
    /// Stores at the address that the first register holds the low byte of the second.
    Stb(Register, Register),
    /// Loads eight bytes, the lowest first.
    Ldw(Register, Register),
    /// Stores eight bytes, the lowest first.
    Stw(Register, Register),
    /// Goes on at that instruction.
    Jmp(u16),
    /// Goes on there where the two registers are equal.
    Jeq(Register, Register, u16),
    /// Goes on there where the two registers differ.
    Jne(Register, Register, u16),
    /// Goes on there where the first register is less than the second, both unsigned.
    Jlt(Register, Register, u16),
    /// A system call. Its i-th argument, from 1 on, is the i-th operand, or register i where there is none.
    Sys {
        name: SyscallName,
        operands: [Option<Operand>; 4],
    },
}

impl Copying for Instruction {
    fn copy(&self, _alloc: Global) -> Result<Instruction, NoMemory> {
        Ok(*self)
    }
}
