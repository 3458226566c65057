ghost use Rattle.std.specs.Prelude.{◌≡◌, IfOk};
ghost use Rattle.program_text.specs.Words.{words_of};
ghost use Rattle.program_text.specs.Steps.{sys_of, step_of, jump_of, of_registers, of_two, branch_named, branch_of};

use super::calls::call_in;
use super::names::Name;
use super::operand::{operands, register};
use super::words::{is_blank, next_word};
use process_machine::{Instruction, Register};
use sprite_ids::NoMemory;
use std::alloc::Global;
use text_lines::number;

/// When a jump goes to its label.
#[derive(Clone, Copy, Debug, PartialEq, Eq)]
pub enum Jump {
    Always,
    /// Where the two registers are equal.
    Equal(Register, Register),
    /// Where they differ.
    Different(Register, Register),
    /// Where the first is less, both unsigned.
    Less(Register, Register),
}

/// An instruction as its line writes it.
#[derive(Debug, Drop)]
pub enum Step {
    Plain(Instruction),
    /// A jump to the instruction behind the label.
    ToLabel { jump: Jump, label: Name },
}

/// The instruction that a line writes by its first word and what stands behind it; None exactly where it writes none.
/// The one error is want of memory.
pub fn read_step(
    alloc: Global,
    version: u8,
    name: &[u8],
    rest: &[u8],
) -> Result<Option<Step>, NoMemory>
    ensures { IfOk result (λ read. read ≡ step_of version name.now (words_of rest.now)) }
{
    if name == b"sys".as_slice() {
        return Ok(sys_step(version, rest));
    }
    let Some((first, rest)) = next_word(rest) else {
        return Ok(None);
    };
    let Some((second, rest)) = next_word(rest) else {
        return jump_step(alloc, name, first);
    };
    let Some((third, rest)) = next_word(rest) else {
        return Ok(two_word_step(name, first, second));
    };
    if !is_blank(rest) {
        return Ok(None);
    }
    branch_step(alloc, name, first, second, third)
}

/// A system call: what stands behind `sys`.
fn sys_step(version: u8, rest: &[u8]) -> Option<Step>
    ensures { result ≡ sys_of version (words_of rest.now) }
{
    let (word, rest) = next_word(rest)?;
    let name = call_in(version, word)?;
    let operands = operands(rest)?;
    Some(Step::Plain(Instruction::Sys { name, operands }))
}

/// A jump with no condition.
fn jump_step(alloc: Global, name: &[u8], label: &[u8]) -> Result<Option<Step>, NoMemory>
    ensures { IfOk result (λ read. read ≡ jump_of name.now label.now) }
{
    if name != b"jmp".as_slice() {
        return Ok(None);
    }
    Ok(Some(Step::ToLabel {
        jump: Jump::Always,
        label: Name::of_slice(alloc, label)?,
    }))
}

/// An instruction of a register, and a register or number.
fn two_word_step(name: &[u8], first: &[u8], second: &[u8]) -> Option<Step>
    ensures { result ≡ of_two name.now first.now second.now }
{
    let register_first = register(first)?;
    if name == b"set".as_slice() {
        return Some(Step::Plain(Instruction::Set(register_first, number(second)?)));
    }
    if name == b"addi".as_slice() {
        return Some(Step::Plain(Instruction::Addi(register_first, number(second)?)));
    }
    let instruction = of_registers(name, register_first, register(second)?)?;
    Some(Step::Plain(instruction))
}

/// The instruction of that name with two registers; None exactly where there is none.
fn of_registers(name: &[u8], first: Register, second: Register) -> Option<Instruction>
    ensures { result ≡ of_registers name.now first second }
{
    match name {
        b"mov" => Some(Instruction::Mov(first, second)),
        b"add" => Some(Instruction::Add(first, second)),
        b"sub" => Some(Instruction::Sub(first, second)),
        b"mul" => Some(Instruction::Mul(first, second)),
        b"div" => Some(Instruction::Div(first, second)),
        b"mod" => Some(Instruction::Mod(first, second)),
        b"ldb" => Some(Instruction::Ldb(first, second)),
        b"stb" => Some(Instruction::Stb(first, second)),
        b"ldw" => Some(Instruction::Ldw(first, second)),
        b"stw" => Some(Instruction::Stw(first, second)),
        _ => None,
    }
}

/// A jump with a condition on two registers.
fn branch_step(
    alloc: Global,
    name: &[u8],
    first: &[u8],
    second: &[u8],
    label: &[u8],
) -> Result<Option<Step>, NoMemory>
    ensures { IfOk result (λ read. read ≡ branch_of name.now first.now second.now label.now) }
{
    let Some(register_first) = register(first) else {
        return Ok(None);
    };
    let Some(register_second) = register(second) else {
        return Ok(None);
    };
    let Some(jump) = branch_named(name, register_first, register_second) else {
        return Ok(None);
    };
    Ok(Some(Step::ToLabel {
        jump,
        label: Name::of_slice(alloc, label)?,
    }))
}

/// The condition of the jump of that name; None exactly where there is none.
fn branch_named(name: &[u8], first: Register, second: Register) -> Option<Jump>
    ensures { result ≡ branch_named name.now first second }
{
    match name {
        b"jeq" => Some(Jump::Equal(first, second)),
        b"jne" => Some(Jump::Different(first, second)),
        b"jlt" => Some(Jump::Less(first, second)),
        _ => None,
    }
}
