ghost use Rattle.std.specs.Prelude.{◌≡◌, ◌≤◌, ◌<◌, ◌/◌, ◌%◌, Some};
ghost use Rattle.process_machine.specs.Steps.{step_of, done, divided, jumped, told, Kept};
ghost use Rattle.process_machine.specs.Machine.{register, put};
ghost use Rattle.process_machine.specs.Runs.{ahead, EndsBy};

use crate::image::Image;
use crate::instruction::{Instruction, Operand, SyscallName};
use crate::memory::{Access, byte_access, byte_at, word_access, word_at};
use crate::parts::{first_away, parts_of, refusal};
use crate::program::Program;
use crate::register::Register;

/// Why a burst ended.
#[derive(Clone, Copy, Debug, PartialEq, Eq)]
pub enum BurstEnd {
    /// A system call is next.
    Call,
    /// A bad step is next: a divisor of 0, a byte outside the pages, or a counter past the last instruction.
    BadStep,
    /// As many instructions were done as were asked for, whatever is next.
    Limit,
    /// The next instruction touches pages that are away; this is the first of them.
    PageNeeded(u8),
}

/// What became of one step.
#[derive(Clone, Copy, Debug, PartialEq, Eq)]
pub enum Stepped {
    /// It is done.
    Moved,
    /// It is a system call.
    Call,
    /// It is bad.
    BadStep,
    /// It touches pages that are away; this is the first of them.
    PageNeeded(u8),
}

/// Runs the image up to its next system call or bad step, but does at most `limit` instructions, 1 to 10,000.
///
/// Answers how many were done, and why no more: `Limit` exactly where as many were done as were asked for. It takes no
/// memory. A system call is also held up by the absent pages of the parts that it names, unless it is refused for its
/// arguments.
pub fn burst(program: &Program, image: &mut Image, limit: u32) -> (u32, BurstEnd)
    requires { (1 ≤ limit) × (limit ≤ 10000) }
    ensures moved { ahead program.now image.old result.0 ≡ Some image.new }
    ensures count { result.0 ≤ limit }
    ensures why { EndsBy program.now image.new result.0 limit result.1 }
{
    for count in 0..limit {
        match step(program, image) {
            Stepped::Moved => {}
            Stepped::Call => return (count, BurstEnd::Call),
            Stepped::BadStep => return (count, BurstEnd::BadStep),
            Stepped::PageNeeded(page) => return (count, BurstEnd::PageNeeded(page)),
        }
    }
    (limit, BurstEnd::Limit)
}

// One step.
fn step(program: &Program, image: &mut Image) -> Stepped
    ensures step { step_of program.now image.old ≡ told result image.new }
    ensures stays { Kept result image.old image.new }
{
    let code = program.code.as_slice();
    let place = image.counter() as usize;
    if place < code.len() {
        follow(&code[place], image)
    } else {
        Stepped::BadStep
    }
}

// One instruction.
fn follow(instruction: &Instruction, image: &mut Image) -> Stepped
    requires { image.old.counter < 65535 }
    ensures step { done instruction.now image.old ≡ told result image.new }
    ensures stays { Kept result image.old image.new }
{
    match instruction {
        Instruction::Set(to, number) => {
            image.put(*to, *number);
            Stepped::Moved
        }
        Instruction::Mov(to, from) => {
            image.put(*to, image.value(*from));
            Stepped::Moved
        }
        Instruction::Add(to, from) => {
            image.put(*to, image.value(*to).wrapping_add(image.value(*from)));
            Stepped::Moved
        }
        Instruction::Sub(to, from) => {
            image.put(*to, image.value(*to).wrapping_sub(image.value(*from)));
            Stepped::Moved
        }
        Instruction::Mul(to, from) => {
            image.put(*to, image.value(*to).wrapping_mul(image.value(*from)));
            Stepped::Moved
        }
        Instruction::Addi(to, number) => {
            image.put(*to, image.value(*to).wrapping_add(*number));
            Stepped::Moved
        }
        Instruction::Div(to, from) => divide(image, *to, *from),
        Instruction::Mod(to, from) => divide_for_rest(image, *to, *from),
        Instruction::Ldb(to, address) => load_byte(image, *to, *address),
        Instruction::Stb(address, from) => store_byte(image, *address, *from),
        Instruction::Ldw(to, address) => load_word(image, *to, *address),
        Instruction::Stw(address, from) => store_word(image, *address, *from),
        Instruction::Jmp(place) => {
            image.jump(*place);
            Stepped::Moved
        }
        Instruction::Jeq(a, b, place) => {
            let holds = image.value(*a) == image.value(*b);
            jump_if(image, holds, *place)
        }
        Instruction::Jne(a, b, place) => {
            let holds = image.value(*a) != image.value(*b);
            jump_if(image, holds, *place)
        }
        Instruction::Jlt(a, b, place) => {
            let holds = image.value(*a) < image.value(*b);
            jump_if(image, holds, *place)
        }
        Instruction::Sys { name, operands } => at_call(image, *name, operands),
    }
}

// Puts the quotient there, unless the divisor is 0.
fn divide(image: &mut Image, to: Register, from: Register) -> Stepped
    requires { image.old.counter < 65535 }
    ensures step { divided (register image.old from) (put image.old to (register image.old to / register image.old from)) ≡ told result image.new }
    ensures stays { Kept result image.old image.new }
{
    let divisor = image.value(from);
    if divisor == 0 {
        return Stepped::BadStep;
    }
    image.put(to, image.value(to) / divisor);
    Stepped::Moved
}

// Puts the rest there, unless the divisor is 0.
fn divide_for_rest(image: &mut Image, to: Register, from: Register) -> Stepped
    requires { image.old.counter < 65535 }
    ensures step { divided (register image.old from) (put image.old to (register image.old to % register image.old from)) ≡ told result image.new }
    ensures stays { Kept result image.old image.new }
{
    let divisor = image.value(from);
    if divisor == 0 {
        return Stepped::BadStep;
    }
    image.put(to, image.value(to) % divisor);
    Stepped::Moved
}

// Loads the byte at the address that a register holds.
fn load_byte(image: &mut Image, to: Register, from: Register) -> Stepped
    requires { image.old.counter < 65535 }
    ensures step { done (Instruction.Ldb to from) image.old ≡ told result image.new }
    ensures stays { Kept result image.old image.new }
{
    let address = image.value(from);
    match byte_access(image.pages(), address) {
        Access::Present => {
            let byte = byte_at(image.pages(), address);
            image.put(to, byte as u64);
            Stepped::Moved
        }
        Access::Outside => Stepped::BadStep,
        Access::Away(page) => Stepped::PageNeeded(page),
    }
}

// Stores a register's low byte at the address that another holds.
fn store_byte(image: &mut Image, to: Register, from: Register) -> Stepped
    requires { image.old.counter < 65535 }
    ensures step { done (Instruction.Stb to from) image.old ≡ told result image.new }
    ensures stays { Kept result image.old image.new }
{
    let address = image.value(to);
    match byte_access(image.pages(), address) {
        Access::Present => {
            let byte = (image.value(from) % 256) as u8;
            image.put_byte(address, byte);
            Stepped::Moved
        }
        Access::Outside => Stepped::BadStep,
        Access::Away(page) => Stepped::PageNeeded(page),
    }
}

// Loads the eight bytes from the address on that a register holds.
fn load_word(image: &mut Image, to: Register, from: Register) -> Stepped
    requires { image.old.counter < 65535 }
    ensures step { done (Instruction.Ldw to from) image.old ≡ told result image.new }
    ensures stays { Kept result image.old image.new }
{
    let address = image.value(from);
    match word_access(image.pages(), address) {
        Access::Present => {
            let word = word_at(image.pages(), address);
            image.put(to, word);
            Stepped::Moved
        }
        Access::Outside => Stepped::BadStep,
        Access::Away(page) => Stepped::PageNeeded(page),
    }
}

// Stores a register's eight bytes from the address on that another holds.
fn store_word(image: &mut Image, to: Register, from: Register) -> Stepped
    requires { image.old.counter < 65535 }
    ensures step { done (Instruction.Stw to from) image.old ≡ told result image.new }
    ensures stays { Kept result image.old image.new }
{
    let address = image.value(to);
    match word_access(image.pages(), address) {
        Access::Present => {
            let word = image.value(from);
            image.put_word(address, word);
            Stepped::Moved
        }
        Access::Outside => Stepped::BadStep,
        Access::Away(page) => Stepped::PageNeeded(page),
    }
}

// Goes on at that instruction, or at the next.
fn jump_if(image: &mut Image, holds: bool, place: u16) -> Stepped
    requires { image.old.counter < 65535 }
    ensures step { jumped holds image.old place ≡ told result image.new }
    ensures stays { Kept result image.old image.new }
{
    if holds {
        image.jump(place);
    } else {
        image.jump(image.counter() + 1);
    }
    Stepped::Moved
}

// Whether the pages that the call touches are there.
fn at_call(image: &Image, name: SyscallName, operands: &[Option<Operand>; 4]) -> Stepped
    ensures step { done (Instruction.Sys name operands.now) image.now ≡ told result image.now }
    ensures calls { result ≡ Stepped.Moved → ⊥ }
{
    let parts = parts_of(name, image.arguments(operands));
    if refusal(image.pages(), parts).is_some() {
        return Stepped::Call;
    }
    match first_away(image.pages(), parts) {
        None => Stepped::Call,
        Some(page) => Stepped::PageNeeded(page),
    }
}
