ghost use Rattle.std.specs.Prelude.{◌<◌, ◌≤◌};

mod answers;
mod calls;
mod images;
mod refusals;
mod steps;

use process_machine::{
    BurstEnd, Code, Image, Instruction, Operand, PageCount, Program, Register, SyscallName, burst,
};
use sprite_ids::{Bytes, Items, NoMemory};
use std::alloc::Global;
use std::process::Abort;

const MAX: u64 = 18446744073709551615;

fn register(number: u8) -> Register
    requires { number < 8 }
{
    match Register::new(number) {
        Some(register) => register,
        None => unreachable!(),
    }
}

fn bytes(alloc: Global, text: &[u8]) -> Result<Bytes, NoMemory> {
    Ok(Bytes::of_slice(alloc, text)?)
}

// A program without texts.
fn coded(alloc: Global, code: &[Instruction]) -> Result<Program, NoMemory> {
    let Some(pages) = PageCount::new(1) else {
        return Err(NoMemory);
    };
    let Some(code) = Code::of_vec(Vec::from_slice(alloc, code)?) else {
        return Err(NoMemory);
    };
    Ok(Program {
        number: 1,
        pages,
        texts: Items::new(alloc),
        code,
    })
}

// A page that begins with `abcdefgh`.
fn lettered(alloc: Global) -> Result<Bytes, NoMemory> {
    let mut page = bytes(alloc, b"abcdefgh")?;
    page.append(&[b'-'; 4088])?;
    Ok(page)
}

// A page that is filled with the letter, one that begins with `abcdefgh` for `*`, and none for `-`.
fn page(alloc: Global, letter: u8) -> Result<Option<Bytes>, NoMemory> {
    match letter {
        b'-' => Ok(None),
        b'*' => Ok(Some(lettered(alloc)?)),
        _ => Ok(Some(bytes(alloc, &[letter; 4096])?)),
    }
}

fn pages(alloc: Global, letters: &[u8]) -> Result<Vec<Option<Bytes>>, NoMemory> {
    let mut pages = Vec::new(alloc);
    for letter in letters {
        pages.push(page(alloc, *letter)?)?;
    }
    Ok(pages)
}

// An image at instruction 0 with a page for each letter.
fn image(alloc: Global, registers: [u64; 8], letters: &[u8]) -> Result<Image, NoMemory> {
    Image::of_parts(1, 0, registers, pages(alloc, letters)?).ok_or(NoMemory)
}

// A program, and an image of it.
#[derive(Drop)]
struct Machine {
    program: Program,
    image: Image,
}

// A program of that code, and an image at its first instruction.
fn loaded(
    alloc: Global,
    code: &[Instruction],
    registers: [u64; 8],
    letters: &[u8],
) -> Result<Machine, NoMemory> {
    let program = coded(alloc, code)?;
    let image = image(alloc, registers, letters)?;
    Ok(Machine { program, image })
}

// A row of a table: a machine, and how it goes on.
trait Row {
    fn load(&self, alloc: Global) -> Result<Machine, NoMemory>;
    // Whether it goes on as the row says.
    fn goes(&self, alloc: Global, machine: &mut Machine) -> bool;
}

fn holds<R: Row>(alloc: Global, row: &R) -> bool {
    match row.load(alloc) {
        Ok(mut machine) => row.goes(alloc, &mut machine),
        Err(_) => false,
    }
}

// The place of the first row that doesn't hold.
fn first_other<R: Row>(alloc: Global, rows: &[R]) -> Option<usize> {
    for (place, row) in rows.iter().enumerate() {
        if !holds(alloc, row) {
            return Some(place);
        }
    }
    None
}

// Asserts that no row is another, and tells the place of the one that is.
fn is_none(rt: &impl Abort, other: Option<usize>) {
    assert_eq!(rt; other, None);
}

// Asserts that all rows hold; where they don't, the place of the first one that doesn't is told.
fn all_hold<R: Row>(rt: &impl Abort, alloc: Global, rows: &[R]) {
    is_none(rt, first_other(alloc, rows));
}

// A burst of at most that many instructions, 1 to 10,000.
fn run(machine: &mut Machine, limit: u32) -> (u32, BurstEnd)
    requires { (1 ≤ limit) × (limit ≤ 10000) }
{
    burst(&machine.program, &mut machine.image, limit)
}

// A text at an address.
#[derive(Clone, Copy)]
struct Lying<'a>(usize, &'a [u8]);

// The byte at that address, where the text lies over pages that are filled with the letter.
fn byte_at(letter: u8, text: Lying, address: usize) -> u8 {
    match text.1.get(address.wrapping_sub(text.0)) {
        Some(byte) => *byte,
        None => letter,
    }
}

// Whether these are the bytes of a page from that address on, where the text lies over pages that are filled with the letter.
fn are_filled(bytes: &[u8], from: usize, letter: u8, text: Lying) -> bool {
    for (place, byte) in bytes.iter().enumerate() {
        if *byte != byte_at(letter, text, from.saturating_add(place)) {
            return false;
        }
    }
    bytes.len() == 4096
}

// Whether the first two pages are filled with these letters, but for the text.
fn has_text(image: &Image, letters: [u8; 2], text: Lying) -> bool {
    let (Some(first), Some(second)) = (image.page(0), image.page(1)) else {
        return false;
    };
    are_filled(first, 0, letters[0], text) && are_filled(second, 4096, letters[1], text)
}

// Whether the page is there and filled with the letter.
fn is_filled(image: &Image, page: u8, letter: u8) -> bool {
    match image.page(page) {
        Some(bytes) => are_filled(bytes, 0, letter, Lying(0, b"")),
        None => false,
    }
}

// A system call with numbers for all its arguments.
fn sys(name: SyscallName, arguments: [u64; 4]) -> Instruction {
    let [first, second, third, fourth] = arguments;
    Instruction::Sys {
        name,
        operands: [
            Some(Operand::Number(first)),
            Some(Operand::Number(second)),
            Some(Operand::Number(third)),
            Some(Operand::Number(fourth)),
        ],
    }
}
