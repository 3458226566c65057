ghost use Rattle.std.specs.Prelude.{◌≡◌, ◌≤◌, ◌<◌, ◌+◌, ◌%◌, ◌^◌, ◌↔◌, ℕ, List, Option, Some, length, IsTrue, IsSome, IfSome, IfOk, option_map, slice_get, slice_set, slice_index};
ghost use Rattle.byteorder.specs.Endian.{little_bytes};
ghost use Rattle.process_machine.specs.Machine.{Machine, IsPage, ArePages, register, put, at_place, with_pages};
ghost use Rattle.process_machine.specs.Memory.{page_of, with_byte, with_bytes};
ghost use Rattle.process_machine.specs.Arguments.{argument, arguments};
ghost use Rattle.process_machine.specs.Replies.{three};
ghost use Rattle.process_machine.specs.Fresh.{fresh_machine, with_texts, zero_pages};

use crate::arguments::Arguments;
use crate::instruction::Operand;
use crate::memory;
use crate::memory::{put_byte, put_bytes, put_word};
use crate::program::{Program, Text};
use crate::register::Register;
use sprite_ids::{Bytes, Copying, Items, NoMemory};
use std::alloc::Global;
use std::marker::Model;

/// The image of a process: the number of its program, its counter, its eight registers and its 1 to 8 pages of 4,096
/// bytes, each present or away (this project). Contracts see it as a record of these.
#[derive(Debug, PartialEq, Eq, Drop)]
pub struct Image {
    program: u8,
    counter: u16,
    registers: [u64; 8],
    pages: Items<Option<Bytes>>,
}

impl Model for Image {
    ghost use Rattle.process_machine.specs.Machine.{Machine, ArePages};

    ghost Value = { Machine };

    ghost view = { λ image. record { number = image.program; counter = image.counter; registers = image.registers; pages = image.pages } };

    ghost invariant = { λ image. ArePages image.pages };

    ghost inverse = { λ machine. record { program = machine.number; counter = machine.counter; registers = machine.registers; pages = machine.pages } };
}

impl Image {
    /// An image of these parts; None exactly where the pages are not 1 to 8, each away or of 4,096 bytes.
    pub fn of_parts(
        program: u8,
        counter: u16,
        registers: [u64; 8],
        pages: Vec<Option<Bytes>>,
    ) -> Option<Image>
        ensures some { IsSome result ↔ ArePages pages.items }
        ensures value { IfSome result (λ image. image ≡ record { number = program; counter = counter; registers = registers; pages = pages.items }) }
    {
        if are_pages(&pages) {
            Some(Image {
                program,
                counter,
                registers,
                pages: Items::of_vec(pages),
            })
        } else {
            None
        }
    }

    /// The number of the program that it runs.
    pub fn program_number(&self) -> u8
        ensures { result ≡ self.now.number }
    {
        self.program
    }

    /// The place of the instruction that is next.
    pub fn counter(&self) -> u16
        ensures { result ≡ self.now.counter }
    {
        self.counter
    }

    /// The registers 0 to 7.
    pub fn registers(&self) -> [u64; 8]
        ensures { result ≡ self.now.registers }
    {
        self.registers
    }

    /// How many pages it has, present or away: 1 to 8.
    pub fn page_count(&self) -> u8
        ensures value { result ≡ length self.now.pages }
        ensures pages { ArePages self.now.pages }
    {
        self.pages.len() as u8
    }

    /// A page's bytes, 4,096 of them; None exactly where the page is away or isn't one of the image's.
    pub fn page(&self, page: u8) -> Option<&[u8]>
        ensures value { option_map (λ bytes. bytes.now) result ≡ page_of self.now.pages page }
        ensures whole { IfSome result (λ bytes. length bytes.now ≡ 4096) }
    {
        match memory::page(self.pages.as_slice(), page as u64) {
            None => None,
            Some(bytes) => Some(bytes.as_slice()),
        }
    }

    /// Puts a page there, or takes it away, and hands back what was there.
    pub fn set_page(&mut self, page: u8, bytes: Option<Bytes>) -> Option<Bytes>
        requires page { page < length self.old.pages }
        requires bytes { IsPage bytes }
        ensures image { self.new ≡ record self.old { pages = slice_set self.old.pages page bytes } }
        ensures value { slice_get self.old.pages page ≡ Some result }
    {
        self.pages.replace(page as usize, bytes)
    }

    /// The image with which a process of that program begins: zeros, but for the program's texts and the argument, which
    /// register 1 holds. The one error is want of memory.
    pub fn fresh(alloc: Global, program: &Program, arg: u64) -> Result<Image, NoMemory>
        ensures { IfOk result (λ image. image ≡ fresh_machine program.now arg) }
    {
        let mut pages = empty_pages(alloc, program.pages.count())?;
        put_texts(&mut pages, program.texts.as_slice());
        Ok(Image {
            program: program.number,
            counter: 0,
            registers: [0, arg, 0, 0, 0, 0, 0, 0],
            pages,
        })
    }

    // What a register holds.
    pub(crate) fn value(&self, at: Register) -> u64
        ensures { result ≡ register self.now at }
    {
        self.registers[at.number() as usize]
    }

    // Puts a value into a register and goes on to the next instruction.
    pub(crate) fn put(&mut self, at: Register, value: u64)
        requires { self.old.counter < 65535 }
        ensures { self.new ≡ put self.old at value }
    {
        self.registers[at.number() as usize] = value;
        self.counter += 1;
    }

    // Goes on at that instruction.
    pub(crate) fn jump(&mut self, place: u16)
        ensures { self.new ≡ at_place self.old place }
    {
        self.counter = place;
    }

    // The pages.
    pub(crate) fn pages(&self) -> &[Option<Bytes>]
        ensures value { result.now ≡ self.now.pages }
        ensures pages { ArePages self.now.pages }
    {
        self.pages.as_slice()
    }

    // Puts a byte at an address and goes on to the next instruction.
    pub(crate) fn put_byte(&mut self, address: u64, byte: u8)
        requires { self.old.counter < 65535 }
        ensures { self.new ≡ with_pages self.old (with_byte self.old.pages address byte) }
    {
        put_byte(&mut self.pages, address, byte);
        self.counter += 1;
    }

    // Puts eight bytes from an address on, the lowest first, and goes on to the next instruction.
    pub(crate) fn put_word(&mut self, address: u64, word: u64)
        requires { self.old.counter < 65535 }
        ensures { self.new ≡ with_pages self.old (with_bytes self.old.pages address (little_bytes 8 word)) }
    {
        put_word(&mut self.pages, address, word);
        self.counter += 1;
    }

    // An argument of a system call: its operand, or else the register of its place.
    fn argument(&self, place: usize, operand: &Option<Operand>) -> u64
        requires { place < 8 }
        ensures { result ≡ argument self.now place operand.now }
    {
        match operand {
            None => self.registers[place],
            Some(Operand::Register(at)) => self.value(*at),
            Some(Operand::Number(number)) => *number,
        }
    }

    // The four arguments that a system call can have.
    pub(crate) fn arguments(&self, operands: &[Option<Operand>; 4]) -> Arguments
        ensures { result ≡ arguments self.now operands.now }
    {
        Arguments {
            first: self.argument(1, &operands[0]),
            second: self.argument(2, &operands[1]),
            third: self.argument(3, &operands[2]),
            fourth: self.argument(4, &operands[3]),
        }
    }

    // Puts an answer into registers 0, 1 and 2 and into the pages, and goes on to the next instruction.
    pub(crate) fn answer(&mut self, values: [u64; 3], address: u64, bytes: &[u8])
        requires { self.old.counter < 65535 }
        ensures { self.new ≡ record self.old { counter = self.old.counter + 1; registers = three self.old.registers (slice_index values 0) (slice_index values 1) (slice_index values 2); pages = with_bytes self.old.pages address bytes.now } }
    {
        put_bytes(&mut self.pages, address, bytes);
        self.registers[0] = values[0];
        self.registers[1] = values[1];
        self.registers[2] = values[2];
        self.counter += 1;
    }
}

// Whether these are 1 to 8 pages, each away or of 4,096 bytes.
fn are_pages(pages: &[Option<Bytes>]) -> bool
    ensures { IsTrue result ↔ ArePages pages.now }
{
    1 <= pages.len() && pages.len() <= 8 && pages.iter().all(is_page)
}

fn is_page(page: &Option<Bytes>) -> bool
    ensures { IsTrue result ↔ IsPage page.now }
{
    match page {
        None => true,
        Some(bytes) => bytes.len() == 4096,
    }
}

// Pages of zeros.
fn empty_pages(alloc: Global, count: u8) -> Result<Items<Option<Bytes>>, NoMemory>
    requires { (1 ≤ count) × (count ≤ 8) }
    ensures value { IfOk result (λ pages. pages ≡ zero_pages count) }
    ensures pages { IfOk result (λ pages. ArePages pages) }
{
    let mut pages = Items::new(alloc);
    for _ in 0..count {
        let page = Bytes::of_slice(alloc, &[0; 4096])?;
        pages.push(Some(page))?;
    }
    Ok(pages)
}

// Puts texts into the pages, each over those before it.
fn put_texts(pages: &mut Items<Option<Bytes>>, texts: &[Text])
    requires { ArePages pages.old }
    ensures value { pages.new ≡ with_texts pages.old texts.now }
    ensures stay { ArePages pages.new }
{
    for text in texts {
        put_bytes(pages, text.address, text.bytes.as_slice());
    }
}

impl Copying for Image {
    fn copy(&self, alloc: Global) -> Result<Image, NoMemory> {
        Ok(Image {
            program: self.program,
            counter: self.counter,
            registers: self.registers,
            pages: self.pages.copy(alloc)?,
        })
    }
}
