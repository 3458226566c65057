ghost use Rattle.std.specs.Prelude.{◌≡◌, ◌≤◌, ◌<◌, ◌↔◌, ◌∷◌, ◌++◌, [], ℕ, List, IsTrue, IsSome, IfSome, IfOk, OnOk, OnErr, length, slice_get, option_copied};

use crate::instruction::Instruction;
use sprite_ids::{Bytes, Copying, Items, NoMemory};
use std::alloc::Global;
use std::marker::Model;

/// How many pages of 4,096 bytes a program asks for: 1 to 8 (this project).
#[derive(Clone, Copy, Debug, PartialEq, Eq, PartialOrd, Ord, Hash)]
pub struct PageCount {
    count: u8,
}

impl Model for PageCount {
    ghost use Rattle.std.specs.Prelude.{ℕ, ◌≤◌};

    ghost Value = { ℕ };

    ghost view = { λ pages. pages.count };

    ghost invariant = { λ pages. (1 ≤ pages.count) × (pages.count ≤ 8) };

    ghost inverse = { λ count. record { count = count } };
}

impl PageCount {
    /// That many pages; None exactly where the number is 0 or over 8.
    pub fn new(count: u8) -> Option<PageCount>
        ensures some { IsSome result ↔ ((1 ≤ count) × (count ≤ 8)) }
        ensures value { IfSome result (λ pages. pages ≡ count) }
    {
        if 1 <= count && count <= 8 {
            Some(PageCount { count })
        } else {
            None
        }
    }

    /// How many pages, from 1 to 8.
    pub fn count(self) -> u8
        ensures value { result ≡ self }
        ensures range { (1 ≤ result) × (result ≤ 8) }
    {
        self.count
    }
}

impl Copying for PageCount {
    fn copy(&self, _alloc: Global) -> Result<PageCount, NoMemory> {
        Ok(*self)
    }
}

/// Bytes that a fresh image of a program holds from an address on. A later text overwrites an earlier one; bytes outside
/// the pages are left out.
#[derive(Debug, PartialEq, Eq, Drop)]
pub struct Text {
    pub address: u64,
    pub bytes: Bytes,
}

impl Copying for Text {
    fn copy(&self, alloc: Global) -> Result<Text, NoMemory> {
        Ok(Text {
            address: self.address,
            bytes: self.bytes.copy(alloc)?,
        })
    }
}

/// The instructions of a program, at most 512. Contracts see them as a list.
#[derive(Debug, PartialEq, Eq, Drop)]
pub struct Code {
    items: Items<Instruction>,
}

impl Model for Code {
    ghost use Rattle.std.specs.Prelude.{List, length, ◌≤◌};
    ghost use Rattle.process_machine.specs.declared.instruction.Instruction.{Instruction};

    ghost Value = { List Instruction };

    ghost view = { λ code. code.items };

    ghost invariant = { λ code. length code.items ≤ 512 };

    ghost inverse = { λ items. record { items = items } };
}

impl Code {
    /// The instructions of the vector; None exactly where they are over 512, and the vector is then dropped.
    pub fn of_vec(items: Vec<Instruction>) -> Option<Code>
        ensures some { IsSome result ↔ (length items.items ≤ 512) }
        ensures value { IfSome result (λ code. code ≡ items.items) }
    {
        if items.len() <= 512 {
            Some(Code {
                items: Items::of_vec(items),
            })
        } else {
            None
        }
    }

    /// No instructions.
    pub fn new(alloc: Global) -> Code
        ensures { result ≡ [] }
    {
        Code {
            items: Items::new(alloc),
        }
    }

    /// Whether there is room for no further instruction: there are 512.
    pub fn is_full(&self) -> bool
        ensures { IsTrue result ↔ (length self.now ≡ 512) }
    {
        self.items.len() == 512
    }

    /// Puts an instruction at the end. After want of memory, the one error, the code is as before.
    pub fn push(&mut self, instruction: Instruction) -> Result<(), NoMemory>
        requires { length self.old < 512 }
        ensures ok { OnOk result (self.new ≡ self.old ++ instruction ∷ []) }
        ensures err { OnErr result (self.new ≡ self.old) }
    {
        self.items.append(&[instruction])
    }

    /// The instructions as a slice.
    pub fn as_slice(&self) -> &[Instruction]
        ensures value { result.now ≡ self.now }
        ensures length { length self.now ≤ 512 }
    {
        self.items.as_slice()
    }

    /// How many instructions there are, from 0 to 512.
    pub fn len(&self) -> usize
        ensures value { result ≡ length self.now }
        ensures range { result ≤ 512 }
    {
        self.items.len()
    }
}

impl Copying for Code {
    fn copy(&self, alloc: Global) -> Result<Code, NoMemory> {
        Ok(Code {
            items: self.items.copy(alloc)?,
        })
    }
}

/// A program (this project).
#[derive(Debug, PartialEq, Eq, Drop)]
pub struct Program {
    /// Its place among the programs of the cluster file, from 1.
    pub number: u8,
    /// The pages of its images.
    pub pages: PageCount,
    /// What a fresh image holds, in the order of the program's text.
    pub texts: Items<Text>,
    pub code: Code,
}

impl Copying for Program {
    fn copy(&self, alloc: Global) -> Result<Program, NoMemory> {
        Ok(Program {
            number: self.number,
            pages: self.pages,
            texts: self.texts.copy(alloc)?,
            code: self.code.copy(alloc)?,
        })
    }
}
