ghost use Rattle.std.specs.Prelude.{◌≡◌, IfOk};

use link_plan::Fate;
use sprite_ids::{Bytes, Items, Kernel, NoMemory};
use std::alloc::Global;
use std::marker::Model;

/// The text of a program. Contracts see it as its bytes.
#[derive(Debug, Drop)]
pub struct ProgramText {
    text: String,
}

impl Model for ProgramText {
    ghost use Rattle.std.specs.Prelude.{List, ℕ, string_bytes};

    ghost Value = { List ℕ };

    ghost view = { λ program. string_bytes program.text };
}

impl ProgramText {
    /// A copy of the text. The one error is want of memory.
    pub fn of_str(alloc: Global, text: &str) -> Result<ProgramText, NoMemory>
        ensures { IfOk result (λ copy. copy ≡ text.now) }
    {
        Ok(ProgramText {
            text: String::from_str(alloc, text)?,
        })
    }

    /// The text.
    pub fn as_str(&self) -> &str
        ensures { result.now ≡ self.now }
    {
        self.text.as_str()
    }
}

/// A kernel as a cluster file writes it. A client serves nothing.
#[derive(Debug, Drop)]
pub struct KernelRow {
    /// Kernels are numbered from 1 in file order.
    pub kernel: Kernel,
    pub name: Bytes,
    pub serves: Items<Bytes>,
}

/// A program as a cluster file writes it.
#[derive(Debug, Drop)]
pub struct ProgramRow {
    /// Programs are numbered from 1 in file order.
    pub number: u8,
    pub name: Bytes,
    pub text: ProgramText,
}

/// A start as a cluster file writes it.
#[derive(Debug, Drop)]
pub struct StartRow {
    pub host: Bytes,
    pub program: Bytes,
    pub arg: u64,
}

/// A file as a cluster file writes it.
#[derive(Debug, Drop)]
pub struct FileRow {
    pub path: Bytes,
    pub text: Bytes,
    /// How often the text stands in the file.
    pub repeat: u32,
    /// How many bytes that makes.
    pub size: u32,
    pub append: bool,
}

/// A fault of the link as a cluster file writes it.
#[derive(Debug, Drop)]
pub struct LinkRow {
    pub from: Bytes,
    pub to: Bytes,
    pub first: u32,
    pub every: u32,
    pub count: u32,
    pub fate: Fate,
}

/// An eviction as a cluster file writes it.
#[derive(Debug, Drop)]
pub struct EvictRow {
    pub host: Bytes,
    pub after: u32,
}

/// What a cluster file writes, each number within its limits.
#[derive(Debug, Drop)]
pub struct Rows {
    pub version: u8,
    pub budget: u32,
    pub cache: u16,
    pub kernels: Items<KernelRow>,
    pub programs: Items<ProgramRow>,
    pub starts: Items<StartRow>,
    pub files: Items<FileRow>,
    pub links: Items<LinkRow>,
    pub evicts: Items<EvictRow>,
}
