ghost use Rattle.std.specs.Prelude.{◌≡◌, ◌↔◌, IsTrue, List, ℕ, Option};
ghost use Rattle.process_machine.specs.Machine.{ArePages};
ghost use Rattle.process_machine.specs.Parts.{parts_of, one_part, two_parts, too_long, is_too_long, misnamed, is_misnamed, leaves_pages, touches, refusal, first_away};

use crate::arguments::Arguments;
use crate::instruction::SyscallName;
use crate::memory::{PAGE_SIZE, leaves};
use sprite_ids::{Bytes, Errno};

/// What a part of the pages serves a call for, which bounds its length.
#[derive(Clone, Copy, Debug, PartialEq, Eq)]
pub enum PartKind {
    /// A text of 1 to 255 bytes: a path or a name.
    Text,
    /// Data that goes out or room for an answer, at most 16,384 bytes.
    Data,
    /// Room for an ask of a pseudo-device, at most 16,392 bytes: its eight bytes of command or length, and data.
    Ask,
}

/// A part of the pages that a call names.
#[derive(Clone, Copy, Debug, PartialEq, Eq)]
pub struct Part {
    pub kind: PartKind,
    pub address: u64,
    pub length: u64,
}

/// The parts of the pages that a call names, at most two.
#[derive(Clone, Copy, Debug, PartialEq, Eq)]
pub struct Parts {
    pub first: Option<Part>,
    pub second: Option<Part>,
}

impl Part {
    // Data over 16,384 bytes, or an ask over 16,392.
    fn is_too_long(self) -> bool
        ensures { result ≡ is_too_long self.kind self.length }
    {
        match self.kind {
            PartKind::Text => false,
            PartKind::Data => self.length > 16384,
            PartKind::Ask => self.length > 16392,
        }
    }

    // A text of no bytes, or of over 255.
    fn is_misnamed(self) -> bool
        ensures { result ≡ is_misnamed self.kind self.length }
    {
        match self.kind {
            PartKind::Text => self.length < 1 || 255 < self.length,
            PartKind::Data => false,
            PartKind::Ask => false,
        }
    }
}

fn is_too_long(part: Option<Part>) -> bool
    ensures { result ≡ too_long part }
{
    match part {
        None => false,
        Some(part) => part.is_too_long(),
    }
}

fn is_misnamed(part: Option<Part>) -> bool
    ensures { result ≡ misnamed part }
{
    match part {
        None => false,
        Some(part) => part.is_misnamed(),
    }
}

// Whether a part of at least one byte leaves the pages.
fn leaves_pages(pages: &[Option<Bytes>], part: Option<Part>) -> bool
    requires { ArePages pages.now }
    ensures { result ≡ leaves_pages pages.now part }
{
    match part {
        None => false,
        Some(part) => 0 < part.length && leaves(pages, part.address, part.length),
    }
}

// Whether a part has a byte in that page.
fn touches(number: u8, part: Option<Part>) -> bool
    ensures { result ≡ touches number part }
{
    match part {
        None => false,
        Some(part) => {
            let start = PAGE_SIZE * number as u64;
            0 < part.length
                && part.address < start + PAGE_SIZE
                && (start < part.address || start - part.address < part.length)
        }
    }
}

/// Why a call with these parts is refused before anything else is asked of it.
///
/// The lengths of all parts come first, then the texts, then the addresses. A part of length 0 may stand anywhere.
pub fn refusal(pages: &[Option<Bytes>], parts: Parts) -> Option<Errno>
    requires { ArePages pages.now }
    ensures { result ≡ refusal pages.now parts }
{
    if is_too_long(parts.first) || is_too_long(parts.second) {
        Some(Errno::Invalid)
    } else if is_misnamed(parts.first) || is_misnamed(parts.second) {
        Some(Errno::BadName)
    } else if leaves_pages(pages, parts.first) || leaves_pages(pages, parts.second) {
        Some(Errno::BadAddress)
    } else {
        None
    }
}

/// The absent page of the lowest number that the parts touch.
pub fn first_away(pages: &[Option<Bytes>], parts: Parts) -> Option<u8>
    requires { ArePages pages.now }
    ensures { result ≡ first_away 0 pages.now parts }
{
    for (number, page) in pages.iter().enumerate() {
        let number = number as u8;
        if page.is_none() && (touches(number, parts.first) || touches(number, parts.second)) {
            return Some(number);
        }
    }
    None
}

fn one(kind: PartKind, address: u64, length: u64) -> Parts
    ensures { result ≡ one_part kind address length }
{
    Parts {
        first: Some(Part {
            kind,
            address,
            length,
        }),
        second: None,
    }
}

// A text in the first two arguments, and another part in the last two.
fn text_and(kind: PartKind, arguments: Arguments) -> Parts
    ensures { result ≡ two_parts PartKind.Text arguments.first arguments.second kind arguments.third arguments.fourth }
{
    Parts {
        first: Some(Part {
            kind: PartKind::Text,
            address: arguments.first,
            length: arguments.second,
        }),
        second: Some(Part {
            kind,
            address: arguments.third,
            length: arguments.fourth,
        }),
    }
}

/// The parts of the pages that a call of that name names.
pub fn parts_of(name: SyscallName, arguments: Arguments) -> Parts
    ensures { result ≡ parts_of name arguments }
{
    match name {
        SyscallName::Print | SyscallName::Host => {
            one(PartKind::Data, arguments.first, arguments.second)
        }
        SyscallName::Read | SyscallName::Write | SyscallName::PdPut => {
            one(PartKind::Data, arguments.second, arguments.third)
        }
        SyscallName::Ioctl => one(PartKind::Data, arguments.third, arguments.fourth),
        SyscallName::PdGet => one(PartKind::Ask, arguments.second, arguments.third),
        SyscallName::Exec
        | SyscallName::Open
        | SyscallName::Stat
        | SyscallName::Mkdir
        | SyscallName::Rmdir
        | SyscallName::Unlink
        | SyscallName::Chdir
        | SyscallName::Migrate
        | SyscallName::PdMake => one(PartKind::Text, arguments.first, arguments.second),
        SyscallName::Rename | SyscallName::Rexec => text_and(PartKind::Text, arguments),
        SyscallName::List => text_and(PartKind::Data, arguments),
        _ => Parts {
            first: None,
            second: None,
        },
    }
}
