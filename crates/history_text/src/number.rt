ghost use Rattle.std.specs.Prelude.{◌≡◌, ◌==◌};
ghost use Rattle.history_text.specs.Numbers.{number_from, number_of, number64, number32, number8, pid, errno};

use crate::field::Field;
use field_reader::{FieldEnd, Reader, pid_of};
use sprite_ids::{Errno, NoMemory, Pid};
use std::alloc::Global;

/// The number that the digits write in decimal; None exactly where a byte is no digit, or from 2^64 on.
fn number_from_digits(digits: &[u8]) -> Option<u64>
    ensures { result ≡ number_from 0 digits.now }
{
    let mut value = 0u64;
    for digit in digits {
        if !digit.is_ascii_digit() {
            return None;
        }
        value = value
            .checked_mul(10)?
            .checked_add(u64::from(*digit - b'0'))?;
    }
    Some(value)
}

/// The number that the word writes: digits alone, with no zero before others; None exactly where it writes none below
/// 2^64.
fn number_of(word: &[u8]) -> Option<u64>
    ensures { result ≡ number_of word.now }
{
    if word.is_empty() || (word.len() > 1 && word[0] == b'0') {
        return None;
    }
    number_from_digits(word)
}

impl Field for u64 {
    ghost format = { number64 };

    fn put(&self, alloc: Global, out: &mut Vec<u8>) -> Result<(), NoMemory> {
        let number = *self;
        let digits = format!(in alloc; "{number}")?;
        out.extend_from_slice(digits.as_bytes())?;
        Ok(())
    }

    fn read_from(_alloc: Global, from: &mut Reader) -> Result<u64, FieldEnd> {
        number_of(from.word()).ok_or(FieldEnd::NotSpelled)
    }
}

impl Field for u32 {
    ghost format = { number32 };

    fn put(&self, alloc: Global, out: &mut Vec<u8>) -> Result<(), NoMemory> {
        u64::from(*self).put(alloc, out)
    }

    fn read_from(alloc: Global, from: &mut Reader) -> Result<u32, FieldEnd> {
        let number = u64::read_from(alloc, from)?;
        u32::try_from(number).ok().ok_or(FieldEnd::NotSpelled)
    }
}

impl Field for u8 {
    ghost format = { number8 };

    fn put(&self, alloc: Global, out: &mut Vec<u8>) -> Result<(), NoMemory> {
        u64::from(*self).put(alloc, out)
    }

    fn read_from(alloc: Global, from: &mut Reader) -> Result<u8, FieldEnd> {
        let number = u64::read_from(alloc, from)?;
        u8::try_from(number).ok().ok_or(FieldEnd::NotSpelled)
    }
}

impl Field for Pid {
    ghost format = { pid };

    fn put(&self, alloc: Global, out: &mut Vec<u8>) -> Result<(), NoMemory> {
        self.number().put(alloc, out)
    }

    fn read_from(alloc: Global, from: &mut Reader) -> Result<Pid, FieldEnd> {
        let number = u32::read_from(alloc, from)?;
        pid_of(number).ok_or(FieldEnd::NotSpelled)
    }
}

impl Field for Errno {
    ghost format = { errno };

    fn put(&self, alloc: Global, out: &mut Vec<u8>) -> Result<(), NoMemory> {
        self.number().put(alloc, out)
    }

    fn read_from(alloc: Global, from: &mut Reader) -> Result<Errno, FieldEnd> {
        let number = u8::read_from(alloc, from)?;
        Errno::new(number).ok_or(FieldEnd::NotSpelled)
    }
}
