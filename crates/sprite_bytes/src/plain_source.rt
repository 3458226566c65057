ghost use Rattle.std.specs.Prelude.{◌≡◌, ◌≤◌, ◌++◌, List, ℕ, Some, Ok, IfOk, length, min, take, drop};
ghost use Rattle.std.specs.Io.{ReadsAtMost};
ghost use Rattle.std.specs.Io.KnownBytes.{ReadConsumes};

use crate::failed::Failed;
use crate::source::Source;
use std::marker::Model;

/// A source in memory that never fails. Contracts see it as the bytes that are left (this project).
#[derive(Debug, Drop)]
pub struct PlainSource {
    bytes: Vec<u8>,
    at: usize,
}

impl Model for PlainSource {
    ghost Value = { List ℕ };

    ghost view = { λ s. drop s.at s.bytes.items };

    ghost invariant = { λ s. s.at ≤ length s.bytes.items };
}

impl PlainSource {
    /// A source of those bytes.
    pub fn new(bytes: Vec<u8>) -> PlainSource
        ensures { result ≡ bytes.items }
    {
        PlainSource { bytes, at: 0 }
    }

    /// Gives the first bytes that are left into the front of the buffer, at most `most`, and says how many.
    pub(crate) fn give(&mut self, most: usize, buf: &mut [u8]) -> usize
        ensures count { result ≡ min (min (length buf.old) most) (length self.old) }
        ensures given { self.old ≡ take result buf.new ++ self.new }
        ensures left { self.new ≡ drop result self.old }
    {
        let left = &self.bytes[self.at..];
        let count = buf.len().min(most).min(left.len());
        buf[..count].copy_from_slice(&left[..count]);
        self.at += count;
        count
    }
}

impl Source for PlainSource {
    ghost left = { λ bytes. Some bytes };

    ghost faults = { λ bytes. 0 };

    fn read(&mut self, buf: &mut [u8]) -> Result<usize, Failed>
        ensures bound { ReadsAtMost result buf.new }
        ensures takes { ReadConsumes (Some self.old) (Some self.new) result buf.new }
        ensures gives { result ≡ Ok (min (length buf.old) (length self.old)) }
        ensures left { IfOk result (λ count. self.new ≡ drop count self.old) }
    {
        Ok(self.give(buf.len(), buf))
    }

    fn faults(&self) -> u64 {
        0
    }
}
