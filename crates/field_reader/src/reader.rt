ghost use Rattle.std.specs.Prelude.{◌≡◌, ◌==◌, ◌≤◌, ◌<◌, IfNone, IfSome, drop, length, not, take};
ghost use Rattle.std.specs.List.{position_or_len};
ghost use Rattle.field_reader.specs.Reads.{Takes, sign_read, in_word, word_of, past_word};

use crate::field_end::FieldEnd;
use std::marker::Model;

/// Bytes that are read from the front. Contracts see it as the bytes that are left (this project).
#[derive(Drop)]
pub struct Reader<'a> {
    rest: &'a [u8],
}

impl<'a> Model for Reader<'a> {
    ghost use Rattle.std.specs.Prelude.{List, ℕ};

    ghost Value = { List ℕ };

    ghost view = { λ reader. reader.rest.now };
}

impl<'a> Reader<'a> {
    /// A reader of those bytes.
    pub fn new(bytes: &'a [u8]) -> Reader<'a>
        ensures { result ≡ bytes.now }
    {
        Reader { rest: bytes }
    }

    /// The bytes that are left.
    pub fn rest(&self) -> &'a [u8]
        ensures { result.now ≡ self.now }
    {
        self.rest
    }

    /// Whether no byte is left.
    pub fn is_empty(&self) -> bool
        ensures { result ≡ (length self.now == 0) }
    {
        self.rest.is_empty()
    }

    /// Goes on at those bytes.
    pub fn go_on(&mut self, rest: &'a [u8])
        ensures { self.new ≡ rest.now }
    {
        self.rest = rest;
    }

    /// The first `count` bytes that are left, which are read then; None exactly where fewer are left, and then none is
    /// read.
    pub fn front(&mut self, count: usize) -> Option<&'a [u8]>
        ensures some { IfSome result (λ front. (front.now ≡ take count self.old) × (self.new ≡ drop count self.old) × (length front.now ≡ count)) }
        ensures none { IfNone result ((length self.old < count) × (self.new ≡ self.old)) }
    {
        if self.rest.len() < count {
            return None;
        }
        let (front, rest) = self.rest.split_at(count);
        self.rest = rest;
        Some(front)
    }

    /// The word that stands at the front, which is read then; it is empty where no byte of words stands there.
    pub fn word(&mut self) -> &'a [u8]
        ensures word { result.now ≡ word_of self.old }
        ensures rest { self.new ≡ past_word self.old }
    {
        let end = word_end(self.rest);
        let (word, rest) = self.rest.split_at(end);
        self.rest = rest;
        word
    }

    /// Reads a sign at the front. NotSpelled comes exactly where another text stands there.
    pub fn sign(&mut self, sign: &[u8]) -> Result<(), FieldEnd>
        ensures { Takes (sign_read sign.now self.old) result self.new }
    {
        if !self.rest.starts_with(sign) {
            return Err(FieldEnd::NotSpelled);
        }
        self.rest = &self.rest[sign.len()..];
        Ok(())
    }
}

/// Whether the byte is one of words: a letter, a digit or `_`.
fn in_word(byte: u8) -> bool
    ensures { result ≡ in_word byte }
{
    byte.is_ascii_alphanumeric() || byte == b'_'
}

/// The place of the first byte that is in no word, or the length where there is none.
fn word_end(bytes: &[u8]) -> usize
    ensures place { result ≡ position_or_len (λ b. not (in_word b)) bytes.now }
    ensures within { result ≤ length bytes.now }
{
    for (place, byte) in bytes.iter().enumerate() {
        if !in_word(*byte) {
            return place;
        }
    }
    bytes.len()
}
