ghost use Rattle.std.specs.Prelude.{◌≡◌, ◌↔◌, ◌≤◌, ◌-◌, ◌^◌, Some, IsTrue, IsErr, IfOk, OnErr, length, drop};
ghost use Rattle.std.specs.Io.{ReadsAtMost};
ghost use Rattle.std.specs.Io.KnownBytes.{ReadConsumes};
ghost use Rattle.sprite_bytes.specs.Counts.{Rose};
ghost use Rattle.sprite_bytes.specs.Calls.{next_fails};
ghost use Rattle.sprite_bytes.specs.Feed.{Feed, given_count, after_giving, after_refusing};

use crate::calls::Calls;
use crate::failed::Failed;
use crate::plain_source::PlainSource;
use crate::source::Source;
use std::marker::Model;

/// A source in memory, some of whose reads fail. It tells what is left.
///
/// Reads are counted from 1. One whose number is listed fails, raises the count of faults by one and moves nothing;
/// once the count stands at `u64::MAX` no read fails (this project).
#[derive(Debug, Drop)]
pub struct MemSource {
    bytes: PlainSource,
    piece: usize,
    calls: Calls,
}

impl Model for MemSource {
    ghost Value = { Feed };

    ghost view = { λ s. record { left = s.bytes; piece = s.piece; calls = s.calls } };

    ghost invariant = { λ s. 1 ≤ s.piece };
}

impl MemSource {
    /// A source of those bytes, whose reads of the listed numbers fail. A read gives as many bytes as there is room
    /// for.
    pub fn new(bytes: Vec<u8>, failing: Vec<u64>) -> MemSource
        ensures { result ≡ record {
          left = bytes.items;
          piece = 2 ^ 64 - 1;
          calls = record { failing = failing.items; made = 0; faults = 0 };
        } }
    {
        MemSource::in_pieces(bytes, usize::MAX, failing)
    }

    /// The same, but a read gives at most `piece` bytes, which is at least 1.
    pub fn in_pieces(bytes: Vec<u8>, piece: usize, failing: Vec<u64>) -> MemSource
        requires { 1 ≤ piece }
        ensures { result ≡ record {
          left = bytes.items;
          piece = piece;
          calls = record { failing = failing.items; made = 0; faults = 0 };
        } }
    {
        MemSource {
            bytes: PlainSource::new(bytes),
            piece,
            calls: Calls::new(failing),
        }
    }
}

impl Source for MemSource {
    ghost left = { λ feed. Some feed.left };

    ghost faults = { λ feed. feed.calls.faults };

    fn read(&mut self, buf: &mut [u8]) -> Result<usize, Failed>
        ensures bound { ReadsAtMost result buf.new }
        ensures takes { ReadConsumes (Some self.old.left) (Some self.new.left) result buf.new }
        ensures later { self.old.calls.faults ≤ self.new.calls.faults }
        ensures failed { OnErr result (Rose self.old.calls.faults self.new.calls.faults) }
        ensures fails { IsErr result ↔ IsTrue (next_fails self.old.calls) }
        ensures gives { IfOk result (λ count. count ≡ given_count self.old (length buf.old)) }
        ensures ok { IfOk result (λ count. self.new ≡ after_giving self.old count) }
        ensures err { OnErr result (self.new ≡ after_refusing self.old) }
    {
        if self.calls.next_fails() {
            self.calls.fail();
            return Err(Failed);
        }
        self.calls.pass();
        Ok(self.bytes.give(self.piece, buf))
    }

    fn faults(&self) -> u64 {
        self.calls.faults
    }
}
