ghost use Rattle.std.specs.Prelude.{◌≡◌, ◌↔◌, ◌<◌, ◌≤◌, ◌+◌, [], Some, IsTrue, IsErr, IfOk, OnErr, length, take, vec_capacity};
ghost use Rattle.std.specs.Io.{WritesAtMost};
ghost use Rattle.std.specs.Io.KnownBytes.{WriteAppends};
ghost use Rattle.sprite_bytes.specs.Counts.{Rose};
ghost use Rattle.sprite_bytes.specs.Store.{Store, next_refused, taken_count, after_taking, after_refusal};

use crate::calls::Calls;
use crate::failed::Failed;
use crate::sink::Sink;
use sprite_ids::NoMemory;
use std::alloc::Global;
use std::marker::Model;

/// A sink in memory, some of whose writes fail. It tells what it holds.
///
/// Writes are counted from 1. One whose number is listed fails, raises the count of faults by one and moves nothing;
/// once the count stands at `u64::MAX` it doesn't fail for that. A write at full room fails as well, whatever its
/// number, and raises the count unless that stands at `u64::MAX` (this project).
#[derive(Debug, Drop)]
pub struct MemSink {
    held: Vec<u8>,
    room: usize,
    piece: usize,
    calls: Calls,
}

impl Model for MemSink {
    ghost Value = { Store };

    ghost view = { λ s. record { held = s.held.items; room = s.room; piece = s.piece; calls = s.calls } };

    ghost invariant = { λ s. (length s.held.items ≤ s.room) × (s.room ≤ vec_capacity s.held) × (1 ≤ s.piece) };
}

impl MemSink {
    /// An empty sink with room for `room` bytes, which takes at most `piece` bytes, at least 1, per write, and whose
    /// writes of the listed numbers fail. All its memory is taken here; the one error is want of memory.
    pub fn new(
        alloc: Global,
        room: usize,
        piece: usize,
        failing: Vec<u64>,
    ) -> Result<MemSink, NoMemory>
        requires { 1 ≤ piece }
        ensures { IfOk result (λ sink. sink ≡ record {
          held = [];
          room = room;
          piece = piece;
          calls = record { failing = failing.items; made = 0; faults = 0 };
        }) }
    {
        Ok(MemSink {
            held: Vec::with_capacity(alloc, room)?,
            room,
            piece,
            calls: Calls::new(failing),
        })
    }

    /// Whether the next write fails: it is listed, or the room is full.
    fn is_refused(&self) -> bool
        ensures { result ≡ next_refused self.now }
    {
        self.calls.next_fails() || self.room <= self.held.len()
    }

    /// Takes the piece, for which there is room.
    fn take(&mut self, piece: &[u8])
        requires { length self.old.held + length piece.now ≤ self.old.room }
        ensures { self.new ≡ after_taking self.old piece.now }
    {
        self.calls.pass();
        match self.held.extend_from_slice(piece) {
            Ok(()) => {}
            Err(_) => unreachable!(),
        }
    }

    /// What was written so far.
    pub fn written(&self) -> &[u8]
        ensures { result.now ≡ self.now.held }
    {
        self.held.as_slice()
    }

    /// What was written, as a vector.
    pub fn into_vec(self) -> Vec<u8>
        ensures { result.items ≡ self.held }
    {
        self.held
    }
}

impl Sink for MemSink {
    ghost held = { λ store. Some store.held };

    ghost faults = { λ store. store.calls.faults };

    fn write(&mut self, piece: &[u8]) -> Result<usize, Failed>
        ensures bound { WritesAtMost result piece.now }
        ensures appends { WriteAppends (Some self.old.held) (Some self.new.held) result piece.now }
        ensures takes { 0 < length piece.now → IfOk result (λ count. 0 < count) }
        ensures later { self.old.calls.faults ≤ self.new.calls.faults }
        ensures failed { OnErr result (Rose self.old.calls.faults self.new.calls.faults) }
        ensures fails { IsErr result ↔ IsTrue (next_refused self.old) }
        ensures count { IfOk result (λ count. count ≡ taken_count self.old (length piece.now)) }
        ensures ok { IfOk result (λ count. self.new ≡ after_taking self.old (take count piece.now)) }
        ensures err { OnErr result (self.new ≡ after_refusal self.old) }
    {
        if self.is_refused() {
            self.calls.fail();
            return Err(Failed);
        }
        let count = piece.len().min(self.piece).min(self.room - self.held.len());
        self.take(&piece[..count]);
        Ok(count)
    }

    fn faults(&self) -> u64 {
        self.calls.faults
    }
}
