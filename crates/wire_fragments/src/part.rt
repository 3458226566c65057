ghost use Rattle.std.specs.Prelude.{◌≡◌, ◌≤◌, ◌<◌, ◌+◌, false, not, IfOk, OnOk, OnErr, length};
ghost use Rattle.wire_fragments.specs.Gathering.{plan_in};
ghost use Rattle.wire_fragments.specs.Pieces.{empty_pieces, is_there, with_frame, written};

use crate::flags::Flags;
use crate::head::{FULL, Head};
use crate::plan::Plan;
use sprite_ids::{Bytes, NoMemory};
use std::alloc::Global;
use std::marker::Model;

/// A message of which not all frames have come. Contracts see of each frame whether it has come, and the bytes so far.
#[derive(Drop)]
pub struct Part {
    came: Flags,
    bytes: Vec<u8>,
    missing: u16,
}

impl Model for Part {
    ghost use Rattle.std.specs.Prelude.{◌≡◌, not};
    ghost use Rattle.std.specs.List.{count_by};
    ghost use Rattle.wire_fragments.specs.Pieces.{Pieces};

    ghost Value = { Pieces };

    ghost view = { λ part. record { came = part.came; bytes = part.bytes.items } };

    ghost invariant = { λ part. part.missing ≡ count_by not part.came };
}

impl Part {
    // A message of so many frames, of which none has come. There is room for all their bytes from the start.
    pub(crate) fn empty(alloc: Global, count: u16) -> Result<Part, NoMemory>
        ensures { IfOk result (λ part. part ≡ empty_pieces count) }
    {
        let came = Flags::new(alloc, count)?;
        let bytes = Vec::with_capacity(alloc, FULL * usize::from(count))?;
        Ok(Part {
            came,
            bytes,
            missing: count,
        })
    }

    // What becomes of a frame of this message.
    pub(crate) fn plan(&self, head: &Head) -> Plan
        ensures { result ≡ plan_in self.now head.now }
    {
        if self.is_there(head.index) {
            return Plan::Known;
        }
        if self.came.len() != head.count {
            return Plan::Differs(self.came.len());
        }
        if self.missing == 1 {
            Plan::Last
        } else {
            Plan::Next
        }
    }

    // Whether the frame of that index has come.
    fn is_there(&self, index: u16) -> bool
        ensures { result ≡ is_there self.now index }
    {
        self.came.get(index)
    }

    // Keeps the piece of a frame that is missing. After want of memory, the one error, all is as before.
    pub(crate) fn keep(&mut self, index: u16, piece: &[u8]) -> Result<(), NoMemory>
        requires within { index < length self.old.came }
        requires missing { is_there self.old index ≡ false }
        requires short { length piece.now ≤ 1488 }
        ensures ok { OnOk result (self.new ≡ with_frame self.old index piece.now) }
        ensures err { OnErr result (self.new ≡ self.old) }
    {
        write(&mut self.bytes, FULL * usize::from(index), piece)?;
        self.came.set(index);
        self.missing -= 1;
        Ok(())
    }

    // The bytes.
    pub(crate) fn into_bytes(self) -> Bytes
        ensures { result ≡ self.bytes }
    {
        Bytes::of_vec(self.bytes)
    }
}

// Puts the bytes over those that stand there, and lets them grow before where they have to.
fn write(bytes: &mut Vec<u8>, from: usize, piece: &[u8]) -> Result<(), NoMemory>
    requires { from + length piece.now ≤ 4294967295 }
    ensures ok { OnOk result (bytes.new.items ≡ written bytes.old.items from piece.now) }
    ensures err { OnErr result (bytes.new.items ≡ bytes.old.items) }
{
    let end = from + piece.len();
    if bytes.len() < end {
        bytes.resize(end, 0)?;
    }
    bytes[from..end].copy_from_slice(piece);
    Ok(())
}
