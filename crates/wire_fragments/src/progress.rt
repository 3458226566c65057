ghost use Rattle.std.specs.Prelude.{◌≡◌, ◌≤◌, ◌<◌, true, IfOk, OnOk, OnErr, length};
ghost use Rattle.wire_fragments.specs.Gathering.{awaits, first_piece, kept_next, pieces_of};
ghost use Rattle.wire_fragments.specs.Pieces.{with_frame};
ghost use Rattle.wire_fragments.specs.declared.progress.Progress.TheVariants.{Given as IsGiven};

use crate::head::Head;
use crate::part::Part;
use sprite_ids::{Bytes, NoMemory};
use std::alloc::Global;

/// How far a message has come.
#[derive(Drop)]
pub enum Progress {
    /// It was given.
    Given,
    /// Some of its frames are missing.
    InPart(Part),
}

impl Progress {
    // A message of which the first frame comes.
    pub(crate) fn first(alloc: Global, head: &Head, piece: &[u8]) -> Result<Progress, NoMemory>
        requires within { head.now.index < head.now.count }
        requires short { length piece.now ≤ 1488 }
        ensures { IfOk result (λ progress. progress ≡ first_piece head.now piece.now) }
    {
        let mut part = Part::empty(alloc, head.count)?;
        part.keep(head.index, piece)?;
        Ok(Progress::InPart(part))
    }

    // Keeps a frame that is missing. After want of memory, the one error, all is as before.
    pub(crate) fn keep(&mut self, index: u16, piece: &[u8]) -> Result<(), NoMemory>
        requires missing { awaits self.old index ≡ true }
        requires short { length piece.now ≤ 1488 }
        ensures ok { OnOk result (self.new ≡ kept_next self.old index piece.now) }
        ensures err { OnErr result (self.new ≡ self.old) }
    {
        match self {
            Progress::InPart(part) => part.keep(index, piece),
            Progress::Given => Ok(()),
        }
    }

    // Gives the message with the last frame that is missing. After want of memory, the one error, all is as before.
    pub(crate) fn give(&mut self, index: u16, piece: &[u8]) -> Result<Bytes, NoMemory>
        requires missing { awaits self.old index ≡ true }
        requires short { length piece.now ≤ 1488 }
        ensures message { IfOk result (λ message. message ≡ (with_frame (pieces_of self.old) index piece.now).bytes) }
        ensures ok { OnOk result (self.new ≡ IsGiven) }
        ensures err { OnErr result (self.new ≡ self.old) }
    {
        self.keep(index, piece)?;
        match std::mem::replace(self, Progress::Given) {
            Progress::InPart(part) => Ok(part.into_bytes()),
            Progress::Given => unreachable!(),
        }
    }
}
