ghost use Rattle.std.specs.Prelude.{◌≡◌, IfOk, OnOk};
ghost use Rattle.cache_worth.specs.Blocks.{dirtied_at, is_due_send, sent_at, sent_step, taken_at};
ghost use Rattle.cache_worth.specs.BlockLaws.{sent_told, sent_told_on};
ghost use Rattle.cache_worth.specs.Parts.{blocks_are_sent_once_changed, sends_back_well};
ghost use Rattle.cache_worth.specs.Since.{StepsOn, TellsSince};

use crate::since::{Since, Step};
use sprite_ids::NoMemory;
use std::alloc::Global;
use trace_rules::{LooksBack, block_at, each_keeps, file_at};
use unix_calls::{Description, Event, Rec, SendKind};

/// Whether a kernel of the trace sends a block to its server only where it made the block dirty, or took a stamp of its file, since
/// it last sent it (this project). The one error is want of memory.
pub fn blocks_are_sent_once_changed(
    alloc: Global,
    c: &Description,
    trace: &[Rec],
) -> Result<bool, NoMemory>
    ensures { IfOk result (λ kept. kept ≡ blocks_are_sent_once_changed c.now trace.now) }
{
    let mut judge = Sent {
        since: Since::new(alloc),
    };
    each_keeps(alloc, c, &mut judge, trace)
}

/// The blocks that were made dirty, and the stamps that were taken, since the blocks were last sent (this project).
#[derive(Drop)]
pub(crate) struct Sent {
    pub(crate) since: Since,
}

impl LooksBack for Sent {
    ghost test = { λ c past rec. sends_back_well past rec.kernel rec.event };

    ghost tells = { λ judge past. TellsSince sent_at dirtied_at taken_at judge.since past.records };

    ghost fits = { λ c judge rec. is_due_send judge.since rec.kernel rec.event };

    ghost goes_on = { λ rec old new. StepsOn (sent_step rec.kernel rec.event) old.since new.since };

    fn fits(&self, _alloc: Global, _c: &Description, rec: &Rec) -> Result<bool, NoMemory> {
        match &rec.event {
            Event::Send {
                kind: SendKind::WriteBack { file, block },
                ..
            } => Ok(self.since.has_changed(&block_at(rec.kernel, file, block))),
            _ => Ok(true),
        }
    }

    fn go_on(&mut self, _alloc: Global, rec: &Rec) -> Result<(), NoMemory> {
        let step = step_of(rec);
        self.since.go_on(&step)
    }

    ghost is_told = { sent_told };

    ghost tells_on = { sent_told_on };
}

// What a record does to its block, or to its file.
fn step_of(rec: &Rec) -> Step
    ensures { result ≡ sent_step rec.now.kernel rec.now.event }
{
    match &rec.event {
        Event::Send {
            kind: SendKind::WriteBack { file, block },
            ..
        } => Step::Begins(block_at(rec.kernel, file, block)),
        Event::Dirtied { file, block } => Step::Changes(block_at(rec.kernel, file, block)),
        Event::Mode { file, .. } => Step::Takes(file_at(rec.kernel, file)),
        _ => Step::Rests,
    }
}
