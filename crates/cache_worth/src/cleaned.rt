ghost use Rattle.std.specs.Prelude.{◌≡◌, IfOk, OnOk};
ghost use Rattle.cache_worth.specs.Blocks.{cleaned_at, cleaned_step, is_due_clean, never_at, sent_at};
ghost use Rattle.cache_worth.specs.BlockLaws.{cleaned_told, cleaned_told_on};
ghost use Rattle.cache_worth.specs.Parts.{blocks_are_cleaned_once_sent, cleans_well};
ghost use Rattle.cache_worth.specs.Since.{StepsOn, TellsSince};

use crate::since::{Since, Step};
use sprite_ids::NoMemory;
use std::alloc::Global;
use trace_rules::{LooksBack, block_at, each_keeps};
use unix_calls::{Description, Event, Rec, SendKind};

/// Whether a block of the trace becomes clean at a kernel only where the kernel sent it to its server since it last did (this
/// project). The one error is want of memory.
pub fn blocks_are_cleaned_once_sent(
    alloc: Global,
    c: &Description,
    trace: &[Rec],
) -> Result<bool, NoMemory>
    ensures { IfOk result (λ kept. kept ≡ blocks_are_cleaned_once_sent c.now trace.now) }
{
    let mut judge = Cleaned {
        since: Since::new(alloc),
    };
    each_keeps(alloc, c, &mut judge, trace)
}

/// The blocks that were sent to their servers since they last became clean (this project).
#[derive(Drop)]
pub(crate) struct Cleaned {
    pub(crate) since: Since,
}

impl LooksBack for Cleaned {
    ghost test = { λ c past rec. cleans_well past rec.kernel rec.event };

    ghost tells = { λ judge past. TellsSince cleaned_at sent_at never_at judge.since past.records };

    ghost fits = { λ c judge rec. is_due_clean judge.since rec.kernel rec.event };

    ghost goes_on = { λ rec old new. StepsOn (cleaned_step rec.kernel rec.event) old.since new.since };

    fn fits(&self, _alloc: Global, _c: &Description, rec: &Rec) -> Result<bool, NoMemory> {
        match &rec.event {
            Event::WroteBack { file, block } => {
                Ok(self.since.has_changed(&block_at(rec.kernel, file, block)))
            }
            _ => Ok(true),
        }
    }

    fn go_on(&mut self, _alloc: Global, rec: &Rec) -> Result<(), NoMemory> {
        let step = step_of(rec);
        self.since.go_on(&step)
    }

    ghost is_told = { cleaned_told };

    ghost tells_on = { cleaned_told_on };
}

// What a record does to its block.
fn step_of(rec: &Rec) -> Step
    ensures { result ≡ cleaned_step rec.now.kernel rec.now.event }
{
    match &rec.event {
        Event::WroteBack { file, block } => Step::Begins(block_at(rec.kernel, file, block)),
        Event::Send {
            kind: SendKind::WriteBack { file, block },
            ..
        } => Step::Changes(block_at(rec.kernel, file, block)),
        _ => Step::Rests,
    }
}
