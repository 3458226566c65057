ghost use Rattle.std.specs.Prelude.{◌≡◌, IfOk, OnOk};
ghost use Rattle.record_worth.specs.Parts.{blocks_come_and_go, comes_and_goes};
ghost use Rattle.trace_rules.specs.Places.{HoldsOn, TellsHeld};
ghost use Rattle.record_worth.specs.Blocks.{may_come_or_go};
ghost use Rattle.record_worth.specs.BlockLaws.{held_told, held_told_on};

use indexmap::IndexSet;
use sprite_ids::NoMemory;
use std::alloc::Global;
use trace_rules::{BlockAt, LooksBack, block_at, each_keeps, keep_block};
use unix_calls::{Description, Event, Rec};

/// Whether blocks of the trace come only into caches that don't hold them, and leave only those that do (this project). The one
/// error is want of memory.
pub fn blocks_come_and_go(alloc: Global, c: &Description, trace: &[Rec]) -> Result<bool, NoMemory>
    ensures { IfOk result (λ kept. kept ≡ blocks_come_and_go c.now trace.now) }
{
    let mut judge = Blocks {
        held: IndexSet::new(alloc),
    };
    each_keeps(alloc, c, &mut judge, trace)
}

/// The blocks that the kernels hold so far (this project).
#[derive(Drop)]
pub(crate) struct Blocks {
    pub(crate) held: IndexSet<BlockAt>,
}

impl LooksBack for Blocks {
    ghost test = { λ c past rec. comes_and_goes past rec.kernel rec.event };

    ghost tells = { λ judge past. TellsHeld judge.held.keys past.records };

    ghost fits = { λ c judge rec. may_come_or_go judge.held.keys rec.kernel rec.event };

    ghost goes_on = { λ rec old new. HoldsOn rec old.held.keys new.held.keys };

    fn fits(&self, _alloc: Global, _c: &Description, rec: &Rec) -> Result<bool, NoMemory> {
        match &rec.event {
            Event::Filled { file, block } => {
                Ok(!self.held.contains(&block_at(rec.kernel, file, block)))
            }
            Event::Dropped { file, block, .. } => {
                Ok(self.held.contains(&block_at(rec.kernel, file, block)))
            }
            _ => Ok(true),
        }
    }

    fn go_on(&mut self, _alloc: Global, rec: &Rec) -> Result<(), NoMemory> {
        keep_block(&mut self.held, rec)
    }

    ghost is_told = { held_told };

    ghost tells_on = { held_told_on };
}
