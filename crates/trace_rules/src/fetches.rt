ghost use Rattle.std.specs.Prelude.{◌≡◌, IfOk, OnOk};
ghost use Rattle.call_journal.specs.Fetches.{fetches_are_of_absent_blocks, fetches_well};
ghost use Rattle.trace_rules.specs.Places.{HoldsOn, TellsHeld, is_due_fetch};
ghost use Rattle.trace_rules.specs.PlaceLaws.{fetches_told, holds_on};

use crate::judging::{LooksBack, each_keeps};
use crate::place::{BlockAt, keep_block};
use indexmap::IndexSet;
use sprite_ids::NoMemory;
use std::alloc::Global;
use unix_calls::{Description, Event, Rec, SendKind};

/// Whether a kernel of the trace fetches a block only where it doesn't hold it. The one error is want of memory.
pub fn fetches_are_of_absent_blocks(
    alloc: Global,
    c: &Description,
    trace: &[Rec],
) -> Result<bool, NoMemory>
    ensures { IfOk result (λ kept. kept ≡ fetches_are_of_absent_blocks c.now trace.now) }
{
    let mut judge = Fetches {
        held: IndexSet::new(alloc),
    };
    each_keeps(alloc, c, &mut judge, trace)
}

/// The blocks that the kernels hold so far (this project).
#[derive(Drop)]
pub(crate) struct Fetches {
    pub(crate) held: IndexSet<BlockAt>,
}

impl LooksBack for Fetches {
    ghost test = { λ c past rec. fetches_well past rec.kernel rec.event };

    ghost tells = { λ judge past. TellsHeld judge.held.keys past.records };

    ghost fits = { λ c judge rec. is_due_fetch judge.held.keys rec.kernel rec.event };

    ghost goes_on = { λ rec old new. HoldsOn rec old.held.keys new.held.keys };

    fn fits(&self, _alloc: Global, _c: &Description, rec: &Rec) -> Result<bool, NoMemory> {
        let kernel = rec.kernel;
        match &rec.event {
            Event::Send {
                kind: SendKind::Fetch { file, block },
                ..
            } => Ok(
                !self.held.contains(&BlockAt {
                    kernel,
                    file: *file,
                    block: *block,
                }),
            ),
            _ => Ok(true),
        }
    }

    fn go_on(&mut self, _alloc: Global, rec: &Rec) -> Result<(), NoMemory> {
        keep_block(&mut self.held, rec)
    }

    ghost is_told = { fetches_told };

    ghost tells_on = { holds_on };
}
