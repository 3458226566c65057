ghost use Rattle.std.specs.Prelude.{◌≡◌, IfOk, OnOk};
ghost use Rattle.cache_worth.specs.Blocks.{fetched_at, fetched_step, filled_at, is_due_fetch, is_fresh, taken_at};
ghost use Rattle.cache_worth.specs.BlockLaws.{fetched_told, fetched_told_on};
ghost use Rattle.cache_worth.specs.Parts.{blocks_are_fetched_anew, fetches_anew};
ghost use Rattle.cache_worth.specs.Since.{StepsOn, TellsSince};

use crate::since::{Since, Step};
use sprite_ids::NoMemory;
use std::alloc::Global;
use trace_rules::{BlockAt, LooksBack, block_at, each_keeps, file_at};
use unix_calls::{Description, Event, Rec, SendKind};

/// Whether a kernel of the trace fetches a block again only where it came in, or the kernel took a stamp of its file, since it was
/// last fetched (this project). The one error is want of memory.
pub fn blocks_are_fetched_anew(
    alloc: Global,
    c: &Description,
    trace: &[Rec],
) -> Result<bool, NoMemory>
    ensures { IfOk result (λ kept. kept ≡ blocks_are_fetched_anew c.now trace.now) }
{
    let mut judge = Fetched {
        since: Since::new(alloc),
    };
    each_keeps(alloc, c, &mut judge, trace)
}

/// The blocks that came in, and the stamps that were taken, since the blocks were last fetched (this project).
#[derive(Drop)]
pub(crate) struct Fetched {
    pub(crate) since: Since,
}

impl LooksBack for Fetched {
    ghost test = { λ c past rec. fetches_anew past rec.kernel rec.event };

    ghost tells = { λ judge past. TellsSince fetched_at filled_at taken_at judge.since past.records };

    ghost fits = { λ c judge rec. is_due_fetch judge.since rec.kernel rec.event };

    ghost goes_on = { λ rec old new. StepsOn (fetched_step rec.kernel rec.event) old.since new.since };

    fn fits(&self, _alloc: Global, _c: &Description, rec: &Rec) -> Result<bool, NoMemory> {
        match &rec.event {
            Event::Send {
                kind: SendKind::Fetch { file, block },
                ..
            } => Ok(is_fresh(&self.since, &block_at(rec.kernel, file, block))),
            _ => Ok(true),
        }
    }

    fn go_on(&mut self, _alloc: Global, rec: &Rec) -> Result<(), NoMemory> {
        let step = step_of(rec);
        self.since.go_on(&step)
    }

    ghost is_told = { fetched_told };

    ghost tells_on = { fetched_told_on };
}

// Whether a block wasn't fetched yet, or came in since, or a stamp of its file was taken.
fn is_fresh(since: &Since, at: &BlockAt) -> bool
    ensures { result ≡ is_fresh since.now at.now }
{
    !since.has_begun(at) || since.has_changed(at)
}

// What a record does to its block, or to its file.
fn step_of(rec: &Rec) -> Step
    ensures { result ≡ fetched_step rec.now.kernel rec.now.event }
{
    match &rec.event {
        Event::Send {
            kind: SendKind::Fetch { file, block },
            ..
        } => Step::Begins(block_at(rec.kernel, file, block)),
        Event::Filled { file, block } => Step::Changes(block_at(rec.kernel, file, block)),
        Event::Mode { file, .. } => Step::Takes(file_at(rec.kernel, file)),
        _ => Step::Rests,
    }
}
