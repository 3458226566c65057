ghost use Rattle.std.specs.Prelude.{◌≡◌, IfOk, OnOk};
ghost use Rattle.cache_worth.specs.Parts.{stamps_are_taken_in_order, stamps_well};
ghost use Rattle.trace_rules.specs.Greatest.{is_less, later};
ghost use Rattle.cache_worth.specs.Stamps.{TakesOn, TellsStamps, greatest, may_take};
ghost use Rattle.cache_worth.specs.StampLaws.{stamps_told, stamps_told_on};

use indexmap::{IndexMap, IndexSet};
use sprite_ids::NoMemory;
use std::alloc::Global;
use trace_rules::{FileAt, LooksBack, StampAt, each_keeps, file_at, stamp_at};
use unix_calls::{Description, Event, Rec};

/// Whether a kernel of the trace takes a stamp of a file only where a grant or callback with it went to the kernel, and the stamp
/// is greater than those of the file that it took before (this project). The one error is want of memory.
pub fn stamps_are_taken_in_order(
    alloc: Global,
    c: &Description,
    trace: &[Rec],
) -> Result<bool, NoMemory>
    ensures { IfOk result (λ kept. kept ≡ stamps_are_taken_in_order c.now trace.now) }
{
    let mut judge = Stamps {
        taken: IndexMap::new(alloc),
        given: IndexSet::new(alloc),
    };
    each_keeps(alloc, c, &mut judge, trace)
}

/// The greatest stamp of each file that each kernel took, and the stamps that were given to the kernels (this project).
#[derive(Drop)]
pub(crate) struct Stamps {
    pub(crate) taken: IndexMap<FileAt, u32>,
    pub(crate) given: IndexSet<StampAt>,
}

impl LooksBack for Stamps {
    ghost test = { λ c past rec. stamps_well past rec.kernel rec.event };

    ghost tells = { λ judge past. TellsStamps judge.taken.entries judge.given.keys past.records };

    ghost fits = { λ c judge rec. may_take judge.taken.entries judge.given.keys rec.kernel rec.event };

    ghost goes_on = { λ rec old new. TakesOn rec old.taken.entries new.taken.entries old.given.keys new.given.keys };

    fn fits(&self, _alloc: Global, _c: &Description, rec: &Rec) -> Result<bool, NoMemory> {
        match &rec.event {
            Event::Mode { file, stamp, .. } => Ok(
                is_greater(&self.taken, &file_at(rec.kernel, file), *stamp)
                    && self.given.contains(&stamp_at(rec.kernel, file, *stamp)),
            ),
            _ => Ok(true),
        }
    }

    fn go_on(&mut self, _alloc: Global, rec: &Rec) -> Result<(), NoMemory> {
        match &rec.event {
            Event::Mode { file, stamp, .. } => {
                let at = file_at(rec.kernel, file);
                let last = later(&self.taken, &at, *stamp);
                self.taken.insert(at, last)?;
            }
            Event::Grant {
                file,
                to,
                stamp,
                ..
            } => {
                self.given.insert(stamp_at(*to, file, *stamp))?;
            }
            Event::Callback {
                file,
                to,
                stamp,
                ..
            } => {
                self.given.insert(stamp_at(*to, file, *stamp))?;
            }
            _ => {}
        }
        Ok(())
    }

    ghost is_told = { stamps_told };

    ghost tells_on = { stamps_told_on };
}

// Whether the stamp is greater than those of the file that the kernel took.
fn is_greater(taken: &IndexMap<FileAt, u32>, at: &FileAt, stamp: u32) -> bool
    ensures { result ≡ is_less (greatest taken.now.entries at.now) stamp }
{
    match taken.get(at) {
        Some(last) => *last < stamp,
        None => true,
    }
}

// The greatest one of the stamp and those of the file that the kernel took.
fn later(taken: &IndexMap<FileAt, u32>, at: &FileAt, stamp: u32) -> u32
    ensures { result ≡ later stamp (greatest taken.now.entries at.now) }
{
    match taken.get(at) {
        Some(last) => if *last < stamp { stamp } else { *last },
        None => stamp,
    }
}
