ghost use Rattle.std.specs.Prelude.{◌≡◌, IfOk, OnOk};
ghost use Rattle.record_worth.specs.Parts.{stamps_rise, stamps_well};
ghost use Rattle.trace_rules.specs.Greatest.{is_less, later};
ghost use Rattle.record_worth.specs.Stamps.{PutsLater, RisesOn, TellsStamps, greatest, may_give};
ghost use Rattle.record_worth.specs.StampLaws.{stamps_told, stamps_told_on};

use indexmap::IndexMap;
use sprite_ids::{FileId, NoMemory};
use std::alloc::Global;
use trace_rules::{LooksBack, each_keeps};
use unix_calls::{Description, Event, Rec};

/// Whether the stamps of each file's grants and callbacks rise in the trace (this project). The one error is want of memory.
pub fn stamps_rise(alloc: Global, c: &Description, trace: &[Rec]) -> Result<bool, NoMemory>
    ensures { IfOk result (λ kept. kept ≡ stamps_rise c.now trace.now) }
{
    let mut judge = Stamps {
        given: IndexMap::new(alloc),
    };
    each_keeps(alloc, c, &mut judge, trace)
}

/// The greatest stamp of each file so far (this project).
#[derive(Drop)]
pub(crate) struct Stamps {
    pub(crate) given: IndexMap<FileId, u32>,
}

impl LooksBack for Stamps {
    ghost test = { λ c past rec. stamps_well past rec.event };

    ghost tells = { λ judge past. TellsStamps judge.given.entries past.records };

    ghost fits = { λ c judge rec. may_give judge.given.entries rec.event };

    ghost goes_on = { λ rec old new. RisesOn rec.event old.given.entries new.given.entries };

    fn fits(&self, _alloc: Global, _c: &Description, rec: &Rec) -> Result<bool, NoMemory> {
        match &rec.event {
            Event::Grant { file, stamp, .. } => Ok(is_greater(&self.given, file, *stamp)),
            Event::Callback { file, stamp, .. } => Ok(is_greater(&self.given, file, *stamp)),
            _ => Ok(true),
        }
    }

    fn go_on(&mut self, _alloc: Global, rec: &Rec) -> Result<(), NoMemory> {
        match &rec.event {
            Event::Grant { file, stamp, .. } => put_later(&mut self.given, file, *stamp),
            Event::Callback { file, stamp, .. } => put_later(&mut self.given, file, *stamp),
            _ => Ok(()),
        }
    }

    ghost is_told = { stamps_told };

    ghost tells_on = { stamps_told_on };
}

// Whether the stamp is greater than those of the file so far.
fn is_greater(given: &IndexMap<FileId, u32>, file: &FileId, stamp: u32) -> bool
    ensures { result ≡ is_less (greatest given.now.entries file.now) stamp }
{
    match given.get(file) {
        Some(last) => *last < stamp,
        None => true,
    }
}

// The greatest one of the stamp and those of the file so far.
fn later(given: &IndexMap<FileId, u32>, file: &FileId, stamp: u32) -> u32
    ensures { result ≡ later stamp (greatest given.now.entries file.now) }
{
    match given.get(file) {
        Some(last) => if *last < stamp { stamp } else { *last },
        None => stamp,
    }
}

fn put_later(given: &mut IndexMap<FileId, u32>, file: &FileId, stamp: u32) -> Result<(), NoMemory>
    ensures { OnOk result (PutsLater file.now stamp given.old.entries given.new.entries) }
{
    let last = later(given, file, stamp);
    given.insert(*file, last)?;
    Ok(())
}
