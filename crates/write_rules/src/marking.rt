ghost use Rattle.write_rules.specs.Marked.{Going, HeedsMark, SeesMark};
ghost use Rattle.write_rules.specs.MarkingLaws.{marking_enters, marking_passes};

use crate::syncs::{Syncs, keep_entry, keep_event, mark_in};
use sprite_ids::NoMemory;
use std::alloc::Global;
use trace_walk::Watches;
use unix_calls::{Description, Entry, Event, Process, Rec};
use unix_world::World;

/// The marks of the records of a trace so far, where one Unix kernel makes its entries: of a block that is written back whether a `sync`
/// of its file is due at its kernel, of an entry whether it makes a stream of a file (this project).
#[derive(Drop)]
pub struct Marking {
    pub(crate) syncs: Syncs,
    pub marks: Vec<bool>,
}

impl Marking {
    ghost use Rattle.write_rules.specs.Marked.{IsFresh};

    /// Of no records.
    pub fn new(alloc: Global) -> Marking
        ensures { IsFresh result }
    {
        Marking {
            syncs: Syncs::new(alloc),
            marks: Vec::new(alloc),
        }
    }
}

impl Watches for Marking {
    ghost tells = { λ c trace watch world ps past rest. Going c trace rest world ps past watch };

    ghost sees = { λ c world ps rec old new. SeesMark rec.kernel rec.event world ps old new };

    ghost heeds = { λ world place way entry old new. HeedsMark world.streams place old new };

    fn see(
        &mut self,
        alloc: Global,
        _c: &Description,
        world: &World,
        ps: &[Process],
        rec: &Rec,
    ) -> Result<(), NoMemory> {
        match &rec.event {
            Event::Enter { .. } => Ok(()),
            _ => {
                let mark = mark_in(&self.syncs, world, ps, rec);
                keep_event(alloc, &mut self.syncs, rec)?;
                self.marks.push(mark)?;
                Ok(())
            }
        }
    }

    fn heed(
        &mut self,
        world: &World,
        place: u32,
        _way: u64,
        _entry: &Entry,
    ) -> Result<(), NoMemory> {
        let mark = keep_entry(&mut self.syncs, &world.streams, place)?;
        self.marks.push(mark)?;
        Ok(())
    }

    ghost passes = { marking_passes };

    ghost goes_in = { marking_enters };
}
