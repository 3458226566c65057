ghost use Rattle.std.specs.Prelude.{OnOk};
ghost use Rattle.trace_tables.specs.Told.{Going, HeedsEntry, KnownBy, SeesRecord};
ghost use Rattle.trace_tables.specs.TellLaws.{telling_enters, telling_passes};

use crate::caller::Caller;
use crate::calling::caller_in;
use crate::known::{Known, keep_entry, keep_event, tied_in};
use crate::tied::Tied;
use sprite_ids::NoMemory;
use std::alloc::Global;
use trace_walk::Watches;
use unix_calls::{Description, Entry, Event, Process, Rec};
use unix_world::World;

/// What is told of the records of a trace so far, where one Unix kernel makes its entries (this project).
#[derive(Drop)]
pub struct Telling {
    pub(crate) known: Known,
    /// The file and the stream that each record's call goes by.
    pub ties: Vec<Option<Tied>>,
    /// What each record's process is.
    pub callers: Vec<Caller>,
    /// The file and the stream that the last record's call goes by.
    pub last: Option<Tied>,
}

impl Telling {
    ghost use Rattle.trace_tables.specs.Told.{IsFresh};

    /// Of no records.
    pub fn new(alloc: Global) -> Telling
        ensures { IsFresh result }
    {
        Telling {
            known: Known::new(alloc),
            ties: Vec::new(alloc),
            callers: Vec::new(alloc),
            last: None,
        }
    }
}

impl Watches for Telling {
    ghost tells = { λ c trace watch world ps past rest. Going c trace rest world ps past watch };

    ghost sees = { λ c world ps rec old new. SeesRecord c world ps rec.event old new };

    ghost heeds = { λ world place way entry old new. HeedsEntry world.streams place old new };

    fn see(
        &mut self,
        alloc: Global,
        c: &Description,
        world: &World,
        ps: &[Process],
        rec: &Rec,
    ) -> Result<(), NoMemory> {
        let tied = tied_in(&self.known, world, ps, &rec.event);
        self.last = tied;
        let caller = caller_in(alloc, c, world, ps, &tied, &rec.event)?;
        self.ties.push(tied)?;
        self.callers.extend_from_slice(&[caller])?;
        keep_other(&mut self.known, &rec.event)
    }

    fn heed(
        &mut self,
        world: &World,
        place: u32,
        _way: u64,
        _entry: &Entry,
    ) -> Result<(), NoMemory> {
        keep_entry(&mut self.known, &world.streams, place)
    }

    ghost passes = { telling_passes };

    ghost goes_in = { telling_enters };
}

// Keeps what a record tells that is no entry.
fn keep_other(known: &mut Known, event: &Event) -> Result<(), NoMemory>
    ensures { OnOk result (KnownBy event.now known.old known.new) }
{
    match event {
        Event::Enter { .. } => Ok(()),
        _ => keep_event(known, event),
    }
}
