ghost use Rattle.std.specs.Prelude.{◌≡◌, IfOk, OnOk};
ghost use Rattle.unix_calls.specs.Lawful.{Lawful};
ghost use Rattle.sharing_rules.specs.Followed.{Follows, HeedsFacts, KeepsFacts, SeesFacts};
ghost use Rattle.sharing_rules.specs.FollowLaws.{facts_enter, facts_pass};

use crate::entry_facts::{EntryFacts, LocalUse};
use crate::local::{local_use, truncates};
use indexmap::IndexMap;
use sprite_ids::NoMemory;
use std::alloc::Global;
use trace_places::{Place, boot_places, keep_place};
use trace_tables::Telling;
use trace_walk::Watches;
use unix_calls::{Description, Entry, Event, Process, Rec};
use unix_world::World;

/// What the entries of a trace so far do to files, where one Unix kernel makes them, and what is told of its records for that (this
/// project).
#[derive(Drop)]
pub struct Following {
    pub telling: Telling,
    pub(crate) places: IndexMap<u64, Place>,
    // What the last record uses.
    pub(crate) local: Option<LocalUse>,
    /// Of each record what its entry does to files.
    pub facts: Vec<EntryFacts>,
}

impl Following {
    ghost use Rattle.sharing_rules.specs.Followed.{IsFresh};

    /// Of no records. The one error is want of memory.
    pub fn new(alloc: Global, c: &Description) -> Result<Following, NoMemory>
        requires { Lawful c.now }
        ensures { IfOk result (IsFresh c.now) }
    {
        let places = boot_places(alloc, c)?;
        Ok(Following {
            telling: Telling::new(alloc),
            places,
            local: None,
            facts: Vec::new(alloc),
        })
    }
}

impl Watches for Following {
    ghost tells = { λ c trace watch world ps past rest. Follows c trace rest world ps past watch };

    ghost sees = { λ c world ps rec old new. SeesFacts c world ps rec old new };

    ghost heeds = { λ world place way entry old new. HeedsFacts world.streams place entry old new };

    fn see(
        &mut self,
        alloc: Global,
        c: &Description,
        world: &World,
        ps: &[Process],
        rec: &Rec,
    ) -> Result<(), NoMemory> {
        self.telling.see(alloc, c, world, ps, rec)?;
        self.local = local_use(&self.places, world, ps, rec, &self.telling.last);
        keep_place(&mut self.places, rec.kernel, &rec.event)?;
        keep_other(&mut self.facts, self.local, &rec.event)
    }

    fn heed(&mut self, world: &World, place: u32, way: u64, entry: &Entry) -> Result<(), NoMemory> {
        self.telling.heed(world, place, way, entry)?;
        self.facts.push(EntryFacts {
            local: self.local,
            truncates: truncates(entry, &world.streams, place),
        })?;
        Ok(())
    }

    ghost passes = { facts_pass };

    ghost goes_in = { facts_enter };
}

// Keeps what a record does that is no entry.
fn keep_other(
    facts: &mut Vec<EntryFacts>,
    local: Option<LocalUse>,
    event: &Event,
) -> Result<(), NoMemory>
    ensures { OnOk result (KeepsFacts event.now local facts.old.items facts.new.items) }
{
    match event {
        Event::Enter { .. } => Ok(()),
        _ => {
            facts.push(EntryFacts {
                local,
                truncates: false,
            })?;
            Ok(())
        }
    }
}
