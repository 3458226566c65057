ghost use Rattle.std.specs.Prelude.{◌≡◌, IfOk, OnOk};
ghost use Rattle.unix_calls.specs.Lawful.{Lawful};
ghost use Rattle.record_worth.specs.Parts.{moves_begin_and_end, moves_well};
ghost use Rattle.record_worth.specs.Moves.{may_move};
ghost use Rattle.record_worth.specs.MoveLaws.{moves_told, moves_told_on};
ghost use Rattle.trace_places.specs.Places.{MovesOn, TellsPlaces};

use indexmap::IndexMap;
use sprite_ids::NoMemory;
use std::alloc::Global;
use trace_places::{Place, boot_places, is_on_its_way, keep_place};
use trace_rules::{LooksBack, each_keeps};
use unix_calls::{Description, Event, Rec};

/// Whether processes of the trace are frozen where they aren't on their way, and thawed where they are (Douglis and Ousterhout 1991).
/// The one error is want of memory.
pub fn moves_begin_and_end(alloc: Global, c: &Description, trace: &[Rec]) -> Result<bool, NoMemory>
    requires { Lawful c.now }
    ensures { IfOk result (λ kept. kept ≡ moves_begin_and_end c.now trace.now) }
{
    let mut judge = Moves {
        places: boot_places(alloc, c)?,
    };
    each_keeps(alloc, c, &mut judge, trace)
}

/// Where the processes are so far (this project).
#[derive(Drop)]
pub(crate) struct Moves {
    pub(crate) places: IndexMap<u64, Place>,
}

impl LooksBack for Moves {
    ghost test = { λ c past rec. moves_well past rec.event };

    ghost tells = { λ judge past. TellsPlaces judge.places.entries past.processes };

    ghost fits = { λ c judge rec. may_move judge.places.entries rec.event };

    ghost goes_on = { λ rec old new. MovesOn rec.kernel rec.event old.places.entries new.places.entries };

    fn fits(&self, _alloc: Global, _c: &Description, rec: &Rec) -> Result<bool, NoMemory> {
        match &rec.event {
            Event::Freeze { pid } => Ok(!is_on_its_way(&self.places, *pid)),
            Event::Thaw { pid } => Ok(is_on_its_way(&self.places, *pid)),
            _ => Ok(true),
        }
    }

    fn go_on(&mut self, _alloc: Global, rec: &Rec) -> Result<(), NoMemory> {
        keep_place(&mut self.places, rec.kernel, &rec.event)
    }

    ghost is_told = { moves_told };

    ghost tells_on = { moves_told_on };
}
