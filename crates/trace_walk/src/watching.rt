ghost use Rattle.std.specs.Prelude.{◌≡◌, ◌∷◌, ℕ, List, OnOk, Some, false};
ghost use Rattle.unix_calls.specs.Lawful.{Lawful};
ghost use Rattle.unix_calls.specs.declared.description.Description.{Description};
ghost use Rattle.unix_calls.specs.declared.entry.Entry.{Entry};
ghost use Rattle.unix_calls.specs.declared.event.Rec.{Rec};
ghost use Rattle.unix_calls.specs.declared.state.Process.{Process};
ghost use Rattle.unix_world.specs.declared.World.{World};
ghost use Rattle.unix_world.specs.Among.{Ascending};
ghost use Rattle.unix_world.specs.Worlds.{unix_of};
ghost use Rattle.call_journal.specs.Matching.{is_entry};
ghost use Rattle.call_journal.specs.Past.{Past, past_with};
ghost use Rattle.trace_walk.specs.Walks.{Makes, entering};

use sprite_ids::NoMemory;
use std::alloc::Global;
use unix_calls::{Description, Entry, Process, Rec};
use unix_world::World;

/// What is kept of the records of a trace, while one Unix kernel makes its entries (this project).
pub trait Watches: Sized {
    ghost tells: { Description → List Rec → Self → World → List Process → Past → List Rec → Type 0 };

    ghost sees: { Description → World → List Process → Rec → Self → Self → Type 0 };

    ghost heeds: { World → ℕ → ℕ → Entry → Self → Self → Type 0 };

    /// Keeps what the next record tells, by the state before it. The one error is want of memory; a part may be kept then.
    fn see(
        &mut self,
        alloc: Global,
        c: &Description,
        world: &World,
        ps: &[Process],
        rec: &Rec,
    ) -> Result<(), NoMemory>
        requires lawful { Lawful c.now }
        requires ascends { Ascending ps.now }
        ensures { OnOk result (sees c.now world.now ps.now rec.now self.old self.new) };

    /// Keeps what that entry tells, by the state behind it: it is at that place, counted from 0, and its process did so many
    /// instructions up to its call. The one error is want of memory; a part may be kept then.
    fn heed(&mut self, world: &World, place: u32, way: u64, entry: &Entry) -> Result<(), NoMemory>
        ensures { OnOk result (heeds world.now place way entry.now self.old self.new) };

    ghost passes: { (c : Description) (trace : List Rec) (old new : Self) (world : World) (ps : List Process) (past : Past) (rec : Rec) (rest : List Rec) → past.unix ≡ Some (unix_of c world ps) → Ascending ps → is_entry rec.event ≡ false → tells c trace old world ps past (rec ∷ rest) → sees c world ps rec old new → tells c trace new world ps (past_with c rec past) rest };

    ghost goes_in: { (c : Description) (trace : List Rec) (old mid new : Self) (world later : World) (ps qs : List Process) (past : Past) (kernel way : ℕ) (entry : Entry) (rest : List Rec) → Lawful c → past.unix ≡ Some (unix_of c world ps) → Ascending ps → Makes c world ps entry way later qs → tells c trace old world ps past (entering kernel entry ∷ rest) → sees c world ps (entering kernel entry) old mid → heeds later world.entries way entry mid new → tells c trace new later qs (past_with c (entering kernel entry) past) rest };
}
