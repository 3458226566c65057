ghost use Rattle.trace_walk.specs.Pairs.{Two};

use crate::watching::Watches;
use sprite_ids::NoMemory;
use std::alloc::Global;
use unix_calls::{Description, Entry, Process, Rec};
use unix_world::World;

/// Two watches of one walk: each sees and heeds the same records, the first before the second (this project).
#[derive(Drop)]
pub struct Both<A, B> {
    pub first: A,
    pub second: B,
}

impl<A: Watches, B: Watches> Watches for Both<A, B> {
    ghost tells = { λ c trace watch world ps past rest. Two (A.tells c trace watch.first world ps past rest) (B.tells c trace watch.second world ps past rest) };

    ghost sees = { λ c world ps rec old new. Two (A.sees c world ps rec old.first new.first) (B.sees c world ps rec old.second new.second) };

    ghost heeds = { λ world place way entry old new. Two (A.heeds world place way entry old.first new.first) (B.heeds world place way entry old.second new.second) };

    fn see(
        &mut self,
        alloc: Global,
        c: &Description,
        world: &World,
        ps: &[Process],
        rec: &Rec,
    ) -> Result<(), NoMemory> {
        self.first.see(alloc, c, world, ps, rec)?;
        self.second.see(alloc, c, world, ps, rec)
    }

    fn heed(&mut self, world: &World, place: u32, way: u64, entry: &Entry) -> Result<(), NoMemory> {
        self.first.heed(world, place, way, entry)?;
        self.second.heed(world, place, way, entry)
    }

    ghost passes = { λ c trace old new world ps past rec rest unix ascends other told sees. record { first = A.passes c trace old.first new.first world ps past rec rest unix ascends other told.first sees.first; second = B.passes c trace old.second new.second world ps past rec rest unix ascends other told.second sees.second } };

    ghost goes_in = { λ c trace old mid new world later ps qs past kernel way entry rest lawful unix ascends makes told sees heeds. record { first = A.goes_in c trace old.first mid.first new.first world later ps qs past kernel way entry rest lawful unix ascends makes told.first sees.first heeds.first; second = B.goes_in c trace old.second mid.second new.second world later ps qs past kernel way entry rest lawful unix ascends makes told.second sees.second heeds.second } };
}
