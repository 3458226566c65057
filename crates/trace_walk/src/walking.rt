ghost use Rattle.std.specs.Prelude.{◌≡◌, ◌≤◌, ◌+◌, IfOk};
ghost use Rattle.unix_calls.specs.Lawful.{Lawful};
ghost use Rattle.unix_world.specs.Among.{Ascending};
ghost use Rattle.trace_walk.specs.Walks.{Begins, Takes, WalksTo};

use crate::watching::Watches;
use one_kernel::{Applied, apply};
use sprite_ids::{Items, NoMemory};
use std::alloc::Global;
use unix_calls::{Description, Event, Process, Rec};
use unix_world::{World, boot};

/// Where the entries of a trace lead to (this project).
#[derive(Drop)]
pub struct End {
    /// The one kernel's state, all but its processes.
    pub world: World,
    /// Its processes, by ascending number.
    pub processes: Items<Process>,
    /// How many instructions they did up to the calls of the entries.
    pub cost: u64,
    /// The number of the entry that would be next, counted from 1.
    pub place: u32,
}

/// What a trace's journal comes to (this project).
#[derive(Drop)]
pub enum Walked {
    /// One Unix kernel gives it, and it leads there.
    Legal(End),
    /// One Unix kernel gives the entries before this one, counted from 1, and not this one.
    NotLegal(u32),
    /// One Unix kernel gives the entries before this one, counted from 1, and its process's way to its call passes the bound of
    /// instructions.
    Steps(u32),
}

// What became of a record.
#[derive(Clone, Copy, Debug)]
pub(crate) enum Taken {
    // It is no entry.
    On,
    // One kernel makes the entry; its process did so many instructions up to its call.
    Entered(u64),
    // One kernel doesn't make it.
    NotMade,
    // Its process's way to its call is longer than it may be.
    Far,
}

/// Makes the entries of a trace one after another, from the start of a described cluster, whose processes may do at most `most`
/// instructions in all, and shows each record to `watch` (this project).
///
/// `NotLegal` and `Steps` come exactly where a check of the trace's journal answers them. The one error is want of memory, which is
/// also the answer where the entries would be more than 2^32.
pub fn walk<W: Watches>(
    alloc: Global,
    c: &Description,
    watch: &mut W,
    trace: &[Rec],
    most: u64,
) -> Result<Walked, NoMemory>
    requires lawful { Lawful c.now }
    requires bound { most ≤ 40000000000 }
    requires begins { Begins c.now trace.now (W.tells c.now trace.now watch.old) }
    ensures { IfOk result (WalksTo c.now most trace.now (W.tells c.now trace.now watch.new)) }
{
    let (mut world, mut processes) = boot(alloc, c)?;
    let mut cost: u64 = 0;
    let mut place: u32 = 1;
    for rec in trace {
        watch.see(alloc, c, &world, processes.as_slice(), rec)?;
        let left = most - cost;
        match take(
            alloc,
            c,
            watch,
            &mut world,
            &mut processes,
            left,
            &rec.event,
        )? {
            Taken::On => {}
            Taken::Entered(way) => {
                cost += way;
                place = next_place(place)?;
            }
            Taken::NotMade => return Ok(Walked::NotLegal(place)),
            Taken::Far => return Ok(Walked::Steps(place)),
        }
    }
    Ok(Walked::Legal(End {
        world,
        processes,
        cost,
        place,
    }))
}

// The number of the next entry.
fn next_place(place: u32) -> Result<u32, NoMemory>
    ensures { IfOk result (λ next. next ≡ place + 1) }
{
    place.checked_add(1).ok_or(NoMemory)
}

// Takes the next record's event, whose process may do so many instructions up to its call.
fn take<W: Watches>(
    alloc: Global,
    c: &Description,
    watch: &mut W,
    world: &mut World,
    ps: &mut Items<Process>,
    left: u64,
    event: &Event,
) -> Result<Taken, NoMemory>
    requires ascending { Ascending ps.old }
    requires bound { left ≤ 40000000000 }
    requires lawful { Lawful c.now }
    ensures { IfOk result (λ taken. Takes W.heeds c.now left event.now world.old ps.old watch.old taken world.new ps.new watch.new) }
{
    let Event::Enter { entry } = event else {
        return Ok(Taken::On);
    };
    let place = world.entries;
    match apply(alloc, c, world, ps, left, entry)? {
        Applied::Made(way) => {
            watch.heed(world, place, way, entry)?;
            Ok(Taken::Entered(way))
        }
        Applied::NotMade => Ok(Taken::NotMade),
        Applied::Far => Ok(Taken::Far),
    }
}
