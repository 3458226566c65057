ghost use Rattle.std.specs.Prelude.{◌≡◌, ◌≤◌, IfOk};
ghost use Rattle.unix_calls.specs.Lawful.{Lawful};
ghost use Rattle.one_kernel.specs.Replays.{ReplaysTo};

use crate::applying::{Applied, apply};
use sprite_ids::{Items, NoMemory};
use std::alloc::Global;
use unix_calls::{Description, Entry, Process};
use unix_world::{World, boot};

/// What a history comes to, and the state that it leads to (this project).
#[derive(Drop)]
pub enum Replayed {
    /// One Unix kernel gives it, and is in this state then: all but its processes, and its processes by ascending number.
    Legal(World, Items<Process>),
    /// One Unix kernel gives the entries before this one, counted from 1, and not this one.
    NotLegal(u32),
    /// One Unix kernel gives the entries before this one, counted from 1, and its process's way to its call passes the bound of
    /// instructions.
    Steps(u32),
}

/// Makes the entries of a history one after another, from the start of a described cluster, whose processes may do at most `most`
/// instructions in all (this project).
///
/// `Steps`, `NotLegal` and `Legal` come exactly where `check` answers them. The one error is want of memory, which is also the answer
/// where the entries would be more than 2^32.
pub fn replay(
    alloc: Global,
    c: &Description,
    entries: &[Entry],
    most: u64,
) -> Result<Replayed, NoMemory>
    requires lawful { Lawful c.now }
    requires bound { most ≤ 40000000000 }
    ensures { IfOk result (ReplaysTo c.now most entries.now) }
{
    let (mut world, mut processes) = boot(alloc, c)?;
    let mut cost: u64 = 0;
    let mut place: u32 = 1;
    for entry in entries {
        match apply(alloc, c, &mut world, &mut processes, most - cost, entry)? {
            Applied::Made(way) => cost += way,
            Applied::NotMade => return Ok(Replayed::NotLegal(place)),
            Applied::Far => return Ok(Replayed::Steps(place)),
        }
        place = place.checked_add(1).ok_or(NoMemory)?;
    }
    Ok(Replayed::Legal(world, processes))
}
