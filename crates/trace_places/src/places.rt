ghost use Rattle.std.specs.Prelude.{◌≡◌, ℕ, IfOk, OnOk};
ghost use Rattle.unix_calls.specs.Lawful.{Lawful};
ghost use Rattle.call_journal.specs.Past.{at_homes, child_of_entry, no_past};
ghost use Rattle.trace_places.specs.Places.{MovesOn, PutsFirst, PutsPlace, TellsPlaces, is_kernel_of, is_on_its_way, moves_child, place_kept};

use indexmap::IndexMap;
use process_machine::{Call, Reply};
use sprite_ids::{Kernel, NoMemory, Pid};
use std::alloc::Global;
use unix_calls::{Description, Entry, Event, Process};
use unix_world::boot;

/// Where a process is: its kernel, and whether it is on its way; then the kernel is the one that froze it (Douglis and Ousterhout
/// 1991).
#[derive(Clone, Copy, Debug, PartialEq, Eq)]
pub struct Place {
    pub kernel: Kernel,
    pub moving: bool,
}

/// Where the processes are that run from the start, by their numbers: at their homes. The one error is want of memory.
pub fn boot_places(alloc: Global, c: &Description) -> Result<IndexMap<u64, Place>, NoMemory>
    requires { Lawful c.now }
    ensures { IfOk result (λ places. TellsPlaces places.entries (no_past c.now).processes) }
{
    let (world, processes) = boot(alloc, c)?;
    drop(world);
    home_places(alloc, processes.as_slice())
}

/// Where these processes are by their numbers, if each is at its home. The one error is want of memory.
pub fn home_places(alloc: Global, ps: &[Process]) -> Result<IndexMap<u64, Place>, NoMemory>
    ensures { IfOk result (λ places. TellsPlaces places.entries (at_homes ps.now)) }
{
    let mut places = IndexMap::new(alloc);
    for p in ps {
        put_home(&mut places, p.pid)?;
    }
    Ok(places)
}

// Puts a process at its home, unless it is somewhere.
fn put_home(places: &mut IndexMap<u64, Place>, pid: Pid) -> Result<(), NoMemory>
    ensures { OnOk result (PutsFirst pid places.old.entries places.new.entries) }
{
    let number = u64::from(pid.number());
    if places.get(&number).is_none() {
        let kernel = pid.home();
        places.insert(
            number,
            Place {
                kernel,
                moving: false,
            },
        )?;
    }
    Ok(())
}

/// Where a process is, if the records so far tell it.
pub fn place_in(places: &IndexMap<u64, Place>, pid: Pid) -> Option<Place>
    ensures { result ≡ place_kept places.now.entries pid }
{
    places.get(&u64::from(pid.number())).copied()
}

/// Whether the process's kernel, or the one that froze it, is that one.
pub fn is_kernel_of(places: &IndexMap<u64, Place>, pid: Pid, kernel: Kernel) -> bool
    ensures { result ≡ is_kernel_of kernel (place_kept places.now.entries pid) }
{
    match place_in(places, pid) {
        Some(place) => place.kernel == kernel,
        None => false,
    }
}

/// Whether the process is on its way.
pub fn is_on_its_way(places: &IndexMap<u64, Place>, pid: Pid) -> bool
    ensures { result ≡ is_on_its_way (place_kept places.now.entries pid) }
{
    match place_in(places, pid) {
        Some(place) => place.moving,
        None => false,
    }
}

/// Keeps where an event of a kernel puts a process: a child begins where its parent is. The one error is want of memory.
pub fn keep_place(
    places: &mut IndexMap<u64, Place>,
    kernel: Kernel,
    event: &Event,
) -> Result<(), NoMemory>
    ensures { OnOk result (MovesOn kernel event.now places.old.entries places.new.entries) }
{
    match event {
        Event::Enter { entry } => keep_child(places, entry),
        Event::Freeze { pid } => put_there(
            places,
            *pid,
            Place {
                kernel,
                moving: true,
            },
        ),
        Event::Thaw { pid } => put_there(
            places,
            *pid,
            Place {
                kernel,
                moving: false,
            },
        ),
        _ => Ok(()),
    }
}

fn put_there(places: &mut IndexMap<u64, Place>, pid: Pid, place: Place) -> Result<(), NoMemory>
    ensures { OnOk result (PutsPlace pid place places.old.entries places.new.entries) }
{
    places.insert(u64::from(pid.number()), place)?;
    Ok(())
}

fn keep_child(places: &mut IndexMap<u64, Place>, entry: &Entry) -> Result<(), NoMemory>
    ensures { OnOk result ((pid : ℕ) → place_kept places.new.entries pid ≡ moves_child (child_of_entry entry.now) (place_kept places.old.entries entry.now.pid) pid (place_kept places.old.entries pid)) }
{
    let Some(child) = child_of(entry) else {
        return Ok(());
    };
    let Some(place) = place_in(places, entry.pid) else {
        return Ok(());
    };
    places.insert(child, place)?;
    Ok(())
}

/// The number of the child that an entry makes, if it is a fork's.
pub fn child_of(entry: &Entry) -> Option<u64>
    ensures { result ≡ child_of_entry entry.now }
{
    match &entry.call {
        Some(Call::Fork) => match &entry.reply {
            Some(Reply::Value { first, .. }) => Some(*first),
            _ => None,
        },
        _ => None,
    }
}
