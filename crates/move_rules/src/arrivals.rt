ghost use Rattle.std.specs.Prelude.{◌≡◌, ℕ, [], OnOk};
ghost use Rattle.call_journal.specs.Calls.{move_target};
ghost use Rattle.call_journal.specs.Moves.{kernel_from};
ghost use Rattle.move_rules.specs.declared.arrivals.ThawAt.{ThawAt};
ghost use Rattle.trace_tables.specs.declared.CallAt.{CallAt};
ghost use Rattle.move_rules.specs.Arrivals.{ArrivalsOn, DuesOn, ThawsOn, arrival_at, arrival_behind, named_target, returns_at, thaws_of, way_target};
ghost use Rattle.trace_places.specs.Places.{place_kept, is_on_its_way};

use indexmap::IndexMap;
use process_machine::{Call, Reply};
use sprite_ids::{Bytes, Kernel, NoMemory, Pid};
use std::alloc::Global;
use trace_places::{Place, is_on_its_way};
use trace_tables::CallAt;
use unix_calls::{Description, Entry, Event, KernelLine, Rec};

/// A process, as it is thawed at the kernel of that number (this project).
#[derive(Clone, Copy, Debug, PartialEq, Eq, Hash)]
pub(crate) struct ThawAt {
    pub(crate) pid: Pid,
    pub(crate) kernel: u64,
}

/// Where a call is to return whose move was entered on the way (this project).
#[derive(Clone, Copy, Debug, PartialEq, Eq)]
pub(crate) struct Arrival {
    /// The number of the kernel; 0 where none has the name.
    pub(crate) target: u64,
    /// How often the process had been thawed there when the move was entered last.
    pub(crate) thaws: u64,
    /// Whether moves of the call to several kernels were entered.
    pub(crate) is_split: bool,
}

/// What is kept of the moves that were entered on the way (Douglis and Ousterhout 1991).
#[derive(Drop)]
pub(crate) struct Arrivals {
    /// How often each process was thawed at a kernel.
    pub(crate) thaws: IndexMap<ThawAt, u64>,
    /// Where the calls are to return.
    pub(crate) dues: IndexMap<CallAt, Arrival>,
}

impl Arrivals {
    /// Nothing.
    pub(crate) fn new(alloc: Global) -> Arrivals
        ensures thaws { result.thaws.entries ≡ [] }
        ensures dues { result.dues.entries ≡ [] }
    {
        Arrivals {
            thaws: IndexMap::new(alloc),
            dues: IndexMap::new(alloc),
        }
    }

    /// Whether the call may return at the kernel.
    pub(crate) fn returns_at(&self, pid: Pid, number: u32, kernel: Kernel) -> bool
        ensures { result ≡ returns_at self.now pid number kernel }
    {
        let Some(due) = self.dues.get(&CallAt { pid, number }) else {
            return true;
        };
        let kernel = u64::from(kernel.number());
        let thaws = thaws_of(&self.thaws, &ThawAt { pid, kernel });
        !(due.is_split || kernel != due.target || thaws == due.thaws)
    }

    /// Keeps what the next record tells, by where the processes are before it. The one error is want of memory; a part may be kept
    /// then.
    pub(crate) fn go_on(
        &mut self,
        c: &Description,
        places: &IndexMap<u64, Place>,
        rec: &Rec,
    ) -> Result<(), NoMemory>
        ensures { OnOk result (ArrivalsOn c.now places.now.entries rec.now self.old self.new) }
    {
        keep_due(&mut self.dues, &self.thaws, c, places, &rec.event)?;
        keep_thaw(&mut self.thaws, rec)
    }
}

// How often the process was thawed at the kernel.
fn thaws_of(thaws: &IndexMap<ThawAt, u64>, at: &ThawAt) -> u64
    ensures { result ≡ thaws_of thaws.now.entries at.now }
{
    match thaws.get(at) {
        Some(count) => *count,
        None => 0,
    }
}

// Counts a thaw.
fn keep_thaw(thaws: &mut IndexMap<ThawAt, u64>, rec: &Rec) -> Result<(), NoMemory>
    ensures { OnOk result (ThawsOn rec.now thaws.old.entries thaws.new.entries) }
{
    let Event::Thaw { pid } = &rec.event else {
        return Ok(());
    };
    let at = ThawAt {
        pid: *pid,
        kernel: u64::from(rec.kernel.number()),
    };
    let count = thaws_of(thaws, &at).checked_add(1).ok_or(NoMemory)?;
    thaws.insert(at, count)?;
    Ok(())
}

// Keeps where the call of a move is to return that is entered on the way.
fn keep_due(
    dues: &mut IndexMap<CallAt, Arrival>,
    thaws: &IndexMap<ThawAt, u64>,
    c: &Description,
    places: &IndexMap<u64, Place>,
    event: &Event,
) -> Result<(), NoMemory>
    ensures { OnOk result (DuesOn c.now places.now.entries event.now thaws.now.entries dues.old.entries dues.new.entries) }
{
    let Event::Enter { entry } = event else {
        return Ok(());
    };
    let Some(target) = way_target(c, places, entry) else {
        return Ok(());
    };
    let pid = entry.pid;
    let number = entry.number;
    let at = CallAt { pid, number };
    let kernel = target;
    let count = thaws_of(thaws, &ThawAt { pid, kernel });
    let due = arrival_behind(dues, &at, target, count);
    dues.insert(at, due)?;
    Ok(())
}

// Where a call is to return, with one more move to that kernel.
fn arrival_behind(dues: &IndexMap<CallAt, Arrival>, at: &CallAt, target: u64, thaws: u64) -> Arrival
    ensures { result ≡ arrival_behind target thaws (arrival_at dues.now.entries at.now) }
{
    let is_split = match dues.get(at) {
        Some(due) => due.is_split || due.target != target,
        None => false,
    };
    Arrival {
        target,
        thaws,
        is_split,
    }
}

// The kernel to which an entry moves its process that is on its way.
fn way_target(c: &Description, places: &IndexMap<u64, Place>, entry: &Entry) -> Option<u64>
    ensures { result ≡ way_target c.now places.now.entries entry.now }
{
    if !is_on_its_way(places, entry.pid) {
        return None;
    }
    named_target(c, entry)
}

/// The kernel to which an entry moves its process, by its number; 0 where none has the name.
pub(crate) fn named_target(c: &Description, entry: &Entry) -> Option<u64>
    ensures { result ≡ named_target c.now entry.now.call entry.now.reply }
{
    let is_done = match &entry.reply {
        Some(Reply::Value { .. }) => true,
        _ => false,
    };
    if !is_done {
        return None;
    }
    match &entry.call {
        Some(Call::Migrate { name }) => Some(kernel_named(c.kernels.as_slice(), name)),
        Some(Call::Rexec { host, .. }) => Some(kernel_named(c.kernels.as_slice(), host)),
        _ => None,
    }
}

// The number of the kernel of that name; 0 where none has it.
fn kernel_named(kernels: &[KernelLine], name: &Bytes) -> u64
    ensures { result ≡ kernel_from 1 kernels.now name.now }
{
    for (place, line) in kernels.iter().enumerate() {
        if line.name == *name {
            return place as u64 + 1;
        }
    }
    0
}
