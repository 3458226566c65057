ghost use Rattle.std.specs.Prelude.{◌≡◌, IfOk, OnOk};
ghost use Rattle.unix_calls.specs.Lawful.{Lawful};
ghost use Rattle.call_journal.specs.EntryPlaces.{entries_stand_at_their_kernels, stands_well};
ghost use Rattle.trace_tables.specs.Callers.{callers_from, callers_of};
ghost use Rattle.trace_rules.specs.Judging.{caller_of, callers_each};
ghost use Rattle.place_rules.specs.Entries.{AwayOn, EntersOn, PutsServed, RepliesOn, RequestsOn, ServesOn, SharesOn, TellsEntries, enters_well, has_request, is_answered_by, made_kernel, stands_in};
ghost use Rattle.trace_places.specs.Places.{place_kept};
ghost use Rattle.place_rules.specs.EntryLaws.{entries_told, entries_on};

use crate::request_at::RequestAt;
use crate::stand::{is_at, stand_by};
use indexmap::{IndexMap, IndexSet};
use process_machine::{Call, Reply};
use sprite_ids::{Kernel, NoMemory, Pid, StreamNo};
use std::alloc::Global;
use trace_places::{Place, boot_places, is_kernel_of, keep_place, place_in};
use trace_rules::{LooksBackTold, each_keeps_told};
use trace_tables::{CallAt, Caller};
use unix_calls::{Description, Entry, Event, Rec};

/// Whether each entry of the trace stands at the kernel that does its call, whose request was taken there where that isn't its
/// process's (this project). `callers` tells of each record what the one-kernel Unix tells of its call. The one error is want of
/// memory.
pub fn entries_stand_at_their_kernels(
    alloc: Global,
    c: &Description,
    trace: &[Rec],
    callers: &[Caller],
) -> Result<bool, NoMemory>
    requires lawful { Lawful c.now }
    requires called { callers.now ≡ callers_of c.now trace.now }
    ensures { IfOk result (λ kept. kept ≡ entries_stand_at_their_kernels c.now trace.now) }
{
    let places = boot_places(alloc, c)?;
    let mut judge = Entries {
        places,
        devices: IndexMap::new(alloc),
        shared: IndexSet::new(alloc),
        requests: IndexSet::new(alloc),
        replies: IndexSet::new(alloc),
        away: IndexSet::new(alloc),
    };
    each_keeps_told(alloc, c, &mut judge, trace, callers)
}

/// What is kept of the records so far (this project).
#[derive(Drop)]
pub(crate) struct Entries {
    /// Where the processes are, by number.
    pub(crate) places: IndexMap<u64, Place>,
    /// The kernels that serve the devices, by the place of the entry that made each.
    pub(crate) devices: IndexMap<u32, Kernel>,
    /// The streams that are shared.
    pub(crate) shared: IndexSet<StreamNo>,
    /// The calls whose requests were taken at a kernel.
    pub(crate) requests: IndexSet<RequestAt>,
    /// The calls whose replies were taken.
    pub(crate) replies: IndexSet<CallAt>,
    /// The calls that were entered at another kernel than their process's.
    pub(crate) away: IndexSet<CallAt>,
}

impl LooksBackTold<Caller> for Entries {
    ghost told_of = { caller_of };

    ghost told_from = { callers_from };

    ghost test = { λ c trace past rec. stands_well c past rec.kernel rec.event };

    ghost tells = { λ c trace judge past. TellsEntries c judge past };

    ghost fits = { λ c judge rec caller. enters_well c judge rec.kernel rec.event caller };

    ghost goes_on = { λ c rec caller old new. EntersOn rec caller old new };

    fn fits(
        &self,
        _alloc: Global,
        c: &Description,
        rec: &Rec,
        caller: &Caller,
    ) -> Result<bool, NoMemory> {
        match &rec.event {
            Event::Enter { entry } => Ok(stands_in(self, c, rec.kernel, entry, caller)),
            Event::Return { pid, number, .. } => Ok(is_answered_by(self, *pid, *number)),
            _ => Ok(true),
        }
    }

    fn go_on(
        &mut self,
        _alloc: Global,
        _c: &Description,
        rec: &Rec,
        caller: &Caller,
    ) -> Result<(), NoMemory> {
        keep_away(&mut self.away, &self.places, rec)?;
        keep_served(&mut self.devices, &self.places, caller.place, &rec.event)?;
        keep_shared(&mut self.shared, &rec.event)?;
        keep_request(&mut self.requests, rec)?;
        keep_reply(&mut self.replies, &rec.event)?;
        keep_place(&mut self.places, rec.kernel, &rec.event)
    }

    ghost each = { callers_each };

    ghost is_told = { λ c trace judge past rec. entries_told c judge past rec };

    ghost tells_on = { λ c trace old new past rec. entries_on c old new past rec };
}

// Whether an entry at the kernel stands where it is to stand.
fn stands_in(
    judge: &Entries,
    c: &Description,
    kernel: Kernel,
    entry: &Entry,
    caller: &Caller,
) -> bool
    ensures { result ≡ stands_in c.now judge.now kernel entry.now caller.now }
{
    let Some(at) = place_in(&judge.places, entry.pid) else {
        return false;
    };
    let stand = stand_by(c, &judge.shared, &judge.devices, caller, entry);
    is_at(stand, at.kernel, kernel)
        && (kernel == at.kernel || was_requested(&judge.requests, kernel, entry))
}

// Whether a request of the entry's call was taken at the kernel.
fn was_requested(requests: &IndexSet<RequestAt>, kernel: Kernel, entry: &Entry) -> bool
    ensures { result ≡ has_request requests.now.keys (record { kernel = kernel; pid = entry.now.pid; number = entry.now.number }) }
{
    let pid = entry.pid;
    let number = entry.number;
    requests.contains(&RequestAt {
        kernel,
        pid,
        number,
    })
}

// Whether a call may return, since it was entered at its process's kernel alone, or a reply was taken.
fn is_answered_by(judge: &Entries, pid: Pid, number: u32) -> bool
    ensures { result ≡ is_answered_by judge.now pid number }
{
    let at = CallAt { pid, number };
    !judge.away.contains(&at) || judge.replies.contains(&at)
}

// Keeps the call of an entry at another kernel than its process's.
fn keep_away(
    away: &mut IndexSet<CallAt>,
    places: &IndexMap<u64, Place>,
    rec: &Rec,
) -> Result<(), NoMemory>
    ensures { OnOk result (AwayOn rec.now places.now.entries away.old.keys away.new.keys) }
{
    let Event::Enter { entry } = &rec.event else {
        return Ok(());
    };
    if is_kernel_of(places, entry.pid, rec.kernel) {
        return Ok(());
    }
    let pid = entry.pid;
    let number = entry.number;
    away.insert(CallAt { pid, number })?;
    Ok(())
}

// Keeps the kernel of a device that an entry makes, unless one is kept of that place.
fn keep_served(
    devices: &mut IndexMap<u32, Kernel>,
    places: &IndexMap<u64, Place>,
    place: u32,
    event: &Event,
) -> Result<(), NoMemory>
    ensures { OnOk result (ServesOn event.now place places.now.entries devices.old.entries devices.new.entries) }
{
    let Event::Enter { entry } = event else {
        return Ok(());
    };
    match made_kernel(places, entry) {
        Some(kernel) => put_served(devices, place, kernel),
        None => Ok(()),
    }
}

// The kernel of the device that an entry makes.
fn made_kernel(places: &IndexMap<u64, Place>, entry: &Entry) -> Option<Kernel>
    ensures { result ≡ made_kernel entry.now.call entry.now.reply (place_kept places.now.entries entry.now.pid) }
{
    match &entry.call {
        Some(Call::PdMake { .. }) => match &entry.reply {
            Some(Reply::Value { .. }) => match place_in(places, entry.pid) {
                Some(at) => Some(at.kernel),
                None => None,
            },
            _ => None,
        },
        _ => None,
    }
}

fn put_served(
    devices: &mut IndexMap<u32, Kernel>,
    place: u32,
    kernel: Kernel,
) -> Result<(), NoMemory>
    ensures { OnOk result (PutsServed place kernel devices.old.entries devices.new.entries) }
{
    if devices.get(&place).is_none() {
        devices.insert(place, kernel)?;
    }
    Ok(())
}

// Keeps a stream that becomes shared.
fn keep_shared(shared: &mut IndexSet<StreamNo>, event: &Event) -> Result<(), NoMemory>
    ensures { OnOk result (SharesOn event.now shared.old.keys shared.new.keys) }
{
    if let Event::Shared { stream, .. } = event {
        shared.insert(*stream)?;
    }
    Ok(())
}

// Keeps the call of a request that is taken.
fn keep_request(requests: &mut IndexSet<RequestAt>, rec: &Rec) -> Result<(), NoMemory>
    ensures { OnOk result (RequestsOn rec.now requests.old.keys requests.new.keys) }
{
    if let Event::Deliver {
        reply: false,
        about: Some(about),
        ..
    } = &rec.event
    {
        let kernel = rec.kernel;
        let pid = about.pid;
        let number = about.number;
        requests.insert(RequestAt {
            kernel,
            pid,
            number,
        })?;
    }
    Ok(())
}

// Keeps the call of a reply that is taken.
fn keep_reply(replies: &mut IndexSet<CallAt>, event: &Event) -> Result<(), NoMemory>
    ensures { OnOk result (RepliesOn event.now replies.old.keys replies.new.keys) }
{
    if let Event::Deliver {
        reply: true,
        about: Some(about),
        ..
    } = event
    {
        let pid = about.pid;
        let number = about.number;
        replies.insert(CallAt { pid, number })?;
    }
    Ok(())
}
