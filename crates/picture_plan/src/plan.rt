use crate::caching::Cachings;
use crate::packets::{Facing, Packets};
use crate::seen::{Deed, Seen, seen_of};
use crate::shapes::{Arrow, Bar};
use crate::span::Span;
use crate::stays::Stays;
use sprite_ids::{FileId, Kernel, NoMemory, Pid};
use std::alloc::Global;
use std::collections::BTreeMap;
use unix_calls::Rec;

/// What a record's marks want to know of the records before (this project).
#[derive(Clone, Copy)]
pub struct Note {
    /// The slot of the record's process in its lane.
    pub slot: u8,
    /// The number of its entry in the history of the whole trace, counted from 1.
    pub entry: u64,
    pub facing: Facing,
}

/// What there is to draw of a trace (this project).
#[derive(Drop)]
pub struct Plan {
    pub cachings: Vec<Bar>,
    pub moves: Vec<Arrow>,
    pub stays: Vec<Bar>,
    pub packets: Vec<Arrow>,
    /// One for each record that is shown.
    pub notes: Vec<Note>,
    /// The kernels and the processes that appear, ascending.
    pub kernels: Vec<Kernel>,
    pub pids: Vec<Pid>,
}

/// Plans a picture of the records: one pass in their order, with those that aren't shown too. The one error is want of memory.
pub fn plan_of(
    alloc: Global,
    records: &[Rec],
    span: Span,
    file: Option<FileId>,
) -> Result<Plan, NoMemory> {
    let mut planner = Planner::new(alloc, span, file);
    planner.take_all(records)?;
    planner.close(alloc, records.len().saturating_sub(1))?;
    Ok(planner.plan())
}

// What is planned of the records so far.
#[derive(Drop)]
struct Planner {
    cachings: Cachings,
    stays: Stays,
    packets: Packets,
    cast: Cast,
    entries: u64,
    notes: Vec<Note>,
    span: Span,
}

impl Planner {
    fn new(alloc: Global, span: Span, file: Option<FileId>) -> Planner {
        Planner {
            cachings: Cachings::new(alloc, file, span),
            stays: Stays::new(alloc, span),
            packets: Packets::new(alloc, span),
            cast: Cast::new(alloc),
            entries: 0,
            notes: Vec::new(alloc),
            span,
        }
    }

    fn take_all(&mut self, records: &[Rec]) -> Result<(), NoMemory> {
        for (place, rec) in records.iter().enumerate() {
            self.take(place, &seen_of(rec))?;
        }
        Ok(())
    }

    fn take(&mut self, place: usize, seen: &Seen) -> Result<(), NoMemory> {
        self.cachings.take(place, seen)?;
        let slot = self.stays.take(place, seen)?;
        let facing = self.packets.take(place, seen)?;
        self.cast.take(seen, facing.other)?;
        if let Deed::Enters { .. } = seen.deed {
            self.entries = self.entries.saturating_add(1);
        }
        if self.span.row(place).is_some() {
            let entry = self.entries;
            self.notes.extend_from_slice(&[Note {
                slot,
                entry,
                facing,
            }])?;
        }
        Ok(())
    }

    // Ends what goes on at the trace's end.
    fn close(&mut self, alloc: Global, end: usize) -> Result<(), NoMemory> {
        self.stays.close(alloc, end)?;
        self.cachings.close(end)?;
        self.cast.close(alloc)
    }

    fn plan(self) -> Plan {
        let cachings = self.cachings;
        let stays = self.stays;
        let packets = self.packets;
        let cast = self.cast;
        let notes = self.notes;
        Plan {
            cachings: cachings.bars,
            moves: stays.moves,
            stays: stays.bars,
            packets: packets.arrows,
            notes,
            kernels: cast.kernels,
            pids: cast.pids,
        }
    }
}

// Who appears in the records so far.
#[derive(Drop)]
struct Cast {
    seen_kernels: BTreeMap<Kernel, ()>,
    seen_pids: BTreeMap<Pid, ()>,
    kernels: Vec<Kernel>,
    pids: Vec<Pid>,
}

impl Cast {
    fn new(alloc: Global) -> Cast {
        Cast {
            seen_kernels: BTreeMap::new(alloc),
            seen_pids: BTreeMap::new(alloc),
            kernels: Vec::new(alloc),
            pids: Vec::new(alloc),
        }
    }

    fn take(&mut self, seen: &Seen, other: Option<Kernel>) -> Result<(), NoMemory> {
        self.seen_kernels.insert(seen.kernel, ())?;
        if let Some(other) = other {
            self.seen_kernels.insert(other, ())?;
        }
        if let Some(pid) = seen.pid() {
            self.seen_pids.insert(pid, ())?;
        }
        Ok(())
    }

    // Lists them, ascending.
    fn close(&mut self, alloc: Global) -> Result<(), NoMemory> {
        self.kernels = self.seen_kernels.keys().copied().collect(alloc)?;
        self.pids = self.seen_pids.keys().copied().collect(alloc)?;
        Ok(())
    }
}
