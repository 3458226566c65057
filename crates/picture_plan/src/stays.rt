ghost use Rattle.std.specs.Prelude.{◌≤◌};

use crate::seen::{Deed, Seen};
use crate::shapes::{Arrow, Bar, BarKind, Kind};
use crate::span::Span;
use sprite_ids::{Kernel, NoMemory, Pid};
use std::alloc::Global;
use std::collections::BTreeMap;

/// Where a process stands, or stood when it was frozen.
#[derive(Clone, Copy)]
struct Here {
    kernel: Kernel,
    slot: u8,
    first: usize,
    /// Where its call began, while it is inside one.
    call: Option<usize>,
    /// Where it was frozen.
    frozen: Option<usize>,
}

/// Which process stands where, by the records so far (this project).
///
/// A process is on a kernel from the first record of it there to its freeze, or to the entry of its end, or to the trace's end. Its slot
/// is the lowest that no other process on that kernel has. What is kept are the parts that the span shows.
#[derive(Drop)]
pub(crate) struct Stays {
    pub(crate) bars: Vec<Bar>,
    pub(crate) moves: Vec<Arrow>,
    here: BTreeMap<Pid, Here>,
    span: Span,
}

impl Stays {
    pub(crate) fn new(alloc: Global, span: Span) -> Stays {
        Stays {
            bars: Vec::new(alloc),
            moves: Vec::new(alloc),
            here: BTreeMap::new(alloc),
            span,
        }
    }

    /// Takes the record of that place, and says which slot of its lane its process has. The one error is want of memory.
    pub(crate) fn take(&mut self, place: usize, seen: &Seen) -> Result<u8, NoMemory> {
        let Some(pid) = seen.pid() else {
            return Ok(0);
        };
        match seen.deed {
            Deed::Runs => self.stand(place, seen.kernel, pid),
            Deed::Issues => {
                let slot = self.stand(place, seen.kernel, pid)?;
                self.set_call(pid, Some(place));
                Ok(slot)
            }
            Deed::Returns => {
                let slot = self.stand(place, seen.kernel, pid)?;
                self.end_call(pid, place)?;
                Ok(slot)
            }
            Deed::Freezes => self.freeze(place, seen.kernel, pid),
            Deed::Thaws => self.thaw(place, seen.kernel, pid),
            Deed::Enters { last: true } => {
                self.leave(pid, place)?;
                Ok(0)
            }
            _ => Ok(0),
        }
    }

    /// Ends what goes on at the trace's end. The one error is want of memory.
    pub(crate) fn close(&mut self, alloc: Global, place: usize) -> Result<(), NoMemory> {
        let pids: Vec<Pid> = self.here.keys().copied().collect(alloc)?;
        for pid in pids.iter() {
            self.leave(*pid, place)?;
        }
        Ok(())
    }

    // The process is on that kernel, from that place on if it wasn't.
    fn stand(&mut self, place: usize, kernel: Kernel, pid: Pid) -> Result<u8, NoMemory> {
        if let Some(here) = self.here.get(&pid) {
            if here.kernel.number() == kernel.number() && here.frozen.is_none() {
                return Ok(here.slot);
            }
        }
        self.leave(pid, place)?;
        let slot = self.free_slot(kernel);
        let here = Here {
            kernel,
            slot,
            first: place,
            call: None,
            frozen: None,
        };
        self.here.insert(pid, here)?;
        Ok(slot)
    }

    // The lowest slot of a kernel that no process there has.
    fn free_slot(&self, kernel: Kernel) -> u8 {
        for slot in 0..u8::MAX {
            if !self.is_taken(kernel, slot) {
                return slot;
            }
        }
        u8::MAX
    }

    fn is_taken(&self, kernel: Kernel, slot: u8) -> bool {
        for here in self.here.values() {
            let same = here.slot == slot && here.kernel.number() == kernel.number();
            if same && here.frozen.is_none() {
                return true;
            }
        }
        false
    }

    fn set_call(&mut self, pid: Pid, call: Option<usize>) {
        if let Some(here) = self.here.get_mut(&pid) {
            here.call = call;
        }
    }

    fn end_call(&mut self, pid: Pid, place: usize) -> Result<(), NoMemory> {
        if let Some(here) = self.here.get(&pid).copied() {
            self.keep(BarKind::Call, pid, &here, here.call, place)?;
        }
        self.set_call(pid, None);
        Ok(())
    }

    // The process isn't on its kernel any more.
    fn leave(&mut self, pid: Pid, place: usize) -> Result<(), NoMemory> {
        let Some(here) = self.here.remove(&pid) else {
            return Ok(());
        };
        if here.frozen.is_none() {
            self.keep(BarKind::Call, pid, &here, here.call, place)?;
            self.keep(BarKind::Stay, pid, &here, Some(here.first), place)?;
        }
        Ok(())
    }

    fn keep(
        &mut self,
        kind: BarKind,
        pid: Pid,
        here: &Here,
        first: Option<usize>,
        last: usize,
    ) -> Result<(), NoMemory> {
        let Some(first) = first else {
            return Ok(());
        };
        if self.span.touches(first, last) {
            self.bars.extend_from_slice(&[Bar {
                kind,
                pid: Some(pid),
                kernel: here.kernel,
                across: across_of(here.slot) + 4,
                first,
                last,
            }])?;
        }
        Ok(())
    }

    fn freeze(&mut self, place: usize, kernel: Kernel, pid: Pid) -> Result<u8, NoMemory> {
        let slot = self.stand(place, kernel, pid)?;
        let Some(mut here) = self.here.get(&pid).copied() else {
            return Ok(slot);
        };
        self.leave(pid, place)?;
        here.frozen = Some(place);
        self.here.insert(pid, here)?;
        Ok(slot)
    }

    fn thaw(&mut self, place: usize, kernel: Kernel, pid: Pid) -> Result<u8, NoMemory> {
        let before = self.here.get(&pid).copied();
        let slot = self.stand(place, kernel, pid)?;
        let Some(before) = before else {
            return Ok(slot);
        };
        let Some(first) = before.frozen else {
            return Ok(slot);
        };
        if before.call.is_some() {
            self.set_call(pid, Some(place));
        }
        let moved = before.kernel.number() != kernel.number();
        if moved && self.span.touches(first, place) {
            self.moves.extend_from_slice(&[Arrow {
                kind: Kind::Move,
                repeated: false,
                pid: Some(pid),
                first,
                source: before.kernel,
                start: across_of(before.slot) + 4,
                last: place,
                target: kernel,
                end: across_of(slot) + 4,
            }])?;
        }
        Ok(slot)
    }
}

/// How far from its lane's left edge the marks of a process stand that has that slot, in pixels: six of ten pixels, which more processes
/// take in turn.
pub fn across_of(slot: u8) -> u8
    ensures within { (10 ≤ result) × (result ≤ 60) }
{
    10 + 10 * (slot % 6)
}
