ghost use Rattle.std.specs.Prelude.{◌≡◌, ◌<◌, IsTrue, IsOk, IfSome, OnOk, Some, None, false, slice_set, slice_get};
ghost use Rattle.std.specs.List.{list_any, position};
ghost use Rattle.indexmap.specs.IndexMap.{spare, values};
ghost use Rattle.sprite_ids.specs.Lists.{put, EachOnce};
ghost use Rattle.stream_table.specs.Owners.{owners_in, is_owner, names, leads_to, is_referred, is_free, nothing, numbers_of, named, descriptor, is_used, same_owner};
ghost use Rattle.stream_table.specs.Streams.{free, freed, with_descriptor};

use indexmap::IndexMap;
use sprite_ids::{NoMemory, Pid, StreamNo};

/// The descriptors of a process, from 0 to 15, with the stream of each that is in use.
#[derive(Clone, Copy, Debug, PartialEq, Eq)]
pub struct Descriptors {
    pub numbers: [Option<StreamNo>; 16],
}

impl Descriptors {
    // None in use.
    fn none() -> Descriptors
        ensures { result.numbers ≡ nothing }
    {
        Descriptors {
            numbers: [None; 16],
        }
    }

    // Whether one of them leads to the stream.
    fn refers(&self, number: &StreamNo) -> bool
        ensures { result ≡ leads_to number.now self.now }
    {
        self.numbers.iter().any(|known| names(*known, number))
    }

    // The lowest that is free.
    fn lowest_free(&self) -> Option<usize>
        ensures first { result ≡ position is_free self.now.numbers }
        ensures few { IfSome result (λ fd. fd < 16) }
    {
        self.numbers.iter().position(|known| known.is_none())
    }

    // Whether any is in use.
    fn is_used(&self) -> bool
        ensures { result ≡ is_used self.now.numbers }
    {
        self.numbers.iter().any(|known| known.is_some())
    }

    // The stream of that descriptor.
    fn at(&self, fd: u64) -> Option<StreamNo>
        ensures number { result ≡ named (slice_get self.now.numbers fd) }
        ensures few { IfSome result (λ number. fd < 16) }
    {
        match self.numbers.get(fd as usize) {
            Some(known) => *known,
            None => None,
        }
    }

    // The descriptor leads there from now on, or is free.
    fn set(&mut self, fd: usize, number: Option<StreamNo>)
        requires { fd < 16 }
        ensures { self.new.numbers ≡ slice_set self.old.numbers fd number }
    {
        self.numbers[fd] = number;
    }
}

// Whether a descriptor leads to the stream.
fn names(known: Option<StreamNo>, number: &StreamNo) -> bool
    ensures { result ≡ names number.now known }
{
    match known {
        Some(known) => known == *number,
        None => false,
    }
}

// Whether a descriptor of any process leads to the stream.
pub(crate) fn is_referred(owners: &IndexMap<Pid, Descriptors>, number: &StreamNo) -> bool
    ensures { result ≡ is_referred (owners_in owners.now.entries) number.now }
{
    any_refers(owners, number)
}

// Whether any of the descriptors leads to the stream.
fn any_refers(owners: &IndexMap<Pid, Descriptors>, number: &StreamNo) -> bool
    ensures { result ≡ list_any (leads_to number.now) (values owners.now) }
{
    owners
        .values()
        .any(|descriptors| descriptors.refers(number))
}

// The stream of the process's descriptor.
pub(crate) fn descriptor(owners: &IndexMap<Pid, Descriptors>, pid: Pid, fd: u64) -> Option<StreamNo>
    ensures number { result ≡ descriptor (owners_in owners.now.entries) pid fd }
    ensures few { IfSome result (λ number. fd < 16) }
{
    match owners.get(&pid) {
        Some(descriptors) => descriptors.at(fd),
        None => None,
    }
}

// The process's lowest free descriptor.
pub(crate) fn lowest_free(owners: &IndexMap<Pid, Descriptors>, pid: Pid) -> Option<usize>
    ensures first { result ≡ free (owners_in owners.now.entries) pid }
    ensures few { IfSome result (λ fd. fd < 16) }
{
    match owners.get(&pid) {
        Some(descriptors) => descriptors.lowest_free(),
        None => Some(0),
    }
}

// Whether any descriptor of the process is in use.
pub(crate) fn is_used(owners: &IndexMap<Pid, Descriptors>, pid: Pid) -> bool
    ensures { result ≡ is_used (numbers_of (owners_in owners.now.entries) pid) }
{
    match owners.get(&pid) {
        Some(descriptors) => descriptors.is_used(),
        None => false,
    }
}

// The process's descriptors.
pub(crate) fn descriptors_of(owners: &IndexMap<Pid, Descriptors>, pid: Pid) -> Descriptors
    ensures { result.numbers ≡ numbers_of (owners_in owners.now.entries) pid }
{
    match owners.get(&pid) {
        Some(descriptors) => *descriptors,
        None => Descriptors::none(),
    }
}

// Makes room for one more process.
pub(crate) fn make_room(owners: &mut IndexMap<Pid, Descriptors>) -> Result<(), NoMemory>
    ensures entries { owners.new.entries ≡ owners.old.entries }
    ensures ok { OnOk result (0 < spare owners.new) }
{
    owners.reserve(1)?;
    Ok(())
}

// The process with these descriptors. It is there, or there is room for it.
pub(crate) fn put(owners: &mut IndexMap<Pid, Descriptors>, pid: Pid, descriptors: Descriptors)
    requires { list_any (is_owner pid) (owners_in owners.old.entries) ≡ false → 0 < spare owners.old }
    ensures { owners_in owners.new.entries ≡ put (is_owner pid) (record { pid = pid; numbers = descriptors.numbers }) (owners_in owners.old.entries) }
{
    match insert(owners, pid, descriptors) {
        Ok(()) => {}
        Err(_) => unreachable!(),
    }
}

// The process with these descriptors. Without memory all is as before, and that can't be where it is there or there is room.
fn insert(
    owners: &mut IndexMap<Pid, Descriptors>,
    pid: Pid,
    descriptors: Descriptors,
) -> Result<(), NoMemory>
    ensures ok { OnOk result (owners_in owners.new.entries ≡ put (is_owner pid) (record { pid = pid; numbers = descriptors.numbers }) (owners_in owners.old.entries)) }
    ensures room { 0 < spare owners.old → IsOk result }
    ensures there { IsTrue (list_any (is_owner pid) (owners_in owners.old.entries)) → IsOk result }
{
    // The tool must be told of the types inside: it doesn't find this one by itself.
    let hint: Option<StreamNo> = None;
    owners.insert(pid, descriptors)?;
    let _used = hint;
    Ok(())
}

// The process with one more descriptor, which is free so far. It is there, or there is room for it.
pub(crate) fn give(owners: &mut IndexMap<Pid, Descriptors>, pid: Pid, fd: usize, number: &StreamNo)
    requires few { fd < 16 }
    requires room { list_any (is_owner pid) (owners_in owners.old.entries) ≡ false → 0 < spare owners.old }
    ensures { owners_in owners.new.entries ≡ with_descriptor (owners_in owners.old.entries) pid fd number.now }
{
    match owners.get_mut(&pid) {
        Some(descriptors) => descriptors.set(fd, Some(*number)),
        None => give_first(owners, pid, fd, number),
    }
}

// The process, which has no descriptor so far, with one.
fn give_first(owners: &mut IndexMap<Pid, Descriptors>, pid: Pid, fd: usize, number: &StreamNo)
    requires few { fd < 16 }
    requires room { list_any (is_owner pid) (owners_in owners.old.entries) ≡ false → 0 < spare owners.old }
    ensures { owners_in owners.new.entries ≡ put (is_owner pid) (record { pid = pid; numbers = slice_set nothing fd (Some number.now) }) (owners_in owners.old.entries) }
{
    let mut first = Descriptors::none();
    first.set(fd, Some(*number));
    put(owners, pid, first);
}

// Frees the descriptor of the process, which is there; without any it goes.
pub(crate) fn release(owners: &mut IndexMap<Pid, Descriptors>, pid: Pid, fd: usize)
    requires few { fd < 16 }
    requires there { IsTrue (list_any (is_owner pid) (owners_in owners.old.entries)) }
    requires once { EachOnce same_owner (owners_in owners.old.entries) }
    ensures { owners_in owners.new.entries ≡ freed (owners_in owners.old.entries) pid fd }
{
    if !clear(owners, pid, fd) {
        owners.shift_remove(&pid);
    }
}

// Frees the descriptor of the process, which is there, and tells whether any of it is still in use.
fn clear(owners: &mut IndexMap<Pid, Descriptors>, pid: Pid, fd: usize) -> bool
    requires few { fd < 16 }
    requires there { IsTrue (list_any (is_owner pid) (owners_in owners.old.entries)) }
    ensures owners { owners_in owners.new.entries ≡ put (is_owner pid) (record { pid = pid; numbers = slice_set (numbers_of (owners_in owners.old.entries) pid) fd None }) (owners_in owners.old.entries) }
    ensures used { result ≡ is_used (slice_set (numbers_of (owners_in owners.old.entries) pid) fd None) }
{
    match owners.get_mut(&pid) {
        Some(descriptors) => {
            descriptors.set(fd, None);
            descriptors.is_used()
        }
        None => false,
    }
}
