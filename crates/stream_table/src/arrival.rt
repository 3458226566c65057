ghost use Rattle.std.specs.Prelude.{◌≡◌, ◌≤◌, ◌<◌, IfOk, OnOk, OnErr, IsTrue, length, map};
ghost use Rattle.std.specs.List.{AllByRecursion};
ghost use Rattle.indexmap.specs.IndexMap.{spare};
ghost use Rattle.stream_table.specs.declared.stream.Carried.{Carried};
ghost use Rattle.stream_table.specs.Entries.{entries_in, grants_of, has_room};
ghost use Rattle.stream_table.specs.Streams.{numbers_in, arrived, carried_from, carried_one, came_as, put_all};

use crate::entries::{Known, grants_of, holder_of, put, stream_of};
use crate::owners::Descriptors;
use crate::stream::{Carried, Stream};
use indexmap::IndexMap;
use sprite_ids::{NoMemory, StreamNo};
use std::alloc::Global;

/// A stream that arrives, with all that is known of it from then on.
#[derive(Clone, Copy, Debug, PartialEq, Eq)]
pub struct Came {
    pub number: StreamNo,
    pub known: Known,
}

// The descriptors that arrive.
pub(crate) fn numbers_in(carried: &[Carried]) -> Descriptors
    requires { AllByRecursion (λ (item : Carried). item.fd < 16) carried.now }
    ensures { result.numbers ≡ numbers_in carried.now }
{
    let mut numbers = [None; 16];
    for item in carried {
        numbers[usize::from(item.fd)] = Some(item.number);
    }
    Descriptors { numbers }
}

// The stream that arrives, with the grants of the one that was here before.
fn merged(before: &IndexMap<StreamNo, Known>, item: Carried) -> Came
    requires here { grants_of (entries_in before.now.entries) item.number ≤ 2000000000 }
    requires came { item.stream.grants ≤ 2000000000 }
    ensures { result ≡ came_as (entries_in before.now.entries) item }
{
    let grants = item.stream.grants + grants_of(before, &item.number);
    Came {
        number: item.number,
        known: Known {
            stream: Some(Stream {
                grants,
                ..item.stream
            }),
            holder: holder_of(before, &item.number),
        },
    }
}

// The streams that arrive.
fn all_merged(
    alloc: Global,
    before: &IndexMap<StreamNo, Known>,
    carried: &[Carried],
) -> Result<Vec<Came>, NoMemory>
    requires room { IsTrue (has_room (entries_in before.now.entries)) }
    requires grants { AllByRecursion (λ (item : Carried). item.stream.grants ≤ 2000000000) carried.now }
    ensures { IfOk result (λ came. came.items ≡ map (came_as (entries_in before.now.entries)) carried.now) }
{
    let mut came = Vec::new(alloc);
    for item in carried {
        came.extend_from_slice(&[merged(before, *item)])?;
    }
    Ok(came)
}

// Puts in all that came; there is room for it.
fn put_each(entries: &mut IndexMap<StreamNo, Known>, came: &[Came])
    requires { length came.now ≤ spare entries.old }
    ensures { entries_in entries.new.entries ≡ put_all (entries_in entries.old.entries) came.now }
{
    for item in came {
        match put(entries, &item.number, item.known) {
            Ok(()) => {}
            Err(_) => unreachable!(),
        }
    }
}

// Puts in the streams that arrive.
pub(crate) fn arrive(
    alloc: Global,
    entries: &mut IndexMap<StreamNo, Known>,
    carried: &[Carried],
) -> Result<(), NoMemory>
    requires room { IsTrue (has_room (entries_in entries.old.entries)) }
    requires grants { AllByRecursion (λ (item : Carried). item.stream.grants ≤ 2000000000) carried.now }
    ensures ok { OnOk result (entries_in entries.new.entries ≡ arrived (entries_in entries.old.entries) carried.now) }
    ensures err { OnErr result (entries.new.entries ≡ entries.old.entries) }
{
    let came = all_merged(alloc, entries, carried)?;
    entries.reserve(came.len())?;
    put_each(entries, came.as_slice());
    Ok(())
}

// The descriptors with their streams, in ascending order.
pub(crate) fn carried_from(
    alloc: Global,
    entries: &IndexMap<StreamNo, Known>,
    numbers: &[Option<StreamNo>; 16],
) -> Result<Vec<Carried>, NoMemory>
    ensures { IfOk result (λ carried. carried.items ≡ carried_from (entries_in entries.now.entries) 0 numbers.now) }
{
    let mut carried = Vec::new(alloc);
    for fd in 0..16 {
        if let Some(item) = carried_one(entries, fd, numbers[usize::from(fd)]) {
            carried.extend_from_slice(&[item])?;
        }
    }
    Ok(carried)
}

// The descriptor with its stream.
fn carried_one(
    entries: &IndexMap<StreamNo, Known>,
    fd: u8,
    known: Option<StreamNo>,
) -> Option<Carried>
    ensures { result ≡ carried_one (entries_in entries.now.entries) fd known }
{
    let number = known?;
    let stream = stream_of(entries, &number)?;
    Some(Carried { fd, number, stream })
}
