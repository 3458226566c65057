ghost use Rattle.std.specs.Prelude.{◌≡◌, IfOk};
ghost use Rattle.std.specs.List.{list_all};
ghost use Rattle.migrate_freeze.specs.Packing.{can_travel, fd_of, fds_of, offset_of, packed, packed_stream, packed_with, target_of};

use crate::moves::MovedStream;
use packet_bodies::{CarriedMode, CarriedStream, Descriptor, Target};
use sprite_ids::{Items, NoMemory, Object, StreamNo};
use std::alloc::Global;
use stream_table::{Carried, Place};

// What a stream leads to, as a packet tells it; None exactly for the master's end of a pseudo-device.
fn target_of(object: Object) -> Option<Target>
    ensures { result ≡ target_of object }
{
    match object {
        Object::File(file) => Some(Target::File(file)),
        Object::Device(device) => Some(Target::Device(device)),
        Object::Master(_) => None,
    }
}

// An offset, as a packet tells it: None where it is the server's.
fn offset_of(place: Place) -> Option<u32>
    ensures { result ≡ offset_of place }
{
    match place {
        Place::Local(offset) => Some(offset),
        Place::Shared => None,
    }
}

// Whether a packet can tell of the descriptor and its stream.
fn can_travel(item: &Carried) -> bool
    ensures { result ≡ can_travel item.now }
{
    item.fd < 16
        && target_of(item.stream.object).is_some()
        && CarriedMode::new(item.stream.mode, item.stream.append).is_some()
}

// Whether a packet can tell of all of them.
pub(crate) fn all_travel(streams: &[Carried]) -> bool
    ensures { result ≡ list_all can_travel streams.now }
{
    streams.iter().all(|item| can_travel(item))
}

// The descriptor with its stream's number, as a packet tells them; None where its number is over 15.
fn fd_of(item: &Carried) -> Option<(Descriptor, StreamNo)>
    ensures { result ≡ fd_of item.now }
{
    let fd = Descriptor::new(item.fd)?;
    Some((fd, item.number))
}

// The descriptors with the numbers of their streams, in their order.
pub(crate) fn fds_of(
    alloc: Global,
    streams: &[Carried],
) -> Result<Items<(Descriptor, StreamNo)>, NoMemory>
    ensures { IfOk result (λ fds. fds ≡ fds_of streams.now) }
{
    let mut fds = Items::new(alloc);
    for item in streams {
        if let Some(fd) = fd_of(item) {
            fds.append(&[fd])?;
        }
    }
    Ok(fds)
}

// The stream as a packet tells it; None where that can't tell what it leads to or what it is open for.
fn packed_stream(moved: &MovedStream) -> Option<CarriedStream>
    ensures { result ≡ packed_stream moved.now }
{
    let object = target_of(moved.stream.object)?;
    let mode = CarriedMode::new(moved.stream.mode, moved.stream.append)?;
    Some(CarriedStream {
        stream: moved.number,
        object,
        mode,
        offset: offset_of(moved.stream.place),
        grant: moved.grant,
        grants: moved.stream.grants,
    })
}

// The streams as a packet tells them, in their order.
pub(crate) fn packed(
    alloc: Global,
    moved: &[Option<MovedStream>; 16],
) -> Result<Items<CarriedStream>, NoMemory>
    ensures { IfOk result (λ streams. streams ≡ packed moved.now) }
{
    let mut streams = Items::new(alloc);
    for place in moved {
        if let Some(stream) = packed_place(place) {
            streams.append(&[stream])?;
        }
    }
    Ok(streams)
}

// What stands at a place, as a packet tells it.
fn packed_place(place: &Option<MovedStream>) -> Option<CarriedStream>
    ensures { result ≡ packed_with place.now }
{
    match place {
        Some(moved) => packed_stream(moved),
        None => None,
    }
}
