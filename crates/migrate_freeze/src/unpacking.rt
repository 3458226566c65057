ghost use Rattle.std.specs.Prelude.{◌≡◌, IfOk, option_map};
ghost use Rattle.std.specs.List.{find};
ghost use Rattle.migrate_freeze.specs.Arriving.{brings, descriptor_of, descriptors_of, object_of, place_of, stream_of};

use packet_bodies::{CarriedStream, Descriptor, Target};
use sprite_ids::{Items, NoMemory, Object, StreamNo};
use std::alloc::Global;
use stream_table::{Carried, Place, Stream};

// What a stream leads to.
fn object_of(object: Target) -> Object
    ensures { result ≡ object_of object }
{
    match object {
        Target::File(file) => Object::File(file),
        Target::Device(device) => Object::Device(device),
    }
}

// Where an offset is kept.
fn place_of(offset: Option<u32>) -> Place
    ensures { result ≡ place_of offset }
{
    match offset {
        Some(offset) => Place::Local(offset),
        None => Place::Shared,
    }
}

// The stream that a packet tells of.
fn stream_of(carried: &CarriedStream) -> Stream
    ensures { result ≡ stream_of carried.now }
{
    Stream {
        object: object_of(carried.object),
        mode: carried.mode.mode(),
        place: place_of(carried.offset),
        grants: carried.grants,
        append: carried.mode.append(),
    }
}

// The first of the streams that has that number.
pub(crate) fn carried_at<'a>(
    streams: &'a [CarriedStream],
    number: &StreamNo,
) -> Option<&'a CarriedStream>
    ensures { option_map (λ carried. carried.now) result ≡ find (brings number.now) streams.now }
{
    streams.iter().find(|carried| carried.stream == *number)
}

// The descriptor with its stream; None where the packet doesn't tell of that stream.
fn descriptor_of(fd: &(Descriptor, StreamNo), streams: &[CarriedStream]) -> Option<Carried>
    ensures { result ≡ descriptor_of streams.now fd.now }
{
    match carried_at(streams, &fd.1) {
        Some(carried) => Some(Carried {
            fd: fd.0.number(),
            number: fd.1,
            stream: stream_of(carried),
        }),
        None => None,
    }
}

// The descriptors with their streams, in their order.
pub(crate) fn descriptors_of(
    alloc: Global,
    fds: &[(Descriptor, StreamNo)],
    streams: &[CarriedStream],
) -> Result<Items<Carried>, NoMemory>
    ensures { IfOk result (λ descriptors. descriptors ≡ descriptors_of fds.now streams.now) }
{
    let mut descriptors = Items::new(alloc);
    for fd in fds {
        if let Some(item) = descriptor_of(fd, streams) {
            descriptors.append(&[item])?;
        }
    }
    Ok(descriptors)
}
