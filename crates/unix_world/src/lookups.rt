ghost use Rattle.std.specs.Prelude.{◌≡◌, ◌==◌, ◌<◌, IfSome, length, slice_get};
ghost use Rattle.std.specs.List.{list_any};
ghost use Rattle.unix_calls.specs.declared.state.Device.{Device};
ghost use Rattle.unix_calls.specs.State.{free_descriptor, free_from, holds_master_of, is_master_of, joined_option, leads_to_master};
ghost use Rattle.unix_world.specs.Worlds.{stream_of_fd};

use crate::devices::Devices;
use crate::streams::Streams;
use crate::world::World;
use unix_calls::{Object, Process, Stream};

/// The stream that a descriptor of the process leads to.
pub fn stream_of(world: &World, p: &Process, fd: u64) -> Option<Stream>
    ensures stream { result ≡ stream_of_fd world.now p.now fd }
    ensures there { IfSome result (λ stream. fd < length p.now.descriptors) }
{
    match descriptor_at(p.descriptors.as_slice(), fd) {
        Some(place) => world.streams.at_place(place),
        None => None,
    }
}

// What the descriptor of that number leads to.
fn descriptor_at(descriptors: &[Option<u32>], fd: u64) -> Option<u32>
    ensures place { result ≡ joined_option (slice_get descriptors.now fd) }
    ensures there { IfSome result (λ place. fd < length descriptors.now) }
{
    if fd < descriptors.len() as u64 {
        descriptors[fd as usize]
    } else {
        None
    }
}

/// The lowest free descriptor of the process.
pub fn free_descriptor(p: &Process) -> Option<usize>
    ensures lowest { result ≡ free_descriptor p.now }
    ensures there { IfSome result (λ fd. fd < length p.now.descriptors) }
{
    first_free(p.descriptors.as_slice())
}

// The lowest free one of these.
fn first_free(descriptors: &[Option<u32>]) -> Option<usize>
    ensures lowest { result ≡ free_from 0 descriptors.now }
    ensures there { IfSome result (λ fd. fd < length descriptors.now) }
{
    for (fd, place) in descriptors.iter().enumerate() {
        if place.is_none() {
            return Some(fd);
        }
    }
    None
}

/// Whether the process holds the master stream of some device. No device is looked at where it holds no master stream.
pub fn holds_a_master(world: &World, p: &Process) -> bool
    ensures { result ≡ list_any (λ (d : Device). holds_master_of world.now.streams d.place p.now) world.now.devices }
{
    any_is_master(world, p.descriptors.as_slice())
}

// Whether one of the descriptors leads to the master stream of some device.
fn any_is_master(world: &World, descriptors: &[Option<u32>]) -> bool
    ensures { result ≡ list_any (λ (d : Device). list_any (leads_to_master world.now.streams d.place) descriptors.now) world.now.devices }
{
    for place in descriptors {
        if is_master(world, *place) {
            return true;
        }
    }
    false
}

// Whether a descriptor does.
fn is_master(world: &World, descriptor: Option<u32>) -> bool
    ensures { result ≡ list_any (λ (d : Device). leads_to_master world.now.streams d.place descriptor) world.now.devices }
{
    let Some(place) = descriptor else {
        return false;
    };
    match world.streams.at_place(place) {
        Some(stream) => has_master(&world.devices, stream.object),
        None => false,
    }
}

// Whether a stream is the master's of one of the devices.
fn has_master(devices: &Devices, object: Object) -> bool
    ensures { result ≡ list_any (λ (d : Device). is_master_of d.place object) devices.now }
{
    match object {
        Object::OfMaster(place) => has_place(devices, place),
        Object::OfFile(_) => false,
        Object::OfDevice(_) => false,
    }
}

// Whether one of the devices was made by the entry at that place.
fn has_place(devices: &Devices, place: u32) -> bool
    ensures { result ≡ list_any (λ (d : Device). place == d.place) devices.now }
{
    devices.place_of(place).is_some()
}

/// Whether the process holds a master stream of the device that the entry at that place made.
pub fn holds_master_of(streams: &Streams, device: u32, p: &Process) -> bool
    ensures { result ≡ holds_master_of streams.now device p.now }
{
    any_leads(streams, device, p.descriptors.as_slice())
}

// Whether one of the descriptors does.
fn any_leads(streams: &Streams, device: u32, descriptors: &[Option<u32>]) -> bool
    ensures { result ≡ list_any (leads_to_master streams.now device) descriptors.now }
{
    for place in descriptors {
        if leads_to_master(streams, device, *place) {
            return true;
        }
    }
    false
}

// Whether a descriptor leads to a master stream of that device.
fn leads_to_master(streams: &Streams, device: u32, descriptor: Option<u32>) -> bool
    ensures { result ≡ leads_to_master streams.now device descriptor }
{
    let Some(place) = descriptor else {
        return false;
    };
    match streams.at_place(place) {
        Some(stream) => is_master_of(device, stream.object),
        None => false,
    }
}

// Whether a stream is a master's, of that device.
fn is_master_of(device: u32, object: Object) -> bool
    ensures { result ≡ is_master_of device object }
{
    match object {
        Object::OfMaster(place) => place == device,
        _ => false,
    }
}
