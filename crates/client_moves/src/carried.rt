ghost use Rattle.std.specs.Prelude.{◌≡◌, IfOk, OnOk, is_some};
ghost use Rattle.client_moves.specs.Carrying.{all_carried, carried_at, holds_master, is_master, with_item};
ghost use Rattle.migrate_freeze.specs.Packing.{can_move, can_travel, target_of};
ghost use Rattle.std.specs.List.{list_all, list_any};
ghost use Rattle.stream_table.specs.Entries.{stream_of};
ghost use Rattle.stream_table.specs.Streams.{carried_as};

use client_homes::ClientProcs;
use packet_bodies::CarriedMode;
use sprite_ids::{Items, NoMemory, Object, Pid, StreamNo};
use std::alloc::Global;
use stream_table::Carried;

// The process's descriptors with their streams, in ascending order.
#[tactic(auto, unfolding(crate::specs::Carrying::all_carried))]
pub(crate) fn carried(
    client: &ClientProcs,
    alloc: Global,
    pid: Pid,
) -> Result<Items<Carried>, NoMemory>
    ensures { IfOk result (λ items. items ≡ all_carried pid client.now) }
{
    let mut items = Items::new(alloc);
    for fd in 0..16 {
        add(&mut items, carried_at(client, pid, fd))?;
    }
    Ok(items)
}

fn add(items: &mut Items<Carried>, item: Option<Carried>) -> Result<(), NoMemory>
    ensures { OnOk result (items.new ≡ with_item item items.old) }
{
    match item {
        Some(item) => items.append(&[item]),
        None => Ok(()),
    }
}

// The descriptor with its stream, where it is in use.
fn carried_at(client: &ClientProcs, pid: Pid, fd: u8) -> Option<Carried>
    ensures { result ≡ carried_at pid fd client.now }
{
    match client.files.streams.get(pid, u64::from(fd)) {
        Some(number) => carried_as(client, fd, &number),
        None => None,
    }
}

fn carried_as(client: &ClientProcs, fd: u8, number: &StreamNo) -> Option<Carried>
    ensures { result ≡ carried_as fd number.now (stream_of client.now.files.streams.entries number.now) }
{
    match client.files.streams.stream(*number) {
        Some(stream) => Some(Carried {
            fd,
            number: *number,
            stream,
        }),
        None => None,
    }
}

// Whether a process with those descriptors can go to another kernel: it has at most 16, and a packet can tell of each.
pub(crate) fn can_move(items: &[Carried]) -> bool
    ensures { result ≡ can_move items.now }
{
    items.len() <= 16 && all_travel(items)
}

fn all_travel(items: &[Carried]) -> bool
    ensures { result ≡ list_all can_travel items.now }
{
    items.iter().all(|item| can_travel(item))
}

fn can_travel(item: &Carried) -> bool
    ensures { result ≡ can_travel item.now }
{
    item.fd < 16
        && has_target(item.stream.object)
        && CarriedMode::new(item.stream.mode, item.stream.append).is_some()
}

// Whether a packet can tell what a stream leads to: not so of a master's end.
fn has_target(object: Object) -> bool
    ensures { result ≡ is_some (target_of object) }
{
    match object {
        Object::File(_) => true,
        Object::Device(_) => true,
        Object::Master(_) => false,
    }
}

/// Whether the process has a descriptor of the master's end of a pseudo-device, so that it stays where it is (this project). The
/// one error is want of memory.
pub fn holds_master(client: &ClientProcs, alloc: Global, pid: Pid) -> Result<bool, NoMemory>
    ensures { IfOk result (λ holds. holds ≡ holds_master pid client.now) }
{
    let items = carried(client, alloc, pid)?;
    Ok(any_master(items.as_slice()))
}

fn any_master(items: &[Carried]) -> bool
    ensures { result ≡ list_any is_master items.now }
{
    items.iter().any(|item| is_master(item))
}

fn is_master(item: &Carried) -> bool
    ensures { result ≡ is_master item.now }
{
    match item.stream.object {
        Object::Master(_) => true,
        Object::File(_) => false,
        Object::Device(_) => false,
    }
}
