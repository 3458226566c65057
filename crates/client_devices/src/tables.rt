ghost use Rattle.std.specs.Prelude.{◌≡◌, IfOk, OnOk};
ghost use Rattle.client_devices.specs.Tables.{adds_device, answer_at, answer_told, asked_of, asks_at, asks_of, fresh_asks, is_alive_at, left_at, left_by, put_by, puts_at, taken_at, taken_from, taken_of, takes_at, waits_at};

use client_homes::ClientProcs;
use pseudo_device::{Answer, Ask, Device, PutEnd, TakeEnd};
use sprite_ids::{Errno, NoMemory};
use std::alloc::Global;

/// What a master is told that wants the next ask.
#[derive(Debug, Drop)]
pub(crate) enum Taken {
    /// This ask.
    Given(Ask),
    /// One is in hand.
    Busy,
    /// None waits.
    Empty,
    /// The first is longer than it may be.
    Long,
}

// Whether the device has a master.
pub(crate) fn is_alive(client: &ClientProcs, device: u32) -> bool
    ensures { result ≡ is_alive_at device client.now }
{
    match client.devices.get(&device) {
        Some(found) => found.alive(),
        None => false,
    }
}

// Puts an ask behind those that wait for the device, which is alive.
pub(crate) fn put_ask(client: &mut ClientProcs, device: u32, ask: Ask) -> Result<(), NoMemory>
    ensures { OnOk result (client.new ≡ waits_at device ask client.old) }
{
    match client.devices.get_mut(&device) {
        Some(found) => ask_of_device(found, ask),
        None => Ok(()),
    }
}

fn ask_of_device(device: &mut Device, ask: Ask) -> Result<(), NoMemory>
    ensures { OnOk result (device.new ≡ asked_of ask device.old) }
{
    if !device.alive() {
        return Ok(());
    }
    device.ask(ask)
}

// Takes the device's next ask in hand, where there is one of at most that many bytes and none is in hand.
pub(crate) fn take_ask(client: &mut ClientProcs, device: u32, max: u32) -> Result<Taken, NoMemory>
    ensures told { IfOk result (λ taken. taken ≡ taken_at device max client.old) }
    ensures state { OnOk result (client.new ≡ takes_at device max client.old) }
{
    match client.devices.get_mut(&device) {
        Some(found) => take_from(found, max),
        None => Ok(Taken::Empty),
    }
}

fn take_from(device: &mut Device, max: u32) -> Result<Taken, NoMemory>
    ensures told { IfOk result (λ taken. taken ≡ taken_of device.old max) }
    ensures device { OnOk result (device.new ≡ taken_from device.old max) }
{
    match device.take(max) {
        Ok(ask) => Ok(Taken::Given(ask)),
        Err(TakeEnd::Busy) => Ok(Taken::Busy),
        Err(TakeEnd::Empty) => Ok(Taken::Empty),
        Err(TakeEnd::Long) => Ok(Taken::Long),
        Err(TakeEnd::NoMemory) => Err(NoMemory),
    }
}

// Answers the ask in hand. None where there is none, or it can't have that answer.
pub(crate) fn put_answer(
    client: &mut ClientProcs,
    device: u32,
    bytes: &[u8],
    errno: Option<Errno>,
) -> Result<Option<Answer>, NoMemory>
    ensures told { IfOk result (λ answer. answer ≡ answer_at device bytes.now errno client.old) }
    ensures state { OnOk result (client.new ≡ puts_at device bytes.now errno client.old) }
{
    match client.devices.get_mut(&device) {
        Some(found) => put_in(found, bytes, errno),
        None => Ok(None),
    }
}

fn put_in(
    device: &mut Device,
    bytes: &[u8],
    errno: Option<Errno>,
) -> Result<Option<Answer>, NoMemory>
    ensures told { IfOk result (λ answer. answer ≡ answer_told device.old bytes.now errno) }
    ensures device { OnOk result (device.new ≡ put_by device.old bytes.now errno) }
{
    match device.put(bytes, errno) {
        Ok(answer) => Ok(Some(answer)),
        Err(PutEnd::Invalid) => Ok(None),
        Err(PutEnd::NoMemory) => Err(NoMemory),
    }
}

// A master of the device is gone. With the last one all its asks come back.
pub(crate) fn drop_master(
    client: &mut ClientProcs,
    alloc: Global,
    device: u32,
) -> Result<Vec<Ask>, NoMemory>
    ensures asks { IfOk result (λ asks. asks.items ≡ asks_at device client.old) }
    ensures state { OnOk result (client.new ≡ left_at device client.old) }
{
    match client.devices.get_mut(&device) {
        Some(found) => drop_from(alloc, found),
        None => Ok(Vec::new(alloc)),
    }
}

fn drop_from(alloc: Global, device: &mut Device) -> Result<Vec<Ask>, NoMemory>
    ensures asks { IfOk result (λ asks. asks.items ≡ asks_of device.old) }
    ensures device { OnOk result (device.new ≡ left_by device.old) }
{
    if !device.alive() {
        return Ok(Vec::new(alloc));
    }
    device.drop_master()
}

// Makes a device of that number, with one master.
pub(crate) fn add_device(
    client: &mut ClientProcs,
    alloc: Global,
    device: u32,
) -> Result<(), NoMemory>
    ensures { OnOk result (client.new ≡ adds_device device client.old) }
{
    client.devices.put(device, fresh(alloc))
}

fn fresh(alloc: Global) -> Device
    ensures { result ≡ fresh_asks }
{
    let mut device = Device::new(alloc);
    device.add_master();
    device
}
