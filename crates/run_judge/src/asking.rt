ghost use Rattle.std.specs.Prelude.{◌≡◌};
ghost use Rattle.std.specs.List.{list_any};
ghost use Rattle.std.specs.Option.{is_some, option_map};
ghost use Rattle.unix_calls.specs.DeviceCalls.{answer_for};
ghost use Rattle.unix_calls.specs.State.{device_at, holds_master_of};
ghost use Rattle.run_judge.specs.Waiting.{asks_in_vain, has_none, is_idle, is_idle_at};

use sprite_ids::Pid;
use unix_calls::{Answer, Ask, Device, Process};
use unix_world::{Streams, World, holds_master_of};

/// Whether a process's operation at the device that the entry at that place made has no answer so far, and may have one: the device is
/// alive (Welch and Ousterhout 1988).
pub(crate) fn asks_in_vain(world: &World, ps: &[Process], pid: Pid, place: u32) -> bool
    ensures { result ≡ asks_in_vain world.now ps.now pid (device_at world.now.devices place) }
{
    match device_at(world.devices.as_slice(), place) {
        Some(device) => {
            is_alive(&world.streams, ps, device.place)
                && !has_answer(device.answers.as_slice(), pid)
        }
        None => false,
    }
}

// The device that the entry at that place made.
fn device_at(devices: &[Device], place: u32) -> Option<&Device>
    ensures { option_map (λ device. device.now) result ≡ device_at devices.now place }
{
    for device in devices {
        if device.place == place {
            return Some(device);
        }
    }
    None
}

// Whether a device is alive: a process holds its master stream.
fn is_alive(streams: &Streams, ps: &[Process], device: u32) -> bool
    ensures { result ≡ list_any (holds_master_of streams.now device) ps.now }
{
    for process in ps {
        if holds_master_of(streams, device, process) {
            return true;
        }
    }
    false
}

// Whether an answer was left for the process.
fn has_answer(answers: &[Answer], pid: Pid) -> bool
    ensures { result ≡ is_some (answer_for pid answers.now) }
{
    for answer in answers {
        if answer.pid == pid {
            return true;
        }
    }
    false
}

/// Whether the device that the entry at that place made has no operation, neither waiting nor in its master's hand.
pub(crate) fn is_idle_at(devices: &[Device], place: u32) -> bool
    ensures { result ≡ is_idle_at (device_at devices.now place) }
{
    match device_at(devices, place) {
        Some(device) => is_idle(device),
        None => false,
    }
}

fn is_idle(device: &Device) -> bool
    ensures { result ≡ is_idle device.now }
{
    device.in_hand.is_none() && has_none(device.asks.as_slice())
}

fn has_none(asks: &[Ask]) -> bool
    ensures { result ≡ has_none asks.now }
{
    match asks {
        [] => true,
        _ => false,
    }
}
