ghost use Rattle.std.specs.Prelude.{◌≡◌, ◌<◌, ◌∷◌, ◌++◌, [], None, OnOk, length, nat_lt, remove, slice_get};
ghost use Rattle.std.specs.List.{position, prefix_len};
ghost use Rattle.unix_calls.specs.DeviceCalls.{without_answer};
ghost use Rattle.unix_calls.specs.Lawful.{holds};
ghost use Rattle.unix_calls.specs.declared.state.Device.{Device};
ghost use Rattle.unix_world.specs.Devices.{IsChanged, IsFor, first_taken, has_place};
ghost use Rattle.unix_world.specs.Places.{IsEarlier, Ordered, OrderedIf};

use sprite_ids::{Items, NoMemory, Pid};
use std::alloc::Global;
use std::marker::Model;
use unix_calls::{Answer, Ask, Device};

/// The pseudo-devices of the one-kernel Unix, in the order in which they were made. Contracts see their list.
///
/// A device is found by halves, in time proportional to the logarithm of how many there are, as long as each that was put there has
/// a higher place than all before it, as the devices of one run have; else one after another.
#[derive(Debug, Drop)]
pub struct Devices {
    devices: Items<Device>,
    ascend: bool,
}

impl Model for Devices {
    ghost use Rattle.std.specs.Prelude.{List};
    ghost use Rattle.unix_calls.specs.declared.Device.{Device};
    ghost use Rattle.unix_world.specs.Places.{IsEarlier, OrderedIf};

    ghost Value = { List Device };

    ghost view = { λ all. all.devices };

    ghost invariant = { λ all. OrderedIf all.ascend IsEarlier all.devices };
}

impl Devices {
    /// No devices. It takes no memory, and keeps the allocator.
    pub fn new(alloc: Global) -> Devices
        ensures { result ≡ [] }
    {
        Devices {
            devices: Items::new(alloc),
            ascend: true,
        }
    }

    /// Puts a device behind the others. The one error is want of memory.
    pub fn push(&mut self, device: Device) -> Result<(), NoMemory>
        ensures { OnOk result (self.new ≡ self.old ++ device ∷ []) }
    {
        let ascend = ascend_with(self.ascend, self.devices.as_slice(), device.place);
        self.devices.push(device)?;
        self.ascend = ascend;
        Ok(())
    }

    /// The devices, in their order.
    pub fn as_slice(&self) -> &[Device]
        ensures { result.now ≡ self.now }
    {
        self.devices.as_slice()
    }

    /// Where the device stands that the entry at that place made.
    pub fn place_of(&self, place: u32) -> Option<usize>
        ensures { result ≡ position (has_place place) self.now }
    {
        if self.ascend {
            bisect(self.devices.as_slice(), place)
        } else {
            scan(self.devices.as_slice(), place)
        }
    }

    /// The device that stands there.
    pub fn at(&self, at: usize) -> &Device
        requires { at < length self.now }
        ensures { slice_get self.now at ≡ Some result.now }
    {
        self.devices.at(at)
    }

    /// The first ask of the device that stands there, where it has one, comes into its master's hand.
    pub fn take_ask(&mut self, at: usize)
        requires { at < length self.old }
        ensures { IsChanged first_taken at self.old self.new }
    {
        take_first(self.devices.at_mut(at));
    }

    /// An ask stands behind the others of the device that stands there. The one error is want of memory.
    pub fn add_ask(&mut self, at: usize, ask: Ask) -> Result<(), NoMemory>
        requires { at < length self.old }
        ensures { OnOk result (IsChanged (λ d. record d { asks = d.asks ++ ask ∷ [] }) at self.old self.new) }
    {
        add(self.devices.at_mut(at), ask)
    }

    /// An answer is left at the device that stands there, and no ask is in its master's hand. The one error is want of memory.
    pub fn leave(&mut self, at: usize, answer: Answer) -> Result<(), NoMemory>
        requires { at < length self.old }
        ensures { OnOk result (IsChanged (λ d. record d { in_hand = None; answers = d.answers ++ answer ∷ [] }) at self.old self.new) }
    {
        leave(self.devices.at_mut(at), answer)
    }

    /// Takes away the answers that were left for the process at the device that stands there.
    pub fn drop_answers(&mut self, at: usize, pid: Pid)
        requires { at < length self.old }
        ensures { IsChanged (λ d. record d { answers = without_answer pid d.answers }) at self.old self.new }
    {
        drop_answers(&mut self.devices.at_mut(at).answers, pid);
    }
}

// Whether all ascend with a device of that place behind them, where they do before.
fn ascend_with(ascend: bool, devices: &[Device], place: u32) -> bool
    ensures { (d : Device) → d.place ≡ place → OrderedIf ascend IsEarlier devices.now → OrderedIf result IsEarlier (devices.now ++ d ∷ []) }
{
    if !ascend {
        return false;
    }
    if devices.is_empty() {
        return true;
    }
    devices[devices.len() - 1].place < place
}

// Where the device of the place stands, among devices that ascend.
fn bisect(devices: &[Device], place: u32) -> Option<usize>
    requires { Ordered IsEarlier devices.now }
    ensures { result ≡ position (has_place place) devices.now }
{
    let at = count_before(devices, place);
    if is_at(devices, at, place) {
        Some(at)
    } else {
        None
    }
}

// How many devices have lower places.
fn count_before(devices: &[Device], place: u32) -> usize
    requires { Ordered IsEarlier devices.now }
    ensures { result ≡ prefix_len (λ (d : Device). nat_lt d.place place) devices.now }
{
    devices.partition_point(|device| device.place < place)
}

// Whether the device that stands there has the place.
fn is_at(devices: &[Device], at: usize, place: u32) -> bool
    ensures { result ≡ holds (has_place place) (slice_get devices.now at) }
{
    at < devices.len() && devices[at].place == place
}

// Where the first device of the place stands.
fn scan(devices: &[Device], place: u32) -> Option<usize>
    ensures { result ≡ position (has_place place) devices.now }
{
    devices.iter().position(|device| device.place == place)
}

// The first ask comes into the master's hand.
fn take_first(device: &mut Device)
    ensures { device.new ≡ first_taken device.old }
{
    if !device.asks.is_empty() {
        device.in_hand = Some(device.asks.remove(0));
    }
}

// An ask stands behind the others.
fn add(device: &mut Device, ask: Ask) -> Result<(), NoMemory>
    ensures added { OnOk result (device.new ≡ record device.old { asks = device.old.asks ++ ask ∷ [] }) }
    ensures place { device.new.place ≡ device.old.place }
{
    device.asks.push(ask)
}

// The answer is left, and no ask is in hand.
fn leave(device: &mut Device, answer: Answer) -> Result<(), NoMemory>
    ensures left { OnOk result (device.new ≡ record device.old { in_hand = None; answers = device.old.answers ++ answer ∷ [] }) }
    ensures place { device.new.place ≡ device.old.place }
{
    device.answers.push(answer)?;
    device.in_hand = None;
    Ok(())
}

// Takes away the answers that were left for the process.
fn drop_answers(answers: &mut Items<Answer>, pid: Pid)
    ensures { answers.new ≡ without_answer pid answers.old }
{
    let mut at = 0;
    while at < answers.len() {
        if is_for(answers.as_slice(), at, pid) {
            drop_at(answers, at);
        } else {
            at += 1;
        }
    }
}

// Whether the answer that stands there is for the process.
fn is_for(answers: &[Answer], at: usize, pid: Pid) -> bool
    requires { at < length answers.now }
    ensures { IsFor answers.now at pid result }
{
    answers[at].pid == pid
}

// Takes the answer away that stands there.
fn drop_at(answers: &mut Items<Answer>, at: usize)
    requires { at < length answers.old }
    ensures { answers.new ≡ remove answers.old at }
{
    let _gone = answers.remove(at);
}
