ghost use Rattle.std.specs.Prelude.{◌≡◌, ◌≤◌, ◌<◌, ◌+◌, ◌-◌, ◌↔◌, ◌++◌, ◌∷◌, [], Some, None, IfOk, IfErr, OnOk, OnErr, IsTrue};
ghost use Rattle.pseudo_device.specs.Device.{take_refusal, is_put_refused, given_back, dropped, IsTakeCause, IsPutCause, IsTaken, IsAnswered};

use crate::ask::{Answer, Ask};
use crate::end::{PutEnd, TakeEnd};
use sprite_ids::{Copying, Errno, NoMemory};
use std::alloc::Global;
use std::marker::Model;

/// The most masters at which one may be added (this project).
const ROOM: u32 = 2_000_000_000;

/// A pseudo-device. Contracts see the ask in hand, the asks that wait, first in and first out, and how many descriptors
/// its masters have.
#[derive(Debug, Drop)]
pub struct Device {
    alloc: Global,
    in_hand: Option<Ask>,
    waiting: Vec<Ask>,
    masters: u32,
}

impl Model for Device {
    ghost use Rattle.std.specs.Prelude.{◌≤◌};
    ghost use Rattle.pseudo_device.specs.Device.{Asks};

    ghost Value = { Asks };

    ghost view = { λ device. record { in_hand = device.in_hand; waiting = device.waiting.items; masters = device.masters } };

    ghost invariant = { λ device. device.masters ≤ 4294967295 };
}

impl Device {
    /// No asks, and no masters. It takes no memory, and keeps the allocator.
    pub fn new(alloc: Global) -> Device
        ensures { result ≡ record { in_hand = None; waiting = []; masters = 0 } }
    {
        Device {
            alloc,
            in_hand: None,
            waiting: Vec::new(alloc),
            masters: 0,
        }
    }

    /// Whether the device has a master.
    pub fn alive(&self) -> bool
        ensures { IsTrue result ↔ (1 ≤ self.now.masters) }
    {
        self.masters != 0
    }

    /// Whether the count of masters may be raised: it is at most 2,000,000,000.
    pub fn room(&self) -> bool
        ensures { IsTrue result ↔ (self.now.masters ≤ 2000000000) }
    {
        self.masters <= ROOM
    }

    /// Puts an ask behind those that wait. After want of memory, the one error, all is as before.
    pub fn ask(&mut self, ask: Ask) -> Result<(), NoMemory>
        requires { 1 ≤ self.old.masters }
        ensures ok { OnOk result (self.new ≡ record self.old { waiting = self.old.waiting ++ ask ∷ [] }) }
        ensures err { OnErr result (self.new ≡ self.old) }
    {
        self.waiting.push(ask)?;
        Ok(())
    }

    /// Takes the first ask that waits in hand, and gives a copy of it. The refusal is the first of these that holds, and
    /// then nothing changes: Busy where one is in hand, Empty where none waits, Long where the first has more bytes than
    /// `max`.
    pub fn take(&mut self, max: u32) -> Result<Ask, TakeEnd>
        ensures ok { IfOk result (λ ask. IsTaken self.old self.new ask) }
        ensures taken { OnOk result (take_refusal self.old max ≡ None) }
        ensures refused { IfErr result (IsTakeCause (take_refusal self.old max)) }
        ensures err { OnErr result (self.new ≡ self.old) }
    {
        if let Some(end) = self.refusal(max) {
            return Err(end);
        }
        let ask = self.waiting[0].copy(self.alloc)?;
        self.in_hand = Some(self.waiting.remove(0));
        Ok(ask)
    }

    /// Answers the ask in hand, with bytes or with an error, and gives it back with the reply of its process's call. The
    /// value of a write is the length of its own bytes, any other value is the length of the answer's bytes.
    ///
    /// Invalid comes exactly where none is in hand, where an error has bytes, or where there are more bytes than were
    /// asked for; a write asks for none (this project). After any error all is as before.
    pub fn put(&mut self, bytes: &[u8], errno: Option<Errno>) -> Result<Answer, PutEnd>
        ensures ok { IfOk result (IsAnswered self.old bytes.now errno) }
        ensures device { OnOk result (self.new ≡ record self.old { in_hand = None }) }
        ensures refused { IfErr result (IsPutCause (is_put_refused self.old bytes.now errno)) }
        ensures err { OnErr result (self.new ≡ self.old) }
    {
        let Some(ask) = &self.in_hand else {
            return Err(PutEnd::Invalid);
        };
        if !ask.takes(bytes, errno) {
            return Err(PutEnd::Invalid);
        }
        let reply = ask.reply(self.alloc, bytes, errno)?;
        match self.in_hand.take() {
            Some(ask) => Ok(Answer { ask, reply }),
            None => unreachable!(),
        }
    }

    /// One master more.
    pub fn add_master(&mut self)
        requires { self.old.masters ≤ 2000000000 }
        ensures { self.new ≡ record self.old { masters = self.old.masters + 1 } }
    {
        self.masters += 1;
    }

    /// One master fewer. The last one gives all asks back, the one in hand first, then those that wait in their order;
    /// any other gives none. After want of memory, the one error, all is as before.
    pub fn drop_master(&mut self) -> Result<Vec<Ask>, NoMemory>
        requires { 1 ≤ self.old.masters }
        ensures asks { IfOk result (λ asks. asks.items ≡ given_back self.old) }
        ensures ok { OnOk result (self.new ≡ dropped self.old) }
        ensures err { OnErr result (self.new ≡ self.old) }
    {
        if self.masters > 1 {
            self.masters -= 1;
            return Ok(Vec::new(self.alloc));
        }
        if let Some(ask) = self.in_hand.take() {
            if let Err(failed) = self.waiting.insert(0, ask) {
                self.in_hand = Some(failed.value);
                return Err(NoMemory);
            }
        }
        self.masters = 0;
        Ok(std::mem::replace(&mut self.waiting, Vec::new(self.alloc)))
    }

    // Why no ask can be taken.
    fn refusal(&self, max: u32) -> Option<TakeEnd>
        ensures { result ≡ take_refusal self.now max }
    {
        if self.in_hand.is_some() {
            return Some(TakeEnd::Busy);
        }
        match self.waiting.first() {
            None => Some(TakeEnd::Empty),
            Some(ask) if ask.bytes.len() > max as usize => Some(TakeEnd::Long),
            Some(_) => None,
        }
    }
}
