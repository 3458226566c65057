ghost use Rattle.std.specs.Prelude.{◌≡◌, ◌≢◌, ◌≤◌, ◌<◌, ◌+◌, ◌^◌, ◌==◌, ◌∷◌, [], Some, true, false, IfOk, IfErr, IfSome, IfNone, IsOk, OnOk, OnErr, IsTrue, IsSome, is_some, length, map, option_map, slice_get};
ghost use Rattle.std.specs.List.{filter, list_any, position};
ghost use Rattle.std.specs.Vec.{vec_capacity};
ghost use Rattle.sprite_ids.specs.declared.Tries.TheVariants.{Eight};
ghost use Rattle.link_plan.specs.Counts.{Asks, IsAsked};
ghost use Rattle.kernel_rpc.specs.Machine.{answer, begun, call_of, is_call, copy_of, due_of, fresh, holds, idle, is_due, is_at_port, is_due_at, is_free, is_punctual, is_quiet, is_taken, may_answer, may_be_silent, may_come, may_expire, new_call, offered, silent};
ghost use Rattle.kernel_rpc.specs.Links.{AsksAll, AsksBack};
ghost use Rattle.kernel_rpc.specs.Results.{Delivers, Expires};
ghost use Rattle.kernel_rpc.specs.Servers.{AreApart, pairs};
ghost use Rattle.kernel_rpc.specs.States.{state_of};
ghost use Rattle.kernel_rpc.specs.Ports.{AreUsed};

use crate::bodies::{kept_reply, message_of};
use crate::call::{Arrival, Call, CallState, PacketCopy, Part, Receiver};
use crate::calls::{find_call, is_last, place_of};
use crate::copies::{find_copy, land};
use crate::ports::least_port;
use crate::queries::{
    copies_offered, copy_offered, has_due, has_request, is_due, is_used, state_in, state_past,
    timer_due, timers_due,
};
use crate::results::{Delivered, Expired};
use crate::table::{
    CallTable, answer, arrival_to, arrive, begin, give_up, resend, silence, take_again, take_reply,
    take_request,
};
use link_plan::{Fate, Link};
use sprite_bytes::Message;
use sprite_ids::{Bytes, CopyNo, Items, Kernel, NoMemory, Pid, Tries, TxNo};
use std::alloc::Global;
use std::marker::{Model, PhantomData};

/// All remote calls of a cluster and the copies of their packets that are in flight, over the link that carries them.
#[derive(Drop)]
pub struct Wire<M: Message + Drop, L: Link> {
    link: L,
    table: CallTable,
    messages: PhantomData<M>,
}

impl<M: Message + Drop, L: Link> Model for Wire<M, L> {
    ghost use Rattle.kernel_rpc.specs.Bodies.{Reads};
    ghost use Rattle.kernel_rpc.specs.Sound.{Wired};
    ghost use Rattle.kernel_rpc.specs.Table.{Kept, machine_of};

    ghost Value = { Wired L };

    ghost view = { λ wire. record { link = wire.link; machine = machine_of wire.table } };

    ghost invariant = { λ wire. Kept (Reads M.reading) (L.faults wire.link) wire.table };
}

impl<M: Message + Drop, L: Link> Wire<M, L> {
    /// A wire without calls over the link. The one error is want of memory, and hands the link back; there is none as it
    /// stands.
    pub fn new(alloc: Global, link: L) -> Result<Wire<M, L>, L>
        ensures ok { IfOk result (λ wire. wire ≡ record { link = link; machine = idle }) }
        ensures takes_none { IsOk result }
    {
        Ok(Wire {
            link,
            table: CallTable::new(alloc),
            messages: PhantomData,
        })
    }

    /// The link.
    pub fn into_link(self) -> L
        ensures { result ≡ self.link }
    {
        let Wire {
            link,
            table: _table,
            messages: _messages,
        } = self;
        link
    }

    /// Begins a call at a port of its kernel, and sends its request. Calls are numbered from 1. `about` is
    /// what the request packet names, and is kept for its copies. Answers the call's number and the fate of its packet. After want of memory, the one error, all is as
    /// before; the body is dropped.
    pub fn begin(
        &mut self,
        alloc: Global,
        from: Kernel,
        port: u32,
        to: Kernel,
        body: M,
        tries: Tries,
        about: Option<(Pid, u32)>,
    ) -> Result<(TxNo, Fate), NoMemory>
        requires apart { from ≢ to }
        requires port { IsTrue (is_free self.old.machine from port) }
        requires numbers { self.old.machine.begun < 4294967295 }
        ensures tx { IfOk result (λ call. call.0 ≡ record { 0 = self.old.machine.begun + 1 }) }
        ensures link { IfOk result (λ call. IsAsked (L.faults self.old.link) (L.asked self.old.link) (L.faults self.new.link) (L.asked self.new.link) from to call.1) }
        ensures machine { IfOk result (λ call. self.new.machine ≡ begun (new_call self.old.machine from port (to ∷ []) to (M.spelling body) tries about (L.faults self.old.link from to)) ((to, call.1) ∷ []) self.old.machine) }
        ensures known { IfOk result (λ _. M.is_message body) }
        ensures err { OnErr result (self.new ≡ self.old) }
    {
        let receivers = waiting(alloc, &[to])?;
        let body = spelled(alloc, body)?;
        let tx = TxNo(self.table.begun + 1);
        let before = self.link.faults(from, to);
        let call = Call {
            tx,
            from,
            port,
            owner: to,
            tries,
            lost: 0,
            before,
            about,
            receivers,
            body,
            reply: None,
        };
        let sent = begin(&mut self.table, alloc, &mut self.link, call)?;
        Ok((tx, only_fate(sent.as_slice())))
    }

    /// Takes a copy in flight to its receiver.
    pub fn deliver(&mut self, alloc: Global, copy: CopyNo) -> Result<Delivered<M>, NoMemory>
        requires { IsSome (copy_of self.old.machine copy) }
        ensures ok { IfOk result (Delivers M.reading L.faults L.asked self.old self.new (copy_of self.old.machine copy)) }
        ensures err { OnErr result (self.new ≡ self.old) }
    {
        let Some(packet) = find_copy(self.table.copies.as_slice(), copy) else {
            unreachable!();
        };
        let Some(at) = self.place(packet.tx) else {
            land(&mut self.table.copies, packet.number);
            return Ok(Delivered::Old);
        };
        match arrival_to(&self.table.unfinished[at], &packet) {
            Arrival::FirstRequest => {
                let message = message_of(alloc, &self.table.unfinished[at].body)?;
                take_request(&mut self.table, at, &packet);
                Ok(Delivered::Request(packet.tx, message))
            }
            Arrival::FirstReply => {
                let message = kept_reply(alloc, &self.table.unfinished[at])?;
                take_reply(&mut self.table, at, &packet);
                Ok(Delivered::Reply(packet.tx, message))
            }
            Arrival::AskedAgain => {
                let fate = take_again(&mut self.table, &mut self.link, at, &packet)?;
                Ok(Delivered::Repeated(packet.tx, fate))
            }
            Arrival::Past => {
                arrive(&mut self.table, at, &packet);
                Ok(Delivered::Old)
            }
        }
    }

    // Where the unfinished call of that number stands.
    fn place(&self, tx: TxNo) -> Option<usize>
        ensures { result ≡ position (is_call tx) self.now.machine.unfinished }
    {
        place_of(self.table.unfinished.as_slice(), tx)
    }

    /// The unfinished call of that number, lent; None exactly where no unfinished call has it.
    pub fn call(&self, tx: TxNo) -> Option<&Call>
        ensures { option_map (λ call. call.now) result ≡ call_of self.now.machine tx }
    {
        find_call(self.table.unfinished.as_slice(), tx)
    }

    /// Begins a call whose request goes to several servers, of which the owner is to answer: the broadcast of a prefix, of
    /// eight tries. Answers the call's number and the fates of its packets, in the order of the servers. After want of memory,
    /// the one error, all is as before; the body is dropped.
    pub fn broadcast(
        &mut self,
        alloc: Global,
        from: Kernel,
        port: u32,
        servers: &[Kernel],
        owner: Kernel,
        body: M,
        about: Option<(Pid, u32)>,
    ) -> Result<(TxNo, Items<Fate>), NoMemory>
        requires apart { list_any (λ server. server == from) servers.now ≡ false }
        requires differ { AreApart servers.now }
        requires owner { list_any (λ server. server == owner) servers.now ≡ true }
        requires port { IsTrue (is_free self.old.machine from port) }
        requires numbers { self.old.machine.begun < 4294967295 }
        ensures tx { IfOk result (λ call. call.0 ≡ record { 0 = self.old.machine.begun + 1 }) }
        ensures fates { IfOk result (λ call. length call.1 ≡ length servers.now) }
        ensures link { IfOk result (λ call. Asks L.faults L.asked from self.old.link self.new.link (pairs servers.now call.1)) }
        ensures machine { IfOk result (λ call. self.new.machine ≡ begun (new_call self.old.machine from port servers.now owner (M.spelling body) Eight about (L.faults self.old.link from owner)) (pairs servers.now call.1) self.old.machine) }
        ensures known { IfOk result (λ _. M.is_message body) }
        ensures err { OnErr result (self.new ≡ self.old) }
    {
        let receivers = waiting(alloc, servers)?;
        let body = spelled(alloc, body)?;
        let mut fates = Vec::with_capacity(alloc, servers.len())?;
        let tx = TxNo(self.table.begun + 1);
        let before = self.link.faults(from, owner);
        let call = Call {
            tx,
            from,
            port,
            owner,
            tries: Tries::Eight,
            lost: 0,
            before,
            about,
            receivers,
            body,
            reply: None,
        };
        let sent = begin(&mut self.table, alloc, &mut self.link, call)?;
        note_fates(&mut fates, sent.as_slice());
        Ok((tx, Items::of_vec(fates)))
    }

    /// The copy of that number; None exactly where it isn't in flight.
    pub fn packet(&self, copy: CopyNo) -> Option<PacketCopy>
        ensures { result ≡ copy_of self.now.machine copy }
    {
        find_copy(self.table.copies.as_slice(), copy)
    }

    /// The copy's call, its sender, and whether it is one of the reply.
    pub fn copy_of(&self, copy: CopyNo) -> (TxNo, Kernel, bool)
        requires { IsSome (copy_of self.now.machine copy) }
        ensures { option_map (λ packet. (packet.tx, packet.from, packet.reply)) (copy_of self.now.machine copy) ≡ Some result }
    {
        match find_copy(self.table.copies.as_slice(), copy) {
            Some(packet) => (packet.tx, packet.from, packet.reply),
            None => unreachable!(),
        }
    }

    /// What the request packet of the copy's call names: the process and the number that `begin` or `broadcast` was given for
    /// that packet, None where it names none. It is not what the call is sent for.
    pub fn about_of(&self, copy: CopyNo) -> Option<(Pid, u32)>
        requires { IsSome (copy_of self.now.machine copy) }
        ensures { option_map (λ packet. packet.about) (copy_of self.now.machine copy) ≡ Some result }
    {
        match find_copy(self.table.copies.as_slice(), copy) {
            Some(packet) => packet.about,
            None => unreachable!(),
        }
    }

    /// Whether the copy is in flight.
    pub fn is_in_flight(&self, copy: CopyNo) -> bool
        ensures { result ≡ is_some (copy_of self.now.machine copy) }
    {
        find_copy(self.table.copies.as_slice(), copy).is_some()
    }

    /// Answers a call: keeps the reply and sends it. Answers the fate of its packet. After want of memory, the one error, all
    /// is as before; the body is dropped.
    pub fn answer(&mut self, alloc: Global, tx: TxNo, body: M) -> Result<Fate, NoMemory>
        requires taken { IsTrue (may_answer self.old.machine tx) }
        ensures link { IfOk result (λ fate. AsksBack L.faults L.asked self.old.link self.new.link fate (call_of self.old.machine tx)) }
        ensures machine { IfOk result (λ fate. self.new.machine ≡ answer tx (M.spelling body) fate self.old.machine) }
        ensures known { IfOk result (λ _. M.is_message body) }
        ensures err { OnErr result (self.new ≡ self.old) }
    {
        let bytes = spelled(alloc, body)?;
        let fate = answer(&mut self.table, &mut self.link, tx, bytes)?;
        Ok(fate)
    }

    /// A server that can't answer a broadcast goes silent.
    pub fn silent(&mut self, tx: TxNo, at: Kernel)
        requires { IsTrue (may_be_silent self.old.machine tx at) }
        ensures machine { self.new.machine ≡ silent tx at self.old.machine }
        ensures link { self.new.link ≡ self.old.link }
    {
        silence(&mut self.table, tx, at);
    }

    /// The timer of a call fires: this try is lost. The request is sent again, or the call is given up where it is an echo or a
    /// broadcast and this was its eighth try. After want of memory, the one error, all is as before.
    pub fn expire(&mut self, alloc: Global, tx: TxNo) -> Result<Expired, NoMemory>
        requires { IsTrue (may_expire self.old.machine tx) }
        ensures ok { IfOk result (Expires L.faults L.asked self.old self.new tx (call_of self.old.machine tx)) }
        ensures err { OnErr result (self.new ≡ self.old) }
    {
        let Some(call) = find_call(self.table.unfinished.as_slice(), tx) else {
            unreachable!();
        };
        if is_last(call) {
            let before = call.before;
            let now = self.link.faults(call.from, call.owner);
            give_up(&mut self.table, tx)?;
            return Ok(Expired::GivenUp { before, now });
        }
        let sent = resend(&mut self.table, alloc, &mut self.link, tx)?;
        Ok(Expired::Resent(Items::of_vec(sent)))
    }

    /// How many copies in flight may come to the kernel next: those for it that aren't late, or all for it where all are late.
    pub fn copies_offered(&self, kernel: Kernel) -> usize
        ensures count { result ≡ length (offered self.now.machine kernel) }
        ensures few { result < 2 ^ 63 }
    {
        copies_offered(self.table.copies.as_slice(), kernel)
    }

    /// The copy at that place of those that may come to the kernel next, in the order of sending; None exactly where there is none at
    /// that place.
    pub fn copy_offered(&self, kernel: Kernel, place: usize) -> Option<CopyNo>
        ensures { result ≡ slice_get (offered self.now.machine kernel) place }
    {
        copy_offered(self.table.copies.as_slice(), kernel, place)
    }

    /// How many timers of the kernel's calls may fire: no copy of the call is in flight, and no receiver has it.
    pub fn timers_due(&self, kernel: Kernel) -> usize
        ensures count { result ≡ length (due_of self.now.machine kernel) }
        ensures few { result < 2 ^ 63 }
    {
        timers_due(&self.table, kernel)
    }

    /// The call at that place of the kernel's calls whose timer may fire, in ascending order; None exactly where there is none at that
    /// place.
    pub fn timer_due(&self, kernel: Kernel, place: usize) -> Option<TxNo>
        ensures { result ≡ slice_get (due_of self.now.machine kernel) place }
    {
        timer_due(&self.table, kernel, place)
    }

    /// Whether the timer of the call may fire.
    pub fn may_expire(&self, tx: TxNo) -> bool
        ensures { result ≡ may_expire self.now.machine tx }
    {
        match self.place(tx) {
            Some(at) => is_due(&self.table, at, &self.table.unfinished[at]),
            None => false,
        }
    }

    /// Whether no copy is in flight and no timer may fire.
    pub fn quiet(&self) -> bool
        ensures { result ≡ is_quiet self.now.machine }
    {
        self.table.copies.is_empty() && !has_due(&self.table)
    }

    /// How many calls were begun.
    pub fn begun(&self) -> u32
        ensures { result ≡ self.now.machine.begun }
    {
        self.table.begun
    }

    /// Whether the kernel has no unfinished call at the port.
    pub fn is_free(&self, kernel: Kernel, port: u32) -> bool
        ensures { result ≡ is_free self.now.machine kernel port }
    {
        !is_used(self.table.unfinished.as_slice(), kernel, port)
    }

    /// The least port at which the kernel has no unfinished call. There always is one, since no more calls are unfinished than
    /// were begun; it is at most their number. It goes over the unfinished calls once. The one error is want of memory.
    pub fn free_port(&self, alloc: Global, kernel: Kernel) -> Result<u32, NoMemory>
        ensures free { IfOk result (λ port. is_free self.now.machine kernel port ≡ true) }
        ensures least { IfOk result (AreUsed self.now.machine kernel) }
    {
        // No more calls are unfinished than were begun, so their ports can be counted.
        let _most = self.begun();
        let port = least_port(alloc, self.table.unfinished.as_slice(), kernel)?;
        Ok(port)
    }

    /// Whether the owner of the call has its request, and so may answer.
    pub fn may_answer(&self, tx: TxNo) -> bool
        ensures { result ≡ may_answer self.now.machine tx }
    {
        match self.call(tx) {
            Some(call) => has_request(call, call.owner),
            None => false,
        }
    }

    /// Whether the kernel has the request of the call and isn't the one that is to answer it.
    pub fn may_be_silent(&self, tx: TxNo, at: Kernel) -> bool
        ensures { result ≡ may_be_silent self.now.machine tx at }
    {
        match self.call(tx) {
            Some(call) => has_request(call, at) && call.owner != at,
            None => false,
        }
    }

    /// How the call stands; None exactly where none of that number was begun.
    pub fn state_of(&self, tx: TxNo) -> Option<CallState>
        ensures { result ≡ state_of self.now.machine tx }
    {
        match self.call(tx) {
            Some(call) => Some(state_in(call)),
            None => state_past(&self.table, tx),
        }
    }
}

// The bytes of a message. Want of memory is also the answer where it is too long to be spelled.
fn spelled<M: Message + Drop>(alloc: Global, body: M) -> Result<Bytes, NoMemory>
    ensures bytes { IfOk result (λ bytes. bytes ≡ M.spelling body) }
    ensures known { IfOk result (λ _. M.is_message body) }
{
    Ok(Bytes::of_vec(body.spell(alloc)?))
}

// The receivers of a new call.
fn waiting(alloc: Global, kernels: &[Kernel]) -> Result<Items<Receiver>, NoMemory>
    ensures { IfOk result (λ receivers. receivers ≡ map fresh kernels.now) }
{
    let mut receivers = Items::new(alloc);
    for kernel in kernels {
        receivers.append(&[Receiver {
            kernel: *kernel,
            part: Part::Waiting,
        }])?;
    }
    Ok(receivers)
}

// The fate of the one packet.
fn only_fate(sent: &[(Kernel, Fate)]) -> Fate
    requires { length sent.now ≡ 1 }
    ensures { map (λ packet. packet.1) sent.now ≡ result ∷ [] }
{
    sent[0].1
}

// Notes the fates of packets in their order. There is room for all.
fn note_fates(fates: &mut Vec<Fate>, sent: &[(Kernel, Fate)])
    requires empty { fates.old.items ≡ [] }
    requires room { length sent.now ≤ vec_capacity fates.old }
    ensures { fates.new.items ≡ map (λ packet. packet.1) sent.now }
{
    for packet in sent {
        match fates.push(packet.1) {
            Ok(()) => {}
            Err(_) => unreachable!(),
        }
    }
}
