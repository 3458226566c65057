ghost use Rattle.std.specs.Prelude.{◌≡◌, ◌&&◌, IfOk, IfSome, Some};
ghost use Rattle.kernel_rpc.specs.Machine.{call_of, copy_of, may_be_silent};
ghost use Rattle.cluster_wire.specs.Arriving.{asks_prefix, copy_to, is_prefix, reply_in, request_in, Arrives, SilentIf};
ghost use Rattle.cluster_wire.specs.Links.{ends_of};

use kernel_rpc::{Delivered, PacketCopy, Wire};
use kernel_steps::Input;
use link_plan::{Fate, Link};
use packet_bodies::{Body, Request};
use sprite_ids::{CopyNo, Kernel, NoMemory, TxNo};
use std::alloc::Global;
use wire_format::Packet;

/// What a copy of a packet brings the kernel to which it comes.
#[derive(Debug, Drop)]
pub enum Arrived {
    /// A request or a reply, for the first time, which the kernel takes.
    Message(Input),
    /// A request that was answered: the reply went out again, from the kernel that answered to the one that called, with that fate.
    Again {
        from: Kernel,
        to: Kernel,
        fate: Fate,
    },
    /// Nothing: its call is past it.
    Old,
}

/// The copy of that number; None exactly where it isn't in flight to the kernel.
pub fn copy_to<L: Link>(wire: &Wire<Packet, L>, kernel: Kernel, copy: CopyNo) -> Option<PacketCopy>
    ensures is { result ≡ copy_to kernel wire.now.machine copy }
    ensures flying { IfSome result (λ packet. copy_of wire.now.machine copy ≡ Some packet) }
{
    match wire.packet(copy) {
        Some(packet) if packet.to == kernel => Some(packet),
        _ => None,
    }
}

/// The copy in flight comes: what it brings is exactly by what it is to its receiver. A request's copy in which a reply stands, or a
/// reply's in which a request does, which never comes, brings nothing. The one error is want of memory.
#[tactic(auto, using(crate::proofs::ComeLaws::request_arrives, crate::proofs::ComeLaws::reply_arrives, crate::proofs::ComeLaws::again_arrives, crate::proofs::ComeLaws::old_arrives))]
pub fn arrive<L: Link>(
    alloc: Global,
    wire: &mut Wire<Packet, L>,
    copy: CopyNo,
    packet: &PacketCopy,
) -> Result<Arrived, NoMemory>
    requires flying { copy_of wire.old.machine copy ≡ Some packet.now }
    ensures { IfOk result (λ came. Arrives L.faults L.asked copy packet.now came wire.old wire.new) }
{
    let ends = ends_of(wire, packet.tx);
    match wire.deliver(alloc, copy)? {
        Delivered::Request(_tx, request) => Ok(request_in(packet.tx, request)),
        Delivered::Reply(_tx, reply) => Ok(reply_in(packet.tx, reply)),
        Delivered::Repeated(_tx, fate) => {
            let Some((from, to)) = ends else {
                unreachable!();
            };
            Ok(Arrived::Again { from, to, fate })
        }
        Delivered::Old => Ok(Arrived::Old),
    }
}

// From which kernel the reply of the call goes, and to which; None where the call is finished.
fn ends_of<L: Link>(wire: &Wire<Packet, L>, tx: TxNo) -> Option<(Kernel, Kernel)>
    ensures { result ≡ ends_of (call_of wire.now.machine tx) }
{
    match wire.call(tx) {
        Some(call) => Some((call.owner, call.from)),
        None => None,
    }
}

// What the kernel takes of a request's packet.
fn request_in(tx: TxNo, packet: Packet) -> Arrived
    ensures { result ≡ request_in tx packet.from packet.body }
{
    let Packet {
        from,
        to: _to,
        tx: _tx,
        body,
    } = packet;
    match body {
        Body::Request(body) => Arrived::Message(Input::Request { tx, from, body }),
        Body::Reply(_) => Arrived::Old,
    }
}

// What the kernel takes of a reply's packet.
fn reply_in(tx: TxNo, packet: Packet) -> Arrived
    ensures { result ≡ reply_in tx packet.from packet.body }
{
    let Packet {
        from,
        to: _to,
        tx: _tx,
        body,
    } = packet;
    match body {
        Body::Reply(body) => Arrived::Message(Input::Replied { tx, from, body }),
        Body::Request(_) => Arrived::Old,
    }
}

/// Whether the kernel is asked for the server of a prefix.
pub fn asks_prefix(input: &Input) -> bool
    ensures { result ≡ asks_prefix input.now }
{
    match input {
        Input::Request { body, .. } => is_prefix(body),
        _ => false,
    }
}

// Whether a request asks for the server of a prefix.
fn is_prefix(body: &Request) -> bool
    ensures { result ≡ is_prefix body.now }
{
    matches!(body, Request::Prefix { .. })
}

/// A server goes silent exactly where it was asked for a prefix that isn't its own and has not answered (Welch and Ousterhout 1986).
#[tactic(auto, using(crate::proofs::ComeLaws::goes_silent, crate::proofs::ComeLaws::stays_so))]
pub fn end_serving<L: Link>(wire: &mut Wire<Packet, L>, kernel: Kernel, tx: TxNo, asks_prefix: bool)
    ensures silent { SilentIf L.faults L.asked (asks_prefix && may_be_silent wire.old.machine tx kernel) tx kernel wire.old wire.new }
    ensures link { wire.new.link ≡ wire.old.link }
{
    if asks_prefix && wire.may_be_silent(tx, kernel) {
        wire.silent(tx, kernel);
    }
}
