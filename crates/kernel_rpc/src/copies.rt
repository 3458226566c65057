ghost use Rattle.std.specs.Prelude.{◌≡◌, ◌≤◌, ◌<◌, ◌+◌, ◌^◌, [], ◌∷◌, ◌++◌, ◌*◌, true, length, map, OnOk, Option};
ghost use Rattle.std.specs.List.{find, position};
ghost use Rattle.std.specs.Vec.{vec_capacity, vec_len};
ghost use Rattle.sprite_ids.specs.Lists.{less};
ghost use Rattle.link_plan.specs.Counts.{Asks, IsAsked};
ghost use Rattle.kernel_rpc.specs.Copies.{copies_by, requests};
ghost use Rattle.kernel_rpc.specs.Machine.{is_copy};
ghost use Rattle.kernel_rpc.specs.Table.{Rise};

use crate::call::{PacketCopy, Receiver};
use link_plan::{Fate, Link};
use sprite_ids::{CopyNo, Kernel, NoMemory};

// Where the copy stands. It is found by bisection, since the numbers of copies rise.
fn place_of(copies: &[PacketCopy], number: CopyNo) -> Option<usize>
    requires { Rise copies.now }
    ensures { result ≡ position (is_copy number) copies.now }
{
    let at = copies.partition_point(|copy| copy.number.0 < number.0);
    if at < copies.len() && copies[at].number == number {
        return Some(at);
    }
    None
}

// The copy of that number, where it is in flight.
pub(crate) fn find_copy(copies: &[PacketCopy], number: CopyNo) -> Option<PacketCopy>
    requires { Rise copies.now }
    ensures { result ≡ find (is_copy number) copies.now }
{
    match place_of(copies, number) {
        Some(at) => Some(copies[at]),
        None => None,
    }
}

// The copy came to its receiver.
pub(crate) fn land(copies: &mut Vec<PacketCopy>, number: CopyNo)
    requires { Rise copies.old.items }
    ensures items { copies.new.items ≡ less (is_copy number) copies.old.items }
    ensures len { vec_len copies.new ≤ vec_len copies.old }
    ensures capacity { vec_capacity copies.new ≡ vec_capacity copies.old }
{
    if let Some(at) = place_of(copies.as_slice(), number) {
        copies.remove(at);
    }
}

// Puts a copy in flight, for which there is room.
fn push(copies: &mut Vec<PacketCopy>, copy: &PacketCopy)
    requires { vec_len copies.old < vec_capacity copies.old }
    ensures items { copies.new.items ≡ copies.old.items ++ copy.now ∷ [] }
    ensures len { vec_len copies.new ≡ vec_len copies.old + 1 }
    ensures capacity { vec_capacity copies.old ≤ vec_capacity copies.new }
{
    match copies.extend_from_slice(&[*copy]) {
        Ok(()) => {}
        Err(_) => unreachable!(),
    }
}

// Puts the copies of a packet in flight by its fate. There is room for two, and a number for the second.
pub(crate) fn fly(copies: &mut Vec<PacketCopy>, copy: &PacketCopy, fate: Fate)
    requires room { vec_len copies.old + 2 ≤ vec_capacity copies.old }
    requires number { copy.now.number.0 + 1 < 2 ^ 64 }
    ensures items { copies.new.items ≡ copies.old.items ++ copies_by fate copy.now }
    ensures len { vec_len copies.new ≤ vec_len copies.old + 2 }
    ensures capacity { vec_capacity copies.old ≤ vec_capacity copies.new }
{
    match fate {
        Fate::Once => push(copies, copy),
        Fate::Lost => {}
        Fate::Twice => {
            push(copies, copy);
            push(copies, &second(copy));
        }
        Fate::Late => push(copies, &late(copy)),
    }
}

// The second copy of a packet, by its first.
fn second(copy: &PacketCopy) -> PacketCopy
    requires { copy.now.number.0 + 1 < 2 ^ 64 }
    ensures { result ≡ record copy.now { number = record { 0 = copy.now.number.0 + 1 } } }
{
    let mut second = *copy;
    second.number = CopyNo(copy.number.0 + 1);
    second
}

// The copy of a late packet.
fn late(copy: &PacketCopy) -> PacketCopy
    ensures { result ≡ record copy.now { late = true } }
{
    let mut late = *copy;
    late.late = true;
    late
}

// Makes room for the copies of so many packets, and sees that there are numbers for them; where there are none left, that is
// said like want of memory.
pub(crate) fn make_room(
    copies: &mut Vec<PacketCopy>,
    next_copy: u64,
    packets: usize,
) -> Result<(), NoMemory>
    ensures items { copies.new.items ≡ copies.old.items }
    ensures room { OnOk result (vec_len copies.new + 2 * packets ≤ vec_capacity copies.new) }
    ensures numbers { OnOk result (next_copy + 2 * packets < 2 ^ 64) }
{
    if (u64::MAX - next_copy) / 2 <= packets as u64 {
        return Err(NoMemory);
    }
    copies.reserve(2 * packets)?;
    Ok(())
}

// A packet with another number and receiver.
fn addressed(packet: &PacketCopy, number: u64, to: Kernel) -> PacketCopy
    ensures { result ≡ record packet.now { number = record { 0 = number }; to = to } }
{
    let mut addressed = *packet;
    addressed.number = CopyNo(number);
    addressed.to = to;
    addressed
}

// Notes the fate of a packet, for which there is room.
fn note(sent: &mut Vec<(Kernel, Fate)>, to: Kernel, fate: Fate)
    requires { vec_len sent.old < vec_capacity sent.old }
    ensures items { sent.new.items ≡ sent.old.items ++ (to, fate) ∷ [] }
    ensures len { vec_len sent.new ≡ vec_len sent.old + 1 }
    ensures capacity { vec_capacity sent.old ≤ vec_capacity sent.new }
{
    match sent.push((to, fate)) {
        Ok(()) => {}
        Err(_) => unreachable!(),
    }
}

// Sends a packet to each receiver in turn: asks the link about it, puts its copies in flight, and notes its fate. There is
// room for all.
pub(crate) fn send_to<L: Link>(
    link: &mut L,
    copies: &mut Vec<PacketCopy>,
    packet: &PacketCopy,
    receivers: &[Receiver],
    sent: &mut Vec<(Kernel, Fate)>,
)
    requires room { vec_len copies.old + 2 * length receivers.now ≤ vec_capacity copies.old }
    requires numbers { packet.now.number.0 + 2 * length receivers.now < 2 ^ 64 }
    requires notes { length receivers.now ≤ vec_capacity sent.old }
    requires empty { sent.old.items ≡ [] }
    ensures receivers { map (λ packet. packet.0) sent.new.items ≡ map (λ receiver. receiver.kernel) receivers.now }
    ensures copies { copies.new.items ≡ copies.old.items ++ requests packet.now packet.now.number.0 sent.new.items }
    ensures link { Asks L.faults L.asked packet.now.from link.old link.new sent.new.items }
{
    let mut number = packet.number.0;
    for receiver in receivers {
        let to = receiver.kernel;
        let fate = link.fate(packet.from, to);
        fly(copies, &addressed(packet, number, to), fate);
        note(sent, to, fate);
        number += 2;
    }
}

// Sends one packet: asks the link about it, and puts its copies in flight. There is room for them.
pub(crate) fn send<L: Link>(link: &mut L, copies: &mut Vec<PacketCopy>, packet: &PacketCopy) -> Fate
    requires room { vec_len copies.old + 2 ≤ vec_capacity copies.old }
    requires number { packet.now.number.0 + 2 < 2 ^ 64 }
    ensures copies { copies.new.items ≡ copies.old.items ++ copies_by result packet.now }
    ensures link { IsAsked (L.faults link.old) (L.asked link.old) (L.faults link.new) (L.asked link.new) packet.now.from packet.now.to result }
{
    let fate = link.fate(packet.from, packet.to);
    fly(copies, packet, fate);
    fate
}
