ghost use Rattle.std.specs.Prelude.{◌≡◌, OnOk, Some, false, true};
ghost use Rattle.unix_calls.specs.Lawful.{Lawful};
ghost use Rattle.kernel_rpc.specs.Machine.{copy_of};
ghost use Rattle.unix_calls.specs.declared.Event.TheVariants.{Expire as Fired};
ghost use Rattle.kernel_steps.specs.declared.Input.TheVariants.{Due, GaveUp};
ghost use Rattle.cluster_kernels.specs.States.{noted_step};
ghost use Rattle.cluster_wire.specs.Noted.{faulted};
ghost use Rattle.cluster_wire.specs.Arriving.{copy_to};
ghost use Rattle.cluster_wire.specs.Firing.{may_fire};
ghost use Rattle.cluster_choices.specs.Acts.{delivery, named, resent, ComesSo, Comes, Expires, FiresSo, Happens, Takes, TakesMessage};

use crate::choice::Choice;
use cluster_kernels::State;
use cluster_steps::take;
use cluster_wire::{
    Arrived, arrive, asks_prefix, copy_to, end_serving, fire, may_fire, note_fault, note_faults,
};
use kernel_rpc::{Expired, PacketCopy, Wire};
use kernel_steps::Input;
use link_plan::{Fate, Link};
use sprite_ids::{BlockNo, CopyNo, FileId, Kernel, NoMemory, Pid, TxNo};
use std::alloc::Global;
use unix_calls::{About, Description, Event};
use wire_format::Packet;

/// The choice happens at the kernel: the copy comes, where it is in flight to it; the timer fires, where the call is the kernel's and its
/// timer may; or the kernel takes that the block is due to be written back. A copy or a timer that isn't the kernel's to choose changes
/// nothing. The one error is want of memory.
pub fn happen<L: Link>(
    alloc: Global,
    c: &Description,
    state: &mut State,
    wire: &mut Wire<Packet, L>,
    kernel: Kernel,
    choice: Choice,
) -> Result<(), NoMemory>
    requires lawful { Lawful c.now }
    ensures { OnOk result (Happens L.faults L.asked c.now kernel choice wire.old wire.new state.old state.new) }
{
    match choice {
        Choice::Deliver(copy) => deliver(alloc, c, state, wire, kernel, copy),
        Choice::Expire(tx) => expire(alloc, c, state, wire, kernel, tx),
        Choice::WriteBack(file, block) => {
            write_back(alloc, c, state, wire, kernel, &file, block)
        }
    }
}

// The block is due.
fn write_back<L: Link>(
    alloc: Global,
    c: &Description,
    state: &mut State,
    wire: &mut Wire<Packet, L>,
    kernel: Kernel,
    file: &FileId,
    block: BlockNo,
) -> Result<(), NoMemory>
    requires lawful { Lawful c.now }
    ensures { OnOk result (Takes L.faults L.asked c.now kernel (Due file.now block) wire.old wire.new state.old state.new) }
{
    let _said = take(
        alloc,
        c,
        state,
        wire,
        kernel,
        Input::Due { file: *file, block },
    )?;
    Ok(())
}

// The copy comes, where it is in flight to the kernel.
fn deliver<L: Link>(
    alloc: Global,
    c: &Description,
    state: &mut State,
    wire: &mut Wire<Packet, L>,
    kernel: Kernel,
    copy: CopyNo,
) -> Result<(), NoMemory>
    requires lawful { Lawful c.now }
    ensures { OnOk result (Comes L.faults L.asked c.now kernel copy (copy_to kernel wire.old.machine copy) wire.old wire.new state.old state.new) }
{
    match copy_to(wire, kernel, copy) {
        Some(packet) => {
            state.note_step(kernel, delivery(&packet))?;
            come(alloc, c, state, wire, kernel, copy, &packet)
        }
        None => Ok(()),
    }
}

// The record that the copy came.
fn delivery(packet: &PacketCopy) -> Event
    ensures { result ≡ delivery packet.now }
{
    Event::Deliver {
        tx: packet.tx,
        from: packet.from,
        reply: packet.reply,
        about: named(packet.about),
    }
}

// The call of a process that a packet names.
fn named(about: Option<(Pid, u32)>) -> Option<About>
    ensures { result ≡ named about }
{
    match about {
        Some((pid, number)) => Some(About { pid, number }),
        None => None,
    }
}

// The copy in flight comes to the kernel.
#[tactic(auto, using(crate::proofs::ActLaws::message_comes, crate::proofs::ActLaws::again_comes, crate::proofs::ActLaws::old_comes))]
fn come<L: Link>(
    alloc: Global,
    c: &Description,
    state: &mut State,
    wire: &mut Wire<Packet, L>,
    kernel: Kernel,
    copy: CopyNo,
    packet: &PacketCopy,
) -> Result<(), NoMemory>
    requires lawful { Lawful c.now }
    requires flying { copy_of wire.old.machine copy ≡ Some packet.now }
    ensures { OnOk result (ComesSo L.faults L.asked c.now kernel copy packet.now wire.old wire.new state.old state.new) }
{
    match arrive(alloc, wire, copy, packet)? {
        Arrived::Message(input) => receive(alloc, c, state, wire, kernel, packet.tx, input),
        Arrived::Again { from, to, fate } => note_again(state, from, to, fate),
        Arrived::Old => Ok(()),
    }
}

// A request or a reply comes for the first time; a server that was asked for a prefix and hasn't answered says nothing more.
fn receive<L: Link>(
    alloc: Global,
    c: &Description,
    state: &mut State,
    wire: &mut Wire<Packet, L>,
    kernel: Kernel,
    tx: TxNo,
    input: Input,
) -> Result<(), NoMemory>
    requires lawful { Lawful c.now }
    ensures { OnOk result (TakesMessage L.faults L.asked c.now kernel tx input wire.old wire.new state.old state.new) }
{
    let asks = asks_prefix(&input);
    let _said = take(alloc, c, state, wire, kernel, input)?;
    end_serving(wire, kernel, tx, asks);
    Ok(())
}

// A reply went out again.
fn note_again(state: &mut State, from: Kernel, to: Kernel, fate: Fate) -> Result<(), NoMemory>
    ensures { OnOk result (state.new ≡ record state.old { told = faulted from to fate state.old.told }) }
{
    note_fault(&mut state.told, from, to, fate)
}

// The timer of a call fires, where the call is the kernel's and its timer may.
fn expire<L: Link>(
    alloc: Global,
    c: &Description,
    state: &mut State,
    wire: &mut Wire<Packet, L>,
    kernel: Kernel,
    tx: TxNo,
) -> Result<(), NoMemory>
    requires lawful { Lawful c.now }
    ensures { OnOk result (Expires L.faults L.asked c.now kernel tx (may_fire kernel wire.old.machine tx) wire.old wire.new state.old state.new) }
{
    if !may_fire(wire, kernel, tx) {
        return Ok(());
    }
    expire_now(alloc, c, state, wire, kernel, tx)
}

// The timer of a call of the kernel fires.
#[tactic(auto, using(crate::proofs::ActLaws::other_fires))]
fn expire_now<L: Link>(
    alloc: Global,
    c: &Description,
    state: &mut State,
    wire: &mut Wire<Packet, L>,
    kernel: Kernel,
    tx: TxNo,
) -> Result<(), NoMemory>
    requires lawful { Lawful c.now }
    requires may { may_fire kernel wire.old.machine tx ≡ true }
    ensures { OnOk result (FiresSo L.faults L.asked c.now kernel tx wire.old wire.new state.old state.new) }
{
    match fire(alloc, wire, kernel, tx)? {
        Expired::GivenUp { .. } => give_up(alloc, c, state, wire, kernel, tx),
        Expired::Resent(fates) => note_resent(state, kernel, tx, fates.as_slice()),
    }
}

// The timer fired for the last time.
fn give_up<L: Link>(
    alloc: Global,
    c: &Description,
    state: &mut State,
    wire: &mut Wire<Packet, L>,
    kernel: Kernel,
    tx: TxNo,
) -> Result<(), NoMemory>
    requires lawful { Lawful c.now }
    ensures { OnOk result (Takes L.faults L.asked c.now kernel (GaveUp tx) wire.old wire.new (noted_step kernel (Fired tx true) state.old) state.new) }
{
    state.note_step(kernel, Event::Expire { tx, last: true })?;
    let _said = take(alloc, c, state, wire, kernel, Input::GaveUp { tx })?;
    Ok(())
}

// The request went out again.
fn note_resent(
    state: &mut State,
    kernel: Kernel,
    tx: TxNo,
    fates: &[(Kernel, Fate)],
) -> Result<(), NoMemory>
    ensures { OnOk result (state.new ≡ resent kernel fates.now (noted_step kernel (Fired tx false) state.old)) }
{
    state.note_step(kernel, Event::Expire { tx, last: false })?;
    note_faults(&mut state.told, kernel, fates)
}
