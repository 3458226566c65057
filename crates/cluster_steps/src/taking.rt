ghost use Rattle.std.specs.Prelude.{◌≡◌, [], ◌++◌, true, IfOk};
ghost use Rattle.unix_calls.specs.Lawful.{Lawful};
ghost use Rattle.cluster_steps.specs.Receivers.{all_fit};
ghost use Rattle.cluster_steps.specs.Steps.{says, took, GoesOut, TakesSo};
ghost use Rattle.cluster_kernels.specs.States.{can_take_at, stepped};
ghost use Rattle.cluster_wire.specs.Goings.{AllGo, next_of};
ghost use Rattle.cluster_wire.specs.Links.{AskedFor};
ghost use Rattle.cluster_wire.specs.Noted.{untold, without_faults};

use crate::receivers::all_fit;
use cluster_kernels::State;
use cluster_wire::{Said, answer_all, begin_all, next_call, note_all, note_faults};
use kernel_rpc::Wire;
use kernel_steps::{Input, Out};
use link_plan::Link;
use sprite_ids::{Kernel, NoMemory, TxNo};
use std::alloc::Global;
use unix_calls::Description;
use wire_format::Packet;

/// The kernel does one step with that, and all that it says goes out and is told: its requests, and its answers to the callers that wait
/// for them. The one error is want of memory. It is also the answer where the kernel can't take what comes, where a request has no one to go
/// to or goes to a kernel that doesn't take such, where no one waits for an answer, and where what the step did and the packets that went
/// out don't belong together; no run is known in which one of these comes.
#[tactic(auto, using(crate::proofs::TakenLaws::takes_so))]
pub fn take<L: Link>(
    alloc: Global,
    c: &Description,
    state: &mut State,
    wire: &mut Wire<Packet, L>,
    kernel: Kernel,
    input: Input,
) -> Result<Said, NoMemory>
    requires lawful { Lawful c.now }
    ensures { IfOk result (λ said. TakesSo L.faults L.asked c.now kernel input said wire.old wire.new state.old state.new) }
{
    take_in(alloc, c, state, wire, kernel, &input)
}

// The same with an input that is lent.
#[tactic(auto, using(crate::proofs::TakenLaws::said_after, crate::proofs::TakenLaws::fit_after, crate::proofs::TakenLaws::go_after, crate::proofs::TakenLaws::whole_after, crate::proofs::TakenLaws::all_after))]
fn take_in<L: Link>(
    alloc: Global,
    c: &Description,
    state: &mut State,
    wire: &mut Wire<Packet, L>,
    kernel: Kernel,
    input: &Input,
) -> Result<Said, NoMemory>
    requires lawful { Lawful c.now }
    ensures taken { IfOk result (λ _. can_take_at kernel input.now state.old ≡ true) }
    ensures state { IfOk result (λ said. state.new ≡ took kernel input.now said state.old) }
    ensures next { IfOk result (λ said. said.next ≡ next_of wire.old.machine) }
    ensures goes_out { IfOk result (λ said. GoesOut L.faults L.asked c.now kernel (stepped kernel input.now said.next state.old).1 wire.old wire.new said) }
    ensures fit { IfOk result (λ said. all_fit c.now (stepped kernel input.now said.next state.old).1.sends ≡ true) }
    ensures go { IfOk result (λ said. AllGo c.now kernel (stepped kernel input.now said.next state.old).1.sends) }
    ensures whole { IfOk result (λ said. untold (stepped kernel input.now said.next state.old).1.events said.sent ≡ []) }
    ensures all { IfOk result (λ said. without_faults state.new.told ≡ without_faults state.old.told ++ (stepped kernel input.now said.next state.old).1.events) }
    ensures asked { IfOk result (AskedFor L.faults L.asked kernel wire.old.link wire.new.link) }
{
    if !state.can_take(alloc, kernel, input)? {
        return Err(NoMemory);
    }
    let next = next_call(wire)?;
    let mut out = state.step(alloc, kernel, input, next)?;
    say(alloc, c, state, wire, kernel, next, &mut out)
}

// What a step says: its remote calls begin, its answers go out, and what it did is told. The one error is want of memory, as `take` says.
#[tactic(auto, using(crate::proofs::TakenLaws::all_told))]
fn say<L: Link>(
    alloc: Global,
    c: &Description,
    state: &mut State,
    wire: &mut Wire<Packet, L>,
    kernel: Kernel,
    next: TxNo,
    out: &mut Out,
) -> Result<Said, NoMemory>
    requires lawful { Lawful c.now }
    ensures state { IfOk result (λ said. state.new ≡ says kernel said (state.old, out.old)) }
    ensures next { IfOk result (λ said. said.next ≡ next) }
    ensures goes_out { IfOk result (GoesOut L.faults L.asked c.now kernel out.old wire.old wire.new) }
    ensures fit { IfOk result (λ _. all_fit c.now out.old.sends ≡ true) }
    ensures go { IfOk result (λ _. AllGo c.now kernel out.old.sends) }
    ensures whole { IfOk result (λ said. untold out.old.events said.sent ≡ []) }
    ensures all { IfOk result (λ _. without_faults state.new.told ≡ without_faults state.old.told ++ out.old.events) }
    ensures asked { IfOk result (AskedFor L.faults L.asked kernel wire.old.link wire.new.link) }
{
    if !all_fit(c, out.sends.as_slice()) {
        return Err(NoMemory);
    }
    let sent = begin_all(alloc, c, wire, kernel, &mut out.sends)?;
    let answered = answer_all(alloc, wire, kernel, &mut out.answers)?;
    note_all(&mut state.told, kernel, &mut out.events, sent.as_slice())?;
    note_faults(&mut state.told, kernel, answered.as_slice())?;
    Ok(Said {
        next,
        sent,
        answered,
    })
}
