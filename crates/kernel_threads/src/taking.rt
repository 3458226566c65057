//! Turns of a kernel at the gate. Behind each the workers are called that wait, where something can happen at their kernels.
#![tactic(auto, using(turn_gate::proofs::TurnLaws::later_on))]

ghost use Rattle.std.specs.Prelude.{◌≡◌};
ghost use Rattle.turn_gate.specs.Steps.{Later};
ghost use Rattle.kernel_threads.specs.Steps.{BeganOf};
ghost use Rattle.kernel_threads.specs.Seats.{MayEndAt};

use crate::acts::Act;
use crate::calls::{end_and_call, go_far_and_call, only_end_and_call};
use crate::sleepers::Sleepers;
use crate::stepped::Stepped;
use sprite_ids::Kernel;
use std::alloc::Global;
use std::sync::Wait;
use turn_gate::{Gate, Seat};

/// A turn of the kernel. Where nothing more can happen at it, it waits from now on, if it has a thread of its own.
pub(crate) fn take_turn<R: Wait, V: Stepped>(
    rt: &R,
    alloc: Global,
    gate: &Gate<V>,
    seat: Seat<V>,
    kernel: Kernel,
    sleepers: &Sleepers,
) -> (Seat<V>, Act<V::Job>)
    requires table { seat.token.table_id ≡ gate.now.table.shared.table_id }
    requires number { seat.token.me.0.number ≡ kernel }
    ensures table { result.0.token.table_id ≡ seat.token.table_id }
    ensures later { Later seat.token.me.0 result.0.token.me.0 }
    ensures may_end { BeganOf V.is_done (MayEndAt V.may_end result.0.token.me.0.origin) result.1 }
{
    let mut turn = gate.take(rt, seat);
    let (act, called) = go_far_and_call(alloc, &mut turn.value, kernel, sleepers);
    let seat = gate.put(turn);
    sleepers.wake(called);
    (seat, act)
}

/// A turn of the kernel in which its burst ends, and in which the kernel goes on.
pub(crate) fn end_turn<R: Wait, V: Stepped>(
    rt: &R,
    alloc: Global,
    gate: &Gate<V>,
    seat: Seat<V>,
    kernel: Kernel,
    burst: V::Burst,
    sleepers: &Sleepers,
) -> (Seat<V>, Act<V::Job>)
    requires table { seat.token.table_id ≡ gate.now.table.shared.table_id }
    requires number { seat.token.me.0.number ≡ kernel }
    requires may_end { MayEndAt V.may_end seat.token.me.0.origin burst }
    ensures table { result.0.token.table_id ≡ seat.token.table_id }
    ensures later { Later seat.token.me.0 result.0.token.me.0 }
    ensures may_end { BeganOf V.is_done (MayEndAt V.may_end result.0.token.me.0.origin) result.1 }
{
    let mut turn = gate.take(rt, seat);
    let (act, called) = end_and_call(alloc, &mut turn.value, kernel, burst, sleepers);
    let seat = gate.put(turn);
    sleepers.wake(called);
    (seat, act)
}

/// A turn of the kernel in which its burst ends, and no more. False where the value isn't `Running` any more.
pub(crate) fn end_burst<R: Wait, V: Stepped>(
    rt: &R,
    alloc: Global,
    gate: &Gate<V>,
    seat: Seat<V>,
    kernel: Kernel,
    burst: V::Burst,
    sleepers: &Sleepers,
) -> (Seat<V>, bool)
    requires table { seat.token.table_id ≡ gate.now.table.shared.table_id }
    requires number { seat.token.me.0.number ≡ kernel }
    requires may_end { MayEndAt V.may_end seat.token.me.0.origin burst }
    ensures table { result.0.token.table_id ≡ seat.token.table_id }
    ensures later { Later seat.token.me.0 result.0.token.me.0 }
{
    let mut turn = gate.take(rt, seat);
    let (more, called) = only_end_and_call(alloc, &mut turn.value, kernel, burst, sleepers);
    let seat = gate.put(turn);
    sleepers.wake(called);
    (seat, more)
}
