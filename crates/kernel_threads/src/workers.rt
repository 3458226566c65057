//! A worker: it serves one kernel on a thread of its own.
#![tactic(auto, using(turn_gate::proofs::TurnLaws::later_on, crate::proofs::SeatLaws::later_begins))]

ghost use Rattle.std.specs.Prelude.{◌≡◌, IfSome};
ghost use Rattle.turn_gate.specs.Steps.{Later};
ghost use Rattle.kernel_threads.specs.Steps.{BeganOf};
ghost use Rattle.kernel_threads.specs.Seats.{MayEndAt};

use crate::acts::Act;
use crate::sleepers::Sleepers;
use crate::stepped::Stepped;
use crate::taking::{end_turn, take_turn};
use crate::watch::{Point, Watch};
use sprite_ids::Kernel;
use std::alloc::Global;
use std::sync::Wait;
use turn_gate::{Gate, Seat};

/// Serves the kernel of the seat until the value isn't `Running` any more. While nothing can happen at it, the worker sleeps. It may wait
/// for ever.
pub(crate) fn serve_seat<R: Wait, V: Stepped, W: Watch>(
    rt: &R,
    alloc: Global,
    gate: &Gate<V>,
    seat: Seat<V>,
    watch: &W,
    sleepers: &Sleepers,
) -> Seat<V>
    requires { seat.token.table_id ≡ gate.now.table.shared.table_id }
    ensures table { result.token.table_id ≡ seat.token.table_id }
    ensures later { Later seat.token.me.0 result.token.me.0 }
{
    let mut seat = seat;
    let mut burst = None;
    for _ in rt.forever() {
        let (back, more, done) = work(rt, alloc, gate, seat, burst, watch, sleepers);
        seat = back;
        burst = done;
        if !more {
            return seat;
        }
    }
    unreachable!()
}

// A turn of the seat's kernel, in which the burst ends, where there is one; and the burst that begins in it, which ends in the next turn.
// Where nothing more can happen the worker sleeps until it is called. False where the value isn't `Running` any more.
fn work<R: Wait, V: Stepped, W: Watch>(
    rt: &R,
    alloc: Global,
    gate: &Gate<V>,
    seat: Seat<V>,
    burst: Option<V::Burst>,
    watch: &W,
    sleepers: &Sleepers,
) -> (Seat<V>, bool, Option<V::Burst>)
    requires table { seat.token.table_id ≡ gate.now.table.shared.table_id }
    requires may_end { IfSome burst (MayEndAt V.may_end seat.token.me.0.origin) }
    ensures table { result.0.token.table_id ≡ seat.token.table_id }
    ensures later { Later seat.token.me.0 result.0.token.me.0 }
    ensures may_end { IfSome result.2 (MayEndAt V.may_end result.0.token.me.0.origin) }
{
    let Some(kernel) = Kernel::new(seat.number()) else {
        return (seat, false, None);
    };
    watch.at(kernel, Point::Turn);
    let (seat, act) = next_turn(rt, alloc, gate, seat, kernel, burst, sleepers);
    match act {
        Act::Over => (seat, false, None),
        Act::Moved => (seat, true, None),
        Act::Idle => {
            sleepers.sleep(rt, kernel);
            (seat, true, None)
        }
        Act::Began(job) => {
            watch.at(kernel, Point::InBurst);
            (seat, true, Some(V::run_job(job)))
        }
    }
}

// A turn of the kernel, in which the burst ends, where there is one.
fn next_turn<R: Wait, V: Stepped>(
    rt: &R,
    alloc: Global,
    gate: &Gate<V>,
    seat: Seat<V>,
    kernel: Kernel,
    burst: Option<V::Burst>,
    sleepers: &Sleepers,
) -> (Seat<V>, Act<V::Job>)
    requires table { seat.token.table_id ≡ gate.now.table.shared.table_id }
    requires number { seat.token.me.0.number ≡ kernel }
    requires may_end { IfSome burst (MayEndAt V.may_end seat.token.me.0.origin) }
    ensures table { result.0.token.table_id ≡ seat.token.table_id }
    ensures later { Later seat.token.me.0 result.0.token.me.0 }
    ensures may_end { BeganOf V.is_done (MayEndAt V.may_end result.0.token.me.0.origin) result.1 }
{
    match burst {
        Some(burst) => end_turn(rt, alloc, gate, seat, kernel, burst, sleepers),
        None => take_turn(rt, alloc, gate, seat, kernel, sleepers),
    }
}
