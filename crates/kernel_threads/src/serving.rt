#![tactic(auto, using(turn_gate::proofs::TurnLaws::later_on, crate::proofs::SeatLaws::later_begins, crate::proofs::SeatLaws::are_later_begin, crate::proofs::SeatLaws::are_later_on))]

ghost use Rattle.std.specs.Prelude.{◌≡◌, All, map, vec_capacity, vec_len};
ghost use Rattle.turn_gate.specs.Steps.{Later};
ghost use Rattle.kernel_threads.specs.Seats.{AreLater};

use crate::acts::Act;
use crate::sleepers::Sleepers;
use crate::stepped::Stepped;
use crate::taking::{end_burst, take_turn};
use crate::watch::{Point, Watch};
use sprite_ids::Kernel;
use std::alloc::Global;
use std::sync::Wait;
use std::thread;
use turn_gate::{Gate, Seat};

/// How often a worker where nothing can happen leaves the processor to others before its kernel's next turn.
const RESTS: u32 = 16;

/// Serves the kernels of the seats, turn after turn, until the value isn't `Running` any more. It may wait for ever.
///
/// In a kernel's turn the first of its choices happens, time after time while it has one, up to a bound, and then a burst begins, where
/// no choice is left and a process of it can run; the burst is done outside of the turns, and ends in the kernel's next turn. Between two
/// turns, and inside each burst, `watch` is told. A kernel where nothing can happen leaves the processor to others for a while before its
/// next turn.
///
/// The seats come back in their order. Each is the same, some turns later.
pub fn serve<R: Wait, V: Stepped, W: Watch>(
    rt: &R,
    alloc: Global,
    gate: &Gate<V>,
    seats: Vec<Seat<V>>,
    watch: &W,
) -> Vec<Seat<V>>
    requires { All (λ s. s.token.table_id ≡ gate.now.table.shared.table_id) seats.items }
    ensures table { All (λ s. s.token.table_id ≡ gate.now.table.shared.table_id) result.items }
    ensures later { AreLater (map (λ s. s.token.me.0) seats.items) (map (λ s. s.token.me.0) result.items) }
    ensures len { vec_len result ≡ vec_len seats }
    ensures capacity { vec_capacity result ≡ vec_capacity seats }
{
    serve_beside(rt, alloc, gate, seats, watch, &Sleepers::none())
}

/// The same beside workers on threads of their own, which are called where something can happen at their kernels; and while nothing can
/// happen at any of these kernels this thread sleeps until one of them is called.
pub(crate) fn serve_beside<R: Wait, V: Stepped, W: Watch>(
    rt: &R,
    alloc: Global,
    gate: &Gate<V>,
    seats: Vec<Seat<V>>,
    watch: &W,
    sleepers: &Sleepers,
) -> Vec<Seat<V>>
    requires { All (λ s. s.token.table_id ≡ gate.now.table.shared.table_id) seats.items }
    ensures table { All (λ s. s.token.table_id ≡ gate.now.table.shared.table_id) result.items }
    ensures later { AreLater (map (λ s. s.token.me.0) seats.items) (map (λ s. s.token.me.0) result.items) }
    ensures len { vec_len result ≡ vec_len seats }
    ensures capacity { vec_capacity result ≡ vec_capacity seats }
{
    let mut seats = seats;
    for _ in rt.forever() {
        let (back, more) = serve_once(rt, alloc, gate, seats, watch, sleepers);
        seats = back;
        if !more {
            return seats;
        }
    }
    unreachable!()
}

// Each seat's kernel is visited, the last one first. It tells whether there are kernels that are to be visited again.
fn serve_once<R: Wait, V: Stepped, W: Watch>(
    rt: &R,
    alloc: Global,
    gate: &Gate<V>,
    seats: Vec<Seat<V>>,
    watch: &W,
    sleepers: &Sleepers,
) -> (Vec<Seat<V>>, bool)
    requires { All (λ s. s.token.table_id ≡ gate.now.table.shared.table_id) seats.items }
    ensures table { All (λ s. s.token.table_id ≡ gate.now.table.shared.table_id) result.0.items }
    ensures later { AreLater (map (λ s. s.token.me.0) seats.items) (map (λ s. s.token.me.0) result.0.items) }
    ensures len { vec_len result.0 ≡ vec_len seats }
    ensures capacity { vec_capacity result.0 ≡ vec_capacity seats }
{
    let mut seats = seats;
    let Some(seat) = seats.pop() else {
        return (seats, false);
    };
    let (seat, more) = visit(rt, alloc, gate, seat, watch, sleepers);
    let (mut seats, others) = serve_once(rt, alloc, gate, seats, watch, sleepers);
    seats.push_reserved(seat);
    (seats, more || others)
}

// A turn of the seat's kernel, and where a burst begins in it the burst, and a turn in which it ends. False where the value isn't
// `Running` any more.
fn visit<R: Wait, V: Stepped, W: Watch>(
    rt: &R,
    alloc: Global,
    gate: &Gate<V>,
    seat: Seat<V>,
    watch: &W,
    sleepers: &Sleepers,
) -> (Seat<V>, bool)
    requires { seat.token.table_id ≡ gate.now.table.shared.table_id }
    ensures table { result.0.token.table_id ≡ seat.token.table_id }
    ensures later { Later seat.token.me.0 result.0.token.me.0 }
{
    let Some(kernel) = Kernel::new(seat.number()) else {
        return (seat, false);
    };
    watch.at(kernel, Point::Turn);
    let (seat, act) = take_turn(rt, alloc, gate, seat, kernel, sleepers);
    match act {
        Act::Over => (seat, false),
        Act::Moved => (seat, true),
        Act::Idle => {
            rest();
            sleepers.sleep(rt, kernel);
            (seat, true)
        }
        Act::Began(job) => {
            watch.at(kernel, Point::InBurst);
            let burst = V::run_job(job);
            end_burst(rt, alloc, gate, seat, kernel, burst, sleepers)
        }
    }
}

// Leaves the processor to others for a while, so that kernels where something can happen find the gate free.
fn rest() {
    for _ in 0..RESTS {
        thread::yield_now();
    }
}
