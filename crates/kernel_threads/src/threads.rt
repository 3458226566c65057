ghost use Rattle.std.specs.Prelude.{◌≡◌, ◌≢◌, ◌+◌, ◌≤◌, ◌<◌, ◌++◌, ◌∷◌, [], All, IfErr, IfOk, map, vec_capacity, vec_len};
ghost use Rattle.turn_gate.specs.Steps.{Later};
ghost use Rattle.kernel_threads.specs.Steps.{Ran};
ghost use Rattle.kernel_threads.specs.Seats.{AreLater, backwards};

use crate::rounds::run_rounds;
use crate::serving::serve_beside;
use crate::sleepers::Sleepers;
use crate::stepped::Stepped;
use crate::watch::Watch;
use crate::workers::serve_seat;
use sprite_ids::Finish;
use std::alloc::Global;
use std::snapshot::Snapshot;
use std::sync::Wait;
use std::thread;
use std::thread::{Promise, PromisedHandle, Threads};
use turn_gate::{Book, Gate, Seat};

// A worker's seat comes back, of the same gate, and the same seat some turns later.
#[derive(Drop)]
struct ComesBack<V: Book> {
    was: Snapshot<Seat<V>>,
}

impl<V: Book> Promise<Seat<V>> for ComesBack<V> {
    ghost use Rattle.std.specs.Prelude.{◌≡◌};
    ghost use Rattle.turn_gate.specs.Steps.{Later};

    ghost kept_by = { λ p r. (r.token.table_id ≡ p.was.value.token.table_id) × Later p.was.value.token.me.0 r.token.me.0 };
}

/// Runs the value by a worker for each of its kernels, each on a thread of its own, until it isn't `Running` any more. Where a thread
/// can't be started, the calling thread serves that kernel too, together with all others that have none. A worker that has its turn goes
/// on with its kernel's choices, up to a bound; one with nothing to do sleeps until another's turn gives it something, or the run is
/// over. It may wait for ever.
///
/// The kernels are all of the value. The log grows by items of the kernels alone, and what is always true of the value stays true.
/// The one error is want of memory before any thread is started, and hands the value back.
pub fn run_threads<R: Threads + Wait + Sync, V: Stepped + Send, W: Watch + Sync>(
    rt: &R,
    alloc: Global,
    value: V,
    kernels: u8,
    watch: &W,
) -> Result<V, V>
where
    V::Choice: Send,
    V::Job: Send,
    V::Burst: Send,
    requires holds { V.holds value }
    requires all { kernels ≡ V.kernels (V.origin value) }
    requires few { (1 ≤ kernels) × (kernels ≤ 16) }
    ensures ran { IfOk result (Ran V.origin V.log V.holds kernels value) }
    ensures over { IfOk result (λ v. V.finish_of v ≢ Finish.Running) }
    ensures err { IfErr result (λ v. v ≡ value) }
{
    let Ok(workers) = Vec::with_capacity(alloc, usize::from(kernels)) else {
        return Err(value);
    };
    let (gate, seats) = match Gate::start(alloc, value, kernels) {
        Ok(started) => started,
        Err(value) => {
            workers.destroy_empty();
            return Err(value);
        }
    };
    let seats = serve_all(rt, alloc, &gate, seats, workers, watch);
    let value = gate.finish(seats);
    Ok(run_rounds(rt, alloc, value, kernels))
}

// All kernels are served, each by a thread where one can be started.
fn serve_all<R: Threads + Wait + Sync, V: Stepped + Send, W: Watch + Sync>(
    rt: &R,
    alloc: Global,
    gate: &Gate<V>,
    seats: Vec<Seat<V>>,
    workers: Vec<PromisedHandle<Seat<V>, ComesBack<V>>>,
    watch: &W,
) -> Vec<Seat<V>>
where
    V::Choice: Send,
    V::Job: Send,
    V::Burst: Send,
    requires table { All (λ s. s.token.table_id ≡ gate.now.table.shared.table_id) seats.items }
    requires none { workers.items ≡ [] }
    requires room { vec_len seats ≤ vec_capacity workers }
    ensures table { All (λ s. s.token.table_id ≡ gate.now.table.shared.table_id) result.items }
    ensures later { AreLater (map (λ s. s.token.me.0) seats.items) (map (λ s. s.token.me.0) result.items) }
{
    let sleepers = Sleepers::new();
    let sleepers = &sleepers;
    thread::scope(
        thread::scope_env(),
        rt,
        move |scope| -> Vec<Seat<V>>
            requires table { All (λ s. s.token.table_id ≡ gate.now.table.shared.table_id) seats.items }
            requires none { workers.items ≡ [] }
            requires room { vec_len seats ≤ vec_capacity workers }
            ensures table { All (λ s. s.token.table_id ≡ gate.entry.now.table.shared.table_id) result.items }
            ensures later { AreLater (map (λ s. s.token.me.0) seats.items) (map (λ s. s.token.me.0) result.items) }
        {
            let mut seats = seats;
            let mut workers = workers;
            for _ in 0..seats.len() {
                let Some(seat) = seats.pop() else {
                    return join_all(rt, gate, seats, workers);
                };
                let number = seat.number();
                let was = Snapshot::of(&seat);
                match scope.spawn_with(
                    ComesBack { was },
                    move || -> Seat<V>
                        requires { seat.token.table_id ≡ gate.now.table.shared.table_id }
                        ensures table { result.token.table_id ≡ seat.token.table_id }
                        ensures later { Later seat.token.me.0 result.token.me.0 }
                    { serve_unless(rt, alloc, gate, seat, watch, sleepers) },
                ) {
                    Ok(worker) => workers.push_reserved(worker),
                    Err(refused) => {
                        sleepers.leave_out(number);
                        seats.push_reserved((refused.value)());
                        let seats = serve_beside(rt, alloc, gate, seats, watch, sleepers);
                        return join_all(rt, gate, seats, workers);
                    }
                }
            }
            join_all(rt, gate, seats, workers)
        },
    )
}

// The seats of the workers come back behind these, the last worker's first.
fn join_all<R: Threads, V: Book>(
    rt: &R,
    gate: &Gate<V>,
    seats: Vec<Seat<V>>,
    workers: Vec<PromisedHandle<Seat<V>, ComesBack<V>>>,
) -> Vec<Seat<V>>
    requires here { All (λ s. s.token.table_id ≡ gate.now.table.shared.table_id) seats.items }
    requires away { All (λ h. h.promise.was.value.token.table_id ≡ gate.now.table.shared.table_id) workers.items }
    requires room { vec_len seats + vec_len workers ≤ vec_capacity seats }
    ensures table { All (λ s. s.token.table_id ≡ gate.now.table.shared.table_id) result.items }
    ensures later { AreLater (map (λ s. s.token.me.0) seats.items ++ backwards (map (λ h. h.promise.was.value.token.me.0) workers.items)) (map (λ s. s.token.me.0) result.items) }
{
    let mut workers = workers;
    let Some(worker) = workers.pop() else {
        return seats;
    };
    let seats = join_one(rt, gate, seats, worker);
    join_all(rt, gate, seats, workers)
}

// The seat of the worker comes back behind these.
fn join_one<R: Threads, V: Book>(
    rt: &R,
    gate: &Gate<V>,
    seats: Vec<Seat<V>>,
    worker: PromisedHandle<Seat<V>, ComesBack<V>>,
) -> Vec<Seat<V>>
    requires here { All (λ s. s.token.table_id ≡ gate.now.table.shared.table_id) seats.items }
    requires away { worker.promise.was.value.token.table_id ≡ gate.now.table.shared.table_id }
    requires room { vec_len seats < vec_capacity seats }
    ensures table { All (λ s. s.token.table_id ≡ gate.now.table.shared.table_id) result.items }
    ensures later { AreLater (map (λ s. s.token.me.0) seats.items ++ worker.promise.was.value.token.me.0 ∷ []) (map (λ s. s.token.me.0) result.items) }
    ensures len { vec_len result ≡ vec_len seats + 1 }
    ensures capacity { vec_capacity result ≡ vec_capacity seats }
{
    let mut seats = seats;
    seats.push_reserved(worker.join(rt));
    seats
}

// Serves the kernel of the seat, unless it is one of those that have no thread of their own.
fn serve_unless<R: Wait, V: Stepped, W: Watch>(
    rt: &R,
    alloc: Global,
    gate: &Gate<V>,
    seat: Seat<V>,
    watch: &W,
    sleepers: &Sleepers,
) -> Seat<V>
    requires { seat.token.table_id ≡ gate.now.table.shared.table_id }
    ensures table { result.token.table_id ≡ seat.token.table_id }
    ensures later { Later seat.token.me.0 result.token.me.0 }
{
    if sleepers.leaves_out(seat.number()) {
        return seat;
    }
    serve_seat(rt, alloc, gate, seat, watch, sleepers)
}
