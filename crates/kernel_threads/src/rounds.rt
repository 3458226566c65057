#![tactic(auto, using(crate::proofs::RunLaws::ran_begins, crate::proofs::RunLaws::ran_stays, crate::proofs::RunLaws::ran_acts, crate::proofs::RunLaws::ran_on))]

ghost use Rattle.std.specs.Prelude.{◌≡◌, ◌≢◌, ◌≤◌};
ghost use Rattle.kernel_threads.specs.Steps.{Acts, Ran};

use crate::acts::{Act, end, move_on};
use crate::stepped::Stepped;
use sprite_ids::{Finish, Kernel};
use std::alloc::Global;
use std::sync::Wait;

/// Runs the value on this thread, round after round, until it isn't `Running` any more: the kernels take turns by their numbers, and
/// each does the first of its choices, where it has one, and then one burst, where a process of it can run (this project). It may
/// wait for ever: with a burst out, or with kernels left out, there may be nothing that can happen.
///
/// The log grows by items of the kernels alone, and what is always true of the value stays true.
pub fn run_rounds<R: Wait, V: Stepped>(rt: &R, alloc: Global, value: V, kernels: u8) -> V
    requires holds { V.holds value }
    requires few { kernels ≤ 16 }
    ensures ran { Ran V.origin V.log V.holds kernels value result }
    ensures over { V.finish_of result ≢ Finish.Running }
{
    let mut value = value;
    for _ in rt.forever() {
        if value.finish(alloc) != Finish::Running {
            return value;
        }
        round(alloc, &mut value, kernels);
    }
    unreachable!()
}

// One round: each kernel has its turn.
fn round<V: Stepped>(alloc: Global, value: &mut V, kernels: u8)
    requires holds { V.holds value.old }
    requires few { kernels ≤ 16 }
    ensures { Ran V.origin V.log V.holds kernels value.old value.new }
{
    for before in 0..kernels {
        turn(alloc, value, before + 1);
    }
}

// The turn of the kernel of that number, and the burst that begins in it.
fn turn<V: Stepped>(alloc: Global, value: &mut V, number: u8)
    requires holds { V.holds value.old }
    requires range { (1 ≤ number) × (number ≤ 16) }
    ensures { Acts V.origin V.log V.holds number value.old value.new }
{
    let Some(kernel) = Kernel::new(number) else {
        unreachable!()
    };
    match move_on(alloc, value, kernel) {
        Act::Began(job) => {
            end(alloc, value, kernel, V::run_job(job));
        }
        Act::Over | Act::Idle | Act::Moved => {}
    }
}
