ghost use Rattle.std.specs.Prelude.{◌≡◌, ◌≢◌, ◌<◌, ◌≤◌, ◌+◌, true, false, length, IsTrue};
ghost use Rattle.kernel_threads.specs.Steps.{Adds, Closes, IsAmong, MayMove, Ran};
ghost use Rattle.kernel_threads.specs.Seeds.{Seeded, Drew};
ghost use Rattle.kernel_threads.specs.Candidates.{IsOf};

use crate::candidates::{Candidate, draw};
use crate::stepped::{EndBurst, Stepped};
use rand_core::SeedableRng;
use rand_core::utils::NextWord;
use rand_pcg::Lcg64Xsh32;
use sprite_ids::{Finish, Kernel, NoMemory};
use std::alloc::Global;

/// Runs the value on this thread until it isn't `Running` any more. What happens next is taken from the list of all kernels' choices,
/// each kernel's followed by its burst where a process of it can run, by ascending kernels: at the place that the next word of a
/// generator (PCG32, made by that seed) gives, modulo the list's length (this project). So a seed gives the same run each time.
///
/// The kernels are all of the value, and none of its bursts is out. The log grows by items of the kernels alone, and what is always
/// true of the value stays true. Where memory is wanting the value isn't `Running`.
pub fn run_seeded<V: Stepped>(alloc: Global, value: V, kernels: u8, seed: u64) -> V
    requires holds { V.holds value }
    requires all { kernels ≡ V.kernels (V.origin value) }
    requires few { kernels ≤ 16 }
    requires none_out { V.out value ≡ 0 }
    ensures ran { Ran V.origin V.log V.holds kernels value result }
    ensures seeded { Seeded V.origin V.log V.holds V.choices_at V.has_job_at kernels seed value result }
    ensures over { V.finish_of result ≢ Finish.Running }
{
    let mut value = value;
    let mut words = Lcg64Xsh32::seed_from_u64(seed);
    'draws: loop {
        if value.finish(alloc) != Finish::Running {
            return value;
        }
        if !take_drawn(alloc, &mut value, kernels, words.next_word()) {
            return value;
        }
    }
}

// What the word draws happens. False where memory is wanting, or where the value is over with a burst that is lost.
fn take_drawn<V: Stepped>(alloc: Global, value: &mut V, kernels: u8, word: u32) -> bool
    requires holds { V.holds value.old }
    requires running { V.finish_of value.old ≡ Finish.Running }
    requires few { kernels ≤ 16 }
    requires moves { MayMove (V.choices_at value.old) (V.has_job_at value.old) kernels }
    ensures drew { result ≡ true → Drew V.origin V.log V.holds V.choices_at V.has_job_at kernels word value.old value.new }
    ensures out { result ≡ true → V.out value.new ≡ V.out value.old }
    ensures ran { Ran V.origin V.log V.holds kernels value.old value.new }
    ensures over { result ≡ false → Closes V.origin V.log V.holds V.finish_of value.old value.new }
{
    let Ok(candidate) = draw(alloc, value, kernels, word) else {
        return false;
    };
    happens(alloc, value, candidate)
}

// The candidate, one that may happen, happens. False where memory is wanting, or where the value is over with a burst that is lost.
fn happens<V: Stepped>(alloc: Global, value: &mut V, candidate: Candidate<V::Choice>) -> bool
    requires holds { V.holds value.old }
    requires running { V.finish_of value.old ≡ Finish.Running }
    requires is_of { IsOf (V.choices_at value.old candidate.kernel) (V.has_job_at value.old candidate.kernel) candidate.choice }
    ensures adds { result ≡ true → Adds V.origin V.log V.holds candidate.kernel value.old value.new }
    ensures out { result ≡ true → V.out value.new ≡ V.out value.old }
    ensures over { result ≡ false → Closes V.origin V.log V.holds V.finish_of value.old value.new }
{
    let Candidate { kernel, choice } = candidate;
    match choice {
        Some(choice) => step(alloc, value, kernel, choice),
        None => burst(alloc, value, kernel),
    }
}

// The choice happens. False where memory is wanting.
fn step<V: Stepped>(alloc: Global, value: &mut V, kernel: Kernel, choice: V::Choice) -> bool
    requires holds { V.holds value.old }
    requires running { V.finish_of value.old ≡ Finish.Running }
    requires among { IsAmong choice (V.choices_at value.old kernel) }
    ensures adds { result ≡ true → Adds V.origin V.log V.holds kernel value.old value.new }
    ensures out { result ≡ true → V.out value.new ≡ V.out value.old }
    ensures over { result ≡ false → Closes V.origin V.log V.holds V.finish_of value.old value.new }
{
    match value.step(alloc, kernel, choice) {
        Ok(()) => true,
        Err(NoMemory) => false,
    }
}

// A burst of the kernel, from its begin to its end. False where memory is wanting, or where the value is over.
fn burst<V: Stepped>(alloc: Global, value: &mut V, kernel: Kernel) -> bool
    requires holds { V.holds value.old }
    requires running { V.finish_of value.old ≡ Finish.Running }
    requires has { V.has_job_at value.old kernel ≡ true }
    ensures adds { result ≡ true → Adds V.origin V.log V.holds kernel value.old value.new }
    ensures out { result ≡ true → V.out value.new ≡ V.out value.old }
    ensures over { result ≡ false → Closes V.origin V.log V.holds V.finish_of value.old value.new }
{
    match value.begin_burst(alloc, kernel) {
        Ok(Some(job)) => end(alloc, value, kernel, V::run_job(job)),
        Ok(None) => unreachable!(),
        Err(NoMemory) => false,
    }
}

// The burst of the kernel ends. False where memory is wanting, or where the value is over, and the burst lost.
fn end<V: Stepped>(alloc: Global, value: &mut V, kernel: Kernel, burst: V::Burst) -> bool
    requires holds { V.holds value.old }
    requires may_end { V.may_end (V.origin value.old) burst }
    requires counts { V.counts value.old kernel burst }
    ensures adds { result ≡ true → Adds V.origin V.log V.holds kernel value.old value.new }
    ensures out { result ≡ true → V.out value.new + 1 ≡ V.out value.old }
    ensures over { result ≡ false → Closes V.origin V.log V.holds V.finish_of value.old value.new }
{
    if value.finish(alloc) != Finish::Running {
        return false;
    }
    match value.end_burst(alloc, kernel, burst) {
        Ok(EndBurst::Taken) => true,
        Ok(EndBurst::Stale) => unreachable!(),
        Err(NoMemory) => false,
    }
}
