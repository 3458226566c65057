#![tactic(auto, using(crate::proofs::ActLaws::acts_stays, crate::proofs::ActLaws::acts_adds, crate::proofs::ActLaws::acts_on))]

ghost use Rattle.std.specs.Prelude.{◌≡◌, ◌≤◌, OnErr, OnOk};
ghost use Rattle.kernel_threads.specs.Steps.{Acts, BeganOf, Closes};

use crate::acts::{Act, end, end_and_go_far, go_far};
use crate::sleepers::{Sleepers, bit};
use crate::stepped::Stepped;
use sprite_ids::{Finish, Kernel, NoMemory};
use std::alloc::Global;

/// The kernel goes on, as by `go_far`, and waits where nothing more can happen at it; and of those that wait the ones are called at which
/// something can happen. It gives the called ones.
pub(crate) fn go_far_and_call<V: Stepped>(
    alloc: Global,
    value: &mut V,
    kernel: Kernel,
    sleepers: &Sleepers,
) -> (Act<V::Job>, u64)
    requires { V.holds value.old }
    ensures acts { Acts V.origin V.log V.holds kernel value.old value.new }
    ensures may_end { BeganOf V.is_done (V.may_end (V.origin value.new)) result.0 }
{
    let act = go_far(alloc, value, kernel);
    if act.is_idle() {
        sleepers.wait(kernel);
    }
    let called = call(alloc, value, kernel, sleepers);
    (act, called)
}

/// The burst of the kernel ends, and it goes on, as by `end_and_go_far`; else as `go_far_and_call`.
pub(crate) fn end_and_call<V: Stepped>(
    alloc: Global,
    value: &mut V,
    kernel: Kernel,
    burst: V::Burst,
    sleepers: &Sleepers,
) -> (Act<V::Job>, u64)
    requires holds { V.holds value.old }
    requires may_end { V.may_end (V.origin value.old) burst }
    ensures acts { Acts V.origin V.log V.holds kernel value.old value.new }
    ensures may_end { BeganOf V.is_done (V.may_end (V.origin value.new)) result.0 }
{
    let act = end_and_go_far(alloc, value, kernel, burst);
    if act.is_idle() {
        sleepers.wait(kernel);
    }
    let called = call(alloc, value, kernel, sleepers);
    (act, called)
}

/// The burst of the kernel ends, as by `end`; of those that wait the ones are called at which something can happen. It gives them too.
pub(crate) fn only_end_and_call<V: Stepped>(
    alloc: Global,
    value: &mut V,
    kernel: Kernel,
    burst: V::Burst,
    sleepers: &Sleepers,
) -> (bool, u64)
    requires holds { V.holds value.old }
    requires may_end { V.may_end (V.origin value.old) burst }
    ensures { Acts V.origin V.log V.holds kernel value.old value.new }
{
    let more = end(alloc, value, kernel, burst);
    let called = call(alloc, value, kernel, sleepers);
    (more, called)
}

// Of the kernels that wait those are called where something can happen. It gives them.
fn call<V: Stepped>(alloc: Global, value: &mut V, kernel: Kernel, sleepers: &Sleepers) -> u64
    requires { V.holds value.old }
    ensures { Acts V.origin V.log V.holds kernel value.old value.new }
{
    let waiting = sleepers.waiting();
    if waiting == 0 {
        return 0;
    }
    let called = busy_or_all(alloc, value, kernel, waiting);
    sleepers.call(called);
    called
}

// Those of the kernels where something can happen; all of them where the value isn't `Running` or memory is wanting.
fn busy_or_all<V: Stepped>(alloc: Global, value: &mut V, kernel: Kernel, kernels: u64) -> u64
    requires { V.holds value.old }
    ensures { Acts V.origin V.log V.holds kernel value.old value.new }
{
    if value.finish(alloc) != Finish::Running {
        return kernels;
    }
    match busy_among(alloc, value, kernels) {
        Ok(busy) => busy,
        Err(NoMemory) => kernels,
    }
}

// Those of the kernels where something can happen. The one error is want of memory.
fn busy_among<V: Stepped>(alloc: Global, value: &mut V, kernels: u64) -> Result<u64, NoMemory>
    requires holds { V.holds value.old }
    requires running { V.finish_of value.old ≡ Finish.Running }
    ensures ok { OnOk result (value.new ≡ value.old) }
    ensures err { OnErr result (Closes V.origin V.log V.holds V.finish_of value.old value.new) }
{
    let mut busy = 0;
    for before in 0..16 {
        busy |= busy_at(alloc, value, before + 1, kernels)?;
    }
    Ok(busy)
}

// The kernel of that number, where it is one of these and something can happen at it. The one error is want of memory.
fn busy_at<V: Stepped>(
    alloc: Global,
    value: &mut V,
    number: u8,
    kernels: u64,
) -> Result<u64, NoMemory>
    requires holds { V.holds value.old }
    requires running { V.finish_of value.old ≡ Finish.Running }
    requires range { (1 ≤ number) × (number ≤ 16) }
    ensures ok { OnOk result (value.new ≡ value.old) }
    ensures err { OnErr result (Closes V.origin V.log V.holds V.finish_of value.old value.new) }
{
    let Some(kernel) = Kernel::new(number) else {
        unreachable!()
    };
    if kernels & bit(kernel) == 0 {
        return Ok(0);
    }
    if value.choice(kernel, 0).is_some() || value.has_job(alloc, kernel)? {
        return Ok(bit(kernel));
    }
    Ok(0)
}
