#![tactic(auto, using(crate::proofs::ActLaws::acts_stays, crate::proofs::ActLaws::acts_adds, crate::proofs::ActLaws::acts_on))]

ghost use Rattle.std.specs.Prelude.{◌≡◌, ◌≢◌, IfSome};
ghost use Rattle.kernel_threads.specs.Steps.{Acts, BeganOf, IsAmong};

use crate::stepped::Stepped;
use sprite_ids::{Finish, Kernel, NoMemory};
use std::alloc::Global;

/// How many of a kernel's choices may happen in one turn of its worker.
const MOST_STEPS: u32 = 32;

/// What a kernel's turn came to.
pub(crate) enum Act<J> {
    /// The value isn't `Running`.
    Over,
    /// Nothing can happen at the kernel.
    Idle,
    /// Something happened, and no burst begins; more may be able to happen.
    Moved,
    /// A process of the kernel is to run.
    Began(J),
}

impl<J> Act<J> {
    /// Whether nothing can happen at the kernel.
    pub(crate) fn is_idle(&self) -> bool {
        match self {
            Act::Idle => true,
            Act::Over | Act::Moved | Act::Began(_) => false,
        }
    }
}

/// The first of the kernel's choices happens, where it has one, and then a burst begins, where a process of it can run.
pub(crate) fn move_on<V: Stepped>(alloc: Global, value: &mut V, kernel: Kernel) -> Act<V::Job>
    requires { V.holds value.old }
    ensures acts { Acts V.origin V.log V.holds kernel value.old value.new }
    ensures may_end { BeganOf V.is_done (V.may_end (V.origin value.new)) result }
{
    if value.finish(alloc) != Finish::Running {
        return Act::Over;
    }
    match first_choice(value, kernel) {
        Some(choice) => step(alloc, value, kernel, choice),
        None => begin(alloc, value, kernel, false),
    }
}

// The first of the kernel's choices, where it has one.
fn first_choice<V: Stepped>(value: &V, kernel: Kernel) -> Option<V::Choice>
    requires { V.holds value.now }
    ensures { IfSome result (λ choice. IsAmong choice (V.choices_at value.now kernel)) }
{
    value.choice(kernel, 0)
}

// The choice happens, and then a burst begins, where a process of the kernel can run.
fn step<V: Stepped>(alloc: Global, value: &mut V, kernel: Kernel, choice: V::Choice) -> Act<V::Job>
    requires holds { V.holds value.old }
    requires running { V.finish_of value.old ≡ Finish.Running }
    requires among { IsAmong choice (V.choices_at value.old kernel) }
    ensures acts { Acts V.origin V.log V.holds kernel value.old value.new }
    ensures may_end { BeganOf V.is_done (V.may_end (V.origin value.new)) result }
{
    let Ok(()) = value.step(alloc, kernel, choice) else {
        return Act::Over;
    };
    go_on(alloc, value, kernel)
}

// After a step a burst begins, where the value goes on and a process of the kernel can run.
fn go_on<V: Stepped>(alloc: Global, value: &mut V, kernel: Kernel) -> Act<V::Job>
    requires holds { V.holds value.old }
    ensures acts { Acts V.origin V.log V.holds kernel value.old value.new }
    ensures may_end { BeganOf V.is_done (V.may_end (V.origin value.new)) result }
{
    if value.finish(alloc) != Finish::Running {
        return Act::Over;
    }
    begin(alloc, value, kernel, true)
}

// A burst begins, where a process of the kernel can run.
fn begin<V: Stepped>(alloc: Global, value: &mut V, kernel: Kernel, moved: bool) -> Act<V::Job>
    requires holds { V.holds value.old }
    requires running { V.finish_of value.old ≡ Finish.Running }
    ensures acts { Acts V.origin V.log V.holds kernel value.old value.new }
    ensures may_end { BeganOf V.is_done (V.may_end (V.origin value.new)) result }
{
    match value.begin_burst(alloc, kernel) {
        Ok(Some(job)) => Act::Began(job),
        Ok(None) => { if moved { Act::Moved } else { Act::Idle } }
        Err(NoMemory) => Act::Over,
    }
}

/// The first of the kernel's choices happens, time after time while it has one, up to a bound. Then a burst begins, where no choice is left
/// and a process of the kernel can run. It is `Idle` where nothing more can happen at the kernel, whatever has happened.
pub(crate) fn go_far<V: Stepped>(alloc: Global, value: &mut V, kernel: Kernel) -> Act<V::Job>
    requires { V.holds value.old }
    ensures acts { Acts V.origin V.log V.holds kernel value.old value.new }
    ensures may_end { BeganOf V.is_done (V.may_end (V.origin value.new)) result }
{
    for _ in 0..MOST_STEPS {
        match first_step(alloc, value, kernel) {
            Outcome::Over => return Act::Over,
            Outcome::Nothing => return begin(alloc, value, kernel, false),
            Outcome::Happened => {}
        }
    }
    Act::Moved
}

// What became of a kernel's first choice.
enum Outcome {
    // The value isn't `Running`.
    Over,
    // There is none, and the value is `Running`.
    Nothing,
    // It happened.
    Happened,
}

// The first of the kernel's choices happens, where it has one.
fn first_step<V: Stepped>(alloc: Global, value: &mut V, kernel: Kernel) -> Outcome
    requires { V.holds value.old }
    ensures acts { Acts V.origin V.log V.holds kernel value.old value.new }
    ensures running { result ≡ Outcome.Nothing → V.finish_of value.new ≡ Finish.Running }
{
    if value.finish(alloc) != Finish::Running {
        return Outcome::Over;
    }
    match first_choice(value, kernel) {
        Some(choice) => happen(alloc, value, kernel, choice),
        None => Outcome::Nothing,
    }
}

// The choice happens.
fn happen<V: Stepped>(alloc: Global, value: &mut V, kernel: Kernel, choice: V::Choice) -> Outcome
    requires holds { V.holds value.old }
    requires running { V.finish_of value.old ≡ Finish.Running }
    requires among { IsAmong choice (V.choices_at value.old kernel) }
    ensures acts { Acts V.origin V.log V.holds kernel value.old value.new }
    ensures some { result ≢ Outcome.Nothing }
{
    match value.step(alloc, kernel, choice) {
        Ok(()) => Outcome::Happened,
        Err(NoMemory) => Outcome::Over,
    }
}

/// The burst of the kernel ends, where the value is `Running`, and then it goes on, as by `go_far`.
pub(crate) fn end_and_go_far<V: Stepped>(
    alloc: Global,
    value: &mut V,
    kernel: Kernel,
    burst: V::Burst,
) -> Act<V::Job>
    requires holds { V.holds value.old }
    requires may_end { V.may_end (V.origin value.old) burst }
    ensures acts { Acts V.origin V.log V.holds kernel value.old value.new }
    ensures may_end { BeganOf V.is_done (V.may_end (V.origin value.new)) result }
{
    if !end(alloc, value, kernel, burst) {
        return Act::Over;
    }
    go_far(alloc, value, kernel)
}

/// The burst of the kernel ends, where the value is `Running`. False where it isn't `Running` any more.
pub(crate) fn end<V: Stepped>(alloc: Global, value: &mut V, kernel: Kernel, burst: V::Burst) -> bool
    requires holds { V.holds value.old }
    requires may_end { V.may_end (V.origin value.old) burst }
    ensures { Acts V.origin V.log V.holds kernel value.old value.new }
{
    if value.finish(alloc) != Finish::Running {
        return false;
    }
    match value.end_burst(alloc, kernel, burst) {
        Ok(_) => true,
        Err(NoMemory) => false,
    }
}
