ghost use Rattle.std.specs.Prelude.{◌≡◌, ◌<◌, ◌≤◌, ◌^◌, OnErr, OnOk, IfOk, Some, length, slice_get};
ghost use Rattle.kernel_threads.specs.Steps.{Closes};
ghost use Rattle.kernel_threads.specs.Candidates.{drawn, candidates_at, candidates_of, Counts, Fits, IsOf};

use crate::stepped::Stepped;
use sprite_ids::{Finish, Kernel, NoMemory};
use std::alloc::Global;

/// What may happen next: a choice of a kernel, or the burst of a process of it where there is no choice.
#[derive(Clone, Copy)]
pub(crate) struct Candidate<C: Copy> {
    pub(crate) kernel: Kernel,
    pub(crate) choice: Option<C>,
}

/// Of all that may happen next the candidate at the word's place, modulo their number. They stand by ascending kernels, each kernel's
/// choices and then its burst, where a process of it can run. The one error is want of memory.
pub(crate) fn draw<V: Stepped>(
    alloc: Global,
    value: &mut V,
    kernels: u8,
    word: u32,
) -> Result<Candidate<V::Choice>, NoMemory>
    requires holds { V.holds value.old }
    requires running { V.finish_of value.old ≡ Finish.Running }
    requires few { kernels ≤ 16 }
    requires some { 0 < length (candidates_of (V.choices_at value.old) (V.has_job_at value.old) kernels) }
    ensures candidate { IfOk result (λ candidate. drawn word (candidates_of (V.choices_at value.old) (V.has_job_at value.old) kernels) ≡ Some candidate) }
    ensures fits { IfOk result (Fits (V.choices_at value.old) (V.has_job_at value.old) kernels) }
    ensures ok { OnOk result (value.new ≡ value.old) }
    ensures err { OnErr result (Closes V.origin V.log V.holds V.finish_of value.old value.new) }
{
    let (counts, count) = count(alloc, value, kernels)?;
    let place = (u128::from(word) % count) as u64;
    Ok(candidate_at(value, kernels, counts, place))
}

// How much may happen next at each kernel, and in all. The one error is want of memory.
fn count<V: Stepped>(
    alloc: Global,
    value: &mut V,
    kernels: u8,
) -> Result<([u128; 16], u128), NoMemory>
    requires holds { V.holds value.old }
    requires running { V.finish_of value.old ≡ Finish.Running }
    requires few { kernels ≤ 16 }
    ensures counts { IfOk result (λ counted. Counts (V.choices_at value.old) (V.has_job_at value.old) kernels counted.0) }
    ensures count { IfOk result (λ counted. counted.1 ≡ length (candidates_of (V.choices_at value.old) (V.has_job_at value.old) kernels)) }
    ensures ok { OnOk result (value.new ≡ value.old) }
    ensures err { OnErr result (Closes V.origin V.log V.holds V.finish_of value.old value.new) }
{
    let mut counts = [0; 16];
    let mut all = 0;
    for before in 0..kernels {
        let count = count_at(alloc, value, before + 1)?;
        counts[before as usize] = count;
        all += count;
    }
    Ok((counts, all))
}

// How much may happen next at the kernel of that number. The one error is want of memory.
fn count_at<V: Stepped>(alloc: Global, value: &mut V, number: u8) -> Result<u128, NoMemory>
    requires holds { V.holds value.old }
    requires running { V.finish_of value.old ≡ Finish.Running }
    requires range { (1 ≤ number) × (number ≤ 16) }
    ensures count { IfOk result (λ count. count ≡ length (candidates_at number (V.choices_at value.old number) (V.has_job_at value.old number))) }
    ensures bound { IfOk result (λ count. count ≤ 2 ^ 64) }
    ensures ok { OnOk result (value.new ≡ value.old) }
    ensures err { OnErr result (Closes V.origin V.log V.holds V.finish_of value.old value.new) }
{
    let Some(kernel) = Kernel::new(number) else {
        unreachable!()
    };
    let choices = u128::from(value.choice_count(kernel));
    if value.has_job(alloc, kernel)? {
        Ok(choices + 1)
    } else {
        Ok(choices)
    }
}

// What may happen next at that place, where so much may at each kernel.
fn candidate_at<V: Stepped>(
    value: &V,
    kernels: u8,
    counts: [u128; 16],
    place: u64,
) -> Candidate<V::Choice>
    requires holds { V.holds value.now }
    requires few { kernels ≤ 16 }
    requires counts { Counts (V.choices_at value.now) (V.has_job_at value.now) kernels counts }
    requires there { place < length (candidates_of (V.choices_at value.now) (V.has_job_at value.now) kernels) }
    ensures candidate { slice_get (candidates_of (V.choices_at value.now) (V.has_job_at value.now) kernels) place ≡ Some result }
    ensures fits { Fits (V.choices_at value.now) (V.has_job_at value.now) kernels result }
{
    let mut left = place;
    for before in 0..kernels {
        let count = counts[before as usize];
        if u128::from(left) < count {
            return candidate_of(value, before + 1, left);
        }
        left -= count as u64;
    }
    unreachable!()
}

// What may happen next at the kernel of that number, at that place.
fn candidate_of<V: Stepped>(value: &V, number: u8, place: u64) -> Candidate<V::Choice>
    requires holds { V.holds value.now }
    requires range { (1 ≤ number) × (number ≤ 16) }
    requires there { place < length (candidates_at number (V.choices_at value.now number) (V.has_job_at value.now number)) }
    ensures candidate { slice_get (candidates_at number (V.choices_at value.now number) (V.has_job_at value.now number)) place ≡ Some result }
    ensures kernel { result.kernel ≡ number }
    ensures fits { IsOf (V.choices_at value.now number) (V.has_job_at value.now number) result.choice }
{
    let Some(kernel) = Kernel::new(number) else {
        unreachable!()
    };
    let choice = value.choice(kernel, place);
    Candidate { kernel, choice }
}
