ghost use Rattle.std.specs.Prelude.{◌≡◌};
ghost use Rattle.link_plan.specs.Counts.{is_fault};
ghost use Rattle.link_plan.specs.Fates.{is_end, is_turn, meets, fate_in};

use crate::plan::{Fate, PlanEntry};
use sprite_ids::Kernel;

// Whether the end of an entry is that kernel.
fn is_end(end: Option<Kernel>, kernel: Kernel) -> bool
    ensures { result ≡ is_end end kernel }
{
    match end {
        None => true,
        Some(end) => end == kernel,
    }
}

// Whether the number is one of those that the entry names.
fn is_turn(entry: &PlanEntry, number: u64) -> bool
    ensures { result ≡ is_turn entry.now number }
{
    let first = u64::from(entry.first);
    let every = u64::from(entry.every);
    1 <= every
        && first <= number
        && (number - first) % every == 0
        && (number - first) / every < u64::from(entry.count)
}

// Whether the packet of that number from one kernel to another meets the entry.
fn meets(entry: &PlanEntry, from: Kernel, to: Kernel, number: u64) -> bool
    ensures { result ≡ meets from to number entry.now }
{
    is_end(entry.from, from) && is_end(entry.to, to) && is_turn(entry, number)
}

// The fate of the packet of that number from one kernel to another.
pub(crate) fn fate_in(entries: &[PlanEntry], from: Kernel, to: Kernel, number: u64) -> Fate
    ensures { result ≡ fate_in entries.now from to number }
{
    for entry in entries {
        if meets(entry, from, to, number) {
            return entry.fate;
        }
    }
    Fate::Once
}

// Whether a packet of that fate met a fault.
pub(crate) fn is_fault(fate: Fate) -> bool
    ensures { result ≡ is_fault fate }
{
    match fate {
        Fate::Once => false,
        Fate::Lost | Fate::Twice | Fate::Late => true,
    }
}
