ghost use Rattle.std.specs.Prelude.{◌≡◌, ◌+◌, [], OnOk};
ghost use Rattle.kill_worth.specs.Told.{MarksOn, PutsMark, StepsOn, TakesStep, ToldOn, is_told_kept, is_told_of, kill_sent, steps_of};

use crate::keys::KillAt;
use indexmap::IndexMap;
use sprite_ids::{Kernel, NoMemory};
use std::alloc::Global;
use unix_calls::{About, Event, Rec};

/// What stands behind a place of a trace (this project).
#[derive(Drop)]
pub(crate) struct Told {
    /// How many bursts, deliveries and tries that are over each kernel has there, by its number.
    pub(crate) steps: IndexMap<u64, u64>,
    /// How many of these its home has behind the first packet that tells of a kill.
    pub(crate) marks: IndexMap<KillAt, u64>,
}

/// Nothing stands there.
pub(crate) fn nothing_told(alloc: Global) -> Told
    ensures steps { result.steps.entries ≡ [] }
    ensures marks { result.marks.entries ≡ [] }
{
    Told {
        steps: IndexMap::new(alloc),
        marks: IndexMap::new(alloc),
    }
}

// How many steps of the kernel stand there.
fn steps_of(steps: &IndexMap<u64, u64>, kernel: u64) -> u64
    ensures { result ≡ steps_of steps.now.entries kernel }
{
    match steps.get(&kernel) {
        Some(count) => *count,
        None => 0,
    }
}

/// Whether the kill is told before its home's next step, if there is one.
pub(crate) fn is_told(told: &Told, kill: &Option<KillAt>) -> bool
    ensures { result ≡ is_told_of told.now kill.now }
{
    match kill {
        Some(at) => is_told_kept(told, at),
        None => true,
    }
}

fn is_told_kept(told: &Told, at: &KillAt) -> bool
    ensures { result ≡ is_told_kept told.now at.now }
{
    match told.marks.get(at) {
        Some(count) => *count == steps_of(&told.steps, at.home),
        None => false,
    }
}

/// Puts a record before what stands there. The one error is want of memory.
pub(crate) fn put_before(told: &mut Told, rec: &Rec) -> Result<(), NoMemory>
    ensures { OnOk result (ToldOn rec.now.kernel rec.now.event told.old told.new) }
{
    keep_mark(&mut told.marks, &told.steps, rec.kernel, &rec.event)?;
    keep_step(&mut told.steps, rec.kernel, &rec.event)
}

fn keep_mark(
    marks: &mut IndexMap<KillAt, u64>,
    steps: &IndexMap<u64, u64>,
    kernel: Kernel,
    event: &Event,
) -> Result<(), NoMemory>
    ensures { OnOk result (MarksOn kernel event.now steps.now.entries marks.old.entries marks.new.entries) }
{
    match event {
        Event::Send {
            to,
            about: Some(about),
            ..
        } => put_mark(marks, steps, kill_sent(kernel, *to, about)),
        _ => Ok(()),
    }
}

/// The kill about which a packet of the kernel goes, if its call killed a process there.
pub(crate) fn kill_sent(kernel: Kernel, to: Kernel, about: &About) -> KillAt
    ensures { result ≡ kill_sent kernel to about.now }
{
    KillAt {
        home: u64::from(kernel.number()),
        to,
        pid: about.pid,
        number: about.number,
    }
}

fn put_mark(
    marks: &mut IndexMap<KillAt, u64>,
    steps: &IndexMap<u64, u64>,
    at: KillAt,
) -> Result<(), NoMemory>
    ensures { OnOk result (PutsMark at steps.now.entries marks.old.entries marks.new.entries) }
{
    let count = steps_of(steps, at.home);
    marks.insert(at, count)?;
    Ok(())
}

fn keep_step(steps: &mut IndexMap<u64, u64>, kernel: Kernel, event: &Event) -> Result<(), NoMemory>
    ensures { OnOk result (StepsOn kernel event.now steps.old.entries steps.new.entries) }
{
    match event {
        Event::Burst { .. } => take_step(steps, u64::from(kernel.number())),
        Event::Deliver { .. } => take_step(steps, u64::from(kernel.number())),
        Event::Expire { .. } => take_step(steps, u64::from(kernel.number())),
        _ => Ok(()),
    }
}

// One step more. The errors are want of memory, and that there would be 2^64, which no trace has.
fn take_step(steps: &mut IndexMap<u64, u64>, kernel: u64) -> Result<(), NoMemory>
    ensures { OnOk result (TakesStep kernel steps.old.entries steps.new.entries) }
{
    let more = steps_of(steps, kernel).checked_add(1).ok_or(NoMemory)?;
    steps.insert(kernel, more)?;
    Ok(())
}
