ghost use Rattle.std.specs.Prelude.{◌≡◌, ◌+◌, ◌++◌, ℕ, IfOk, OnOk, OnErr, map, [], min, Some};
ghost use Rattle.file_views.specs.Setting.{sprite_setting};
ghost use Rattle.file_views.specs.Entries.{entered};
ghost use Rattle.restart_views.specs.ColdSteps.{uncached_setting, is_read_open, read_opens, cold_step};
ghost use Rattle.file_views.specs.Possible.{stepped};
ghost use Rattle.restart_views.specs.Restarts.{file_stepped, file_entered, after_file, told_file, is_ready, least_of, least_ready, least_due, after_due, told_due};
ghost use Rattle.restart_views.specs.declared.Outcome.TheVariants.{Event};
ghost use Rattle.file_views.specs.declared.FileCall.{FileCall};

use crate::barring::is_barred;
use crate::claiming::is_unclaimed;
use file_coherence::{has_room, play_step};
use file_views::{Entered, FileCall, FileStep, View};
use restart_views::{Outcome, Restarted};
use sprite_ids::{Copying, Items, Mode, NoMemory};
use std::alloc::Global;

// Whether it is an open of a stream that doesn't write.
fn is_read_open(step: &FileStep) -> bool
    ensures { result ≡ is_read_open step.now }
{
    match step {
        FileStep::Opening { mode, .. } => *mode == Mode::Read,
        _ => false,
    }
}

// How many such opens are among what took effect.
fn read_opens(noted: &[Entered]) -> Result<u32, NoMemory>
    ensures { IfOk result (λ count. count ≡ read_opens noted.now) }
{
    let [one, rest @ ..] = noted else {
        return Ok(0);
    };
    let count = read_opens(rest)?;
    if is_read_open(&one.step) {
        count.checked_add(1).ok_or(NoMemory)
    } else {
        Ok(count)
    }
}

// A step while no client may cache the file: each open that is granted raises the version.
fn cold_step(alloc: Global, view: &mut View, step: &FileStep) -> Result<Items<Entered>, NoMemory>
    ensures view { OnOk result (view.new ≡ cold_step sprite_setting view.old step.now) }
    ensures entered { IfOk result (λ noted. noted ≡ entered (uncached_setting sprite_setting) view.old step.now) }
{
    let mut noted = Items::new(alloc);
    play_step(alloc, false, view, step, &mut noted)?;
    let count = read_opens(noted.as_slice())?;
    view.version = view.version.checked_add(count).ok_or(NoMemory)?;
    view.uncached = true;
    Ok(noted)
}

fn warm_step(alloc: Global, view: &mut View, step: &FileStep) -> Result<Items<Entered>, NoMemory>
    ensures view { OnOk result (view.new ≡ stepped sprite_setting view.old step.now) }
    ensures entered { IfOk result (λ noted. noted ≡ entered sprite_setting view.old step.now) }
{
    let mut noted = Items::new(alloc);
    play_step(alloc, true, view, step, &mut noted)?;
    Ok(noted)
}

// Each thing that took effect is told.
fn tell_all(outcomes: &mut Items<Outcome>, noted: Vec<Entered>) -> Result<(), NoMemory>
    ensures { OnOk result (outcomes.new ≡ outcomes.old ++ map Event noted.items) }
{
    for entered in noted {
        outcomes.push(Outcome::Event { entered })?;
    }
    Ok(())
}

// The view after a step of the file, which is done on a copy.
fn next_view(
    alloc: Global,
    state: &Restarted,
    step: &FileStep,
    outcomes: &mut Items<Outcome>,
) -> Result<View, NoMemory>
    ensures view { IfOk result (λ next. next ≡ file_stepped sprite_setting state.now step.now) }
    ensures told { OnOk result (outcomes.new ≡ outcomes.old ++ map Event (file_entered sprite_setting state.now step.now)) }
{
    let mut next = state.view.copy(alloc)?;
    let noted = if is_unclaimed(state.kept.as_slice()) {
        cold_step(alloc, &mut next, step)?
    } else {
        warm_step(alloc, &mut next, step)?
    };
    tell_all(outcomes, noted.into_vec())?;
    Ok(next)
}

// A step of the file. After want of memory the state is as before.
pub(crate) fn do_file(
    alloc: Global,
    state: &mut Restarted,
    step: &FileStep,
    outcomes: &mut Items<Outcome>,
) -> Result<(), NoMemory>
    ensures ok { OnOk result (state.new ≡ after_file sprite_setting state.old step.now) }
    ensures told { OnOk result (outcomes.new ≡ outcomes.old ++ told_file sprite_setting state.old step.now) }
    ensures err { OnErr result (state.new ≡ state.old) }
{
    if is_barred(state.kept.as_slice(), step) {
        return Ok(());
    }
    let next = next_view(alloc, state, step, outcomes)?;
    state.view = next;
    Ok(())
}

// Whether the call's request or reply can come.
fn is_ready(one: &FileCall) -> bool
    ensures { result ≡ is_ready one.now }
{
    !one.taken || one.reply.is_some()
}

fn least_of(number: u32, other: Option<u32>) -> Option<u32>
    ensures { result ≡ least_of number other }
{
    match other {
        Some(other) => Some(number.min(other)),
        None => Some(number),
    }
}

fn least_ready(calls: &[FileCall]) -> Option<u32>
    ensures { result ≡ least_ready calls.now }
{
    let [one, rest @ ..] = calls else {
        return None;
    };
    let least = least_ready(rest);
    if is_ready(one) {
        least_of(one.number, least)
    } else {
        least
    }
}

// The least unfinished call whose request or reply can come.
pub(crate) fn least_due(view: &View) -> Option<u32>
    ensures { result ≡ least_due view.now }
{
    if has_room(view) {
        least_ready(view.calls.as_slice())
    } else {
        None
    }
}
