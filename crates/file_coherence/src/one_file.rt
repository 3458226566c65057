ghost use Rattle.std.specs.Prelude.{◌≡◌, ◌≤◌, ◌++◌, ◌+◌, ℕ, List, true, length, IfOk, OnOk, OnErr};
ghost use Rattle.file_views.specs.Setting.{sprite_setting};
ghost use Rattle.file_views.specs.Views.{new_view};
ghost use Rattle.file_views.specs.Possible.{possible, stepped, played};
ghost use Rattle.file_views.specs.Entries.{entered, bytes_after_all, are_right};
ghost use Rattle.file_views.specs.Settled.{stands_for};
ghost use Rattle.file_views.specs.Coherent.{coherent};
ghost use Rattle.file_views.specs.Plays.{stays_coherent};
ghost use Rattle.file_views.specs.Sound.{Sound};
ghost use Rattle.file_coherence.specs.Runs.{all_entered, next_view, DoneInPart};

use crate::clients::new_client;
use crate::limits::Limits;
use crate::possible::is_possible;
use crate::steps::do_step;
use file_views::{Entered, FileStep, View};
use sprite_ids::{Bytes, CacheMode, Copying, Items, NoMemory};
use std::alloc::Global;
use std::marker::Model;

/// One file over all kernels and all calls on it that aren't finished (this project). Contracts see it as its view, which is
/// sound: so it is coherent, whatever steps were played.
#[derive(Debug, Drop)]
pub struct OneFile {
    view: View,
}

impl Model for OneFile {
    ghost use Rattle.file_views.specs.declared.View.{View};
    ghost use Rattle.file_views.specs.Setting.{sprite_setting};
    ghost use Rattle.file_views.specs.Sound.{Sound};

    ghost Value = { View };

    ghost view = { λ file. file.view };

    ghost invariant = { λ file. Sound sprite_setting file.view };
}

impl OneFile {
    /// A file that nobody has opened, with these first bytes, in a cluster of so many clients, 1 to 15. It has at most 262,144
    /// bytes. The one error is want of memory.
    pub fn new(alloc: Global, kernels: u8, bytes: Bytes) -> Result<OneFile, NoMemory>
        requires clients { (1 ≤ kernels) × (kernels ≤ 15) }
        requires size { length bytes ≤ 262144 }
        ensures view { IfOk result (λ file. file ≡ new_view kernels bytes) }
        ensures bytes { IfOk result (λ file. stands_for sprite_setting file ≡ bytes) }
    {
        let view = new_view(alloc, usize::from(kernels), bytes)?;
        Ok(OneFile { view })
    }

    /// The file as it stands.
    pub fn view(&self) -> &View
        ensures view { result.now ≡ self.now }
        ensures sound { Sound sprite_setting self.now }
    {
        &self.view
    }

    /// The file as it stands. It takes no memory.
    pub fn into_view(self) -> View
        ensures view { result ≡ self }
        ensures sound { Sound sprite_setting result }
    {
        self.view
    }

    /// The file of a sound view. It takes no memory.
    pub fn of_view(view: View) -> OneFile
        requires { Sound sprite_setting view }
        ensures { result ≡ view }
    {
        OneFile { view }
    }

    /// Plays the steps, one after another: one that is possible is done, and any other changes nothing. The answer is what took
    /// effect in them, in order: readings, writings, appends and opens, each where it did and with its reply.
    ///
    /// The bytes that the file stands for are the old ones as the writings, the appends that fit and the opens with truncation
    /// changed them in that order, each reading has the bytes of its moment, and an append is refused exactly where it would
    /// pass the limit. The file is coherent before and after each step. While a callback that is out before a step is out after it
    /// too, nothing takes effect at the server in it: no operation is done there, and no open is granted. After want of memory,
    /// the one error, some first ones of the steps are done, and the file is coherent too. One file has no paths and no
    /// descriptors, so none are told.
    pub fn play(&mut self, alloc: Global, steps: &[FileStep]) -> Result<Items<Entered>, NoMemory>
        ensures view { OnOk result (self.new ≡ played sprite_setting self.old steps.now) }
        ensures entered { IfOk result (λ noted. noted ≡ all_entered sprite_setting self.old steps.now) }
        ensures part { DoneInPart sprite_setting self.old self.new steps.now }
        ensures sound { Sound sprite_setting self.new }
        ensures coherent { coherent sprite_setting self.new (stands_for sprite_setting self.new) ≡ true }
        ensures bytes { IfOk result (λ noted. stands_for sprite_setting self.new ≡ bytes_after_all sprite_setting (stands_for sprite_setting self.old) noted) }
        ensures right { IfOk result (λ noted. are_right sprite_setting (stands_for sprite_setting self.old) noted ≡ true) }
        ensures whole { OnOk result (stays_coherent sprite_setting self.old (stands_for sprite_setting self.old) steps.now ≡ true) }
    {
        play_all(alloc, &mut self.view, steps)
    }
}

/// Plays one step on a view, sound or not, in a cluster whose clients may cache the file, or may not: a step that is possible is done,
/// and any other changes nothing. What took effect is added to `noted`. The one error is want of memory, and then the view is as
/// before.
pub fn play_step(
    alloc: Global,
    cached: bool,
    view: &mut View,
    step: &FileStep,
    noted: &mut Items<Entered>,
) -> Result<(), NoMemory>
    ensures ok { OnOk result (view.new ≡ stepped (record sprite_setting { cached = cached }) view.old step.now) }
    ensures err { OnErr result (view.new ≡ view.old) }
    ensures entered { OnOk result (noted.new ≡ noted.old ++ entered (record sprite_setting { cached = cached }) view.old step.now) }
{
    let limits = Limits::caching(cached);
    play_one(alloc, &limits, view, step, noted)
}

// Plays the steps.
fn play_all(alloc: Global, view: &mut View, steps: &[FileStep]) -> Result<Items<Entered>, NoMemory>
    ensures view { OnOk result (view.new ≡ played sprite_setting view.old steps.now) }
    ensures entered { IfOk result (λ noted. noted ≡ all_entered sprite_setting view.old steps.now) }
    ensures part { DoneInPart sprite_setting view.old view.new steps.now }
{
    let limits = Limits::sprite();
    let mut noted = Items::new(alloc);
    for step in steps {
        play_one(alloc, &limits, view, step, &mut noted)?;
    }
    Ok(noted)
}

// Plays one step. After want of memory the view is as before.
fn play_one(
    alloc: Global,
    limits: &Limits,
    view: &mut View,
    step: &FileStep,
    noted: &mut Items<Entered>,
) -> Result<(), NoMemory>
    ensures ok { OnOk result (view.new ≡ stepped limits.now view.old step.now) }
    ensures err { OnErr result (view.new ≡ view.old) }
    ensures entered { OnOk result (noted.new ≡ noted.old ++ entered limits.now view.old step.now) }
{
    if let Some(next) = next_view(alloc, limits, view, step, noted)? {
        *view = next;
    }
    Ok(())
}

// The view after a step that is possible: it is done on a copy.
fn next_view(
    alloc: Global,
    limits: &Limits,
    view: &View,
    step: &FileStep,
    noted: &mut Items<Entered>,
) -> Result<Option<View>, NoMemory>
    ensures view { IfOk result (λ next. next ≡ next_view limits.now view.now step.now) }
    ensures entered { OnOk result (noted.new ≡ noted.old ++ entered limits.now view.now step.now) }
{
    if !is_possible(alloc, limits, view, step)? {
        return Ok(None);
    }
    let mut next = view.copy(alloc)?;
    do_step(alloc, limits, &mut next, step, noted)?;
    Ok(Some(next))
}

/// A view of a file that nobody has opened, with these first bytes, in a cluster of so many clients. The one error is want of memory.
pub fn new_view(alloc: Global, kernels: usize, bytes: Bytes) -> Result<View, NoMemory>
    ensures { IfOk result (λ view. view ≡ new_view kernels bytes) }
{
    let mut view = empty_view(alloc, bytes);
    for _done in 0..kernels {
        add_client(alloc, &mut view)?;
    }
    Ok(view)
}

fn empty_view(alloc: Global, bytes: Bytes) -> View
    ensures { result ≡ new_view 0 bytes }
{
    View {
        bytes,
        version: 1,
        holder: None,
        uncached: false,
        opens: Items::new(alloc),
        shared: Items::new(alloc),
        stamps: Items::new(alloc),
        modes: Items::new(alloc),
        given: Items::new(alloc),
        next: 1,
        clients: Items::new(alloc),
        calls: Items::new(alloc),
        carried: Items::new(alloc),
    }
}

// One more client, which knows nothing of the file.
fn add_client(alloc: Global, view: &mut View) -> Result<(), NoMemory>
    ensures { (count : ℕ) (bytes : List ℕ) → view.old ≡ new_view count bytes → OnOk result (view.new ≡ new_view (count + 1) bytes) }
{
    view.stamps.append(&[0])?;
    view.modes.append(&[CacheMode::None])?;
    view.given.append(&[None])?;
    view.clients.push(new_client(alloc))
}
