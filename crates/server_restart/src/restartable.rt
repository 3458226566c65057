ghost use Rattle.std.specs.Prelude.{◌≡◌, ◌≤◌, ◌++◌, ◌∷◌, [], ℕ, List, length, take, slice_get, Some, None, IfOk, OnOk, OnErr, true};
ghost use Rattle.file_views.specs.Setting.{sprite_setting};
ghost use Rattle.file_views.specs.Views.{new_view};
ghost use Rattle.restart_views.specs.RunBytes.{due};
ghost use Rattle.restart_views.specs.RunLaw.{is_coherent, bytes_run, stays_right};
ghost use Rattle.file_views.specs.Sound.{Sound};
ghost use Rattle.restart_views.specs.ServerMoves.{bare};
ghost use Rattle.restart_views.specs.declared.RestartStep.TheVariants.{Settle};
ghost use Rattle.restart_views.specs.Restarts.{is_unclaimed, claims_at, after_stop, after_claim, told_claim, heard, settled_in, told_in, most_due, least_due, restarted, told, all_restarted, all_told};
ghost use Rattle.server_restart.specs.Parts.{StepInPart, RestartedInPart};

use crate::claiming::{claims_at, is_refused, place, stays_uncached, tried};
use crate::keeping::keep_all;
use crate::lists::put_at;
use crate::stepping::{do_file, least_due};
use file_coherence::new_view;
use file_views::{FileStep, View};
use restart_views::{Kept, Outcome, RestartStep, Restarted};
use sprite_ids::{Bytes, Copying, Items, Kernel, NoMemory};
use std::alloc::Global;
use std::marker::Model;

/// One file whose server may stop and come back (this project). Contracts see it as what the server and the clients keep of it, and
/// what each client that hasn't told the server yet keeps by itself.
#[derive(Debug, Drop)]
pub struct Restartable {
    state: Restarted,
}

impl Model for Restartable {
    ghost use Rattle.restart_views.specs.declared.Restarted.{Restarted};
    ghost use Rattle.restart_views.specs.RunLaw.{Runs};
    ghost use Rattle.settling_laws.specs.Settling.{Owing};

    ghost Value = { Restarted };

    ghost view = { λ file. file.state };

    ghost invariant = { λ file. Runs file.state × Owing file.state.view };
}

impl Restartable {
    /// A file that nobody has opened, at version 1 with these first bytes, in a cluster of so many clients, 1 to 15. It has at most
    /// 262,144 bytes. The one error is want of memory.
    pub fn new(alloc: Global, kernels: u8, bytes: Bytes) -> Result<Restartable, NoMemory>
        requires clients { (1 ≤ kernels) × (kernels ≤ 15) }
        requires size { length bytes ≤ 262144 }
        ensures state { IfOk result (λ file. file ≡ record { view = new_view kernels bytes; kept = [] }) }
        ensures bytes { IfOk result (λ file. due sprite_setting file ≡ bytes) }
    {
        let view = new_view(alloc, usize::from(kernels), bytes)?;
        let kept = Items::new(alloc);
        Ok(Restartable {
            state: Restarted { view, kept },
        })
    }

    /// The file as it stands, where each client that hasn't told the server what it has is taken as one that knows nothing of it.
    pub fn view(&self) -> &View
        ensures view { result.now ≡ self.now.view }
        ensures sound { Sound sprite_setting self.now.view }
    {
        &self.state.view
    }

    /// Plays the steps, one after another; one that isn't possible changes nothing. The answer is what came of them, in order.
    ///
    /// - At a stop the server's bytes and version stay, and all else that it knows of the file is gone, with all calls on it. Each
    ///   client keeps its installed streams, its dirty blocks, its size and its version, and where its answer to a callback hadn't
    ///   come, the blocks of that. Until it tells the server of them it does no step of the file.
    /// - A claim is refused exactly where the kernel has dirty blocks and its version isn't the server's: they are gone, with its
    ///   streams. Any other is granted: the server stores the blocks, and the kernel is told to use no cache and has its streams open
    ///   again. A claim of a kernel that has nothing to tell does nothing.
    /// - From a stop on the file is uncached, until all have told and none has it open. An open that is granted before all have told
    ///   raises the version by one, also where it is for reading.
    /// - A settling brings the least unfinished call whose request or reply can come, as long as there is one: it ends, and then
    ///   nothing can come. No stream moves, and none is opened with the name of one that a client keeps.
    ///
    /// The bytes of the file are the old ones as the writings, the appends that fit and the opens with truncation changed them, in
    /// order; a stop and a claim leave them, and where an open is granted while a client keeps dirty blocks by itself, they become the
    /// server's first. Before and after each step the file is coherent with them, or, while a client keeps dirty blocks by itself, with
    /// the server's bytes. Each reading has the bytes of its moment. Nothing is promised of bytes and a version that don't survive a
    /// stop. After want of memory, the one error, some first ones of the steps are done, a settling perhaps in part.
    pub fn play(&mut self, alloc: Global, steps: &[RestartStep]) -> Result<Items<Outcome>, NoMemory>
        ensures state { OnOk result (self.new ≡ all_restarted sprite_setting self.old steps.now) }
        ensures told { IfOk result (λ outcomes. outcomes ≡ all_told sprite_setting self.old steps.now) }
        ensures part { RestartedInPart sprite_setting self.old self.new steps.now }
        ensures bytes { OnOk result (due sprite_setting self.new ≡ bytes_run sprite_setting self.old (due sprite_setting self.old) steps.now) }
        ensures coherent { is_coherent sprite_setting self.new (due sprite_setting self.new) ≡ true }
        ensures settled { (first : List RestartStep) → steps.now ≡ first ++ Settle ∷ [] → OnOk result (least_due self.new.view ≡ None) }
        ensures whole { OnOk result (stays_right sprite_setting self.old (due sprite_setting self.old) steps.now ≡ true) }
    {
        play_all(alloc, &mut self.state, steps)
    }
}

#[tactic(auto, using(crate::proofs::PlayLaws::all_done, crate::proofs::PlayLaws::part_done))]
fn play_all(
    alloc: Global,
    state: &mut Restarted,
    steps: &[RestartStep],
) -> Result<Items<Outcome>, NoMemory>
    ensures state { OnOk result (state.new ≡ all_restarted sprite_setting state.old steps.now) }
    ensures told { IfOk result (λ outcomes. outcomes ≡ all_told sprite_setting state.old steps.now) }
    ensures part { RestartedInPart sprite_setting state.old state.new steps.now }
{
    let mut outcomes = Items::new(alloc);
    for step in steps {
        play_one(alloc, state, step, &mut outcomes)?;
    }
    Ok(outcomes)
}

// Plays one step. After want of memory the state is as before, or, of a settling, as after some of its deliveries.
#[tactic(auto, using(crate::proofs::PlayLaws::part_of))]
fn play_one(
    alloc: Global,
    state: &mut Restarted,
    step: &RestartStep,
    outcomes: &mut Items<Outcome>,
) -> Result<(), NoMemory>
    ensures ok { OnOk result (state.new ≡ restarted sprite_setting state.old step.now) }
    ensures told { OnOk result (outcomes.new ≡ outcomes.old ++ told sprite_setting state.old step.now) }
    ensures err { OnErr result (StepInPart sprite_setting state.old state.new step.now) }
{
    match step {
        RestartStep::File { step } => do_file(alloc, state, step, outcomes),
        RestartStep::Stop => stop(alloc, state),
        RestartStep::Claim { kernel } => claim(alloc, state, *kernel, outcomes),
        RestartStep::Settle => settle(alloc, state, outcomes),
    }
}

// The server stops and comes back.
fn stop(alloc: Global, state: &mut Restarted) -> Result<(), NoMemory>
    ensures ok { OnOk result (state.new ≡ after_stop sprite_setting state.old) }
    ensures err { OnErr result (state.new ≡ state.old) }
{
    let kept = keep_all(alloc, &state.view, state.kept.as_slice())?;
    let view = bare_view(alloc, &state.view)?;
    state.kept = kept;
    state.view = view;
    Ok(())
}

// What a stop leaves of the view.
fn bare_view(alloc: Global, view: &View) -> Result<View, NoMemory>
    ensures { IfOk result (λ next. next ≡ bare (length view.now.clients) view.now.bytes view.now.version view.now.next) }
{
    let bytes = view.bytes.copy(alloc)?;
    let mut next = new_view(alloc, view.clients.len(), bytes)?;
    next.version = view.version;
    next.next = view.next;
    next.uncached = true;
    Ok(next)
}

// A kernel tells what it kept.
fn claim(
    alloc: Global,
    state: &mut Restarted,
    kernel: Kernel,
    outcomes: &mut Items<Outcome>,
) -> Result<(), NoMemory>
    ensures ok { OnOk result (state.new ≡ after_claim sprite_setting state.old kernel (claims_at state.old.kept kernel)) }
    ensures told { OnOk result (outcomes.new ≡ outcomes.old ++ told_claim state.old.view kernel (claims_at state.old.kept kernel)) }
    ensures err { OnErr result (state.new ≡ state.old) }
{
    let Some(next) = heard(alloc, state, kernel, outcomes)? else {
        return Ok(());
    };
    put_at(&mut state.kept, place(kernel), None);
    state.view = next;
    if !stays_uncached(&state.view, state.kept.as_slice()) {
        state.view.uncached = false;
    }
    Ok(())
}

// The view after the claim of a kernel that has something to tell, before the file may be cached again.
fn heard(
    alloc: Global,
    state: &Restarted,
    kernel: Kernel,
    outcomes: &mut Items<Outcome>,
) -> Result<Option<View>, NoMemory>
    ensures view { IfOk result (λ next. next ≡ heard sprite_setting state.now.view kernel (claims_at state.now.kept kernel)) }
    ensures told { OnOk result (outcomes.new ≡ outcomes.old ++ told_claim state.now.view kernel (claims_at state.now.kept kernel)) }
{
    let Some(kept) = claims_at(state.kept.as_slice(), kernel) else {
        return Ok(None);
    };
    let next = tried(alloc, &state.view, kernel, kept)?;
    outcomes.push(outcome_of(&state.view, kernel, kept))?;
    Ok(Some(next))
}

fn outcome_of(view: &View, kernel: Kernel, kept: &Kept) -> Outcome
    ensures { result ∷ [] ≡ told_claim view.now kernel (Some kept.now) }
{
    if is_refused(view, kept) {
        Outcome::Refused {
            kernel,
            own: kept.version,
            server: view.version,
        }
    } else {
        Outcome::Granted {
            kernel,
            version: view.version,
        }
    }
}

// What can come comes, the least call first.
#[tactic(auto, using(crate::proofs::PlayLaws::ends_settled, crate::proofs::PlayLaws::ends_noted, crate::proofs::PlayLaws::some_settled))]
fn settle(
    alloc: Global,
    state: &mut Restarted,
    outcomes: &mut Items<Outcome>,
) -> Result<(), NoMemory>
    ensures ok { OnOk result (state.new ≡ settled_in sprite_setting most_due state.old) }
    ensures told { OnOk result (outcomes.new ≡ outcomes.old ++ told_in sprite_setting most_due state.old) }
    ensures err { OnErr result (StepInPart sprite_setting state.old state.new Settle) }
{
    for _done in 0..u64::MAX {
        let Some(call) = least_due(&state.view) else {
            return Ok(());
        };
        let step = FileStep::Delivering { call };
        do_file(alloc, state, &step, outcomes)?;
    }
    Ok(())
}
