ghost use Rattle.std.specs.Prelude.{◌≡◌, ◌≤◌, IfOk, Some};
ghost use Rattle.process_machine.specs.Runs.{call_bound};
ghost use Rattle.call_journal.specs.WorthBursts.{distance_of, distance_within};
ghost use Rattle.trace_bursts.specs.Doing.{burst_behind, fresh, is_met, issue_behind, issued_with, meets, reach_of};

use crate::going::{Went, go_on};
use process_machine::{Image, Program};
use sprite_ids::{Copying, NoMemory};
use std::alloc::Global;
use unix_calls::{Description, Process};
use unix_world::program_at;

/// Where a process's bursts stood when it issued its next call (this project).
#[derive(Clone, Copy, Debug, PartialEq, Eq)]
pub(crate) enum Issued {
    /// It didn't.
    Never,
    /// Behind so many instructions.
    At(u64),
    /// Behind different numbers of them.
    Apart,
}

/// What a process's bursts did since its last entry (this project). Whether that is as much as there is before its next call is told at
/// the entry of this call.
#[derive(Clone, Copy, Debug, PartialEq, Eq)]
pub(crate) struct Doing {
    /// How many instructions.
    pub(crate) done: u64,
    /// The same behind the last burst of the process while the one kernel had it.
    pub(crate) most: u64,
    pub(crate) issued: Issued,
}

impl Doing {
    /// Nothing.
    pub(crate) fn new() -> Doing
        ensures { result ≡ fresh }
    {
        Doing {
            done: 0,
            most: 0,
            issued: Issued::Never,
        }
    }

    /// With a burst of so many instructions more, of a process that the one kernel has or hasn't. The one error is that they would be
    /// 2^64 or more.
    pub(crate) fn burst(self, is_there: bool, count: u64) -> Result<Doing, NoMemory>
        ensures { IfOk result (λ later. later ≡ burst_behind is_there count self) }
    {
        let done = self.done.checked_add(count).ok_or(NoMemory)?;
        let most = if is_there { done } else { self.most };
        Ok(Doing {
            done,
            most,
            issued: self.issued,
        })
    }

    /// With a call that is issued, of a process that the one kernel has or hasn't.
    pub(crate) fn issue(self, is_there: bool) -> Doing
        ensures { result ≡ issue_behind is_there self }
    {
        let issued = if is_there {
            issued_with(self.done, self.issued)
        } else {
            self.issued
        };
        Doing {
            done: self.done,
            most: self.most,
            issued,
        }
    }

    /// Whether the bursts did no more than the instructions before the call, and exactly these where it was issued.
    pub(crate) fn is_met(self, way: u64) -> bool
        ensures { result ≡ is_met self (Some way) }
    {
        self.most <= way && meets(self.issued, way)
    }

    /// The same of a process that stands where its last entry left it. The one error is want of memory.
    pub(crate) fn is_met_by(
        self,
        alloc: Global,
        c: &Description,
        p: &Process,
    ) -> Result<bool, NoMemory>
        ensures { IfOk result (λ met. met ≡ is_met self (distance_of c.now p.now)) }
    {
        let Some(program) = program_at(c.programs.as_slice(), p.image.program_number()) else {
            return Ok(true);
        };
        let mut image = p.image.copy(alloc)?;
        Ok(self.is_met_on(program, &mut image, call_bound()))
    }

    // The same of a process with that image, where a call may come within `left`.
    fn is_met_on(self, program: &Program, image: &mut Image, left: u64) -> bool
        requires { left ≤ 40000000000 }
        ensures { result ≡ is_met self (distance_within program.now left image.old) }
    {
        match go_on(program, image, left, self.reach(left)) {
            Went::Called(way) => self.is_met(way),
            Went::On(_) => true,
            Went::Never => true,
        }
    }

    // How many instructions tell whether they are met: no call comes behind `left`.
    fn reach(self, left: u64) -> u64
        requires { left ≤ 40000000000 }
        ensures { result ≡ reach_of left self }
    {
        match self.issued {
            Issued::Never => self.most,
            Issued::At(_) | Issued::Apart => left + 1,
        }
    }
}

// No call is looked for behind so many instructions.
#[tactic(auto, unfolding(process_machine::specs::Runs::call_bound))]
fn call_bound() -> u64
    ensures bound { result ≡ call_bound }
    ensures few { result ≤ 40000000000 }
{
    40_000_000_000
}

// A call is issued behind so many instructions.
fn issued_with(done: u64, issued: Issued) -> Issued
    ensures { result ≡ issued_with done issued }
{
    match issued {
        Issued::Never => Issued::At(done),
        Issued::At(before) => if before == done {
            Issued::At(before)
        } else {
            Issued::Apart
        },
        Issued::Apart => Issued::Apart,
    }
}

// Whether the call that was issued comes behind so many instructions.
fn meets(issued: Issued, way: u64) -> bool
    ensures { result ≡ meets issued (Some way) }
{
    match issued {
        Issued::Never => true,
        Issued::At(done) => done == way,
        Issued::Apart => false,
    }
}
