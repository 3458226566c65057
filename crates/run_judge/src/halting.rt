ghost use Rattle.std.specs.Prelude.{◌≡◌, ◌≤◌, IfOk, Some};
ghost use Rattle.unix_calls.specs.After.{blocked, waits_in};
ghost use Rattle.unix_world.specs.Worlds.{unix_of};
ghost use Rattle.one_kernel.specs.Ways.{way};
ghost use Rattle.run_judge.specs.Halts.{halt_by, halt_of, rests_if, way_to};

use crate::asking::asks_in_vain;
use crate::waiting::waits_by;
use one_kernel::{Reach, go_to_call};
use process_machine::{Program, call_of};
use sprite_ids::{Copying, NoMemory};
use std::alloc::Global;
use unix_calls::{Description, Process};
use unix_world::{World, program_at};

/// How a process stands in a run that has come to its end.
#[derive(Clone, Copy, Debug, PartialEq, Eq)]
pub(crate) enum Halt {
    /// It has ended, or is blocked; it does so many instructions up to its next call.
    Rests(u64),
    /// It lives and isn't blocked.
    Free,
    /// It lives, and its way to its next call is longer than it may be.
    Far,
}

/// How one of the processes stands, whose way to its next call may take at most `left` instructions.
pub(crate) fn halt_of(
    alloc: Global,
    c: &Description,
    world: &World,
    ps: &[Process],
    p: &Process,
    left: u64,
) -> Result<Halt, NoMemory>
    requires bound { left ≤ 40000000000 }
    ensures { IfOk result (λ halt. halt ≡ halt_of c.now left (unix_of c.now world.now ps.now) p.now) }
{
    if p.ending.is_some() {
        return Ok(Halt::Rests(0));
    }
    halt_living(alloc, c, world, ps, p, left)
}

// Of a process that lives.
fn halt_living(
    alloc: Global,
    c: &Description,
    world: &World,
    ps: &[Process],
    p: &Process,
    left: u64,
) -> Result<Halt, NoMemory>
    requires bound { left ≤ 40000000000 }
    ensures { IfOk result (λ halt. halt ≡ halt_by left (way_to c.now p.now) (blocked c.now (unix_of c.now world.now ps.now) p.now)) }
{
    if let Some(place) = p.asking {
        return Ok(rests_if(asks_in_vain(world, ps, p.pid, place), 0));
    }
    if p.killed {
        return Ok(Halt::Free);
    }
    match program_at(c.programs.as_slice(), p.image.program_number()) {
        None => Ok(Halt::Free),
        Some(program) => halt_running(alloc, c, world, ps, p, program, left),
    }
}

// Of a process that is in no ask, and of which no kill is pending: it goes on to its next call, on a copy of its image.
fn halt_running(
    alloc: Global,
    c: &Description,
    world: &World,
    ps: &[Process],
    p: &Process,
    program: &Program,
    left: u64,
) -> Result<Halt, NoMemory>
    requires bound { left ≤ 40000000000 }
    ensures { IfOk result (λ halt. halt ≡ halt_by left (way program.now p.now.image) (waits_in c.now (unix_of c.now world.now ps.now) p.now (Some program.now))) }
{
    let mut image = p.image.copy(alloc)?;
    match go_to_call(program, &mut image, left) {
        Reach::TooFar => Ok(Halt::Far),
        Reach::NoCall => Ok(Halt::Free),
        Reach::BadStep(_) => Ok(Halt::Free),
        Reach::Call(way) => {
            let call = call_of(alloc, program, &image)?;
            Ok(rests_if(waits_by(world, ps, p, &call), way))
        }
    }
}

// A process that is blocked or not, after so many instructions.
fn rests_if(blocked: bool, way: u64) -> Halt
    ensures { result ≡ rests_if blocked way }
{
    if blocked {
        Halt::Rests(way)
    } else {
        Halt::Free
    }
}
