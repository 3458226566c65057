ghost use Rattle.std.specs.Prelude.{◌≡◌, ◌≤◌, IfOk};
ghost use Rattle.unix_world.specs.Worlds.{unix_of};
ghost use Rattle.run_judge.specs.Ends.{end_of, stop_from, stop_if};

use crate::halting::{Halt, halt_of};
use crate::waiting::some_lives;
use sprite_ids::{Finish, NoMemory};
use std::alloc::Global;
use unix_calls::{Description, Process};
use unix_world::World;

/// How a run stands by the state of its journal.
#[derive(Clone, Copy, Debug, PartialEq, Eq)]
pub(crate) enum Stop {
    /// As it says.
    Good,
    /// Each process is to have ended, and one lives; or one is to live, and none does; or it hasn't come to an end.
    Wrong,
    /// It is to have stalled, and a process that lives isn't blocked.
    Free,
    /// It is to have stalled, and the ways of its processes to their next calls are longer than they may be.
    Far,
}

/// How a run that came to that end stands, whose processes may do at most `most` instructions up to their next calls.
pub(crate) fn end_of(
    alloc: Global,
    c: &Description,
    world: &World,
    ps: &[Process],
    finish: Finish,
    most: u64,
) -> Result<Stop, NoMemory>
    requires bound { most ≤ 40000000000 }
    ensures { IfOk result (λ stop. stop ≡ end_of c.now most (unix_of c.now world.now ps.now) finish) }
{
    match finish {
        Finish::AllEnded => Ok(stop_if(!some_lives(ps))),
        Finish::Budget => Ok(stop_if(some_lives(ps))),
        Finish::Stalled => {
            if !some_lives(ps) {
                return Ok(Stop::Wrong);
            }
            stop_of(alloc, c, world, ps, most)
        }
        Finish::OutOfMemory | Finish::Running => Ok(Stop::Wrong),
    }
}

fn stop_if(good: bool) -> Stop
    ensures { result ≡ stop_if good }
{
    if good { Stop::Good } else { Stop::Wrong }
}

// Whether each process has ended or is blocked.
fn stop_of(
    alloc: Global,
    c: &Description,
    world: &World,
    ps: &[Process],
    most: u64,
) -> Result<Stop, NoMemory>
    requires bound { most ≤ 40000000000 }
    ensures { IfOk result (λ stop. stop ≡ stop_from c.now most 0 (unix_of c.now world.now ps.now) ps.now) }
{
    let mut cost: u64 = 0;
    for p in ps {
        match halt_of(alloc, c, world, ps, p, most - cost)? {
            Halt::Rests(way) => cost += way,
            Halt::Free => return Ok(Stop::Free),
            Halt::Far => return Ok(Stop::Far),
        }
    }
    Ok(Stop::Good)
}
