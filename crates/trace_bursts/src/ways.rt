ghost use Rattle.std.specs.Prelude.{◌≡◌, ◌≤◌, IfOk};
ghost use Rattle.trace_bursts.specs.Behind.{is_in};
ghost use Rattle.trace_bursts.specs.Costs.{sum_with, way_to_call, ways_pass};

use indexmap::IndexSet;
use one_kernel::{Reach, go_to_call};
use sprite_ids::{Copying, NoMemory, Pid};
use std::alloc::Global;
use unix_calls::{Description, Process};
use unix_world::program_at;

/// Whether so many instructions, and those of these processes up to their calls, of those that issued one, pass the bound. The one
/// error is want of memory.
pub(crate) fn ways_pass(
    alloc: Global,
    c: &Description,
    ps: &[Process],
    issued: &IndexSet<Pid>,
    most: u64,
    from: u64,
) -> Result<bool, NoMemory>
    requires { most ≤ 40000000000 }
    ensures { IfOk result (λ passes. passes ≡ ways_pass c.now (is_in issued.now.keys) most from ps.now) }
{
    let mut sum = from;
    for p in ps {
        if sum > most {
            return Ok(true);
        }
        if issued.contains(&p.pid) {
            match sum_with(alloc, c, p, most, sum)? {
                Some(more) => sum = more,
                None => return Ok(true),
            }
        }
    }
    Ok(sum > most)
}

// The sum with the process's instructions up to its call; None where it passes the bound, or no call comes.
fn sum_with(
    alloc: Global,
    c: &Description,
    p: &Process,
    most: u64,
    sum: u64,
) -> Result<Option<u64>, NoMemory>
    requires bound { most ≤ 40000000000 }
    requires within { sum ≤ most }
    ensures { IfOk result (λ more. more ≡ sum_with most sum (way_to_call c.now p.now)) }
{
    let mut image = p.image.copy(alloc)?;
    let Some(program) = program_at(c.programs.as_slice(), image.program_number()) else {
        return Ok(None);
    };
    match go_to_call(program, &mut image, most - sum) {
        Reach::Call(way) => Ok(Some(sum + way)),
        Reach::BadStep(way) => Ok(Some(sum + way)),
        Reach::TooFar => Ok(None),
        Reach::NoCall => Ok(None),
    }
}
