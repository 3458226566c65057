//! Kernels that wait for each other: those that have nothing to do sleep, are called, and take no turns meanwhile; and a kernel goes on
//! within its turn. A call that is lost would hang these runs.
ghost use Rattle.std.specs.Prelude.{◌<◌, ◌≤◌};

use crate::relay::{Plan, Relay};
use kernel_threads::{Point, Watch, run_threads};
use sprite_ids::Kernel;
use std::alloc::Global;
use std::sync::Wait;
use std::sync::atomic::{AtomicU64, Ordering};
use std::test::Fail;
use std::thread;
use std::thread::Threads;

// Counts turns, and holds each burst for so many looks.
#[derive(Drop)]
struct Patience {
    looks: u32,
    turns: AtomicU64,
}

impl Watch for Patience {
    fn at(&self, _kernel: Kernel, point: Point) {
        if point == Point::Turn {
            self.turns.fetch_add(1, Ordering::SeqCst);
            return;
        }
        for _ in 0..self.looks {
            thread::yield_now();
        }
    }
}

// A relay by threads, for how many looks each burst is held, and how many turns it takes at most: one in which each kernel looks at the
// start, and one at the end; one for each 32 choices in a row, and for each job one at whose end the next one of its kernel begins; and one
// at the end of a stretch in which its kernel finds no more choices, or at the start of one in which the first job begins.
struct Race {
    plan: Plan,
    looks: u32,
    most: u64,
}

static RACES: [Race; 8] = [
    // A kernel alone.
    Race {
        plan: Plan {
            goal: 2000,
            kernels: 1,
            stretch: 1,
        },
        looks: 0,
        most: 1003,
    },
    // Two kernels, one with choices and the other with jobs, that call each other.
    Race {
        plan: Plan {
            goal: 2000,
            kernels: 2,
            stretch: 1,
        },
        looks: 0,
        most: 3004,
    },
    Race {
        plan: Plan {
            goal: 2000,
            kernels: 3,
            stretch: 1,
        },
        looks: 0,
        most: 3006,
    },
    Race {
        plan: Plan {
            goal: 2000,
            kernels: 16,
            stretch: 1,
        },
        looks: 0,
        most: 3032,
    },
    // The bursts are held until all other kernels sleep.
    Race {
        plan: Plan {
            goal: 200,
            kernels: 4,
            stretch: 1,
        },
        looks: 1000,
        most: 308,
    },
    // A kernel has 64 choices in a row, which take two turns and a look, and the next one 64 jobs.
    Race {
        plan: Plan {
            goal: 1280,
            kernels: 4,
            stretch: 64,
        },
        looks: 0,
        most: 688,
    },
    // One kernel alone does all, and the others sleep until the end.
    Race {
        plan: Plan {
            goal: 400,
            kernels: 16,
            stretch: 401,
        },
        looks: 0,
        most: 45,
    },
    // It is over at once.
    Race {
        plan: Plan {
            goal: 0,
            kernels: 16,
            stretch: 1,
        },
        looks: 0,
        most: 16,
    },
];

// Whether the lines are those of a whole relay: each number once, from that one down to 1, by the kernel whose turn it is.
fn is_relay(lines: &[(u8, u32)], plan: &Plan) -> bool
    requires kernels { 1 ≤ plan.now.kernels }
    requires stretch { 1 ≤ plan.now.stretch }
{
    let mut next = plan.goal;
    for line in lines {
        let kernel = next / plan.stretch % u32::from(plan.kernels) + 1;
        if line.1 != next || next == 0 || u32::from(line.0) != kernel {
            return false;
        }
        next -= 1;
    }
    next == 0
}

// How many turns a relay by threads takes; None where its lines aren't those of a whole relay.
fn turns_of<R: Threads + Wait + Sync>(rt: &R, alloc: Global, plan: Plan, looks: u32) -> Option<u64>
    requires goal { plan.goal < 4000000 }
    requires kernels { (1 ≤ plan.kernels) × (plan.kernels ≤ 16) }
    requires stretch { 1 ≤ plan.stretch }
{
    let watch = Patience {
        looks,
        turns: AtomicU64::new(0),
    };
    match run_threads(rt, alloc, Relay::new(alloc, plan), plan.kernels, &watch) {
        Ok(Relay { lines, .. }) => {
            if is_relay(lines.as_slice(), &plan) {
                Some(watch.turns.load(Ordering::SeqCst))
            } else {
                None
            }
        }
        Err(_) => None,
    }
}

// How many turns the race takes; None where its lines are others, or where it has no kernels or too many.
fn turns_in<R: Threads + Wait + Sync>(rt: &R, alloc: Global, race: &Race) -> Option<u64> {
    let plan = race.plan;
    if plan.goal >= 4_000_000 || plan.kernels == 0 || plan.kernels > 16 || plan.stretch == 0 {
        return None;
    }
    turns_of(rt, alloc, plan, race.looks)
}

// The place and the turns of the first race that goes wrong or takes too many turns.
fn first_slow<R: Threads + Wait + Sync>(
    rt: &R,
    alloc: Global,
    races: &[Race],
) -> Option<(usize, Option<u64>)> {
    for (place, race) in races.iter().enumerate() {
        match turns_in(rt, alloc, race) {
            Some(turns) => {
                if turns > race.most {
                    return Some((place, Some(turns)));
                }
            }
            None => return Some((place, None)),
        }
    }
    None
}

#[test]
fn kernels_that_sleep_are_called_and_take_no_turns(rt: HostRuntime) -> Result<(), Fail> {
    assert_eq!(rt; first_slow(&rt, rt.alloc(), &RACES), None);
    Ok(())
}
