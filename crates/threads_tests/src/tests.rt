ghost use Rattle.std.specs.Prelude.{◌≡◌, ◌<◌};

use crate::countdown::Countdown;
use kernel_threads::{NoWatch, Point, Watch, run_rounds, run_seeded, run_threads, serve};
use sprite_ids::Kernel;
use std::alloc::Global;
use std::sync::Wait;
use std::sync::atomic::{AtomicBool, AtomicU64, Ordering};
use std::test::Fail;
use std::thread;
use std::thread::Threads;
use turn_gate::Gate;

// How a run goes.
#[derive(Clone, Copy)]
enum Way {
    Threads,
    Rounds,
    Seed(u64),
}

// A run, and the number that it counts down from.
struct Run {
    way: Way,
    goal: u32,
}

static RUNS: [Run; 8] = [
    Run {
        way: Way::Threads,
        goal: 0,
    },
    Run {
        way: Way::Threads,
        goal: 1,
    },
    Run {
        way: Way::Threads,
        goal: 1000,
    },
    Run {
        way: Way::Rounds,
        goal: 0,
    },
    Run {
        way: Way::Rounds,
        goal: 1000,
    },
    Run {
        way: Way::Seed(1),
        goal: 0,
    },
    Run {
        way: Way::Seed(1),
        goal: 1000,
    },
    Run {
        way: Way::Seed(2),
        goal: 1000,
    },
];

// A run, the number that it counts down from, and the kernels that count, in order. By rounds a kernel counts an even number and the
// odd one behind it. By a seed each count has one turn of each of the four kernels to draw from, so the kernel's number is a word of
// PCG32 modulo 4, and 1.
struct Script {
    way: Way,
    goal: u32,
    kernels: [u8; 8],
}

static SCRIPTS: [Script; 4] = [
    Script {
        way: Way::Rounds,
        goal: 8,
        kernels: [1, 1, 2, 2, 3, 3, 4, 4],
    },
    Script {
        way: Way::Rounds,
        goal: 9,
        kernels: [1, 2, 2, 3, 3, 4, 4, 1],
    },
    Script {
        way: Way::Seed(1),
        goal: 8,
        kernels: [3, 3, 2, 1, 4, 1, 1, 1],
    },
    Script {
        way: Way::Seed(2),
        goal: 8,
        kernels: [1, 2, 2, 3, 1, 4, 2, 4],
    },
];

// Holds the first burst of each kernel until each of the four is in one, for at most so many looks.
#[derive(Drop)]
struct Meeting {
    looks: u32,
    begun: AtomicU64,
    missed: AtomicBool,
}

impl Meeting {
    // Nobody has come yet.
    fn new(looks: u32) -> Meeting {
        Meeting {
            looks,
            begun: AtomicU64::new(0),
            missed: AtomicBool::new(false),
        }
    }

    // Whether each of the four came, and none of them looked too often.
    fn was_whole(&self) -> bool {
        self.begun.load(Ordering::SeqCst) >= 4 && !self.missed.load(Ordering::SeqCst)
    }
}

impl Watch for Meeting {
    fn at(&self, _kernel: Kernel, point: Point) {
        if point == Point::Turn {
            return;
        }
        self.begun.fetch_add(1, Ordering::SeqCst);
        for _ in 0..self.looks {
            if self.begun.load(Ordering::SeqCst) >= 4 {
                return;
            }
            thread::yield_now();
        }
        self.missed.store(true, Ordering::SeqCst);
    }
}

// Whether the lines are those of a whole count: each number once, from that one down to 1.
fn counts_down(lines: &[(u8, u32)], from: u32) -> bool {
    let mut next = from;
    for line in lines {
        if line.1 != next || next == 0 {
            return false;
        }
        next -= 1;
    }
    next == 0
}

// Whether the first lines are of these kernels.
fn written_by(lines: &[(u8, u32)], kernels: &[u8]) -> bool {
    for (line, kernel) in lines.iter().zip(kernels) {
        if line.0 != *kernel {
            return false;
        }
    }
    lines.len() >= kernels.len()
}

// What a run with the seed writes.
fn seeded(alloc: Global, goal: u32, seed: u64) -> Vec<(u8, u32)>
    requires { goal < 4000000 }
{
    let Countdown { lines, .. } = run_seeded(alloc, Countdown::from(alloc, goal), 4, seed);
    lines
}

// What a run by threads writes; None where there is no memory for it.
fn by_threads<R: Threads + Wait + Sync, W: Watch + Sync>(
    rt: &R,
    alloc: Global,
    goal: u32,
    watch: &W,
) -> Option<Vec<(u8, u32)>>
    requires { goal < 4000000 }
{
    match run_threads(rt, alloc, Countdown::from(alloc, goal), 4, watch) {
        Ok(Countdown { lines, .. }) => Some(lines),
        Err(_) => None,
    }
}

// What a run on one thread writes.
fn by_rounds<R: Wait>(rt: &R, alloc: Global, goal: u32) -> Vec<(u8, u32)>
    requires { goal < 4000000 }
{
    let Countdown { lines, .. } = run_rounds(rt, alloc, Countdown::from(alloc, goal), 4);
    lines
}

// What the kernels write where this thread serves all of them at a gate; None where there is no memory for it.
fn served_here<R: Wait, W: Watch>(
    rt: &R,
    alloc: Global,
    goal: u32,
    watch: &W,
) -> Option<Vec<(u8, u32)>>
    requires { goal < 4000000 }
{
    match Gate::start(alloc, Countdown::from(alloc, goal), 4) {
        Ok((gate, seats)) => {
            let seats = serve(rt, alloc, &gate, seats, watch);
            let Countdown { lines, .. } = gate.finish(seats);
            Some(lines)
        }
        Err(_) => None,
    }
}

// What a run writes; None where there is no memory for it.
fn lines_of<R: Threads + Wait + Sync>(
    rt: &R,
    alloc: Global,
    way: Way,
    goal: u32,
) -> Option<Vec<(u8, u32)>>
    requires { goal < 4000000 }
{
    match way {
        Way::Threads => by_threads(rt, alloc, goal, &NoWatch),
        Way::Rounds => Some(by_rounds(rt, alloc, goal)),
        Way::Seed(seed) => Some(seeded(alloc, goal, seed)),
    }
}

// Whether the run counts down.
fn runs_down<R: Threads + Wait + Sync>(rt: &R, alloc: Global, run: &Run) -> bool {
    if run.goal >= 4_000_000 {
        return false;
    }
    match lines_of(rt, alloc, run.way, run.goal) {
        Some(lines) => counts_down(lines.as_slice(), run.goal),
        None => false,
    }
}

// Whether the kernels of the run count in the order of the script.
fn goes_so<R: Threads + Wait + Sync>(rt: &R, alloc: Global, script: &Script) -> bool {
    if script.goal >= 4_000_000 {
        return false;
    }
    match lines_of(rt, alloc, script.way, script.goal) {
        Some(lines) => {
            counts_down(lines.as_slice(), script.goal)
                && written_by(lines.as_slice(), &script.kernels)
        }
        None => false,
    }
}

// The place of the first run that doesn't count down.
fn first_other<R: Threads + Wait + Sync>(rt: &R, alloc: Global, runs: &[Run]) -> Option<usize> {
    for (place, run) in runs.iter().enumerate() {
        if !runs_down(rt, alloc, run) {
            return Some(place);
        }
    }
    None
}

// The place of the first run that doesn't go by its script.
fn first_astray<R: Threads + Wait + Sync>(
    rt: &R,
    alloc: Global,
    scripts: &[Script],
) -> Option<usize> {
    for (place, script) in scripts.iter().enumerate() {
        if !goes_so(rt, alloc, script) {
            return Some(place);
        }
    }
    None
}

// Whether two runs with the seed write the same.
fn repeats(alloc: Global, goal: u32, seed: u64) -> bool
    requires { goal < 4000000 }
{
    seeded(alloc, goal, seed).as_slice() == seeded(alloc, goal, seed).as_slice()
}

// Whether all four kernels are in a burst at once, and the run counts down.
fn meets_by_threads<R: Threads + Wait + Sync>(rt: &R, alloc: Global) -> bool {
    let meeting = Meeting::new(10_000_000);
    match by_threads(rt, alloc, 1000, &meeting) {
        Some(lines) => meeting.was_whole() && counts_down(lines.as_slice(), 1000),
        None => false,
    }
}

// Whether the four kernels are never in a burst at once where one thread serves them, and the run counts down all the same.
fn misses_on_one_thread<R: Wait>(rt: &R, alloc: Global) -> bool {
    let meeting = Meeting::new(1000);
    match served_here(rt, alloc, 1000, &meeting) {
        Some(lines) => !meeting.was_whole() && counts_down(lines.as_slice(), 1000),
        None => false,
    }
}

#[test]
fn every_way_counts_down(rt: HostRuntime) -> Result<(), Fail> {
    assert_eq!(rt; first_other(&rt, rt.alloc(), &RUNS), None);
    Ok(())
}

#[test]
fn kernels_count_in_order(rt: HostRuntime) -> Result<(), Fail> {
    assert_eq!(rt; first_astray(&rt, rt.alloc(), &SCRIPTS), None);
    Ok(())
}

#[test]
fn a_seed_gives_the_same_run_each_time(rt: HostRuntime) -> Result<(), Fail> {
    assert!(rt; repeats(rt.alloc(), 60, 7));
    Ok(())
}

#[test]
fn kernels_on_threads_are_in_bursts_at_once(rt: HostRuntime) -> Result<(), Fail> {
    assert!(rt; meets_by_threads(&rt, rt.alloc()));
    Ok(())
}

#[test]
fn kernels_on_one_thread_are_not_in_bursts_at_once(rt: HostRuntime) -> Result<(), Fail> {
    assert!(rt; misses_on_one_thread(&rt, rt.alloc()));
    Ok(())
}
