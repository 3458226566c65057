//! Runs three clusters by seeds (this project), two of them by twenty and one by two, each of these twice. Printed are the exit status, what is written,
//! and whether the second run had the trace of the first. That was worked out by hand or by an independent design.

use crate::files::case_file;
use crate::top::{Left, SOUND, called};
use kernel_threads::NoWatch;
use sprite_ids::NoMemory;
use std::alloc::Global;
use std::io;
use std::sync::Wait;
use std::thread::Threads;

/// The clusters that are run by seeds, each with how many: from 1 on.
const CLUSTERS: [(&str, usize); 3] = [
    ("device-deadlock-avoided", 20),
    ("device-deadlock-stalled", 20),
    ("make-on-four-clients", 2),
];

/// The seeds.
const SEEDS: [&str; 20] = [
    "1", "2", "3", "4", "5", "6", "7", "8", "9", "10", "11", "12", "13", "14", "15", "16", "17",
    "18", "19", "20",
];

/// Prints what comes of all runs. It fails where a file can't be read, or where the output fails.
pub fn print_all<R: Threads + Wait + Sync>(rt: &HostRuntime, threads: &R) -> io::Result<()> {
    for (name, count) in CLUSTERS {
        print_seeds(rt, threads, name, count)?;
    }
    Ok(())
}

/// Prints what comes of the cluster by each of so many seeds.
fn print_seeds<R: Threads + Wait + Sync>(
    rt: &HostRuntime,
    threads: &R,
    name: &str,
    count: usize,
) -> io::Result<()> {
    let file = case_file(rt, "seeds", name)?;
    for seed in SEEDS.iter().take(count) {
        print!(rt; "== {name} by seed {seed} ")?;
        print_seed(rt, threads, file.as_slice(), *seed)?;
    }
    Ok(())
}

/// Prints what comes of the cluster by that seed.
fn print_seed<R: Threads + Wait + Sync>(
    rt: &HostRuntime,
    threads: &R,
    file: &[u8],
    seed: &str,
) -> io::Result<()> {
    match run_twice(threads, rt.alloc(), file, seed) {
        Ok((left, is_same)) => print_left(rt, &left, is_same),
        Err(NoMemory) => println!(rt; "out of memory"),
    }
}

fn print_left(rt: &HostRuntime, left: &Left, is_same: bool) -> io::Result<()> {
    let status = left.status.number();
    let written = left.written.as_str();
    print!(rt; "{status}\n{written}same trace {is_same}\n")
}

/// What the run by that seed leaves, and whether a second one has its trace.
fn run_twice<R: Threads + Wait + Sync>(
    threads: &R,
    alloc: Global,
    file: &[u8],
    seed: &str,
) -> Result<(Left, bool), NoMemory> {
    let second = run(threads, alloc, file, seed)?;
    let first = run(threads, alloc, file, seed)?;
    let is_same = have_one_trace(&first, &second);
    Ok((first, is_same))
}

/// Whether the two runs have the same trace.
fn have_one_trace(first: &Left, second: &Left) -> bool {
    first.trace == second.trace
}

/// What the run by that seed leaves.
fn run<R: Threads + Wait + Sync>(
    threads: &R,
    alloc: Global,
    file: &[u8],
    seed: &str,
) -> Result<Left, NoMemory> {
    let file = Vec::from_slice(alloc, file)?;
    called(
        threads,
        alloc,
        &["run", "--seed", seed],
        file,
        SOUND,
        &NoWatch,
    )
}
