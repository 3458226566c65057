//! Runs clusters by chance (this project): which kernel's turn it is and what happens in it is drawn by a generator, while one kernel gets
//! no turn for a while and bursts are held. Each cluster is run with caches of 0, 8 and 64 blocks, over a link that makes no faults and
//! over one that loses, repeats and delays packets; each run is judged. Printed is how each run ended; all are to end, whatever happens
//! first.

ghost use Rattle.unix_calls.specs.Lawful.{Lawful};
ghost use Rattle.sprite_cluster.specs.Logs.{Holds};

use crate::chance::run_by_chance;
use crate::files::case_file;
use crate::known::is_known;
use cause_judge::are_for_cause;
use cluster_file::read_description;
use kernel_threads::Stepped;
use link_plan::{Link, PlanLink};
use run_judge::{JudgedRun, judge_run};
use sprite_cluster::Cluster;
use sprite_ids::{Finish, NoMemory};
use std::alloc::Global;
use std::io;
use unix_calls::Description;

/// The clusters: moves, evictions, kills, devices, shared and appended files, and a parallel make.
static CLUSTERS: [&str; 16] = [
    "append-shared-log",
    "device-deadlock-avoided",
    "device-echo-server",
    "eviction-after-two-calls",
    "exec-in-child",
    "foreign-process-served-by-home",
    "kill-breaks-off-pd-get",
    "kill-running-child",
    "make-on-four-clients",
    "migrate-with-dirty-blocks",
    "page-fetched-after-migrate",
    "recall-partial-last-block",
    "rexec-on-another-client",
    "shared-offset-after-migrate",
    "shared-offset-evicted-after-2",
    "write-sharing-two-clients",
];

/// How many blocks a client keeps.
static CACHES: [u8; 3] = [0, 8, 64];

/// The faults that a link makes.
static FAULTS: &str = "
[[link]]
from = \"*\"
to = \"*\"
first = 2
every = 5

[[link]]
from = \"*\"
to = \"*\"
first = 3
every = 4
fate = \"twice\"

[[link]]
from = \"*\"
to = \"*\"
first = 1
every = 3
fate = \"late\"
";

/// How many instructions the processes of a run may do when it is judged.
const MOST: u64 = 40_000_000_000;

/// Prints how all runs end. It fails where a file can't be read, or where the output fails.
pub fn print_all(rt: &HostRuntime) -> io::Result<()> {
    for (place, name) in CLUSTERS.iter().enumerate() {
        print_cluster(rt, name, place as u64)?;
    }
    Ok(())
}

/// Prints how the runs of a cluster end, each by that seed. It fails where the file can't be read, or where the output fails.
fn print_cluster(rt: &HostRuntime, name: &str, seed: u64) -> io::Result<()> {
    let file = case_file(rt, "chances", name)?;
    for cache in CACHES {
        let plain = run(rt.alloc(), file.as_slice(), cache, "", seed);
        print!(rt; "== {name} with {cache} blocks: {}\n", said(&plain))?;
        let faulty = run(rt.alloc(), file.as_slice(), cache, FAULTS, seed);
        print!(rt;
            "== {name} with {cache} blocks over faults: {}\n",
            said(&faulty)
        )?;
    }
    Ok(())
}

/// How a run ended.
#[derive(Clone, Copy)]
enum Way {
    /// The file is refused.
    Refused,
    /// The judge found what was promised of it.
    Judged(Finish),
    /// The judge found something else.
    Broken,
}

fn said(way: &Result<Way, NoMemory>) -> &'static str {
    match way {
        Ok(Way::Judged(Finish::AllEnded)) => "all ended",
        Ok(Way::Judged(Finish::Budget)) => "budget",
        Ok(Way::Judged(Finish::Stalled)) => "stalled",
        Ok(Way::Judged(Finish::Running)) => "running",
        Ok(Way::Judged(Finish::OutOfMemory)) => "out of memory",
        Ok(Way::Refused) => "refused",
        Ok(Way::Broken) => "broken",
        Err(NoMemory) => "out of memory",
    }
}

/// Runs the cluster with caches of so many blocks and these faults. The one error is want of memory.
fn run(alloc: Global, file: &[u8], cache: u8, faults: &str, seed: u64) -> Result<Way, NoMemory> {
    let text = changed(alloc, file, cache, faults)?;
    match read_description(alloc, text.as_slice()) {
        Ok(description) => run_described(alloc, description, seed, PlanLink::new(alloc)),
        Err(_) => Ok(Way::Refused),
    }
}

/// The file with caches of so many blocks and these faults. The one error is want of memory.
fn changed(alloc: Global, file: &[u8], cache: u8, faults: &str) -> Result<Vec<u8>, NoMemory> {
    let first = match cache {
        0 => "cache = 0\n",
        8 => "cache = 8\n",
        _ => "cache = 64\n",
    };
    let mut text = Vec::new(alloc);
    text.extend_from_slice(first.as_bytes())?;
    text.extend_from_slice(file)?;
    text.extend_from_slice(faults.as_bytes())?;
    Ok(text)
}

/// Runs a described cluster by chance, over that link, and judges its run. The one error is want of memory.
#[tactic(auto, using(sprite_cluster::proofs::BootLaws::few_kernels))]
fn run_described<L: Link + Drop>(
    alloc: Global,
    description: Description,
    seed: u64,
    link: L,
) -> Result<Way, NoMemory>
    requires { Lawful description }
{
    let Ok(kernels) = u8::try_from(description.kernels.len()) else {
        return Ok(Way::Refused);
    };
    match Cluster::boot(alloc, description, link) {
        Ok(cluster) => judged(alloc, run_by_chance(alloc, cluster, kernels, seed)),
        Err(_link) => Err(NoMemory),
    }
}

/// How the run of a cluster ended. The one error is want of memory.
fn judged<L: Link + Drop>(alloc: Global, cluster: Cluster<L>) -> Result<Way, NoMemory>
    requires { Holds L.faults L.asked cluster.description cluster.closed cluster.begun.value cluster.wire cluster.state cluster.trace }
{
    let mut cluster = cluster;
    let finish = Stepped::finish(&mut cluster, alloc);
    let (closed, _link) = cluster.close(finish);
    if !is_known(alloc, &closed.description, closed.trace.records())? {
        return Ok(Way::Broken);
    }
    if !are_for_cause(&closed.description, closed.trace.records()) {
        return Ok(Way::Broken);
    }
    match judge_run(alloc, &closed.description, &closed.trace, finish, MOST)? {
        JudgedRun::Judged { .. } => Ok(Way::Judged(finish)),
        JudgedRun::Refuted(_) | JudgedRun::Steps(_) => Ok(Way::Broken),
    }
}
