ghost use Rattle.std.specs.Prelude.{◌≡◌, ◌<◌, ◌≤◌, All, length, IfSome};
ghost use Rattle.kernel_threads.specs.Steps.{IsAmong};
ghost use Rattle.sprite_cluster.specs.Finishing.{stands_so};
ghost use Rattle.sprite_cluster.specs.Logs.{Holds};
ghost use Rattle.unix_calls.specs.declared.Description.{Description};
ghost use Rattle.cases.specs.Jobs.{MayEnd};

use cluster_bursts::{Job, run_job};
use kernel_threads::Stepped;
use link_plan::Link;
use rand_core::SeedableRng;
use rand_core::utils::NextWord;
use rand_pcg::Lcg64Xsh32;
use sprite_cluster::Cluster;
use sprite_ids::{Finish, Kernel, NoMemory};
use std::alloc::Global;

/// How many turns a run takes at most.
const TURNS: u32 = 8_000_000;

/// After how many turns on the average another kernel is starved.
const STARVED: u32 = 128;

/// A burst that has begun and isn't ended yet.
#[derive(Drop)]
struct Held {
    kernel: Kernel,
    job: Job,
}

/// What happens next by chance.
#[derive(Drop)]
struct Chance {
    words: Lcg64Xsh32,
    /// The number of the kernel that gets no turn for a while.
    starved: u8,
    held: Vec<Held>,
}

/// Runs the cluster of so many kernels until it isn't `Running` any more, or for as many turns as are made at most. In a turn a kernel is
/// drawn, by a generator (PCG32, made by that seed); for a while one kernel gets no turn. Then one of its choices happens, whichever is
/// drawn, or a burst of it begins, or one that has begun before ends, so bursts of many processes are out while others go on.
pub fn run_by_chance<L: Link>(
    alloc: Global,
    cluster: Cluster<L>,
    kernels: u8,
    seed: u64,
) -> Cluster<L>
    requires holds { Holds L.faults L.asked cluster.description cluster.closed cluster.begun.value cluster.wire cluster.state cluster.trace }
    requires few { (1 ≤ kernels) × (kernels ≤ 16) }
    ensures { Holds L.faults L.asked result.description result.closed result.begun.value result.wire result.state result.trace }
{
    let mut cluster = cluster;
    let mut chance = Chance {
        words: Lcg64Xsh32::seed_from_u64(seed),
        starved: 0,
        held: Vec::new(alloc),
    };
    for _turn in 0..TURNS {
        if Stepped::finish(&mut cluster, alloc) != Finish::Running {
            return cluster;
        }
        if !take_turn(alloc, &mut cluster, kernels, &mut chance) {
            return cluster;
        }
    }
    cluster
}

// A turn by chance. False where memory is wanting.
fn take_turn<L: Link>(
    alloc: Global,
    cluster: &mut Cluster<L>,
    kernels: u8,
    chance: &mut Chance,
) -> bool
    requires holds { Holds L.faults L.asked cluster.old.description cluster.old.closed cluster.old.begun.value cluster.old.wire cluster.old.state cluster.old.trace }
    requires running { stands_so cluster.old.closed cluster.old.description cluster.old.trace cluster.old.wire.machine cluster.old.state ≡ Finish.Running }
    requires few { (1 ≤ kernels) × (kernels ≤ 16) }
    requires may_end { All (λ h. MayEnd cluster.old.description h.job) chance.old.held.items }
    ensures holds { Holds L.faults L.asked cluster.new.description cluster.new.closed cluster.new.begun.value cluster.new.wire cluster.new.state cluster.new.trace }
    ensures may_end { All (λ h. MayEnd cluster.new.description h.job) chance.new.held.items }
{
    let kernel = chance.drawn_kernel(kernels);
    if chance.starves(kernel) {
        return true;
    }
    let word = chance.words.next_word();
    match word % 4 {
        0 => begin(alloc, cluster, kernel, chance),
        1 => end(alloc, cluster, chance),
        _ => step(alloc, cluster, kernel, word / 4),
    }
}

impl Chance {
    // One of so many kernels.
    fn drawn_kernel(&mut self, kernels: u8) -> Kernel
        requires { (1 ≤ kernels) × (kernels ≤ 16) }
        ensures { self.new.held ≡ self.old.held }
    {
        let place = self.words.next_word() % u32::from(kernels);
        match Kernel::new(1 + place as u8) {
            Some(kernel) => kernel,
            None => unreachable!(),
        }
    }

    // Whether the drawn kernel gets no turn now. Now and then it is the next one that gets none for a while.
    fn starves(&mut self, kernel: Kernel) -> bool
        ensures { self.new.held ≡ self.old.held }
    {
        if self.words.next_word() % STARVED == 0 {
            self.starved = kernel.number();
        }
        self.starved == kernel.number()
    }
}

// The kernel's choice at the word's place, modulo their number, happens. False where memory is wanting.
fn step<V: Stepped>(alloc: Global, value: &mut V, kernel: Kernel, word: u32) -> bool
    requires holds { V.holds value.old }
    requires running { V.finish_of value.old ≡ Finish.Running }
    ensures holds { V.holds value.new }
    ensures origin { V.origin value.new ≡ V.origin value.old }
{
    match drawn_choice(value, kernel, word) {
        Some(choice) => value.step(alloc, kernel, choice).is_ok(),
        None => true,
    }
}

// The kernel's choice at the word's place, modulo their number, where it has one.
fn drawn_choice<V: Stepped>(value: &V, kernel: Kernel, word: u32) -> Option<V::Choice>
    requires { V.holds value.now }
    ensures { IfSome result (λ choice. IsAmong choice (V.choices_at value.now kernel)) }
{
    let count = value.choice_count(kernel);
    if count == 0 {
        return None;
    }
    value.choice(kernel, u64::from(word) % count)
}

// A burst of the kernel begins, where a process of it can run, and is held. False where memory is wanting.
fn begin<L: Link>(
    alloc: Global,
    cluster: &mut Cluster<L>,
    kernel: Kernel,
    chance: &mut Chance,
) -> bool
    requires holds { Holds L.faults L.asked cluster.old.description cluster.old.closed cluster.old.begun.value cluster.old.wire cluster.old.state cluster.old.trace }
    requires running { stands_so cluster.old.closed cluster.old.description cluster.old.trace cluster.old.wire.machine cluster.old.state ≡ Finish.Running }
    requires may_end { All (λ h. MayEnd cluster.old.description h.job) chance.old.held.items }
    ensures holds { Holds L.faults L.asked cluster.new.description cluster.new.closed cluster.new.begun.value cluster.new.wire cluster.new.state cluster.new.trace }
    ensures may_end { All (λ h. MayEnd cluster.new.description h.job) chance.new.held.items }
{
    match Stepped::begin_burst(cluster, alloc, kernel) {
        Ok(Some(job)) => hold(&mut chance.held, Held { kernel, job }),
        Ok(None) => true,
        Err(NoMemory) => false,
    }
}

// A burst that is held ends, whichever is drawn. False where memory is wanting.
fn end<L: Link>(alloc: Global, cluster: &mut Cluster<L>, chance: &mut Chance) -> bool
    requires holds { Holds L.faults L.asked cluster.old.description cluster.old.closed cluster.old.begun.value cluster.old.wire cluster.old.state cluster.old.trace }
    requires running { stands_so cluster.old.closed cluster.old.description cluster.old.trace cluster.old.wire.machine cluster.old.state ≡ Finish.Running }
    requires may_end { All (λ h. MayEnd cluster.old.description h.job) chance.old.held.items }
    ensures holds { Holds L.faults L.asked cluster.new.description cluster.new.closed cluster.new.begun.value cluster.new.wire cluster.new.state cluster.new.trace }
    ensures may_end { All (λ h. MayEnd cluster.new.description h.job) chance.new.held.items }
{
    if chance.held.is_empty() {
        return true;
    }
    let place = chance.words.next_word() as usize % chance.held.len();
    let Held { kernel, job } = take_held(&mut chance.held, place);
    Stepped::end_burst(cluster, alloc, kernel, run_job(job)).is_ok()
}

// Holds the burst too. False where memory is wanting.
fn hold(held: &mut Vec<Held>, burst: Held) -> bool
    ensures { (c : Description) → MayEnd c burst.job → All (λ h. MayEnd c h.job) held.old.items → All (λ h. MayEnd c h.job) held.new.items }
{
    held.push(burst).is_ok()
}

// Takes the burst at that place from those that are held.
fn take_held(held: &mut Vec<Held>, place: usize) -> Held
    requires { place < length held.old.items }
    ensures { (c : Description) → All (λ h. MayEnd c h.job) held.old.items → MayEnd c result.job × All (λ h. MayEnd c h.job) held.new.items }
{
    held.swap_remove(place)
}
