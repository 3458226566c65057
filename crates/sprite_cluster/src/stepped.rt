ghost use Rattle.std.specs.Prelude.{◌≡◌};

use crate::cluster::Cluster;
use crate::origin::Origin;
use cluster_bursts::{Burst, Job, run_job};
use cluster_choices::{Choice, choice_at, choice_count};
use kernel_threads::{EndBurst, Stepped};
use link_plan::Link;
use sprite_ids::{Finish, Kernel, NoMemory};
use std::alloc::Global;
use turn_gate::Book;
use unix_calls::Event;

impl<L: Link> Book for Cluster<L> {
    ghost use Rattle.sprite_cluster.specs.Logs.{Holds, log_of};

    type Origin = Origin<L>;

    type Item = Event;

    ghost origin = { λ v. record { description = v.description; link = v.begun } };

    ghost holds = { λ v. Holds L.faults L.asked v.description v.closed v.begun.value v.wire v.state v.trace };

    ghost log = { λ v. log_of v.trace };

    fn length(&self) -> u64 {
        self.trace.records().len() as u64
    }
}

impl<L: Link> Stepped for Cluster<L> {
    ghost use Rattle.std.specs.Prelude.{◌≡◌, true, length};
    ghost use Rattle.cluster_choices.specs.Choosing.{choices_at as offered_at};
    ghost use Rattle.cluster_bursts.specs.Bursts.{counts as would_count, has_job_at as is_job_at, Did, IsDone};
    ghost use Rattle.sprite_cluster.specs.Finishing.{stands_so};

    type Choice = Choice;

    type Job = Job;

    type Burst = Burst;

    ghost kernels = { λ o. length o.description.kernels };

    ghost finish_of = { λ v. stands_so v.closed v.description v.trace v.wire.machine v.state };

    ghost choices_at = { λ v k. offered_at k v.state v.wire.machine };

    ghost has_job_at = { λ v k. is_job_at k v.state };

    ghost out = { λ v. length v.state.out };

    ghost is_done = { λ job b. IsDone job b };

    ghost may_end = { λ o b. Did o.description b };

    ghost counts = { λ v k b. would_count k b v.state ≡ true };

    fn choice_count(&self, kernel: Kernel) -> u64 {
        choice_count(&self.state, &self.wire, kernel)
    }

    fn choice(&self, kernel: Kernel, place: u64) -> Option<Choice> {
        choice_at(&self.state, &self.wire, kernel, place)
    }

    fn step(&mut self, alloc: Global, kernel: Kernel, choice: Choice) -> Result<(), NoMemory> {
        Cluster::step(self, alloc, kernel, choice)
    }

    fn has_job(&mut self, _alloc: Global, kernel: Kernel) -> Result<bool, NoMemory> {
        Ok(Cluster::has_job(self, kernel))
    }

    fn begin_burst(&mut self, alloc: Global, kernel: Kernel) -> Result<Option<Job>, NoMemory> {
        Cluster::begin_burst(self, alloc, kernel)
    }

    fn run_job(job: Job) -> Burst {
        run_job(job)
    }

    fn end_burst(
        &mut self,
        alloc: Global,
        kernel: Kernel,
        burst: Burst,
    ) -> Result<EndBurst, NoMemory> {
        Cluster::end_burst(self, alloc, kernel, burst)
    }

    fn finish(&mut self, _alloc: Global) -> Finish {
        Cluster::finish(self)
    }
}
