ghost use Rattle.std.specs.Prelude.{◌≡◌, ◌≤◌, ◌+◌, ◌/◌, ◌%◌, ◌==◌, ◌&&◌, ◌++◌, ◌∷◌, [], false, true, OnErr, OnOk};

use kernel_threads::{EndBurst, Stepped};
use sprite_ids::{Finish, Kernel, NoMemory};
use std::alloc::Global;
use turn_gate::Book;

/// What a relay is: the number that it counts down from, how many kernels it has, and how many counts make a stretch.
#[derive(Clone, Copy)]
pub(crate) struct Plan {
    pub(crate) goal: u32,
    pub(crate) kernels: u8,
    pub(crate) stretch: u32,
}

/// Kernels that count down in turn, stretch after stretch: at each count one kernel alone can go on. In an even stretch the count is a
/// choice of it, in an odd one a job. It writes a line with it.
#[derive(Drop)]
pub(crate) struct Relay {
    pub(crate) plan: Plan,
    pub(crate) left: u32,
    pub(crate) out: u64,
    pub(crate) closed: bool,
    pub(crate) lines: Vec<(u8, u32)>,
}

/// A count that was counted.
#[derive(Clone, Copy)]
pub(crate) struct Passed {
    from: u32,
    to: u32,
}

impl Relay {
    /// A relay of that plan, at its start.
    pub(crate) fn new(alloc: Global, plan: Plan) -> Relay
        ensures made { result ≡ record { plan = plan; left = plan.goal; out = 0; closed = false; lines = result.lines } }
        ensures lines { result.lines.items ≡ [] }
    {
        Relay {
            plan,
            left: plan.goal,
            out: 0,
            closed: false,
            lines: Vec::new(alloc),
        }
    }

    // Whether the count that is left is a choice of the kernel.
    fn is_choice_of(&self, kernel: Kernel) -> bool
        requires { (1 ≤ self.now.plan.kernels) × (1 ≤ self.now.plan.stretch) }
        ensures { result ≡ (self.now.left / self.now.plan.stretch % self.now.plan.kernels + 1 == kernel) && (self.now.left / self.now.plan.stretch % 2 == 0) }
    {
        let stretch = self.left / self.plan.stretch;
        stretch % u32::from(self.plan.kernels) + 1 == u32::from(kernel.number()) && stretch % 2 == 0
    }

    // The kernel writes a line with the count that is left, and that many are left then. Where memory is wanting it is closed.
    fn count(&mut self, kernel: Kernel, to: u32) -> Result<(), NoMemory>
        ensures ok { OnOk result (self.new ≡ record { plan = self.old.plan; left = to; out = self.old.out; closed = self.old.closed; lines = self.new.lines }) }
        ensures lines { OnOk result (self.new.lines.items ≡ self.old.lines.items ++ (kernel, self.old.left) ∷ []) }
        ensures err { OnErr result (self.new ≡ record { plan = self.old.plan; left = self.old.left; out = self.old.out; closed = true; lines = self.new.lines }) }
        ensures stay { OnErr result (self.new.lines.items ≡ self.old.lines.items) }
    {
        match self.lines.push((kernel.number(), self.left)) {
            Ok(()) => {
                self.left = to;
                Ok(())
            }
            Err(_) => {
                self.closed = true;
                Err(NoMemory)
            }
        }
    }
}

impl Book for Relay {
    ghost use Rattle.std.specs.Prelude.{◌≡◌, ◌<◌, ◌≤◌, ◌+◌, length};

    type Origin = Plan;

    type Item = u32;

    ghost origin = { λ v. v.plan };

    ghost holds = { λ v. (length v.lines.items + v.left ≡ v.plan.goal) × (v.plan.goal < 4000000) × (1 ≤ v.plan.kernels) × (1 ≤ v.plan.stretch) };

    ghost log = { λ v. v.lines.items };

    fn length(&self) -> u64 {
        self.lines.len() as u64
    }
}

impl Stepped for Relay {
    ghost use Rattle.std.specs.Prelude.{◌≡◌, ◌<◌, ◌-◌, ◌+◌, ◌/◌, ◌%◌, ◌==◌, ◌&&◌, ◌∷◌, [], if◌then◌else◌};
    ghost use Rattle.sprite_ids.specs.declared.Finish.TheVariants.{OutOfMemory, AllEnded, Running};

    type Choice = u32;

    type Job = u32;

    type Burst = Passed;

    ghost kernels = { λ plan. plan.kernels };

    ghost finish_of = { λ v. if v.closed then OutOfMemory else if v.left == 0 then AllEnded else Running };

    ghost choices_at = { λ v k. if (v.left / v.plan.stretch % v.plan.kernels + 1 == k) && (v.left / v.plan.stretch % 2 == 0) then v.left ∷ [] else [] };

    ghost has_job_at = { λ v k. (v.left / v.plan.stretch % v.plan.kernels + 1 == k) && (v.left / v.plan.stretch % 2 == 1) };

    ghost out = { λ v. v.out };

    ghost is_done = { λ job burst. (burst.from ≡ job) × (burst.to ≡ job - 1) };

    ghost may_end = { λ _ burst. burst.to ≡ burst.from - 1 };

    ghost counts = { λ v _ burst. (burst.from ≡ v.left) × (0 < v.out) };

    fn choice_count(&self, kernel: Kernel) -> u64 {
        u64::from(self.is_choice_of(kernel))
    }

    fn choice(&self, kernel: Kernel, place: u64) -> Option<u32> {
        if place == 0 && self.is_choice_of(kernel) {
            Some(self.left)
        } else {
            None
        }
    }

    fn step(&mut self, _alloc: Global, kernel: Kernel, _choice: u32) -> Result<(), NoMemory> {
        self.count(kernel, self.left - 1)
    }

    fn has_job(&mut self, _alloc: Global, kernel: Kernel) -> Result<bool, NoMemory> {
        let stretch = self.left / self.plan.stretch;
        Ok(
            stretch % u32::from(self.plan.kernels) + 1 == u32::from(kernel.number())
                && stretch % 2 == 1,
        )
    }

    fn begin_burst(&mut self, alloc: Global, kernel: Kernel) -> Result<Option<u32>, NoMemory> {
        if !self.has_job(alloc, kernel)? {
            return Ok(None);
        }
        match self.out.checked_add(1) {
            Some(out) => {
                self.out = out;
                Ok(Some(self.left))
            }
            None => {
                self.closed = true;
                Err(NoMemory)
            }
        }
    }

    fn run_job(job: u32) -> Passed {
        Passed {
            from: job,
            to: job.saturating_sub(1),
        }
    }

    fn end_burst(
        &mut self,
        _alloc: Global,
        kernel: Kernel,
        burst: Passed,
    ) -> Result<EndBurst, NoMemory> {
        if burst.from != self.left || self.out == 0 {
            self.out = self.out.saturating_sub(1);
            return Ok(EndBurst::Stale);
        }
        self.count(kernel, burst.to)?;
        self.out -= 1;
        Ok(EndBurst::Taken)
    }

    fn finish(&mut self, _alloc: Global) -> Finish {
        if self.closed {
            Finish::OutOfMemory
        } else if self.left == 0 {
            Finish::AllEnded
        } else {
            Finish::Running
        }
    }
}
