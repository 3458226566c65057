ghost use Rattle.std.specs.Prelude.{◌≡◌, ◌++◌, ◌∷◌, [], false, true, OnErr, OnOk};

use kernel_threads::{EndBurst, Stepped};
use sprite_ids::{Finish, Kernel, NoMemory};
use std::alloc::Global;
use turn_gate::Book;

/// Four kernels that count down together. An even count is a choice of each kernel, an odd one a job of each; whoever is first
/// takes it, and writes a line with it.
#[derive(Drop)]
pub(crate) struct Countdown {
    pub(crate) goal: u32,
    pub(crate) left: u32,
    pub(crate) out: u64,
    pub(crate) closed: bool,
    pub(crate) lines: Vec<(u8, u32)>,
}

/// A count that was counted.
#[derive(Clone, Copy)]
pub(crate) struct Counted {
    from: u32,
    to: u32,
}

impl Countdown {
    /// A countdown from that number.
    pub(crate) fn from(alloc: Global, goal: u32) -> Countdown
        ensures made { result ≡ record { goal = goal; left = goal; out = 0; closed = false; lines = result.lines } }
        ensures lines { result.lines.items ≡ [] }
    {
        Countdown {
            goal,
            left: goal,
            out: 0,
            closed: false,
            lines: Vec::new(alloc),
        }
    }

    // The kernel writes a line with the count that is left, and that many are left then. Where memory is wanting it is closed.
    fn count(&mut self, kernel: Kernel, to: u32) -> Result<(), NoMemory>
        ensures ok { OnOk result (self.new ≡ record { goal = self.old.goal; left = to; out = self.old.out; closed = self.old.closed; lines = self.new.lines }) }
        ensures lines { OnOk result (self.new.lines.items ≡ self.old.lines.items ++ (kernel, self.old.left) ∷ []) }
        ensures err { OnErr result (self.new ≡ record { goal = self.old.goal; left = self.old.left; out = self.old.out; closed = true; lines = self.new.lines }) }
        ensures stay { OnErr result (self.new.lines.items ≡ self.old.lines.items) }
    {
        match self.lines.push((kernel.number(), self.left)) {
            Ok(()) => {
                self.left = to;
                Ok(())
            }
            Err(_) => {
                self.closed = true;
                Err(NoMemory)
            }
        }
    }
}

impl Book for Countdown {
    ghost use Rattle.std.specs.Prelude.{◌≡◌, ◌<◌, ◌+◌, length};

    type Origin = u32;

    type Item = u32;

    ghost origin = { λ v. v.goal };

    ghost holds = { λ v. (length v.lines.items + v.left ≡ v.goal) × (v.goal < 4000000) };

    ghost log = { λ v. v.lines.items };

    fn length(&self) -> u64 {
        self.lines.len() as u64
    }
}

impl Stepped for Countdown {
    ghost use Rattle.std.specs.Prelude.{◌≡◌, ◌<◌, ◌-◌, ◌%◌, ◌==◌, ◌∷◌, [], if◌then◌else◌};
    ghost use Rattle.sprite_ids.specs.declared.Finish.TheVariants.{OutOfMemory, AllEnded, Running};

    type Choice = u32;

    type Job = u32;

    type Burst = Counted;

    ghost kernels = { λ _. 4 };

    ghost finish_of = { λ v. if v.closed then OutOfMemory else if v.left == 0 then AllEnded else Running };

    ghost choices_at = { λ v _. if v.left % 2 == 0 then v.left ∷ [] else [] };

    ghost has_job_at = { λ v _. v.left % 2 == 1 };

    ghost out = { λ v. v.out };

    ghost is_done = { λ job burst. (burst.from ≡ job) × (burst.to ≡ job - 1) };

    ghost may_end = { λ _ burst. burst.to ≡ burst.from - 1 };

    ghost counts = { λ v _ burst. (burst.from ≡ v.left) × (0 < v.out) };

    fn choice_count(&self, _kernel: Kernel) -> u64 {
        u64::from(self.left % 2 == 0)
    }

    fn choice(&self, _kernel: Kernel, place: u64) -> Option<u32> {
        if place == 0 && self.left % 2 == 0 {
            Some(self.left)
        } else {
            None
        }
    }

    fn step(&mut self, _alloc: Global, kernel: Kernel, _choice: u32) -> Result<(), NoMemory> {
        self.count(kernel, self.left - 1)
    }

    fn has_job(&mut self, _alloc: Global, _kernel: Kernel) -> Result<bool, NoMemory> {
        Ok(self.left % 2 == 1)
    }

    fn begin_burst(&mut self, _alloc: Global, _kernel: Kernel) -> Result<Option<u32>, NoMemory> {
        if self.left % 2 == 0 {
            return Ok(None);
        }
        match self.out.checked_add(1) {
            Some(out) => {
                self.out = out;
                Ok(Some(self.left))
            }
            None => {
                self.closed = true;
                Err(NoMemory)
            }
        }
    }

    fn run_job(job: u32) -> Counted {
        Counted {
            from: job,
            to: job.saturating_sub(1),
        }
    }

    fn end_burst(
        &mut self,
        _alloc: Global,
        kernel: Kernel,
        burst: Counted,
    ) -> Result<EndBurst, NoMemory> {
        if burst.from != self.left || self.out == 0 {
            self.out = self.out.saturating_sub(1);
            return Ok(EndBurst::Stale);
        }
        self.count(kernel, burst.to)?;
        self.out -= 1;
        Ok(EndBurst::Taken)
    }

    fn finish(&mut self, _alloc: Global) -> Finish {
        if self.closed {
            Finish::OutOfMemory
        } else if self.left == 0 {
            Finish::AllEnded
        } else {
            Finish::Running
        }
    }
}
