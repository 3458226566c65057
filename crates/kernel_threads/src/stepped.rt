ghost use Rattle.std.specs.Prelude.{◌≡◌, ◌≢◌, ◌<◌, ◌≤◌, ◌+◌, Ok, OnErr, OnOk, IfNone, IfOk, IfSome, length, slice_get};
ghost use Rattle.std.specs.Option.{is_some};
ghost use Rattle.kernel_threads.specs.Steps.{Adds, Closes, IsAmong, MayMove, Stays};

use sprite_ids::{Finish, Kernel, NoMemory};
use std::alloc::Global;
use turn_gate::Book;

/// What became of a burst (this project).
#[derive(Clone, Copy, Debug, PartialEq, Eq)]
pub enum EndBurst {
    /// The process has done it.
    Taken,
    /// The process isn't any more what it was when the burst began: the burst is lost.
    Stale,
}

/// A value of several kernels that goes on by steps, one kernel's at a time, until it is over (this project). An item of its log
/// stands with the number of the kernel whose step added it.
///
/// Only a step and a burst that is taken add to the log. After want of memory in a call the value isn't `Running` any more.
pub trait Stepped: Book {
    ghost use Rattle.std.specs.Prelude.{ℕ, Bool, List};
    ghost use Rattle.sprite_ids.specs.declared.Finish.{Finish};

    /// What may happen next at a kernel, apart from its processes.
    type Choice: Copy;

    /// Instructions that a process is to do.
    type Job;

    /// The same, done.
    type Burst: Drop;

    // The number of its kernels, which the origin fixes.
    ghost kernels: { Self.Origin → ℕ };

    // How it stands.
    ghost finish_of: { Self → Finish };

    // The choices of a kernel.
    ghost choices_at: { Self → ℕ → List Self.Choice };

    // Whether a process of the kernel can run.
    ghost has_job_at: { Self → ℕ → Bool };

    // How many bursts are out.
    ghost out: { Self → ℕ };

    // A burst is a job that was done.
    ghost is_done: { Self.Job → Self.Burst → Type 0 };

    // A burst may end at a value of that origin.
    ghost may_end: { Self.Origin → Self.Burst → Type 0 };

    // A burst of the kernel would be taken now.
    ghost counts: { Self → ℕ → Self.Burst → Type 0 };

    /// How much may happen next at the kernel, apart from its processes.
    fn choice_count(&self, kernel: Kernel) -> u64
        requires { Self.holds self.now }
        ensures { result ≡ length (choices_at self.now kernel) };

    /// What may happen next at the kernel, apart from its processes, at that place; None exactly where there is nothing at that place.
    fn choice(&self, kernel: Kernel, place: u64) -> Option<Self::Choice>
        requires { Self.holds self.now }
        ensures { result ≡ slice_get (choices_at self.now kernel) place };

    /// The choice, one of the kernel's, happens. The one error is want of memory.
    fn step(&mut self, alloc: Global, kernel: Kernel, choice: Self::Choice) -> Result<(), NoMemory>
        requires holds { Self.holds self.old }
        requires running { finish_of self.old ≡ Finish.Running }
        requires among { IsAmong choice (choices_at self.old kernel) }
        ensures ok { OnOk result (Adds Self.origin Self.log Self.holds kernel self.old self.new) }
        ensures out { OnOk result (out self.new ≡ out self.old) }
        ensures err { OnErr result (Closes Self.origin Self.log Self.holds finish_of self.old self.new) };

    /// Whether a process of the kernel can run. The one error is want of memory.
    fn has_job(&mut self, alloc: Global, kernel: Kernel) -> Result<bool, NoMemory>
        requires holds { Self.holds self.old }
        requires running { finish_of self.old ≡ Finish.Running }
        ensures has { IfOk result (λ has. has ≡ has_job_at self.old kernel) }
        ensures ok { OnOk result (self.new ≡ self.old) }
        ensures err { OnErr result (Closes Self.origin Self.log Self.holds finish_of self.old self.new) };

    /// The job of the process of the kernel whose turn it is; None exactly where none can run. From now on its burst is out, and
    /// as long as no other call is made it would be taken. The one error is want of memory.
    fn begin_burst(&mut self, alloc: Global, kernel: Kernel) -> Result<Option<Self::Job>, NoMemory>
        requires holds { Self.holds self.old }
        requires running { finish_of self.old ≡ Finish.Running }
        ensures has { IfOk result (λ job. is_some job ≡ has_job_at self.old kernel) }
        ensures ok { OnOk result (Stays Self.origin Self.log Self.holds self.old self.new) }
        ensures some { IfOk result (λ job. IfSome job (λ _. out self.new ≡ out self.old + 1)) }
        ensures none { IfOk result (λ job. IfNone job (out self.new ≡ out self.old)) }
        ensures may_end { IfOk result (λ job. IfSome job (λ j. (b : _) → is_done j b → may_end (Self.origin self.new) b)) }
        ensures counts { IfOk result (λ job. IfSome job (λ j. (b : _) → is_done j b → counts self.new kernel b)) }
        ensures err { OnErr result (Closes Self.origin Self.log Self.holds finish_of self.old self.new) };

    /// Does the instructions of the job. It takes no memory, and no turn.
    fn run_job(job: Self::Job) -> Self::Burst
        ensures { is_done job result };

    /// A burst of the kernel ends. It is taken where no other call was made since the one that began it. The one error is want of
    /// memory.
    fn end_burst(
        &mut self,
        alloc: Global,
        kernel: Kernel,
        burst: Self::Burst,
    ) -> Result<EndBurst, NoMemory>
        requires holds { Self.holds self.old }
        requires running { finish_of self.old ≡ Finish.Running }
        requires may_end { may_end (Self.origin self.old) burst }
        ensures counts { counts self.old kernel burst → IfOk result (λ end. end ≡ EndBurst.Taken) }
        ensures taken { result ≡ Ok EndBurst.Taken → Adds Self.origin Self.log Self.holds kernel self.old self.new × (out self.new + 1 ≡ out self.old) }
        ensures stale { result ≡ Ok EndBurst.Stale → Stays Self.origin Self.log Self.holds self.old self.new × (out self.new ≤ out self.old) × (out self.old ≤ out self.new + 1) }
        ensures err { OnErr result (Closes Self.origin Self.log Self.holds finish_of self.old self.new) };

    /// How it stands. It is `Running` only with fewer than 4,000,000 items in its log, and only where a burst is out or one of the
    /// kernels has a choice or a process that can run. It is `OutOfMemory` from now on where memory is wanting to find that out;
    /// else nothing changes.
    fn finish(&mut self, alloc: Global) -> Finish
        requires { Self.holds self.old }
        ensures stands { result ≡ finish_of self.new }
        ensures same { result ≢ Finish.OutOfMemory → self.new ≡ self.old }
        ensures stays { Stays Self.origin Self.log Self.holds self.old self.new }
        ensures bounded { result ≡ Finish.Running → length (Self.log self.new) < 4000000 }
        ensures moves { result ≡ Finish.Running → out self.new ≡ 0 → MayMove (choices_at self.new) (has_job_at self.new) (kernels (Self.origin self.new)) };
}
