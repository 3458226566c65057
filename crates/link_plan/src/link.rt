ghost use Rattle.std.specs.Prelude.{◌≡◌, ℕ};
ghost use Rattle.link_plan.specs.Counts.{IsAsked, Stay};

use crate::plan::{Fate, Plan};
use sprite_ids::{Kernel, NoMemory};
use std::alloc::Global;

/// What carries packets between kernels, and may lose, double or delay them (this project).
///
/// Contracts know two counts for each pair of kernels, whichever of the two is named first: its `faults`, and how often
/// the link was `asked` about a packet between the two. Neither falls.
pub trait Link {
    ghost faults: { Self → ℕ → ℕ → ℕ };

    ghost asked: { Self → ℕ → ℕ → ℕ };

    /// Takes the faults that it is to make from now on. It changes no count. The one error is want of memory, after which
    /// the link goes on by the plan that it had.
    fn load(&mut self, alloc: Global, plan: &Plan) -> Result<(), NoMemory>
        ensures { Stay (faults self.old) (asked self.old) (faults self.new) (asked self.new) };

    /// What becomes of the next packet from one kernel to another. A fate other than `Once` comes only where that pair's
    /// count of faults rose in this call. The pair's count of asking rises by one, or stands at `u64::MAX`; the counts of
    /// every other pair stay.
    fn fate(&mut self, from: Kernel, to: Kernel) -> Fate
        ensures { IsAsked (faults self.old) (asked self.old) (faults self.new) (asked self.new) from to result };

    /// How many packets between the two met a fate other than `Once`.
    fn faults(&self, a: Kernel, b: Kernel) -> u64
        ensures { result ≡ faults self.now a b };

    /// How often `fate` was called about the two.
    fn asked(&self, a: Kernel, b: Kernel) -> u64
        ensures { result ≡ asked self.now a b };

    ghost faults_both_ways: { (link : Self) (a b : ℕ) → faults link a b ≡ faults link b a };

    ghost asked_both_ways: { (link : Self) (a b : ℕ) → asked link a b ≡ asked link b a };
}
