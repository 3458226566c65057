ghost use Rattle.std.proofs.Common.{ap};
ghost use Rattle.std.specs.Prelude.{◌≡◌, ℕ, refl, replicate, slice_index};
ghost use Rattle.link_plan.specs.Counts.{IsAsked, Stay};
ghost use Rattle.link_plan.specs.PairLaws.{pair_both_ways};
ghost use Rattle.link_plan.specs.PlanCounts.{pair, raised_at};
ghost use Rattle.link_plan.specs.declared.plan.Fate.TheVariants.{Once};

use crate::counts::{Counts, pair, raise};
use crate::link::Link;
use crate::plan::{Fate, Plan};
use sprite_ids::{Kernel, NoMemory};
use std::alloc::Global;
use std::marker::Model;

/// A link on which every packet arrives once, whatever the plan.
#[derive(Debug, Drop)]
pub struct PerfectLink {
    asked: Counts,
}

impl Model for PerfectLink {
    ghost use Rattle.std.specs.Prelude.{List, ℕ};

    ghost Value = { List ℕ };

    ghost view = { λ link. link.asked };
}

impl PerfectLink {
    /// A link whose counts are 0. It takes no memory.
    pub fn new() -> PerfectLink
        ensures { result ≡ replicate 256 0 }
    {
        PerfectLink { asked: [0; 256] }
    }
}

impl Link for PerfectLink {
    ghost faults = { λ asked a b. 0 };

    ghost asked = { λ asked a b. slice_index asked (pair a b) };

    ghost faults_both_ways = { λ asked a b. refl };

    ghost asked_both_ways = { λ asked a b. ap (slice_index asked) (pair_both_ways a b) };

    fn load(&mut self, _alloc: Global, _plan: &Plan) -> Result<(), NoMemory>
        ensures { self.new ≡ self.old }
    {
        Ok(())
    }

    fn fate(&mut self, from: Kernel, to: Kernel) -> Fate
        ensures asked { IsAsked (λ a b. 0) (λ a b. slice_index self.old (pair a b)) (λ a b. 0) (λ a b. slice_index self.new (pair a b)) from to result }
        ensures fate { result ≡ Once }
        ensures counts { self.new ≡ raised_at self.old (pair from to) }
    {
        raise(&mut self.asked, pair(from, to));
        Fate::Once
    }

    fn faults(&self, _a: Kernel, _b: Kernel) -> u64 {
        0
    }

    fn asked(&self, a: Kernel, b: Kernel) -> u64 {
        self.asked[pair(a, b)]
    }
}
