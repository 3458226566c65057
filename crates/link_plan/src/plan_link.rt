ghost use Rattle.std.proofs.Common.{ap};
ghost use Rattle.std.specs.Prelude.{◌≡◌, ℕ, [], replicate, slice_index, OnOk, OnErr};
ghost use Rattle.link_plan.specs.Counts.{IsAsked, Stay};
ghost use Rattle.link_plan.specs.PairLaws.{pair_both_ways};
ghost use Rattle.link_plan.specs.PlanCounts.{PlanCounts, faults_of, asked_of, next_fate, next_number, after_packet};

use crate::counts::{Counts, pair, raise, way};
use crate::fates::{fate_in, is_fault};
use crate::link::Link;
use crate::plan::{Fate, Plan, PlanEntry};
use sprite_ids::{Copying, Items, Kernel, NoMemory};
use std::alloc::Global;
use std::marker::Model;

/// A link that makes the faults of a plan (this project).
///
/// The packets from one kernel to another are counted from 1, lost ones too. Each count stands still at `u64::MAX`; where
/// that of a pair's faults does, the pair's packets arrive once.
#[derive(Debug, Drop)]
pub struct PlanLink {
    entries: Items<PlanEntry>,
    packets: Counts,
    faults: Counts,
    asked: Counts,
}

impl Model for PlanLink {
    ghost Value = { PlanCounts };

    ghost view = { λ link. record { entries = link.entries; packets = link.packets; faults = link.faults; asked = link.asked } };
}

impl PlanLink {
    /// A link without a plan, whose counts are 0. It takes no memory, and keeps the allocator.
    pub fn new(alloc: Global) -> PlanLink
        ensures { result ≡ record { entries = []; packets = replicate 256 0; faults = replicate 256 0; asked = replicate 256 0 } }
    {
        PlanLink {
            entries: Items::new(alloc),
            packets: [0; 256],
            faults: [0; 256],
            asked: [0; 256],
        }
    }

    /// The fate of the packet of that number from one kernel to another.
    fn next_fate(&self, from: Kernel, to: Kernel) -> Fate
        ensures { result ≡ next_fate self.now from to }
    {
        if self.faults[pair(from, to)] == u64::MAX {
            return Fate::Once;
        }
        let number = self.packets[way(from, to)].saturating_add(1);
        fate_in(self.entries.as_slice(), from, to, number)
    }
}

impl Link for PlanLink {
    ghost faults = { faults_of };

    ghost asked = { asked_of };

    ghost faults_both_ways = { λ link a b. ap (slice_index link.faults) (pair_both_ways a b) };

    ghost asked_both_ways = { λ link a b. ap (slice_index link.asked) (pair_both_ways a b) };

    fn load(&mut self, alloc: Global, plan: &Plan) -> Result<(), NoMemory>
        ensures counts { Stay (faults_of self.old) (asked_of self.old) (faults_of self.new) (asked_of self.new) }
        ensures ok { OnOk result (self.new ≡ record self.old { entries = plan.now.entries }) }
        ensures err { OnErr result (self.new ≡ self.old) }
    {
        self.entries = plan.entries.copy(alloc)?;
        Ok(())
    }

    fn fate(&mut self, from: Kernel, to: Kernel) -> Fate
        ensures asked { IsAsked (faults_of self.old) (asked_of self.old) (faults_of self.new) (asked_of self.new) from to result }
        ensures fate { result ≡ next_fate self.old from to }
        ensures counts { self.new ≡ after_packet self.old from to }
    {
        let fate = self.next_fate(from, to);
        raise(&mut self.packets, way(from, to));
        raise(&mut self.asked, pair(from, to));
        if is_fault(fate) {
            raise(&mut self.faults, pair(from, to));
        }
        fate
    }

    fn faults(&self, a: Kernel, b: Kernel) -> u64 {
        self.faults[pair(a, b)]
    }

    fn asked(&self, a: Kernel, b: Kernel) -> u64 {
        self.asked[pair(a, b)]
    }
}
