use sprite_ids::{Copying, Items, Kernel, NoMemory};
use std::alloc::Global;

/// What becomes of a packet.
#[derive(Clone, Copy, Debug, PartialEq, Eq, Hash)]
pub enum Fate {
    /// One copy arrives.
    Once,
    /// No copy arrives.
    Lost,
    /// Two copies arrive.
    Twice,
    /// One copy arrives, behind every copy for its receiver that isn't late.
    Late,
}

impl Copying for Fate {
    fn copy(&self, _alloc: Global) -> Result<Fate, NoMemory> {
        Ok(*self)
    }
}

/// A fault that the link is to make: of the packets from one kernel to another, counted from 1, those with the numbers
/// `first`, `first + every`, and so on, `count` of them, meet the fate.
#[derive(Clone, Copy, Debug, PartialEq, Eq)]
pub struct PlanEntry {
    /// The sender; None is any kernel.
    pub from: Option<Kernel>,
    /// The receiver; None is any kernel.
    pub to: Option<Kernel>,
    /// At least 1.
    pub first: u32,
    /// At least 1.
    pub every: u32,
    /// At least 1.
    pub count: u32,
    pub fate: Fate,
}

impl Copying for PlanEntry {
    fn copy(&self, _alloc: Global) -> Result<PlanEntry, NoMemory> {
        Ok(*self)
    }
}

/// The faults that the link is to make. A packet's fate is that of the first entry that it meets; a packet that meets none
/// arrives once.
#[derive(Debug, PartialEq, Eq, Drop)]
pub struct Plan {
    pub entries: Items<PlanEntry>,
}

impl Copying for Plan {
    fn copy(&self, alloc: Global) -> Result<Plan, NoMemory> {
        Ok(Plan {
            entries: self.entries.copy(alloc)?,
        })
    }
}
