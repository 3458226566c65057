ghost use Rattle.std.specs.Prelude.{◌≡◌, IfOk, OnOk};
ghost use Rattle.call_journal.specs.PrefixBroadcasts.{broadcasts_well, prefixes_are_broadcast_until_learned};
ghost use Rattle.trace_rules.specs.Learned.{LearnsOn, TellsLearned, is_new_broadcast};
ghost use Rattle.trace_rules.specs.LearnedLaws.{learned_told, learns_on};

use crate::judging::{LooksBack, each_keeps};
use crate::learned::{Learned, is_new_prefix, keep_learned};
use indexmap::IndexSet;
use sprite_ids::NoMemory;
use std::alloc::Global;
use unix_calls::{Description, Event, Rec, SendKind};

/// Whether a kernel of the trace asks for a prefix by broadcast only until it learns the prefix's server (Welch and Ousterhout
/// 1986). The one error is want of memory.
pub fn prefixes_are_broadcast_until_learned(
    alloc: Global,
    c: &Description,
    trace: &[Rec],
) -> Result<bool, NoMemory>
    ensures { IfOk result (λ kept. kept ≡ prefixes_are_broadcast_until_learned c.now trace.now) }
{
    let mut judge = Broadcasts {
        learned: IndexSet::new(alloc),
    };
    each_keeps(alloc, c, &mut judge, trace)
}

/// The prefixes that the kernels have learned so far (this project).
#[derive(Drop)]
pub(crate) struct Broadcasts {
    pub(crate) learned: IndexSet<Learned>,
}

impl LooksBack for Broadcasts {
    ghost test = { λ c past rec. broadcasts_well past rec.kernel rec.event };

    ghost tells = { λ judge past. TellsLearned judge.learned.keys past.records };

    ghost fits = { λ c judge rec. is_new_broadcast judge.learned.keys rec.kernel rec.event };

    ghost goes_on = { λ rec old new. LearnsOn rec old.learned.keys new.learned.keys };

    fn fits(&self, alloc: Global, _c: &Description, rec: &Rec) -> Result<bool, NoMemory> {
        match &rec.event {
            Event::Send {
                kind: SendKind::Broadcast { prefix },
                ..
            } => is_new_prefix(alloc, &self.learned, rec.kernel, prefix),
            _ => Ok(true),
        }
    }

    fn go_on(&mut self, alloc: Global, rec: &Rec) -> Result<(), NoMemory> {
        keep_learned(alloc, &mut self.learned, rec)
    }

    ghost is_told = { learned_told };

    ghost tells_on = { learns_on };
}
