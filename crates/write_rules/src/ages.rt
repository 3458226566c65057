ghost use Rattle.std.specs.Prelude.{◌≡◌, ◌+◌, IfOk, OnOk};
ghost use Rattle.write_rules.specs.Ages.{AgesOn, is_old_in, steps_at};

use indexmap::IndexMap;
use sprite_ids::{Kernel, NoMemory};
use trace_rules::BlockAt;
use unix_calls::{Event, Rec};

/// How many steps each kernel made so far that count for a block's age, and how many it had made where a block was last made dirty
/// (this project).
#[derive(Drop)]
pub(crate) struct Ages {
    pub(crate) steps: IndexMap<Kernel, u64>,
    pub(crate) dirtied: IndexMap<BlockAt, u64>,
}

impl Ages {
    /// Whether the block was made dirty thirty counted steps of its kernel ago, or longer.
    pub(crate) fn is_old(&self, at: BlockAt) -> bool
        ensures { result ≡ is_old_in self.now.steps.entries self.now.dirtied.entries at }
    {
        match self.dirtied.get(&at) {
            Some(then) => steps_of(&self.steps, at.kernel).saturating_sub(*then) >= 30,
            None => false,
        }
    }

    /// Keeps what the next record tells. The one error is want of memory; a part may be kept then.
    pub(crate) fn go_on(&mut self, rec: &Rec) -> Result<(), NoMemory>
        ensures { OnOk result (AgesOn rec.now self.old.steps.entries self.old.dirtied.entries self.new.steps.entries self.new.dirtied.entries) }
    {
        let count = steps_of(&self.steps, rec.kernel);
        match &rec.event {
            Event::Burst { .. } | Event::Deliver { .. } | Event::Expire { .. } => {
                self.steps.insert(rec.kernel, next_step(count)?)?;
            }
            Event::Dirtied { file, block } => {
                let at = BlockAt {
                    kernel: rec.kernel,
                    file: *file,
                    block: *block,
                };
                self.dirtied.insert(at, count)?;
            }
            _ => {}
        }
        Ok(())
    }
}

// How many steps of the kernel were counted.
fn steps_of(steps: &IndexMap<Kernel, u64>, kernel: Kernel) -> u64
    ensures { result ≡ steps_at steps.now.entries kernel }
{
    match steps.get(&kernel) {
        Some(count) => *count,
        None => 0,
    }
}

// One step more. The one error is that there were 2^64, which no trace has.
fn next_step(count: u64) -> Result<u64, NoMemory>
    ensures { IfOk result (λ next. next ≡ count + 1) }
{
    count.checked_add(1).ok_or(NoMemory)
}
