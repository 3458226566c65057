ghost use Rattle.std.specs.Prelude.{◌≡◌, ◌+◌, [], IfOk, OnOk};
ghost use Rattle.trace_rules.specs.Places.{file_of};
ghost use Rattle.cache_worth.specs.Since.{StepsOn, has_begun, has_changed, mark_at, takes_at};

use indexmap::{IndexMap, IndexSet};
use sprite_ids::NoMemory;
use std::alloc::Global;
use trace_rules::{BlockAt, FileAt};

/// What a record does to what is kept of blocks (this project).
#[derive(Clone, Copy)]
pub(crate) enum Step {
    /// What happens to that block is looked for from here on.
    Begins(BlockAt),
    /// It happens to that block.
    Changes(BlockAt),
    /// It happens to all blocks of that file, at that kernel.
    Takes(FileAt),
    /// Nothing.
    Rests,
}

/// What happened to each block since the last place of a kind (this project).
#[derive(Drop)]
pub(crate) struct Since {
    /// How often it happened to all blocks of a file so far.
    pub(crate) takes: IndexMap<FileAt, u64>,
    /// The same, where the block's last place of that kind stood.
    pub(crate) marks: IndexMap<BlockAt, u64>,
    /// The blocks to which it happened, each by itself, since then.
    pub(crate) changed: IndexSet<BlockAt>,
}

impl Since {
    /// Nothing so far.
    pub(crate) fn new(alloc: Global) -> Since
        ensures takes { result.takes.entries ≡ [] }
        ensures marks { result.marks.entries ≡ [] }
        ensures changed { result.changed.keys ≡ [] }
    {
        Since {
            takes: IndexMap::new(alloc),
            marks: IndexMap::new(alloc),
            changed: IndexSet::new(alloc),
        }
    }

    /// Whether there was a place of that kind.
    pub(crate) fn has_begun(&self, at: &BlockAt) -> bool
        ensures { result ≡ has_begun self.now at.now }
    {
        match self.marks.get(at) {
            Some(_) => true,
            None => false,
        }
    }

    /// Whether it happened to the block since the last such place, or ever where there is none.
    pub(crate) fn has_changed(&self, at: &BlockAt) -> bool
        ensures { result ≡ has_changed self.now at.now }
    {
        let takes = takes_of(&self.takes, &file_of(at));
        self.changed.contains(at) || takes.saturating_sub(mark_of(&self.marks, at)) >= 1
    }

    /// Keeps what the next record tells. The one error is want of memory; a part may be kept then.
    pub(crate) fn go_on(&mut self, step: &Step) -> Result<(), NoMemory>
        ensures { OnOk result (StepsOn step.now self.old self.new) }
    {
        match step {
            Step::Begins(at) => {
                let takes = takes_of(&self.takes, &file_of(at));
                self.marks.insert(*at, takes)?;
                self.changed.swap_remove(at);
            }
            Step::Changes(at) => {
                self.changed.insert(*at)?;
            }
            Step::Takes(file) => {
                let takes = takes_of(&self.takes, file);
                self.takes.insert(*file, one_more(takes)?)?;
            }
            Step::Rests => {}
        }
        Ok(())
    }
}

// The file of a block, at its kernel.
fn file_of(at: &BlockAt) -> FileAt
    ensures { result ≡ file_of at.now }
{
    FileAt {
        kernel: at.kernel,
        file: at.file,
    }
}

// How often it happened to all blocks of the file.
fn takes_of(takes: &IndexMap<FileAt, u64>, file: &FileAt) -> u64
    ensures { result ≡ takes_at takes.now.entries file.now }
{
    match takes.get(file) {
        Some(count) => *count,
        None => 0,
    }
}

// The same, where the block's last place stood; 0 where there is none.
fn mark_of(marks: &IndexMap<BlockAt, u64>, at: &BlockAt) -> u64
    ensures { result ≡ mark_at marks.now.entries at.now }
{
    match marks.get(at) {
        Some(count) => *count,
        None => 0,
    }
}

/// One more. The one error is that there were 2^64, which no trace has.
pub(crate) fn one_more(count: u64) -> Result<u64, NoMemory>
    ensures { IfOk result (λ next. next ≡ count + 1) }
{
    count.checked_add(1).ok_or(NoMemory)
}
