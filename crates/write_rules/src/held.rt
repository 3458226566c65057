ghost use Rattle.std.specs.Prelude.{◌≡◌, ◌+◌, ◌-◌, [], IfOk, OnOk};
ghost use Rattle.write_rules.specs.Held.{Cleans, HeldOn, Puts, PutsMark, Takes, cleaned, counts_at, dirtied, dirty_one, file_counts, held_one, is_pressed_in, state_by, state_in};

use indexmap::{IndexMap, IndexSet};
use sprite_ids::{CallKind, Kernel, NoMemory};
use std::alloc::Global;
use trace_rules::{BlockAt, FileAt, StampAt, block_at, stamp_at};
use unix_calls::{Description, Event, Rec};

/// How many blocks a kernel holds, and how many of them are dirty (this project).
#[derive(Clone, Copy, Debug, PartialEq, Eq)]
pub(crate) struct Counts {
    pub(crate) held: u64,
    pub(crate) dirty: u64,
}

/// How often a kernel took a recall of a file, and how many blocks of it are dirty there (this project).
#[derive(Clone, Copy, Debug, PartialEq, Eq)]
pub(crate) struct FileCounts {
    pub(crate) recalls: u64,
    pub(crate) dirty: u64,
}

/// How a kernel holds a block (this project).
#[derive(Clone, Copy, Debug, PartialEq, Eq)]
pub(crate) enum State {
    Absent,
    Clean,
    Dirty,
}

/// The blocks that the kernels hold so far, and the recalls that went out to them (this project).
///
/// A clean block has the mark 0. One that is made dirty gets one more than the number of recalls of its file that its kernel took
/// before, so a further recall makes all blocks of the file clean at once.
#[derive(Drop)]
pub(crate) struct Held {
    pub(crate) blocks: IndexMap<BlockAt, u64>,
    pub(crate) files: IndexMap<FileAt, FileCounts>,
    pub(crate) kernels: IndexMap<Kernel, Counts>,
    pub(crate) recalled: IndexSet<StampAt>,
}

impl Held {
    /// None.
    pub(crate) fn new(alloc: Global) -> Held
        ensures blocks { result.blocks.entries ≡ [] }
        ensures files { result.files.entries ≡ [] }
        ensures kernels { result.kernels.entries ≡ [] }
        ensures recalled { result.recalled.keys ≡ [] }
    {
        Held {
            blocks: IndexMap::new(alloc),
            files: IndexMap::new(alloc),
            kernels: IndexMap::new(alloc),
            recalled: IndexSet::new(alloc),
        }
    }
}

/// Keeps what the next record tells. The one error is want of memory; a part may be kept then.
pub(crate) fn hold_on(held: &mut Held, rec: &Rec) -> Result<(), NoMemory>
    ensures { OnOk result (HeldOn rec.now held.old held.new) }
{
    let kernel = rec.kernel;
    match &rec.event {
        Event::Filled { file, block } => { put(held, &block_at(kernel, file, block), State::Clean) }
        Event::Dropped { file, block, .. } => {
            put(held, &block_at(kernel, file, block), State::Absent)
        }
        Event::Dirtied { file, block } => make_dirty(held, &block_at(kernel, file, block)),
        Event::WroteBack { file, block } => make_clean(held, &block_at(kernel, file, block)),
        Event::Callback {
            file,
            to,
            stamp,
            kind: CallKind::Recall,
        } => {
            held.recalled.insert(stamp_at(*to, file, *stamp))?;
            Ok(())
        }
        Event::Mode { file, stamp, .. } => take(held, &stamp_at(kernel, file, *stamp)),
        _ => Ok(()),
    }
}

/// The counts of a kernel.
pub(crate) fn counts_at(kernels: &IndexMap<Kernel, Counts>, kernel: Kernel) -> Counts
    ensures { result ≡ counts_at kernels.now.entries kernel }
{
    match kernels.get(&kernel) {
        Some(counts) => *counts,
        None => Counts { held: 0, dirty: 0 },
    }
}

/// Whether a cache with these counts is full, with at most four clean blocks in it.
pub(crate) fn is_pressed(c: &Description, counts: Counts) -> bool
    ensures { result ≡ is_pressed_in c.now counts }
{
    counts.held == u64::from(c.cache) && counts.held.saturating_sub(counts.dirty) <= 4
}

// The counts of a file at a kernel.
fn file_counts(files: &IndexMap<FileAt, FileCounts>, at: &FileAt) -> FileCounts
    ensures { result ≡ file_counts files.now.entries at.now }
{
    match files.get(at) {
        Some(counts) => *counts,
        None => FileCounts {
            recalls: 0,
            dirty: 0,
        },
    }
}

// How a block with that mark is held.
fn state_by(mark: Option<u64>, recalls: u64) -> State
    ensures { result ≡ state_by mark recalls }
{
    match mark {
        Some(mark) => if recalls < mark {
            State::Dirty
        } else {
            State::Clean
        },
        None => State::Absent,
    }
}

// How a block is held.
fn state_of(held: &Held, at: &BlockAt) -> State
    ensures { result ≡ state_in held.now.blocks.entries held.now.files.entries at.now }
{
    let file = FileAt {
        kernel: at.kernel,
        file: at.file,
    };
    state_by(
        held.blocks.get(at).copied(),
        file_counts(&held.files, &file).recalls,
    )
}

// A block that is held is dirty now.
fn make_dirty(held: &mut Held, at: &BlockAt) -> Result<(), NoMemory>
    ensures { OnOk result (Puts at.now (dirtied (state_in held.old.blocks.entries held.old.files.entries at.now)) held.old held.new) }
{
    match state_of(held, at) {
        State::Absent => put(held, at, State::Absent),
        State::Clean => put(held, at, State::Dirty),
        State::Dirty => put(held, at, State::Dirty),
    }
}

// It is clean.
fn make_clean(held: &mut Held, at: &BlockAt) -> Result<(), NoMemory>
    ensures { OnOk result (Puts at.now (cleaned (state_in held.old.blocks.entries held.old.files.entries at.now)) held.old held.new) }
{
    match state_of(held, at) {
        State::Absent => put(held, at, State::Absent),
        State::Clean => put(held, at, State::Clean),
        State::Dirty => put(held, at, State::Clean),
    }
}

// What a block in a state adds to the blocks that are held, and to those that are dirty.
fn held_one(state: State) -> u64
    ensures { result ≡ held_one state }
{
    match state {
        State::Absent => 0,
        State::Clean => 1,
        State::Dirty => 1,
    }
}

fn dirty_one(state: State) -> u64
    ensures { result ≡ dirty_one state }
{
    match state {
        State::Absent => 0,
        State::Clean => 0,
        State::Dirty => 1,
    }
}

// A count with some more and some less. The one error is that it passes 2^64, which it does of no trace.
fn moved(count: u64, more: u64, less: u64) -> Result<u64, NoMemory>
    ensures { IfOk result (λ next. next ≡ (count + more) - less) }
{
    let sum = count.checked_add(more).ok_or(NoMemory)?;
    Ok(sum.saturating_sub(less))
}

// One block's state is another.
fn put(held: &mut Held, at: &BlockAt, next: State) -> Result<(), NoMemory>
    ensures { OnOk result (Puts at.now next held.old held.new) }
{
    let was = state_of(held, at);
    let file = FileAt {
        kernel: at.kernel,
        file: at.file,
    };
    let used = file_counts(&held.files, &file);
    let counts = counts_at(&held.kernels, at.kernel);
    let dirty = moved(used.dirty, dirty_one(next), dirty_one(was))?;
    let all_held = moved(counts.held, held_one(next), held_one(was))?;
    let all_dirty = moved(counts.dirty, dirty_one(next), dirty_one(was))?;
    put_mark(&mut held.blocks, at, next, used.recalls)?;
    held.files.insert(
        file,
        FileCounts {
            recalls: used.recalls,
            dirty,
        },
    )?;
    held.kernels.insert(
        at.kernel,
        Counts {
            held: all_held,
            dirty: all_dirty,
        },
    )?;
    Ok(())
}

// The mark of that block is the one of that state.
fn put_mark(
    blocks: &mut IndexMap<BlockAt, u64>,
    at: &BlockAt,
    next: State,
    recalls: u64,
) -> Result<(), NoMemory>
    ensures { OnOk result (PutsMark at.now next recalls blocks.old.entries blocks.new.entries) }
{
    match next {
        State::Absent => {
            blocks.swap_remove(at);
        }
        State::Clean => {
            blocks.insert(*at, 0)?;
        }
        State::Dirty => {
            blocks.insert(*at, moved(recalls, 1, 0)?)?;
        }
    }
    Ok(())
}

// A kernel takes a stamp; where a recall has it, the file's blocks are clean there.
fn take(held: &mut Held, at: &StampAt) -> Result<(), NoMemory>
    ensures { OnOk result (Takes at.now held.old held.new) }
{
    if !held.recalled.contains(at) {
        return Ok(());
    }
    clean(
        held,
        &FileAt {
            kernel: at.kernel,
            file: at.file,
        },
    )
}

// All blocks of a file at a kernel are clean.
fn clean(held: &mut Held, at: &FileAt) -> Result<(), NoMemory>
    ensures { OnOk result (Cleans at.now held.old held.new) }
{
    let used = file_counts(&held.files, at);
    let counts = counts_at(&held.kernels, at.kernel);
    let recalls = moved(used.recalls, 1, 0)?;
    let dirty = counts.dirty.saturating_sub(used.dirty);
    held.files.insert(*at, FileCounts { recalls, dirty: 0 })?;
    held.kernels.insert(
        at.kernel,
        Counts {
            held: counts.held,
            dirty,
        },
    )?;
    Ok(())
}
