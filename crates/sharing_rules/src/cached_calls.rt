ghost use Rattle.std.specs.Prelude.{◌≡◌, ◌<◌, ◌≤◌, ◌+◌, ◌-◌, ◌/◌, IfOk, OnOk, true};
ghost use Rattle.call_journal.specs.CachedCalls.{cached_calls_use_held_blocks, is_cached_call_well};
ghost use Rattle.sharing_rules.specs.Facts.{facts_of};
ghost use Rattle.trace_tables.specs.Ties.{ties_of};
ghost use Rattle.sharing_rules.specs.Cached.{CachesOn, TellsCached, are_held_in, has_held, is_on_in, is_quiet_in, is_range_held_in, is_well_cached, is_within_cache};
ghost use Rattle.sharing_rules.specs.CachedLaws.{cached_breaks, cached_ends, cached_goes_on, cached_keeps};

use crate::entry_facts::{EntryFacts, LocalUse};
use crate::judging::{Judges, each_is_paid};
use crate::keys::HeldAt;
use indexmap::{IndexMap, IndexSet};
use sprite_ids::{CacheMode, FileId, Kernel, NoMemory};
use std::alloc::Global;
use trace_rules::FileAt;
use trace_tables::{CallAt, Tied};
use unix_calls::{About, Description, Event, Rec};

/// Whether each reading, writing or asking for the size that enters with a value at its process's own kernel finds the file's mode
/// on there and the blocks of its bytes held, and no packet goes for its sake before its return (Nelson, Welch and Ousterhout
/// 1988). `ties` and `facts` tell of each record what its call goes by and what its entry does to files. The one error is want of
/// memory.
pub fn cached_calls_use_held_blocks(
    alloc: Global,
    c: &Description,
    trace: &[Rec],
    ties: &[Option<Tied>],
    facts: &[EntryFacts],
) -> Result<bool, NoMemory>
    requires tied { ties.now ≡ ties_of c.now trace.now }
    requires facts { facts.now ≡ facts_of c.now trace.now }
    ensures { IfOk result (λ kept. kept ≡ cached_calls_use_held_blocks c.now trace.now) }
{
    let mut judge = CachedCalls {
        modes: IndexMap::new(alloc),
        held: IndexSet::new(alloc),
        quiet: IndexSet::new(alloc),
    };
    each_is_paid(c, &mut judge, trace, ties, facts)
}

/// The modes that the kernels took last, the blocks that they hold, and the calls that were done in a cache and have not returned
/// so far (this project).
#[derive(Drop)]
pub(crate) struct CachedCalls {
    pub(crate) modes: IndexMap<FileAt, CacheMode>,
    pub(crate) held: IndexSet<HeldAt>,
    pub(crate) quiet: IndexSet<CallAt>,
}

impl Judges for CachedCalls {
    ghost test = { λ c past rec rest. is_cached_call_well c past rec.kernel rec.event };

    ghost tells = { λ c judge past. TellsCached c judge.modes.entries judge.held.keys judge.quiet.keys past };

    ghost owes = { λ c judge past rest. Unit {0} };

    ghost fits = { λ c judge rec tied facts. is_well_cached judge.modes.entries judge.held.keys judge.quiet.keys rec.kernel rec.event facts.local };

    ghost goes_on = { λ c rec facts old new. CachesOn rec facts.local old.modes.entries old.held.keys old.quiet.keys new.modes.entries new.held.keys new.quiet.keys };

    ghost is_paid = { λ judge. true };

    fn fits(&self, _c: &Description, rec: &Rec, _tied: &Option<Tied>, facts: &EntryFacts) -> bool {
        match &rec.event {
            Event::Enter { .. } => self.is_within_cache(rec.kernel, &facts.local),
            Event::Send { about, .. } => self.is_quiet(about),
            _ => true,
        }
    }

    fn go_on(&mut self, _c: &Description, rec: &Rec, facts: &EntryFacts) -> Result<(), NoMemory> {
        let kernel = rec.kernel;
        match &rec.event {
            Event::Mode { file, mode, .. } => {
                self.modes.insert(
                    FileAt {
                        kernel,
                        file: *file,
                    },
                    *mode,
                )?;
            }
            Event::Filled { file, block } => {
                self.held.insert(HeldAt {
                    kernel,
                    file: *file,
                    block: u64::from(block.0),
                })?;
            }
            Event::Dropped { file, block, .. } => {
                self.held.swap_remove(&HeldAt {
                    kernel,
                    file: *file,
                    block: u64::from(block.0),
                });
            }
            Event::Enter { entry } => {
                if facts.local.is_some() {
                    self.quiet.insert(CallAt {
                        pid: entry.pid,
                        number: entry.number,
                    })?;
                }
            }
            Event::Return { pid, number, .. } => {
                self.quiet.swap_remove(&CallAt {
                    pid: *pid,
                    number: *number,
                });
            }
            _ => {}
        }
        Ok(())
    }

    fn is_paid(&self) -> bool {
        true
    }

    ghost breaks = { cached_breaks };

    ghost keeps = { cached_keeps };

    ghost tells_on = { cached_goes_on };

    ghost ends = { cached_ends };
}

impl CachedCalls {
    // Whether a use at its process's kernel, if it is one, finds the mode on and its blocks held.
    fn is_within_cache(&self, kernel: Kernel, local: &Option<LocalUse>) -> bool
        ensures { result ≡ is_within_cache self.now.modes.entries self.now.held.keys kernel local.now }
    {
        match local {
            Some(used) => {
                is_on(&self.modes, kernel, used.file) && is_range_held(&self.held, kernel, used)
            }
            None => true,
        }
    }

    // Whether a packet goes for the sake of no call that was done in a cache.
    fn is_quiet(&self, about: &Option<About>) -> bool
        ensures { result ≡ is_quiet_in self.now.quiet.keys about.now }
    {
        match about {
            Some(about) => !self.quiet.contains(&CallAt {
                pid: about.pid,
                number: about.number,
            }),
            None => true,
        }
    }
}

// Whether the kernel's last mode of the file is on.
fn is_on(modes: &IndexMap<FileAt, CacheMode>, kernel: Kernel, file: FileId) -> bool
    ensures { result ≡ is_on_in modes.now.entries (record { kernel = kernel; file = file }) }
{
    match modes.get(&FileAt { kernel, file }) {
        Some(CacheMode::On) => true,
        _ => false,
    }
}

// Whether the kernel holds each block of a range.
fn is_range_held(held: &IndexSet<HeldAt>, kernel: Kernel, used: &LocalUse) -> bool
    ensures { result ≡ is_range_held_in held.now.keys kernel used.now }
{
    if used.length == 0 {
        return true;
    }
    let count = block_count(used.from, used.length);
    are_held(held, kernel, &used.file, count, used.from / 4096)
}

// How many blocks so many bytes from there on touch.
fn block_count(from: u64, length: u64) -> u64
    requires { 0 < length }
    ensures count { result ≡ (from + length - 1) / 4096 + 1 - from / 4096 }
    ensures few { result ≤ 4503599627370497 }
{
    let last = length - 1;
    last / 4096 + (last % 4096 + from % 4096) / 4096 + 1
}

// Whether the kernel holds so many blocks from that one on.
fn are_held(held: &IndexSet<HeldAt>, kernel: Kernel, file: &FileId, count: u64, first: u64) -> bool
    requires { count + first < 18446744073709551616 }
    ensures { result ≡ are_held_in held.now.keys kernel file.now count first }
{
    let mut block = first;
    let mut left = count;
    while left > 0 {
        if !is_held(held, kernel, file, block) {
            return false;
        }
        block += 1;
        left -= 1;
    }
    true
}

fn is_held(held: &IndexSet<HeldAt>, kernel: Kernel, file: &FileId, block: u64) -> bool
    ensures { result ≡ has_held held.now.keys (record { kernel = kernel; file = file.now; block = block }) }
{
    held.contains(&HeldAt {
        kernel,
        file: *file,
        block,
    })
}
