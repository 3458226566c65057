ghost use Rattle.std.specs.Prelude.{◌≡◌, nat_le, IfOk, OnOk};
ghost use Rattle.call_journal.specs.Matching.{is_any_fetch};
ghost use Rattle.call_journal.specs.WorthCaches.{is_any_dirtied, is_any_filled, is_motive};
ghost use Rattle.cache_worth.specs.Counts.{CountsOn, TellsCounts, are_few_in, counts_at, is_few, one_more};
ghost use Rattle.cache_worth.specs.Parts.{blocks_move_moderately};

use indexmap::IndexMap;
use sprite_ids::{Kernel, NoMemory};
use std::alloc::Global;
use trace_counts::added;
use unix_calls::{Event, Rec, SendKind};

/// Whether at each kernel of the trace blocks are fetched, come in and are made dirty at most five times for each issue and each
/// stamp that it took (this project). The one error is want of memory.
pub fn blocks_move_moderately(alloc: Global, trace: &[Rec]) -> Result<bool, NoMemory>
    ensures { IfOk result (λ kept. kept ≡ blocks_move_moderately trace.now) }
{
    let counts = counted(alloc, trace)?;
    Ok(are_moderate(&counts, trace))
}

/// How often a kernel fetched a block, had one come in and made one dirty, and how often it came to a call or took a stamp (this
/// project).
#[derive(Clone, Copy, Debug, PartialEq, Eq)]
pub(crate) struct Counts {
    pub(crate) fetched: u64,
    pub(crate) filled: u64,
    pub(crate) dirtied: u64,
    pub(crate) motives: u64,
}

// The counts of all kernels.
fn counted(alloc: Global, trace: &[Rec]) -> Result<IndexMap<Kernel, Counts>, NoMemory>
    ensures { IfOk result (λ counts. TellsCounts counts.entries trace.now) }
{
    let mut counts = IndexMap::new(alloc);
    for rec in trace {
        count(&mut counts, rec)?;
    }
    Ok(counts)
}

// Counts the next record.
fn count(counts: &mut IndexMap<Kernel, Counts>, rec: &Rec) -> Result<(), NoMemory>
    ensures { OnOk result (CountsOn rec.now counts.old.entries counts.new.entries) }
{
    let next = with_one(counts_at(counts, rec.kernel), &rec.event)?;
    counts.insert(rec.kernel, next)?;
    Ok(())
}

// Those counts, and one event more.
fn with_one(counts: Counts, event: &Event) -> Result<Counts, NoMemory>
    ensures { IfOk result (λ next. next ≡ one_more event.now counts) }
{
    Ok(Counts {
        fetched: added(counts.fetched, is_any_fetch(event))?,
        filled: added(counts.filled, is_any_filled(event))?,
        dirtied: added(counts.dirtied, is_any_dirtied(event))?,
        motives: added(counts.motives, is_motive(event))?,
    })
}

// The counts of a kernel.
fn counts_at(counts: &IndexMap<Kernel, Counts>, kernel: Kernel) -> Counts
    ensures { result ≡ counts_at counts.now.entries kernel }
{
    match counts.get(&kernel) {
        Some(found) => *found,
        None => Counts {
            fetched: 0,
            filled: 0,
            dirtied: 0,
            motives: 0,
        },
    }
}

fn is_any_fetch(event: &Event) -> bool
    ensures { result ≡ is_any_fetch event.now }
{
    match event {
        Event::Send {
            kind: SendKind::Fetch { .. },
            ..
        } => true,
        _ => false,
    }
}

fn is_any_filled(event: &Event) -> bool
    ensures { result ≡ is_any_filled event.now }
{
    match event {
        Event::Filled { .. } => true,
        _ => false,
    }
}

fn is_any_dirtied(event: &Event) -> bool
    ensures { result ≡ is_any_dirtied event.now }
{
    match event {
        Event::Dirtied { .. } => true,
        _ => false,
    }
}

fn is_motive(event: &Event) -> bool
    ensures { result ≡ is_motive event.now }
{
    match event {
        Event::Issue { .. } => true,
        Event::Mode { .. } => true,
        _ => false,
    }
}

// Whether blocks move moderately, by the counts of all kernels.
fn are_moderate(counts: &IndexMap<Kernel, Counts>, trace: &[Rec]) -> bool
    requires { TellsCounts counts.now.entries trace.now }
    ensures { result ≡ blocks_move_moderately trace.now }
{
    are_few(counts, trace)
}

// Whether at the kernels of all records blocks moved seldom enough.
fn are_few(counts: &IndexMap<Kernel, Counts>, trace: &[Rec]) -> bool
    ensures { result ≡ are_few_in counts.now.entries trace.now }
{
    trace.iter().all(|rec| is_few_at(counts, rec))
}

fn is_few_at(counts: &IndexMap<Kernel, Counts>, rec: &Rec) -> bool
    ensures { result ≡ is_few (counts_at counts.now.entries rec.now.kernel) }
{
    is_few(counts_at(counts, rec.kernel))
}

// Whether blocks moved at most five times for each motive.
fn is_few(counts: Counts) -> bool
    ensures { result ≡ is_few counts }
{
    let most = 5 * u128::from(counts.motives);
    is_at_most(counts.fetched, most)
        && is_at_most(counts.filled, most)
        && is_at_most(counts.dirtied, most)
}

fn is_at_most(count: u64, most: u128) -> bool
    ensures { result ≡ nat_le count most }
{
    u128::from(count) <= most
}
