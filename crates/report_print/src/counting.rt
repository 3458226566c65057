ghost use Rattle.std.specs.Prelude.{◌≡◌, ◌++◌, IfOk, OnOk, slice_index};
ghost use Rattle.report_print.specs.Stats.{block_stats, call_stats, grant_stats, name_of, place_stats, stat_line, stats_by, stats_of};

use crate::consoles::push_decimal;
use call_journal::Trace;
use sprite_ids::NoMemory;
use std::alloc::Global;

/// What is counted of a trace: the records of each kind, and the units.
#[derive(Clone, Copy)]
pub(crate) enum Count {
    Burst,
    Issue,
    Enter,
    Return,
    Send,
    Fault,
    Deliver,
    Expire,
    Grant,
    Callback,
    Mode,
    Filled,
    Dropped,
    Dirtied,
    WroteBack,
    Opened,
    Closed,
    Shared,
    Learned,
    Freeze,
    Thaw,
    Units,
}

/// What is printed of a trace's counts: a line `stat NAME N` for each of the twenty-one kinds of records, in the order of
/// `Trace::counts`, and one for its units (this project). The one error is want of memory.
#[tactic(auto, using(crate::proofs::StatLaws::are_stats))]
pub fn stats(alloc: Global, trace: &Trace) -> Result<Vec<u8>, NoMemory>
    ensures { IfOk result (λ out. out.items ≡ stats_of trace.now) }
{
    let counts = trace.counts();
    stats_by(alloc, counts, trace.units())
}

// The lines of these counts.
fn stats_by(alloc: Global, counts: [u64; 21], units: u64) -> Result<Vec<u8>, NoMemory>
    ensures { IfOk result (λ out. out.items ≡ stats_by (slice_index counts) units) }
{
    let mut out = Vec::new(alloc);
    push_calls(alloc, &mut out, counts)?;
    push_grants(alloc, &mut out, counts)?;
    push_blocks(alloc, &mut out, counts)?;
    push_places(alloc, &mut out, counts)?;
    push_stat(alloc, &mut out, Count::Units, units)?;
    Ok(out)
}

// Puts the lines of what processes and packets did.
fn push_calls(alloc: Global, out: &mut Vec<u8>, counts: [u64; 21]) -> Result<(), NoMemory>
    ensures { OnOk result (out.new.items ≡ out.old.items ++ call_stats (slice_index counts)) }
{
    push_stat(alloc, out, Count::Burst, counts[0])?;
    push_stat(alloc, out, Count::Issue, counts[1])?;
    push_stat(alloc, out, Count::Enter, counts[2])?;
    push_stat(alloc, out, Count::Return, counts[3])?;
    push_stat(alloc, out, Count::Send, counts[4])?;
    push_stat(alloc, out, Count::Fault, counts[5])?;
    push_stat(alloc, out, Count::Deliver, counts[6])?;
    push_stat(alloc, out, Count::Expire, counts[7])
}

// Puts the lines of what servers granted and clients heard of it.
fn push_grants(alloc: Global, out: &mut Vec<u8>, counts: [u64; 21]) -> Result<(), NoMemory>
    ensures { OnOk result (out.new.items ≡ out.old.items ++ grant_stats (slice_index counts)) }
{
    push_stat(alloc, out, Count::Grant, counts[8])?;
    push_stat(alloc, out, Count::Callback, counts[9])?;
    push_stat(alloc, out, Count::Mode, counts[10])
}

// Puts the lines of what became of cached blocks.
fn push_blocks(alloc: Global, out: &mut Vec<u8>, counts: [u64; 21]) -> Result<(), NoMemory>
    ensures { OnOk result (out.new.items ≡ out.old.items ++ block_stats (slice_index counts)) }
{
    push_stat(alloc, out, Count::Filled, counts[11])?;
    push_stat(alloc, out, Count::Dropped, counts[12])?;
    push_stat(alloc, out, Count::Dirtied, counts[13])?;
    push_stat(alloc, out, Count::WroteBack, counts[14])
}

// Puts the lines of what became of streams, prefixes and moving processes.
fn push_places(alloc: Global, out: &mut Vec<u8>, counts: [u64; 21]) -> Result<(), NoMemory>
    ensures { OnOk result (out.new.items ≡ out.old.items ++ place_stats (slice_index counts)) }
{
    push_stat(alloc, out, Count::Opened, counts[15])?;
    push_stat(alloc, out, Count::Closed, counts[16])?;
    push_stat(alloc, out, Count::Shared, counts[17])?;
    push_stat(alloc, out, Count::Learned, counts[18])?;
    push_stat(alloc, out, Count::Freeze, counts[19])?;
    push_stat(alloc, out, Count::Thaw, counts[20])
}

// Puts the line of a count.
#[tactic(auto, unfolding(crate::specs::Stats::stat_line))]
fn push_stat(alloc: Global, out: &mut Vec<u8>, count: Count, number: u64) -> Result<(), NoMemory>
    ensures { OnOk result (out.new.items ≡ out.old.items ++ stat_line count number) }
{
    out.extend_from_slice(b"stat ")?;
    out.extend_from_slice(name_of(count))?;
    out.push(b' ')?;
    push_decimal(alloc, out, number)?;
    out.push(b'\n')?;
    Ok(())
}

// The name of a count.
#[tactic(auto, unfolding(crate::specs::Stats::name_of))]
fn name_of(count: Count) -> &'static [u8]
    ensures { result.now ≡ name_of count }
{
    match count {
        Count::Burst => b"Burst",
        Count::Issue => b"Issue",
        Count::Enter => b"Enter",
        Count::Return => b"Return",
        Count::Send => b"Send",
        Count::Fault => b"Fault",
        Count::Deliver => b"Deliver",
        Count::Expire => b"Expire",
        Count::Grant => b"Grant",
        Count::Callback => b"Callback",
        Count::Mode => b"Mode",
        Count::Filled => b"Filled",
        Count::Dropped => b"Dropped",
        Count::Dirtied => b"Dirtied",
        Count::WroteBack => b"WroteBack",
        Count::Opened => b"Opened",
        Count::Closed => b"Closed",
        Count::Shared => b"Shared",
        Count::Learned => b"Learned",
        Count::Freeze => b"Freeze",
        Count::Thaw => b"Thaw",
        Count::Units => b"units",
    }
}
