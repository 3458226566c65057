ghost use Rattle.std.specs.Prelude.{◌≡◌, ◌+◌, IfOk, OnOk};
ghost use Rattle.packet_worth.specs.Counts.{NumberCounted, WayCounted, number_count, way_count};

use indexmap::IndexMap;
use sprite_ids::{Kernel, NoMemory, TxNo};

/// A remote call, as it goes to one receiver (this project).
#[derive(Clone, Copy, Debug, PartialEq, Eq, Hash)]
pub(crate) struct Way {
    pub(crate) tx: TxNo,
    pub(crate) receiver: Kernel,
}

/// How often it was counted.
pub(crate) fn way_count(counts: &IndexMap<Way, u64>, way: &Way) -> u64
    ensures { result ≡ way_count counts.now.entries way.now }
{
    match counts.get(way) {
        Some(count) => *count,
        None => 0,
    }
}

/// How often a remote call was counted.
pub(crate) fn number_count(counts: &IndexMap<TxNo, u64>, tx: &TxNo) -> u64
    ensures { result ≡ number_count counts.now.entries tx.now }
{
    match counts.get(tx) {
        Some(count) => *count,
        None => 0,
    }
}

/// Counts it once more. The errors are want of memory, and that it was counted 2^64 times, which no trace does.
pub(crate) fn count_way(counts: &mut IndexMap<Way, u64>, way: Way) -> Result<(), NoMemory>
    ensures { OnOk result (WayCounted way counts.old.entries counts.new.entries) }
{
    let more = one_more(way_count(counts, &way))?;
    counts.insert(way, more)?;
    Ok(())
}

/// The same of a remote call.
pub(crate) fn count_number(counts: &mut IndexMap<TxNo, u64>, tx: TxNo) -> Result<(), NoMemory>
    ensures { OnOk result (NumberCounted tx counts.old.entries counts.new.entries) }
{
    let more = one_more(number_count(counts, &tx))?;
    counts.insert(tx, more)?;
    Ok(())
}

// One more. The one error is that it would be 2^64.
fn one_more(count: u64) -> Result<u64, NoMemory>
    ensures { IfOk result (λ next. next ≡ count + 1) }
{
    count.checked_add(1).ok_or(NoMemory)
}
