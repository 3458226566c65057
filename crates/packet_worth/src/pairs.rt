ghost use Rattle.std.specs.Prelude.{◌≡◌, ◌+◌, IfOk, OnOk};
ghost use Rattle.packet_worth.specs.Pairs.{Adds, pair_count, pair_of};

use indexmap::IndexMap;
use sprite_ids::{Kernel, NoMemory, TxNo};

/// Two kernels, that with the lower number first (this project).
#[derive(Clone, Copy, Debug, PartialEq, Eq, Hash)]
pub(crate) struct Pair {
    pub(crate) low: Kernel,
    pub(crate) high: Kernel,
}

/// A remote call that went between two kernels (this project).
#[derive(Clone, Copy, Debug, PartialEq, Eq, Hash)]
pub(crate) struct Sent {
    pub(crate) tx: TxNo,
    pub(crate) pair: Pair,
}

/// The place of a pair among those between which a remote call went (this project).
#[derive(Clone, Copy, Debug, PartialEq, Eq, Hash)]
pub(crate) struct Slot {
    pub(crate) tx: TxNo,
    pub(crate) place: u64,
}

/// The pair of two kernels, in whichever order.
pub(crate) fn pair_of(a: Kernel, b: Kernel) -> Pair
    ensures { result ≡ pair_of a b }
{
    if a.number() <= b.number() {
        Pair { low: a, high: b }
    } else {
        Pair { low: b, high: a }
    }
}

/// How much was counted between them.
pub(crate) fn pair_count(counts: &IndexMap<Pair, u64>, pair: &Pair) -> u64
    ensures { result ≡ pair_count counts.now.entries pair.now }
{
    match counts.get(pair) {
        Some(count) => *count,
        None => 0,
    }
}

/// Counts so many more. The errors are want of memory, and a count of 2^64, which no trace has.
pub(crate) fn add(counts: &mut IndexMap<Pair, u64>, pair: &Pair, more: u64) -> Result<(), NoMemory>
    ensures { OnOk result (Adds pair.now more counts.old.entries counts.new.entries) }
{
    let sum = pair_count(counts, pair).checked_add(more).ok_or(NoMemory)?;
    counts.insert(*pair, sum)?;
    Ok(())
}
