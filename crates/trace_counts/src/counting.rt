ghost use Rattle.std.specs.Prelude.{◌≡◌, ◌≤◌, ◌+◌, ◌^◌, IfOk, OnErr};
ghost use Rattle.sprite_ids.specs.Lists.{one_if};

use sprite_ids::NoMemory;

/// A count, and one more if so (this project). The one error comes exactly where that would be 2^64, which it is of no trace.
pub fn added(count: u64, more: bool) -> Result<u64, NoMemory>
    ensures sum { IfOk result (λ next. next ≡ count + one_if more) }
    ensures limit { OnErr result (2 ^ 64 ≤ count + one_if more) }
{
    if more {
        count.checked_add(1).ok_or(NoMemory)
    } else {
        Ok(count)
    }
}
