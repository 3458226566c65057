ghost use Rattle.std.specs.Prelude.{◌≡◌, IfOk};
ghost use Rattle.unix_calls.specs.Lawful.{Lawful};
ghost use Rattle.call_journal.specs.WorthKills.{kills_are_heeded};

use crate::silence::killed_processes_are_silent;
use crate::telling::{are_both, kills_are_told};
use sprite_ids::NoMemory;
use std::alloc::Global;
use unix_calls::{Description, Rec};

/// Whether the kills of the trace are heeded: where a process is away from its home at its first kill, its kernel is told at once,
/// and no process issues a call where a kill of it is known (this project). The one error is want of memory.
pub fn kills_are_heeded(alloc: Global, c: &Description, trace: &[Rec]) -> Result<bool, NoMemory>
    requires lawful { Lawful c.now }
    ensures { IfOk result (λ worth. worth ≡ kills_are_heeded c.now trace.now) }
{
    let told = kills_are_told(alloc, c, trace)?;
    let silent = killed_processes_are_silent(alloc, c, trace)?;
    Ok(are_both(told, silent))
}
