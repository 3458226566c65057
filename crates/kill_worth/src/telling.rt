ghost use Rattle.std.specs.Prelude.{◌≡◌, ◌&&◌, [], ◌∷◌, ◌++◌, IfOk, OnOk, length};
ghost use Rattle.unix_calls.specs.Lawful.{Lawful};
ghost use Rattle.kill_worth.specs.Told.{are_paid, kills_are_told, kills_of};

use crate::keys::KillAt;
use crate::kills::{keep_kills, kill_kept, no_kills};
use crate::told::{is_told, nothing_told, put_before};
use sprite_ids::NoMemory;
use std::alloc::Global;
use unix_calls::{Description, Rec};

/// Whether each first kill of the trace, of a process that is away from its home, is told to the kernel where the process is by a
/// packet of its home, before the home's next burst, delivery or try that is over (this project). The one error is want of memory.
pub fn kills_are_told(alloc: Global, c: &Description, trace: &[Rec]) -> Result<bool, NoMemory>
    requires { Lawful c.now }
    ensures { IfOk result (λ told. told ≡ kills_are_told c.now trace.now) }
{
    let kills = kills_of(alloc, c, trace)?;
    are_paid(alloc, kills.as_slice(), trace)
}

// Where the kills of a trace are to be told, record by record. The one error is want of memory.
fn kills_of(alloc: Global, c: &Description, trace: &[Rec]) -> Result<Vec<Option<KillAt>>, NoMemory>
    requires { Lawful c.now }
    ensures { IfOk result (λ kills. kills.items ≡ kills_of c.now trace.now) }
{
    let mut state = no_kills(alloc, c)?;
    let mut kills = Vec::new(alloc);
    for rec in trace {
        let kill = kill_kept(&state, &rec.event);
        put_kill(&mut kills, &kill)?;
        keep_kills(&mut state, rec)?;
    }
    Ok(kills)
}

fn put_kill(kills: &mut Vec<Option<KillAt>>, kill: &Option<KillAt>) -> Result<(), NoMemory>
    ensures { OnOk result (kills.new.items ≡ kills.old.items ++ kill.now ∷ []) }
{
    kills.extend_from_slice(&[*kill])?;
    Ok(())
}

// Whether each kill is told by the records behind it. The one error is want of memory.
fn are_paid(alloc: Global, kills: &[Option<KillAt>], trace: &[Rec]) -> Result<bool, NoMemory>
    requires { length kills.now ≡ length trace.now }
    ensures { IfOk result (λ paid. paid ≡ are_paid kills.now trace.now) }
{
    let mut told = nothing_told(alloc);
    let mut paid = true;
    let mut place = trace.len();
    while place > 0 {
        place -= 1;
        let here = is_told(&told, &kills[place]);
        put_before(&mut told, &trace[place])?;
        paid = are_both(here, paid);
    }
    Ok(paid)
}

/// Whether both are so.
pub(crate) fn are_both(one: bool, other: bool) -> bool
    ensures { result ≡ (one && other) }
{
    one && other
}
