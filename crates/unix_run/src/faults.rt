ghost use Rattle.std.specs.Prelude.{◌≡◌, ◌&&◌, IfOk};
ghost use Rattle.std.specs.Option.{is_some};
ghost use Rattle.unix_calls.specs.State.{free_descriptor};
ghost use Rattle.unix_calls.specs.After.{is_path, may_break, may_fail, may_miss};

use crate::names::path_of;
use crate::opening::flags_of;
use process_machine::Call;
use sprite_ids::{Errno, NoMemory};
use std::alloc::Global;
use unix_calls::Process;
use unix_world::free_descriptor;

// Whether a text is a path of the process.
fn is_path(alloc: Global, p: &Process, text: &[u8]) -> Result<bool, NoMemory>
    ensures { IfOk result (λ is. is ≡ is_path p.now text.now) }
{
    Ok(path_of(alloc, p, text)?.is_some())
}

// Whether a call that makes a stream goes by its name to a server.
fn may_miss_opening(alloc: Global, p: &Process, text: &[u8]) -> Result<bool, NoMemory>
    ensures { IfOk result (λ may. may ≡ (is_some (free_descriptor p.now) && is_path p.now text.now)) }
{
    if free_descriptor(p).is_none() {
        return Ok(false);
    }
    is_path(alloc, p, text)
}

// Whether a call on two paths does.
fn may_miss_two(alloc: Global, p: &Process, old: &[u8], new: &[u8]) -> Result<bool, NoMemory>
    ensures { IfOk result (λ may. may ≡ (is_path p.now old.now && is_path p.now new.now)) }
{
    if !is_path(alloc, p, old)? {
        return Ok(false);
    }
    is_path(alloc, p, new)
}

// Whether a call goes by names to a server, which may be out of reach: no refusal up to BadName meets it.
fn may_miss(alloc: Global, p: &Process, call: &Call) -> Result<bool, NoMemory>
    ensures { IfOk result (λ may. may ≡ may_miss p.now call.now) }
{
    match call {
        Call::OpenFile { path, flags } => {
            if flags_of(*flags).is_none() {
                return Ok(false);
            }
            may_miss_opening(alloc, p, path.as_slice())
        }
        Call::PdMake { path } => may_miss_opening(alloc, p, path.as_slice()),
        Call::Stat { path } => is_path(alloc, p, path.as_slice()),
        Call::Mkdir { path } => is_path(alloc, p, path.as_slice()),
        Call::Rmdir { path } => is_path(alloc, p, path.as_slice()),
        Call::Unlink { path } => is_path(alloc, p, path.as_slice()),
        Call::Rename { old, new } => may_miss_two(alloc, p, old.as_slice(), new.as_slice()),
        Call::List { path, max: _ } => is_path(alloc, p, path.as_slice()),
        Call::Chdir { path } => is_path(alloc, p, path.as_slice()),
        _ => Ok(false),
    }
}

// Whether a kill may break the call off.
fn may_break(call: &Call) -> bool
    ensures { result ≡ may_break call.now }
{
    match call {
        Call::Wait => true,
        Call::PdGet { .. } => true,
        _ => false,
    }
}

/// Whether a call may have an error whatever its row gives: Unreachable where it goes by names, Interrupted where a kill of its
/// process is pending.
pub(crate) fn may_fail(
    alloc: Global,
    p: &Process,
    call: &Call,
    errno: Errno,
) -> Result<bool, NoMemory>
    ensures { IfOk result (λ may. may ≡ may_fail p.now call.now errno) }
{
    match errno {
        Errno::Unreachable => may_miss(alloc, p, call),
        Errno::Interrupted => Ok(p.killed && may_break(call)),
        _ => Ok(false),
    }
}
