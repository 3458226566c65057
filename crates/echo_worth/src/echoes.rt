ghost use Rattle.std.specs.Prelude.{◌≡◌, None, slice_get};
ghost use Rattle.call_journal.specs.Calls.{is_name_call};
ghost use Rattle.call_journal.specs.WorthPackets.{is_server};
ghost use Rattle.trace_places.specs.Places.{is_kernel_of, place_kept};
ghost use Rattle.echo_worth.specs.Kept.{has_other, is_named, named_kept};
ghost use Rattle.echo_worth.specs.Echoes.{is_echo_by, is_limited_by};

use crate::kept::Kept;
use crate::keys::{CallTo, OtherAt};
use indexmap::IndexMap;
use process_machine::Call;
use sprite_ids::{Kernel, Pid};
use trace_places::{Place, place_in};
use trace_tables::{CallAt, call_of};
use unix_calls::{About, Description, SendKind};

/// Whether a packet of a kernel is an echo: the first of no stated kind for the sake of a name call, from its process's kernel to a
/// server (Welch and Ousterhout 1986).
pub(crate) fn is_echo(
    kept: &Kept,
    c: &Description,
    kernel: Kernel,
    to: Kernel,
    about: &Option<About>,
) -> bool
    ensures { result ≡ is_echo_by c.now kept.now kernel to about.now }
{
    let Some(about) = about else {
        return false;
    };
    let call = call_of(about);
    let other = OtherAt {
        kernel,
        call: CallTo { call, to },
    };
    is_server(c, to)
        && is_named(&kept.named, &call)
        && is_at(&kept.places, about.pid, kernel)
        && !kept.others.contains(&other)
}

/// Whether the tries of a packet are eight: it is a broadcast, or an echo.
pub(crate) fn is_limited(
    kept: &Kept,
    c: &Description,
    kernel: Kernel,
    to: Kernel,
    about: &Option<About>,
    kind: &SendKind,
) -> bool
    ensures { result ≡ is_limited_by c.now kept.now kernel to about.now kind.now }
{
    match kind {
        SendKind::Broadcast { .. } => true,
        SendKind::Other => is_echo(kept, c, kernel, to, about),
        _ => false,
    }
}

// Whether the kernel serves a domain.
fn is_server(c: &Description, kernel: Kernel) -> bool
    ensures { result ≡ is_server c.now kernel }
{
    let at = usize::from(kernel.number());
    if at >= 1 && at - 1 < c.kernels.len() {
        c.kernels.at(at - 1).serves.len() != 0
    } else {
        false
    }
}

// Whether the call's first issue was of a name call.
fn is_named(named: &IndexMap<CallAt, bool>, call: &CallAt) -> bool
    ensures { result ≡ is_named (named_kept named.now.entries call.now) }
{
    match named.get(call) {
        Some(named) => *named,
        None => false,
    }
}

// Whether the process is at that kernel, or on its way from there.
fn is_at(places: &IndexMap<u64, Place>, pid: Pid, kernel: Kernel) -> bool
    ensures { result ≡ is_kernel_of kernel (place_kept places.now.entries pid) }
{
    match place_in(places, pid) {
        Some(place) => place.kernel == kernel,
        None => false,
    }
}

/// Whether a call goes by names.
pub(crate) fn is_name_call(call: &Call) -> bool
    ensures { result ≡ is_name_call call.now }
{
    match call {
        Call::OpenFile { .. }
        | Call::Stat { .. }
        | Call::Mkdir { .. }
        | Call::Rmdir { .. }
        | Call::Unlink { .. }
        | Call::Rename { .. }
        | Call::List { .. }
        | Call::Chdir { .. }
        | Call::PdMake { .. } => true,
        _ => false,
    }
}
