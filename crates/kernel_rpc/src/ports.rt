ghost use Rattle.std.specs.Prelude.{◌≡◌, ◌<◌, ◌+◌, ◌||◌, ℕ, not, true, false, IfOk, length, slice_index_or};
ghost use Rattle.std.specs.List.{list_any};
ghost use Rattle.kernel_rpc.specs.Machine.{is_at_port};
ghost use Rattle.kernel_rpc.specs.Ports.{AreMarked};

use crate::call::Call;
use sprite_ids::{Kernel, NoMemory};
use std::alloc::Global;

// The least port at which none of the calls of the kernel is. It goes over the calls once.
pub(crate) fn least_port(alloc: Global, calls: &[Call], kernel: Kernel) -> Result<u32, NoMemory>
    requires { length calls.now < 4294967296 }
    ensures free { IfOk result (λ port. list_any (is_at_port kernel port) calls.now ≡ false) }
    ensures least { IfOk result (λ port. (lower : ℕ) → lower < port → list_any (is_at_port kernel lower) calls.now ≡ true) }
{
    let used = used_ports(alloc, calls, kernel)?;
    Ok(first_free(used.as_slice()))
}

// Which of the first ports are used: of as many as there are calls, and one more.
fn used_ports(alloc: Global, calls: &[Call], kernel: Kernel) -> Result<Vec<bool>, NoMemory>
    requires { length calls.now < 4294967296 }
    ensures len { IfOk result (λ used. length used.items ≡ length calls.now + 1) }
    ensures marked { IfOk result (λ used. AreMarked used.items kernel calls.now) }
{
    let mut used = vec![in alloc; false; calls.len() + 1]?;
    for call in calls {
        mark(&mut used, kernel, call);
    }
    Ok(used)
}

// Marks the port of the call, where that is one of the kernel.
fn mark(used: &mut Vec<bool>, kernel: Kernel, call: &Call)
    ensures len { length used.new.items ≡ length used.old.items }
    ensures marked { (port : ℕ) → port < length used.old.items → slice_index_or used.new.items port false ≡ (slice_index_or used.old.items port false || is_at_port kernel port call.now) }
{
    let port = call.port as usize;
    if call.from == kernel && port < used.len() {
        used[port] = true;
    }
}

// The first place that isn't marked.
fn first_free(used: &[bool]) -> u32
    requires short { length used.now < 4294967297 }
    requires some { list_any not used.now ≡ true }
    ensures inside { result < length used.now }
    ensures free { slice_index_or used.now result false ≡ false }
    ensures least { (lower : ℕ) → lower < result → slice_index_or used.now lower false ≡ true }
{
    for (port, is_used) in used.iter().enumerate() {
        if !*is_used {
            return port as u32;
        }
    }
    unreachable!()
}
