ghost use Rattle.std.specs.Prelude.{◌≡◌, IfOk, true};
ghost use Rattle.cluster_wire.specs.Firing.{may_fire, Fires};

use kernel_rpc::{Expired, Wire};
use link_plan::Link;
use sprite_ids::{Kernel, NoMemory, TxNo};
use std::alloc::Global;
use wire_format::Packet;

/// Whether the call is the kernel's and its timer may fire (Welch 1986).
pub fn may_fire<L: Link>(wire: &Wire<Packet, L>, kernel: Kernel, tx: TxNo) -> bool
    ensures { result ≡ may_fire kernel wire.now.machine tx }
{
    match wire.call(tx) {
        Some(call) => call.from == kernel && wire.may_expire(tx),
        None => false,
    }
}

/// The timer of a call of the kernel fires: the call is given up exactly where this was its last try, and else its request goes out
/// again (Welch 1986). The one error is want of memory.
#[tactic(auto, using(crate::proofs::ComeLaws::timer_fires))]
pub fn fire<L: Link>(
    alloc: Global,
    wire: &mut Wire<Packet, L>,
    kernel: Kernel,
    tx: TxNo,
) -> Result<Expired, NoMemory>
    requires { may_fire kernel wire.old.machine tx ≡ true }
    ensures { IfOk result (λ expired. Fires L.faults L.asked kernel tx expired wire.old wire.new) }
{
    wire.expire(alloc, tx)
}
