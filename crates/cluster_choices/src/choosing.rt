ghost use Rattle.std.specs.Prelude.{◌≡◌, length, slice_get};
ghost use Rattle.cluster_choices.specs.Choosing.{choices_at};

use crate::choice::Choice;
use cluster_kernels::State;
use kernel_rpc::Wire;
use link_plan::Link;
use sprite_ids::Kernel;
use wire_format::Packet;

/// How much may happen next at the kernel, apart from its processes.
pub fn choice_count<L: Link>(state: &State, wire: &Wire<Packet, L>, kernel: Kernel) -> u64
    ensures { result ≡ length (choices_at kernel state.now wire.now.machine) }
{
    let due = usize::from(state.due(kernel).is_some());
    (wire.copies_offered(kernel) + wire.timers_due(kernel) + due) as u64
}

/// What may happen next at the kernel, apart from its processes, at that place: the copies of packets that may come, in the order of
/// sending, then the timers that may fire, by ascending calls, and then the block that is due. None exactly where there is nothing at
/// that place.
pub fn choice_at<L: Link>(
    state: &State,
    wire: &Wire<Packet, L>,
    kernel: Kernel,
    place: u64,
) -> Option<Choice>
    ensures { result ≡ slice_get (choices_at kernel state.now wire.now.machine) place }
{
    let place = place as usize;
    if let Some(copy) = wire.copy_offered(kernel, place) {
        return Some(Choice::Deliver(copy));
    }
    let place = place - wire.copies_offered(kernel);
    if let Some(tx) = wire.timer_due(kernel, place) {
        return Some(Choice::Expire(tx));
    }
    if place != wire.timers_due(kernel) {
        return None;
    }
    let (file, block) = state.due(kernel)?;
    Some(Choice::WriteBack(file, block))
}
