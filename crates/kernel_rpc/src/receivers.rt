ghost use Rattle.std.specs.Prelude.{◌≡◌};
ghost use Rattle.std.specs.List.{list_any, position};
ghost use Rattle.kernel_rpc.specs.Machine.{is_at, part_of, with_part, is_holding, holds};

use crate::call::{Part, Receiver};
use sprite_ids::{Items, Kernel};

// Where the receiver stands.
fn place_of(receivers: &[Receiver], kernel: Kernel) -> Option<usize>
    ensures { result ≡ position (is_at kernel) receivers.now }
{
    receivers
        .iter()
        .position(|receiver| receiver.kernel == kernel)
}

// How far the kernel is with the request; None where it is no receiver.
pub(crate) fn part_of(receivers: &[Receiver], kernel: Kernel) -> Option<Part>
    ensures { result ≡ part_of kernel receivers.now }
{
    receivers
        .iter()
        .find(|receiver| receiver.kernel == kernel)
        .map(|receiver| receiver.part)
}

// The receiver got further.
pub(crate) fn set_part(receivers: &mut Items<Receiver>, kernel: Kernel, part: Part)
    ensures { receivers.new ≡ with_part kernel part receivers.old }
{
    if let Some(at) = place_of(receivers.as_slice(), kernel) {
        let mut receiver = *receivers.at(at);
        receiver.part = part;
        receivers.replace(at, receiver);
    }
}

// Whether a receiver of that part has the request.
pub(crate) fn is_holding(part: Part) -> bool
    ensures { result ≡ is_holding part }
{
    match part {
        Part::Holding => true,
        Part::Waiting | Part::Silent | Part::Answered => false,
    }
}

// Whether one of the receivers has the request.
pub(crate) fn is_held(receivers: &[Receiver]) -> bool
    ensures { result ≡ list_any (λ receiver. is_holding receiver.part) receivers.now }
{
    receivers.iter().any(|receiver| is_holding(receiver.part))
}
