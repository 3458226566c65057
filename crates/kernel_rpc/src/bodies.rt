ghost use Rattle.std.specs.Prelude.{◌≡◌, IfOk};
ghost use Rattle.kernel_rpc.specs.Bodies.{HasMessage, IsMessage, Reads};

use crate::call::Call;
use sprite_bytes::Message;
use sprite_ids::{Bytes, NoMemory};
use std::alloc::Global;

// The message of which these are the bytes.
pub(crate) fn message_of<M: Message>(alloc: Global, bytes: &Bytes) -> Result<M, NoMemory>
    requires { Reads M.reading bytes.now }
    ensures { IfOk result (λ message. M.reading bytes.now ≡ Some message) }
{
    match M::read(alloc, bytes.as_slice())? {
        Some(message) => Ok(message),
        None => unreachable!(),
    }
}

// The reply that the call keeps.
pub(crate) fn kept_reply<M: Message>(alloc: Global, call: &Call) -> Result<M, NoMemory>
    requires { HasMessage M.reading call.now.reply }
    ensures { IfOk result (IsMessage M.reading call.now.reply) }
{
    match &call.reply {
        Some(bytes) => message_of(alloc, bytes),
        None => unreachable!(),
    }
}
