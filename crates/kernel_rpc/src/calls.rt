ghost use Rattle.std.specs.Prelude.{◌≡◌, ◌≤◌, Some, Option, option_map};
ghost use Rattle.std.specs.List.{find, position};
ghost use Rattle.kernel_rpc.specs.Machine.{is_call, lost_more, is_last, is_taken};
ghost use Rattle.kernel_rpc.specs.Table.{Ascend};

use crate::call::Call;
use crate::receivers::is_held;
use sprite_ids::{Tries, TxNo};

// How many lost tries come before the last one (this project).
const BEFORE_LAST: u8 = 7;

// Where the call stands. It is found by bisection, since the calls ascend.
pub(crate) fn place_of(calls: &[Call], tx: TxNo) -> Option<usize>
    requires { Ascend calls.now }
    ensures { result ≡ position (is_call tx) calls.now }
{
    let at = calls.partition_point(|call| call.tx.0 < tx.0);
    if at < calls.len() && calls[at].tx == tx {
        return Some(at);
    }
    None
}

// The unfinished call of that number.
pub(crate) fn find_call(calls: &[Call], tx: TxNo) -> Option<&Call>
    requires { Ascend calls.now }
    ensures { option_map (λ call. call.now) result ≡ find (is_call tx) calls.now }
{
    match place_of(calls, tx) {
        Some(at) => Some(&calls[at]),
        None => None,
    }
}

// How many tries were lost, after one more that wasn't the last one.
pub(crate) fn lost_more(tries: Tries, lost: u8) -> u8
    ensures { result ≡ lost_more tries lost }
{
    match tries {
        Tries::Eight => lost.saturating_add(1).min(BEFORE_LAST),
        Tries::Always => lost,
    }
}

// Whether the call's next lost try is its last one.
pub(crate) fn is_last(call: &Call) -> bool
    ensures { result ≡ is_last call.now }
{
    match call.tries {
        Tries::Eight => BEFORE_LAST <= call.lost,
        Tries::Always => false,
    }
}

// Whether a receiver has the call.
pub(crate) fn is_taken(call: &Call) -> bool
    ensures { result ≡ is_taken call.now }
{
    call.reply.is_none() && is_held(call.receivers.as_slice())
}
